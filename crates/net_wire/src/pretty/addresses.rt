//! Addresses, ether types and protocols as text.
ghost use Rattle.std.specs.Prelude.{Some};
ghost use Rattle.net_wire.specs.Pretty.{hardware_address_text, ipv4_address_text, ether_type_text, protocol_text};

use crate::pretty::hex::HexPair;
use crate::{EthernetAddress, Ipv4Address};
use std::fmt;

/// Two digits a byte, with dashes between them (IEEE 802, section 8.1).
impl fmt::Display for EthernetAddress {
    ghost output = { λ address. Some (hardware_address_text address.0) };

    #[tactic(auto, unfolding(crate::specs::Pretty::hardware_address_text))]
    fn fmt<W: fmt::Write>(&self, f: &mut fmt::Formatter<W>) -> fmt::Result {
        let [a, b, c, d, e, g] = self.0;
        let (a, b, c) = (HexPair(a), HexPair(b), HexPair(c));
        let (d, e, g) = (HexPair(d), HexPair(e), HexPair(g));
        write!(f, "{a}-{b}-{c}-{d}-{e}-{g}")
    }
}

/// Four decimal numbers with dots between them.
impl fmt::Display for Ipv4Address {
    ghost output = { λ address. Some (ipv4_address_text address.0) };

    #[tactic(auto, unfolding(crate::specs::Pretty::ipv4_address_text))]
    fn fmt<W: fmt::Write>(&self, f: &mut fmt::Formatter<W>) -> fmt::Result {
        let [a, b, c, d] = self.0;
        write!(f, "{a}.{b}.{c}.{d}")
    }
}

/// An ether type by its name, or by its number.
#[derive(Clone, Copy, Debug)]
pub struct EtherTypeText(pub u16);

impl fmt::Display for EtherTypeText {
    ghost output = { λ number. Some (ether_type_text number.0) };

    #[tactic(auto, unfolding(crate::specs::Pretty::ether_type_text))]
    fn fmt<W: fmt::Write>(&self, f: &mut fmt::Formatter<W>) -> fmt::Result {
        match self.0 {
            0x0800 => write!(f, "IPv4"),
            0x0806 => write!(f, "ARP"),
            0x86dd => write!(f, "IPv6"),
            number => {
                let high = HexPair((number / 256) as u8);
                let low = HexPair((number % 256) as u8);
                write!(f, "0x{high}{low}")
            }
        }
    }
}

/// An IP protocol by its name, or by its number.
#[derive(Clone, Copy, Debug)]
pub struct ProtocolText(pub u8);

impl fmt::Display for ProtocolText {
    ghost output = { λ number. Some (protocol_text number.0) };

    #[tactic(auto, unfolding(crate::specs::Pretty::protocol_text))]
    fn fmt<W: fmt::Write>(&self, f: &mut fmt::Formatter<W>) -> fmt::Result {
        match self.0 {
            1 => write!(f, "ICMP"),
            2 => write!(f, "IGMP"),
            6 => write!(f, "TCP"),
            17 => write!(f, "UDP"),
            58 => write!(f, "ICMPv6"),
            number => {
                let number = HexPair(number);
                write!(f, "0x{number}")
            }
        }
    }
}
