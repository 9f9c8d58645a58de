//! What becomes of a frame, and its words.
ghost use Rattle.std.specs.Prelude.{Some};
ghost use Rattle.frame_verdict.specs.VerdictText.{reason_word, hardware_text, verdict_text};

use net_wire::pretty::hex::HexPair;
use net_wire::{EthernetAddress, Ipv4Address, Ipv4Cidr};
use std::fmt;

/// Why a frame is ignored.
#[derive(Clone, Copy, Debug, PartialEq, Eq)]
pub enum Reason {
    /// It has no Ethernet header.
    Short,
    /// It goes to another station.
    Station,
    /// It has the ether type of ARP, and no packet that counts.
    Arp,
    /// It has neither the ether type of IPv4 nor that of ARP.
    EtherType,
    /// It has no IPv4 packet that is all there.
    Cut,
    /// The checksum of the IPv4 header is wrong.
    HeaderSum,
    /// The packet is a fragment.
    Fragment,
    /// The source is not the address of one host.
    Source,
    /// The packet carries no UDP.
    Protocol,
    /// The packet has no UDP datagram that is all there.
    Udp,
    /// The checksum of the datagram is wrong.
    UdpSum,
    /// The datagram goes between ports of no client of the host.
    Port,
    /// The datagram comes from the port of name servers, and from none that the host asks.
    Server,
    /// The datagram is for the DHCP client, and no DHCP message.
    Message,
    /// The message is for another client.
    Client,
    /// The message has not the id of the host's last one.
    Id,
    /// The message is of no type that a server answers with.
    Kind,
    /// The message lacks what its type needs.
    Values,
    /// The host has an offer or a lease.
    Offer,
    /// The host has neither an offer nor a lease to be acknowledged.
    Ack,
    /// There is nothing to refuse, or refusals are ignored.
    Nak,
    /// The datagram decides no query.
    Response,
}

impl Reason {
    ghost use Rattle.std.specs.Prelude.{◌≡◌};

    /// Its word.
    pub fn word(self) -> &'static str
        ensures value { result.now ≡ reason_word self }
    {
        match self {
            Reason::Short => "short",
            Reason::Station => "station",
            Reason::Arp => "arp",
            Reason::EtherType => "ethertype",
            Reason::Cut => "cut",
            Reason::HeaderSum => "header-sum",
            Reason::Fragment => "fragment",
            Reason::Source => "source",
            Reason::Protocol => "protocol",
            Reason::Udp => "udp",
            Reason::UdpSum => "udp-sum",
            Reason::Port => "port",
            Reason::Server => "server",
            Reason::Message => "message",
            Reason::Client => "client",
            Reason::Id => "id",
            Reason::Kind => "kind",
            Reason::Values => "values",
            Reason::Offer => "offer",
            Reason::Ack => "ack",
            Reason::Nak => "nak",
            Reason::Response => "response",
        }
    }
}

/// What becomes of a frame that arrives.
#[derive(Clone, Copy, Debug, PartialEq, Eq)]
pub enum Verdict {
    /// It does what a tick does.
    Ignored(Reason),
    /// It tells that a station has an address.
    Arp {
        address: Ipv4Address,
        hardware: EthernetAddress,
    },
    /// It offers an address, which is requested.
    Offer(Ipv4Address),
    /// It leases an address with the prefix of its network.
    Ack(Ipv4Cidr),
    /// It takes back the offer or the lease.
    Nak,
    /// It decides the query of this number; the lowest, where it decides several.
    Response(u32),
}

/// A hardware address with colons between its bytes.
#[derive(Clone, Copy, Debug)]
struct HardwareText(EthernetAddress);

impl fmt::Display for HardwareText {
    ghost output = { λ text. Some (hardware_text text.0.0) };

    #[tactic(auto, unfolding(crate::specs::VerdictText::hardware_text))]
    fn fmt<W: fmt::Write>(&self, f: &mut fmt::Formatter<W>) -> fmt::Result {
        let [a, b, c, d, e, g] = self.0.0;
        let (a, b, c) = (HexPair(a), HexPair(b), HexPair(c));
        let (d, e, g) = (HexPair(d), HexPair(e), HexPair(g));
        write!(f, "{a}:{b}:{c}:{d}:{e}:{g}")
    }
}

/// The words of a verdict, as a report prints them.
impl fmt::Display for Verdict {
    ghost output = { λ verdict. Some (verdict_text verdict) };

    #[tactic(auto, unfolding(crate::specs::VerdictText::verdict_text))]
    fn fmt<W: fmt::Write>(&self, f: &mut fmt::Formatter<W>) -> fmt::Result {
        match *self {
            Verdict::Ignored(reason) => {
                let word = reason.word();
                write!(f, "ignored {word}")
            }
            Verdict::Arp { address, hardware } => {
                let hardware = HardwareText(hardware);
                write!(f, "arp {address} {hardware}")
            }
            Verdict::Offer(address) => write!(f, "offer {address}"),
            Verdict::Ack(cidr) => {
                let address = cidr.address;
                let prefix_len = cidr.prefix_len;
                write!(f, "ack {address}/{prefix_len}")
            }
            Verdict::Nak => write!(f, "nak"),
            Verdict::Response(query) => write!(f, "response {query}"),
        }
    }
}
