//! Why a part of a packet is refused, whichever part it is.

use crate::err::{ip, ip_auth, ipv4, ipv6, ipv6_exts, tcp};
use ether_link::err::{LenError, linux_sll, macsec};
use std::error::Error;
use std::fmt;

/// Why a part of a packet is refused.
#[derive(Clone, Copy, Debug, PartialEq, Eq, Hash)]
pub enum SliceError {
    Len(LenError),
    LinuxSll(linux_sll::HeaderError),
    Macsec(macsec::HeaderError),
    Ip(ip::HeaderError),
    Ipv4(ipv4::HeaderError),
    Ipv6(ipv6::HeaderError),
    /// An authentication header behind an IPv4 header.
    Ipv4Exts(ip_auth::HeaderError),
    Ipv6Exts(ipv6_exts::HeaderError),
    Tcp(tcp::HeaderError),
}

impl fmt::Display for SliceError {
    ghost use Rattle.std.specs.Prelude.{Some};
    ghost use Rattle.ether_ip.specs.TextsPacket.{packet_text};

    ghost output = { λ error. Some (packet_text error) };

    fn fmt<W: fmt::Write>(&self, f: &mut fmt::Formatter<W>) -> fmt::Result {
        match self {
            SliceError::Len(error) => write!(f, "{error}"),
            SliceError::LinuxSll(error) => write!(f, "{error}"),
            SliceError::Macsec(error) => write!(f, "{error}"),
            SliceError::Ip(error) => write!(f, "{error}"),
            SliceError::Ipv4(error) => write!(f, "{error}"),
            SliceError::Ipv6(error) => write!(f, "{error}"),
            SliceError::Ipv4Exts(error) => write!(f, "{error}"),
            SliceError::Ipv6Exts(error) => write!(f, "{error}"),
            SliceError::Tcp(error) => write!(f, "{error}"),
        }
    }
}

impl Error for SliceError {}
