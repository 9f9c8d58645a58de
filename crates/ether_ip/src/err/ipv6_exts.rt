//! Why an extension header of IPv6 is refused (RFC 8200, section 4).

use crate::err::ip_auth;
use ether_link::err::LenError;
use std::error::Error;
use std::fmt;

/// What is wrong in the bytes or in the place of an extension header.
#[derive(Clone, Copy, Debug, PartialEq, Eq, Hash)]
pub enum HeaderError {
    /// Hop-by-hop options that do not stand right behind the IPv6 header (RFC 8200, section 4.1).
    HopByHopNotAtStart,
    IpAuth(ip_auth::HeaderError),
}

impl fmt::Display for HeaderError {
    ghost use Rattle.std.specs.Prelude.{Some};
    ghost use Rattle.ether_ip.specs.TextsIp.{ipv6_exts_text};

    ghost output = { λ error. Some (ipv6_exts_text error) };

    fn fmt<W: fmt::Write>(&self, f: &mut fmt::Formatter<W>) -> fmt::Result {
        match self {
            HeaderError::HopByHopNotAtStart => f.write_str("hop-by-hop not first"),
            HeaderError::IpAuth(error) => write!(f, "{error}"),
        }
    }
}

impl Error for HeaderError {}

/// Why a slice begins with no extension header.
#[derive(Clone, Copy, Debug, PartialEq, Eq, Hash)]
pub enum HeaderSliceError {
    Len(LenError),
    Content(HeaderError),
}

impl fmt::Display for HeaderSliceError {
    ghost use Rattle.std.specs.Prelude.{Some};
    ghost use Rattle.ether_ip.specs.TextsIp.{ipv6_exts_header_slice_text};

    ghost output = { λ error. Some (ipv6_exts_header_slice_text error) };

    fn fmt<W: fmt::Write>(&self, f: &mut fmt::Formatter<W>) -> fmt::Result {
        match self {
            HeaderSliceError::Len(error) => write!(f, "{error}"),
            HeaderSliceError::Content(error) => write!(f, "{error}"),
        }
    }
}

impl Error for HeaderSliceError {}
