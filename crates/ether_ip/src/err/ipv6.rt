//! Why an IPv6 header is refused (RFC 8200, section 3).

use crate::err::ipv6_exts;
use ether_link::err::LenError;
use std::error::Error;
use std::fmt;

/// What is wrong in the bytes of a header.
#[derive(Clone, Copy, Debug, PartialEq, Eq, Hash)]
pub enum HeaderError {
    /// Another version than 6.
    UnexpectedVersion { version_number: u8 },
}

impl fmt::Display for HeaderError {
    ghost use Rattle.std.specs.Prelude.{Some};
    ghost use Rattle.ether_ip.specs.TextsIp.{ipv6_text};

    ghost output = { λ error. Some (ipv6_text error) };

    fn fmt<W: fmt::Write>(&self, f: &mut fmt::Formatter<W>) -> fmt::Result {
        match self {
            HeaderError::UnexpectedVersion { version_number } => write!(
                f,
                "ipv6 version {version_number}"
            ),
        }
    }
}

impl Error for HeaderError {}

/// Why a slice begins with no IPv6 header.
#[derive(Clone, Copy, Debug, PartialEq, Eq, Hash)]
pub enum HeaderSliceError {
    Len(LenError),
    Content(HeaderError),
}

impl fmt::Display for HeaderSliceError {
    ghost use Rattle.std.specs.Prelude.{Some};
    ghost use Rattle.ether_ip.specs.TextsIp.{ipv6_header_slice_text};

    ghost output = { λ error. Some (ipv6_header_slice_text error) };

    fn fmt<W: fmt::Write>(&self, f: &mut fmt::Formatter<W>) -> fmt::Result {
        match self {
            HeaderSliceError::Len(error) => write!(f, "{error}"),
            HeaderSliceError::Content(error) => write!(f, "{error}"),
        }
    }
}

impl Error for HeaderSliceError {}

/// Why a slice begins with no IPv6 header with its extensions.
#[derive(Clone, Copy, Debug, PartialEq, Eq, Hash)]
pub enum SliceError {
    Len(LenError),
    Header(HeaderError),
    Exts(ipv6_exts::HeaderError),
}

impl fmt::Display for SliceError {
    ghost use Rattle.std.specs.Prelude.{Some};
    ghost use Rattle.ether_ip.specs.TextsIp.{ipv6_slice_text};

    ghost output = { λ error. Some (ipv6_slice_text error) };

    fn fmt<W: fmt::Write>(&self, f: &mut fmt::Formatter<W>) -> fmt::Result {
        match self {
            SliceError::Len(error) => write!(f, "{error}"),
            SliceError::Header(error) => write!(f, "{error}"),
            SliceError::Exts(error) => write!(f, "{error}"),
        }
    }
}

impl Error for SliceError {}
