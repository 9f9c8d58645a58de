//! Why an IPv4 header is refused (RFC 791, section 3.1).

use crate::err::ip_auth;
use ether_link::err::LenError;
use std::error::Error;
use std::fmt;

/// What is wrong in the bytes of a header.
#[derive(Clone, Copy, Debug, PartialEq, Eq, Hash)]
pub enum HeaderError {
    /// Another version than 4.
    UnexpectedVersion { version_number: u8 },
    /// A header length, in words of 4 bytes, below 5.
    HeaderLengthSmallerThanHeader { ihl: u8 },
}

impl fmt::Display for HeaderError {
    ghost use Rattle.std.specs.Prelude.{Some};
    ghost use Rattle.ether_ip.specs.TextsIp.{ipv4_text};

    ghost output = { λ error. Some (ipv4_text error) };

    fn fmt<W: fmt::Write>(&self, f: &mut fmt::Formatter<W>) -> fmt::Result {
        match self {
            HeaderError::UnexpectedVersion { version_number } => write!(
                f,
                "ipv4 version {version_number}"
            ),
            HeaderError::HeaderLengthSmallerThanHeader { ihl } => write!(
                f,
                "ipv4 header length {ihl}"
            ),
        }
    }
}

impl Error for HeaderError {}

/// Why a slice begins with no IPv4 header.
#[derive(Clone, Copy, Debug, PartialEq, Eq, Hash)]
pub enum HeaderSliceError {
    Len(LenError),
    Content(HeaderError),
}

impl fmt::Display for HeaderSliceError {
    ghost use Rattle.std.specs.Prelude.{Some};
    ghost use Rattle.ether_ip.specs.TextsIp.{ipv4_header_slice_text};

    ghost output = { λ error. Some (ipv4_header_slice_text error) };

    fn fmt<W: fmt::Write>(&self, f: &mut fmt::Formatter<W>) -> fmt::Result {
        match self {
            HeaderSliceError::Len(error) => write!(f, "{error}"),
            HeaderSliceError::Content(error) => write!(f, "{error}"),
        }
    }
}

impl Error for HeaderSliceError {}

/// Why a slice begins with no IPv4 header with its extensions.
#[derive(Clone, Copy, Debug, PartialEq, Eq, Hash)]
pub enum SliceError {
    Len(LenError),
    Header(HeaderError),
    Exts(ip_auth::HeaderError),
}

impl fmt::Display for SliceError {
    ghost use Rattle.std.specs.Prelude.{Some};
    ghost use Rattle.ether_ip.specs.TextsIp.{ipv4_slice_text};

    ghost output = { λ error. Some (ipv4_slice_text error) };

    fn fmt<W: fmt::Write>(&self, f: &mut fmt::Formatter<W>) -> fmt::Result {
        match self {
            SliceError::Len(error) => write!(f, "{error}"),
            SliceError::Header(error) => write!(f, "{error}"),
            SliceError::Exts(error) => write!(f, "{error}"),
        }
    }
}

impl Error for SliceError {}
