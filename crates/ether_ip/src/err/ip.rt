//! Why the headers of an IP packet of either version are refused.
ghost use Rattle.std.specs.Prelude.{◌≡◌, ◌+◌, ◌≤◌};

use crate::err::{ip_auth, ipv6_exts};
use ether_link::err::LenError;
use std::error::Error;
use std::fmt;

/// What is wrong in the first byte of an IP header.
#[derive(Clone, Copy, Debug, PartialEq, Eq, Hash)]
pub enum HeaderError {
    /// Another version than 4 and 6.
    UnsupportedIpVersion { version_number: u8 },
    /// Version 4 with a header length, in words of 4 bytes, below 5.
    Ipv4HeaderLengthSmallerThanHeader { ihl: u8 },
}

impl fmt::Display for HeaderError {
    ghost use Rattle.std.specs.Prelude.{Some};
    ghost use Rattle.ether_ip.specs.TextsIp.{ip_text};

    ghost output = { λ error. Some (ip_text error) };

    fn fmt<W: fmt::Write>(&self, f: &mut fmt::Formatter<W>) -> fmt::Result {
        match self {
            HeaderError::UnsupportedIpVersion { version_number } => write!(
                f,
                "ip version {version_number}"
            ),
            HeaderError::Ipv4HeaderLengthSmallerThanHeader { ihl } => write!(
                f,
                "ipv4 header length {ihl}"
            ),
        }
    }
}

impl Error for HeaderError {}

/// What is wrong in the bytes of an IP header or of an extension header behind it.
#[derive(Clone, Copy, Debug, PartialEq, Eq, Hash)]
pub enum HeadersError {
    Ip(HeaderError),
    Ipv4Ext(ip_auth::HeaderError),
    Ipv6Ext(ipv6_exts::HeaderError),
}

impl fmt::Display for HeadersError {
    ghost use Rattle.std.specs.Prelude.{Some};
    ghost use Rattle.ether_ip.specs.TextsIp.{ip_headers_text};

    ghost output = { λ error. Some (ip_headers_text error) };

    fn fmt<W: fmt::Write>(&self, f: &mut fmt::Formatter<W>) -> fmt::Result {
        match self {
            HeadersError::Ip(error) => write!(f, "{error}"),
            HeadersError::Ipv4Ext(error) => write!(f, "{error}"),
            HeadersError::Ipv6Ext(error) => write!(f, "{error}"),
        }
    }
}

impl Error for HeadersError {}

/// Why a slice begins with no IP header with its extensions.
#[derive(Clone, Copy, Debug, PartialEq, Eq, Hash)]
pub enum HeadersSliceError {
    Len(LenError),
    Content(HeadersError),
}

impl fmt::Display for HeadersSliceError {
    ghost use Rattle.std.specs.Prelude.{Some};
    ghost use Rattle.ether_ip.specs.TextsIp.{ip_headers_slice_text};

    ghost output = { λ error. Some (ip_headers_slice_text error) };

    fn fmt<W: fmt::Write>(&self, f: &mut fmt::Formatter<W>) -> fmt::Result {
        match self {
            HeadersSliceError::Len(error) => write!(f, "{error}"),
            HeadersSliceError::Content(error) => write!(f, "{error}"),
        }
    }
}

impl Error for HeadersSliceError {}

/// Why a slice begins with no IP packet.
#[derive(Clone, Copy, Debug, PartialEq, Eq, Hash)]
pub enum SliceError {
    Len(LenError),
    IpHeaders(HeadersError),
}

impl fmt::Display for SliceError {
    ghost use Rattle.std.specs.Prelude.{Some};
    ghost use Rattle.ether_ip.specs.TextsIp.{ip_slice_text};

    ghost output = { λ error. Some (ip_slice_text error) };

    fn fmt<W: fmt::Write>(&self, f: &mut fmt::Formatter<W>) -> fmt::Result {
        match self {
            SliceError::Len(error) => write!(f, "{error}"),
            SliceError::IpHeaders(error) => write!(f, "{error}"),
        }
    }
}

impl Error for SliceError {}

/// Why a slice begins with no IP header, for a reader that takes payloads that are cut.
#[derive(Clone, Copy, Debug, PartialEq, Eq, Hash)]
pub enum LaxHeaderSliceError {
    Len(LenError),
    Content(HeaderError),
}

impl LaxHeaderSliceError {
    ghost use Rattle.ether_ip.specs.LaxHeader.{start_offset, at_offset};

    /// The same error, counted from `offset` bytes before.
    pub fn add_slice_offset(self, offset: usize) -> Self
        requires { start_offset self + offset ≤ usize.MAX }
        ensures value { result ≡ at_offset offset self }
    {
        match self {
            LaxHeaderSliceError::Len(error) => LaxHeaderSliceError::Len(error.add_offset(offset)),
            LaxHeaderSliceError::Content(error) => LaxHeaderSliceError::Content(error),
        }
    }
}

impl fmt::Display for LaxHeaderSliceError {
    ghost use Rattle.std.specs.Prelude.{Some};
    ghost use Rattle.ether_ip.specs.TextsIp.{lax_header_slice_text};

    ghost output = { λ error. Some (lax_header_slice_text error) };

    fn fmt<W: fmt::Write>(&self, f: &mut fmt::Formatter<W>) -> fmt::Result {
        match self {
            LaxHeaderSliceError::Len(error) => write!(f, "{error}"),
            LaxHeaderSliceError::Content(error) => write!(f, "{error}"),
        }
    }
}

impl Error for LaxHeaderSliceError {}
