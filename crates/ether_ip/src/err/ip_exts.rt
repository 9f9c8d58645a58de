//! Why an extension header behind an IP header of either version is refused.

use crate::err::{ip_auth, ipv6_exts};
use ether_link::err::LenError;
use std::error::Error;
use std::fmt;

/// What is wrong in the bytes or in the place of an extension header.
#[derive(Clone, Copy, Debug, PartialEq, Eq, Hash)]
pub enum HeaderError {
    Ipv4Ext(ip_auth::HeaderError),
    Ipv6Ext(ipv6_exts::HeaderError),
}

impl fmt::Display for HeaderError {
    ghost use Rattle.std.specs.Prelude.{Some};
    ghost use Rattle.ether_ip.specs.TextsIp.{ip_exts_text};

    ghost output = { λ error. Some (ip_exts_text error) };

    fn fmt<W: fmt::Write>(&self, f: &mut fmt::Formatter<W>) -> fmt::Result {
        match self {
            HeaderError::Ipv4Ext(error) => write!(f, "{error}"),
            HeaderError::Ipv6Ext(error) => write!(f, "{error}"),
        }
    }
}

impl Error for HeaderError {}

/// Why a slice begins with no extension headers.
#[derive(Clone, Copy, Debug, PartialEq, Eq, Hash)]
pub enum HeadersSliceError {
    Len(LenError),
    Content(HeaderError),
}

impl fmt::Display for HeadersSliceError {
    ghost use Rattle.std.specs.Prelude.{Some};
    ghost use Rattle.ether_ip.specs.TextsIp.{ip_exts_slice_text};

    ghost output = { λ error. Some (ip_exts_slice_text error) };

    fn fmt<W: fmt::Write>(&self, f: &mut fmt::Formatter<W>) -> fmt::Result {
        match self {
            HeadersSliceError::Len(error) => write!(f, "{error}"),
            HeadersSliceError::Content(error) => write!(f, "{error}"),
        }
    }
}

impl Error for HeadersSliceError {}
