//! Why an authentication header is refused (RFC 4302, section 2).

use ether_link::err::LenError;
use std::error::Error;
use std::fmt;

/// What is wrong in the bytes of a header.
#[derive(Clone, Copy, Debug, PartialEq, Eq, Hash)]
pub enum HeaderError {
    /// A length of 0, which would leave no room for the sequence number.
    ZeroPayloadLen,
}

impl fmt::Display for HeaderError {
    ghost use Rattle.std.specs.Prelude.{Some};
    ghost use Rattle.ether_ip.specs.TextsIp.{ip_auth_text};

    ghost output = { λ error. Some (ip_auth_text error) };

    fn fmt<W: fmt::Write>(&self, f: &mut fmt::Formatter<W>) -> fmt::Result {
        match self {
            HeaderError::ZeroPayloadLen => f.write_str("auth length 0"),
        }
    }
}

impl Error for HeaderError {}

/// Why a slice begins with no authentication header.
#[derive(Clone, Copy, Debug, PartialEq, Eq, Hash)]
pub enum HeaderSliceError {
    Len(LenError),
    Content(HeaderError),
}

impl fmt::Display for HeaderSliceError {
    ghost use Rattle.std.specs.Prelude.{Some};
    ghost use Rattle.ether_ip.specs.TextsIp.{ip_auth_header_slice_text};

    ghost output = { λ error. Some (ip_auth_header_slice_text error) };

    fn fmt<W: fmt::Write>(&self, f: &mut fmt::Formatter<W>) -> fmt::Result {
        match self {
            HeaderSliceError::Len(error) => write!(f, "{error}"),
            HeaderSliceError::Content(error) => write!(f, "{error}"),
        }
    }
}

impl Error for HeaderSliceError {}
