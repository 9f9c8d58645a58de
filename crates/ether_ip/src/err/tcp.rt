//! Why a TCP header is refused.

use ether_link::err::LenError;
use std::error::Error;
use std::fmt;

/// What is wrong in the bytes of a TCP header.
#[derive(Clone, Copy, Debug, PartialEq, Eq, Hash)]
pub enum HeaderError {
    /// Fewer than five words of four bytes (RFC 9293, section 3.1).
    DataOffsetTooSmall { data_offset: u8 },
}

impl fmt::Display for HeaderError {
    ghost use Rattle.std.specs.Prelude.{Some};
    ghost use Rattle.ether_ip.specs.TextsTransport.{tcp_text};

    ghost output = { λ error. Some (tcp_text error) };

    fn fmt<W: fmt::Write>(&self, f: &mut fmt::Formatter<W>) -> fmt::Result {
        let HeaderError::DataOffsetTooSmall { data_offset } = self;
        write!(f, "tcp data offset {data_offset}")
    }
}

impl Error for HeaderError {}

/// Why a slice begins with no TCP header.
#[derive(Clone, Copy, Debug, PartialEq, Eq, Hash)]
pub enum HeaderSliceError {
    Len(LenError),
    Content(HeaderError),
}

impl fmt::Display for HeaderSliceError {
    ghost use Rattle.std.specs.Prelude.{Some};
    ghost use Rattle.ether_ip.specs.TextsTransport.{tcp_slice_text};

    ghost output = { λ error. Some (tcp_slice_text error) };

    fn fmt<W: fmt::Write>(&self, f: &mut fmt::Formatter<W>) -> fmt::Result {
        match self {
            HeaderSliceError::Len(error) => write!(f, "{error}"),
            HeaderSliceError::Content(error) => write!(f, "{error}"),
        }
    }
}

impl Error for HeaderSliceError {}
