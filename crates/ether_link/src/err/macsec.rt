//! Why a MACsec header is refused.

use crate::err::LenError;
use std::error::Error;
use std::fmt;

/// What is wrong in the bytes of a MACsec header.
#[derive(Clone, Copy, Debug, PartialEq, Eq, Hash)]
pub enum HeaderError {
    /// The version bit is set (IEEE 802.1AE, section 9.5).
    UnexpectedVersion,
    /// A short length of 1, for a payload that begins with an ether type of two bytes.
    InvalidUnmodifiedShortLen,
}

impl fmt::Display for HeaderError {
    ghost use Rattle.std.specs.Prelude.{Some};
    ghost use Rattle.ether_link.specs.Texts.{macsec_text};

    ghost output = { λ error. Some (macsec_text error) };

    fn fmt<W: fmt::Write>(&self, f: &mut fmt::Formatter<W>) -> fmt::Result {
        match self {
            HeaderError::UnexpectedVersion => f.write_str("macsec version bit set"),
            HeaderError::InvalidUnmodifiedShortLen => f.write_str("macsec short length 1"),
        }
    }
}

impl Error for HeaderError {}

/// Why a slice begins with no MACsec header.
#[derive(Clone, Copy, Debug, PartialEq, Eq, Hash)]
pub enum HeaderSliceError {
    Len(LenError),
    Content(HeaderError),
}

impl fmt::Display for HeaderSliceError {
    ghost use Rattle.std.specs.Prelude.{Some};
    ghost use Rattle.ether_link.specs.Texts.{macsec_slice_text};

    ghost output = { λ error. Some (macsec_slice_text error) };

    fn fmt<W: fmt::Write>(&self, f: &mut fmt::Formatter<W>) -> fmt::Result {
        match self {
            HeaderSliceError::Len(error) => write!(f, "{error}"),
            HeaderSliceError::Content(error) => write!(f, "{error}"),
        }
    }
}

impl Error for HeaderSliceError {}
