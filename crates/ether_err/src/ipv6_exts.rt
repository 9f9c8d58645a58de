//! Why an IPv6 extension header (RFC 8200) could not be read from a reader.
ghost use Rattle.std.specs.Prelude.{◌≡◌, Some};

use crate::IoFault;
use ether_ip::err::ipv6_exts;
use std::error::Error;
use std::fmt;

/// Why an IPv6 extension header (RFC 8200) could not be read.
#[derive(Clone, Copy, Debug, PartialEq, Eq, Hash)]
pub enum HeaderReadError {
    /// The reader failed.
    Io(IoFault),
    /// The bytes are no such header.
    Content(ipv6_exts::HeaderError),
}

impl HeaderReadError {
    /// The fault of the reader, if it failed.
    pub fn io_error(self) -> Option<IoFault>
        ensures found { (fault : _) → self ≡ HeaderReadError.Io fault → result ≡ Some fault }
        ensures cause { (fault : _) → result ≡ Some fault → self ≡ HeaderReadError.Io fault }
    {
        match self {
            HeaderReadError::Io(fault) => Some(fault),
            _ => None,
        }
    }

    /// What is wrong in the bytes, if that is the reason.
    pub fn content_error(self) -> Option<ipv6_exts::HeaderError>
        ensures found { (error : _) → self ≡ HeaderReadError.Content error → result ≡ Some error }
        ensures cause { (error : _) → result ≡ Some error → self ≡ HeaderReadError.Content error }
    {
        match self {
            HeaderReadError::Content(error) => Some(error),
            _ => None,
        }
    }
}

impl fmt::Display for HeaderReadError {
    ghost use Rattle.std.specs.Prelude.{Some};
    ghost use Rattle.ether_err.specs.ReaderTexts.{ipv6_exts_read_text};

    ghost output = { λ error. Some (ipv6_exts_read_text error) };

    fn fmt<W: fmt::Write>(&self, f: &mut fmt::Formatter<W>) -> fmt::Result {
        match self {
            HeaderReadError::Io(fault) => write!(f, "IPv6 Extension Header IO Error: {fault}"),
            HeaderReadError::Content(error) => write!(f, "{error}"),
        }
    }
}

impl Error for HeaderReadError {}
