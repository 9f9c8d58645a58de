//! Why an IP header, with the extension headers behind it, could not be read from a reader.
ghost use Rattle.std.specs.Prelude.{◌≡◌, Some};

use crate::IoFault;
use ether_ip::err::ip;
use ether_link::err::LenError;
use std::error::Error;
use std::fmt;

/// Why an IP header, with the extension headers behind it, could not be read.
#[derive(Clone, Copy, Debug, PartialEq, Eq, Hash)]
pub enum HeaderReadError {
    /// The reader failed.
    Io(IoFault),
    /// The header names fewer bytes than its parts need.
    Len(LenError),
    /// The bytes are no such header.
    Content(ip::HeadersError),
}

impl HeaderReadError {
    /// The fault of the reader, if it failed.
    pub fn io(self) -> Option<IoFault>
        ensures found { (fault : _) → self ≡ HeaderReadError.Io fault → result ≡ Some fault }
        ensures cause { (fault : _) → result ≡ Some fault → self ≡ HeaderReadError.Io fault }
    {
        match self {
            HeaderReadError::Io(fault) => Some(fault),
            _ => None,
        }
    }

    /// The lack of bytes, if that is the reason.
    pub fn len(self) -> Option<LenError>
        ensures found { (error : _) → self ≡ HeaderReadError.Len error → result ≡ Some error }
        ensures cause { (error : _) → result ≡ Some error → self ≡ HeaderReadError.Len error }
    {
        match self {
            HeaderReadError::Len(error) => Some(error),
            _ => None,
        }
    }

    /// What is wrong in the bytes, if that is the reason.
    pub fn content(self) -> Option<ip::HeadersError>
        ensures found { (error : _) → self ≡ HeaderReadError.Content error → result ≡ Some error }
        ensures cause { (error : _) → result ≡ Some error → self ≡ HeaderReadError.Content error }
    {
        match self {
            HeaderReadError::Content(error) => Some(error),
            _ => None,
        }
    }
}

impl fmt::Display for HeaderReadError {
    ghost use Rattle.std.specs.Prelude.{Some};
    ghost use Rattle.ether_err.specs.ReaderTexts.{ip_read_text};

    ghost output = { λ error. Some (ip_read_text error) };

    fn fmt<W: fmt::Write>(&self, f: &mut fmt::Formatter<W>) -> fmt::Result {
        match self {
            HeaderReadError::Io(fault) => write!(f, "IP Header IO Error: {fault}"),
            HeaderReadError::Len(error) => write!(f, "{error}"),
            HeaderReadError::Content(error) => write!(f, "{error}"),
        }
    }
}

impl Error for HeaderReadError {}
