//! Why a header of a Linux cooked capture (LINKTYPE_LINUX_SLL) could not be read from a reader.
ghost use Rattle.std.specs.Prelude.{◌≡◌, Some};

use crate::IoFault;
use ether_link::err::linux_sll;
use std::error::Error;
use std::fmt;

/// Why a header of a Linux cooked capture (LINKTYPE_LINUX_SLL) could not be read.
#[derive(Clone, Copy, Debug, PartialEq, Eq, Hash)]
pub enum HeaderReadError {
    /// The reader failed.
    Io(IoFault),
    /// The bytes are no such header.
    Content(linux_sll::HeaderError),
}

impl HeaderReadError {
    /// The fault of the reader, if it failed.
    pub fn io_error(self) -> Option<IoFault>
        ensures found { (fault : _) → self ≡ HeaderReadError.Io fault → result ≡ Some fault }
        ensures cause { (fault : _) → result ≡ Some fault → self ≡ HeaderReadError.Io fault }
    {
        match self {
            HeaderReadError::Io(fault) => Some(fault),
            _ => None,
        }
    }

    /// What is wrong in the bytes, if that is the reason.
    pub fn content_error(self) -> Option<linux_sll::HeaderError>
        ensures found { (error : _) → self ≡ HeaderReadError.Content error → result ≡ Some error }
        ensures cause { (error : _) → result ≡ Some error → self ≡ HeaderReadError.Content error }
    {
        match self {
            HeaderReadError::Content(error) => Some(error),
            _ => None,
        }
    }
}

impl fmt::Display for HeaderReadError {
    ghost use Rattle.std.specs.Prelude.{Some};
    ghost use Rattle.ether_err.specs.ReaderTexts.{linux_sll_read_text};

    ghost output = { λ error. Some (linux_sll_read_text error) };

    fn fmt<W: fmt::Write>(&self, f: &mut fmt::Formatter<W>) -> fmt::Result {
        match self {
            HeaderReadError::Io(fault) => write!(
                f,
                "Linux Cooked Capture v1 (SLL) Header IO Error: {fault}"
            ),
            HeaderReadError::Content(error) => write!(f, "{error}"),
        }
    }
}

impl Error for HeaderReadError {}
