//! Why a reader failed.

use std::error::Error;
use std::fmt;

/// The kind of a reader's fault.
#[derive(Clone, Copy, Debug, PartialEq, Eq, Hash)]
pub enum IoKind {
    /// What was to be read is not there.
    NotFound,
    /// It may not be read.
    PermissionDenied,
    /// The call was interrupted, and can be made again.
    Interrupted,
    /// The bytes ended before the header did.
    UnexpectedEof,
    /// Any other fault.
    Other,
}

/// A reader failed: a plain value in place of `std::io::Error`, so that errors compare.
#[derive(Clone, Copy, Debug, PartialEq, Eq, Hash)]
pub struct IoFault {
    pub kind: IoKind,
}

impl fmt::Display for IoFault {
    ghost use Rattle.std.specs.Prelude.{Some};
    ghost use Rattle.ether_err.specs.IoTexts.{io_text};

    ghost output = { λ fault. Some (io_text fault) };

    fn fmt<W: fmt::Write>(&self, f: &mut fmt::Formatter<W>) -> fmt::Result {
        match self.kind {
            IoKind::NotFound => f.write_str("not found"),
            IoKind::PermissionDenied => f.write_str("permission denied"),
            IoKind::Interrupted => f.write_str("interrupted"),
            IoKind::UnexpectedEof => f.write_str("unexpected end"),
            IoKind::Other => f.write_str("other"),
        }
    }
}

impl Error for IoFault {}
