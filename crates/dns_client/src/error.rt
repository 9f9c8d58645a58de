//! Why a query is refused, and why it gives no addresses.

use std::error::Error;
use std::fmt;

/// Why a query is not started.
#[derive(Clone, Copy, Debug, PartialEq, Eq)]
pub enum StartQueryError {
    /// The slots are borrowed and all taken.
    NoFreeSlot,
    /// An empty label, one of more than 63 bytes, or bytes that are no labels.
    InvalidName,
    /// More than 255 bytes, with the length bytes and the closing zero.
    NameTooLong,
    NoMemory,
}

impl fmt::Display for StartQueryError {
    ghost use Rattle.std.specs.Prelude.{Some};
    ghost use Rattle.dns_client.specs.Texts.{start_text};

    ghost output = { λ error. Some (start_text error) };

    fn fmt<W: fmt::Write>(&self, f: &mut fmt::Formatter<W>) -> fmt::Result {
        match self {
            StartQueryError::NoFreeSlot => f.write_str("No free slot"),
            StartQueryError::InvalidName => f.write_str("Invalid name"),
            StartQueryError::NameTooLong => f.write_str("Name too long"),
            StartQueryError::NoMemory => f.write_str("No memory"),
        }
    }
}

impl Error for StartQueryError {}

/// Why a query gives no addresses.
#[derive(Clone, Copy, Debug, PartialEq, Eq)]
pub enum GetQueryResultError {
    /// It still waits.
    Pending,
    /// It ended without an address.
    Failed,
}

impl fmt::Display for GetQueryResultError {
    ghost use Rattle.std.specs.Prelude.{Some};
    ghost use Rattle.dns_client.specs.Texts.{get_text};

    ghost output = { λ error. Some (get_text error) };

    fn fmt<W: fmt::Write>(&self, f: &mut fmt::Formatter<W>) -> fmt::Result {
        match self {
            GetQueryResultError::Pending => f.write_str("Query is not done yet"),
            GetQueryResultError::Failed => f.write_str("Query failed"),
        }
    }
}

impl Error for GetQueryResultError {}
