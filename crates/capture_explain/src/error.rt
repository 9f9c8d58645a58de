//! Why a capture is not explained.
use net_wire::NoMemory;
use script_source::ReadFault;

/// Why the rest of a capture has no rows.
#[derive(Clone, Copy, Debug, PartialEq, Eq)]
pub enum ExplainError {
    /// The file begins with no header of little-endian microseconds, version 2.4 and Ethernet.
    Header,
    /// What begins at this place of the file is no whole entry.
    Entry(u64),
    /// As many entries as there may be were read, and a byte follows.
    Limit,
    /// The source failed.
    Read,
    /// Memory ran out.
    NoMemory,
}

impl From<ReadFault> for ExplainError {
    ghost use Rattle.std.specs.Prelude.{◌≡◌};
    ghost use Rattle.capture_explain.specs.declared.error.ExplainError.TheVariants.{Read};

    ghost from_gives = { λ _ error. error ≡ Read };

    fn from(_: ReadFault) -> ExplainError {
        ExplainError::Read
    }
}

impl From<NoMemory> for ExplainError {
    ghost use Rattle.std.specs.Prelude.{◌≡◌};
    ghost use Rattle.capture_explain.specs.declared.error.ExplainError.TheVariants as explain;

    ghost from_gives = { λ _ error. error ≡ explain.NoMemory };

    fn from(_: NoMemory) -> ExplainError {
        ExplainError::NoMemory
    }
}
