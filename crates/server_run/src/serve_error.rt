//! Why a run of a server stopped.
use net_wire::NoMemory;
use phy_layers::SinkError;
use script_reader::ReadEventError;

/// Why a run stopped.
#[derive(Clone, Copy, Debug, PartialEq, Eq)]
pub enum ServeError {
    /// What begins at this place of the script is no event that may come next.
    Script(u64),
    /// More events than there may be.
    Limit,
    /// The source failed.
    Read,
    /// The capture failed.
    Sink,
    /// Memory ran out.
    NoMemory,
}

impl From<ReadEventError> for ServeError {
    ghost use Rattle.std.specs.Prelude.{◌≡◌};
    ghost use Rattle.server_run.specs.ServeError.{of_read_event};

    ghost from_gives = { λ from error. error ≡ of_read_event from };

    fn from(error: ReadEventError) -> ServeError {
        match error {
            ReadEventError::Script(offset) => ServeError::Script(offset),
            ReadEventError::Limit => ServeError::Limit,
            ReadEventError::Read => ServeError::Read,
        }
    }
}

impl From<SinkError> for ServeError {
    ghost use Rattle.std.specs.Prelude.{◌≡◌};
    ghost use Rattle.server_run.specs.ServeError.{of_sink};

    ghost from_gives = { λ from error. error ≡ of_sink from };

    fn from(error: SinkError) -> ServeError {
        match error {
            SinkError::Fault => ServeError::Sink,
            SinkError::NoMemory => ServeError::NoMemory,
        }
    }
}

impl From<NoMemory> for ServeError {
    ghost use Rattle.std.specs.Prelude.{◌≡◌};
    ghost use Rattle.server_run.specs.declared.serve_error.ServeError.TheVariants as serve;

    ghost from_gives = { λ _ error. error ≡ serve.NoMemory };

    fn from(_: NoMemory) -> ServeError {
        ServeError::NoMemory
    }
}
