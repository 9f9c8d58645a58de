//! Why a host does not take an event in.
use net_wire::NoMemory;

/// Why an event is not taken in.
#[derive(Clone, Copy, Debug, PartialEq, Eq)]
pub enum HandleError {
    /// There is no place for the station that it tells of: each has one of which a packet told in the last 60 seconds.
    Full,
    /// Memory ran out.
    NoMemory,
}

impl From<NoMemory> for HandleError {
    ghost use Rattle.std.specs.Prelude.{◌≡◌};
    ghost use Rattle.net_host.specs.declared.handle_error.HandleError.TheVariants as handle;

    ghost from_gives = { λ _ error. error ≡ handle.NoMemory };

    fn from(_: NoMemory) -> HandleError {
        HandleError::NoMemory
    }
}
