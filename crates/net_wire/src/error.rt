//! Answers of the writers and emitters, and what the clients are told of the host.
use crate::{EthernetAddress, Instant};
use std::fmt;

/// Memory ran out.
#[derive(Clone, Copy, Debug, PartialEq, Eq)]
pub struct NoMemory;

/// The bytes are no message of the kind that was to be read.
#[derive(Clone, Copy, Debug, PartialEq, Eq)]
pub struct Malformed;

/// Why a message was not emitted.
#[derive(Clone, Copy, Debug, PartialEq, Eq)]
pub enum EmitError {
    /// The hardware address of the next hop is not known.
    Unresolved,
    /// Memory ran out.
    NoMemory,
}

/// What a client is told of the host at a call.
#[derive(Clone, Copy, Debug, PartialEq, Eq)]
pub struct Context {
    pub now: Instant,
    pub hardware_addr: EthernetAddress,
    /// The longest IPv4 datagram that the link carries, in bytes.
    pub ip_mtu: u16,
}

impl From<NoMemory> for EmitError {
    ghost use Rattle.std.specs.Prelude.{◌≡◌};
    ghost use Rattle.net_wire.specs.declared.error.EmitError.TheVariants as emit;

    ghost from_gives = { λ _ error. error ≡ emit.NoMemory };

    fn from(_: NoMemory) -> EmitError {
        EmitError::NoMemory
    }
}

/// A packet is too short for its header, or the header's own length is wrong.
#[derive(Clone, Copy, Debug, PartialEq, Eq)]
pub struct Error;

impl fmt::Display for Error {
    ghost use Rattle.std.specs.Prelude.{Some, codes};

    ghost output = { λ _. Some (codes "wire::Error") };

    fn fmt<W: fmt::Write>(&self, f: &mut fmt::Formatter<W>) -> fmt::Result {
        write!(f, "wire::Error")
    }
}

impl std::error::Error for Error {}
