//! The bytes of a frame.
ghost use Rattle.std.specs.Prelude.{◌≡◌, IfOk};

use net_wire::NoMemory;
use std::alloc::Global;
use std::marker::Model;

/// The bytes of a frame, from its first header on.
#[derive(Clone, Debug, Drop)]
pub struct FrameBytes {
    bytes: Vec<u8>,
}

impl Model for FrameBytes {
    ghost use Rattle.std.specs.Prelude.{ℕ, List};

    ghost Value = { List ℕ };

    ghost view = { λ frame. frame.bytes.items };
}

impl FrameBytes {
    /// Copies the bytes.
    pub fn from_slice(alloc: Global, bytes: &[u8]) -> Result<FrameBytes, NoMemory>
        ensures value { IfOk result (λ frame. frame ≡ bytes.now) }
    {
        match Vec::from_slice(alloc, bytes) {
            Ok(bytes) => Ok(FrameBytes { bytes }),
            Err(_) => Err(NoMemory),
        }
    }

    pub fn as_slice(&self) -> &[u8]
        ensures value { result.now ≡ self.now }
    {
        self.bytes.as_slice()
    }
}

impl PartialEq for FrameBytes {
    ghost use Rattle.std.specs.Prelude.{nat_eq};
    ghost use Rattle.std.specs.Cmp.Lexicographic.{pointwise};
    ghost use Rattle.std.specs.Cmp.Rules.{comparing};
    ghost use Rattle.std.proofs.Common.{rules};

    ghost eq = { pointwise nat_eq };

    ghost laws = { Prim.search (comparing, rules) };

    fn eq(&self, other: &FrameBytes) -> bool {
        self.bytes == other.bytes
    }
}

impl From<Vec<u8>> for FrameBytes {
    ghost use Rattle.std.specs.Prelude.{◌≡◌};

    ghost from_gives = { λ bytes frame. frame ≡ bytes.items };

    fn from(bytes: Vec<u8>) -> FrameBytes {
        FrameBytes { bytes }
    }
}

impl Eq for FrameBytes {
    ghost use Rattle.std.specs.Cmp.Rules.{comparing};
    ghost use Rattle.std.proofs.Common.{rules};

    ghost laws = { Prim.search (comparing, rules) };
}
