//! What bytes are written to.
ghost use Rattle.std.specs.Prelude.{ℕ, Bool, List, [], Option};
ghost use Rattle.phy_layers.specs.Sink.{Wrote};

/// Why a sink refused.
#[derive(Clone, Copy, Debug, PartialEq, Eq)]
pub enum SinkError {
    /// The outside failed.
    Fault,
    /// Memory ran out.
    NoMemory,
}

/// A sink of bytes.
pub trait ByteSink {
    /// All bytes that the sink has taken, where it tells them.
    ghost bytes: { Self → Option (List ℕ) };

    /// How often the outside failed. A count that stands at the last value of a `u64` stays there.
    ghost faults: { Self → ℕ };

    /// Whether the sink needs memory to take bytes.
    ghost grows: { Bool };

    /// Takes the whole piece, or refuses and has taken a front of it.
    fn write(&mut self, piece: &[u8]) -> Result<(), SinkError>
        ensures { Wrote bytes faults grows result piece.now self.old self.new };

    /// Hands on what the sink holds back.
    fn flush(&mut self) -> Result<(), SinkError>
        ensures { Wrote bytes faults grows result [] self.old self.new };
}
