//! Where a script is read from.

/// A read failed.
#[derive(Clone, Copy, Debug, PartialEq, Eq)]
pub struct ReadFault;

/// Gives the bytes of a script, in pieces of its own choice.
pub trait ScriptSource {
    ghost use Rattle.std.specs.Prelude.{ℕ, ◌<◌, List, length, Option};
    ghost use Rattle.script_source.specs.Source.{Gave};

    /// The bytes still to come, where the source tells them.
    ghost left: { Self → Option (List ℕ) };

    /// How often a read has failed.
    ghost faults: { Self → ℕ };

    /// Writes the next bytes to the front of `into`, and answers how many: 0 at the end of input. A failed
    /// read takes no byte.
    fn read(&mut self, into: &mut [u8]) -> Result<usize, ReadFault>
        requires { 0 < length into.old }
        ensures { Gave left faults result into.new self.old self.new };
}
