//! A sink over a writer of the outside.
ghost use Rattle.std.specs.Prelude.{◌≡◌, ◌≤◌, false, IsTrue};
ghost use Rattle.std.specs.Io.KnownBytes.{Appends};
ghost use Rattle.wire_base.specs.Causes.{IsRisen, AppendsFront};

use crate::{ByteSink, SinkError};
use std::io::{ErrorKind, Write};
use std::marker::Model;

/// Writes to a writer, and counts the calls that failed. It tells the bytes that its writer tells:
/// a file or a terminal tells none.
#[derive(Debug, Drop)]
pub struct WriteSink<W: Write> {
    inner: W,
    faults: u64,
}

impl<W: Write> Model for WriteSink<W> {
    ghost use Rattle.phy_layers.specs.WriterState.{WriterState};

    ghost Value = { WriterState };

    ghost view = { λ sink. record { contents = W.contents sink.inner; faults = sink.faults } };
}

impl<W: Write + Drop> WriteSink<W> {
    pub fn new(inner: W) -> WriteSink<W>
        ensures contents { result.contents ≡ W.contents inner }
        ensures faults { result.faults ≡ 0 }
    {
        WriteSink { inner, faults: 0 }
    }

    /// Counts a fault. The count stays at its last value.
    fn fault(&mut self) -> SinkError
        ensures value { result ≡ SinkError.Fault }
        ensures same { self.new.contents ≡ self.old.contents }
        ensures later { self.old.faults ≤ self.new.faults }
        ensures risen { IsRisen self.old.faults self.new.faults }
    {
        self.faults = self.faults.saturating_add(1);
        SinkError::Fault
    }
}

impl<W: Write + Drop> ByteSink for WriteSink<W> {
    ghost bytes = { λ sink. sink.contents };

    ghost faults = { λ sink. sink.faults };

    ghost grows = { false };

    fn write(&mut self, piece: &[u8]) -> Result<(), SinkError> {
        if wrote_whole(&mut self.inner, piece) {
            Ok(())
        } else {
            Err(self.fault())
        }
    }

    fn flush(&mut self) -> Result<(), SinkError> {
        match self.inner.flush() {
            Ok(()) => Ok(()),
            Err(_) => Err(self.fault()),
        }
    }
}

/// Whether the writer took the whole piece. A write that a signal interrupted is tried again, and
/// a writer that takes nothing of what is left has failed.
fn wrote_whole<W: Write>(inner: &mut W, piece: &[u8]) -> bool
    ensures whole { IsTrue result → Appends (W.contents inner.old) (W.contents inner.new) piece.now }
    ensures front { AppendsFront (W.contents inner.old) (W.contents inner.new) piece.now }
{
    let mut rest = piece;
    for _ in 0..u64::MAX {
        if rest.is_empty() {
            return true;
        }
        match inner.write(rest) {
            Ok(0) => return false,
            Ok(taken) => rest = &rest[taken..],
            Err(error) => {
                if error.kind() != ErrorKind::Interrupted {
                    return false;
                }
            }
        }
    }
    false
}
