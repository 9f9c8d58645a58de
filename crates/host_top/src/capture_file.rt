//! A sink for a capture in a file.
ghost use Rattle.std.specs.Prelude.{◌≡◌, IfSome};

use phy_layers::{ByteSink, PcapSink, SinkError, WriteSink};
use std::alloc::Global;
use std::io::{BufWriter, Write};
use std::marker::Model;

/// What is captured of a packet at most, and the header of its record: a record reaches the file in one
/// write.
const RECORD: usize = 262_144 + 16;

/// Writes a capture to a file. Up to the first flush each write reaches the file; from then on writes are
/// held back until the next flush. It tells the bytes that its writer tells.
#[derive(Drop)]
pub struct CaptureFile<W: Write + Drop> {
    sink: WriteSink<BufWriter<W>>,
    holds_back: bool,
}

impl<W: Write + Drop> Model for CaptureFile<W> {
    ghost use Rattle.phy_layers.specs.WriterState.{WriterState};

    ghost Value = { WriterState };

    ghost view = { λ file. file.sink };
}

impl<W: Write + Drop> CaptureFile<W> {
    /// A capture to a file. The answer is `None` where there is no memory for what is held back.
    pub fn new(alloc: Global, file: W) -> Option<CaptureFile<W>>
        ensures contents { IfSome result (λ capture. capture.contents ≡ W.contents file) }
        ensures faults { IfSome result (λ capture. capture.faults ≡ 0) }
    {
        let writer = BufWriter::with_capacity(alloc, RECORD, file).ok()?;
        Some(CaptureFile {
            sink: WriteSink::new(writer),
            holds_back: false,
        })
    }
}

impl<W: Write + Drop> ByteSink for CaptureFile<W> {
    ghost use Rattle.std.specs.Prelude.{false};

    ghost bytes = { λ file. file.contents };

    ghost faults = { λ file. file.faults };

    ghost grows = { false };

    fn write(&mut self, piece: &[u8]) -> Result<(), SinkError> {
        self.sink.write(piece)?;
        if self.holds_back {
            Ok(())
        } else {
            self.sink.flush()
        }
    }

    fn flush(&mut self) -> Result<(), SinkError> {
        self.holds_back = true;
        self.sink.flush()
    }
}

impl<W: Write + Drop> PcapSink for CaptureFile<W> {}
