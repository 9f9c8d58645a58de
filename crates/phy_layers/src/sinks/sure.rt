//! A sink in memory that only want of memory stops.
ghost use Rattle.std.specs.Prelude.{◌≡◌, [], Some, true, IsOk};

use crate::{ByteSink, SinkError};
use std::alloc::Global;
use std::marker::Model;

/// Keeps all bytes in memory. It never faults.
#[derive(Debug, Drop)]
pub struct SureSink {
    bytes: Vec<u8>,
}

impl Model for SureSink {
    ghost use Rattle.std.specs.Prelude.{ℕ, List};

    ghost Value = { List ℕ };

    ghost view = { λ sink. sink.bytes.items };
}

impl SureSink {
    pub fn new(alloc: Global) -> SureSink
        ensures empty { result ≡ [] }
    {
        SureSink {
            bytes: Vec::new(alloc),
        }
    }

    /// All bytes that were written.
    pub fn bytes(&self) -> &[u8]
        ensures value { result.now ≡ self.now }
    {
        self.bytes.as_slice()
    }
}

impl ByteSink for SureSink {
    ghost bytes = { λ sink. Some sink };

    ghost faults = { λ _. 0 };

    ghost grows = { true };

    fn write(&mut self, piece: &[u8]) -> Result<(), SinkError> {
        match self.bytes.extend_from_slice(piece) {
            Ok(()) => Ok(()),
            Err(_) => Err(SinkError::NoMemory),
        }
    }

    fn flush(&mut self) -> Result<(), SinkError>
        ensures ok { IsOk result }
        ensures same { self.new ≡ self.old }
    {
        Ok(())
    }
}
