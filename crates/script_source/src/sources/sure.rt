//! A source that never fails.
use crate::{ReadFault, ScriptSource};

/// Bytes in memory, given as fast as they are asked for.
#[derive(Drop)]
pub struct SureSource {
    bytes: Vec<u8>,
    at: usize,
    ghost within: { at ≤ vec_len bytes },
}

ghost use Rattle.std.specs.Prelude.{◌≤◌, vec_len};

impl SureSource {
    ghost use Rattle.std.specs.Prelude.{◌≡◌};
    ghost use Rattle.script_source.specs.SureSource.{bytes_left};

    /// All of the bytes are still to come.
    pub fn new(bytes: Vec<u8>) -> SureSource
        ensures { bytes_left result ≡ bytes.items }
    {
        SureSource { bytes, at: 0 }
    }
}

impl ScriptSource for SureSource {
    ghost use Rattle.std.specs.Prelude.{Some};
    ghost use Rattle.script_source.specs.SureSource.{bytes_left};

    ghost left = { λ source. Some (bytes_left source) };

    ghost faults = { λ _. 0 };

    fn read(&mut self, into: &mut [u8]) -> Result<usize, ReadFault> {
        let rest = &self.bytes.as_slice()[self.at..];
        let count = rest.len().min(into.len());
        into[..count].copy_from_slice(&rest[..count]);
        self.at += count;
        Ok(count)
    }
}
