//! A source over a reader.
use crate::{ReadFault, ScriptSource};
use std::io::{ErrorKind, Read};

/// What a reader gives. It tells nothing of the bytes, only how often a read failed, up to the counter's last value.
#[derive(Drop)]
pub struct ReadSource<R: Read + Drop> {
    inner: R,
    faults: u64,
}

impl<R: Read + Drop> ReadSource<R> {
    ghost use Rattle.std.specs.Prelude.{◌≡◌};

    /// No read has failed yet.
    pub fn new(inner: R) -> ReadSource<R>
        ensures { result.faults ≡ 0 }
    {
        ReadSource { inner, faults: 0 }
    }
}

impl<R: Read + Drop> ScriptSource for ReadSource<R> {
    ghost use Rattle.std.specs.Prelude.{None};

    ghost left = { λ _. None };

    ghost faults = { λ source. source.faults };

    /// A read that a signal interrupted is tried again.
    fn read(&mut self, into: &mut [u8]) -> Result<usize, ReadFault> {
        for _ in 0..u64::MAX {
            match self.inner.read(into) {
                Ok(count) => return Ok(count),
                Err(error) => {
                    if error.kind() != ErrorKind::Interrupted {
                        break;
                    }
                }
            }
        }
        self.faults = self.faults.saturating_add(1);
        Err(ReadFault)
    }
}
