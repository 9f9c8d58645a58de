//! A source in memory whose pieces and failures are given.
ghost use Rattle.std.specs.Prelude.{◌≡◌, ◌<◌, ◌≤◌, ◌++◌, Some, IfOk, is_err, length, drop};
ghost use Rattle.phy_layers.specs.Calls.{no_calls, fails_next};
ghost use Rattle.script_source.specs.MemorySource.{given, after_read};

use crate::{ReadFault, ScriptSource};
use phy_layers::FailingCalls;
use std::marker::Model;

/// Bytes in memory, given in pieces of a size that is given. Its calls fail by their numbers.
#[derive(Debug, Drop)]
pub struct MemorySource {
    bytes: Vec<u8>,
    /// The place of the next byte.
    at: usize,
    /// The most bytes that a call gives.
    chunk: usize,
    calls: FailingCalls,
}

impl Model for MemorySource {
    ghost use Rattle.std.specs.Prelude.{◌≤◌, drop, vec_len};
    ghost use Rattle.script_source.specs.MemorySource.{SourceState};

    ghost Value = { SourceState };

    ghost view = { λ source. record {
      left = drop source.at source.bytes.items;
      chunk = source.chunk;
      calls = source.calls;
    } };

    ghost invariant = { λ source. (source.at ≤ vec_len source.bytes) × (1 ≤ source.chunk) };
}

impl MemorySource {
    /// Gives `bytes`, at most `chunk` of them a call. The calls of `read` whose numbers, counted from
    /// 1, are in `fails` fail.
    pub fn new(bytes: Vec<u8>, chunk: usize, fails: Vec<u64>) -> MemorySource
        requires chunk { 1 ≤ chunk }
        ensures value { result
            ≡ record { left = bytes.items; chunk = chunk; calls = no_calls fails.items } }
    {
        MemorySource {
            bytes,
            at: 0,
            chunk,
            calls: FailingCalls::new(fails),
        }
    }
}

impl ScriptSource for MemorySource {
    ghost left = { λ source. Some source.left };

    ghost faults = { λ source. source.calls.faults };

    fn read(&mut self, into: &mut [u8]) -> Result<usize, ReadFault>
        requires { 0 < length into.old }
        ensures refuses { is_err result ≡ fails_next self.old.calls }
        ensures count { IfOk result (λ count. count ≡ length (given self.old (length into.old))) }
        ensures written { let bytes = given self.old (length into.old) in
            into.new ≡ bytes ++ drop (length bytes) into.old }
        ensures left { self.new ≡ after_read self.old (length into.old) }
        ensures chunk { 1 ≤ self.old.chunk }
    {
        if self.calls.next_fails() {
            return Err(ReadFault);
        }
        let rest = &self.bytes.as_slice()[self.at..];
        let count = rest.len().min(into.len()).min(self.chunk);
        into[..count].copy_from_slice(&rest[..count]);
        self.at += count;
        Ok(count)
    }
}
