//! A sink in memory of a size that is given.
ghost use Rattle.std.specs.Prelude.{◌≡◌, ◌-◌, ◌≤◌, ◌++◌, [], Some, false, IfOk, length, take, nat_le, vec_len, vec_capacity, if◌then◌else◌};
ghost use Rattle.phy_layers.specs.Calls.{no_calls, fails_next};
ghost use Rattle.phy_layers.specs.MemorySink.{refuses, after_write, after_flush};

use crate::{ByteSink, FailingCalls, SinkError};
use net_wire::NoMemory;
use std::alloc::Global;
use std::marker::Model;

/// Keeps bytes in memory, as many as it was given room for. Its calls fail by their numbers.
#[derive(Debug, Drop)]
pub struct MemorySink {
    bytes: Vec<u8>,
    room: usize,
    calls: FailingCalls,
}

impl Model for MemorySink {
    ghost use Rattle.std.specs.Prelude.{◌≤◌, vec_len, vec_capacity};
    ghost use Rattle.phy_layers.specs.MemorySink.{SinkState};

    ghost Value = { SinkState };

    ghost view = { λ sink. record { bytes = sink.bytes.items; room = sink.room; calls = sink.calls } };

    ghost invariant = { λ sink. (vec_len sink.bytes ≤ sink.room) × (sink.room ≤ vec_capacity sink.bytes) };
}

impl MemorySink {
    /// Takes the memory for `room` bytes. The calls of `write` and `flush` whose numbers, counted
    /// together from 1, are in `fails` fail.
    pub fn new(alloc: Global, room: usize, fails: Vec<u64>) -> Result<MemorySink, NoMemory>
        ensures value { IfOk result (λ sink. sink
            ≡ record { bytes = []; room = room; calls = no_calls fails.items }) }
    {
        match Vec::with_capacity(alloc, room) {
            Ok(bytes) => Ok(MemorySink {
                bytes,
                room,
                calls: FailingCalls::new(fails),
            }),
            Err(_) => Err(NoMemory),
        }
    }

    /// All bytes that were taken.
    pub fn bytes(&self) -> &[u8]
        ensures value { result.now ≡ self.now.bytes }
        ensures within { length result.now ≤ self.now.room }
    {
        self.bytes.as_slice()
    }
}

impl ByteSink for MemorySink {
    ghost bytes = { λ sink. Some sink.bytes };

    ghost faults = { λ sink. sink.calls.faults };

    ghost grows = { false };

    fn write(&mut self, piece: &[u8]) -> Result<(), SinkError>
        ensures refuses { result ≡ (if refuses self.old piece.now then Err SinkError.Fault else Ok tt) }
        ensures left { self.new ≡ after_write self.old piece.now }
    {
        if self.calls.next_fails() {
            return Err(SinkError::Fault);
        }
        if append_within(&mut self.bytes, self.room, piece) {
            Ok(())
        } else {
            self.calls.fault();
            Err(SinkError::Fault)
        }
    }

    fn flush(&mut self) -> Result<(), SinkError>
        ensures refuses { result ≡ (if fails_next self.old.calls then Err SinkError.Fault else Ok tt) }
        ensures left { self.new ≡ after_flush self.old }
    {
        if self.calls.next_fails() {
            Err(SinkError::Fault)
        } else {
            Ok(())
        }
    }
}

/// Appends what the room has place for of a piece, and answers whether that is all of it.
fn append_within(bytes: &mut Vec<u8>, room: usize, piece: &[u8]) -> bool
    requires within { vec_len bytes.old ≤ room }
    requires room { room ≤ vec_capacity bytes.old }
    ensures items { bytes.new.items ≡ bytes.old.items ++ take (room - vec_len bytes.old) piece.now }
    ensures whole { result ≡ nat_le (length piece.now) (room - vec_len bytes.old) }
    ensures within { vec_len bytes.new ≤ room }
    ensures room { room ≤ vec_capacity bytes.new }
{
    let count = piece.len().min(room - bytes.len());
    bytes.extend_from_slice(&piece[..count]).is_ok() && count == piece.len()
}
