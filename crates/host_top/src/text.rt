//! Pieces of text that no other crate writes. After a refusal nothing more is written.
ghost use Rattle.std.specs.Prelude.{[]};
ghost use Rattle.std.specs.Fmt.{decimal};
ghost use Rattle.capture_explain.specs.Text.{Puts};

use capture_explain::text::put;
use itoa::Buffer;
use phy_layers::{ByteSink, SinkError};

/// Has the sink hand on what it holds back, unless a piece was refused.
pub fn flush<O: ByteSink>(out: &mut O, answer: &mut Result<(), SinkError>)
    ensures { Puts O.bytes O.faults O.grows answer.old answer.new [] out.old out.new }
{
    match *answer {
        Ok(()) => *answer = out.flush(),
        Err(_) => {}
    }
}

/// Writes the digits of a number of up to 128 bits.
pub fn put_large_number<O: ByteSink>(out: &mut O, answer: &mut Result<(), SinkError>, number: u128)
    ensures { Puts O.bytes O.faults O.grows answer.old answer.new (decimal number) out.old out.new }
{
    let mut buffer = Buffer::new();
    put(out, answer, buffer.format(number).as_bytes());
}
