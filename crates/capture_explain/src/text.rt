//! Text that is written to a sink piece by piece. After a refusal nothing more is written.
ghost use Rattle.std.specs.Prelude.{◌≡◌, ◌/◌, ◌^◌, ◌≤◌, replicate};
ghost use Rattle.std.specs.Fmt.{decimal};
ghost use Rattle.capture_explain.specs.Text.{Puts, six_digits, hexadecimal, hexadecimal_digit};

use itoa::Buffer;
use phy_layers::{ByteSink, SinkError};

/// Writes a piece, unless an earlier one was refused.
pub fn put<O: ByteSink>(out: &mut O, answer: &mut Result<(), SinkError>, piece: &[u8])
    ensures { Puts O.bytes O.faults O.grows answer.old answer.new piece.now out.old out.new }
{
    match *answer {
        Ok(()) => *answer = out.write(piece),
        Err(_) => {}
    }
}

/// Writes the digits of a number.
pub fn put_number<O: ByteSink>(out: &mut O, answer: &mut Result<(), SinkError>, number: u64)
    ensures { Puts O.bytes O.faults O.grows answer.old answer.new (decimal number) out.old out.new }
{
    let mut buffer = Buffer::new();
    put(out, answer, buffer.format(number).as_bytes());
}

/// Writes the digits of a number with leading zeros, at least six of them.
pub fn put_six_digits<O: ByteSink>(out: &mut O, answer: &mut Result<(), SinkError>, number: u64)
    ensures { Puts O.bytes O.faults O.grows answer.old answer.new (six_digits number) out.old out.new }
{
    let mut buffer = Buffer::new();
    let digits = buffer.format(number).as_bytes();
    put(out, answer, zeros(6usize.saturating_sub(digits.len())));
    put(out, answer, digits);
}

/// At most six zeros.
fn zeros(count: usize) -> &'static [u8]
    requires { count ≤ 6 }
    ensures { result.now ≡ replicate count 48 }
{
    let zeros: &[u8] = b"000000";
    &zeros[..count]
}

/// Writes eight hexadecimal digits.
pub fn put_hexadecimal<O: ByteSink>(out: &mut O, answer: &mut Result<(), SinkError>, number: u32)
    ensures { Puts O.bytes O.faults O.grows answer.old answer.new (hexadecimal number) out.old out.new }
{
    let digits = [
        digit_of(number / 0x1000_0000),
        digit_of(number / 0x100_0000),
        digit_of(number / 0x10_0000),
        digit_of(number / 0x1_0000),
        digit_of(number / 0x1000),
        digit_of(number / 0x100),
        digit_of(number / 0x10),
        digit_of(number),
    ];
    put(out, answer, &digits);
}

/// The last hexadecimal digit of a number, in lower case.
pub fn digit_of(number: u32) -> u8
    ensures { result ≡ hexadecimal_digit number }
{
    let last = (number % 16) as u8;
    if last < 10 { 48 + last } else { 87 + last }
}
