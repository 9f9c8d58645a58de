//! The line of an event.
ghost use Rattle.std.specs.Prelude.{◌≡◌, ◌==◌, ◌<◌, length};
ghost use Rattle.std.specs.List.{All, flat_map};
ghost use Rattle.net_wire.specs.declared.dns.dns_type.DnsType.{DnsType};
ghost use Rattle.phy_layers.specs.Sink.{Took};
ghost use Rattle.script_reader.specs.Reading.{arrival_of};
ghost use Rattle.capture_explain.specs.Text.{Puts};
ghost use Rattle.script_text.specs.EventText.{hex_byte, time_text, is_plain, escaped, name_byte, first_byte, name_text};
ghost use Rattle.script_text.specs.EventText.{type_word, hex_word, arrival_text, event_line, event_of};
ghost use Rattle.script_text.specs.TextLaws.{IsOfBytes};

use capture_explain::text::{digit_of, put, put_number, put_six_digits};
use net_wire::dns::DnsType;
use phy_layers::{ByteSink, SinkError};
use script_reader::ScriptEvent;

/// Writes the line of an event at so many microseconds. It takes no memory in itself.
pub fn event_text<O: ByteSink>(
    micros: u64,
    event: ScriptEvent<'_>,
    out: &mut O,
) -> Result<(), SinkError>
    ensures text { Took O.bytes O.faults O.grows result (event_line (event_of micros event.entry))
        out.old out.new }
{
    let mut answer = Ok(());
    put_event(out, &mut answer, micros, event);
    answer
}

/// Writes the line of an event at so many microseconds, unless an earlier piece was refused.
pub(crate) fn put_event<O: ByteSink>(
    out: &mut O,
    answer: &mut Result<(), SinkError>,
    micros: u64,
    event: ScriptEvent<'_>,
)
    ensures text { Puts O.bytes O.faults O.grows answer.old answer.new (event_line (event_of micros event.entry))
        out.old out.new }
    ensures bytes { IsOfBytes (arrival_of event.entry) }
{
    put_time(out, answer, micros);
    put(out, answer, b" ");
    put_arrival(out, answer, event);
    put(out, answer, b"\n");
}

fn put_time<O: ByteSink>(out: &mut O, answer: &mut Result<(), SinkError>, micros: u64)
    ensures { Puts O.bytes O.faults O.grows answer.old answer.new (time_text micros) out.old out.new }
{
    put_number(out, answer, micros / 1_000_000);
    put(out, answer, b".");
    put_six_digits(out, answer, micros % 1_000_000);
}

fn put_arrival<O: ByteSink>(out: &mut O, answer: &mut Result<(), SinkError>, event: ScriptEvent<'_>)
    ensures text { Puts O.bytes O.faults O.grows answer.old answer.new (arrival_text (arrival_of event.entry))
        out.old out.new }
    ensures bytes { IsOfBytes (arrival_of event.entry) }
{
    match event {
        ScriptEvent::Tick => put(out, answer, b"tick"),
        ScriptEvent::Reset => put(out, answer, b"reset"),
        ScriptEvent::Frame(frame) => {
            put(out, answer, b"frame");
            put_hex_word(out, answer, frame);
        }
        ScriptEvent::Query { name, query_type } => {
            put(out, answer, b"query ");
            put(out, answer, type_word(query_type));
            put(out, answer, b" ");
            put_name(out, answer, name);
        }
    }
}

fn type_word(query_type: DnsType) -> &'static [u8]
    ensures { result.now ≡ type_word query_type }
{
    match query_type {
        DnsType::Aaaa => b"AAAA",
        _ => b"A",
    }
}

fn put_hex_word<O: ByteSink>(out: &mut O, answer: &mut Result<(), SinkError>, bytes: &[u8])
    ensures text { Puts O.bytes O.faults O.grows answer.old answer.new (hex_word bytes.now) out.old out.new }
    ensures bytes { All (λ byte. byte < 256) bytes.now }
{
    match bytes {
        [] => {}
        [first, more @ ..] => {
            put(out, answer, b" ");
            put_hex_byte(out, answer, *first);
            put_hex_bytes(out, answer, more);
        }
    }
}

fn put_hex_bytes<O: ByteSink>(out: &mut O, answer: &mut Result<(), SinkError>, bytes: &[u8])
    ensures text { Puts O.bytes O.faults O.grows answer.old answer.new (flat_map hex_byte bytes.now)
        out.old out.new }
    ensures bytes { All (λ byte. byte < 256) bytes.now }
{
    for byte in bytes {
        put_hex_byte(out, answer, *byte);
    }
}

fn put_hex_byte<O: ByteSink>(out: &mut O, answer: &mut Result<(), SinkError>, byte: u8)
    ensures { Puts O.bytes O.faults O.grows answer.old answer.new (hex_byte byte) out.old out.new }
{
    let digits = [digit_of(u32::from(byte / 16)), digit_of(u32::from(byte))];
    put(out, answer, &digits);
}

fn put_name<O: ByteSink>(out: &mut O, answer: &mut Result<(), SinkError>, name: &[u8])
    ensures text { Puts O.bytes O.faults O.grows answer.old answer.new (name_text name.now) out.old out.new }
    ensures bytes { All (λ byte. byte < 256) name.now }
{
    match name {
        [] => put(out, answer, b"-"),
        [first, more @ ..] => {
            put_first(out, answer, *first, more.is_empty());
            put_name_bytes(out, answer, more);
        }
    }
}

fn put_name_bytes<O: ByteSink>(out: &mut O, answer: &mut Result<(), SinkError>, bytes: &[u8])
    ensures text { Puts O.bytes O.faults O.grows answer.old answer.new (flat_map name_byte bytes.now)
        out.old out.new }
    ensures bytes { All (λ byte. byte < 256) bytes.now }
{
    for byte in bytes {
        put_name_byte(out, answer, *byte);
    }
}

/// Writes the first byte of a name.
fn put_first<O: ByteSink>(out: &mut O, answer: &mut Result<(), SinkError>, byte: u8, is_all: bool)
    ensures { Puts O.bytes O.faults O.grows answer.old answer.new (first_byte byte is_all) out.old out.new }
{
    if is_all && byte == b'-' {
        put_escaped(out, answer, byte);
    } else {
        put_name_byte(out, answer, byte);
    }
}

fn put_name_byte<O: ByteSink>(out: &mut O, answer: &mut Result<(), SinkError>, byte: u8)
    ensures { Puts O.bytes O.faults O.grows answer.old answer.new (name_byte byte) out.old out.new }
{
    if is_plain(byte) {
        put(out, answer, &[byte]);
    } else {
        put_escaped(out, answer, byte);
    }
}

fn put_escaped<O: ByteSink>(out: &mut O, answer: &mut Result<(), SinkError>, byte: u8)
    ensures { Puts O.bytes O.faults O.grows answer.old answer.new (escaped byte) out.old out.new }
{
    put(out, answer, b"\\");
    put_hex_byte(out, answer, byte);
}

/// The byte stands for itself in a name.
fn is_plain(byte: u8) -> bool
    ensures { result ≡ is_plain byte }
{
    byte >= 0x21 && byte <= 0x7e && byte != b'#' && byte != b'\\'
}
