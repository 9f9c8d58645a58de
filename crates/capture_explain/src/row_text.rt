//! The text of an explanation.
ghost use Rattle.std.specs.Prelude.{◌≡◌};
ghost use Rattle.std.specs.List.{flat_map};
ghost use Rattle.phy_layers.specs.Sink.{Took};
ghost use Rattle.ether_link.specs.Texts.{layer_word};
ghost use Rattle.capture_explain.specs.Text.{Puts};
ghost use Rattle.capture_explain.specs.ExplainText.{kind_word, part_text, more_text, parts_text, stop_text, flag_text};
ghost use Rattle.capture_explain.specs.ExplainText.{frame_line, ah_line, esp_line, row_text, explanation_bytes};

use crate::text::{put, put_hexadecimal, put_number, put_six_digits};
use crate::{AhPart, EspPart, ExplainRow, Explanation, Part, PartKind};
use ether_link::err::Layer;
use phy_layers::{ByteSink, SinkError};

/// Writes the text of an explanation. It takes no memory in itself.
pub fn explain_text<O: ByteSink>(explanation: &Explanation, out: &mut O) -> Result<(), SinkError>
    ensures text { Took O.bytes O.faults O.grows result (explanation_bytes explanation.now) out.old out.new }
{
    let mut answer = Ok(());
    let mut number = 0;
    for row in explanation.rows() {
        put_row(out, &mut answer, number, row);
        number += 1;
    }
    answer
}

fn put_row<O: ByteSink>(
    out: &mut O,
    answer: &mut Result<(), SinkError>,
    number: u64,
    row: &ExplainRow,
)
    ensures { Puts O.bytes O.faults O.grows answer.old answer.new (row_text (number, row.now)) out.old out.new }
{
    put_frame(out, answer, number, row);
    put_headers(out, answer, row.ah.as_slice());
    put_esp(out, answer, row.esp);
}

fn put_frame<O: ByteSink>(
    out: &mut O,
    answer: &mut Result<(), SinkError>,
    number: u64,
    row: &ExplainRow,
)
    ensures { Puts O.bytes O.faults O.grows answer.old answer.new (frame_line number row.now) out.old out.new }
{
    put_number(out, answer, number);
    put(out, answer, b" ");
    put_number(out, answer, u64::from(row.secs));
    put(out, answer, b".");
    put_six_digits(out, answer, u64::from(row.micros));
    put(out, answer, b" frame ");
    put_number(out, answer, u64::from(row.captured));
    put(out, answer, b"/");
    put_number(out, answer, u64::from(row.length));
    put(out, answer, b" ");
    put_parts(out, answer, row.parts.as_slice());
    put(out, answer, b" stop=");
    put(out, answer, stop_word(row.stop));
    put(out, answer, b" agree=");
    put(out, answer, flag_word(row.agree));
    put(out, answer, b"\n");
}

fn put_parts<O: ByteSink>(out: &mut O, answer: &mut Result<(), SinkError>, parts: &[Part])
    ensures { Puts O.bytes O.faults O.grows answer.old answer.new (parts_text parts.now) out.old out.new }
{
    match parts {
        [] => put(out, answer, b"none"),
        [first, more @ ..] => {
            put_part(out, answer, *first);
            put_more(out, answer, more);
        }
    }
}

fn put_more<O: ByteSink>(out: &mut O, answer: &mut Result<(), SinkError>, parts: &[Part])
    ensures { Puts O.bytes O.faults O.grows answer.old answer.new (flat_map more_text parts.now) out.old out.new }
{
    for part in parts {
        put_next(out, answer, *part);
    }
}

fn put_next<O: ByteSink>(out: &mut O, answer: &mut Result<(), SinkError>, part: Part)
    ensures { Puts O.bytes O.faults O.grows answer.old answer.new (more_text part) out.old out.new }
{
    put(out, answer, b",");
    put_part(out, answer, part);
}

fn put_part<O: ByteSink>(out: &mut O, answer: &mut Result<(), SinkError>, part: Part)
    ensures { Puts O.bytes O.faults O.grows answer.old answer.new (part_text part) out.old out.new }
{
    put(out, answer, kind_word(part.kind));
    put(out, answer, b"@");
    put_number(out, answer, u64::from(part.header));
    put(out, answer, b"-");
    put_number(out, answer, u64::from(part.window));
    put(out, answer, b"-");
    put_number(out, answer, u64::from(part.end));
}

fn put_headers<O: ByteSink>(out: &mut O, answer: &mut Result<(), SinkError>, headers: &[AhPart])
    ensures { Puts O.bytes O.faults O.grows answer.old answer.new (flat_map ah_line headers.now) out.old out.new }
{
    for header in headers {
        put_ah(out, answer, *header);
    }
}

fn put_ah<O: ByteSink>(out: &mut O, answer: &mut Result<(), SinkError>, header: AhPart)
    ensures { Puts O.bytes O.faults O.grows answer.old answer.new (ah_line header) out.old out.new }
{
    put(out, answer, b"  ah ");
    put_number(out, answer, u64::from(header.next));
    put(out, answer, b" ");
    put_hexadecimal(out, answer, header.spi);
    put(out, answer, b" ");
    put_number(out, answer, u64::from(header.sequence));
    put(out, answer, b" ");
    put_number(out, answer, u64::from(header.icv_len));
    put(out, answer, b"\n");
}

fn put_esp<O: ByteSink>(out: &mut O, answer: &mut Result<(), SinkError>, esp: Option<EspPart>)
    ensures { Puts O.bytes O.faults O.grows answer.old answer.new (esp_line esp) out.old out.new }
{
    match esp {
        Some(header) => {
            put(out, answer, b"  esp ");
            put_hexadecimal(out, answer, header.spi);
            put(out, answer, b" ");
            put_number(out, answer, u64::from(header.sequence));
            put(out, answer, b"\n");
        }
        None => {}
    }
}

fn flag_word(flag: bool) -> &'static [u8]
    ensures { result.now ≡ flag_text flag }
{
    if flag { b"1" } else { b"0" }
}

fn stop_word(stop: Option<Layer>) -> &'static [u8]
    ensures { result.now ≡ stop_text stop }
{
    match stop {
        None => b"none",
        Some(layer) => word_of(layer),
    }
}

/// The word of a layer, as its errors print it.
fn word_of(layer: Layer) -> &'static [u8]
    ensures { result.now ≡ layer_word layer }
{
    match layer {
        Layer::Ethernet2Header => b"ethernet",
        Layer::VlanHeader => b"vlan",
        Layer::MacsecHeader => b"macsec",
        Layer::Arp => b"arp",
        Layer::IpHeader => b"ip",
        Layer::Ipv4Header => b"ipv4",
        Layer::Ipv6Header => b"ipv6",
        Layer::IpAuthHeader => b"auth",
        Layer::Ipv6HopByHopHeader => b"hop-by-hop",
        Layer::Ipv6RouteHeader => b"route",
        Layer::Ipv6FragHeader => b"frag",
        Layer::Ipv6DestOptionsHeader => b"dest-options",
        Layer::UdpHeader => b"udp",
        Layer::TcpHeader => b"tcp",
        Layer::Icmpv4 => b"icmpv4",
        Layer::Icmpv4Timestamp => b"icmpv4-timestamp",
        Layer::Icmpv4TimestampReply => b"icmpv4-timestamp-reply",
        Layer::Icmpv6 => b"icmpv6",
        Layer::LinuxSllHeader => b"linux-sll",
    }
}

/// The word of a kind of part.
fn kind_word(kind: PartKind) -> &'static [u8]
    ensures { result.now ≡ kind_word kind }
{
    match kind {
        PartKind::Ethernet => b"ethernet",
        PartKind::Vlan => b"vlan",
        PartKind::Macsec => b"macsec",
        PartKind::Arp => b"arp",
        PartKind::Ipv4 => b"ipv4",
        PartKind::Ipv6 => b"ipv6",
        PartKind::HopByHop => b"hop-by-hop",
        PartKind::Route => b"route",
        PartKind::Frag => b"frag",
        PartKind::DestOptions => b"dest-options",
        PartKind::Auth => b"auth",
        PartKind::Udp => b"udp",
        PartKind::Tcp => b"tcp",
        PartKind::Icmpv4 => b"icmpv4",
        PartKind::Icmpv6 => b"icmpv6",
    }
}
