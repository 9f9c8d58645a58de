//! The text of a report.
ghost use Rattle.std.specs.Prelude.{◌≡◌};
ghost use Rattle.std.specs.List.{flat_map};
ghost use Rattle.phy_layers.specs.Sink.{Took};
ghost use Rattle.phy_layers.specs.PcapBytes.{epoch_micros};
ghost use Rattle.capture_explain.specs.Text.{Puts};
ghost use Rattle.ether_link.specs.Texts.{layer_word};
ghost use Rattle.host_top.specs.ReportText.{report_bytes, row_text, event_line, sent_line, time_text};
ghost use Rattle.host_top.specs.ReportText.{kind_text, note_text, found_text, net_text, transport_text, flag_text};
ghost use Rattle.host_top.specs.ReportText.{stop_text, mark_text, lease_text};

use crate::address_text::put_address;
use crate::query_text::put_lines;
use capture_explain::text::{put, put_number, put_six_digits};
use ether_lax::{FrameNote, NetKind, TransportKind};
use ether_link::err::Layer;
use net_host::{Kind, Mark, Report, Row, Sent};
use net_wire::{Instant, Ipv4Cidr};
use phy_layers::{ByteSink, SinkError};

/// Writes the text of a report. It takes no memory in itself.
pub fn report_text<O: ByteSink>(report: &Report, out: &mut O) -> Result<(), SinkError>
    ensures { Took O.bytes O.faults O.grows result (report_bytes report.now) out.old out.new }
{
    let mut answer = Ok(());
    let mut number = 0;
    for row in report.rows() {
        put_row(out, &mut answer, number, row);
        number += 1;
    }
    answer
}

/// The lines of a row.
pub(crate) fn put_row<O: ByteSink>(
    out: &mut O,
    answer: &mut Result<(), SinkError>,
    number: u64,
    row: &Row,
)
    ensures { Puts O.bytes O.faults O.grows answer.old answer.new (row_text (number, row.now)) out.old out.new }
{
    put_event(out, answer, number, row);
    put_sent(out, answer, row.sent.as_slice());
    put_lines(out, answer, row.lines.as_slice());
}

fn put_event<O: ByteSink>(out: &mut O, answer: &mut Result<(), SinkError>, number: u64, row: &Row)
    ensures { Puts O.bytes O.faults O.grows answer.old answer.new (event_line number row.now) out.old out.new }
{
    put_number(out, answer, number);
    put(out, answer, b" ");
    put_time(out, answer, row.at);
    put(out, answer, b" ");
    put_kind(out, answer, row.kind);
    put_note(out, answer, row.note);
    put(out, answer, b" lease ");
    put_lease(out, answer, row.lease);
    put(out, answer, b"\n");
}

fn put_sent<O: ByteSink>(out: &mut O, answer: &mut Result<(), SinkError>, sent: &[Sent])
    ensures { Puts O.bytes O.faults O.grows answer.old answer.new (flat_map sent_line sent.now) out.old out.new }
{
    for frame in sent {
        put_frame(out, answer, frame);
    }
}

/// A line on a frame that was sent.
pub fn put_frame<O: ByteSink>(out: &mut O, answer: &mut Result<(), SinkError>, sent: &Sent)
    ensures { Puts O.bytes O.faults O.grows answer.old answer.new (sent_line sent.now) out.old out.new }
{
    put(out, answer, b"  sent ");
    put_mark(out, answer, sent.mark);
    put(out, answer, b" ");
    put_number(out, answer, sent.frame.as_slice().len() as u64);
    put(out, answer, b"\n");
}

/// A time in seconds. Times before moment 0 are no times of events.
pub(crate) fn put_time<O: ByteSink>(out: &mut O, answer: &mut Result<(), SinkError>, at: Instant)
    ensures { Puts O.bytes O.faults O.grows answer.old answer.new (time_text (epoch_micros at)) out.old out.new }
{
    let micros = micros_of(at);
    put_number(out, answer, micros / 1_000_000);
    put(out, answer, b".");
    put_six_digits(out, answer, micros % 1_000_000);
}

fn micros_of(at: Instant) -> u64
    ensures { result ≡ epoch_micros at }
{
    let micros = at.total_micros();
    if micros < 0 { 0 } else { micros as u64 }
}

/// An address with its prefix, or that there is none.
pub fn put_lease<O: ByteSink>(
    out: &mut O,
    answer: &mut Result<(), SinkError>,
    lease: Option<Ipv4Cidr>,
)
    ensures { Puts O.bytes O.faults O.grows answer.old answer.new (lease_text lease) out.old out.new }
{
    match lease {
        None => put(out, answer, b"none"),
        Some(cidr) => {
            put_address(out, answer, cidr.address);
            put(out, answer, b"/");
            put_number(out, answer, u64::from(cidr.prefix_len));
        }
    }
}

fn put_kind<O: ByteSink>(out: &mut O, answer: &mut Result<(), SinkError>, kind: Kind)
    ensures { Puts O.bytes O.faults O.grows answer.old answer.new (kind_text kind) out.old out.new }
{
    match kind {
        Kind::Frame { length } => {
            put(out, answer, b"frame ");
            put_number(out, answer, u64::from(length));
        }
        Kind::Tick => put(out, answer, b"tick"),
        Kind::Reset => put(out, answer, b"reset"),
        Kind::Query => put(out, answer, b"query"),
    }
}

/// What is noted of a frame that arrived: nothing where none did.
fn put_note<O: ByteSink>(out: &mut O, answer: &mut Result<(), SinkError>, note: Option<FrameNote>)
    ensures { Puts O.bytes O.faults O.grows answer.old answer.new (note_text note) out.old out.new }
{
    match note {
        Some(note) => put_found(out, answer, note),
        None => {}
    }
}

fn put_found<O: ByteSink>(out: &mut O, answer: &mut Result<(), SinkError>, note: FrameNote)
    ensures { Puts O.bytes O.faults O.grows answer.old answer.new (found_text note) out.old out.new }
{
    put(out, answer, b" exts=");
    put_number(out, answer, u64::from(note.exts));
    put(out, answer, b" net=");
    put(out, answer, net_word(note.net));
    put(out, answer, b" transport=");
    put(out, answer, transport_word(note.transport));
    put(out, answer, b" window=");
    put_number(out, answer, u64::from(note.start));
    put(out, answer, b"-");
    put_number(out, answer, u64::from(note.end));
    put(out, answer, b" incomplete=");
    put(out, answer, flag_word(note.incomplete));
    put(out, answer, b" fragmented=");
    put(out, answer, flag_word(note.fragmented));
    put(out, answer, b" stop=");
    put(out, answer, stop_word(note.stop));
}

fn net_word(net: NetKind) -> &'static [u8]
    ensures { result.now ≡ net_text net }
{
    match net {
        NetKind::None => b"none",
        NetKind::Ipv4 => b"ipv4",
        NetKind::Ipv6 => b"ipv6",
        NetKind::Arp => b"arp",
    }
}

fn transport_word(transport: TransportKind) -> &'static [u8]
    ensures { result.now ≡ transport_text transport }
{
    match transport {
        TransportKind::None => b"none",
        TransportKind::Icmpv4 => b"icmpv4",
        TransportKind::Udp => b"udp",
        TransportKind::Tcp => b"tcp",
        TransportKind::Icmpv6 => b"icmpv6",
    }
}

fn flag_word(flag: bool) -> &'static [u8]
    ensures { result.now ≡ flag_text flag }
{
    if flag { b"1" } else { b"0" }
}

fn stop_word(stop: Option<Layer>) -> &'static [u8]
    ensures { result.now ≡ stop_text stop }
{
    match stop {
        None => b"none",
        Some(layer) => word_of(layer),
    }
}

/// The word of a layer, as its errors print it.
fn word_of(layer: Layer) -> &'static [u8]
    ensures { result.now ≡ layer_word layer }
{
    match layer {
        Layer::Ethernet2Header => b"ethernet",
        Layer::VlanHeader => b"vlan",
        Layer::MacsecHeader => b"macsec",
        Layer::Arp => b"arp",
        Layer::IpHeader => b"ip",
        Layer::Ipv4Header => b"ipv4",
        Layer::Ipv6Header => b"ipv6",
        Layer::IpAuthHeader => b"auth",
        Layer::Ipv6HopByHopHeader => b"hop-by-hop",
        Layer::Ipv6RouteHeader => b"route",
        Layer::Ipv6FragHeader => b"frag",
        Layer::Ipv6DestOptionsHeader => b"dest-options",
        Layer::UdpHeader => b"udp",
        Layer::TcpHeader => b"tcp",
        Layer::Icmpv4 => b"icmpv4",
        Layer::Icmpv4Timestamp => b"icmpv4-timestamp",
        Layer::Icmpv4TimestampReply => b"icmpv4-timestamp-reply",
        Layer::Icmpv6 => b"icmpv6",
        Layer::LinuxSllHeader => b"linux-sll",
    }
}

fn put_mark<O: ByteSink>(out: &mut O, answer: &mut Result<(), SinkError>, mark: Mark)
    ensures { Puts O.bytes O.faults O.grows answer.old answer.new (mark_text mark) out.old out.new }
{
    match mark {
        Mark::Dhcp => put(out, answer, b"dhcp"),
        Mark::Dns { query, place } => {
            put(out, answer, b"dns ");
            put_number(out, answer, u64::from(query));
            put(out, answer, b" ");
            put_number(out, answer, u64::from(place));
        }
        Mark::ArpReply => put(out, answer, b"arp-reply"),
        Mark::ArpRequest => put(out, answer, b"arp-request"),
    }
}
