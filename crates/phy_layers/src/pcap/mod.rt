//! Captures of packets, in libpcap's file format (draft-ietf-opsawg-pcap).
ghost use Rattle.std.specs.Prelude.{◌≡◌, ◌*◌, ◌^◌, ◌<◌, length, take};
ghost use Rattle.std.specs.Int.{to_le_bytes, w16, w32};
ghost use Rattle.std.specs.List.{flat_map};
ghost use Rattle.phy_layers.specs.Sink.{Took};
ghost use Rattle.phy_layers.specs.PcapBytes.{snap_len, global_header, record_header, packet_record, epoch_micros, IsCapturable};
ghost use Rattle.phy_layers.specs.PcapLinkType.{link_type_number};

pub mod link_type;

use crate::{ByteSink, MemorySink, SinkError, SureSink, WriteSink};
pub use link_type::PcapLinkType;
use net_wire::Instant;
use std::io::Write;

/// Says that the numbers are little-endian, and that the times count microseconds.
const MAGIC: u32 = 0xa1b2_c3d4;

const VERSION_MAJOR: u16 = 2;

const VERSION_MINOR: u16 = 4;

/// Stands in the two places of the header that readers ignore.
const RESERVED: u32 = 0;

/// The most bytes of a packet that a record holds.
const SNAP_LEN: usize = 262_144;

/// A sink that captures of packets are written to.
pub trait PcapSink: ByteSink + Sized {
    /// Writes a number, little-endian.
    fn write_u16(&mut self, value: u16) -> Result<(), SinkError>
        ensures { Took Self.bytes Self.faults Self.grows result
            (to_le_bytes w16 value) self.old self.new }
    {
        self.write(&value.to_le_bytes())
    }

    /// Writes a number, little-endian.
    fn write_u32(&mut self, value: u32) -> Result<(), SinkError>
        ensures { Took Self.bytes Self.faults Self.grows result
            (to_le_bytes w32 value) self.old self.new }
    {
        self.write(&value.to_le_bytes())
    }

    /// Writes what a capture begins with, each number by a write of its own. It does not flush.
    fn global_header(&mut self, link_type: PcapLinkType) -> Result<(), SinkError>
        ensures { Took Self.bytes Self.faults Self.grows result
            (global_header (link_type_number link_type)) self.old self.new }
    {
        write_global_header(self, link_type)
    }

    /// Writes the header of the record of a packet of `length` bytes, each number by a write of its
    /// own. It does not flush.
    fn packet_header(&mut self, timestamp: Instant, length: usize) -> Result<(), SinkError>
        requires time { IsCapturable timestamp }
        requires length { length < 2 ^ 32 }
        ensures { Took Self.bytes Self.faults Self.grows result
            (record_header (epoch_micros timestamp) length) self.old self.new }
    {
        write_record_header(self, timestamp, length)
    }

    /// Writes the record of a packet, header and bytes, and flushes.
    fn packet(&mut self, timestamp: Instant, packet: &[u8]) -> Result<(), SinkError>
        requires time { IsCapturable timestamp }
        requires length { length packet.now < 2 ^ 32 }
        ensures { Took Self.bytes Self.faults Self.grows result
            (packet_record (epoch_micros timestamp) packet.now) self.old self.new }
    {
        write_packet(self, timestamp, packet)
    }

    /// The most bytes of a packet that a record holds.
    fn max_packet_size(&self) -> u32
        ensures { result ≡ snap_len }
    {
        SNAP_LEN as u32
    }
}

impl PcapSink for MemorySink {}

impl PcapSink for SureSink {}

impl<W: Write + Drop> PcapSink for WriteSink<W> {}

fn write_global_header<S: ByteSink>(sink: &mut S, link_type: PcapLinkType) -> Result<(), SinkError>
    ensures { Took S.bytes S.faults S.grows result
        (global_header (link_type_number link_type)) sink.old sink.new }
{
    let number = u32::from(link_type);
    write_pieces(
        sink,
        &[
            &MAGIC.to_le_bytes(),
            &VERSION_MAJOR.to_le_bytes(),
            &VERSION_MINOR.to_le_bytes(),
            &RESERVED.to_le_bytes(),
            &RESERVED.to_le_bytes(),
            &(SNAP_LEN as u32).to_le_bytes(),
            &number.to_le_bytes(),
        ],
    )
}

fn write_record_header<S: ByteSink>(
    sink: &mut S,
    timestamp: Instant,
    length: usize,
) -> Result<(), SinkError>
    requires time { IsCapturable timestamp }
    requires length { length < 2 ^ 32 }
    ensures { Took S.bytes S.faults S.grows result
        (record_header (epoch_micros timestamp) length) sink.old sink.new }
{
    let micros = micros_of(timestamp);
    let secs = (micros / 1_000_000) as u32;
    let subsec_micros = (micros % 1_000_000) as u32;
    let captured = length.min(SNAP_LEN) as u32;
    write_pieces(
        sink,
        &[
            &secs.to_le_bytes(),
            &subsec_micros.to_le_bytes(),
            &captured.to_le_bytes(),
            &(length as u32).to_le_bytes(),
        ],
    )
}

fn write_packet<S: ByteSink>(
    sink: &mut S,
    timestamp: Instant,
    packet: &[u8],
) -> Result<(), SinkError>
    requires time { IsCapturable timestamp }
    requires length { length packet.now < 2 ^ 32 }
    ensures { Took S.bytes S.faults S.grows result
        (packet_record (epoch_micros timestamp) packet.now) sink.old sink.new }
{
    write_record_header(sink, timestamp, packet.len())?;
    sink.write(captured(packet))?;
    sink.flush()
}

/// The bytes of a packet that its record holds.
#[tactic(auto, using(std::proofs::lemmas::List::take_min))]
fn captured(packet: &[u8]) -> &[u8]
    ensures { result.now ≡ take snap_len packet.now }
{
    &packet[..SNAP_LEN.min(packet.len())]
}

/// The microseconds of a moment that a record can hold.
fn micros_of(timestamp: Instant) -> u64
    requires { IsCapturable timestamp }
    ensures value { result ≡ epoch_micros timestamp }
    ensures within { result < 2 ^ 32 * 1000000 }
{
    timestamp.total_micros() as u64
}

/// Writes pieces, each by a write of its own.
fn write_pieces<S: ByteSink>(sink: &mut S, pieces: &[&[u8]]) -> Result<(), SinkError>
    ensures { Took S.bytes S.faults S.grows result
        (flat_map (λ piece. piece.now) pieces.now) sink.old sink.new }
{
    for piece in pieces {
        sink.write(piece)?;
    }
    Ok(())
}
