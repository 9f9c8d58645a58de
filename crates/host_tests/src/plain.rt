//! A plain core: what a host without a server sends, found by scanning the rows before an event, with frames, captures and
//! texts put together from pieces.
use std::alloc::{AllocError, Global};

/// An event, and the id of the discover that is sent in it.
#[derive(Drop)]
pub struct PlainRow {
    kind: u8,
    micros: u64,
    id: Option<u32>,
}

/// The byte that names a reset.
const RESET: u8 = 4;

/// The iterate of xorshift32 (Marsaglia 2003) after `count` ones more.
fn iterate(seed: u32, count: usize) -> u32 {
    let mut word = seed;
    for _ in 0..count {
        word ^= word << 13;
        word ^= word >> 17;
        word ^= word << 5;
    }
    word
}

/// Whether a discover was sent in the ten seconds before a time.
fn is_waiting(rows: &[PlainRow], micros: u64) -> bool {
    rows.iter().any(|row| row.id.is_some() && row.micros.saturating_add(10_000_000) > micros)
}

/// The rows of events of these kinds at these times.
pub fn rows_of(
    alloc: Global,
    events: &[(u8, u64)],
    seed: u32,
) -> Result<Vec<PlainRow>, AllocError> {
    let mut rows: Vec<PlainRow> = Vec::new(alloc);
    for (kind, micros) in events {
        let (kind, micros) = (*kind, *micros);
        let id = if kind != RESET && is_waiting(rows.as_slice(), micros) {
            None
        } else {
            Some(iterate(seed, rows.len().saturating_mul(3).saturating_add(1)))
        };
        rows.push(PlainRow { kind, micros, id })?;
    }
    Ok(rows)
}

/// The frame of a discover of 02:02:02:02:02:02 with this id and UDP checksum: Ethernet, IPv4, UDP (RFC 894, 791, 768),
/// and the message (RFC 2131, 2132).
pub fn discover_frame(alloc: Global, id: u32, checksum: u16) -> Result<Vec<u8>, AllocError> {
    let mut frame = Vec::from_slice(
        alloc,
        b"\xff\xff\xff\xff\xff\xff\x02\x02\x02\x02\x02\x02\x08\x00",
    )?;
    frame.extend_from_slice(
        b"\x45\x00\x01\x22\x00\x00\x40\x00\x40\x11\x39\xcc\x00\x00\x00\x00\xff\xff\xff\xff",
    )?;
    frame.extend_from_slice(b"\x00\x44\x00\x43\x01\x0e")?;
    frame.extend_from_slice(&checksum.to_be_bytes())?;
    frame.extend_from_slice(b"\x01\x01\x06\x00")?;
    frame.extend_from_slice(&id.to_be_bytes())?;
    frame.extend_from_slice(&[0; 20])?;
    frame.extend_from_slice(&[2; 6])?;
    frame.extend_from_slice(&[0; 202])?;
    frame.extend_from_slice(
        b"\x63\x82\x53\x63\x35\x01\x01\x3d\x07\x01\x02\x02\x02\x02\x02\x02\x39\x02\x05\x98",
    )?;
    frame.extend_from_slice(b"\x37\x03\x01\x03\x06\xff")?;
    Ok(frame)
}

/// The UDP checksum of that frame (RFC 768): the words of the pseudo header, of the header and of the message sum to zero in
/// one's complement arithmetic.
fn udp_checksum(frame: &[u8]) -> u16 {
    // Both addresses, protocol 17 and the length 270 beside what the frame holds from its UDP header on.
    let mut sum: u64 = 2 * 0xffff + 17 + 270;
    for (i, byte) in frame.iter().enumerate() {
        let value = u64::from(*byte);
        if i >= 34 {
            sum = sum.saturating_add(if i % 2 == 0 { value * 256 } else { value });
        }
    }
    (0xffff - sum % 0xffff) as u16
}

/// A record of libpcap's file format, little-endian, of a packet at so many seconds.
pub fn packet_record(alloc: Global, secs: u32, packet: &[u8]) -> Result<Vec<u8>, AllocError> {
    record(alloc, secs, 0, packet)
}

fn record(alloc: Global, secs: u32, micros: u32, packet: &[u8]) -> Result<Vec<u8>, AllocError> {
    let mut record = Vec::from_slice(alloc, &secs.to_le_bytes())?;
    record.extend_from_slice(&micros.to_le_bytes())?;
    let len = (packet.len() % 0x1_0000) as u32;
    record.extend_from_slice(&len.to_le_bytes())?;
    record.extend_from_slice(&len.to_le_bytes())?;
    record.extend_from_slice(packet)?;
    Ok(record)
}

pub fn capture_of(alloc: Global, header: &[u8], rows: &[PlainRow]) -> Result<Vec<u8>, AllocError> {
    let mut capture = Vec::from_slice(alloc, header)?;
    for row in rows {
        if let Some(id) = row.id {
            let open = discover_frame(alloc, id, 0)?;
            let frame = discover_frame(alloc, id, udp_checksum(open.as_slice()))?;
            let secs = (row.micros / 1_000_000 % 0x1_0000_0000) as u32;
            let micros = (row.micros % 1_000_000) as u32;
            capture.extend_from_slice(record(alloc, secs, micros, frame.as_slice())?.as_slice())?;
        }
    }
    Ok(capture)
}

pub fn text_of(alloc: Global, rows: &[PlainRow]) -> Result<Vec<u8>, AllocError> {
    let mut text = Vec::new(alloc);
    for (number, row) in rows.iter().enumerate() {
        let secs = row.micros / 1_000_000;
        let micros = row.micros % 1_000_000;
        let line = format!(in alloc; "{number} {secs}.{micros:06} ")?;
        text.extend_from_slice(line.as_bytes())?;
        text.extend_from_slice(if row.kind == RESET { b"reset" } else { b"tick" })?;
        text.extend_from_slice(b" lease none\n")?;
        if row.id.is_some() {
            text.extend_from_slice(b"  sent dhcp 304\n")?;
        }
    }
    text.extend_from_slice(b"done\n")?;
    Ok(text)
}
