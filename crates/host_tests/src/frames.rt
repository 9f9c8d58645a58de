//! Frames that arrive: their notes, and their records in front of what is sent.
use crate::calls::{FILE_HEADER, run_words};
use crate::plain::{discover_frame, packet_record};
use std::alloc::{AllocError, Global};
use std::test::Fail;

/// The event of a frame at so many seconds: the kind 1, the time, the length, and the frame.
fn frame_event(alloc: Global, secs: u64, frame: &[u8]) -> Result<Vec<u8>, AllocError> {
    let mut event = Vec::from_slice(alloc, b"\x01")?;
    event.extend_from_slice(&secs.saturating_mul(1_000_000).to_be_bytes())?;
    let len = (frame.len() % 0x1_0000) as u16;
    event.extend_from_slice(&len.to_be_bytes())?;
    event.extend_from_slice(frame)?;
    Ok(event)
}

/// A frame to 02:02:02:02:02:02 from 02:00:00:00:00:01 with this ether type, bytes behind it, and zeros up to `len`.
fn frame_of(
    alloc: Global,
    ether_type: u16,
    bytes: &[u8],
    len: usize,
) -> Result<Vec<u8>, AllocError> {
    let mut frame = Vec::from_slice(alloc, b"\x02\x02\x02\x02\x02\x02\x02\x00\x00\x00\x00\x01")?;
    frame.extend_from_slice(&ether_type.to_be_bytes())?;
    frame.extend_from_slice(bytes)?;
    let missing = len.saturating_sub(frame.len());
    for _ in 0..missing {
        frame.push(0)?;
    }
    Ok(frame)
}

/// An ether type, bytes behind it, how long the frame is, and its note.
type Noted = (u16, &'static [u8], usize, &'static [u8]);

const NOTED: [Noted; 4] = [
    // IPv4 of 302 bytes with UDP of 282, and 20 bytes of padding.
    (
        0x0800,
        b"\x45\x00\x01\x2e\x00\x00\x40\x00\x40\x11\x00\x00\xc0\xa8\x01\x01\xff\xff\xff\xff\x00\x43\x00\x44\x01\x1a",
        336,
        b"frame 336 exts=0 net=ipv4 transport=udp window=42-316 incomplete=0 fragmented=0 stop=none",
    ),
    // Four tags.
    (
        0x8100,
        b"\x00\x01\x81\x00\x00\x02\x81\x00\x00\x03\x81\x00\x00\x04\x08\x00",
        30,
        b"frame 30 exts=3 net=none transport=none window=26-30 incomplete=0 fragmented=0 stop=none",
    ),
    // A MACsec part that is cut, with an IPv4 header of total length 44 and two bytes of UDP.
    (
        0x88e5,
        b"\x00\x2e\x00\x00\x00\x00\x08\x00\x45\x00\x00\x2c\x00\x00\x00\x00\x40\x11",
        44,
        b"frame 44 exts=1 net=ipv4 transport=none window=42-44 incomplete=1 fragmented=0 stop=udp",
    ),
    // An ARP packet.
    (
        0x0806,
        b"\x00\x01\x08\x00\x06\x04\x00\x02",
        42,
        b"frame 42 exts=0 net=arp transport=none window=14-42 incomplete=0 fragmented=0 stop=none",
    ),
];

/// The words of a run of one event.
const RUN: [&str; 4] = ["run", "020202020202", "1", "1"];

/// Whether the frame is as long as it should be, and a run notes it, and captures it before the discover.
fn is_noted(alloc: Global, (ether_type, bytes, len, line): Noted) -> Result<bool, AllocError> {
    let frame = frame_of(alloc, ether_type, bytes, len)?;
    let script = frame_event(alloc, 3, frame.as_slice())?;
    let ran = run_words(alloc, &RUN, &[], script.as_slice())?;
    let mut text = Vec::from_slice(alloc, b"0 3.000000 ")?;
    text.extend_from_slice(line)?;
    text.extend_from_slice(b" lease none\n  sent dhcp 304\ndone\n")?;
    let mut capture = Vec::from_slice(alloc, FILE_HEADER)?;
    capture.extend_from_slice(packet_record(alloc, 3, frame.as_slice())?.as_slice())?;
    let discover = discover_frame(alloc, 0x0004_2021, 0x5855)?;
    capture.extend_from_slice(packet_record(alloc, 3, discover.as_slice())?.as_slice())?;
    Ok(
        frame.len() == len
            && ran.status == 0
            && ran.printed.as_slice() == text.as_slice()
            && ran.captured.as_slice() == capture.as_slice(),
    )
}

#[test]
fn frames_are_noted_and_captured_before_what_is_sent(rt: HostRuntime) -> Result<(), Fail> {
    for (number, noted) in NOTED.iter().enumerate() {
        assert!(rt; is_noted(rt.alloc(), *noted)?, "frame {number}");
    }
    Ok(())
}

const EMPTY_FRAME: &[u8] =
    b"0 0.000000 frame 0 exts=0 net=none transport=none window=0-0 incomplete=0 fragmented=0 stop=ethernet lease none
  sent dhcp 304
done
";

fn breaks(alloc: Global, script: &[u8]) -> Result<bool, AllocError> {
    let ran = run_words(alloc, &RUN, &[], script)?;
    let has_line = ran.printed.as_slice() == b"script error at 0\n".as_slice();
    Ok(ran.status == 2 && has_line && ran.captured.as_slice() == FILE_HEADER)
}

#[test]
fn frames_that_are_cut_off_break_a_script(rt: HostRuntime) -> Result<(), Fail> {
    let alloc = rt.alloc();
    let empty = frame_event(alloc, 0, b"")?;
    let ran = run_words(alloc, &RUN, &[], empty.as_slice())?;
    assert!(rt; ran.printed.as_slice() == EMPTY_FRAME);
    let whole = frame_event(alloc, 0, b"\x07\x08\x09")?;
    for cut in [9, 10, 11, 13] {
        let end = whole.len().min(cut);
        assert!(rt; breaks(alloc, &whole.as_slice()[..end])?, "cut {cut}");
    }
    Ok(())
}
