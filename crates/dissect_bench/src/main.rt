//! Dissects built-in frames by both dissectors and by notes, as many rounds as its argument says, for a
//! clock outside. It prints the numbers of frames and of their bytes, and a sum over what was found, so
//! that no part of the work is left out. A second argument names one of the three: `slices`, `headers` or
//! `notes`.
#![tactic(auto)]

mod frames;

use ether_lax::{LaxPacketHeaders, LaxSlicedPacket, note_of};
use frames::HEADS;
use std::env;

/// What is timed.
#[derive(Clone, Copy)]
struct Parts {
    slices: bool,
    headers: bool,
    notes: bool,
}

fn main(rt: HostRuntime) -> anyhow::Result<()> {
    let mut words = env::args(&rt)?.skip(1);
    let rounds = match words.next() {
        Some(word) => word.parse::<u32>()?,
        None => 1,
    };
    let parts = match words.next() {
        Some(word) => parts_of(word.as_str()),
        None => parts_of(""),
    };
    let mut frames = Vec::new(rt.alloc());
    for (head, len) in HEADS {
        let mut frame = Vec::from_slice(rt.alloc(), head)?;
        frame.resize(len, 0)?;
        frames.push(frame)?;
    }
    let (mut count, mut bytes, mut sum) = (0_u64, 0_u64, 0_u64);
    for _ in 0..rounds {
        for frame in &frames {
            sum = sum.wrapping_add(dissected(parts, frame.as_slice()));
            bytes = bytes.wrapping_add(frame.len() as u64);
            count = count.wrapping_add(1);
        }
    }
    println!(rt; "frames {count}")?;
    println!(rt; "bytes {bytes}")?;
    println!(rt; "sum {sum}")?;
    Ok(())
}

/// What a word names, or all.
fn parts_of(word: &str) -> Parts {
    let all = !matches!(word, "slices" | "headers" | "notes");
    Parts {
        slices: all || word == "slices",
        headers: all || word == "headers",
        notes: all || word == "notes",
    }
}

/// A sum over what was found in a frame.
fn dissected(parts: Parts, frame: &[u8]) -> u64 {
    let mut sum = 0_u64;
    if parts.slices {
        sum = sum.wrapping_add(in_slices(frame));
    }
    if parts.headers {
        sum = sum.wrapping_add(in_headers(frame));
    }
    if parts.notes && frame.len() <= 65535 {
        let note = note_of(frame);
        sum = sum.wrapping_add(u64::from(note.start));
        sum = sum.wrapping_add(u64::from(note.end));
    }
    sum
}

/// The bytes of the windows.
fn in_slices(frame: &[u8]) -> u64 {
    let Ok(packet) = LaxSlicedPacket::from_ethernet(frame) else {
        return 0;
    };
    let mut sum = packet.link_exts.len() as u64;
    if let Some(payload) = packet.ip_payload() {
        sum = sum.wrapping_add(payload.payload.len() as u64);
    }
    if let Some(transport) = &packet.transport {
        sum = sum.wrapping_add(transport.payload().len() as u64);
    }
    if packet.stop_err.is_some() {
        sum = sum.wrapping_add(1);
    }
    sum
}

/// The bytes behind the last header.
fn in_headers(frame: &[u8]) -> u64 {
    let Ok(packet) = LaxPacketHeaders::from_ethernet(frame) else {
        return 0;
    };
    let mut sum = packet.link_exts.len() as u64;
    sum = sum.wrapping_add(packet.payload.slice().len() as u64);
    if packet.stop_err.is_some() {
        sum = sum.wrapping_add(1);
    }
    sum
}
