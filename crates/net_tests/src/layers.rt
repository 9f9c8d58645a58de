//! Layers against values from outside, and each once on its happy path.
ghost use Rattle.std.specs.Prelude.{◌≡◌, ◌≤◌, length, IfOk};

use net_wire::{Duration, Instant};
use phy_layers::*;
use std::alloc::Global;
use std::test::Fail;

const SECOND: i64 = 1_000_000;

/// The fates of a hundred frames, and the word that is drawn last, made by `scripts/fault-table`:
/// ffff is dropped, fffe passes, and all else is eight times the place of a byte, and its bit.
const FATES: [u16; 100] = [
    0xffff, 0xffff, 0xffff, 0xffff, 0xffff, 0xffff, 0xffff, 0xffff, 0xffff, 0xffff, //
    0xffff, 0xffff, 0xffff, 0xffff, 0xffff, 0xffff, 0xffff, 0xffff, 0xffff, 0xffff, //
    0xffff, 0xfffe, 0xfffe, 0xffff, 0xfffe, 0x028a, 0xffff, 0xfffe, 0xfffe, 0xffff, //
    0x0049, 0xffff, 0x023a, 0xfffe, 0xfffe, 0x0162, 0xfffe, 0xffff, 0xfffe, 0x0014, //
    0xfffe, 0xfffe, 0xffff, 0xffff, 0x010a, 0xfffe, 0xfffe, 0xfffe, 0x0129, 0xfffe, //
    0xffff, 0x012d, 0x000f, 0xfffe, 0xfffe, 0xffff, 0xfffe, 0xffff, 0x00fe, 0x00b0, //
    0xffff, 0xfffe, 0x0036, 0xffff, 0xfffe, 0xfffe, 0x005c, 0x0048, 0xffff, 0x0001, //
    0x00a8, 0xfffe, 0xfffe, 0xfffe, 0xffff, 0xfffe, 0x003d, 0xfffe, 0xfffe, 0xffff, //
    0xfffe, 0xffff, 0xfffe, 0xffff, 0xffff, 0xffff, 0xfffe, 0x00e9, 0x007b, 0xfffe, //
    0xfffe, 0xfffe, 0xfffe, 0xfffe, 0xffff, 0xfffe, 0x01c1, 0xfffe, 0xffff, 0xfffe,
];

const LAST_WORD: u32 = 0xf078_391d;

fn number_of(fate: Fate) -> u16 {
    match fate {
        Fate::Dropped => 0xffff,
        Fate::Whole => 0xfffe,
        Fate::Flipped { at, bit } => (at.min(4095) as u16) * 8 + (bit % 8) as u16,
    }
}

#[test]
fn a_hundred_frames_have_the_fates_of_the_table(rt: HostRuntime) {
    let settings = FaultSettings {
        corrupt_chance: 30,
        drop_chance: 15,
        max_packet_size: 110,
        max_tx_rate: 7,
        max_rx_rate: 9,
        bucket_interval: Duration::from_millis(20),
    };
    let mut state = FaultState {
        word: 0x2545_f491,
        refilled_at: Instant::ZERO,
        tx_bucket: 0,
        rx_bucket: 0,
    };
    for i in 0..100 {
        let direction = if i % 2 == 0 {
            TracerDirection::RX
        } else {
            TracerDirection::TX
        };
        let now = Instant::from_millis(i as i64);
        let outcome = fault_outcome_of(&settings, state, direction, now, 37 * i % 120);
        assert!(rt; number_of(outcome.fate) == FATES[i], "frame {i}");
        state = outcome.state;
    }
    assert!(rt; state.word == LAST_WORD);
}

/// A device of MTU 1500 with one frame that waits.
fn device(alloc: Global, medium: Medium, frame: &[u8]) -> Result<MemoryDevice, Fail>
    requires { length frame.now ≤ 1500 }
    ensures mtu { IfOk result (λ device. device.mtu ≡ 1500) }
{
    let mut frames = Vec::new(alloc);
    frames.push(FrameBytes::from_slice(alloc, frame)?)?;
    Ok(MemoryDevice::new(alloc, medium, 1500, frames, Vec::new(alloc)))
}

#[test]
fn a_chance_of_one_percent_hits_the_word_0(rt: HostRuntime) -> Result<(), Fail> {
    let mut injector = FaultInjector::new(device(rt.alloc(), Medium::Ethernet, &[1, 2, 3])?, 0);
    injector.set_drop_chance(1);
    let mut into = [0; 1500];
    assert!(rt;
        injector.receive(Instant::ZERO, &mut into) == Ok(None)
            && injector.transmit(Instant::ZERO, PacketMeta { id: 0 }, &[4]) == Ok(())
            && injector.get_mut().sent_frames().len() == 0
    );
    Ok(())
}

/// An ARP reply, whose bits are drawn from the seed 1: place 27, bit 7.
#[test]
fn a_chance_of_a_hundred_percent_flips_a_bit(rt: HostRuntime) -> Result<(), Fail> {
    let mut frame = [0; 42];
    frame[27] = 1;
    let mut injector = FaultInjector::new(device(rt.alloc(), Medium::Ethernet, &frame)?, 1);
    injector.set_corrupt_chance(100);
    let mut into = [0; 1500];
    let meta = PacketMeta { id: 0 };
    assert!(rt;
        injector.receive(Instant::ZERO, &mut into) == Ok(Some((42, meta))) && into[27] == 0x81
    );
    frame[27] = 0x81;
    assert!(rt; &into[..42] == frame.as_slice());
    Ok(())
}

/// Adds a number to each byte.
#[derive(Debug, Drop)]
struct Adds(u8);

impl Fuzzer for Adds {
    ghost use Rattle.std.specs.Prelude.{⊤};

    ghost fuzzed = { λ _ _ _ _. ⊤ };

    fn fuzz_packet(&mut self, packet_data: &mut [u8]) {
        for byte in packet_data.iter_mut() {
            *byte = byte.wrapping_add(self.0);
        }
    }
}

#[test]
fn frames_are_fuzzed_both_ways(rt: HostRuntime) -> Result<(), Fail> {
    let inner = device(rt.alloc(), Medium::Ip, &[1, 2])?;
    let mut injector = FuzzInjector::new(inner, Adds(16), Adds(32));
    let mut into = [0; 1500];
    let meta = PacketMeta { id: 0 };
    assert!(rt;
        injector.receive(Instant::ZERO, &mut into) == Ok(Some((2, meta)))
            && &into[..3] == [33, 34, 0].as_slice()
            && injector.transmit(Instant::ZERO, meta, &[1, 255]) == Ok(())
    );
    let inner = injector.into_inner();
    let sent = inner.sent_frames();
    assert!(rt; sent.len() == 1 && sent[0].as_slice() == [17, 15].as_slice());
    Ok(())
}

#[test]
fn frames_are_shown_once_each_way(rt: HostRuntime) -> Result<(), Fail> {
    let payload = [1, 2, 3, 4, 5, 6, 7, 8];
    let inner = device(rt.alloc(), Medium::Ethernet, &payload)?;
    let mut shown = 0u32;
    let mut bytes = 0usize;
    let mut tracer = Tracer::new(inner, |now: Instant, packet: &TracerPacket<'_>| {
        let way = match packet.direction {
            TracerDirection::RX => 1,
            TracerDirection::TX => 16,
        };
        shown = shown.wrapping_mul(256) + way;
        bytes = bytes
            .saturating_add(packet.buffer.len())
            .max(now.secs().max(0) as usize);
    });
    let meta = PacketMeta { id: 7 };
    assert!(rt; tracer.transmit(Instant::from_secs(1), meta, &payload) == Ok(()));
    let mut into = [0; 1500];
    let want = PacketMeta { id: 0 };
    assert!(rt;
        tracer.receive(Instant::from_secs(2), &mut into) == Ok(Some((8, want)))
            && tracer.receive(Instant::from_secs(3), &mut into) == Ok(None)
            && tracer.get_ref().sent_frames().len() == 1
            && tracer.get_mut().sent_frames().len() == 1
    );
    let inner = tracer.into_inner();
    assert!(rt;
        inner.sent_frames()[0].as_slice() == payload.as_slice() && (shown, bytes) == (0x1001, 16)
    );
    Ok(())
}

#[test]
fn a_shown_frame_has_a_text(rt: HostRuntime) -> Result<(), Fail> {
    let ethernet = [5, 4, 3, 2, 1, 0, 0, 1, 2, 3, 4, 5, 0, 0];
    let ipv4 = [
        0x45, 0, 0, 20, 0, 0, 0x40, 0, 64, 0xff, 0x25, 0xe9, 10, 0, 0, 1, 10, 0, 0, 2,
    ];
    for (buffer, medium, direction, want) in [
        (
            ethernet.as_slice(),
            Medium::Ethernet,
            TracerDirection::RX,
            "<- EthernetII src=00-01-02-03-04-05 dst=05-04-03-02-01-00 type=0x0000",
        ),
        (
            &ipv4,
            Medium::Ip,
            TracerDirection::TX,
            "-> IPv4 src=10.0.0.1 dst=10.0.0.2 proto=0xff",
        ),
        (&[0x60], Medium::Ip, TracerDirection::TX, "-> IPv6"),
        (
            &[0x50],
            Medium::Ip,
            TracerDirection::TX,
            "unrecognized IP version",
        ),
        (
            &[],
            Medium::Ip,
            TracerDirection::RX,
            "unrecognized IP version",
        ),
    ] {
        let packet = TracerPacket {
            buffer,
            medium,
            direction,
        };
        let text = format!(in rt.alloc(); "{packet}")?;
        assert!(rt; text.as_str() == want);
    }
    Ok(())
}

/// A capture of two frames, as `scripts/check-capture` writes it: the header, a request of ARP that
/// came at 0.999999 s, and eight bytes that were sent at 1 s.
const CAPTURE: [u8; 106] = [
    0xd4, 0xc3, 0xb2, 0xa1, 0x02, 0x00, 0x04, 0x00, 0x00, 0x00, 0x00, 0x00, 0x00, 0x00, 0x00, 0x00,
    0x00, 0x00, 0x04, 0x00, 0x01, 0x00, 0x00, 0x00, //
    0x00, 0x00, 0x00, 0x00, 0x3f, 0x42, 0x0f, 0x00, 0x2a, 0x00, 0x00, 0x00, 0x2a, 0x00, 0x00, 0x00,
    0xff, 0xff, 0xff, 0xff, 0xff, 0xff, 0x02, 0x00, 0x00, 0x00, 0x00, 0x01, 0x08, 0x06, //
    0x00, 0x01, 0x08, 0x00, 0x06, 0x04, 0x00, 0x01, 0x02, 0x00, 0x00, 0x00, 0x00, 0x01, //
    0xc0, 0xa8, 0x01, 0x01, 0x00, 0x00, 0x00, 0x00, 0x00, 0x00, 0xc0, 0xa8, 0x01, 0x2a, //
    0x01, 0x00, 0x00, 0x00, 0x00, 0x00, 0x00, 0x00, 0x08, 0x00, 0x00, 0x00, 0x08, 0x00, 0x00, 0x00,
    0x01, 0x02, 0x03, 0x04, 0x05, 0x06, 0x07, 0x08,
];

#[test]
fn a_capture_has_the_frames_of_its_mode(rt: HostRuntime) -> Result<(), Fail> {
    let alloc = rt.alloc();
    for (mode, records) in [
        (PcapMode::Both, &CAPTURE[24..]),
        (PcapMode::RxOnly, &CAPTURE[24..82]),
        (PcapMode::TxOnly, &CAPTURE[82..]),
    ] {
        let inner = device(alloc, Medium::Ethernet, &CAPTURE[40..82])?;
        let Ok(mut writer) = PcapWriter::new(inner, SureSink::new(alloc), mode) else {
            return Err(Fail::from("no memory"));
        };
        let now = Instant::from_micros(SECOND - 1);
        let meta = PacketMeta { id: 0 };
        let mut into = [0; 1500];
        assert!(rt; writer.receive(now, &mut into) == Ok(Some((42, meta))));
        let now = Instant::from_micros(SECOND);
        assert!(rt; writer.transmit(now, meta, &CAPTURE[98..]) == Ok(()));
        let mut want = Vec::from_slice(alloc, &CAPTURE[..24])?;
        want.extend_from_slice(records)?;
        assert!(rt;
            writer.sink().bytes() == want.as_slice() && writer.get_ref().sent_frames().len() == 1
        );
    }
    Ok(())
}

#[test]
fn a_packet_is_a_capture_of_its_own(rt: HostRuntime) -> Result<(), Fail> {
    let mut sink = SureSink::new(rt.alloc());
    convert(&mut sink, PcapLinkType::Ip, &[0xff])?;
    let want = [
        0, 0, 4, 0, 0x65, 0, 0, 0, 0, 0, 0, 0, 0, 0, 0, 0, 1, 0, 0, 0, 1, 0, 0, 0, 0xff,
    ];
    assert!(rt; sink.bytes().len() == 41 && &sink.bytes()[16..] == want.as_slice());
    Ok(())
}
