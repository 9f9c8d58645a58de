//! Frames of a life whose bytes are all set to one, behind both dissectors; and the stores of a run.
use crate::replies::{ACKNOWLEDGED, OFFERED, What};
use crate::responses::{NAMES_ARE_AT, RENEWED, RESPONSE, ROUTER_ASKS};
use dns_client::DnsQuery;
use ether_lax::{LaxPacketHeaders, LaxSlicedPacket, agrees, note_of};
use host_model::Neighbor;
use net_wire::{Instant, Ipv4Address};
use phy_layers::{Device, FrameBytes, FuzzInjector, Fuzzer, Medium, MemoryDevice};
use std::alloc::{AllocError, Global};
use std::test::Fail;

/// Sets each byte to this one.
#[derive(Debug, Drop)]
struct Sets(u8);

impl Fuzzer for Sets {
    ghost use Rattle.std.specs.Prelude.{⊤};

    ghost fuzzed = { λ _ _ _ _. ⊤ };

    fn fuzz_packet(&mut self, packet_data: &mut [u8]) {
        for byte in packet_data.iter_mut() {
            *byte = self.0;
        }
    }
}

const FRAMES: [What; 6] = [
    OFFERED,
    ACKNOWLEDGED,
    NAMES_ARE_AT,
    RESPONSE,
    ROUTER_ASKS,
    RENEWED,
];

/// The bytes of a frame.
fn bytes_of(alloc: Global, what: &What) -> Result<Vec<u8>, AllocError> {
    let mut bytes = Vec::new(alloc);
    for part in what.2 {
        bytes.extend_from_slice(part)?;
    }
    Ok(bytes)
}

/// Whether a frame comes whole through a fuzzer that sets its bytes, and both dissectors then find the same, without a part
/// behind the Ethernet header.
fn is_read_as(alloc: Global, what: &What, byte: u8) -> Result<bool, Fail> {
    let bytes = bytes_of(alloc, what)?;
    let len = bytes.len();
    if len > 1514 {
        return Ok(false);
    }
    let mut arriving = Vec::new(alloc);
    arriving.push(FrameBytes::from(bytes))?;
    let device = MemoryDevice::new(alloc, Medium::Ethernet, 1514, arriving, Vec::new(alloc));
    let mut injector = FuzzInjector::new(device, Sets(byte), Sets(byte));
    let mut into = [1; 1514];
    let Ok(Some((count, _))) = injector.receive(Instant::ZERO, &mut into) else {
        return Ok(false);
    };
    let frame = &into[..count.min(1514)];
    let (Ok(packet), Ok(headers)) = (
        LaxSlicedPacket::from_ethernet(frame),
        LaxPacketHeaders::from_ethernet(frame),
    ) else {
        return Ok(false);
    };
    let note = note_of(frame);
    let is_plain = note.exts == 0 && note.start == 14 && note.stop.is_none();
    Ok(
        count == len
            && frame.iter().all(|one| *one == byte)
            && agrees(&packet, &headers)
            && is_plain,
    )
}

#[test]
fn frames_of_one_byte_are_read_alike(rt: HostRuntime) -> Result<(), Fail> {
    for byte in [0x00, 0xff] {
        for (number, frame) in FRAMES.iter().enumerate() {
            assert!(rt;
                is_read_as(rt.alloc(), frame, byte)?,
                "frame {number} of {byte}"
            );
        }
    }
    Ok(())
}

#[test]
fn stores_of_the_longest_run_take_less_than_a_megabyte(rt: HostRuntime) {
    let frame = 65_535;
    let neighbors = 10_000 * std::mem::size_of::<Option<(Ipv4Address, Neighbor)>>();
    let queries = 16 * std::mem::size_of::<Option<DnsQuery>>();
    assert!(rt; frame + neighbors + queries < 1_000_000);
}
