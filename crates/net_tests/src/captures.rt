//! The bytes of a capture, and the calls that write them.
use net_wire::Instant;
use phy_layers::{ByteSink, FrameBytes, MemorySink, PcapLinkType, PcapSink, SinkError, SureSink};
use std::test::Fail;

/// Takes all pieces, and keeps their lengths; a flush counts as 99.
#[derive(Drop)]
struct Calls {
    lengths: Vec<u8>,
}

impl ByteSink for Calls {
    ghost use Rattle.std.specs.Prelude.{None, true};

    ghost bytes = { λ _. None };

    ghost faults = { λ _. 0 };

    ghost grows = { true };

    fn write(&mut self, piece: &[u8]) -> Result<(), SinkError> {
        match self.lengths.push(piece.len().min(98) as u8) {
            Ok(()) => Ok(()),
            Err(_) => Err(SinkError::NoMemory),
        }
    }

    fn flush(&mut self) -> Result<(), SinkError> {
        match self.lengths.push(99) {
            Ok(()) => Ok(()),
            Err(_) => Err(SinkError::NoMemory),
        }
    }
}

impl PcapSink for Calls {}

#[test]
fn each_number_is_a_write_of_its_own(rt: HostRuntime) -> Result<(), Fail> {
    let mut sink = Calls {
        lengths: Vec::new(rt.alloc()),
    };
    sink.global_header(PcapLinkType::Ip)?;
    sink.packet(Instant::ZERO, &[])?;
    let want = [4, 2, 2, 4, 4, 4, 4, 4, 4, 4, 4, 0, 99];
    assert!(rt; sink.lengths.as_slice() == want.as_slice());
    Ok(())
}

#[test]
fn holds_a_copy(rt: HostRuntime) -> Result<(), Fail> {
    let frame = FrameBytes::from_slice(rt.alloc(), &[1, 2, 3])?;
    let other = FrameBytes::from_slice(rt.alloc(), &[1, 2])?;
    assert!(rt;
        frame.as_slice() == [1, 2, 3].as_slice() && frame == frame.clone()? && frame != other
    );
    Ok(())
}

/// What a capture of Ethernet frames begins with.
const HEADER: &[u8; 24] =
    b"\xd4\xc3\xb2\xa1\x02\x00\x04\x00\x00\x00\x00\x00\x00\x00\x00\x00\x00\x00\x04\x00\x01\x00\x00\x00";

#[test]
fn a_sink_in_memory_fails_where_it_is_told(rt: HostRuntime) -> Result<(), Fail> {
    let alloc = rt.alloc();
    // The room, the calls that fail, whether the header is taken and the flush behind it done, and how many
    // bytes are kept.
    let cases: [(usize, &[u64], bool, bool, usize); 7] = [
        (24, &[], true, true, 24),
        (64, &[9], true, true, 24),
        (64, &[8], true, false, 24),
        (64, &[3], false, true, 6),
        (64, &[1, 2], false, false, 0),
        (23, &[], false, true, 23),
        (0, &[], false, true, 0),
    ];
    for (room, fails, is_taken, is_flushed, kept) in cases {
        let mut sink = MemorySink::new(alloc, room, Vec::from_slice(alloc, fails)?)?;
        let taken = sink.global_header(PcapLinkType::Ethernet);
        assert_eq!(rt;
            (taken.is_ok(), sink.flush().is_ok()),
            (is_taken, is_flushed)
        );
        assert_eq!(rt; sink.bytes(), &HEADER[..kept]);
    }
    Ok(())
}
