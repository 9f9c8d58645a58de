//! What rows say, and which files are refused.
use crate::files::{HEADER, answer, file_of};
use capture_explain::{
    AhPart, EspPart, ExplainError, Explanation, Part, PartKind, explain, explain_text,
};
use ether_link::err::Layer;
use phy_layers::SureSink;
use script_source::SureSource;
use std::test::Fail;

/// The numbers of an entry of 66 bytes at one second and two microseconds, of a frame of 70.
const SECURED_HEAD: [u8; 16] = [1, 0, 0, 0, 2, 0, 0, 0, 66, 0, 0, 0, 70, 0, 0, 0];

/// A frame with an authentication header and a security payload behind an IPv4 header.
const SECURED: [u8; 66] = [
    2, 0, 0, 0, 0, 1, 2, 0, 0, 0, 0, 2, 0x08, 0x00, // Ethernet
    0x45, 0, 0, 52, 0, 0, 0, 0, 64, 51, 0, 0, 10, 0, 0, 1, 10, 0, 0, 2, // IPv4
    50, 4, 0, 0, 0x81, 0x79, 0xb7, 5, 0, 0, 0, 1, 1, 2, 3, 4, 5, 6, 7, 8, 9, 10, 11, 12, // AH
    0xfb, 0x51, 0x28, 0xa6, 0, 0, 0, 2, // ESP
];

/// An entry without bytes, and one of three bytes, with a time before it.
const EMPTY: [u8; 16] = [9, 0, 0, 0, 0, 0, 0, 0, 0, 0, 0, 0, 0, 0, 0, 0];

const SHORT: [u8; 19] = [8, 0, 0, 0, 0, 0, 0, 0, 3, 0, 0, 0, 60, 0, 0, 0, 1, 2, 3];

#[test]
fn a_row_has_the_parts_of_its_frame(rt: HostRuntime) -> Result<(), Fail> {
    let alloc = rt.alloc();
    let mut source = SureSource::new(file_of(alloc, &[&SECURED_HEAD, &SECURED, &EMPTY])?);
    let mut explanation = Explanation::new(alloc);
    assert!(rt; explain(alloc, &mut source, 2, &mut explanation).is_ok());
    let rows = explanation.rows();
    assert!(rt; rows.len() == 2);
    let (row, empty) = (&rows[0], &rows[1]);
    assert!(rt; (row.secs, row.micros, row.captured, row.length) == (1, 2, 66, 70));
    let want = [
        (PartKind::Ethernet, 0, 14),
        (PartKind::Ipv4, 14, 34),
        (PartKind::Auth, 34, 58),
    ];
    assert!(rt; row.parts.as_slice().len() == 3);
    for (part, (kind, header, window)) in row.parts.as_slice().iter().zip(want) {
        assert!(rt;
            *part
                == Part {
                    kind,
                    header,
                    window,
                    end: 66
                }
        );
    }
    let ah = AhPart {
        next: 50,
        spi: 0x8179_b705,
        sequence: 1,
        icv_len: 12,
    };
    let esp = EspPart {
        spi: 0xfb51_28a6,
        sequence: 2,
    };
    assert!(rt; row.ah.as_slice() == [ah].as_slice() && row.esp == Some(esp));
    assert!(rt; row.stop == None && row.agree);
    assert!(rt; empty.parts.as_slice().is_empty() && empty.agree);
    assert!(rt; empty.stop == Some(Layer::Ethernet2Header) && empty.esp == None);
    Ok(())
}

/// The lines of that frame, and of one without bytes.
const LINES: &str =
    "0 1.000002 frame 66/70 ethernet@0-14-66,ipv4@14-34-66,auth@34-58-66 stop=none agree=1
  ah 50 8179b705 1 12
  esp fb5128a6 2
1 9.000000 frame 0/0 none stop=ethernet agree=1
";

#[test]
fn a_row_prints_as_a_line_and_a_line_a_header(rt: HostRuntime) -> Result<(), Fail> {
    let alloc = rt.alloc();
    let mut source = SureSource::new(file_of(alloc, &[&SECURED_HEAD, &SECURED, &EMPTY])?);
    let mut explanation = Explanation::new(alloc);
    assert!(rt; explain(alloc, &mut source, 2, &mut explanation).is_ok());
    let mut sink = SureSink::new(alloc);
    assert!(rt; explain_text(&explanation, &mut sink).is_ok());
    assert!(rt; sink.bytes() == LINES.as_bytes());
    Ok(())
}

#[test]
fn a_file_that_is_cut_is_refused_where_it_is_cut(rt: HostRuntime) -> Result<(), Fail> {
    let alloc = rt.alloc();
    let file = file_of(alloc, &[&EMPTY, &SHORT])?;
    for len in 0..file.len() + 1 {
        let want = match len {
            0..24 => (Err(ExplainError::Header), 0),
            24 => (Ok(()), 0),
            25..40 => (Err(ExplainError::Entry(24)), 0),
            40 => (Ok(()), 1),
            41..59 => (Err(ExplainError::Entry(40)), 1),
            _ => (Ok(()), 2),
        };
        assert!(rt;
            answer(alloc, &file.as_slice()[..len], 7, &[], 2)? == want,
            "{len}"
        );
    }
    Ok(())
}

#[test]
fn one_byte_behind_the_last_frame_is_too_much(rt: HostRuntime) -> Result<(), Fail> {
    let alloc = rt.alloc();
    let whole = file_of(alloc, &[&EMPTY])?;
    let longer = file_of(alloc, &[&EMPTY, &[7]])?;
    assert!(rt; answer(alloc, whole.as_slice(), 1, &[], 1)? == (Ok(()), 1));
    assert!(rt; answer(alloc, longer.as_slice(), 1, &[], 1)? == (Err(ExplainError::Limit), 1));
    Ok(())
}

/// The header of a file of a big-endian machine, and of one with times in nanoseconds.
const BIG_ENDIAN: [u8; 24] =
    *b"\xa1\xb2\xc3\xd4\x00\x02\x00\x04\x00\x00\x00\x00\x00\x00\x00\x00\x00\x04\x00\x00\x00\x00\x00\x01";

const NANOSECONDS: [u8; 24] =
    *b"\x4d\x3c\xb2\xa1\x02\x00\x04\x00\x00\x00\x00\x00\x00\x00\x00\x00\x00\x00\x04\x00\x01\x00\x00\x00";

#[test]
fn other_files_are_refused(rt: HostRuntime) -> Result<(), Fail> {
    let alloc = rt.alloc();
    // The place of a byte of the header, and another value of it.
    let others = [
        (0, 0xa1), // big-endian
        (0, 0x4d), // nanoseconds, in part
        (4, 3), // version 3.4
        (6, 3), // version 2.3
        (20, 101), // raw IP
        (23, 1), // a class of link types
    ];
    for (at, byte) in others {
        let mut header = HEADER;
        header[at] = byte;
        assert!(rt;
            answer(alloc, &header, 24, &[], 1)? == (Err(ExplainError::Header), 0),
            "{at}"
        );
    }
    for header in [BIG_ENDIAN, NANOSECONDS] {
        assert!(rt; answer(alloc, &header, 24, &[], 1)? == (Err(ExplainError::Header), 0));
    }
    // A captured length that no entry has.
    let long = [0, 0, 0, 0, 0, 0, 0, 0, 1, 0, 4, 0, 1, 0, 4, 0];
    let file = file_of(alloc, &[&EMPTY, &long])?;
    assert!(rt; answer(alloc, file.as_slice(), 99, &[], 9)? == (Err(ExplainError::Entry(40)), 1));
    Ok(())
}

#[test]
fn a_read_that_fails_leaves_the_rows_before(rt: HostRuntime) -> Result<(), Fail> {
    let alloc = rt.alloc();
    let file = file_of(alloc, &[&EMPTY, &SHORT])?;
    // The number of the read that fails, and the rows that are there then: a header, two heads in two reads
    // each, a frame, and the end.
    for (call, rows) in [(1, 0), (2, 0), (3, 0), (4, 1), (5, 1), (6, 1), (7, 2)] {
        let failed = answer(alloc, file.as_slice(), 99, &[call], 9)?;
        assert!(rt; failed == (Err(ExplainError::Read), rows), "{call}");
    }
    assert!(rt; answer(alloc, file.as_slice(), 99, &[8], 9)? == (Ok(()), 2));
    Ok(())
}
