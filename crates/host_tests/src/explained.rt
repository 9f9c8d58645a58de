//! Captures that are explained.
use crate::calls::{FILE_HEADER, run_words};
use std::alloc::{AllocError, Global};
use std::test::Fail;

/// The header of a capture without its last byte.
const CUT_HEADER: &[u8] =
    b"\xd4\xc3\xb2\xa1\x02\x00\x04\x00\x00\x00\x00\x00\x00\x00\x00\x00\x00\x00\x04\x00\x01\x00\x00";

/// What follows the header of the capture, the status, and what is printed.
type Explained = (&'static [u8], u8, &'static [u8]);

/// A datagram of an authentication header and the header of a security payload, of 66 bytes.
const SECURED: &[u8] = b"\x00\x00\x00\x00\x00\x00\x00\x00\x42\x00\x00\x00\x42\x00\x00\x00\
\x02\x00\x00\x00\x00\x01\x02\x00\x00\x00\x00\x02\x08\x00\
\x45\x00\x00\x34\x00\x00\x40\x00\x40\x33\x00\x00\x0a\x00\x00\x01\x0a\x00\x00\x02\
\x32\x04\x00\x00\x81\x79\xb7\x05\x00\x00\x00\x01\x27\xcf\xc0\xa5\xe4\x3d\x69\xb3\x72\x8e\xc5\xb0\
\xfb\x51\x28\xa6\x00\x00\x00\x02";

const ROWS: [Explained; 4] = [
    (
        SECURED,
        0,
        b"0 0.000000 frame 66/66 ethernet@0-14-66,ipv4@14-34-66,auth@34-58-66 stop=none agree=1
  ah 50 8179b705 1 12
  esp fb5128a6 2
done
",
    ),
    (b"", 0, b"done\n"),
    (b"\x00", 2, b"capture error at 24\n"),
    // An entry of no bytes, and one that is not there.
    (
        b"\x01\x00\x00\x00\x02\x00\x00\x00\x00\x00\x00\x00\x03\x00\x00\x00\x07",
        2,
        b"0 1.000002 frame 0/3 none stop=ethernet agree=1\ncapture error at 40\n",
    ),
];

fn explains(
    alloc: Global,
    max: &str,
    (entries, status, text): Explained,
) -> Result<bool, AllocError> {
    let mut capture = Vec::from_slice(alloc, FILE_HEADER)?;
    capture.extend_from_slice(entries)?;
    let ran = run_words(alloc, &["explain"], &[max], capture.as_slice())?;
    let is_left = ran.captured.is_empty() && ran.report.rows().is_empty();
    Ok(ran.status == status && ran.printed.as_slice() == text && is_left)
}

#[test]
fn captures_are_explained(rt: HostRuntime) -> Result<(), Fail> {
    for (number, row) in ROWS.iter().enumerate() {
        assert!(rt; explains(rt.alloc(), "2", *row)?, "capture {number}");
    }
    let over: Explained = (
        b"\x01\x00\x00\x00\x02\x00\x00\x00\x00\x00\x00\x00\x00\x00\x00\x00\x01",
        3,
        b"0 1.000002 frame 0/0 none stop=ethernet agree=1\nframe limit reached\n",
    );
    assert!(rt; explains(rt.alloc(), "000001", over)?);
    let short = run_words(rt.alloc(), &["explain", "100000"], &[], CUT_HEADER)?;
    assert!(rt;
        short.status == 2 && short.printed.as_slice() == b"capture error at 0\n".as_slice()
    );
    Ok(())
}
