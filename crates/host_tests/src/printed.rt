//! Captures that are printed.
use crate::calls::{FILE_HEADER, run_words};
use std::alloc::{AllocError, Global};
use std::test::Fail;

/// An echo request (RFC 792) of which 46 of 60 bytes were captured, an entry of no bytes, and the first byte of a third one.
const ENTRIES: &[u8] = b"\x00\x00\x00\x00\x01\x00\x00\x00\x2e\x00\x00\x00\x3c\x00\x00\x00\
\x01\x02\x03\x04\x05\x06\x11\x12\x13\x14\x15\x16\x08\x00\x45\x00\x00\x20\x00\x00\x40\x00\x40\x01\xd2\x79\
\x11\x12\x13\x14\x21\x22\x23\x24\x08\x00\x8e\xfe\x12\x34\xab\xcd\xaa\x00\x00\xff\
\x01\x00\x00\x00\x02\x00\x00\x00\x00\x00\x00\x00\x03\x00\x00\x00\
\x07";

const TEXT: &[u8] = b"0 0.000001 frame 46/60
  EthernetII src=11-12-13-14-15-16 dst=01-02-03-04-05-06 type=IPv4
  \\ IPv4 src=17.18.19.20 dst=33.34.35.36 proto=ICMP (checksum incorrect)
   \\ ICMPv4 echo request id=4660 seq=43981 len=4
1 1.000002 frame 0/3
  (truncated)
capture error at 102
";

/// The status and what is printed of the capture, with at most so many frames.
fn printed(alloc: Global, max: &str) -> Result<(u8, Vec<u8>), AllocError> {
    let mut capture = Vec::from_slice(alloc, FILE_HEADER)?;
    capture.extend_from_slice(ENTRIES)?;
    let ran = run_words(alloc, &["print"], &[max], capture.as_slice())?;
    Ok((ran.status, ran.printed))
}

#[test]
fn captures_are_printed(rt: HostRuntime) -> Result<(), Fail> {
    let (status, text) = printed(rt.alloc(), "3")?;
    assert!(rt; status == 2 && text.as_slice() == TEXT);
    let (status, text) = printed(rt.alloc(), "2")?;
    assert!(rt;
        status == 3
            && text
                .as_slice()
                .ends_with(b"(truncated)\nframe limit reached\n")
    );
    Ok(())
}
