//! Leases that are served. The messages, the answers and the captures are from `scripts/plain_server.py`.
use crate::calls::run_words;
use crate::lives::adler;
use crate::replies::ZEROS;
use std::alloc::{AllocError, Global};
use std::test::Fail;

/// From 02:02:02:02:02:02 to all stations, up to the server's name: the first discover of the seed 1.
const DISCOVER: &[u8] =
    b"\xff\xff\xff\xff\xff\xff\x02\x02\x02\x02\x02\x02\x08\x00\x45\x00\x01\x22\x00\x00\x40\x00\x40\x11\
\x39\xcc\x00\x00\x00\x00\xff\xff\xff\xff\x00\x44\x00\x43\x01\x0e\x58\x55\x01\x01\x06\x00\x00\x04\
\x20\x21\x00\x00\x00\x00\x00\x00\x00\x00\x00\x00\x00\x00\x00\x00\x00\x00\x00\x00\x00\x00\x02\x02\
\x02\x02\x02\x02";

/// Its options.
const DISCOVERS: &[u8] =
    b"\x63\x82\x53\x63\x35\x01\x01\x3d\x07\x01\x02\x02\x02\x02\x02\x02\x39\x02\x05\x98\x37\x03\x01\x03\
\x06\xff";

/// The same of 02:02:02:02:02:03.
const OTHER_DISCOVER: &[u8] =
    b"\xff\xff\xff\xff\xff\xff\x02\x02\x02\x02\x02\x03\x08\x00\x45\x00\x01\x22\x00\x00\x40\x00\x40\x11\
\x39\xcc\x00\x00\x00\x00\xff\xff\xff\xff\x00\x44\x00\x43\x01\x0e\x58\x53\x01\x01\x06\x00\x00\x04\
\x20\x21\x00\x00\x00\x00\x00\x00\x00\x00\x00\x00\x00\x00\x00\x00\x00\x00\x00\x00\x00\x00\x02\x02\
\x02\x02\x02\x03";

const OTHER_DISCOVERS: &[u8] =
    b"\x63\x82\x53\x63\x35\x01\x01\x3d\x07\x01\x02\x02\x02\x02\x02\x03\x39\x02\x05\x98\x37\x03\x01\x03\
\x06\xff";

/// A request of the first client for 192.168.1.42 of the server 192.168.1.1.
const REQUEST: &[u8] =
    b"\xff\xff\xff\xff\xff\xff\x02\x02\x02\x02\x02\x02\x08\x00\x45\x00\x01\x1c\x00\x00\x40\x00\x40\x11\
\x39\xd2\x00\x00\x00\x00\xff\xff\xff\xff\x00\x44\x00\x43\x01\x08\x5b\x5a\x01\x01\x06\x00\x00\x04\
\x20\x21\x00\x00\x00\x00\x00\x00\x00\x00\x00\x00\x00\x00\x00\x00\x00\x00\x00\x00\x00\x00\x02\x02\
\x02\x02\x02\x02";

const REQUESTS: &[u8] =
    b"\x63\x82\x53\x63\x35\x01\x03\x36\x04\xc0\xa8\x01\x01\x32\x04\xc0\xa8\x01\x2a\xff";

/// An ARP request of 192.168.1.42 for 192.168.1.1.
const ARP_REQUEST: &[u8] =
    b"\xff\xff\xff\xff\xff\xff\x02\x02\x02\x02\x02\x02\x08\x06\x00\x01\x08\x00\x06\x04\x00\x01\x02\x02\
\x02\x02\x02\x02\xc0\xa8\x01\x2a\x00\x00\x00\x00\x00\x00\xc0\xa8\x01\x01";

/// The parts of a script, what is printed of it, and the length and the Adler-32 sum of its capture.
type Served = (&'static [&'static [u8]], &'static [u8], usize, u32);

const SCRIPTS: [Served; 3] = [
    // An offered address is free again after 60 seconds, and no longer its client's.
    (
        &[
            b"\x01\x00\x00\x00\x00\x00\x00\x00\x00\x01\x30",
            DISCOVER,
            ZEROS,
            DISCOVERS,
            b"\x01\x00\x00\x00\x00\x03\x93\x86\xff\x01\x30",
            OTHER_DISCOVER,
            ZEROS,
            OTHER_DISCOVERS,
            b"\x01\x00\x00\x00\x00\x03\x93\x87\x00\x01\x30",
            OTHER_DISCOVER,
            ZEROS,
            OTHER_DISCOVERS,
            b"\x01\x00\x00\x00\x00\x03\x93\x87\x00\x01\x2a",
            REQUEST,
            ZEROS,
            REQUESTS,
        ],
        b"0 0.000000 offer 192.168.1.42
1 59.999999 silent full
2 60.000000 offer 192.168.1.42
3 60.000000 nak
done
",
        2246,
        0x6d8d970d,
    ),
    // A leased one after its lease.
    (
        &[
            b"\x01\x00\x00\x00\x00\x00\x00\x00\x00\x01\x30",
            DISCOVER,
            ZEROS,
            DISCOVERS,
            b"\x01\x00\x00\x00\x00\x00\x0f\x42\x40\x01\x2a",
            REQUEST,
            ZEROS,
            REQUESTS,
            b"\x01\x00\x00\x00\x00\x3b\xaa\x0c\x3f\x01\x30",
            OTHER_DISCOVER,
            ZEROS,
            OTHER_DISCOVERS,
            b"\x01\x00\x00\x00\x00\x3b\xaa\x0c\x40\x01\x30",
            OTHER_DISCOVER,
            ZEROS,
            OTHER_DISCOVERS,
        ],
        b"0 0.000000 offer 192.168.1.42
1 1.000000 ack 192.168.1.42
2 1000.999999 silent full
3 1001.000000 offer 192.168.1.42
done
",
        2258,
        0xde499ead,
    ),
    // An ARP request for the server's address.
    (
        &[b"\x01\x00\x00\x00\x00\x00\x00\x00\x00\x00\x2a", ARP_REQUEST],
        b"0 0.000000 arp
done
",
        140,
        0x0c81100d,
    ),
];

/// Whether the server prints and captures what is expected, with nothing in the host's report.
fn is_served(
    alloc: Global,
    first: &[&str],
    (parts, text, captured, sum): Served,
) -> Result<bool, AllocError> {
    let mut script = Vec::new(alloc);
    for part in parts {
        script.extend_from_slice(part)?;
    }
    let words = [
        "020000000001",
        "192.168.1.1",
        "192.168.001.042",
        "1",
        "24",
        "1000",
        "10",
    ];
    let ran = run_words(alloc, first, &words, script.as_slice())?;
    let is_told = ran.status == 0 && ran.printed.as_slice() == text && ran.report.rows().is_empty();
    Ok(is_told && ran.captured.len() == captured && adler(ran.captured.as_slice()) == sum)
}

#[test]
fn leases_are_served(rt: HostRuntime) -> Result<(), Fail> {
    for (number, served) in SCRIPTS.iter().enumerate() {
        assert!(rt;
            is_served(rt.alloc(), &["serve"], *served)?,
            "script {number}"
        );
    }
    Ok(())
}

#[test]
fn live_servers_answer_the_same(rt: HostRuntime) -> Result<(), Fail> {
    assert!(rt; is_served(rt.alloc(), &["live", "serve"], SCRIPTS[0])?);
    Ok(())
}
