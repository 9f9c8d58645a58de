//! Each kind of part with its word and its places.
use crate::files::file_of;
use capture_explain::{Explanation, explain, explain_text};
use phy_layers::SureSink;
use script_source::SureSource;
use std::test::Fail;

const ADDRESSES: [u8; 12] = [2, 0, 0, 0, 0, 1, 2, 0, 0, 0, 0, 2];

const ARP: [u8; 28] = [
    0, 1, 8, 0, 6, 4, 0, 1, 2, 0, 0, 0, 0, 2, 10, 0, 0, 2, 0, 0, 0, 0, 0, 0, 10, 0, 0, 1,
];

/// IPv4 headers of 40 bytes of TCP and 28 of ICMP.
const OF_TCP: [u8; 20] = [
    0x45, 0, 0, 40, 0, 0, 0, 0, 64, 6, 0, 0, 10, 0, 0, 1, 10, 0, 0, 2,
];

const OF_ICMP: [u8; 20] = [
    0x45, 0, 0, 28, 0, 0, 0, 0, 64, 1, 0, 0, 10, 0, 0, 1, 10, 0, 0, 2,
];

const TCP: [u8; 20] = [
    0, 80, 4, 0, 0, 0, 0, 1, 0, 0, 0, 0, 0x50, 2, 1, 0, 0, 0, 0, 0,
];

const UDP: [u8; 8] = [0, 80, 4, 0, 0, 8, 0, 0];

/// An echo request of ICMP, and one of ICMPv6.
const ECHO: [u8; 8] = [8, 0, 0, 0, 0, 1, 0, 1];

const ECHO6: [u8; 8] = [128, 0, 0, 0, 0, 1, 0, 1];

const FAR: [u8; 32] = [
    0xfe, 0x80, 0, 0, 0, 0, 0, 0, 0, 0, 0, 0, 0, 0, 0, 1, 0xfe, 0x80, 0, 0, 0, 0, 0, 0, 0, 0, 0, 0,
    0, 0, 0, 2,
];

/// Entries at second 9 in pieces, their four numbers first, and the line of each.
const KINDS: [(&[&[u8]], &str); 8] = [
    (
        &[
            &[9, 0, 0, 0, 0, 0, 0, 0, 46, 0, 0, 0, 46, 0, 0, 0],
            &ADDRESSES,
            &[0x81, 0],
            &[0, 5, 8, 6],
            &ARP,
        ],
        "0 9.000000 frame 46/46 ethernet@0-14-46,vlan@14-18-46,arp@18-46-46 stop=none agree=1\n",
    ),
    (
        &[
            &[9, 0, 0, 0, 0, 0, 0, 0, 62, 0, 0, 0, 62, 0, 0, 0],
            &ADDRESSES,
            &[0x88, 0xe5],
            &[0, 0, 0, 0, 0, 1, 8, 0],
            &OF_TCP,
            &TCP,
        ],
        "0 9.000000 frame 62/62 ethernet@0-14-62,macsec@14-22-62,ipv4@22-42-62,tcp@42-62-62 stop=none agree=1\n",
    ),
    (
        &[
            &[9, 0, 0, 0, 0, 0, 0, 0, 94, 0, 0, 0, 94, 0, 0, 0],
            &ADDRESSES,
            &[0x86, 0xdd],
            &[0x60, 0, 0, 0, 0, 40, 0, 64],
            &FAR,
            &[60, 0, 1, 4, 0, 0, 0, 0],
            &[43, 0, 1, 4, 0, 0, 0, 0],
            &[44, 0, 253, 0, 0, 0, 0, 0],
            &[17, 0, 0, 0, 0, 0, 0, 7],
            &UDP,
        ],
        "0 9.000000 frame 94/94 ethernet@0-14-94,ipv6@14-54-94,hop-by-hop@54-62-94,dest-options@62-70-94,route@70-78-94,frag@78-86-94,udp@86-94-94 stop=none agree=1\n",
    ),
    (
        &[
            &[9, 0, 0, 0, 0, 0, 0, 0, 62, 0, 0, 0, 62, 0, 0, 0],
            &ADDRESSES,
            &[0x86, 0xdd],
            &[0x60, 0, 0, 0, 0, 8, 58, 64],
            &FAR,
            &ECHO6,
        ],
        "0 9.000000 frame 62/62 ethernet@0-14-62,ipv6@14-54-62,icmpv6@54-62-62 stop=none agree=1\n",
    ),
    (
        &[
            &[9, 0, 0, 0, 0, 0, 0, 0, 42, 0, 0, 0, 42, 0, 0, 0],
            &ADDRESSES,
            &[8, 0],
            &OF_ICMP,
            &ECHO,
        ],
        "0 9.000000 frame 42/42 ethernet@0-14-42,ipv4@14-34-42,icmpv4@34-42-42 stop=none agree=1\n",
    ),
    // A second fragment header, and a second header of destination options without a routing header: headers as
    // structs end in front of it.
    (
        &[
            &[9, 0, 0, 0, 0, 0, 0, 0, 78, 0, 0, 0, 78, 0, 0, 0],
            &ADDRESSES,
            &[0x86, 0xdd],
            &[0x60, 0, 0, 0, 0, 24, 44, 64],
            &FAR,
            &[44, 0, 0, 0, 0, 0, 0, 7],
            &[17, 0, 0, 0, 0, 0, 0, 7],
            &UDP,
        ],
        "0 9.000000 frame 78/78 ethernet@0-14-78,ipv6@14-54-78,frag@54-62-78,frag@62-70-78,udp@70-78-78 stop=none agree=0\n",
    ),
    (
        &[
            &[9, 0, 0, 0, 0, 0, 0, 0, 78, 0, 0, 0, 78, 0, 0, 0],
            &ADDRESSES,
            &[0x86, 0xdd],
            &[0x60, 0, 0, 0, 0, 24, 60, 64],
            &FAR,
            &[60, 0, 1, 4, 0, 0, 0, 0],
            &[17, 0, 1, 4, 0, 0, 0, 0],
            &UDP,
        ],
        "0 9.000000 frame 78/78 ethernet@0-14-78,ipv6@14-54-78,dest-options@54-62-78,dest-options@62-70-78,udp@70-78-78 stop=none agree=0\n",
    ),
    // One on each side of a routing header.
    (
        &[
            &[9, 0, 0, 0, 0, 0, 0, 0, 86, 0, 0, 0, 86, 0, 0, 0],
            &ADDRESSES,
            &[0x86, 0xdd],
            &[0x60, 0, 0, 0, 0, 32, 60, 64],
            &FAR,
            &[43, 0, 1, 4, 0, 0, 0, 0],
            &[60, 0, 253, 0, 0, 0, 0, 0],
            &[17, 0, 1, 4, 0, 0, 0, 0],
            &UDP,
        ],
        "0 9.000000 frame 86/86 ethernet@0-14-86,ipv6@14-54-86,dest-options@54-62-86,route@62-70-86,dest-options@70-78-86,udp@78-86-86 stop=none agree=1\n",
    ),
];

#[test]
fn each_kind_of_part_has_its_word_and_its_places(rt: HostRuntime) -> Result<(), Fail> {
    let alloc = rt.alloc();
    for (pieces, line) in KINDS {
        let mut source = SureSource::new(file_of(alloc, pieces)?);
        let mut explanation = Explanation::new(alloc);
        assert!(rt; explain(alloc, &mut source, 1, &mut explanation).is_ok());
        let mut sink = SureSink::new(alloc);
        assert!(rt; explain_text(&explanation, &mut sink).is_ok());
        assert!(rt; sink.bytes() == line.as_bytes(), "{line}");
    }
    Ok(())
}
