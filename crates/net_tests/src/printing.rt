//! Printed packets, as outside vectors have them.
use net_wire::pretty::{EthernetFrame, PrettyPrinter};
use std::test::Fail;

/// An echo request in an IPv4 packet in an Ethernet frame. The checksum of the IPv4 header is wrong.
const FRAME: [u8; 46] = [
    0x01, 0x02, 0x03, 0x04, 0x05, 0x06, 0x11, 0x12, 0x13, 0x14, 0x15, 0x16, 0x08, 0x00, // Ethernet
    0x45, 0x00, 0x00, 0x20, 0x00, 0x00, 0x40, 0x00, 0x40, 0x01, 0xd2, 0x79, // IPv4
    0x11, 0x12, 0x13, 0x14, 0x21, 0x22, 0x23, 0x24, //
    0x08, 0x00, 0x8e, 0xfe, 0x12, 0x34, 0xab, 0xcd, // ICMP
    0xaa, 0x00, 0x00, 0xff,
];

#[test]
fn prints_a_line_a_layer(rt: HostRuntime) -> Result<(), Fail> {
    let text = format!(in rt.alloc(); "{}", PrettyPrinter::<EthernetFrame>::new("", &FRAME))?;
    let want = "EthernetII src=11-12-13-14-15-16 dst=01-02-03-04-05-06 type=IPv4\n\
\\ IPv4 src=17.18.19.20 dst=33.34.35.36 proto=ICMP (checksum incorrect)\n \
\\ ICMPv4 echo request id=4660 seq=43981 len=4";
    assert!(rt; text.as_str() == want);
    Ok(())
}
