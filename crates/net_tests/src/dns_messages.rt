//! Messages against values from outside.
use bitflags::Flags;
use net_wire::dns::{DnsType, HeaderFlags, Labels, Packet, Question, Record, RecordData, Repr};
use net_wire::{Ipv4Address, Ipv6Address, Malformed};
use std::test::Fail;

/// Whether the labels are these and then end.
fn are_labels(mut labels: Labels<'_>, texts: &[&str]) -> bool {
    for text in texts {
        let Some(Ok(label)) = labels.next() else {
            return false;
        };
        if label != text.as_bytes() {
            return false;
        }
    }
    labels.next().is_none()
}

/// A response of a resolver to a query for an AAAA record of www.netbsd.org.
const RESPONSE: [u8; 60] = [
    0xf0, 0xd4, 0x81, 0x80, 0x00, 0x01, 0x00, 0x01, 0x00, 0x00, 0x00, 0x00, 0x03, 0x77, 0x77, 0x77,
    0x06, 0x6e, 0x65, 0x74, 0x62, 0x73, 0x64, 0x03, 0x6f, 0x72, 0x67, 0x00, 0x00, 0x1c, 0x00, 0x01,
    0xc0, 0x0c, 0x00, 0x1c, 0x00, 0x01, 0x00, 0x01, 0x51, 0x80, 0x00, 0x10, 0x20, 0x01, 0x04, 0xf8,
    0x00, 0x04, 0x00, 0x07, 0x02, 0xe0, 0x81, 0xff, 0xfe, 0x52, 0x9a, 0x6b,
];

#[test]
fn a_response_is_read(rt: HostRuntime) -> Result<(), Fail> {
    let Ok(packet) = Packet::new_checked(&RESPONSE) else {
        return Err(Fail::from("no message"));
    };
    assert!(rt;
        packet.transaction_id() == 0xf0d4
            && packet.flags().contains(HeaderFlags::RESPONSE)
            && packet.flags().contains(HeaderFlags::RECURSION_DESIRED)
            && packet.opcode() == 0
            && packet.rcode() == 0
            && packet.question_count() == 1
    );
    assert!(rt; packet.answer_record_count() == 1);
    let Ok((answers, question)) = Question::parse(packet.payload()) else {
        return Err(Fail::from("no question"));
    };
    assert!(rt; question.type_ == DnsType::Aaaa);
    let www_netbsd_org = ["www", "netbsd", "org"];
    assert!(rt; are_labels(packet.parse_name(question.name), &www_netbsd_org));
    let Ok((rest, record)) = Record::parse(answers) else {
        return Err(Fail::from("no record"));
    };
    assert!(rt; are_labels(packet.parse_name(record.name), &www_netbsd_org) && record.ttl == 86400);
    let address = [
        0x20, 0x01, 0x04, 0xf8, 0, 0x04, 0, 0x07, 0x02, 0xe0, 0x81, 0xff, 0xfe, 0x52, 0x9a, 0x6b,
    ];
    let RecordData::Aaaa(found) = record.body else {
        return Err(Fail::from("another type"));
    };
    assert!(rt; found == Ipv6Address(address) && rest.len() == 0);
    Ok(())
}

#[test]
fn records_keep_the_rules_of_their_type(rt: HostRuntime) -> Result<(), Fail> {
    let a: &[u8] = b"\x00\x00\x01\x00\x01\x00\x00\x00\x00\x00\x04\xc0\x00\x02\x09";
    let Ok((_, record)) = Record::parse(a) else {
        return Err(Fail::from("no record"));
    };
    let RecordData::A(found) = record.body else {
        return Err(Fail::from("another type"));
    };
    assert!(rt; found == Ipv4Address([192, 0, 2, 9]));
    for refused in [
        b"\x00\x00\x01\x00\x01\x00\x00\x00\x00\x00\x03\xc0\x00\x02\x09", // an address of 3 bytes
        b"\x00\x00\x01\x00\x03\x00\x00\x00\x00\x00\x04\xc0\x00\x02\x09", // another class
        b"\x00\x00\x01\x00\x01\x00\x00\x00\x00\x00\x05\xc0\x00\x02\x09", // too few bytes
        b"\x00\x00\x05\x00\x01\x00\x00\x00\x00\x00\x04\x01\x61\x00\x00", // a byte behind the name
        b"\x00\x00\x05\x00\x01\x00\x00\x00\x00\x00\x04\x01\x61\x01\x62", // a name with no end
        b"\xc0\x00\x00\x01\x00\x01\x00\x00\x00\x00\x00\x04\xc0\x00\x02", // too few bytes
    ] {
        let refused: &[u8] = refused;
        assert!(rt; Record::parse(refused).is_err(), "{refused:?}");
    }
    Ok(())
}

#[test]
fn a_query_is_written(rt: HostRuntime) -> Result<(), Fail> {
    let query = Repr {
        transaction_id: 0x1234,
        question: Question {
            name: b"\x06google\x03com\x00",
            type_: DnsType::A,
        },
    };
    let mut bytes = [0; 28];
    assert!(rt; query.buffer_len() == 28);
    query.emit(&mut bytes);
    let want: [u8; 28] = [
        0x12, 0x34, 0x01, 0x00, 0x00, 0x01, 0x00, 0x00, 0x00, 0x00, 0x00, 0x00, 0x06, 0x67, 0x6f,
        0x6f, 0x67, 0x6c, 0x65, 0x03, 0x63, 0x6f, 0x6d, 0x00, 0x00, 0x01, 0x00, 0x01,
    ];
    assert!(rt; bytes == want && Packet::new_checked(&bytes[..11]).err() == Some(Malformed));
    Ok(())
}
