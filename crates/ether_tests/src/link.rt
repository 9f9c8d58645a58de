//! Parts of frames against bytes from outside.

use ether_link::err::linux_sll::{
    HeaderError as LinuxSllError, HeaderSliceError as LinuxSllSliceError,
};
use ether_link::err::macsec::{HeaderError as MacsecError, HeaderSliceError as MacsecSliceError};
use ether_link::err::{Layer, LenError};
use ether_link::{
    ArpHardwareId, ArpOperation, ArpPacketSlice, DoubleVlanHeader, DoubleVlanSlice,
    ETHERNET_KNOWN_ETHER_TYPES, EtherType, Ethernet2Slice, LenSource, LinkHeader, LinkSlice,
    LinuxSllProtocolType, LinuxSllSlice, MacsecHeaderSlice, MacsecPType, SingleVlanSlice,
    VlanHeader, VlanId, VlanSlice,
};
use std::test::Fail;

/// An ARP request of 10.0.0.1 for 10.0.0.2 in an Ethernet frame.
const ARP_FRAME: [u8; 42] = [
    0xff, 0xff, 0xff, 0xff, 0xff, 0xff, 0x02, 0x00, 0x5e, 0x10, 0x00, 0x01, 0x08, 0x06, // Ethernet
    0x00, 0x01, 0x08, 0x00, 0x06, 0x04, 0x00, 0x01, // Ethernet, IPv4, 6, 4, request
    0x02, 0x00, 0x5e, 0x10, 0x00, 0x01, 0x0a, 0x00, 0x00, 0x01, // sender
    0x00, 0x00, 0x00, 0x00, 0x00, 0x00, 0x0a, 0x00, 0x00, 0x02, // target
];

/// The security tag of the 54-byte integrity example of IEEE 802.1AE, annex C, and the two bytes behind it.
const INTEGRITY_TAG: [u8; 18] = [
    0x22, 0x2a, 0xb2, 0xc2, 0x84, 0x65, 0x12, 0x15, 0x35, 0x24, 0xc0, 0x89, 0x5e, 0x81, 0x08, 0x00,
    0x0f, 0x10,
];

/// The security tag of the 60-byte confidentiality example there: an end station, encrypted and changed.
const CONFIDENTIALITY_TAG: [u8; 6] = [0x4c, 0x2a, 0x76, 0xd4, 0x57, 0xed];

/// A cooked packet as `tcpdump -i any` shows it: from the host at 00:1b:21:3c:9d:f8, with IPv4 behind it.
const COOKED: [u8; 18] = [
    0x00, 0x00, 0x00, 0x01, 0x00, 0x06, 0x00, 0x1b, 0x21, 0x3c, 0x9d, 0xf8, 0x00, 0x00, 0x08, 0x00,
    0x45, 0x00,
];

#[test]
fn an_arp_request_reads_as_sent(rt: HostRuntime) -> Result<(), Fail> {
    let frame = Ethernet2Slice::from_slice_without_fcs(&ARP_FRAME)?;
    assert!(rt;
        frame.destination() == [0xff; 6] && frame.source() == [0x02, 0x00, 0x5e, 0x10, 0x00, 0x01]
    );
    let payload = frame.payload();
    assert!(rt; payload.ether_type == EtherType::ARP);
    let packet = ArpPacketSlice::from_slice(payload.payload)?.to_header();
    assert!(rt;
        packet.hw_addr_type == ArpHardwareId::ETHERNET
            && packet.proto_addr_type == EtherType::IPV4
            && packet.operation == ArpOperation::REQUEST
            && packet.sender_hw_addr.as_slice() == [0x02, 0x00, 0x5e, 0x10, 0x00, 0x01].as_slice()
            && packet.sender_protocol_addr.as_slice() == [10, 0, 0, 1].as_slice()
            && packet.target_hw_addr.as_slice() == [0; 6].as_slice()
    );
    assert!(rt; packet.target_protocol_addr.as_slice() == [10, 0, 0, 2].as_slice());
    let link = LinkSlice::Ethernet2(frame);
    assert!(rt; link.slice() == ARP_FRAME.as_slice() && link.payload() == &ARP_FRAME[14..]);
    let header = link.to_header().ok_or("a frame has a header")?;
    assert!(rt;
        matches!(header, LinkHeader::Ethernet2(fields) if fields.ether_type == EtherType::ARP)
    );
    Ok(())
}

#[test]
fn arp_addresses_may_reach_past_the_slice(rt: HostRuntime) {
    let shorter = &ARP_FRAME[14..41];
    let error = LenError {
        required_len: 28,
        len: 27,
        len_source: LenSource::ArpAddrLengths,
        layer: Layer::Arp,
        layer_start_offset: 0,
    };
    assert!(rt; ArpPacketSlice::from_slice(shorter).err() == Some(error));
}

#[test]
fn tags_hold_priority_and_network(rt: HostRuntime) -> Result<(), Fail> {
    // priority 5, network 100, then priority 0, eligible to be dropped, network 4095
    let bytes = [0xa0, 0x64, 0x81, 0x00, 0x1f, 0xff, 0x86, 0xdd, 0x60];
    let outer = SingleVlanSlice::from_slice(&bytes)?;
    let inner = SingleVlanSlice::from_slice(outer.payload().payload)?;
    let outer_header = outer.to_header();
    assert!(rt;
        (outer_header.pcp, outer_header.drop_eligible_indicator) == (5, false)
            && outer_header.vlan_id.value() == 100
            && outer_header.ether_type == EtherType::VLAN_TAGGED_FRAME
    );
    let inner_header = inner.to_header();
    assert!(rt;
        (inner_header.pcp, inner_header.drop_eligible_indicator) == (0, true)
            && inner_header.vlan_id.value() == VlanId::MAX
    );
    let both = VlanSlice::DoubleVlan(DoubleVlanSlice { outer, inner });
    assert!(rt; both.slice() == bytes.as_slice() && both.payload().payload == [0x60].as_slice());
    let headers = DoubleVlanHeader {
        outer: outer_header,
        inner: inner_header,
    };
    assert!(rt; both.to_header() == VlanHeader::Double(headers) && VlanId::try_new(4096) == None);
    Ok(())
}

#[test]
fn security_tags_of_the_standard_read(rt: HostRuntime) -> Result<(), Fail> {
    let tag = MacsecHeaderSlice::from_slice(&INTEGRITY_TAG)?;
    assert!(rt; tag.slice().len() == 16);
    let header = tag.to_header();
    assert!(rt;
        header.ptype == MacsecPType::Unmodified(EtherType::IPV4)
            && (
                header.endstation_id,
                header.scb,
                header.an,
                header.short_len
            ) == (false, false, 2, 42)
            && header.packet_nr == 0xb2c28465
            && header.sci == Some(0x12153524c0895e81)
            && tag.expected_payload_len() == Some(40)
    );
    let tag = MacsecHeaderSlice::from_slice(&CONFIDENTIALITY_TAG)?;
    let header = tag.to_header();
    assert!(rt;
        header.ptype == MacsecPType::Encrypted
            && (header.endstation_id, header.an) == (true, 0)
            && header.packet_nr == 0x76d457ed
            && header.sci == None
            && tag.expected_payload_len() == Some(42)
            && tag.next_ether_type() == None
    );
    Ok(())
}

#[test]
fn security_tags_are_refused_in_turn(rt: HostRuntime) {
    let wrong_len = |len: usize, required_len: usize| {
        MacsecSliceError::Len(LenError::at_start(
            Layer::MacsecHeader,
            LenSource::Slice,
            len,
            required_len,
        ))
    };
    let version = MacsecSliceError::Content(MacsecError::UnexpectedVersion);
    let one_byte = MacsecSliceError::Content(MacsecError::InvalidUnmodifiedShortLen);
    let refusal = |bytes: &[u8]| MacsecHeaderSlice::from_slice(bytes).err();
    assert!(rt;
        refusal(&[0x80; 5]) == Some(wrong_len(5, 6))
            && refusal(&[0x80; 6]) == Some(version)
            && refusal(&INTEGRITY_TAG[..15]) == Some(wrong_len(15, 16)),
        "the version goes before the whole length"
    );
    assert!(rt;
        refusal(&[0, 1, 0, 0, 0, 0]) == Some(wrong_len(6, 8))
            && refusal(&[0, 1, 0, 0, 0, 0, 8, 0]) == Some(one_byte),
        "and that before the short length"
    );
    assert!(rt;
        refusal(&[4, 1, 0, 0, 0, 0]) == None,
        "a changed payload may have one byte"
    );
}

#[test]
fn cooked_packets_say_what_they_carry(rt: HostRuntime) -> Result<(), Fail> {
    let packet = LinuxSllSlice::from_slice(&COOKED)?;
    let header = packet.to_header();
    assert!(rt;
        (header.packet_type, header.sender_address_valid_length) == (0, 6)
            && header.sender_address == [0x00, 0x1b, 0x21, 0x3c, 0x9d, 0xf8, 0x00, 0x00]
            && header.protocol_type == LinuxSllProtocolType::EtherType(EtherType::IPV4)
            && packet.payload().payload == [0x45, 0x00].as_slice()
    );
    for (high, low, want) in [
        (
            0x03,
            0x04,
            Some(LinuxSllProtocolType::EtherType(EtherType::IPV4)),
        ),
        (
            0x03,
            0x38,
            Some(LinuxSllProtocolType::NetlinkProtocolType(0x0800)),
        ),
        (
            0x03,
            0x0a,
            Some(LinuxSllProtocolType::GenericRoutingEncapsulationProtocolType(0x0800)),
        ),
        (
            0x03,
            0x37,
            Some(LinuxSllProtocolType::GenericRoutingEncapsulationProtocolType(0x0800)),
        ),
        (0x03, 0x23, Some(LinuxSllProtocolType::Ignored(0x0800))),
        (0x03, 0x02, Some(LinuxSllProtocolType::Ignored(0x0800))),
        (0x00, 0x06, None),
    ] {
        let mut bytes = COOKED;
        bytes[2] = high;
        bytes[3] = low;
        let read = LinuxSllSlice::from_slice(&bytes).ok();
        assert!(rt;
            read.map(|packet| packet.protocol_type()) == want,
            "hardware {high} {low}"
        );
    }
    let mut bytes = COOKED;
    bytes[1] = 5;
    bytes[3] = 6;
    let error = LinuxSllError::UnsupportedPacketTypeField { packet_type: 5 };
    assert!(rt;
        LinuxSllSlice::from_slice(&bytes).err() == Some(LinuxSllSliceError::Content(error))
    );
    Ok(())
}

/// RFC 7042, appendix B; IEEE 802.1Q; IEEE 802.1AE; RFC 826.
#[test]
fn numbers_are_the_registered_ones(rt: HostRuntime) {
    for (ether_type, number) in [
        (EtherType::IPV4, 0x0800),
        (EtherType::ARP, 0x0806),
        (EtherType::VLAN_TAGGED_FRAME, 0x8100),
        (EtherType::IPV6, 0x86dd),
        (EtherType::PROVIDER_BRIDGING, 0x88a8),
        (EtherType::MACSEC, 0x88e5),
        (EtherType::VLAN_DOUBLE_TAGGED_FRAME, 0x9100),
    ] {
        assert!(rt;
            ether_type.0 == number && ETHERNET_KNOWN_ETHER_TYPES.contains(&ether_type),
            "{number:x}"
        );
    }
    assert!(rt;
        ETHERNET_KNOWN_ETHER_TYPES.len() == 7
            && (ArpOperation::REQUEST.0, ArpOperation::REPLY.0) == (1, 2)
    );
}
