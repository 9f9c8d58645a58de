//! Starts of Linux cooked captures: what is refused, and what is read behind the header.

use crate::refusals::lack;
use crate::stops::front;
use ether_ip::err::ip::HeaderError::{Ipv4HeaderLengthSmallerThanHeader, UnsupportedIpVersion};
use ether_ip::err::packet::SliceError;
use ether_lax::{LaxPacketHeaders, LaxPayloadSlice};
use ether_link::err::Layer;
use ether_link::err::linux_sll::{HeaderError, HeaderSliceError};
use ether_link::{ArpHardwareId, EtherType, LinuxSllProtocolType};
use std::test::Fail;

/// The header of a cooked capture, and six bytes behind it that begin with `first`.
fn cooked(packet_type: u16, hardware_type: u16, protocol: u16, first: u8) -> [u8; 22] {
    let mut bytes = [0; 22];
    let [high, low] = packet_type.to_be_bytes();
    bytes[0] = high;
    bytes[1] = low;
    let [high, low] = hardware_type.to_be_bytes();
    bytes[2] = high;
    bytes[3] = low;
    let [high, low] = protocol.to_be_bytes();
    bytes[14] = high;
    bytes[15] = low;
    bytes[16] = first;
    bytes
}

// Packet types and hardware types, of which the first is tried first.
const UNCOOKED: [(u16, u16); 14] = [
    (5, 1),
    (5, 2),
    (256, 1),
    (65535, 824),
    (0, 0),
    (4, 2),
    (0, 6),
    (0, 257),
    (1, 769),
    (2, 771),
    (3, 773),
    (0, 804),
    (0, 825),
    (4, 65535),
];

#[test]
fn a_cooked_capture_is_refused_by_its_first_fault(rt: HostRuntime) {
    for (packet_type, hardware_type) in UNCOOKED {
        let bytes = cooked(packet_type, hardware_type, 0x0800, 0x45);
        let want = if packet_type > 4 {
            HeaderError::UnsupportedPacketTypeField { packet_type }
        } else {
            HeaderError::UnsupportedArpHardwareId {
                arp_hardware_type: ArpHardwareId(hardware_type),
            }
        };
        let error = LaxPacketHeaders::from_linux_sll(&bytes).err();
        assert_eq!(rt; error, Some(HeaderSliceError::Content(want)));
        for there in [0, 1, 15] {
            let error = LaxPacketHeaders::from_linux_sll(front(&bytes, there)).err();
            let want = lack(Layer::LinuxSllHeader, 16, there, 0);
            assert_eq!(rt; error, Some(HeaderSliceError::Len(want)));
        }
    }
}

// The hardware type, the protocol, the first byte behind the header and how many are there, and the
// bytes that a part needs, and its layer.
const CUT: [(u16, u16, u8, usize, usize, Layer); 11] = [
    (1, 0x0800, 0, 0, 1, Layer::IpHeader),
    (1, 0x0800, 0x45, 6, 20, Layer::Ipv4Header),
    (772, 0x0800, 0x4f, 1, 60, Layer::Ipv4Header),
    (1, 0x0800, 0x60, 6, 40, Layer::Ipv6Header),
    (772, 0x86dd, 0x45, 6, 20, Layer::Ipv4Header),
    (1, 0x0806, 0, 6, 8, Layer::Arp),
    (1, 0x8100, 0, 3, 4, Layer::VlanHeader),
    (1, 0x88a8, 0, 0, 4, Layer::VlanHeader),
    (772, 0x9100, 0, 2, 4, Layer::VlanHeader),
    (1, 0x88e5, 0, 5, 6, Layer::MacsecHeader),
    (1, 0x88e5, 0, 6, 8, Layer::MacsecHeader),
];

#[test]
fn a_part_behind_a_cooked_header_counts_from_the_start(rt: HostRuntime) -> Result<(), Fail> {
    for (hardware_type, protocol, first, there, required, layer) in CUT {
        let bytes = cooked(0, hardware_type, protocol, first);
        let headers = LaxPacketHeaders::from_linux_sll(front(&bytes, there.saturating_add(16)))?;
        let error = SliceError::Len(lack(layer, required, there, 16));
        let layer = match layer {
            Layer::Ipv4Header | Layer::Ipv6Header => Layer::IpHeader,
            layer => layer,
        };
        assert_eq!(rt; headers.stop_err, Some((error, layer)));
        assert_eq!(rt; headers.payload.slice().len(), there);
    }
    for (first, error) in [
        (0x44, Ipv4HeaderLengthSmallerThanHeader { ihl: 4 }),
        (0x50, UnsupportedIpVersion { version_number: 5 }),
    ] {
        let bytes = cooked(4, 1, 0x86dd, first);
        let headers = LaxPacketHeaders::from_linux_sll(&bytes)?;
        let want = Some((SliceError::Ip(error), Layer::IpHeader));
        assert_eq!(rt; headers.stop_err, want);
    }
    Ok(())
}

// Hardware types, and what the protocol 0800 is to them.
const KINDS: [(u16, LinuxSllProtocolType); 5] = [
    (824, LinuxSllProtocolType::NetlinkProtocolType(0x0800)),
    (
        778,
        LinuxSllProtocolType::GenericRoutingEncapsulationProtocolType(0x0800),
    ),
    (
        823,
        LinuxSllProtocolType::GenericRoutingEncapsulationProtocolType(0x0800),
    ),
    (803, LinuxSllProtocolType::Ignored(0x0800)),
    (770, LinuxSllProtocolType::Ignored(0x0800)),
];

#[test]
fn a_protocol_that_is_no_ether_type_names_no_part(rt: HostRuntime) -> Result<(), Fail> {
    for (hardware_type, want) in KINDS {
        let bytes = cooked(0, hardware_type, 0x0800, 0x44);
        let headers = LaxPacketHeaders::from_linux_sll(&bytes)?;
        assert!(rt; headers.stop_err.is_none() && headers.net.is_none());
        match headers.payload {
            LaxPayloadSlice::LinuxSll(payload) => {
                assert_eq!(rt; payload.protocol_type, want);
                assert_eq!(rt; payload.payload.len(), 6);
            }
            _ => return Err(Fail::from("another payload")),
        }
    }
    // numbers below 0600 are lengths or kinds of Linux, and no part is read behind them
    for number in [0, 1, 4, 0x05ff, 0x0801, 0x88cc] {
        let bytes = cooked(0, 1, number, 0x44);
        let headers = LaxPacketHeaders::from_linux_sll(&bytes)?;
        assert!(rt; headers.stop_err.is_none() && headers.net.is_none());
        match headers.payload {
            LaxPayloadSlice::Ether(payload) => {
                assert_eq!(rt; payload.ether_type, EtherType(number));
            }
            _ => return Err(Fail::from("another payload")),
        }
    }
    Ok(())
}
