//! Linux cooked captures, version 1 (LINKTYPE_LINUX_SLL of the link-layer header types).
ghost use Rattle.std.specs.Prelude.{◌≡◌, ℕ, ◌+◌, ◌*◌, List, length, drop, nat_eq, Some};
ghost use Rattle.std.specs.Cmp.Lexicographic.{pointwise, nat_list_eq_equiv};
ghost use Rattle.std.specs.Cmp.{partial_equiv_from_equiv};
ghost use Rattle.wire_base.specs.Bytes.{bytes_between, be16_at};
ghost use Rattle.ether_link.specs.Form.{Reads};
ghost use Rattle.ether_link.specs.LinuxSll.{linux_sll_slice_form, protocol_type_of};

use crate::err::linux_sll::{HeaderError, HeaderSliceError};
use crate::err::{Layer, LenError};
use crate::{ArpHardwareId, EtherType, LenSource};
use std::marker::Model;
use wire_base::number::{read_array, read_be16};

/// What the protocol field means, by the kind of hardware.
#[derive(Clone, Copy, Debug, PartialEq, Eq, Hash, PartialOrd, Ord)]
pub enum LinuxSllProtocolType {
    EtherType(EtherType),
    NetlinkProtocolType(u16),
    GenericRoutingEncapsulationProtocolType(u16),
    /// A number that says nothing of what the packet carries.
    Ignored(u16),
}

/// The fields of a header.
#[derive(Clone, Copy, Debug, PartialEq, Eq)]
pub struct LinuxSllHeader {
    /// Whom the packet was for and who sent it, 0 to 4.
    pub packet_type: u16,
    /// The kind of hardware.
    pub arp_hrd_type: ArpHardwareId,
    /// How many bytes of the sender address count.
    pub sender_address_valid_length: u16,
    pub sender_address: [u8; 8],
    pub protocol_type: LinuxSllProtocolType,
}

/// What a cooked packet carries.
#[derive(Clone, Debug, Drop, PartialEq, Eq, Hash, PartialOrd, Ord)]
pub struct LinuxSllPayloadSlice<'a> {
    pub protocol_type: LinuxSllProtocolType,
    pub payload: &'a [u8],
}

/// A header and what it carries. A contract sees the bytes.
#[derive(Clone, Debug, Drop)]
pub struct LinuxSllSlice<'a> {
    slice: &'a [u8],
}

impl<'a> Model for LinuxSllSlice<'a> {
    ghost use Rattle.std.specs.Prelude.{◌≡◌, ℕ, List, None};
    ghost use Rattle.ether_link.specs.Form.{refusal};
    ghost use Rattle.ether_link.specs.LinuxSll.{linux_sll_slice_form};

    ghost Value = { List ℕ };

    ghost view = { λ part. part.slice.now };

    ghost invariant = { λ part. refusal linux_sll_slice_form part.slice.now ≡ None };
}

impl<'a> LinuxSllSlice<'a> {
    ghost use Rattle.ether_link.specs.LinuxSll.{linux_sll_header};

    /// A packet of a cooked capture.
    pub fn from_slice(slice: &'a [u8]) -> Result<LinuxSllSlice<'a>, HeaderSliceError>
        ensures { Reads linux_sll_slice_form slice.now result (λ part. part ≡ slice.now) }
    {
        if slice.len() < 16 {
            let (layer, source) = (Layer::LinuxSllHeader, LenSource::Slice);
            let error = LenError::at_start(layer, source, slice.len(), 16);
            return Err(HeaderSliceError::Len(error));
        }
        let packet_type = read_be16(slice, 0);
        if packet_type > 4 {
            let error = HeaderError::UnsupportedPacketTypeField { packet_type };
            return Err(HeaderSliceError::Content(error));
        }
        let arp_hardware_type = ArpHardwareId(read_be16(slice, 2));
        if protocol_type(arp_hardware_type, read_be16(slice, 14)).is_none() {
            let error = HeaderError::UnsupportedArpHardwareId { arp_hardware_type };
            return Err(HeaderSliceError::Content(error));
        }
        Ok(LinuxSllSlice { slice })
    }

    /// The whole packet.
    pub fn slice(&self) -> &'a [u8]
        ensures value { result.now ≡ self.now }
    {
        self.slice
    }

    /// Whom the packet was for and who sent it, 0 to 4.
    pub fn packet_type(&self) -> u16
        ensures value { result ≡ be16_at self.now 0 }
    {
        read_be16(self.slice, 0)
    }

    /// The kind of hardware.
    pub fn arp_hrd_type(&self) -> ArpHardwareId
        ensures value { result.0 ≡ be16_at self.now 2 }
    {
        ArpHardwareId(read_be16(self.slice, 2))
    }

    /// How many bytes of the sender address count.
    pub fn sender_address_valid_length(&self) -> u16
        ensures value { result ≡ be16_at self.now 4 }
    {
        read_be16(self.slice, 4)
    }

    pub fn sender_address(&self) -> [u8; 8]
        ensures value { result ≡ bytes_between 6 14 self.now }
    {
        read_array(self.slice, 6)
    }

    pub fn protocol_type(&self) -> LinuxSllProtocolType
        ensures value { Some result
            ≡ protocol_type_of (be16_at self.now 2) (be16_at self.now 14) }
    {
        match protocol_type(self.arp_hrd_type(), read_be16(self.slice, 14)) {
            Some(protocol_type) => protocol_type,
            None => unreachable!(),
        }
    }

    pub fn header_len(&self) -> usize
        ensures value { result ≡ 16 }
    {
        16
    }

    pub fn payload(&self) -> LinuxSllPayloadSlice<'a>
        ensures value { result.payload.now ≡ drop 16 self.now }
        ensures protocol_type { Some result.protocol_type
            ≡ protocol_type_of (be16_at self.now 2) (be16_at self.now 14) }
    {
        LinuxSllPayloadSlice {
            protocol_type: self.protocol_type(),
            payload: &self.slice[16..],
        }
    }

    pub fn to_header(&self) -> LinuxSllHeader
        ensures value { Some result ≡ linux_sll_header self.now }
    {
        LinuxSllHeader {
            packet_type: self.packet_type(),
            arp_hrd_type: self.arp_hrd_type(),
            sender_address_valid_length: self.sender_address_valid_length(),
            sender_address: self.sender_address(),
            protocol_type: self.protocol_type(),
        }
    }
}

/// What a protocol field means, where the kind of hardware is known.
pub fn protocol_type(hardware: ArpHardwareId, protocol: u16) -> Option<LinuxSllProtocolType>
    ensures { result ≡ protocol_type_of hardware.0 protocol }
{
    match hardware {
        ArpHardwareId::ETHERNET | ArpHardwareId::LOOPBACK => {
            Some(LinuxSllProtocolType::EtherType(EtherType(protocol)))
        }
        ArpHardwareId::NETLINK => Some(LinuxSllProtocolType::NetlinkProtocolType(protocol)),
        ArpHardwareId::IPGRE | ArpHardwareId::IP6GRE => {
            Some(LinuxSllProtocolType::GenericRoutingEncapsulationProtocolType(protocol))
        }
        ArpHardwareId::IEEE80211_RADIOTAP | ArpHardwareId::FRAD => {
            Some(LinuxSllProtocolType::Ignored(protocol))
        }
        _ => None,
    }
}

impl<'a> PartialEq for LinuxSllSlice<'a> {
    ghost eq = { pointwise nat_eq };

    ghost laws = { partial_equiv_from_equiv nat_list_eq_equiv };

    fn eq(&self, other: &Self) -> bool {
        self.slice == other.slice
    }
}

impl<'a> Eq for LinuxSllSlice<'a> {
    ghost laws = { nat_list_eq_equiv };
}
