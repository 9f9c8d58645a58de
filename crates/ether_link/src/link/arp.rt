//! Packets of the address resolution protocol (RFC 826).
ghost use Rattle.std.specs.Prelude.{◌≡◌, ℕ, ◌+◌, ◌*◌, ◌≤◌, List, length, take, slice_index, nat_eq};
ghost use Rattle.std.specs.Cmp.Lexicographic.{pointwise, nat_list_eq_equiv};
ghost use Rattle.std.specs.Cmp.{partial_equiv_from_equiv};
ghost use Rattle.wire_base.specs.Bytes.{bytes_between, be16_at};
ghost use Rattle.ether_link.specs.Form.{Reads, header_len, no_map};
ghost use Rattle.ether_link.specs.Arp.{arp_form};

use crate::bounded::bounded_bytes;
use crate::err::{Layer, LenError};
use crate::{ArpHardwareId, ArpOperation, EtherType, LenSource};
use arrayvec::ArrayVec;
use std::marker::Model;
use wire_base::number::read_be16;

/// The fields of a packet.
#[derive(Clone, Debug, Drop, PartialEq, Eq)]
pub struct ArpPacket {
    /// The kind of hardware.
    pub hw_addr_type: ArpHardwareId,
    /// The protocol whose addresses are resolved.
    pub proto_addr_type: EtherType,
    pub operation: ArpOperation,
    pub sender_hw_addr: ArrayVec<u8, 255>,
    pub sender_protocol_addr: ArrayVec<u8, 255>,
    pub target_hw_addr: ArrayVec<u8, 255>,
    pub target_protocol_addr: ArrayVec<u8, 255>,
}

/// The bytes of a packet. A contract sees them.
#[derive(Clone, Debug, Drop)]
pub struct ArpPacketSlice<'a> {
    slice: &'a [u8],
}

impl<'a> Model for ArpPacketSlice<'a> {
    ghost use Rattle.std.specs.Prelude.{ℕ, List};
    ghost use Rattle.ether_link.specs.Form.{IsHeader, no_map};
    ghost use Rattle.ether_link.specs.Arp.{arp_form};

    ghost Value = { List ℕ };

    ghost view = { λ part. part.slice.now };

    ghost invariant = { λ part. IsHeader (arp_form no_map) part.slice.now };
}

impl<'a> ArpPacketSlice<'a> {
    ghost use Rattle.ether_link.specs.Arp.{arp_packet, sender_hw_addr, sender_protocol_addr, target_hw_addr, target_protocol_addr};

    /// The packet that a slice begins with.
    #[tactic(auto, using(crate::proofs::FormLemmas::is_header))]
    pub fn from_slice(slice: &'a [u8]) -> Result<ArpPacketSlice<'a>, LenError>
        ensures { Reads (arp_form no_map) slice.now result
            (λ part. part ≡ take (header_len (arp_form no_map) slice.now) slice.now) }
    {
        let packet_len = accepted_len(slice)?;
        Ok(ArpPacketSlice {
            slice: &slice[..packet_len],
        })
    }

    /// The bytes of the packet.
    pub fn slice(&self) -> &'a [u8]
        ensures value { result.now ≡ self.now }
    {
        self.slice
    }

    /// The kind of hardware.
    pub fn hw_addr_type(&self) -> ArpHardwareId
        ensures value { result.0 ≡ be16_at self.now 0 }
    {
        ArpHardwareId(read_be16(self.slice, 0))
    }

    /// The protocol whose addresses are resolved.
    pub fn proto_addr_type(&self) -> EtherType
        ensures value { result.0 ≡ be16_at self.now 2 }
    {
        EtherType(read_be16(self.slice, 2))
    }

    /// How many bytes a hardware address has.
    pub fn hw_addr_size(&self) -> u8
        ensures value { result ≡ slice_index self.now 4 }
    {
        self.slice[4]
    }

    /// How many bytes a protocol address has.
    pub fn protocol_addr_size(&self) -> u8
        ensures value { result ≡ slice_index self.now 5 }
    {
        self.slice[5]
    }

    pub fn operation(&self) -> ArpOperation
        ensures value { result.0 ≡ be16_at self.now 6 }
    {
        ArpOperation(read_be16(self.slice, 6))
    }

    pub fn sender_hw_addr(&self) -> &'a [u8]
        ensures value { result.now ≡ sender_hw_addr self.now }
        ensures within { length result.now ≤ 255 }
    {
        let hw_size = usize::from(self.slice[4]);
        &self.slice[8..8 + hw_size]
    }

    pub fn sender_protocol_addr(&self) -> &'a [u8]
        ensures value { result.now ≡ sender_protocol_addr self.now }
        ensures within { length result.now ≤ 255 }
    {
        let start = 8 + usize::from(self.slice[4]);
        &self.slice[start..start + usize::from(self.slice[5])]
    }

    pub fn target_hw_addr(&self) -> &'a [u8]
        ensures value { result.now ≡ target_hw_addr self.now }
        ensures within { length result.now ≤ 255 }
    {
        let hw_size = usize::from(self.slice[4]);
        let start = 8 + hw_size + usize::from(self.slice[5]);
        &self.slice[start..start + hw_size]
    }

    pub fn target_protocol_addr(&self) -> &'a [u8]
        ensures value { result.now ≡ target_protocol_addr self.now }
        ensures within { length result.now ≤ 255 }
    {
        let protocol_size = usize::from(self.slice[5]);
        let start = 8 + 2 * usize::from(self.slice[4]) + protocol_size;
        &self.slice[start..start + protocol_size]
    }

    pub fn to_header(&self) -> ArpPacket
        ensures value { result ≡ arp_packet self.now }
    {
        ArpPacket {
            hw_addr_type: self.hw_addr_type(),
            proto_addr_type: self.proto_addr_type(),
            operation: self.operation(),
            sender_hw_addr: bounded_bytes(self.sender_hw_addr()),
            sender_protocol_addr: bounded_bytes(self.sender_protocol_addr()),
            target_hw_addr: bounded_bytes(self.target_hw_addr()),
            target_protocol_addr: bounded_bytes(self.target_protocol_addr()),
        }
    }
}

/// The length of the packet that a slice begins with.
fn accepted_len(slice: &[u8]) -> Result<usize, LenError>
    ensures { Reads (arp_form no_map) slice.now result
        (λ len. len ≡ header_len (arp_form no_map) slice.now) }
{
    if slice.len() < 8 {
        return Err(LenError::at_start(Layer::Arp, LenSource::Slice, slice.len(), 8));
    }
    let packet_len = 8 + 2 * usize::from(slice[4]) + 2 * usize::from(slice[5]);
    if slice.len() < packet_len {
        let source = LenSource::ArpAddrLengths;
        return Err(LenError::at_start(Layer::Arp, source, slice.len(), packet_len));
    }
    Ok(packet_len)
}

impl<'a> PartialEq for ArpPacketSlice<'a> {
    ghost eq = { pointwise nat_eq };

    ghost laws = { partial_equiv_from_equiv nat_list_eq_equiv };

    fn eq(&self, other: &Self) -> bool {
        self.slice == other.slice
    }
}

impl<'a> Eq for ArpPacketSlice<'a> {
    ghost laws = { nat_list_eq_equiv };
}
