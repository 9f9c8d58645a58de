//! The parts of the link layer.
ghost use Rattle.std.specs.Prelude.{◌≡◌};

pub mod arp;
pub mod ethernet2;
pub mod linux_sll;
pub mod macsec;
pub mod payload;
pub mod vlan;
pub mod vlan_id;

use crate::{
    EtherPayloadSlice, Ethernet2Header, Ethernet2Slice, LinuxSllHeader, LinuxSllPayloadSlice,
    LinuxSllSlice, MacsecHeader, SingleVlanHeader,
};

/// What a frame begins with.
#[derive(Clone, Debug, Drop, PartialEq, Eq)]
pub enum LinkSlice<'a> {
    Ethernet2(Ethernet2Slice<'a>),
    LinuxSll(LinuxSllSlice<'a>),
    /// No header: the payload alone, which an ether type names.
    EtherPayload(EtherPayloadSlice<'a>),
    /// No header: the payload of a cooked packet alone.
    LinuxSllPayload(LinuxSllPayloadSlice<'a>),
}

impl<'a> LinkSlice<'a> {
    ghost use Rattle.ether_link.specs.Link.{bytes_of_link, payload_of_link, IsHeaderOfLink};

    /// The whole frame, or the payload where there is no header.
    pub fn slice(&self) -> &'a [u8]
        ensures value { result.now ≡ bytes_of_link self.now }
    {
        match self {
            LinkSlice::Ethernet2(frame) => frame.slice(),
            LinkSlice::LinuxSll(packet) => packet.slice(),
            LinkSlice::EtherPayload(payload) => payload.payload,
            LinkSlice::LinuxSllPayload(payload) => payload.payload,
        }
    }

    /// The bytes behind the header, or all of them where there is none.
    pub fn payload(&self) -> &'a [u8]
        ensures value { result.now ≡ payload_of_link self.now }
    {
        match self {
            LinkSlice::Ethernet2(frame) => frame.payload().payload,
            LinkSlice::LinuxSll(packet) => packet.payload().payload,
            LinkSlice::EtherPayload(payload) => payload.payload,
            LinkSlice::LinuxSllPayload(payload) => payload.payload,
        }
    }

    /// The header, if there is one.
    pub fn to_header(&self) -> Option<LinkHeader>
        ensures value { IsHeaderOfLink self.now result }
    {
        match self {
            LinkSlice::Ethernet2(frame) => Some(LinkHeader::Ethernet2(frame.to_header())),
            LinkSlice::LinuxSll(packet) => Some(LinkHeader::LinuxSll(packet.to_header())),
            LinkSlice::EtherPayload(_) | LinkSlice::LinuxSllPayload(_) => None,
        }
    }
}

/// The fields of the header that a frame begins with.
#[derive(Clone, Copy, Debug, PartialEq, Eq)]
pub enum LinkHeader {
    Ethernet2(Ethernet2Header),
    LinuxSll(LinuxSllHeader),
}

/// The fields of a part between the header of a frame and what it carries.
#[derive(Clone, Copy, Debug, PartialEq, Eq)]
pub enum LinkExtHeader {
    Vlan(SingleVlanHeader),
    Macsec(MacsecHeader),
}

/// A VLAN tag of zeros.
impl Default for LinkExtHeader {
    ghost use Rattle.ether_link.specs.Link.{zero_tag};

    ghost is_default = { λ header. header ≡ zero_tag };

    fn default() -> LinkExtHeader {
        LinkExtHeader::Vlan(SingleVlanHeader::default())
    }
}
