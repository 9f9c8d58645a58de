//! Packets that are put together from fragments (RFC 791, section 3.2; RFC 8200, section 4.5).

use arrayvec::ArrayVec;
use ether_link::{IpNumber, LenSource, VlanId};
use std::hash::Hash;

/// The most bytes that the payload of a packet has.
pub const MAX_IP_DEFRAG_LEN_U16: u16 = 65535;

/// The most bytes that the payload of a packet has.
pub const MAX_IP_DEFRAG_LEN: usize = 65535;

/// The payload of a packet that was put together.
#[derive(Debug, Drop, PartialEq, Eq, Hash, PartialOrd, Ord)]
pub struct IpDefragPayloadVec {
    /// What the payload holds.
    pub ip_number: IpNumber,
    /// Where its length is from.
    pub len_source: LenSource,
    pub payload: Vec<u8>,
}

/// What the headers of all fragments of a packet share.
#[derive(Clone, Copy, Debug, PartialEq, Eq, Hash)]
pub enum IpFragVersionSpecId {
    Ipv4 {
        source: [u8; 4],
        destination: [u8; 4],
        identification: u16,
    },
    Ipv6 {
        source: [u8; 16],
        destination: [u8; 16],
        identification: u32,
    },
}

/// What all fragments of a packet share.
#[derive(Clone, Debug, Drop, PartialEq, Eq, Hash)]
pub struct IpFragId<C = ()>
where
    C: Hash + Eq + Clone,
{
    /// The VLAN tags in front of the packet, from the outermost one.
    pub vlan_ids: ArrayVec<VlanId, 3>,
    pub ip: IpFragVersionSpecId,
    /// What the payload of the whole packet holds.
    pub payload_ip_number: IpNumber,
    /// Where the packets come from, for a caller that has several sources.
    pub channel_id: C,
}
