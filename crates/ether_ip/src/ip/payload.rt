//! What an IP packet carries.

use ether_link::{IpNumber, LenSource};

/// The payload of an IP packet, behind its headers and their extensions.
#[derive(Clone, Debug, Drop, PartialEq, Eq, Hash, PartialOrd, Ord)]
pub struct IpPayloadSlice<'a> {
    /// What the payload holds.
    pub ip_number: IpNumber,
    /// It is only a part of the payload of a packet that was cut into fragments.
    pub fragmented: bool,
    /// Where its length is from.
    pub len_source: LenSource,
    pub payload: &'a [u8],
}

/// The payload of an IP packet, or as much of it as is there.
#[derive(Clone, Debug, Drop, PartialEq, Eq, Hash, PartialOrd, Ord)]
pub struct LaxIpPayloadSlice<'a> {
    /// The packet says that it has more bytes than are there.
    pub incomplete: bool,
    /// What the payload holds.
    pub ip_number: IpNumber,
    /// It is only a part of the payload of a packet that was cut into fragments.
    pub fragmented: bool,
    /// Where its length is from.
    pub len_source: LenSource,
    pub payload: &'a [u8],
}
