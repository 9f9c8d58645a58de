//! The payload of a part of the link layer, or as much of it as is there.

use ether_link::{EtherType, LenSource};

/// The payload of a part of the link layer, or as much of it as is there.
#[derive(Clone, Debug, Drop, PartialEq, Eq, Hash, PartialOrd, Ord)]
pub struct LaxEtherPayloadSlice<'a> {
    /// The part says that its payload has more bytes than are there.
    pub incomplete: bool,
    /// What the payload holds.
    pub ether_type: EtherType,
    /// Where its length is from.
    pub len_source: LenSource,
    pub payload: &'a [u8],
}
