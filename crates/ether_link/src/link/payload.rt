//! What a link carries.

use crate::{EtherType, LenSource};

/// The payload of a part of the link layer.
#[derive(Clone, Debug, Drop, PartialEq, Eq, Hash, PartialOrd, Ord)]
pub struct EtherPayloadSlice<'a> {
    /// What the payload holds.
    pub ether_type: EtherType,
    /// Where its length is from.
    pub len_source: LenSource,
    pub payload: &'a [u8],
}

/// The payload of a MACsec part.
#[derive(Clone, Debug, Drop, PartialEq, Eq, Hash, PartialOrd, Ord)]
pub enum MacsecPayloadSlice<'a> {
    /// Neither encrypted nor changed.
    Unmodified(EtherPayloadSlice<'a>),
    /// Encrypted or changed.
    Modified(&'a [u8]),
}
