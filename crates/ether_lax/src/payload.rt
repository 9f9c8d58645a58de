//! What a packet carries behind its last header.

use crate::LaxEtherPayloadSlice;
use ether_ip::LaxIpPayloadSlice;
use ether_link::LinuxSllPayloadSlice;

/// What a packet carries behind its last header, or as much of it as is there.
#[derive(Clone, Debug, Drop, PartialEq, Eq, Hash, PartialOrd, Ord)]
pub enum LaxPayloadSlice<'a> {
    Empty,
    Ether(LaxEtherPayloadSlice<'a>),
    /// A MACsec payload that is encrypted or changed.
    MacsecModified { payload: &'a [u8], incomplete: bool },
    Ip(LaxIpPayloadSlice<'a>),
    Udp { payload: &'a [u8], incomplete: bool },
    Tcp { payload: &'a [u8], incomplete: bool },
    Icmpv4 { payload: &'a [u8], incomplete: bool },
    Icmpv6 { payload: &'a [u8], incomplete: bool },
    /// A cooked packet whose protocol is no ether type.
    LinuxSll(LinuxSllPayloadSlice<'a>),
}

impl<'a> LaxPayloadSlice<'a> {
    ghost use Rattle.std.specs.Prelude.{◌≡◌};
    ghost use Rattle.ether_lax.specs.Payloads.{carried_in, bytes_of_carried};

    /// The bytes.
    pub fn slice(&self) -> &'a [u8]
        ensures value { result.now ≡ bytes_of_carried (carried_in self.now) }
    {
        match self {
            LaxPayloadSlice::Empty => &[],
            LaxPayloadSlice::Ether(payload) => payload.payload,
            LaxPayloadSlice::Ip(payload) => payload.payload,
            LaxPayloadSlice::LinuxSll(payload) => payload.payload,
            LaxPayloadSlice::MacsecModified { payload, .. }
            | LaxPayloadSlice::Udp { payload, .. }
            | LaxPayloadSlice::Tcp { payload, .. }
            | LaxPayloadSlice::Icmpv4 { payload, .. }
            | LaxPayloadSlice::Icmpv6 { payload, .. } => payload,
        }
    }
}
