//! What a server replies.
use net_wire::Ipv4Address;

/// Why a server does not reply.
#[derive(Clone, Copy, Debug, PartialEq, Eq)]
pub enum Silence {
    /// The message is neither a discover nor a request nor a release.
    Unwanted,
    /// The request is for another server (RFC 2131, section 4.3.2).
    Other,
    /// The request is about no address of the range.
    Foreign,
    /// Each address is held.
    Full,
    /// The client gave its address up (RFC 2131, section 4.3.4).
    Released,
    /// The client gave up what it does not hold.
    Stale,
}

/// The reply to a message.
#[derive(Clone, Copy, Debug, PartialEq, Eq)]
pub enum Reply {
    /// DHCPOFFER, with the address.
    Offer(Ipv4Address),
    /// DHCPACK, with the address.
    Ack(Ipv4Address),
    /// DHCPNAK.
    Nak,
    /// No reply.
    Silent(Silence),
}
