//! What the client tells its host.
use crate::ServerInfo;
use net_wire::{Ipv4Address, Ipv4Cidr};

/// What a server granted. It borrows from the client, as `packet` has to: a host copies what it keeps.
#[derive(Clone, Debug, PartialEq, Eq, Drop)]
pub struct Config<'a> {
    pub server: ServerInfo,
    /// The leased address, and the prefix of its network.
    pub address: Ipv4Cidr,
    pub router: Option<Ipv4Address>,
    /// At most three, each the address of one host.
    pub dns_servers: &'a [Ipv4Address],
    /// The whole buffer for received packets, with the last message that it had room for at its front; `None`
    /// without a buffer.
    pub packet: Option<&'a [u8]>,
}

/// A change of the configuration.
#[derive(Clone, Debug, PartialEq, Eq, Drop)]
pub enum Event<'a> {
    /// There is none any more.
    Deconfigured,
    /// There is a new one.
    Configured(Config<'a>),
}
