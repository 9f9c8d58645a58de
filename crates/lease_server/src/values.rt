//! What a server is told.
ghost use Rattle.std.specs.Prelude.{◌≡◌, ◌+◌, ◌^◌, ◌<◌, ◌≤◌, None, true, IsTrue, length};
ghost use Rattle.std.specs.Result.{result_err};
ghost use Rattle.lease_server.specs.Values.{values_of, number_of, address_of, first_number, is_usable, is_count, is_range, is_prefix, is_router, are_unicast, refused};

use arrayvec::ArrayVec;
use net_wire::{EthernetAddress, Ipv4Address};

/// What a server is told once.
#[derive(Clone, Debug, PartialEq, Eq, Drop)]
pub struct ServerValues {
    /// The server's hardware address.
    pub hardware: EthernetAddress,
    /// The server's address, which is its identifier (RFC 2132, section 9.7).
    pub address: Ipv4Address,
    /// The length of the subnet's prefix, from 1 to 30.
    pub prefix_len: u8,
    /// The lowest address of the range.
    pub first: Ipv4Address,
    /// How many addresses the range has, from 1 to 1,000.
    pub count: u16,
    /// How long an acknowledged address is held.
    pub lease_secs: u32,
    /// The router that clients are told of.
    pub router: Option<Ipv4Address>,
    /// The name servers that clients are told of.
    pub dns_servers: ArrayVec<Ipv4Address, 3>,
}

/// Which value is refused.
#[derive(Clone, Copy, Debug, PartialEq, Eq)]
pub enum ServerError {
    /// The hardware address is that of a group.
    Hardware,
    /// The server's address is not that of one host.
    Address,
    /// The prefix is not from 1 to 30 bits long.
    Prefix,
    /// The range has no address or more than 1,000, passes 255.255.255.255, or has an address that is not that
    /// of one host, is the server's, or is not of its subnet.
    Range,
    /// The lease is 0.
    Lease,
    /// The router is not one host.
    Router,
    /// A name server is not one host.
    Dns,
}

/// The number that an address is.
pub(crate) fn number_of(address: Ipv4Address) -> u32
    ensures { result ≡ number_of address }
{
    u32::from_be_bytes(address.0)
}

/// The address that a number is.
pub(crate) fn address_of(number: u32) -> Ipv4Address
    ensures { result ≡ address_of number }
{
    Ipv4Address(number.to_be_bytes())
}

impl ServerValues {
    /// Whether the length of the prefix is from 1 to 30.
    fn has_prefix(&self) -> bool
        ensures { result ≡ is_prefix self.now.prefix_len }
    {
        1 <= self.prefix_len && self.prefix_len <= 30
    }

    /// Whether an address may be given.
    fn is_usable(&self, number: u32) -> bool
        requires { is_prefix self.now.prefix_len ≡ true }
        ensures { result ≡ is_usable (values_of self.now) number }
    {
        let behind = u32::from(32 - self.prefix_len);
        let own = number_of(self.address);
        address_of(number).is_unicast() && number != own && number >> behind == own >> behind
    }

    /// Whether the number of addresses is right.
    fn has_count(&self) -> bool
        ensures { result ≡ is_count (values_of self.now) }
    {
        1 <= self.count
            && self.count <= 1000
            && u64::from(number_of(self.first)) + u64::from(self.count) <= 4_294_967_296
    }

    /// Whether each address of the range may be given.
    #[tactic(auto, using(crate::proofs::RangeLemmas::usable_here, crate::proofs::RangeLemmas::usable_later))]
    fn has_range(&self) -> bool
        requires { is_prefix self.now.prefix_len ≡ true }
        ensures { result ≡ is_range (values_of self.now) }
    {
        if !self.has_count() {
            return false;
        }
        let first = number_of(self.first);
        for place in 0..u32::from(self.count) {
            if !self.is_usable(first + place) {
                return false;
            }
        }
        true
    }

    fn has_router(&self) -> bool
        ensures { result ≡ is_router self.now.router }
    {
        match self.router {
            Some(address) => address.is_unicast(),
            None => true,
        }
    }

    #[tactic(auto, using(crate::proofs::RangeLemmas::unicast_here, crate::proofs::RangeLemmas::unicast_later))]
    fn has_name_servers(&self) -> bool
        ensures { result ≡ are_unicast self.now.dns_servers.items }
    {
        for server in self.dns_servers.as_slice() {
            if !server.is_unicast() {
                return false;
            }
        }
        true
    }

    /// The first value that is refused.
    pub(crate) fn refused(&self) -> Option<ServerError>
        ensures { result ≡ refused (values_of self.now) }
    {
        if self.hardware.is_group() {
            return Some(ServerError::Hardware);
        }
        if !self.address.is_unicast() {
            return Some(ServerError::Address);
        }
        if !self.has_prefix() {
            return Some(ServerError::Prefix);
        }
        if !self.has_range() {
            return Some(ServerError::Range);
        }
        if self.lease_secs == 0 {
            return Some(ServerError::Lease);
        }
        if !self.has_router() {
            return Some(ServerError::Router);
        }
        if !self.has_name_servers() {
            return Some(ServerError::Dns);
        }
        None
    }
}
