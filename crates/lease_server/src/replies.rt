//! The reply to a message, by what its client holds (RFC 2131, section 4.3).
ghost use Rattle.std.specs.Prelude.{◌≡◌, ◌==◌, true, false};
ghost use Rattle.net_wire.specs.DhcpMessage.{message_of};
ghost use Rattle.lease_server.specs.Holdings.{holds_it};
ghost use Rattle.lease_server.specs.Replies.{is_of_range, discover_reply, selected_reply, renewal_reply, renewed, request_reply, release_reply};
ghost use Rattle.lease_server.specs.Values.{values_of, is_count};

use crate::values::number_of;
use crate::{Reply, ServerValues, Silence};
use net_wire::{DhcpRepr, Ipv4Address};

/// Whether this address is held.
fn holds_it(held: Option<Ipv4Address>, address: Ipv4Address) -> bool
    ensures { result ≡ holds_it held address }
{
    match held {
        Some(mine) => number_of(mine) == number_of(address),
        None => false,
    }
}

pub(crate) fn discover_reply(mine: Option<Ipv4Address>, free: Option<Ipv4Address>) -> Reply
    ensures { result ≡ discover_reply mine free }
{
    match (mine, free) {
        (Some(address), _) => Reply::Offer(address),
        (None, Some(address)) => Reply::Offer(address),
        (None, None) => Reply::Silent(Silence::Full),
    }
}

fn selected_reply(mine: Option<Ipv4Address>, requested: Option<Ipv4Address>) -> Reply
    ensures { result ≡ selected_reply mine requested }
{
    match requested {
        Some(address) => {
            if holds_it(mine, address) {
                Reply::Ack(address)
            } else {
                Reply::Nak
            }
        }
        None => Reply::Nak,
    }
}

pub(crate) fn release_reply(mine: Option<Ipv4Address>, address: Ipv4Address) -> Reply
    ensures { result ≡ release_reply mine address }
{
    if holds_it(mine, address) {
        Reply::Silent(Silence::Released)
    } else {
        Reply::Silent(Silence::Stale)
    }
}

/// The address that a request without a server is about.
fn renewed(message: &DhcpRepr<'_>) -> Option<Ipv4Address>
    ensures { result ≡ renewed (message_of message.now) }
{
    if number_of(message.client_ip) == 0 {
        message.requested_ip
    } else {
        Some(message.client_ip)
    }
}

impl ServerValues {
    fn is_of_range(&self, address: Ipv4Address) -> bool
        ensures { result ≡ is_of_range (values_of self.now) address }
    {
        let first = u64::from(number_of(self.first));
        let number = u64::from(number_of(address));
        first <= number && number < first + u64::from(self.count)
    }

    fn renewal_reply(&self, mine: Option<Ipv4Address>, about: Option<Ipv4Address>) -> Reply
        ensures { result ≡ renewal_reply (values_of self.now) mine about }
    {
        let Some(address) = about else {
            return Reply::Silent(Silence::Foreign);
        };
        if holds_it(mine, address) {
            return Reply::Ack(address);
        }
        if self.is_of_range(address) {
            return Reply::Nak;
        }
        Reply::Silent(Silence::Foreign)
    }

    pub(crate) fn request_reply(&self, mine: Option<Ipv4Address>, message: &DhcpRepr<'_>) -> Reply
        ensures { result ≡ request_reply (values_of self.now) mine (message_of message.now) message.now.server_identifier }
    {
        match message.server_identifier {
            Some(server) => {
                if number_of(server) == number_of(self.address) {
                    selected_reply(mine, message.requested_ip)
                } else {
                    Reply::Silent(Silence::Other)
                }
            }
            None => self.renewal_reply(mine, renewed(message)),
        }
    }
}
