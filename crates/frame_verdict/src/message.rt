//! What becomes of a DHCP message (RFC 2131, sections 4.1, 4.4.1 and 4.4.5).
ghost use Rattle.std.specs.Prelude.{◌≡◌, Some};
ghost use Rattle.net_wire.specs.DhcpMessage.{message_of};
ghost use Rattle.net_wire.specs.DhcpRead.{message_at};
ghost use Rattle.frame_verdict.specs.MessageVerdict.{verdict_of_offer, verdict_of_prefix, verdict_of_ack, verdict_of_nak, verdict_of_kind, verdict_of_message};

use crate::{Reason, Verdict};
use dhcp_client::prefix_of;
use net_wire::{DhcpMessageType, DhcpRepr, EthernetAddress, Ipv4Address, Ipv4Cidr};

/// A DHCP client, by what it hears by and what it goes by.
#[derive(Clone, Copy, Debug, PartialEq, Eq)]
pub struct Listener {
    pub hardware: EthernetAddress,
    /// The id of the message that it sent last.
    pub id: u32,
    /// Whether it has neither an offer nor a lease.
    pub has_none: bool,
    /// Whether it ignores refusals.
    pub ignore_naks: bool,
}

/// What becomes of an offer.
fn verdict_of_offer(listener: &Listener, message: &DhcpRepr<'_>) -> Verdict
    ensures { result ≡ verdict_of_offer listener.now (message_of message.now) }
{
    if !message.your_ip.is_unicast() {
        return Verdict::Ignored(Reason::Values);
    }
    if !listener.has_none {
        return Verdict::Ignored(Reason::Offer);
    }
    Verdict::Offer(message.your_ip)
}

/// What becomes of an acknowledgement of an address with a prefix.
fn verdict_of_prefix(listener: &Listener, address: Ipv4Address, prefix: Option<u8>) -> Verdict
    ensures { result ≡ verdict_of_prefix listener.now address prefix }
{
    match prefix {
        Some(prefix_len) => {
            if listener.has_none {
                Verdict::Ignored(Reason::Ack)
            } else {
                Verdict::Ack(Ipv4Cidr {
                    address,
                    prefix_len,
                })
            }
        }
        None => Verdict::Ignored(Reason::Values),
    }
}

/// What becomes of an acknowledgement.
fn verdict_of_ack(listener: &Listener, message: &DhcpRepr<'_>) -> Verdict
    ensures { result ≡ verdict_of_ack listener.now (message_of message.now) }
{
    if !message.your_ip.is_unicast() {
        return Verdict::Ignored(Reason::Values);
    }
    match message.subnet_mask {
        Some(mask) => verdict_of_prefix(listener, message.your_ip, prefix_of(mask)),
        None => Verdict::Ignored(Reason::Values),
    }
}

/// What becomes of a refusal.
fn verdict_of_nak(listener: &Listener) -> Verdict
    ensures { result ≡ verdict_of_nak listener.now }
{
    if listener.has_none || listener.ignore_naks {
        Verdict::Ignored(Reason::Nak)
    } else {
        Verdict::Nak
    }
}

/// What becomes of a message, by its type.
fn verdict_of_kind(listener: &Listener, message: &DhcpRepr<'_>) -> Verdict
    ensures { result ≡ verdict_of_kind listener.now (message_of message.now) message.now.message_type }
{
    let is_named = message.server_identifier.is_some();
    match message.message_type {
        DhcpMessageType::Offer if is_named => verdict_of_offer(listener, message),
        DhcpMessageType::Ack if is_named => verdict_of_ack(listener, message),
        DhcpMessageType::Nak if is_named => verdict_of_nak(listener),
        DhcpMessageType::Offer | DhcpMessageType::Ack | DhcpMessageType::Nak => {
            Verdict::Ignored(Reason::Values)
        }
        DhcpMessageType::Discover
        | DhcpMessageType::Request
        | DhcpMessageType::Decline
        | DhcpMessageType::Release
        | DhcpMessageType::Inform
        | DhcpMessageType::Unknown(_) => Verdict::Ignored(Reason::Kind),
    }
}

/// What becomes of bytes that go from the port of servers to that of a client.
pub fn verdict_of_message(listener: &Listener, payload: &[u8]) -> Verdict
    ensures value { result ≡ verdict_of_message listener.now (message_at payload.entry.now) }
{
    let Ok(message) = DhcpRepr::parse(payload) else {
        return Verdict::Ignored(Reason::Message);
    };
    if message.client_hardware_address != listener.hardware {
        return Verdict::Ignored(Reason::Client);
    }
    if message.transaction_id != listener.id {
        return Verdict::Ignored(Reason::Id);
    }
    verdict_of_kind(listener, &message)
}
