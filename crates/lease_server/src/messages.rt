//! The messages of replies (RFC 2131, section 4.3, table 3).
ghost use Rattle.std.specs.Prelude.{◌≡◌, ◌+◌, ◌-◌, ◌^◌, ◌<◌, ◌≤◌, true, None, IfSome, MatchOption, take, length, [], replicate};
ghost use Rattle.std.specs.Option.{option_map};
ghost use Rattle.net_wire.specs.DhcpMessage.{message_of};
ghost use Rattle.lease_server.specs.Messages.{granting, listed, mask_of, refusing};
ghost use Rattle.lease_server.specs.Values.{is_prefix, values_of};

use crate::ServerValues;
use crate::values::address_of;
use arrayvec::ArrayVec;
use net_wire::{DhcpMessageType, DhcpRepr, Ipv4Address};

/// The same addresses in a list of their own.
fn copy_of(servers: &ArrayVec<Ipv4Address, 3>) -> ArrayVec<Ipv4Address, 3>
    ensures { result.items ≡ servers.now.items }
{
    let mut copy = ArrayVec::new();
    for server in servers.as_slice() {
        copy.push(*server);
    }
    copy
}

/// The name servers, where there are any.
fn listed(servers: &ArrayVec<Ipv4Address, 3>) -> Option<ArrayVec<Ipv4Address, 3>>
    ensures { option_map (λ list. list.items) result ≡ listed servers.now.items }
{
    if servers.is_empty() {
        None
    } else {
        Some(copy_of(servers))
    }
}

/// A prefix as a mask.
fn mask_of(prefix_len: u8) -> Ipv4Address
    requires { is_prefix prefix_len ≡ true }
    ensures { result ≡ mask_of prefix_len }
{
    let behind = u32::from(32 - prefix_len);
    address_of(u32::MAX - ((1u32 << behind) - 1))
}

impl ServerValues {
    /// A refusal of a request.
    pub(crate) fn refusing(&self, request: &DhcpRepr<'_>) -> DhcpRepr<'static>
        ensures { message_of result ≡ refusing (values_of self.now) (message_of request.now) }
    {
        DhcpRepr {
            message_type: DhcpMessageType::Nak,
            transaction_id: request.transaction_id,
            secs: 0,
            client_hardware_address: request.client_hardware_address,
            client_ip: Ipv4Address::UNSPECIFIED,
            your_ip: Ipv4Address::UNSPECIFIED,
            server_ip: Ipv4Address::UNSPECIFIED,
            router: None,
            subnet_mask: None,
            relay_agent_ip: Ipv4Address::UNSPECIFIED,
            broadcast: request.broadcast,
            requested_ip: None,
            client_identifier: None,
            server_identifier: Some(self.address),
            parameter_request_list: None,
            dns_servers: None,
            max_size: None,
            lease_duration: None,
            renew_duration: None,
            rebind_duration: None,
            additional_options: &[],
        }
    }

    /// An offer of an address, or its acknowledgement.
    pub(crate) fn granting(
        &self,
        request: &DhcpRepr<'_>,
        message_type: DhcpMessageType,
        address: Ipv4Address,
    ) -> DhcpRepr<'static>
        requires { is_prefix self.now.prefix_len ≡ true }
        ensures { message_of result ≡ granting (values_of self.now) (message_of request.now) message_type address }
    {
        let mut message = self.refusing(request);
        message.message_type = message_type;
        message.your_ip = address;
        message.router = self.router;
        message.subnet_mask = Some(mask_of(self.prefix_len));
        message.lease_duration = Some(self.lease_secs);
        message.dns_servers = listed(&self.dns_servers);
        message
    }
}
