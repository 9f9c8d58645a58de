//! What the client does at a call of `dispatch` (RFC 2131, section 4.4).
use crate::messages::{Naming, OutgoingMessage, client_message, outgoing};
use crate::plan::Plan;
use crate::times::{rebind_span, renew_span, request_span};
use crate::{ClientState, Lease, ServerInfo, Socket};
use net_wire::{Context, DhcpMessageType, DhcpRepr, Instant, Ipv4Address};

impl<'a> Socket<'a> {
    ghost use Rattle.std.specs.Prelude.{◌≡◌};
    ghost use Rattle.net_wire.specs.declared.protocol.IpProtocol.TheVariants.{Udp};
    ghost use Rattle.net_wire.specs.DhcpBytes.{IsWritable};
    ghost use Rattle.net_wire.specs.DhcpMessage.{message_of};
    ghost use Rattle.dhcp_client.specs.Config.{AreSettingsWritable};
    ghost use Rattle.dhcp_client.specs.Carried.{plan_value, IsWritablePlan, outgoing_value};
    ghost use Rattle.dhcp_client.specs.Messages.{broadcast_outgoing};
    ghost use Rattle.dhcp_client.specs.Plan.{plan_for, discover_plan, request_plan, lease_plan, renew_plan, rebind_plan, discover_of, request_of, renewal_of};

    /// What is due.
    pub(crate) fn plan(&self, cx: &Context, word: u32) -> Plan<'a>
        requires { AreSettingsWritable self.now.settings cx.now.ip_mtu }
        ensures value { plan_value result ≡ plan_for self.now cx.entry.now word }
        ensures writable { IsWritablePlan (plan_value result) }
    {
        match self.state {
            ClientState::Discovering { retry_at } => self.discover_plan(retry_at, cx, word),
            ClientState::Requesting {
                retry_at,
                retry,
                server,
                requested_ip,
            } => self.request_plan(retry_at, retry, server, requested_ip, cx),
            ClientState::Renewing(lease) => self.lease_plan(lease, cx, word),
        }
    }

    fn discover_plan(&self, retry_at: Instant, cx: &Context, word: u32) -> Plan<'a>
        requires { AreSettingsWritable self.now.settings cx.now.ip_mtu }
        ensures value { plan_value result ≡ discover_plan retry_at self.now.settings cx.entry.now word }
        ensures writable { IsWritablePlan (plan_value result) }
    {
        if retry_at > cx.now {
            return Plan::Wait;
        }
        Plan::Send {
            outgoing: self.discover(cx, word),
            before: ClientState::Discovering { retry_at },
            after: ClientState::Discovering {
                retry_at: cx.now + self.config.retry.discover_timeout,
            },
        }
    }

    fn request_plan(
        &self,
        retry_at: Instant,
        retry: u16,
        server: ServerInfo,
        requested_ip: Ipv4Address,
        cx: &Context,
    ) -> Plan<'a>
        requires { AreSettingsWritable self.now.settings cx.now.ip_mtu }
        ensures value { plan_value result
            ≡ request_plan retry_at retry server requested_ip self.now.settings
            self.now.transaction_id cx.entry.now }
        ensures writable { IsWritablePlan (plan_value result) }
    {
        if cx.now < retry_at {
            return Plan::Wait;
        }
        if retry >= self.config.retry.request_retries {
            return Plan::Restart;
        }
        let span = request_span(self.config.retry.initial_request_timeout, retry);
        Plan::Send {
            outgoing: self.request(cx, server, requested_ip),
            before: ClientState::Requesting {
                retry_at,
                retry,
                server,
                requested_ip,
            },
            after: ClientState::Requesting {
                retry_at: cx.now + span,
                retry: retry + 1,
                server,
                requested_ip,
            },
        }
    }

    fn lease_plan(&self, lease: Lease, cx: &Context, word: u32) -> Plan<'a>
        requires { AreSettingsWritable self.now.settings cx.now.ip_mtu }
        ensures value { plan_value result ≡ lease_plan lease self.now.settings cx.entry.now word }
        ensures writable { IsWritablePlan (plan_value result) }
    {
        if lease.expires_at <= cx.now {
            Plan::Restart
        } else if lease.is_early(cx.now) {
            Plan::Wait
        } else if lease.is_for_server(cx.now) {
            self.renew_plan(lease, cx, word)
        } else {
            self.rebind_plan(lease, cx, word)
        }
    }

    fn renew_plan(&self, lease: Lease, cx: &Context, word: u32) -> Plan<'a>
        requires { AreSettingsWritable self.now.settings cx.now.ip_mtu }
        ensures value { plan_value result ≡ renew_plan lease self.now.settings cx.entry.now word }
        ensures writable { IsWritablePlan (plan_value result) }
    {
        let left = lease.rebind_at - cx.now;
        let span = renew_span(self.config.retry, left);
        let outgoing = self.renewal(cx, lease.address.address, lease.server.address, word);
        let after = ClientState::Renewing(lease.renewed_at(cx.now + span));
        Plan::Send {
            outgoing,
            before: ClientState::Renewing(lease),
            after,
        }
    }

    fn rebind_plan(&self, lease: Lease, cx: &Context, word: u32) -> Plan<'a>
        requires { AreSettingsWritable self.now.settings cx.now.ip_mtu }
        ensures value { plan_value result ≡ rebind_plan lease self.now.settings cx.entry.now word }
        ensures writable { IsWritablePlan (plan_value result) }
    {
        let left = lease.expires_at - cx.now;
        let span = rebind_span(self.config.retry, left);
        let outgoing = self.renewal(cx, lease.address.address, Ipv4Address::BROADCAST, word);
        let before = ClientState::Renewing(lease.rebinding_at(lease.rebind_at));
        let after = ClientState::Renewing(lease.rebinding_at(cx.now + span));
        Plan::Send {
            outgoing,
            before,
            after,
        }
    }

    fn discover(&self, cx: &Context, word: u32) -> OutgoingMessage<'a>
        requires { AreSettingsWritable self.now.settings cx.now.ip_mtu }
        ensures value { outgoing_value result ≡ discover_of self.now.settings cx.entry.now word }
        ensures writable { IsWritable (outgoing_value result).message }
        ensures udp { result.ip.next_header ≡ Udp }
    {
        let naming = Naming {
            hardware_addr: cx.hardware_addr,
            ip_mtu: cx.ip_mtu,
            message_type: DhcpMessageType::Discover,
            transaction_id: word,
            client_ip: Ipv4Address::UNSPECIFIED,
            server_identifier: None,
            requested_ip: None,
        };
        let dhcp = client_message(naming, self.config.parameters, self.config.options);
        self.broadcast(dhcp)
    }

    fn request(
        &self,
        cx: &Context,
        server: ServerInfo,
        requested_ip: Ipv4Address,
    ) -> OutgoingMessage<'a>
        requires { AreSettingsWritable self.now.settings cx.now.ip_mtu }
        ensures value { outgoing_value result
            ≡ request_of self.now.settings cx.entry.now server requested_ip self.now.transaction_id }
        ensures writable { IsWritable (outgoing_value result).message }
        ensures udp { result.ip.next_header ≡ Udp }
    {
        let naming = Naming {
            hardware_addr: cx.hardware_addr,
            ip_mtu: cx.ip_mtu,
            message_type: DhcpMessageType::Request,
            transaction_id: self.transaction_id,
            client_ip: Ipv4Address::UNSPECIFIED,
            server_identifier: Some(server.identifier),
            requested_ip: Some(requested_ip),
        };
        let dhcp = client_message(naming, self.config.parameters, self.config.options);
        self.broadcast(dhcp)
    }

    fn renewal(
        &self,
        cx: &Context,
        address: Ipv4Address,
        destination: Ipv4Address,
        word: u32,
    ) -> OutgoingMessage<'a>
        requires { AreSettingsWritable self.now.settings cx.now.ip_mtu }
        ensures value { outgoing_value result
            ≡ renewal_of self.now.settings cx.entry.now address destination word }
        ensures writable { IsWritable (outgoing_value result).message }
        ensures udp { result.ip.next_header ≡ Udp }
    {
        let naming = Naming {
            hardware_addr: cx.hardware_addr,
            ip_mtu: cx.ip_mtu,
            message_type: DhcpMessageType::Request,
            transaction_id: word,
            client_ip: address,
            server_identifier: None,
            requested_ip: None,
        };
        let dhcp = client_message(naming, self.config.parameters, self.config.options);
        outgoing(
            address,
            destination,
            self.config.client_port,
            self.config.server_port,
            dhcp,
        )
    }

    /// A message to all servers of the link.
    fn broadcast(&self, dhcp: DhcpRepr<'a>) -> OutgoingMessage<'a>
        requires { IsWritable (message_of dhcp) }
        ensures value { outgoing_value result
            ≡ broadcast_outgoing self.now.settings.client_port self.now.settings.server_port
            (message_of dhcp.entry) }
        ensures udp { result.ip.next_header ≡ Udp }
    {
        outgoing(
            Ipv4Address::UNSPECIFIED,
            Ipv4Address::BROADCAST,
            self.config.client_port,
            self.config.server_port,
            dhcp,
        )
    }
}
