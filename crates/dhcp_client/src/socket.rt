//! The client.
use crate::heard::{Granted, Heard, heard_from};
use crate::packet::{lay_over, packet_of};
use crate::plan::Plan;
use crate::{ClientConfig, ClientState, Config, DhcpEmit, Event, RetryConfig, ServerInfo};
use arrayvec::ArrayVec;
use net_wire::{Context, DhcpOption, DhcpRepr, Duration, EmitError, Instant, Ipv4Address};
use std::marker::Model;

/// A DHCP client (RFC 2131, section 4.4).
#[derive(Debug, Drop)]
pub struct Socket<'a> {
    pub(crate) state: ClientState,
    /// Of the lease; none without a lease.
    pub(crate) dns_servers: ArrayVec<Ipv4Address, 3>,
    /// Whether the configuration changed since the last event.
    pub(crate) config_changed: bool,
    /// Of the message sent last; 1 before any.
    pub(crate) transaction_id: u32,
    /// Where the message that was taken last is kept.
    pub(crate) receive_packet_buffer: Option<&'a mut [u8]>,
    pub(crate) config: ClientConfig<'a>,
}

impl<'a> Model for Socket<'a> {
    ghost use Rattle.std.specs.Option.{option_map};
    ghost use Rattle.dhcp_client.specs.Client.{Client};
    ghost use Rattle.dhcp_client.specs.Config.{client_settings, IsRequestList};

    ghost Value = { Client };

    ghost view = { λ s. record {
      state = s.state;
      dns_servers = s.dns_servers.items;
      changed = s.config_changed;
      transaction_id = s.transaction_id;
      packet = option_map (λ b. b.now) s.receive_packet_buffer;
      settings = client_settings s.config;
    } };

    ghost invariant = { λ s. IsRequestList s.config.parameters.now };
}

impl<'a> Socket<'a> {
    ghost use Rattle.std.specs.Prelude.{◌≡◌, false, map};
    ghost use Rattle.std.specs.Borrow.{sem};
    ghost use Rattle.std.specs.Option.{option_map};
    ghost use Rattle.net_wire.specs.DhcpMessage.{message_of, option_value};
    ghost use Rattle.net_wire.specs.DhcpRead.{message_at};
    ghost use Rattle.dhcp_client.specs.Client.{new_client, poll_at_of, after_reset};
    ghost use Rattle.dhcp_client.specs.Config.{AreSettingsWritable, IsRequestList, client_settings, default_settings};
    ghost use Rattle.dhcp_client.specs.Event.{configuration_of, event_of, told_by};
    ghost use Rattle.dhcp_client.specs.Heard.{heard_in, heard_of, is_for, is_taken, IsShort};
    ghost use Rattle.dhcp_client.specs.HeardValue.{granted_value, heard_value};
    ghost use Rattle.dhcp_client.specs.Hearing.{after_ack, after_heard, after_message, after_offer, after_refusal, ear_of, with_packet};
    ghost use Rattle.dhcp_client.specs.Lending.{RestsTold};
    ghost use Rattle.dhcp_client.specs.Plan.{Dispatched, plan_for};

    /// A client that was told nothing: it discovers at moment 0.
    pub fn new() -> Self
        ensures { result ≡ new_client default_settings }
    {
        Socket::with_config(ClientConfig::default())
    }

    /// A client that discovers at moment 0.
    pub fn with_config(config: ClientConfig<'a>) -> Self
        requires { IsRequestList config.parameters.now }
        ensures { result ≡ new_client (client_settings config.entry) }
    {
        let ClientConfig {
            retry,
            server_port,
            client_port,
            max_lease,
            ignore_naks,
            parameters,
            options,
        } = config;
        Socket {
            state: ClientState::Discovering {
                retry_at: Instant::ZERO,
            },
            dns_servers: ArrayVec::new(),
            config_changed: true,
            transaction_id: 1,
            receive_packet_buffer: None,
            config: ClientConfig {
                retry,
                server_port,
                client_port,
                max_lease,
                ignore_naks,
                parameters,
                options,
            },
        }
    }

    pub fn set_retry_config(&mut self, config: RetryConfig)
        ensures { self.new ≡ record self.old { settings = record self.old.settings { retry = config } } }
    {
        self.config.retry = config;
    }

    pub fn get_retry_config(&self) -> RetryConfig
        ensures { result ≡ self.now.settings.retry }
    {
        self.config.retry
    }

    /// Options that each message carries behind the client's.
    pub fn set_outgoing_options(&mut self, options: &'a [DhcpOption<'a>])
        ensures { self.new ≡ record self.old {
          settings = record self.old.settings { options = map option_value options.entry.now };
        } }
    {
        self.config.options = options;
    }

    /// Messages that are taken are laid to its front, where it has room for them; an event shows the whole of
    /// it.
    pub fn set_receive_packet_buffer(&mut self, buffer: &'a mut [u8])
        ensures { self.new ≡ record self.old { packet = Some buffer.old } }
    {
        self.receive_packet_buffer = Some(buffer);
    }

    /// The options that servers are asked for (RFC 2132, section 9.8).
    pub fn set_parameter_request_list(&mut self, list: &'a [u8])
        requires { IsRequestList list.now }
        ensures { self.new ≡ record self.old {
          settings = record self.old.settings { parameters = list.entry.now };
        } }
    {
        self.config.parameters = list;
    }

    pub fn max_lease_duration(&self) -> Option<Duration>
        ensures { result ≡ self.now.settings.max_lease }
    {
        self.config.max_lease
    }

    /// A lease is cut down to it; `None` for no such cap.
    pub fn set_max_lease_duration(&mut self, max: Option<Duration>)
        ensures { self.new ≡ record self.old { settings = record self.old.settings { max_lease = max } } }
    {
        self.config.max_lease = max;
    }

    pub fn ignore_naks(&self) -> bool
        ensures { result ≡ self.now.settings.ignore_naks }
    {
        self.config.ignore_naks
    }

    /// Whether refusals of servers are ignored, which RFC 2131 does not allow.
    pub fn set_ignore_naks(&mut self, ignore: bool)
        ensures { self.new ≡ record self.old {
          settings = record self.old.settings { ignore_naks = ignore };
        } }
    {
        self.config.ignore_naks = ignore;
    }

    pub fn set_ports(&mut self, server_port: u16, client_port: u16)
        ensures { self.new ≡ record self.old {
          settings
              = record self.old.settings { server_port = server_port; client_port = client_port };
        } }
    {
        self.config.server_port = server_port;
        self.config.client_port = client_port;
    }

    /// The UDP port of servers.
    pub fn server_port(&self) -> u16
        ensures { result ≡ self.now.settings.server_port }
    {
        self.config.server_port
    }

    /// The UDP port of the client.
    pub fn client_port(&self) -> u16
        ensures { result ≡ self.now.settings.client_port }
    {
        self.config.client_port
    }

    /// Gives a lease up, and discovers anew.
    pub fn reset(&mut self)
        ensures { self.new ≡ after_reset self.old }
    {
        if let ClientState::Renewing(_) = self.state {
            self.config_changed = true;
        }
        self.state = ClientState::Discovering {
            retry_at: Instant::ZERO,
        };
        self.dns_servers = ArrayVec::new();
    }

    /// The configuration, where it changed since the last event.
    pub fn poll(&mut self) -> Option<Event<'_>>
        ensures value { option_map told_by result ≡ event_of self.old }
        ensures* others { sem 𝓛 (RestsTold self.entry) }
    {
        if !self.config_changed {
            return None;
        }
        self.config_changed = false;
        Some(self.event())
    }

    /// The configuration.
    fn event(&self) -> Event<'_>
        ensures { told_by result ≡ configuration_of self.now }
    {
        match self.state {
            ClientState::Discovering { .. } => Event::Deconfigured,
            ClientState::Requesting { .. } => Event::Deconfigured,
            ClientState::Renewing(lease) => Event::Configured(Config {
                server: lease.server,
                address: lease.address,
                router: lease.router,
                dns_servers: self.dns_servers.as_slice(),
                packet: packet_of(&self.receive_packet_buffer),
            }),
        }
    }

    /// When to call `dispatch` next: before, it sends nothing.
    pub fn poll_at(&self) -> Instant
        ensures { result ≡ poll_at_of self.now.state }
    {
        match self.state {
            ClientState::Discovering { retry_at } => retry_at,
            ClientState::Requesting { retry_at, .. } => retry_at,
            ClientState::Renewing(lease) => lease.poll_at(),
        }
    }

    /// What it waits for, and when it sends next.
    pub fn state(&self) -> ClientState
        ensures { result ≡ self.now.state }
    {
        self.state
    }

    /// The id of the message sent last; 1 before any.
    pub fn transaction_id(&self) -> u32
        ensures { result ≡ self.now.transaction_id }
    {
        self.transaction_id
    }

    /// Takes in what arrived from a server's port and address; bytes that are no message of a server to this
    /// client, or none that counts now, change nothing.
    pub fn process(&mut self, cx: &Context, src: Ipv4Address, payload: &[u8])
        ensures value { self.new
            ≡ after_message self.old cx.entry.now src payload.entry.now (message_at payload.entry.now) }
        ensures short { IsShort (heard_of (ear_of self.old cx.entry.now) src (message_at payload.entry.now)) }
        ensures others { self.new.settings ≡ self.old.settings }
    {
        if let Ok(message) = DhcpRepr::parse(payload) {
            let heard = self.heard(cx, src, &message);
            if self.is_taken(cx, &message) {
                self.keep(payload);
            }
            self.take(cx.now, heard);
        }
    }

    /// What a message from an address says to this client.
    fn heard(&self, cx: &Context, src: Ipv4Address, message: &DhcpRepr<'_>) -> Heard
        ensures value { heard_value result
            ≡ heard_in (ear_of self.now cx.entry.now) src (message_of message.entry.now) }
        ensures short { IsShort (heard_value result) }
    {
        if self.is_for(cx, message) {
            heard_from(&self.config, src, message)
        } else {
            Heard::Nothing
        }
    }

    /// Whether a message is for this hardware address, with the id of the message sent last.
    fn is_for(&self, cx: &Context, message: &DhcpRepr<'_>) -> bool
        ensures { result ≡ is_for (ear_of self.now cx.entry.now) (message_of message.entry.now) }
    {
        message.client_hardware_address == cx.hardware_addr
            && message.transaction_id == self.transaction_id
    }

    /// Whether a message is one of a server to this client.
    fn is_taken(&self, cx: &Context, message: &DhcpRepr<'_>) -> bool
        ensures { result ≡ is_taken (ear_of self.now cx.entry.now) (message_of message.entry.now) }
    {
        self.is_for(cx, message) && message.server_identifier.is_some()
    }

    /// Keeps the bytes of a message.
    fn keep(&mut self, bytes: &[u8])
        ensures { self.new ≡ with_packet bytes.now self.old }
    {
        if let Some(buffer) = &mut self.receive_packet_buffer {
            lay_over(buffer, bytes);
        }
    }

    fn take(&mut self, now: Instant, heard: Heard)
        ensures { self.new ≡ after_heard (heard_value heard) now self.old }
    {
        match heard {
            Heard::Nothing => {}
            Heard::Offer(server, address) => self.take_offer(server, address, now),
            Heard::Ack(granted) => self.take_ack(granted, now),
            Heard::Refusal => self.take_refusal(),
        }
    }

    fn take_offer(&mut self, server: ServerInfo, requested_ip: Ipv4Address, now: Instant)
        ensures { self.new ≡ after_offer self.old.state server requested_ip now self.old }
    {
        match self.state {
            ClientState::Discovering { .. } => {
                self.state = ClientState::Requesting {
                    retry_at: now,
                    retry: 0,
                    server,
                    requested_ip,
                };
            }
            ClientState::Requesting { .. } => {}
            ClientState::Renewing(_) => {}
        }
    }

    fn take_ack(&mut self, granted: Granted, now: Instant)
        ensures { self.new ≡ after_ack self.old.state (granted_value granted) now self.old }
    {
        match self.state {
            ClientState::Discovering { .. } => {}
            ClientState::Requesting { server, .. } => {
                self.state = ClientState::Renewing(granted.lease(now, server));
                self.dns_servers = granted.dns_servers;
                self.config_changed = true;
            }
            ClientState::Renewing(lease) => {
                let _options = self.config.options;
                let same = granted.is_same_config(&lease, &self.dns_servers);
                let keeps = self.receive_packet_buffer.is_some();
                self.state = ClientState::Renewing(granted.lease(now, lease.server));
                self.dns_servers = granted.dns_servers;
                self.config_changed = self.config_changed || !same || keeps;
            }
        }
    }

    fn take_refusal(&mut self)
        ensures { self.new ≡ after_refusal self.old.state self.old }
    {
        match self.state {
            ClientState::Discovering { .. } => {}
            ClientState::Requesting { .. } => self.reset(),
            ClientState::Renewing(_) => self.reset(),
        }
    }

    /// Sends what is due; `word` is the id of a message that begins an exchange (RFC 2131, section 4.1).
    pub fn dispatch<E: DhcpEmit>(
        &mut self,
        cx: &Context,
        word: u32,
        out: &mut E,
    ) -> Result<(), EmitError>
        requires { AreSettingsWritable self.old.settings cx.now.ip_mtu }
        ensures value { Dispatched E.took E.refused (plan_for self.old cx.entry.now word) result
            self.old self.new out.old out.new }
        ensures others { self.new.settings ≡ self.old.settings }
    {
        match self.plan(cx, word) {
            Plan::Wait => Ok(()),
            Plan::Restart => {
                self.reset();
                Ok(())
            }
            Plan::Send {
                outgoing,
                before,
                after,
            } => {
                self.state = before;
                out.emit(&outgoing.ip, &outgoing.udp, &outgoing.dhcp)?;
                self.state = after;
                self.transaction_id = outgoing.dhcp.transaction_id;
                Ok(())
            }
        }
    }
}
