//! DHCP messages as bytes (RFC 2131, section 2; the options in the order that `options_bytes` gives).
ghost use Rattle.std.specs.Prelude.{◌≡◌, ◌≤◌, length, take};
ghost use Rattle.net_wire.specs.DhcpMessage.{message_of};
ghost use Rattle.net_wire.specs.DhcpBytes.{op_of, type_number, flags_of, header_bytes, options_bytes, message_bytes, IsWritable};

use super::DhcpRepr;
use super::kind::*;
use super::option::{
    additional_len, address_len, addresses_len, append_additional, append_address, append_bytes,
    append_identifier, append_number16, append_number32, append_option, append_servers, bytes_len,
    identifier_len, number16_len, number32_len, servers_len,
};
use wire_base::number::append;

/// What begins the options (RFC 2131, section 3).
const MAGIC_COOKIE: [u8; 4] = [0x63, 0x82, 0x53, 0x63];

/// The rest of the hardware address, the server's name and the boot file's, none of which is written.
const UNUSED: [u8; 10 + 64 + 128] = [0; 10 + 64 + 128];

impl<'a> DhcpRepr<'a> {
    /// How many bytes the message has.
    #[tactic(auto, unfolding(crate::specs::DhcpBytes::message_bytes, crate::specs::DhcpBytes::options_bytes))]
    pub fn buffer_len(&self) -> usize
        requires { IsWritable (message_of self.now) }
        ensures { result ≡ length (message_bytes (message_of self.now)) }
    {
        self.header_len()
            + 3
            + identifier_len(self.client_identifier)
            + address_len(self.server_identifier)
            + address_len(self.router)
            + address_len(self.subnet_mask)
            + address_len(self.requested_ip)
            + number16_len(self.max_size)
            + number32_len(self.lease_duration)
            + number32_len(self.renew_duration)
            + number32_len(self.rebind_duration)
            + bytes_len(self.parameter_request_list)
            + servers_len(&self.dns_servers)
            + additional_len(self.additional_options)
            + 1
    }

    /// Writes the message, which fills `into`.
    #[tactic(auto, unfolding(crate::specs::DhcpBytes::message_bytes))]
    pub fn emit(&self, into: &mut [u8])
        requires writable { IsWritable (message_of self.now) }
        requires room { length into.old ≡ length (message_bytes (message_of self.now)) }
        ensures { into.new ≡ message_bytes (message_of self.now) }
    {
        let at = self.append_header(into);
        self.emit_options(&mut into[at..]);
    }

    /// The length of the fixed part.
    #[tactic(auto, unfolding(crate::specs::DhcpBytes::header_bytes))]
    fn header_len(&self) -> usize
        ensures value { result ≡ length (header_bytes (message_of self.now)) }
        ensures within { result ≡ 240 }
    {
        let addresses = [
            self.client_ip,
            self.your_ip,
            self.server_ip,
            self.relay_agent_ip,
        ];
        12 + addresses_len(&addresses) + 6 + UNUSED.len() + MAGIC_COOKIE.len()
    }

    #[tactic(auto, unfolding(crate::specs::DhcpBytes::header_bytes))]
    fn append_header(&self, into: &mut [u8]) -> usize
        requires { length (header_bytes (message_of self.now)) ≤ length into.old }
        ensures end { result ≡ length (header_bytes (message_of self.now)) }
        ensures front { take result into.new ≡ header_bytes (message_of self.now) }
    {
        let at = append(into, 0, &[op(self.message_type.number()), 1, 6, 0]);
        let at = append(into, at, &self.transaction_id.to_be_bytes());
        let at = append(into, at, &self.secs.to_be_bytes());
        let at = append(into, at, &flags(self.broadcast).to_be_bytes());
        let at = append(into, at, &self.client_ip.0);
        let at = append(into, at, &self.your_ip.0);
        let at = append(into, at, &self.server_ip.0);
        let at = append(into, at, &self.relay_agent_ip.0);
        let at = append(into, at, &self.client_hardware_address.0);
        let at = append(into, at, &UNUSED);
        append(into, at, &MAGIC_COOKIE)
    }

    #[tactic(auto, unfolding(crate::specs::DhcpBytes::options_bytes))]
    fn emit_options(&self, into: &mut [u8])
        requires writable { IsWritable (message_of self.now) }
        requires room { length into.old ≡ length (options_bytes (message_of self.now)) }
        ensures { into.new ≡ options_bytes (message_of self.now) }
    {
        let at = append_option(
            into,
            0,
            OPT_DHCP_MESSAGE_TYPE,
            &[self.message_type.number()],
        );
        let at = append_identifier(into, at, self.client_identifier);
        let at = append_address(into, at, OPT_SERVER_IDENTIFIER, self.server_identifier);
        let at = append_address(into, at, OPT_ROUTER, self.router);
        let at = append_address(into, at, OPT_SUBNET_MASK, self.subnet_mask);
        let at = append_address(into, at, OPT_REQUESTED_IP, self.requested_ip);
        let at = append_number16(into, at, OPT_MAX_DHCP_MESSAGE_SIZE, self.max_size);
        let at = append_number32(into, at, OPT_IP_LEASE_TIME, self.lease_duration);
        let at = append_number32(into, at, OPT_RENEWAL_TIME_VALUE, self.renew_duration);
        let at = append_number32(into, at, OPT_REBINDING_TIME_VALUE, self.rebind_duration);
        let at = append_bytes(
            into,
            at,
            OPT_PARAMETER_REQUEST_LIST,
            self.parameter_request_list,
        );
        let at = append_servers(into, at, &self.dns_servers);
        let at = append_additional(into, at, self.additional_options);
        append(into, at, &[OPT_END]);
    }
}

/// The op by the number of the type: 2, BOOTREPLY, for what servers send, else 1, BOOTREQUEST.
pub(super) fn op(number: u8) -> u8
    ensures { result ≡ op_of number }
{
    if matches!(number, 2 | 5 | 6) { 2 } else { 1 }
}

/// The flags: the highest bit asks the server to broadcast.
fn flags(broadcast: bool) -> u16
    ensures { result ≡ flags_of broadcast }
{
    if broadcast { 0x8000 } else { 0 }
}
