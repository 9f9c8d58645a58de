//! What a frame asks of a server.
ghost use Rattle.std.specs.Prelude.{◌≡◌};
ghost use Rattle.std.specs.Option.{option_map};
ghost use Rattle.net_wire.specs.DhcpMessage.{message_of};
ghost use Rattle.host_model.specs.Frames.{asks_for};
ghost use Rattle.lease_server.specs.Values.{values_of};
ghost use Rattle.server_run.specs.Asking.{arp_request_in, own_address, request_in};

use lease_server::ServerValues;
use net_wire::arp::REQUEST;
use net_wire::{ArpRepr, DhcpRepr, EthernetAddress, Sources, arp_of, datagram_of};

/// The port that servers listen on (RFC 2131, section 4.1).
pub(crate) const SERVER_PORT: u16 = 67;

/// The port that clients listen on (RFC 2131, section 4.1).
pub(crate) const CLIENT_PORT: u16 = 68;

/// The message of a client that a frame carries to a station.
pub(crate) fn request_in(frame: &[u8], hardware: EthernetAddress) -> Option<DhcpRepr<'_>>
    ensures { option_map message_of result ≡ request_in hardware frame.entry.now }
{
    let datagram = datagram_of(frame, hardware, Sources::UnicastOrUnspecified)?;
    if datagram.src_port != CLIENT_PORT || datagram.dst_port != SERVER_PORT {
        return None;
    }
    match DhcpRepr::parse(datagram.payload) {
        Ok(request) => Some(request),
        Err(_) => None,
    }
}

/// Whether a packet is a request for the server's address.
fn asks_for(arp: &ArpRepr, values: &ServerValues) -> bool
    ensures { result ≡ asks_for (own_address (values_of values.now)) arp.now }
{
    arp.operation == REQUEST && arp.target_protocol_addr == values.address
}

/// The ARP request for the server's address that a frame is.
pub(crate) fn arp_request_in(frame: &[u8], values: &ServerValues) -> Option<ArpRepr>
    ensures { result ≡ arp_request_in (values_of values.now) frame.now }
{
    let arp = arp_of(frame, values.hardware)?;
    if asks_for(&arp, values) {
        Some(arp)
    } else {
        None
    }
}
