//! The frames that a server sends.
ghost use Rattle.std.specs.Prelude.{◌≡◌, ◌+◌, ◌*◌, ◌≤◌, ◌<◌, ◌^◌, None, Some, length, IfOk, IfSome};
ghost use Rattle.std.specs.List.{flat_map};
ghost use Rattle.std.specs.Option.{option_map};
ghost use Rattle.net_wire.specs.Arp.{arp_frame_bytes};
ghost use Rattle.net_wire.specs.Datagram.{IsSentFrame};
ghost use Rattle.net_wire.specs.DhcpBytes.{addresses_option, message_bytes, IsWritable};
ghost use Rattle.net_wire.specs.DhcpMessage.{message_of};
ghost use Rattle.host_model.specs.Frames.{reply_to};
ghost use Rattle.host_model.specs.Neighbor.{ethernet_broadcast};
ghost use Rattle.lease_server.specs.Values.{values_of};
ghost use Rattle.server_run.specs.Answering.{IsFrameOf, reply_datagram};
ghost use Rattle.server_run.specs.Captured.{IsCapturableFrame};
ghost use Rattle.server_run.specs.Serving.{IsPlain};
ghost use Rattle.server_run.specs.Asking.{own_address};

use crate::asking::{CLIENT_PORT, SERVER_PORT};
use arrayvec::ArrayVec;
use lease_server::ServerValues;
use net_wire::arp::REPLY;
use net_wire::{
    ArpRepr, DhcpRepr, EthernetAddress, EthernetProtocol, EthernetRepr, IpProtocol, Ipv4Address,
    Ipv4Repr, NoMemory, UdpRepr, arp_frame, udp_frame,
};
use phy_layers::FrameBytes;
use std::alloc::Global;

/// So many zero bytes.
fn zeroed(alloc: Global, count: usize) -> Result<Vec<u8>, NoMemory>
    ensures { IfOk result (λ bytes. length bytes.items ≡ count) }
{
    match vec![in alloc; 0; count] {
        Ok(bytes) => Ok(bytes),
        Err(_) => Err(NoMemory),
    }
}

/// How many bytes an address has.
fn byte_count(address: Ipv4Address) -> usize
    ensures value { result ≡ length address.0 }
    ensures within { result ≡ 4 }
{
    4
}

/// How many bytes name servers have together.
fn addresses_len(servers: &[Ipv4Address]) -> usize
    ensures value { result ≡ length (flat_map (λ address. address.0) servers.now) }
    ensures within { result ≡ 4 * length servers.now }
{
    let mut len = 0;
    for server in servers {
        len += byte_count(*server);
    }
    len
}

/// How many bytes the option of the name servers has. A contract learns here that there are at most 14.
fn servers_len(servers: &Option<ArrayVec<Ipv4Address, 3>>) -> usize
    ensures value { result ≡ length (addresses_option 6 (option_map (λ list. list.items) servers.now)) }
    ensures within { result ≤ 14 }
{
    match servers {
        None => 0,
        Some(servers) => 2 + addresses_len(servers.as_slice()),
    }
}

/// The same message, of which a contract learns here that it can be written.
fn writable(message: DhcpRepr<'_>) -> DhcpRepr<'_>
    requires { IsPlain (message_of message) }
    ensures value { message_of result ≡ message_of message.entry }
    ensures writable { IsWritable (message_of result) }
{
    let _servers = servers_len(&message.dns_servers);
    message
}

/// The bytes of a message.
fn payload_of(alloc: Global, message: &DhcpRepr<'_>) -> Result<Vec<u8>, NoMemory>
    requires { IsWritable (message_of message.now) }
    ensures { IfOk result (λ payload. payload.items ≡ message_bytes (message_of message.now)) }
{
    let mut payload = zeroed(alloc, message.buffer_len())?;
    message.emit(payload.as_mut_slice());
    Ok(payload)
}

/// The frame of a message to all stations.
fn message_frame(
    alloc: Global,
    values: &ServerValues,
    message: &DhcpRepr<'_>,
) -> Result<FrameBytes, NoMemory>
    requires { IsWritable (message_of message.now) }
    ensures value { IfOk result (λ frame. IsSentFrame values.now.hardware ethernet_broadcast 64
        (reply_datagram (values_of values.now) (message_of message.now)) frame) }
    ensures within { IfOk result (λ frame. length frame < 2 ^ 32) }
{
    let payload = payload_of(alloc, message)?;
    let eth = EthernetRepr {
        src_addr: values.hardware,
        dst_addr: EthernetAddress::BROADCAST,
        ethertype: EthernetProtocol::Ipv4,
    };
    let ip = Ipv4Repr {
        src_addr: values.address,
        dst_addr: Ipv4Address::BROADCAST,
        next_header: IpProtocol::Udp,
        payload_len: payload.len() + 8,
        hop_limit: 64,
    };
    let udp = UdpRepr {
        src_port: SERVER_PORT,
        dst_port: CLIENT_PORT,
    };
    let mut frame = zeroed(alloc, payload.len() + 42)?;
    udp_frame(&eth, &ip, &udp, payload.as_slice(), frame.as_mut_slice());
    Ok(FrameBytes::from(frame))
}

/// The frame of the message of a reply, if it has one.
pub(crate) fn reply_frame(
    alloc: Global,
    values: &ServerValues,
    message: Option<DhcpRepr<'_>>,
) -> Result<Option<FrameBytes>, NoMemory>
    requires { IfSome message (λ m. IsPlain (message_of m)) }
    ensures value { IfOk result (λ sent.
        IsFrameOf (values_of values.now) (option_map message_of message.entry) sent) }
    ensures within { IfOk result (λ sent. IsCapturableFrame sent) }
{
    match message {
        Some(message) => {
            let message = writable(message);
            Ok(Some(message_frame(alloc, values, &message)?))
        }
        None => Ok(None),
    }
}

/// The frame of the reply to an ARP request for the server's address.
pub(crate) fn arp_reply(
    alloc: Global,
    values: &ServerValues,
    asked: &ArpRepr,
) -> Result<FrameBytes, NoMemory>
    ensures value { IfOk result (λ frame. frame
        ≡ arp_frame_bytes values.now.hardware asked.now.source_hardware_addr
        (reply_to values.now.hardware (own_address (values_of values.now)) asked.now)) }
    ensures within { IfOk result (λ frame. length frame < 2 ^ 32) }
{
    let eth = EthernetRepr {
        src_addr: values.hardware,
        dst_addr: asked.source_hardware_addr,
        ethertype: EthernetProtocol::Arp,
    };
    let reply = ArpRepr {
        operation: REPLY,
        source_hardware_addr: values.hardware,
        source_protocol_addr: values.address,
        target_hardware_addr: asked.source_hardware_addr,
        target_protocol_addr: asked.source_protocol_addr,
    };
    let mut frame = zeroed(alloc, 42)?;
    arp_frame(&eth, &reply, frame.as_mut_slice());
    Ok(FrameBytes::from(frame))
}
