//! The frames of the server.
ghost use Rattle.std.specs.Prelude.{◌≡◌, ◌+◌, ◌≤◌, length};
ghost use Rattle.net_wire.specs.DhcpMessage.{message_of};
ghost use Rattle.host_model.specs.declared.words.EventWords.{EventWords};
ghost use Rattle.made_script.specs.Server.{datagram_to_all, IsFromServer, grant, grant_datagram, told_frame};
ghost use Rattle.made_script.specs.Server.{request_by, response_bytes, response_datagram};

use arrayvec::ArrayVec;
use host_model::EventWords;
use net_wire::arp::REPLY;
use net_wire::{
    ArpRepr, DhcpMessageType, DhcpRepr, EthernetAddress, EthernetProtocol, EthernetRepr,
    IpProtocol, Ipv4Address, Ipv4Repr, UdpRepr, arp_frame, udp_frame,
};
use wire_base::number::append;

/// What the response has behind its id: flags and counts, the question, the answer.
const BEHIND_ID: [u8; 44] =
    *b"\x81\x80\0\x01\0\x01\0\0\0\0\x04test\x07example\0\0\x01\0\x01\xC0\x0C\0\x01\0\x01\0\0\0\x3C\0\x04\x0A\0\0\x63";

/// The station of the host that made scripts are for.
pub const HOST_STATION: EthernetAddress = EthernetAddress([2, 0, 0, 0, 0, 1]);

const SERVER_STATION: EthernetAddress = EthernetAddress([2, 0, 0, 0, 0, 2]);

const HOST: Ipv4Address = Ipv4Address([10, 0, 0, 10]);

const SERVER: Ipv4Address = Ipv4Address([10, 0, 0, 1]);

/// The frame of an offer or an acknowledgement.
#[tactic(auto, using(crate::proofs::GrantLemmas::grant_size, crate::proofs::GrantLemmas::grant_writable))]
pub(crate) fn grant_frame(message_type: DhcpMessageType, id: u32) -> [u8; 316]
    ensures { IsFromServer (grant_datagram message_type id) result }
{
    let mut message = [0; 274];
    grant(message_type, id).emit(&mut message);
    let mut frame = [0; 316];
    fill_frame(67, 68, &message, &mut frame);
    frame
}

/// What an offer or an acknowledgement says.
fn grant(message_type: DhcpMessageType, id: u32) -> DhcpRepr<'static>
    ensures { message_of result ≡ grant message_type id }
{
    let mut dns_servers = ArrayVec::new();
    dns_servers.push(SERVER);
    DhcpRepr {
        message_type,
        transaction_id: id,
        secs: 0,
        client_hardware_address: HOST_STATION,
        client_ip: Ipv4Address::UNSPECIFIED,
        your_ip: HOST,
        server_ip: Ipv4Address::UNSPECIFIED,
        router: Some(SERVER),
        subnet_mask: Some(Ipv4Address([255, 255, 255, 0])),
        relay_agent_ip: Ipv4Address::UNSPECIFIED,
        broadcast: false,
        requested_ip: None,
        client_identifier: None,
        server_identifier: Some(SERVER),
        parameter_request_list: None,
        dns_servers: Some(dns_servers),
        max_size: None,
        lease_duration: Some(1000),
        renew_duration: None,
        rebind_duration: None,
        additional_options: &[],
    }
}

/// The frame that tells the host where the server is.
pub(crate) fn told_frame() -> [u8; 42]
    ensures { result ≡ told_frame }
{
    let eth = EthernetRepr {
        src_addr: SERVER_STATION,
        dst_addr: HOST_STATION,
        ethertype: EthernetProtocol::Arp,
    };
    let arp = ArpRepr {
        operation: REPLY,
        source_hardware_addr: SERVER_STATION,
        source_protocol_addr: SERVER,
        target_hardware_addr: HOST_STATION,
        target_protocol_addr: HOST,
    };
    let mut frame = [0; 42];
    arp_frame(&eth, &arp, &mut frame);
    frame
}

/// The frame of the response to what the host asks for by the words of an event.
pub(crate) fn response_frame(words: EventWords) -> [u8; 88]
    ensures { IsFromServer (response_datagram (request_by words)) result }
{
    let message = response((words.second % 0x10000) as u16);
    let port = 1025 + words.third % 64511;
    let mut frame = [0; 88];
    fill_frame(53, port as u16, &message, &mut frame);
    frame
}

/// The response with an id.
#[tactic(auto, unfolding(crate::specs::Server::response_bytes))]
fn response(id: u16) -> [u8; 46]
    ensures { (words : EventWords) → (request_by words).id ≡ id → result ≡ response_bytes (request_by words) }
{
    let mut bytes = [0; 46];
    let at = append(&mut bytes, 0, &id.to_be_bytes());
    append(&mut bytes, at, &BEHIND_ID);
    bytes
}

/// Writes the frame of a datagram to all hosts.
fn fill_frame(source_port: u16, destination_port: u16, payload: &[u8], into: &mut [u8])
    requires room { length into.old ≡ length payload.now + 42 }
    requires size { length payload.now ≤ 65507 }
    ensures { IsFromServer (datagram_to_all source_port destination_port payload.now) into.new }
{
    let eth = EthernetRepr {
        src_addr: SERVER_STATION,
        dst_addr: EthernetAddress::BROADCAST,
        ethertype: EthernetProtocol::Ipv4,
    };
    let ip = Ipv4Repr {
        src_addr: SERVER,
        dst_addr: Ipv4Address::BROADCAST,
        next_header: IpProtocol::Udp,
        payload_len: payload.len() + 8,
        hop_limit: 64,
    };
    let udp = UdpRepr {
        src_port: source_port,
        dst_port: destination_port,
    };
    udp_frame(&eth, &ip, &udp, payload, into);
}
