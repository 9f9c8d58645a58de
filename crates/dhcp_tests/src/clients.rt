//! An emitter that remembers, messages of a server, and what a client tells of its lease.
ghost use Rattle.std.specs.Prelude.{◌≡◌};

use dhcp_client::{Config, DhcpEmit, Event, ServerInfo, Socket};
use net_wire::{
    Context, DhcpRepr, EmitError, EthernetAddress, Instant, Ipv4Address, Ipv4Cidr, Ipv4Repr,
    UdpRepr,
};
use wire_base::number::append;

/// Remembers how many messages it took, and what the last of them was.
#[derive(Default, Drop)]
pub(crate) struct Recorder {
    pub(crate) refuses: bool,
    pub(crate) count: u32,
    pub(crate) transaction_id: u32,
    pub(crate) message_len: usize,
    pub(crate) destination: Ipv4Address,
}

impl DhcpEmit for Recorder {
    ghost use Rattle.std.specs.Prelude.{⊤};

    ghost took = { λ _ _ _. ⊤ };

    ghost refused = { λ _ _ _. ⊤ };

    fn emit(
        &mut self,
        ip: &Ipv4Repr,
        _udp: &UdpRepr,
        dhcp: &DhcpRepr<'_>,
    ) -> Result<(), EmitError> {
        if self.refuses {
            return Err(EmitError::Unresolved);
        }
        self.count = self.count.saturating_add(1);
        self.transaction_id = dhcp.transaction_id;
        self.message_len = ip.payload_len - 8;
        self.destination = ip.dst_addr;
        Ok(())
    }
}

/// A host on a link of 1500 bytes.
pub(crate) fn at(micros: i64) -> Context
    ensures { result.ip_mtu ≡ 1500 }
{
    Context {
        now: Instant::from_micros(micros),
        hardware_addr: EthernetAddress([2; 6]),
        ip_mtu: 1500,
    }
}

pub(crate) const SERVER: Ipv4Address = Ipv4Address([192, 168, 1, 1]);

const LEASED: Ipv4Address = Ipv4Address([192, 168, 1, 42]);

/// The options behind the type of an offer or an acknowledgement: server 192.168.1.1, which is the router
/// too, mask 255.255.255.0, a lease of 1000 seconds, name server 192.168.1.53.
const OPTIONS: [u8; 31] = [
    54, 4, 192, 168, 1, 1, 3, 4, 192, 168, 1, 1, 1, 4, 255, 255, 255, 0, 51, 4, 0, 0, 3, 232, 6, 4,
    192, 168, 1, 53, 255,
];

/// A message of the server of a type, with this id, to the host's hardware address.
pub(crate) fn reply(message_type: u8, id: u32) -> [u8; 300] {
    let mut message = [0; 300];
    append(&mut message, 0, &[2, 1, 6, 0]);
    append(&mut message, 4, &id.to_be_bytes());
    append(&mut message, 16, &LEASED.0);
    append(&mut message, 28, &[2; 6]);
    append(
        &mut message,
        236,
        &[0x63, 0x82, 0x53, 0x63, 53, 1, message_type],
    );
    append(&mut message, 243, &OPTIONS);
    message
}

#[test]
fn a_lease_and_its_end_are_told_once(rt: HostRuntime) {
    let mut socket = Socket::new();
    assert_eq!(rt; socket.poll(), Some(Event::Deconfigured));
    socket.process(&at(0), SERVER, &reply(2, 1));
    socket.process(&at(0), SERVER, &reply(5, 2));
    assert_eq!(rt; socket.poll(), None);
    socket.process(&at(0), SERVER, &reply(5, 1));
    let config = Config {
        server: ServerInfo {
            address: SERVER,
            identifier: SERVER,
        },
        address: Ipv4Cidr {
            address: LEASED,
            prefix_len: 24,
        },
        router: Some(SERVER),
        dns_servers: &[Ipv4Address([192, 168, 1, 53])],
        packet: None,
    };
    assert_eq!(rt; socket.poll(), Some(Event::Configured(config)));
    assert_eq!(rt; socket.poll(), None);
    let answer = socket.dispatch(&at(1_000_000_000), 9, &mut Recorder::default());
    assert_eq!(rt; answer, Ok(()));
    assert_eq!(rt; socket.poll(), Some(Event::Deconfigured));
}

#[test]
fn the_buffer_keeps_the_last_message(rt: HostRuntime) {
    let mut buffer = [7; 302];
    let mut socket = Socket::new();
    socket.set_receive_packet_buffer(&mut buffer);
    socket.process(&at(0), SERVER, &reply(2, 1));
    socket.process(&at(0), SERVER, &reply(5, 1));
    socket.process(&at(0), SERVER, &reply(5, 2));
    let mut kept = [7; 302];
    append(&mut kept, 0, &reply(5, 1));
    let packet = match socket.poll() {
        Some(Event::Configured(config)) => config.packet == Some(&kept[..]),
        Some(Event::Deconfigured) => false,
        None => false,
    };
    assert!(rt; packet);
    socket.process(&at(1), SERVER, &reply(5, 1));
    assert!(rt; socket.poll().is_some());
}
