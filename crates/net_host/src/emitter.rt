//! Where the clients' messages and ARP packets become frames.
ghost use Rattle.std.specs.Prelude.{◌≡◌, ◌+◌, ◌≤◌, ◌<◌, ◌^◌, List, ℕ, ◌∷◌, ◌++◌, [], None, length, IfOk, OnOk};
ghost use Rattle.net_wire.specs.declared.protocol.IpProtocol.TheVariants.{Udp};
ghost use Rattle.net_wire.specs.Arp.{arp_frame_bytes};
ghost use Rattle.net_wire.specs.DhcpMessage.{message_of};
ghost use Rattle.net_wire.specs.DhcpBytes.{message_bytes, IsWritable};
ghost use Rattle.net_wire.specs.Datagram.{IsSentFrame, datagram_of};
ghost use Rattle.net_host.specs.QueryEmitter.{number_at};

use crate::hops::{hop_address, hop_of};
use crate::neighbors::Neighbors;
use crate::{Mark, Sent, SentList};
use dhcp_client::DhcpEmit;
use dns_client::{DnsEmit, QueryHandle};
use host_model::Held;
use net_wire::arp::{REPLY, REQUEST, arp_frame};
use net_wire::udp::udp_frame;
use net_wire::{
    ArpRepr, DhcpRepr, EmitError, EthernetAddress, EthernetProtocol, EthernetRepr, IpAddress,
    IpRepr, Ipv4Address, Ipv4Repr, NoMemory, UdpRepr,
};
use phy_layers::FrameBytes;
use std::alloc::Global;

/// Sends the messages and the ARP packets of one event from the host's hardware address, and lists their
/// frames.
#[derive(Debug)]
pub(crate) struct Emitter<'m> {
    pub alloc: Global,
    pub hardware: EthernetAddress,
    /// What is held of a lease; in an event, what was held when it came.
    pub held: Option<Held>,
    pub neighbors: Neighbors<'m>,
    /// The time of the event, in microseconds.
    pub at: u64,
    pub sent: SentList,
    /// Where the message was to go last whose next hop was not known.
    pub refused: Option<Ipv4Address>,
    /// The numbers of the queries, by their slots in the DNS client; 0 where a slot is free.
    pub numbers: [u32; 16],
}

impl<'m> Drop for Emitter<'m> {
    fn drop(self) {
        let Emitter {
            alloc: _,
            hardware: _,
            held: _,
            neighbors,
            at: _,
            sent,
            refused: _,
            numbers: _,
        } = self;
        let _ = neighbors;
        let _ = sent;
    }
}

impl<'m> Emitter<'m> {
    ghost use Rattle.net_host.specs.Emitter.{hop_by, reply_sent, request_sent, refused_hop};
    ghost use Rattle.net_host.specs.Report.{AreCapturable};

    /// Begins an event at a time.
    pub fn begin(&mut self, at: u64)
        ensures { self.new ≡ record self.old { at = at; sent = []; refused = None } }
    {
        self.at = at;
        self.sent = SentList::new(self.alloc);
        self.refused = None;
    }

    /// Gives the frames that were sent in the event.
    pub fn take_sent(&mut self) -> SentList
        ensures given { result ≡ self.old.sent }
        ensures rest { self.new ≡ record self.old { sent = [] } }
    {
        let none = SentList::new(self.alloc);
        std::mem::replace(&mut self.sent, none)
    }

    /// `None` where there is no next hop, or where no ARP packet told of it in the last 60 seconds (RFC 826).
    fn next_hop(&self, destination: Ipv4Address) -> Option<EthernetAddress>
        ensures { result ≡ hop_by self.now destination }
    {
        if destination == Ipv4Address::BROADCAST {
            return Some(EthernetAddress::BROADCAST);
        }
        match hop_address(self.held, destination) {
            Some(address) => hop_of(self.at, self.neighbors.get(address)),
            None => None,
        }
    }

    /// Replies to an ARP packet that asks for the held address (RFC 826).
    pub fn reply(&mut self, asked: &ArpRepr) -> Result<(), NoMemory>
        ensures small { OnOk result (AreCapturable self.old.sent → AreCapturable self.new.sent) }
        ensures value { OnOk result (self.new ≡ record self.old {
          sent = self.old.sent ++ reply_sent self.old.hardware self.old.held asked.now;
        }) }
    {
        let Some(held) = self.held else {
            return Ok(());
        };
        let address = held.address.address;
        if asked.operation == REQUEST && asked.target_protocol_addr == address {
            let reply = ArpRepr {
                operation: REPLY,
                source_hardware_addr: self.hardware,
                source_protocol_addr: address,
                target_hardware_addr: asked.source_hardware_addr,
                target_protocol_addr: asked.source_protocol_addr,
            };
            self.send_arp(Mark::ArpReply, asked.source_hardware_addr, &reply)?;
        }
        Ok(())
    }

    /// Asks all stations for the next hop with an address, if there is one (RFC 826).
    pub fn ask(&mut self, address: Option<Ipv4Address>) -> Result<(), NoMemory>
        ensures small { OnOk result (AreCapturable self.old.sent → AreCapturable self.new.sent) }
        ensures value { OnOk result (self.new ≡ record self.old {
          sent = self.old.sent ++ request_sent self.old.hardware self.old.held address;
        }) }
    {
        let (Some(held), Some(address)) = (self.held, address) else {
            return Ok(());
        };
        let request = ArpRepr {
            operation: REQUEST,
            source_hardware_addr: self.hardware,
            source_protocol_addr: held.address.address,
            target_hardware_addr: EthernetAddress([0; 6]),
            target_protocol_addr: address,
        };
        self.send_arp(Mark::ArpRequest, EthernetAddress::BROADCAST, &request)
    }

    /// `None` where each message found its hop, or where a destination has no next hop.
    pub fn refused_hop(&self) -> Option<Ipv4Address>
        ensures { result ≡ refused_hop self.now }
    {
        match self.refused {
            Some(destination) => hop_address(self.held, destination),
            None => None,
        }
    }

    /// Sends an ARP packet to a station, or to all of them.
    fn send_arp(&mut self, mark: Mark, to: EthernetAddress, arp: &ArpRepr) -> Result<(), NoMemory>
        ensures small { OnOk result (AreCapturable self.old.sent → AreCapturable self.new.sent) }
        ensures value { OnOk result (self.new ≡ record self.old {
          sent = self.old.sent
              ++ record { mark = mark; frame = arp_frame_bytes self.old.hardware to arp.now } ∷ [];
        }) }
    {
        let eth = EthernetRepr {
            src_addr: self.hardware,
            dst_addr: to,
            ethertype: EthernetProtocol::Arp,
        };
        let mut frame = zeroed(self.alloc, 42)?;
        arp_frame(&eth, arp, frame.as_mut_slice());
        self.sent.push(Sent {
            mark,
            frame: FrameBytes::from(frame),
        })
    }
}

/// The bytes of a message.
fn payload_of(alloc: Global, dhcp: &DhcpRepr<'_>) -> Result<Vec<u8>, NoMemory>
    requires { IsWritable (message_of dhcp.now) }
    ensures { IfOk result (λ payload. payload.items ≡ message_bytes (message_of dhcp.now)) }
{
    let mut payload = zeroed(alloc, dhcp.buffer_len())?;
    dhcp.emit(payload.as_mut_slice());
    Ok(payload)
}

/// The frame of a datagram from one hardware address to another.
fn frame_of(
    alloc: Global,
    eth: &EthernetRepr,
    ip: &Ipv4Repr,
    udp: &UdpRepr,
    payload: &[u8],
) -> Result<FrameBytes, NoMemory>
    requires payload_len { ip.now.payload_len ≡ length payload.now + 8 }
    requires size { ip.now.payload_len ≤ 65515 }
    requires ethertype { eth.now.ethertype ≡ EthernetProtocol.Ipv4 }
    requires next_header { ip.now.next_header ≡ Udp }
    ensures value { IfOk result (λ frame. IsSentFrame eth.now.src_addr eth.now.dst_addr ip.now.hop_limit
        (datagram_of ip.now udp.now payload.now) frame) }
    ensures within { IfOk result (λ frame. length frame < 2 ^ 32) }
{
    let mut frame = zeroed(alloc, payload.len() + 42)?;
    udp_frame(eth, ip, udp, payload, frame.as_mut_slice());
    Ok(FrameBytes::from(frame))
}

/// So many zero bytes.
fn zeroed(alloc: Global, count: usize) -> Result<Vec<u8>, NoMemory>
    ensures { IfOk result (λ bytes. length bytes.items ≡ count) }
{
    match vec![in alloc; 0; count] {
        Ok(bytes) => Ok(bytes),
        Err(_) => Err(NoMemory),
    }
}

impl<'m> DhcpEmit for Emitter<'m> {
    ghost use Rattle.net_host.specs.Emitter.{TakesMessage, RefusesMessage};

    ghost took = { TakesMessage };

    ghost refused = { RefusesMessage };

    fn emit(&mut self, ip: &Ipv4Repr, udp: &UdpRepr, dhcp: &DhcpRepr<'_>) -> Result<(), EmitError> {
        let Some(hop) = self.next_hop(ip.dst_addr) else {
            self.refused = Some(ip.dst_addr);
            return Err(EmitError::Unresolved);
        };
        let eth = EthernetRepr {
            src_addr: self.hardware,
            dst_addr: hop,
            ethertype: EthernetProtocol::Ipv4,
        };
        let payload = payload_of(self.alloc, dhcp)?;
        let frame = frame_of(self.alloc, &eth, ip, udp, payload.as_slice())?;
        self.sent.push(Sent {
            mark: Mark::Dhcp,
            frame,
        })?;
        Ok(())
    }
}

impl<'m> DnsEmit for Emitter<'m> {
    ghost use Rattle.net_host.specs.QueryEmitter.{source_for, TakesQuery, RefusesQuery};

    ghost took = { TakesQuery };

    ghost refused = { RefusesQuery };

    ghost source = { λ out. source_for out.held };

    fn source_for(&self, dst: IpAddress) -> Option<IpAddress> {
        match dst {
            IpAddress::Ipv4(_) => match self.held {
                Some(held) => Some(IpAddress::Ipv4(held.address.address)),
                None => None,
            },
            IpAddress::Ipv6(_) => None,
        }
    }

    fn emit(
        &mut self,
        handle: QueryHandle,
        place: usize,
        ip: &IpRepr,
        udp: &UdpRepr,
        payload: &[u8],
    ) -> Result<(), EmitError> {
        let (IpAddress::Ipv4(src_addr), IpAddress::Ipv4(dst_addr)) = (ip.src_addr, ip.dst_addr)
        else {
            unreachable!()
        };
        let Some(hop) = self.next_hop(dst_addr) else {
            self.refused = Some(dst_addr);
            return Err(EmitError::Unresolved);
        };
        let eth = EthernetRepr {
            src_addr: self.hardware,
            dst_addr: hop,
            ethertype: EthernetProtocol::Ipv4,
        };
        let ip = Ipv4Repr {
            src_addr,
            dst_addr,
            next_header: ip.next_header,
            payload_len: ip.payload_len,
            hop_limit: ip.hop_limit,
        };
        let frame = frame_of(self.alloc, &eth, &ip, udp, payload)?;
        let query = number_at(&self.numbers, handle.slot());
        self.sent.push(Sent {
            mark: Mark::Dns {
                query,
                place: place as u32,
            },
            frame,
        })?;
        Ok(())
    }
}

/// The number of the query in a slot.
fn number_at(numbers: &[u32], slot: usize) -> u32
    ensures { result ≡ number_at numbers.now slot }
{
    if slot < numbers.len() {
        numbers[slot]
    } else {
        0
    }
}
