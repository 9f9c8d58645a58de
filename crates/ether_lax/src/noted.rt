//! A frame as a host takes it: the packet and its note, from one walk.
ghost use Rattle.std.specs.Prelude.{◌≡◌, ◌≤◌, ◌<◌, ◌↔◌, ◌&&◌, IsNone, IfSome, Some, length, option_map};
ghost use Rattle.ether_link.specs.declared.layout.PartKind.TheVariants as kind;
ghost use Rattle.ether_link.specs.declared.link.LinkSlice.TheVariants as link;
ghost use Rattle.ether_lax.specs.Notes.{IsNoteOf};
ghost use Rattle.ether_lax.specs.Noted.{datagram_of, datagram_by};
ghost use Rattle.ether_lax.specs.Nets.{ipv4_in};
ghost use Rattle.ether_lax.specs.Sliced.{HoldsLayout};
ghost use Rattle.ether_lax.specs.Steps.{begins_with};
ghost use Rattle.ether_ip.specs.declared.transport.TransportSlice.TheVariants.{Udp};

use crate::note::note_by;
use crate::sliced::packet_by;
use crate::step::first;
use crate::walk::{Walked, walk};
use crate::{FrameNote, LaxIpv4Slice, LaxNetSlice, LaxSlicedPacket};
use ether_ip::{Ipv4HeaderSlice, TransportSlice, UdpSlice};
use ether_link::{ArpPacketSlice, Ethernet2Slice, LenSource, LinkSlice, PartKind};

/// An Ethernet frame with its packet and its note.
#[derive(Clone, Debug, Drop, PartialEq, Eq)]
pub struct NotedFrame<'a> {
    /// None in a frame of fewer than 14 bytes.
    pub packet: Option<LaxSlicedPacket<'a>>,
    pub note: FrameNote,
}

/// The packet and the note of an Ethernet frame without a check sequence at its end: those of
/// `LaxSlicedPacket::from_ethernet` and of `note_of`, from one walk along its parts.
pub fn packet_and_note(frame: &[u8]) -> NotedFrame<'_>
    requires { length frame.now ≤ 65535 }
    ensures note { IsNoteOf frame.now result.note }
    ensures packet { IfSome result.packet (λ packet. (packet.link ≡ Some (link.Ethernet2 frame.now))
        × HoldsLayout frame.now (begins_with kind.Ethernet2) packet) }
    ensures none { IsNone result.packet ↔ (length frame.now < 14) }
{
    let Walked { found, stop } = walk(frame, first(PartKind::Ethernet2), false);
    let note = note_by(frame.len(), &found, stop);
    let packet = match Ethernet2Slice::from_slice_without_fcs(frame) {
        Ok(ethernet) => {
            let link = Some(LinkSlice::Ethernet2(ethernet));
            Some(packet_by(frame, link, found, stop))
        }
        Err(_) => None,
    };
    NotedFrame { packet, note }
}

/// An IPv4 header and the UDP datagram right behind it.
#[derive(Clone, Debug, Drop, PartialEq, Eq)]
pub struct Ipv4Datagram<'p, 'a> {
    pub header: &'p Ipv4HeaderSlice<'a>,
    pub udp: &'p UdpSlice<'a>,
}

impl<'a> LaxSlicedPacket<'a> {
    ghost use Rattle.ether_lax.specs.Noted.{arp_in, datagram_in, datagram_of};
    ghost use Rattle.ether_lax.specs.Sliced.{sliced_in};

    /// The ARP packet of a packet without link extensions.
    pub fn untagged_arp(&self) -> Option<&ArpPacketSlice<'a>>
        ensures value { option_map (λ packet. packet.now) result ≡ arp_in (sliced_in self.now) }
    {
        if !self.link_exts.is_empty() {
            return None;
        }
        match &self.net {
            Some(LaxNetSlice::Arp(packet)) => Some(packet),
            _ => None,
        }
    }

    /// The UDP datagram right behind the IPv4 header of a packet without link extensions, where both
    /// are as long as they say and the packet is no fragment. Checksums are not looked at.
    pub fn untagged_datagram(&self) -> Option<Ipv4Datagram<'_, 'a>>
        ensures value { option_map datagram_of result ≡ datagram_in (sliced_in self.now) }
    {
        if !self.link_exts.is_empty() {
            return None;
        }
        match (&self.net, &self.transport) {
            (Some(LaxNetSlice::Ipv4(packet)), Some(TransportSlice::Udp(udp))) => {
                datagram(packet, udp)
            }
            _ => None,
        }
    }
}

/// A UDP datagram right behind an IPv4 header, where both are as long as they say.
fn datagram<'p, 'a>(
    packet: &'p LaxIpv4Slice<'a>,
    udp: &'p UdpSlice<'a>,
) -> Option<Ipv4Datagram<'p, 'a>>
    ensures { option_map datagram_of result ≡ datagram_by (Some (ipv4_in packet.now)) (Some (Udp udp.now)) }
{
    let is_behind_header = packet.exts.auth.is_none();
    let is_whole = packet.payload.len_source == LenSource::Ipv4HeaderTotalLen;
    if is_behind_header && is_whole && usize::from(udp.length()) == udp.slice().len() {
        return Some(Ipv4Datagram {
            header: &packet.header,
            udp,
        });
    }
    None
}
