//! A note on a frame: what it carries, and where its last window lies.
ghost use Rattle.std.specs.Prelude.{◌≡◌, ◌≤◌, length};
ghost use Rattle.ether_lax.specs.Found.{found_in};
ghost use Rattle.ether_lax.specs.Notes.{IsNoteOf, note_by, net_kind, transport_kind, window_by, is_incomplete_note, is_fragment_note};
ghost use Rattle.ether_lax.specs.Walks.{LiesIn};

use crate::found::{Found, FoundIp, IpHeader};
use crate::step::first;
use crate::walk::{Walked, walk};
use ether_ip::TransportSlice;
use ether_ip::err::packet::SliceError;
use ether_link::err::Layer;
use ether_link::{ArpPacketSlice, PartKind, Place, Stop};

/// What the network layer of a frame is.
#[derive(Clone, Copy, Debug, PartialEq, Eq)]
pub enum NetKind {
    None,
    Ipv4,
    Ipv6,
    Arp,
}

/// What the transport layer of a frame is.
#[derive(Clone, Copy, Debug, PartialEq, Eq)]
pub enum TransportKind {
    None,
    Icmpv4,
    Udp,
    Tcp,
    Icmpv6,
}

/// A note on an Ethernet frame.
#[derive(Clone, Copy, Debug, PartialEq, Eq)]
pub struct FrameNote {
    /// The number of link extensions, 3 at most.
    pub exts: u8,
    pub net: NetKind,
    pub transport: TransportKind,
    /// Where the last window begins, in bytes from the start of the frame: what is behind the
    /// transport header, else the IP payload, else the whole ARP packet, else the last link payload.
    pub start: u32,
    /// Where it ends.
    pub end: u32,
    /// The IP packet, or else the MACsec part that is the last link extension, says that it has more
    /// bytes than are there.
    pub incomplete: bool,
    /// The IP packet carries a fragment.
    pub fragmented: bool,
    /// The layer at which the dissection stopped.
    pub stop: Option<Layer>,
}

/// The note of an Ethernet frame. A frame of fewer than 14 bytes has the window of all its bytes, and
/// stops at its first layer.
pub fn note_of(frame: &[u8]) -> FrameNote
    requires { length frame.now ≤ 65535 }
    ensures value { IsNoteOf frame.now result }
{
    let Walked { found, stop } = walk(frame, first(PartKind::Ethernet2), false);
    note_by(frame.len(), &found, stop)
}

/// What a walk found, as a note.
#[tactic(auto, using(crate::proofs::FoundLemmas::exts_len))]
pub(crate) fn note_by(len: usize, found: &Found<'_>, stop: Option<Stop<SliceError>>) -> FrameNote
    requires size { len ≤ 65535 }
    requires last { LiesIn len found.now.last }
    ensures { result ≡ note_by len (found_in found.now) stop }
{
    let (start, end) = window_by(len, found.last);
    FrameNote {
        exts: found.link_exts.len() as u8,
        net: net_kind(&found.ip, &found.arp),
        transport: transport_kind(&found.transport),
        start,
        end,
        incomplete: is_incomplete(&found.ip, found.link_incomplete),
        fragmented: is_fragment(&found.ip),
        stop: match stop {
            Some(stop) => Some(stop.kind.layer()),
            None => None,
        },
    }
}

/// What the network layer is.
fn net_kind(ip: &Option<FoundIp<'_>>, arp: &Option<ArpPacketSlice<'_>>) -> NetKind
    ensures { result ≡ net_kind ip.now arp.now }
{
    match ip {
        Some(ip) => match &ip.header {
            IpHeader::V4(_) => NetKind::Ipv4,
            IpHeader::V6(_) => NetKind::Ipv6,
        },
        None => match arp {
            Some(_) => NetKind::Arp,
            None => NetKind::None,
        },
    }
}

/// What the transport layer is.
fn transport_kind(transport: &Option<TransportSlice<'_>>) -> TransportKind
    ensures { result ≡ transport_kind transport.now }
{
    match transport {
        Some(TransportSlice::Icmpv4(_)) => TransportKind::Icmpv4,
        Some(TransportSlice::Udp(_)) => TransportKind::Udp,
        Some(TransportSlice::Tcp(_)) => TransportKind::Tcp,
        Some(TransportSlice::Icmpv6(_)) => TransportKind::Icmpv6,
        None => TransportKind::None,
    }
}

/// The window of the last part.
fn window_by(len: usize, last: Option<Place>) -> (u32, u32)
    requires size { len ≤ 65535 }
    requires last { LiesIn len last }
    ensures { result ≡ window_by len last }
{
    match last {
        Some(place) => match place.kind {
            PartKind::Arp => (place.start as u32, place.end as u32),
            _ => (place.body as u32, place.end as u32),
        },
        None => (0, len as u32),
    }
}

/// Bytes are missing.
fn is_incomplete(ip: &Option<FoundIp<'_>>, link_incomplete: bool) -> bool
    ensures { result ≡ is_incomplete_note ip.now link_incomplete }
{
    match ip {
        Some(ip) => ip.incomplete,
        None => link_incomplete,
    }
}

/// The IP packet carries a fragment.
fn is_fragment(ip: &Option<FoundIp<'_>>) -> bool
    ensures { result ≡ is_fragment_note ip.now }
{
    match ip {
        Some(ip) => ip.fragmented,
        None => false,
    }
}
