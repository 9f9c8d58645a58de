//! The parts of a frame, one inside the window of the other.
ghost use Rattle.std.specs.Prelude.{◌≡◌, ◌≤◌, [], ◌∷◌, ◌++◌, length, IfOk, OnOk};
ghost use Rattle.ether_link.specs.declared.layout.PartKind.TheVariants as layout;
ghost use Rattle.ether_lax.specs.Steps.{begins_with};
ghost use Rattle.capture_explain.specs.Parts.{kind_of, part_with, ah_part, ah_in};
ghost use Rattle.capture_explain.specs.Dissected.{HasLayers};

use crate::seen::{Seen, esp_at};
use crate::{AhList, AhPart, EspPart, Part, PartKind, PartList};
use ether_ip::{IpAuthHeaderSlice, Ipv6ExtensionSlice, TransportSlice};
use ether_lax::{Part as PacketPart, next_layer};
use ether_link::err::Layer;
use ether_link::{PartKind as LayoutKind, Place, Turn};
use net_wire::NoMemory;
use std::alloc::Global;

/// The parts of a frame, its headers of IPsec, and the layer that stopped the dissection.
#[derive(Debug, Drop)]
pub(crate) struct Layers {
    pub parts: PartList,
    pub ah: AhList,
    pub esp: Option<EspPart>,
    pub stop: Option<Layer>,
    /// Each extension header of IP, and the refused one, found its place free.
    pub free: bool,
}

/// The layers of a frame that begins with an Ethernet header.
pub(crate) fn layers_of(alloc: Global, frame: &[u8]) -> Result<Layers, NoMemory>
    requires { length frame.now ≤ 262144 }
    ensures { IfOk result (HasLayers frame.now) }
{
    let (mut parts, mut ah) = (PartList::new(alloc), AhList::new(alloc));
    let (mut turn, mut start, mut end) = (ethernet(), 0, frame.len());
    let mut seen = Seen::new();
    while let Some(now) = turn {
        match next_layer(frame, now, start, end) {
            Err(_) => {
                return Ok(Layers {
                    parts,
                    ah,
                    esp: None,
                    stop: Some(now.kind.layer()),
                    free: seen.is_free(now.kind),
                });
            }
            Ok(layer) => {
                add_part(&mut parts, &mut ah, layer.place, &layer.part)?;
                turn = layer.next;
                start = layer.place.body;
                end = layer.place.end;
                seen.put(layer.place, layer.part);
            }
        }
    }
    Ok(Layers {
        parts,
        ah,
        esp: esp_at(frame, seen.payload),
        stop: None,
        free: seen.free,
    })
}

/// The turn of the Ethernet header.
fn ethernet() -> Option<Turn>
    ensures { result ≡ begins_with layout.Ethernet2 }
{
    Some(Turn {
        kind: LayoutKind::Ethernet2,
        link_exts: 0,
        fragmented: false,
    })
}

/// Lists a part, and its values where it is an authentication header.
fn add_part(
    parts: &mut PartList,
    ah: &mut AhList,
    place: Place,
    part: &PacketPart<'_>,
) -> Result<(), NoMemory>
    requires { (place.start ≤ 262144) × (place.body ≤ 262144) × (place.end ≤ 262144) }
    ensures parts { OnOk result (parts.new ≡ parts.old ++ part_with place part.now ∷ []) }
    ensures ah { OnOk result (ah.new ≡ ah.old ++ ah_in part.now) }
{
    parts.push(Part {
        kind: kind_of(part),
        header: place.start as u32,
        window: place.body as u32,
        end: place.end as u32,
    })?;
    match part {
        PacketPart::Extension(Ipv6ExtensionSlice::Authentication(header)) => {
            ah.push(ah_part(header))
        }
        _ => Ok(()),
    }
}

/// The kind of a part.
fn kind_of(part: &PacketPart<'_>) -> PartKind
    ensures { result ≡ kind_of part.now }
{
    match part {
        PacketPart::Ethernet2(_) | PacketPart::LinuxSll(_) => PartKind::Ethernet,
        PacketPart::Vlan(_) => PartKind::Vlan,
        PacketPart::Macsec(_) => PartKind::Macsec,
        PacketPart::Arp(_) => PartKind::Arp,
        PacketPart::Ipv4(_) => PartKind::Ipv4,
        PacketPart::Ipv6(_) => PartKind::Ipv6,
        PacketPart::Extension(header) => match header {
            Ipv6ExtensionSlice::HopByHop(_) => PartKind::HopByHop,
            Ipv6ExtensionSlice::Routing(_) => PartKind::Route,
            Ipv6ExtensionSlice::Fragment(_) => PartKind::Frag,
            Ipv6ExtensionSlice::DestinationOptions(_) => PartKind::DestOptions,
            Ipv6ExtensionSlice::Authentication(_) => PartKind::Auth,
        },
        PacketPart::Transport(part) => match part {
            TransportSlice::Udp(_) => PartKind::Udp,
            TransportSlice::Tcp(_) => PartKind::Tcp,
            TransportSlice::Icmpv4(_) => PartKind::Icmpv4,
            TransportSlice::Icmpv6(_) => PartKind::Icmpv6,
        },
    }
}

/// The values of an authentication header.
fn ah_part(header: &IpAuthHeaderSlice<'_>) -> AhPart
    ensures { result ≡ ah_part header.now }
{
    AhPart {
        next: header.next_header().0,
        spi: header.spi(),
        sequence: header.sequence_number(),
        icv_len: header.icv().len() as u16,
    }
}
