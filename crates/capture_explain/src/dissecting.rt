//! The dissection of one frame.
ghost use Rattle.std.specs.Prelude.{◌≡◌, ◌<◌, ◌≤◌, true, length, IfOk};
ghost use Rattle.ether_link.specs.declared.layout.PartKind.TheVariants.{Ethernet2};
ghost use Rattle.ether_lax.specs.Sliced.{HoldsLayout};
ghost use Rattle.ether_lax.specs.Steps.{begins_with};
ghost use Rattle.capture_explain.specs.Comparing.{AgreesWithHeaders, AgreesInFull, AreCompared};
ghost use Rattle.capture_explain.specs.Dissected.{IsDissection};

use crate::layers::layers_of;
use crate::{AhList, EspPart, PartList};
use ether_lax::{LaxPacketHeaders, LaxSlicedPacket, agrees};
use ether_link::err::Layer;
use net_wire::NoMemory;
use std::alloc::Global;

/// A frame, laid open.
#[derive(Clone, Debug, Drop, PartialEq, Eq)]
pub struct Dissection {
    /// The parts of the frame.
    pub parts: PartList,
    /// The layer that stopped the dissection.
    pub stop: Option<Layer>,
    /// Whether both dissectors hold the same headers and the same stop.
    pub agree: bool,
    /// The authentication headers.
    pub ah: AhList,
    /// The header of an encapsulating security payload, where the whole IP packet carries one.
    pub esp: Option<EspPart>,
}

/// Dissects a frame that begins with an Ethernet header.
pub fn dissect(alloc: Global, frame: &[u8]) -> Result<Dissection, NoMemory>
    requires { length frame.now ≤ 262144 }
    ensures value { IfOk result (IsDissection frame.now) }
{
    let layers = layers_of(alloc, frame)?;
    Ok(Dissection {
        parts: layers.parts,
        stop: layers.stop,
        agree: agree_on(frame, layers.free),
        ah: layers.ah,
        esp: layers.esp,
    })
}

/// Whether the two dissectors agree on a frame. Where each extension header of IP finds its place `free`, they do.
fn agree_on(frame: &[u8], free: bool) -> bool
    ensures { AreCompared frame.now free result }
{
    if free {
        return true;
    }
    agree_in_full(frame)
}

/// Whether they do, by what they hold.
fn agree_in_full(frame: &[u8]) -> bool
    ensures short { length frame.now < 14 → result ≡ true }
    ensures long { 14 ≤ length frame.now → AgreesInFull frame.now result }
{
    match LaxSlicedPacket::from_ethernet(frame) {
        Ok(packet) => agrees_with_headers(frame, &packet),
        Err(_) => true,
    }
}

/// Whether a packet agrees with the headers of its frame as structs.
fn agrees_with_headers(frame: &[u8], packet: &LaxSlicedPacket<'_>) -> bool
    requires { HoldsLayout frame.now (begins_with Ethernet2) packet.now }
    ensures { 14 ≤ length frame.now → AgreesWithHeaders frame.now packet.now result }
{
    match LaxPacketHeaders::from_ethernet(frame) {
        Ok(headers) => agrees(packet, &headers),
        Err(_) => true,
    }
}
