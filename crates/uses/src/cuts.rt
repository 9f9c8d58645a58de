//! `ether_lax`: what a capture keeps that holds the first bytes of each frame, and a frame that is
//! dissected twice.
ghost use Rattle.std.specs.Prelude.{◌≤◌, IfOk, IsTrue, length};
ghost use Rattle.ether_link.specs.declared.layout.PartKind.TheVariants.{Ethernet2};
ghost use Rattle.ether_lax.specs.Agreement.{AgreeOn, FindsPlaces};
ghost use Rattle.ether_lax.specs.CutPackets.{IsCutPacket};
ghost use Rattle.ether_lax.specs.Sliced.{sliced_in};
ghost use Rattle.ether_lax.specs.Steps.{begins_with};

use ether_lax::{LaxPacketHeaders, LaxSlicedPacket, agrees};
use ether_link::err::LenError;

/// The packet of the first `n` bytes of a frame, and that of all bytes: ICMP messages aside, the first one's
/// parts are a front of the second one's.
pub fn kept_and_whole(
    frame: &[u8],
    n: usize,
) -> Result<(LaxSlicedPacket<'_>, LaxSlicedPacket<'_>), LenError>
    requires { n ≤ length frame.now }
    ensures { IfOk result (λ both. IsCutPacket frame.now n (sliced_in both.0) (sliced_in both.1)) }
{
    let kept = LaxSlicedPacket::from_ethernet(&frame[..n])?;
    let packet = LaxSlicedPacket::from_ethernet(frame)?;
    Ok((kept, packet))
}

/// A frame in slices and in structs: they agree where each extension header finds its place free.
pub fn slices_and_structs(
    frame: &[u8],
) -> Result<(LaxSlicedPacket<'_>, LaxPacketHeaders<'_>), LenError>
    ensures { IfOk result (λ both. FindsPlaces frame.now (begins_with Ethernet2)
        → AgreeOn both.0 both.1) }
{
    let packet = LaxSlicedPacket::from_ethernet(frame)?;
    let headers = LaxPacketHeaders::from_ethernet(frame)?;
    Ok((packet, headers))
}

/// Both shapes of a frame agree: so it is where each extension header finds its place free.
pub fn shapes_agree(frame: &[u8]) -> Result<bool, LenError>
    ensures { IfOk result (λ same. FindsPlaces frame.now (begins_with Ethernet2) → IsTrue same) }
{
    let packet = LaxSlicedPacket::from_ethernet(frame)?;
    let headers = LaxPacketHeaders::from_ethernet(frame)?;
    Ok(agrees(&packet, &headers))
}
