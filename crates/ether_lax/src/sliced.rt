//! A packet in slices, by a walk along its parts.
ghost use Rattle.std.specs.Prelude.{◌≡◌, length};
ghost use Rattle.ether_link.specs.declared.layout.Turn.{Turn};
ghost use Rattle.ether_lax.specs.Found.{found_in};
ghost use Rattle.ether_lax.specs.Sliced.{HoldsLayout, sliced_in, sliced_of};
ghost use Rattle.ether_lax.specs.Steps.{TellsCount};
ghost use Rattle.ether_lax.specs.Walks.{IsInside};

use crate::LaxSlicedPacket;
use crate::found::Found;
use crate::nets::net_by;
use crate::stops::sliced_stop;
use crate::walk::{Walked, walk};
use ether_ip::err::packet::SliceError;
use ether_link::{LinkSlice, Stop, Turn};

/// The packet that begins with a turn.
pub(crate) fn sliced<'a>(
    frame: &'a [u8],
    link: Option<LinkSlice<'a>>,
    first: Option<Turn>,
) -> LaxSlicedPacket<'a>
    requires { TellsCount 0 first }
    ensures link { result.link ≡ link.entry }
    ensures value { HoldsLayout frame.now first result }
{
    let Walked { found, stop } = walk(frame, first, false);
    packet_by(frame, link, found, stop)
}

/// What a walk found, as a packet.
pub(crate) fn packet_by<'a>(
    frame: &'a [u8],
    link: Option<LinkSlice<'a>>,
    found: Found<'a>,
    stop: Option<Stop<SliceError>>,
) -> LaxSlicedPacket<'a>
    requires { IsInside (length frame.now) (length frame.now) found.ip }
    ensures link { result.link ≡ link.entry }
    ensures value { sliced_in result ≡ sliced_of frame.now (found_in found.entry) stop }
{
    let stop_err = sliced_stop(&found, stop);
    LaxSlicedPacket {
        link,
        link_exts: found.link_exts,
        net: net_by(frame, found.held.auth, found.ip, found.arp),
        transport: found.transport,
        stop_err,
    }
}
