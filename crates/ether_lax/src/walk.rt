//! The walk along the parts of a packet.
ghost use Rattle.std.specs.Prelude.{◌≡◌, length};
ghost use Rattle.ether_lax.specs.Found.{found_in};
ghost use Rattle.ether_lax.specs.Steps.{TellsCount};
ghost use Rattle.ether_lax.specs.Walks.{IsWalked, IsInside, LiesIn};

use crate::found::Found;
use crate::step::next_layer;
use ether_ip::err::packet::SliceError;
use ether_link::{Stop, Turn};

/// What a walk found, and the part that was refused.
#[derive(Drop)]
pub(crate) struct Walked<'a> {
    pub(crate) found: Found<'a>,
    pub(crate) stop: Option<Stop<SliceError>>,
}

/// Walks along the parts of a frame from a turn on: all of them, or up to the first extension header
/// whose place is taken by one before it.
pub(crate) fn walk(frame: &[u8], first: Option<Turn>, in_places: bool) -> Walked<'_>
    requires { TellsCount 0 first }
    ensures value { IsWalked in_places frame.now first (found_in result.found) result.stop }
    ensures inside { IsInside (length frame.now) (length frame.now) result.found.ip }
    ensures last { LiesIn (length frame.now) result.found.last }
{
    let mut found = Found::new();
    let (mut turn, mut start, mut end) = (first, 0, frame.len());
    while let Some(now) = turn {
        if found.is_taken(in_places, now.kind) {
            return Walked { found, stop: None };
        }
        match next_layer(frame, now, start, end) {
            Err(refusal) => {
                let stop = Some(Stop {
                    kind: now.kind,
                    start,
                    refusal,
                });
                return Walked { found, stop };
            }
            Ok(layer) => {
                turn = layer.next;
                start = layer.place.body;
                end = layer.place.end;
                found.put(frame, layer);
            }
        }
    }
    Walked { found, stop: None }
}
