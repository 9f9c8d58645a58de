//! Extension headers in their places (RFC 8200, section 4.1).
ghost use Rattle.std.specs.Prelude.{◌≤◌, length};
ghost use Rattle.ether_ip.specs.HeldWalk.{IsHeldEnd};

use crate::ExtensionPlaces;
use crate::err::ipv6_exts::HeaderSliceError;
use crate::ip::chain::{extension_behind, read_extension};
use ether_link::{IpNumber, PartKind, Stop};

/// What stands behind an IP header.
#[derive(Clone, Copy)]
pub(crate) struct Behind {
    /// Where it begins, in bytes.
    pub(crate) at: usize,
    pub(crate) number: IpNumber,
    pub(crate) fragmented: bool,
}

/// How far a reader of extension headers came.
#[derive(Drop)]
pub(crate) struct HeldEnd<'a> {
    pub(crate) held: ExtensionPlaces<'a>,
    pub(crate) behind: Behind,
    /// The header that was refused there.
    pub(crate) stop: Option<Stop<HeaderSliceError>>,
}

/// Reads extension headers into their places, up to the first one that is refused or whose place is
/// taken.
pub(crate) fn held_end(
    packet: &[u8],
    end: usize,
    first: Option<PartKind>,
    before: Behind,
) -> HeldEnd<'_>
    requires order { before.at ≤ end }
    requires within { end ≤ length packet.now }
    ensures value { IsHeldEnd packet.now first before.number.0 before.fragmented before.at end
        result.held result.behind.at result.behind.number.0 result.behind.fragmented result.stop }
{
    let mut held = ExtensionPlaces::new();
    let (mut behind, mut named) = (before, first);
    while let Some(kind) = named {
        if held.is_taken(kind) {
            return HeldEnd {
                held,
                behind,
                stop: None,
            };
        }
        match read_extension(kind, &packet[behind.at..end]) {
            Err(refusal) => {
                let start = behind.at;
                return HeldEnd {
                    held,
                    behind,
                    stop: Some(Stop {
                        kind,
                        start,
                        refusal,
                    }),
                };
            }
            Ok(header) => {
                behind = Behind {
                    at: behind.at + header.slice().len(),
                    number: header.next_header(),
                    fragmented: header.is_fragmenting_behind(behind.fragmented),
                };
                held.put(header);
                named = extension_behind(kind, behind.number);
            }
        }
    }
    HeldEnd {
        held,
        behind,
        stop: None,
    }
}
