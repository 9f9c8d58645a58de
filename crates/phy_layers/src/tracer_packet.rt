//! A frame that is shown.
ghost use Rattle.std.specs.Prelude.{◌≡◌, ◌/◌, Some, slice_index};
ghost use Rattle.std.specs.Fmt.{WritesOnOk};
ghost use Rattle.phy_layers.specs.TracerText.{arrow, ip_text, tracer_text};

use crate::capabilities::{Medium, TracerDirection};
use net_wire::pretty::{EthernetFrame, Ipv4Packet, PrettyPrinter};
use std::fmt;

/// A frame on its way through a tracer.
#[derive(Debug, Clone, Copy)]
pub struct TracerPacket<'a> {
    pub buffer: &'a [u8],
    pub medium: Medium,
    pub direction: TracerDirection,
}

/// What stands in front of the text.
fn prefix_of(direction: TracerDirection) -> &'static str
    ensures { result.now ≡ arrow direction }
{
    match direction {
        TracerDirection::RX => "<- ",
        TracerDirection::TX => "-> ",
    }
}

impl fmt::Display for TracerPacket<'_> {
    ghost output = { λ packet. Some (tracer_text packet.buffer.now packet.medium packet.direction) };

    fn fmt<W: fmt::Write>(&self, f: &mut fmt::Formatter<W>) -> fmt::Result {
        let prefix = prefix_of(self.direction);
        match self.medium {
            Medium::Ethernet => {
                let printer = PrettyPrinter::<EthernetFrame>::new(prefix, self.buffer);
                write!(f, "{printer}")
            }
            Medium::Ip => print_ip(self.buffer, self.direction, f),
        }
    }
}

fn print_ip<W: fmt::Write>(
    bytes: &[u8],
    direction: TracerDirection,
    f: &mut fmt::Formatter<W>,
) -> fmt::Result
    ensures { WritesOnOk W.write_str_gives f.old result (ip_text bytes.now direction) f.new }
{
    let prefix = prefix_of(direction);
    match version_of(bytes) {
        4 => {
            let printer = PrettyPrinter::<Ipv4Packet>::new(prefix, bytes);
            write!(f, "{printer}")
        }
        6 => write!(f, "{prefix}IPv6"),
        _ => write!(f, "unrecognized IP version"),
    }
}

/// The IP version, which is 0 where there is no byte.
fn version_of(bytes: &[u8]) -> u8
    ensures { result ≡ slice_index bytes.now 0 / 16 }
{
    match bytes.first() {
        Some(first) => *first / 16,
        None => 0,
    }
}
