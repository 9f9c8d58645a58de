//! A packet as a capture of its own.
ghost use Rattle.std.specs.Prelude.{◌≡◌, ◌^◌, ◌<◌, ◌++◌, length};
ghost use Rattle.phy_layers.specs.Sink.{Took};
ghost use Rattle.phy_layers.specs.PcapBytes.{global_header, packet_record};
ghost use Rattle.phy_layers.specs.PcapLinkType.{link_type_number};

use crate::{PcapLinkType, PcapSink, SinkError};
use net_wire::Instant;

/// Writes a capture of one packet, at moment 0.
pub fn convert<S: PcapSink>(
    sink: &mut S,
    link_type: PcapLinkType,
    packet: &[u8],
) -> Result<(), SinkError>
    requires { length packet.now < 2 ^ 32 }
    ensures { Took S.bytes S.faults S.grows result
        (global_header (link_type_number link_type) ++ packet_record 0 packet.now) sink.old sink.new }
{
    sink.global_header(link_type)?;
    sink.packet(Instant::ZERO, packet)
}
