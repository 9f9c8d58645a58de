//! Laws of dissected packets, as calls without a body.
ghost use Rattle.std.specs.Prelude.{◌≡◌, Option, take};
ghost use Rattle.ether_link.specs.declared.layout.PartKind.TheVariants as kind;
ghost use Rattle.ether_link.specs.declared.err.layers.Layer.{Layer};
ghost use Rattle.ether_link.specs.declared.layout.Turn.{Turn};
ghost use Rattle.ether_ip.specs.declared.err.ipv6_exts.HeaderSliceError.{HeaderSliceError};
ghost use Rattle.ether_lax.specs.Agreement.{AgreeOn, FindsPlaces};
ghost use Rattle.ether_lax.specs.CutPackets.{IsCutPacket};
ghost use Rattle.ether_lax.specs.Headers.{HoldsHeaders};
ghost use Rattle.ether_lax.specs.IpParts.{IsIpPacket};
ghost use Rattle.ether_lax.specs.Nets.{ip_in};
ghost use Rattle.ether_lax.specs.Payloads.{Carried};
ghost use Rattle.ether_lax.specs.Sliced.{HoldsLayout, sliced_in};
ghost use Rattle.ether_lax.specs.Steps.{begins_with};
ghost use Rattle.ether_lax.specs.declared.ip.LaxIpSlice.{LaxIpSlice};
ghost use Rattle.ether_lax.specs.declared.packet_headers.LaxPacketHeaders.{LaxPacketHeaders};
ghost use Rattle.ether_lax.specs.declared.sliced_packet.LaxSlicedPacket.{LaxSlicedPacket};

/// ICMP messages aside, the packet of the first n bytes of a frame has a front of the parts of the
/// frame's packet, with equal headers. Each window of a link extension, of UDP and of TCP is a front of
/// the frame's. The IP payload begins earlier exactly where the n bytes end before the last extension
/// header of the frame does, and else is a front as well.
pub fn cut_frames_keep_their_front(frame: &[u8], n: usize)
    ensures { (kept packet : LaxSlicedPacket)
        → HoldsLayout (take n frame.now) (begins_with kind.Ethernet2) kept
        → HoldsLayout frame.now (begins_with kind.Ethernet2) packet
        → IsCutPacket frame.now n (sliced_in kept) (sliced_in packet) }
{}

/// The two dissectors agree on a frame, from every start, where each extension header of the layout, and
/// the refused one, finds its place free: equal headers of link extensions, of the network and of the
/// transport layer, equal bytes behind the transport header or else the same IP payload, and the same stop
/// but for the source of a length.
pub fn dissectors_agree(frame: &[u8])
    ensures { (first : Option Turn) (start : Carried) (packet : LaxSlicedPacket) (headers : LaxPacketHeaders)
        → HoldsLayout frame.now first packet → HoldsHeaders frame.now first start headers
        → FindsPlaces frame.now first → AgreeOn packet headers }
{}

/// Some bytes are one IP packet: whoever reads it, of either version or of one, holds the same header,
/// extension headers and payload, and was stopped by the same header.
pub fn some_bytes_are_one_ip_packet(slice: &[u8])
    ensures { (packet other : LaxIpSlice) (stop last : Option (HeaderSliceError × Layer))
        → IsIpPacket slice.now packet stop → IsIpPacket slice.now other last
        → (ip_in packet ≡ ip_in other) × (stop ≡ last) }
{}
