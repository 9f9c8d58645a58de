//! Laws of the parts of packets, as calls without a body.
ghost use Rattle.std.specs.Prelude.{◌≡◌, ℕ, ◌≤◌, min, List, take, Option};
ghost use Rattle.ether_link.specs.Layout.{IsOrderly, IsLayoutFrom};
ghost use Rattle.ether_link.specs.Cut.{IsCuttable, cut_places, proper};
ghost use Rattle.ether_link.specs.declared.layout.Place.{Place};
ghost use Rattle.ether_link.specs.declared.layout.Stop.{Stop};
ghost use Rattle.ether_link.specs.declared.layout.Turn.{Turn};
ghost use Rattle.ether_ip.specs.CutPacket.{HasOnePacket, AreCutParts};
ghost use Rattle.ether_ip.specs.declared.err.packet.SliceError.{SliceError};
ghost use Rattle.ether_ip.specs.PacketGrammar.{packet_grammar, is_icmp};

/// Each header of a packet has bytes, and what it announces has room for it. So every packet has one layout
/// (`ether_link::laws::some_layout`, `one_layout`), whose parts lie one inside the other
/// (`layouts_are_nested`).
pub fn packets_are_orderly()
    ensures { IsOrderly packet_grammar }
{}

/// ICMP messages aside, no part of a packet takes note of where the bytes end. So the first bytes of a packet
/// have the front of its layout (`ether_link::laws::cut_law`).
pub fn packets_can_be_cut()
    ensures { IsCuttable packet_grammar is_icmp }
{}

/// Some bytes have one layout as the parts of a packet, from every turn.
pub fn packets_have_one_layout(frame: &[u8])
    ensures { (turn : Option Turn) (start end : ℕ) → HasOnePacket frame.now turn start end }
{}

/// The first n bytes of a packet have a front of its parts: those whose header lies in them, with equal
/// headers and with windows that are fronts of the packet's windows. ICMP messages are left out of both,
/// since one may be read in the first bytes alone, or in all of them alone.
pub fn cut_packets_keep_their_front(frame: &[u8], n: usize)
    ensures { (turn : Option Turn) (start end : ℕ)
        (places kept : List Place) (stop last : Option (Stop SliceError)) → start ≤ n
        → IsLayoutFrom packet_grammar frame.now turn start end places stop
        → IsLayoutFrom packet_grammar (take n frame.now) turn start (min end n) kept last
        → (proper is_icmp kept ≡ cut_places n (proper is_icmp places))
        × AreCutParts frame.now n (proper is_icmp kept) (proper is_icmp places) }
{}
