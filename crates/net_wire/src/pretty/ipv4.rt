//! IPv4 packets as text (RFC 791, section 3.1).
ghost use Rattle.std.specs.Prelude.{◌≡◌, ◌<◌, ◌≤◌, length, IsTrue};
ghost use Rattle.std.specs.Fmt.{WritesOnOk};
ghost use Rattle.wire_base.specs.Bytes.{be16_at};
ghost use Rattle.net_wire.specs.Pretty.{ipv4_text, ipv4_lines, ipv4_line, sum_text, ipv4_payload_text, has_ipv4_packet, is_right_sum, ihl_bytes};

use crate::Ipv4Address;
use crate::pretty::addresses::ProtocolText;
use crate::pretty::{Icmpv4Packet, PrettyIndent, PrettyPrint};
use std::fmt;
use wire_base::checksum::sum_words;
use wire_base::number::{read_array, read_be16};

/// The kind of packet that is an IPv4 packet.
#[derive(Clone, Copy, Debug)]
pub struct Ipv4Packet;

impl PrettyPrint for Ipv4Packet {
    ghost text = { ipv4_text };

    #[tactic(auto, unfolding(crate::specs::Pretty::ipv4_text))]
    fn pretty_print<W: fmt::Write>(
        buffer: &[u8],
        f: &mut fmt::Formatter<W>,
        indent: &mut PrettyIndent,
    ) -> fmt::Result
        requires { indent.old.level < usize.MAX }
        ensures text { WritesOnOk W.write_str_gives f.old result
            (ipv4_text buffer.now indent.old) f.new }
        ensures prefix { indent.new.prefix ≡ indent.old.prefix }
    {
        write!(f, "{indent}")?;
        print_lines(buffer, f, indent)
    }
}

#[tactic(auto, unfolding(crate::specs::Pretty::ipv4_lines))]
fn print_lines<W: fmt::Write>(
    bytes: &[u8],
    f: &mut fmt::Formatter<W>,
    indent: &mut PrettyIndent,
) -> fmt::Result
    requires { indent.old.level < usize.MAX }
    ensures text { WritesOnOk W.write_str_gives f.old result (ipv4_lines bytes.now indent.old) f.new }
    ensures prefix { indent.new.prefix ≡ indent.old.prefix }
{
    if !has_packet(bytes) {
        return write!(f, "(truncated)");
    }
    print_line(bytes, f)?;
    print_sum(bytes, f)?;
    print_payload(bytes, f, indent)
}

/// Whether a packet is there.
#[tactic(auto, unfolding(crate::specs::Pretty::has_ipv4_packet))]
fn has_packet(bytes: &[u8]) -> bool
    ensures value { result ≡ has_ipv4_packet bytes.now }
    ensures len { IsTrue result → 20 ≤ length bytes.now }
    ensures header { IsTrue result → ihl_bytes bytes.now ≤ be16_at bytes.now 2 }
    ensures total { IsTrue result → be16_at bytes.now 2 ≤ length bytes.now }
{
    if bytes.len() < 20 || bytes[0] / 16 != 4 {
        return false;
    }
    let header_len = header_len(bytes);
    let total_len = usize::from(read_be16(bytes, 2));
    20 <= header_len && header_len <= total_len && total_len <= bytes.len()
}

/// The bytes of the header.
fn header_len(bytes: &[u8]) -> usize
    requires { 20 ≤ length bytes.now }
    ensures value { result ≡ ihl_bytes bytes.now }
    ensures within { result ≤ 60 }
{
    usize::from(bytes[0] % 16) * 4
}

#[tactic(auto, unfolding(crate::specs::Pretty::ipv4_line))]
fn print_line<W: fmt::Write>(bytes: &[u8], f: &mut fmt::Formatter<W>) -> fmt::Result
    requires { 20 ≤ length bytes.now }
    ensures { WritesOnOk W.write_str_gives f.old result (ipv4_line bytes.now) f.new }
{
    let src = Ipv4Address(read_array(bytes, 12));
    let dst = Ipv4Address(read_array(bytes, 16));
    let protocol = ProtocolText(bytes[9]);
    write!(f, "IPv4 src={src} dst={dst} proto={protocol}")
}

/// Whether the words of the header sum to zero.
#[tactic(auto, unfolding(crate::specs::Pretty::is_right_sum))]
fn has_right_sum(bytes: &[u8]) -> bool
    requires len { 20 ≤ length bytes.now }
    requires header { ihl_bytes bytes.now ≤ length bytes.now }
    ensures { result ≡ is_right_sum bytes.now }
{
    sum_words(&bytes[..header_len(bytes)]) % 65535 == 0
}

#[tactic(auto, unfolding(crate::specs::Pretty::sum_text))]
fn print_sum<W: fmt::Write>(bytes: &[u8], f: &mut fmt::Formatter<W>) -> fmt::Result
    requires len { 20 ≤ length bytes.now }
    requires header { ihl_bytes bytes.now ≤ length bytes.now }
    ensures { WritesOnOk W.write_str_gives f.old result (sum_text bytes.now) f.new }
{
    if has_right_sum(bytes) {
        return Ok(());
    }
    write!(f, " (checksum incorrect)")
}

#[tactic(auto, unfolding(crate::specs::Pretty::ipv4_payload_text))]
fn print_payload<W: fmt::Write>(
    bytes: &[u8],
    f: &mut fmt::Formatter<W>,
    indent: &mut PrettyIndent,
) -> fmt::Result
    requires len { 20 ≤ length bytes.now }
    requires header { ihl_bytes bytes.now ≤ be16_at bytes.now 2 }
    requires total { be16_at bytes.now 2 ≤ length bytes.now }
    requires level { indent.old.level < usize.MAX }
    ensures text { WritesOnOk W.write_str_gives f.old result
        (ipv4_payload_text bytes.now indent.old) f.new }
    ensures prefix { indent.new.prefix ≡ indent.old.prefix }
{
    if bytes[9] != 1 {
        return Ok(());
    }
    indent.increase(f)?;
    let total_len = usize::from(read_be16(bytes, 2));
    Icmpv4Packet::pretty_print(&bytes[header_len(bytes)..total_len], f, indent)
}
