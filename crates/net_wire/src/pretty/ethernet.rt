//! Ethernet II frames as text (RFC 894).
ghost use Rattle.std.specs.Prelude.{◌≡◌, ◌^◌, ◌<◌, ◌≤◌, length};
ghost use Rattle.std.specs.Fmt.{WritesOnOk};
ghost use Rattle.net_wire.specs.Pretty.{ethernet_text, ethernet_lines, ethernet_line, ethernet_payload_text};

use crate::EthernetAddress;
use crate::pretty::addresses::EtherTypeText;
use crate::pretty::{Ipv4Packet, PrettyIndent, PrettyPrint};
use std::fmt;
use wire_base::number::{read_array, read_be16};

/// The bytes of the header.
const HEADER_LEN: usize = 14;

/// The kind of packet that is an Ethernet frame.
#[derive(Clone, Copy, Debug)]
pub struct EthernetFrame;

impl PrettyPrint for EthernetFrame {
    ghost text = { ethernet_text };

    #[tactic(auto, unfolding(crate::specs::Pretty::ethernet_text))]
    fn pretty_print<W: fmt::Write>(
        buffer: &[u8],
        f: &mut fmt::Formatter<W>,
        indent: &mut PrettyIndent,
    ) -> fmt::Result {
        write!(f, "{indent}")?;
        print_lines(buffer, f, indent)
    }
}

#[tactic(auto, unfolding(crate::specs::Pretty::ethernet_lines))]
fn print_lines<W: fmt::Write>(
    bytes: &[u8],
    f: &mut fmt::Formatter<W>,
    indent: &mut PrettyIndent,
) -> fmt::Result
    requires { indent.old.level < 2 ^ 32 }
    ensures text { WritesOnOk W.write_str_gives f.old result
        (ethernet_lines bytes.now indent.old) f.new }
    ensures prefix { indent.new.prefix ≡ indent.old.prefix }
{
    if bytes.len() < HEADER_LEN {
        return write!(f, "(truncated)");
    }
    print_line(bytes, f)?;
    print_payload(bytes, f, indent)
}

#[tactic(auto, unfolding(crate::specs::Pretty::ethernet_line))]
fn print_line<W: fmt::Write>(bytes: &[u8], f: &mut fmt::Formatter<W>) -> fmt::Result
    requires { 14 ≤ length bytes.now }
    ensures { WritesOnOk W.write_str_gives f.old result (ethernet_line bytes.now) f.new }
{
    let src = EthernetAddress(read_array(bytes, 6));
    let dst = EthernetAddress(read_array(bytes, 0));
    let ether_type = EtherTypeText(read_be16(bytes, 12));
    write!(f, "EthernetII src={src} dst={dst} type={ether_type}")
}

#[tactic(auto, unfolding(crate::specs::Pretty::ethernet_payload_text))]
fn print_payload<W: fmt::Write>(
    bytes: &[u8],
    f: &mut fmt::Formatter<W>,
    indent: &mut PrettyIndent,
) -> fmt::Result
    requires there { 14 ≤ length bytes.now }
    requires level { indent.old.level < 2 ^ 32 }
    ensures text { WritesOnOk W.write_str_gives f.old result
        (ethernet_payload_text bytes.now indent.old) f.new }
    ensures prefix { indent.new.prefix ≡ indent.old.prefix }
{
    if read_be16(bytes, 12) != 0x0800 {
        return Ok(());
    }
    indent.increase(f)?;
    Ipv4Packet::pretty_print(&bytes[HEADER_LEN..], f, indent)
}
