//! Messages of ICMP for IPv4 as text (RFC 792).
ghost use Rattle.std.specs.Prelude.{◌≡◌, ◌≤◌, length};
ghost use Rattle.std.specs.Fmt.{WritesOnOk};
ghost use Rattle.net_wire.specs.Pretty.{icmpv4_text, icmpv4_line, echo_text, other_message_text};

use crate::pretty::{PrettyIndent, PrettyPrint};
use std::fmt;
use wire_base::number::read_be16;

/// The kind of packet that is an ICMPv4 message.
#[derive(Clone, Copy, Debug)]
pub struct Icmpv4Packet;

impl PrettyPrint for Icmpv4Packet {
    ghost text = { icmpv4_text };

    #[tactic(auto, unfolding(crate::specs::Pretty::icmpv4_text))]
    fn pretty_print<W: fmt::Write>(
        buffer: &[u8],
        f: &mut fmt::Formatter<W>,
        indent: &mut PrettyIndent,
    ) -> fmt::Result
        ensures text { WritesOnOk W.write_str_gives f.old result
            (icmpv4_text buffer.now indent.old) f.new }
        ensures prefix { indent.new.prefix ≡ indent.old.prefix }
    {
        write!(f, "{indent}")?;
        print_line(buffer, f)
    }
}

#[tactic(auto, unfolding(crate::specs::Pretty::icmpv4_line))]
fn print_line<W: fmt::Write>(bytes: &[u8], f: &mut fmt::Formatter<W>) -> fmt::Result
    ensures { WritesOnOk W.write_str_gives f.old result (icmpv4_line bytes.now) f.new }
{
    if bytes.len() < 8 {
        return write!(f, "(truncated)");
    }
    match (bytes[0], bytes[1]) {
        (8, 0) => print_echo("request", bytes, f),
        (0, 0) => print_echo("reply", bytes, f),
        _ => print_other(bytes, f),
    }
}

#[tactic(auto, unfolding(crate::specs::Pretty::echo_text))]
fn print_echo<W: fmt::Write>(kind: &str, bytes: &[u8], f: &mut fmt::Formatter<W>) -> fmt::Result
    requires { 8 ≤ length bytes.now }
    ensures { WritesOnOk W.write_str_gives f.old result (echo_text kind.now bytes.now) f.new }
{
    let id = read_be16(bytes, 4);
    let sequence = read_be16(bytes, 6);
    let len = bytes.len() - 8;
    write!(f, "ICMPv4 echo {kind} id={id} seq={sequence} len={len}")
}

#[tactic(auto, unfolding(crate::specs::Pretty::other_message_text))]
fn print_other<W: fmt::Write>(bytes: &[u8], f: &mut fmt::Formatter<W>) -> fmt::Result
    requires { 8 ≤ length bytes.now }
    ensures { WritesOnOk W.write_str_gives f.old result (other_message_text bytes.now) f.new }
{
    let message_type = bytes[0];
    let code = bytes[1];
    write!(f, "ICMPv4 type={message_type} code={code}")
}
