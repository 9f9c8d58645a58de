//! Printing of packets, a line a layer, each layer under the one that carries it.
ghost use Rattle.std.specs.Prelude.{◌≡◌, ℕ, ◌^◌, ◌<◌, List, [], Some};
ghost use Rattle.std.specs.Fmt.{WritesOnOk};
ghost use Rattle.net_wire.specs.PrettyIndent.{Indent, indent_from};

pub mod addresses;
pub mod ethernet;
pub mod hex;
pub mod icmpv4;
pub mod indent;
pub mod ipv4;
pub mod laws;

pub use ethernet::EthernetFrame;
pub use icmpv4::Icmpv4Packet;
pub use indent::PrettyIndent;
pub use ipv4::Ipv4Packet;
use std::fmt;
use std::marker::PhantomData;

/// A kind of packet that can be printed.
pub trait PrettyPrint {
    /// The text of the bytes at an indent.
    ghost text: { List ℕ → Indent → List ℕ };

    /// Prints the packet, and what it carries a level deeper. The last line has no line feed.
    fn pretty_print<W: fmt::Write>(
        buffer: &[u8],
        f: &mut fmt::Formatter<W>,
        indent: &mut PrettyIndent,
    ) -> fmt::Result
        requires { indent.old.level < 2 ^ 32 }
        ensures text { WritesOnOk W.write_str_gives f.old result (text buffer.now indent.old) f.new }
        ensures prefix { indent.new.prefix ≡ indent.old.prefix };
}

/// Prints a packet of the kind `T`, its first line behind a prefix.
#[derive(Debug, Drop)]
pub struct PrettyPrinter<'a, T> {
    prefix: &'static str,
    buffer: &'a [u8],
    kind: PhantomData<T>,
}

impl<'a, T: PrettyPrint> PrettyPrinter<'a, T> {
    pub fn new(prefix: &'static str, buffer: &'a [u8]) -> PrettyPrinter<'a, T>
        ensures prefix { result.prefix.now ≡ prefix.now }
        ensures buffer { result.buffer.now ≡ buffer.now }
    {
        PrettyPrinter {
            prefix,
            buffer,
            kind: PhantomData,
        }
    }

    /// Prints it behind no prefix.
    pub fn print(buffer: &'a [u8]) -> PrettyPrinter<'a, T>
        ensures prefix { result.prefix.now ≡ [] }
        ensures buffer { result.buffer.now ≡ buffer.now }
    {
        PrettyPrinter::new("", buffer)
    }
}

impl<'a, T: PrettyPrint> fmt::Display for PrettyPrinter<'a, T> {
    ghost output = { λ printer. Some (T.text printer.buffer.now (indent_from printer.prefix.now)) };

    fn fmt<W: fmt::Write>(&self, f: &mut fmt::Formatter<W>) -> fmt::Result {
        let mut indent = PrettyIndent::new(self.prefix);
        T::pretty_print(self.buffer, f, &mut indent)
    }
}
