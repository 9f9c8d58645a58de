//! Packets as text.
ghost use Rattle.std.specs.Prelude.{◌≡◌, IfOk, codes};
ghost use Rattle.std.specs.String.{string_bytes};
ghost use Rattle.net_wire.specs.PrettyIndent.{indent_from};
ghost use Rattle.net_wire.specs.Pretty.{ethernet_text};

use net_wire::pretty::{EthernetFrame, PrettyPrinter};
use std::alloc::{AllocError, Global};

/// The text of a frame behind an arrow.
pub fn text_of_frame(alloc: Global, frame: &[u8]) -> Result<String, AllocError>
    ensures value { IfOk result (λ text.
        string_bytes text ≡ ethernet_text frame.now (indent_from (codes "<- "))) }
{
    format!(in alloc; "{}", PrettyPrinter::<EthernetFrame>::new("<- ", frame))
}
