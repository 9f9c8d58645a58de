//! Numbers as hexadecimal digits.
ghost use Rattle.std.specs.Prelude.{Some};
ghost use Rattle.net_wire.specs.Pretty.{hex_pair};

use std::fmt;

/// A byte that is printed as two digits in lower case.
#[derive(Clone, Copy, Debug)]
pub struct HexPair(pub u8);

impl fmt::Display for HexPair {
    ghost output = { λ byte. Some (hex_pair byte.0) };

    #[tactic(auto, unfolding(crate::specs::Pretty::hex_pair))]
    fn fmt<W: fmt::Write>(&self, f: &mut fmt::Formatter<W>) -> fmt::Result {
        let high = self.0 / 16;
        let low = self.0 % 16;
        write!(f, "{high:x}{low:x}")
    }
}
