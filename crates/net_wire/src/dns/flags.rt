//! The flags of a header (RFC 1035, section 4.1.1).
ghost use Rattle.std.specs.Prelude.{⊤, [], ◌∷◌, codes};

use bitflags::{Flag, Flags, bitflag_items};

/// The third and the fourth byte of a message, flags and codes alike.
#[derive(Clone, Copy, Debug, PartialEq, Eq)]
pub struct HeaderFlags(u16);

impl HeaderFlags {
    ghost use Rattle.std.specs.Prelude.{◌≡◌};

    pub(crate) fn new(bits: u16) -> HeaderFlags
        ensures { result ≡ record { 0 = bits } }
    {
        HeaderFlags(bits)
    }
}

bitflag_items! {
    impl HeaderFlags: u16 {
        const RESPONSE = 0x8000;
        const RECURSION_DESIRED = 0x0100;
    }
}

impl Flags for HeaderFlags {
    type Bits = u16;

    ghost exact = { ⊤ };

    ghost table = { (codes "RESPONSE", 0x8000) ∷ (codes "RECURSION_DESIRED", 0x0100) ∷ [] };

    ghost set_of = { λ flags. flags.0 };

    fn flags<'a>() -> &'a [Flag<HeaderFlags>] {
        HeaderFlags::FLAGS
    }

    fn bits(&self) -> u16 {
        self.0
    }

    fn from_bits_retain(bits: u16) -> HeaderFlags {
        HeaderFlags(bits)
    }
}
