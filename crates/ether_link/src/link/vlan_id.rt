//! The number of a virtual network.
ghost use Rattle.std.specs.Prelude.{◌≡◌, ℕ, ◌%◌, ◌<◌, ◌↔◌, IsSome, IfSome};

use std::marker::Model;

/// The number of a virtual network, at most 4095 (IEEE 802.1Q, section 9.6). A contract sees the
/// number.
#[derive(Clone, Copy, Debug, PartialEq, Eq, Hash, PartialOrd, Ord)]
pub struct VlanId {
    number: u16,
}

impl Model for VlanId {
    ghost Value = { ℕ };

    ghost view = { λ id. id.number };

    ghost invariant = { λ id. id.number < 4096 };

    ghost inverse = { λ number. record { number = number } };
}

impl VlanId {
    pub const MAX: u16 = 4095;

    /// The id of a number, where there is one.
    pub fn try_new(number: u16) -> Option<VlanId>
        ensures found { IsSome result ↔ (number < 4096) }
        ensures value { IfSome result (λ id. id ≡ number) }
    {
        if number <= Self::MAX {
            Some(VlanId { number })
        } else {
            None
        }
    }

    /// The id that the low 12 bits of a number are.
    pub fn of_low_bits(number: u16) -> VlanId
        ensures value { result ≡ number % 4096 }
    {
        VlanId {
            number: number & Self::MAX,
        }
    }

    pub fn value(self) -> u16
        ensures value { result ≡ self }
        ensures within { result < 4096 }
    {
        self.number
    }
}

impl Default for VlanId {
    ghost is_default = { λ id. id ≡ 0 };

    fn default() -> VlanId {
        VlanId { number: 0 }
    }
}
