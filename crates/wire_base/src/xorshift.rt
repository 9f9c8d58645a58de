//! The generator `xorshift32` (G. Marsaglia, "Xorshift RNGs", 2003, with shifts 13, 17 and 5).
ghost use Rattle.std.specs.Prelude.{◌≡◌};
ghost use Rattle.wire_base.specs.Xorshift.{next_word};

/// The word after `word`.
#[tactic(auto, unfolding(crate::specs::Xorshift::next_word))]
pub fn xorshift32(word: u32) -> u32
    ensures { result ≡ next_word word }
{
    let word = word ^ (word << 13);
    let word = word ^ (word >> 17);
    word ^ (word << 5)
}
