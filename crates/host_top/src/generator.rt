//! The words of the events.
ghost use Rattle.std.specs.Prelude.{◌≡◌, IfOk};
ghost use Rattle.host_top.specs.Generator.{first_words};

use net_wire::NoMemory;
use std::alloc::Global;
use wire_base::xorshift::xorshift32;

/// The first words of a seed.
pub fn words_of(alloc: Global, seed: u32, count: usize) -> Result<Vec<u32>, NoMemory>
    ensures value { IfOk result (λ words. words.items ≡ first_words seed count) }
{
    let mut words = Vec::new(alloc);
    let mut word = seed;
    for _ in 0..count {
        word = xorshift32(word);
        if words.push(word).is_err() {
            return Err(NoMemory);
        }
    }
    Ok(words)
}
