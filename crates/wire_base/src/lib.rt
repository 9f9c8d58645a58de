//! What both branches of the host read and write bytes with: numbers at a place of a slice, the
//! internet checksum, the generator of the script's words, and the words on causes of answers.
#![tactic(auto)]

pub mod checksum;
pub mod number;
pub mod xorshift;
