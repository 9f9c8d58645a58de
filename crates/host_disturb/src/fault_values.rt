//! How a link is bad.
use net_wire::Duration;

/// How a link is bad. With all numbers 0 but the seed it drops only what is longer than 1536 bytes.
#[derive(Clone, Copy, Debug, PartialEq, Eq)]
pub struct FaultValues {
    /// The same seed makes the same faults. The words drawn are the iterates of `xorshift32` from it.
    pub seed: u32,
    /// The chance that a frame is dropped, in percent.
    pub drop_chance: u8,
    /// The chance that a frame has a bit flipped, in percent.
    pub corrupt_chance: u8,
    /// The most bytes of a frame that passes; 0 is no limit beside 1536.
    pub max_size: usize,
    /// How many frames pass from one refill to the next; 0 is no limit.
    pub rate: u64,
    /// A refill comes with the first frame that is later than this behind the last one, or behind moment 0.
    pub interval: Duration,
}
