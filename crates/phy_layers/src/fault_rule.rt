//! The fault rule: what a layer that disturbs a link makes of a frame.
ghost use Rattle.std.specs.Prelude.{◌≡◌, ◌<◌, length, Some, None, if◌then◌else◌};
ghost use Rattle.phy_layers.specs.FaultRule.{outcome, fault_outcome, IsFateOf, received_outcome, sent_outcome, drawn_in, drawn_out, rated_in, rated_out, taken_in, taken_out, refilled, corrupted, flipped, flip, frame_after, with_word, hits, is_over};
ghost use Rattle.wire_base.specs.Xorshift.{next_word};
ghost use Rattle.phy_layers.specs.declared.fault_rule.Fate.{Fate};

use crate::capabilities::TracerDirection;
use net_wire::{Duration, Instant};
use wire_base::xorshift::xorshift32;

/// The most bytes of a frame that passes.
pub(crate) const MTU: usize = 1536;

/// How a link is disturbed.
#[derive(Debug, Clone, Copy, Default, PartialEq, Eq)]
pub struct FaultSettings {
    /// The chance that a frame has a bit flipped, in percent.
    pub corrupt_chance: u8,
    /// The chance that a frame is dropped, in percent.
    pub drop_chance: u8,
    /// The most bytes of a frame that passes; 0 is no limit.
    pub max_packet_size: usize,
    /// How many frames are sent from one refill to the next; 0 is no limit.
    pub max_tx_rate: u64,
    /// How many frames are received from one refill to the next; 0 is no limit.
    pub max_rx_rate: u64,
    /// The time from one refill to the next.
    pub bucket_interval: Duration,
}

/// What the rule remembers.
#[derive(Debug, Clone, Copy, PartialEq, Eq)]
pub struct FaultState {
    /// The word that was drawn last, or the seed.
    pub word: u32,
    /// When the buckets were refilled last.
    pub refilled_at: Instant,
    /// How many frames may be sent until the next refill.
    pub tx_bucket: u64,
    /// How many frames may be received until the next refill.
    pub rx_bucket: u64,
}

/// What becomes of a frame.
#[derive(Debug, Clone, Copy, PartialEq, Eq)]
pub enum Fate {
    Dropped,
    /// It passes as it is.
    Whole,
    /// It passes with one bit flipped, of the byte at a place; the lowest bit is bit 0.
    Flipped { at: usize, bit: u32 },
}

/// What becomes of a frame, and what the rule remembers from then on.
#[derive(Debug, Clone, Copy, PartialEq, Eq)]
pub struct FaultOutcome {
    pub fate: Fate,
    pub state: FaultState,
}

/// The rule: what becomes of a frame of so many bytes, and of the state. Nothing but these decides.
#[tactic(auto, unfolding(crate::specs::FaultRule::fault_outcome))]
pub fn fault_outcome_of(
    settings: &FaultSettings,
    state: FaultState,
    direction: TracerDirection,
    now: Instant,
    len: usize,
) -> FaultOutcome
    ensures value { result ≡ fault_outcome settings.now state direction now len }
    ensures within { IsFateOf len result.fate }
{
    match direction {
        TracerDirection::RX => received(settings, state, now, len),
        TracerDirection::TX => sent(settings, state, now, len),
    }
}

#[tactic(auto, unfolding(crate::specs::FaultRule::received_outcome, crate::specs::FaultRule::drawn_in))]
fn received(settings: &FaultSettings, state: FaultState, now: Instant, len: usize) -> FaultOutcome
    ensures value { result ≡ received_outcome settings.now state now len }
    ensures within { IsFateOf len result.fate }
{
    if len > MTU || exceeds(settings.max_packet_size, len) {
        return dropped(state);
    }
    let state = draw(state);
    if hits(state.word, settings.drop_chance) {
        return dropped(state);
    }
    rate_received(settings, state, now, len)
}

#[tactic(auto, unfolding(crate::specs::FaultRule::sent_outcome, crate::specs::FaultRule::drawn_out))]
fn sent(settings: &FaultSettings, state: FaultState, now: Instant, len: usize) -> FaultOutcome
    ensures value { result ≡ sent_outcome settings.now state now len }
    ensures within { IsFateOf len result.fate }
{
    let state = draw(state);
    if hits(state.word, settings.drop_chance) || exceeds(settings.max_packet_size, len) {
        return dropped(state);
    }
    rate_sent(settings, state, now, len)
}

#[tactic(auto, unfolding(crate::specs::FaultRule::rated_in, crate::specs::FaultRule::taken_in))]
fn rate_received(
    settings: &FaultSettings,
    state: FaultState,
    now: Instant,
    len: usize,
) -> FaultOutcome
    ensures value { result ≡ rated_in settings.now now len state }
    ensures within { IsFateOf len result.fate }
{
    if settings.max_rx_rate == 0 {
        return corrupt(settings, state, len);
    }
    let mut state = refill(settings, state, now);
    if state.rx_bucket == 0 {
        return dropped(state);
    }
    state.rx_bucket -= 1;
    corrupt(settings, state, len)
}

#[tactic(auto, unfolding(crate::specs::FaultRule::rated_out, crate::specs::FaultRule::taken_out))]
fn rate_sent(settings: &FaultSettings, state: FaultState, now: Instant, len: usize) -> FaultOutcome
    ensures value { result ≡ rated_out settings.now now len state }
    ensures within { IsFateOf len result.fate }
{
    if settings.max_tx_rate == 0 {
        return corrupt(settings, state, len);
    }
    let mut state = refill(settings, state, now);
    if state.tx_bucket == 0 {
        return dropped(state);
    }
    state.tx_bucket -= 1;
    corrupt(settings, state, len)
}

#[tactic(auto, unfolding(crate::specs::FaultRule::refilled))]
fn refill(settings: &FaultSettings, state: FaultState, now: Instant) -> FaultState
    ensures { result ≡ refilled settings.now now state }
{
    if now - state.refilled_at > settings.bucket_interval {
        FaultState {
            word: state.word,
            refilled_at: now,
            tx_bucket: settings.max_tx_rate,
            rx_bucket: settings.max_rx_rate,
        }
    } else {
        state
    }
}

#[tactic(auto, unfolding(crate::specs::FaultRule::corrupted))]
fn corrupt(settings: &FaultSettings, state: FaultState, len: usize) -> FaultOutcome
    ensures value { result ≡ corrupted settings.now len state }
    ensures within { IsFateOf len result.fate }
{
    let state = draw(state);
    if hits(state.word, settings.corrupt_chance) {
        return flip_one(state, len);
    }
    FaultOutcome {
        fate: Fate::Whole,
        state,
    }
}

#[tactic(auto, unfolding(crate::specs::FaultRule::flipped))]
fn flip_one(state: FaultState, len: usize) -> FaultOutcome
    ensures value { result ≡ flipped len state }
    ensures within { IsFateOf len result.fate }
{
    if len == 0 {
        return FaultOutcome {
            fate: Fate::Whole,
            state,
        };
    }
    let place = xorshift32(state.word);
    let bit = xorshift32(place);
    FaultOutcome {
        fate: Fate::Flipped {
            at: place as usize % len,
            bit: bit % 8,
        },
        state: FaultState { word: bit, ..state },
    }
}

/// The state after a draw.
fn draw(state: FaultState) -> FaultState
    ensures { result ≡ with_word state (next_word state.word) }
{
    FaultState {
        word: xorshift32(state.word),
        ..state
    }
}

fn hits(word: u32, chance: u8) -> bool
    ensures { result ≡ hits word chance }
{
    word % 100 < u32::from(chance)
}

/// Whether a frame is over a limit; 0 is none.
fn exceeds(limit: usize, len: usize) -> bool
    ensures { result ≡ is_over limit len }
{
    limit > 0 && len > limit
}

fn dropped(state: FaultState) -> FaultOutcome
    ensures { result ≡ outcome Fate.Dropped state }
{
    FaultOutcome {
        fate: Fate::Dropped,
        state,
    }
}

/// Flips one bit of a frame.
pub fn flip_bit(frame: &mut [u8], at: usize, bit: u32)
    requires at { at < length frame.old }
    requires bit { bit < 8 }
    ensures value { frame.new ≡ flip frame.old at bit }
{
    frame[at] ^= 1 << bit;
}

/// Makes of a frame what its fate says, and answers whether it passes.
pub fn meet_fate(fate: Fate, frame: &mut [u8]) -> bool
    requires { IsFateOf (length frame.old) fate }
    ensures { frame_after fate frame.old ≡ (if result then Some frame.new else None) }
{
    match fate {
        Fate::Dropped => false,
        Fate::Whole => true,
        Fate::Flipped { at, bit } => {
            flip_bit(frame, at, bit);
            true
        }
    }
}
