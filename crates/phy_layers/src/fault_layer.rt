//! The part of a fault injector beside its device.
ghost use Rattle.std.specs.Prelude.{◌≡◌};
ghost use Rattle.phy_layers.specs.FaultRule.{IsFateOf};
ghost use Rattle.phy_layers.specs.FaultLayer.{fresh_layer, outcome_at, layer_after};

use crate::capabilities::TracerDirection;
use crate::fault_rule::{Fate, FaultSettings, FaultState, fault_outcome_of};
use net_wire::Instant;

/// How a link is disturbed, what the rule remembers, and how many frames it dropped.
#[derive(Debug, Clone, Copy, PartialEq, Eq)]
pub struct FaultLayer {
    pub settings: FaultSettings,
    pub state: FaultState,
    /// The count stays at its last value.
    pub dropped: u64,
}

impl FaultLayer {
    /// The layer before any frame.
    pub fn new(seed: u32) -> FaultLayer
        ensures { result ≡ fresh_layer seed }
    {
        FaultLayer {
            settings: FaultSettings::default(),
            state: FaultState {
                word: seed,
                refilled_at: Instant::ZERO,
                tx_bucket: 0,
                rx_bucket: 0,
            },
            dropped: 0,
        }
    }

    /// Lets a frame of so many bytes meet the rule.
    pub fn meet(&mut self, direction: TracerDirection, now: Instant, len: usize) -> Fate
        ensures value { result ≡ (outcome_at self.old direction now len).fate }
        ensures left { self.new ≡ layer_after self.old (outcome_at self.old direction now len) }
        ensures within { IsFateOf len result }
    {
        let outcome = fault_outcome_of(&self.settings, self.state, direction, now, len);
        self.state = outcome.state;
        match outcome.fate {
            Fate::Dropped => self.dropped = self.dropped.saturating_add(1),
            Fate::Whole | Fate::Flipped { .. } => {}
        }
        outcome.fate
    }
}
