//! Calls that fail by their numbers.
ghost use Rattle.std.specs.Prelude.{◌≡◌};
ghost use Rattle.phy_layers.specs.Calls.{no_calls, fails_next, after_call, counted};

use std::marker::Model;

/// Counts calls, and which of them failed. A count that stands at the last value of a `u64` stays
/// there.
#[derive(Debug, Drop)]
pub struct FailingCalls {
    fails: Vec<u64>,
    count: u64,
    faults: u64,
}

impl Model for FailingCalls {
    ghost use Rattle.phy_layers.specs.Calls.{Calls};

    ghost Value = { Calls };

    ghost view = { λ calls. record {
      fails = calls.fails.items;
      count = calls.count;
      faults = calls.faults;
    } };
}

impl FailingCalls {
    /// The calls whose numbers, counted from 1, are in `fails` are to fail.
    pub fn new(fails: Vec<u64>) -> FailingCalls
        ensures value { result ≡ no_calls fails.items }
    {
        FailingCalls {
            fails,
            count: 0,
            faults: 0,
        }
    }

    /// Counts a call, and its fault where it is to fail; answers whether it is.
    pub fn next_fails(&mut self) -> bool
        ensures value { result ≡ fails_next self.old }
        ensures left { self.new ≡ after_call result self.old }
    {
        self.count = self.count.saturating_add(1);
        let fails = self.fails.contains(&self.count);
        if fails {
            self.faults = self.faults.saturating_add(1);
        }
        fails
    }

    /// Counts a fault of a call that was counted.
    pub fn fault(&mut self)
        ensures left { self.new ≡ record self.old { faults = counted self.old.faults } }
    {
        self.faults = self.faults.saturating_add(1);
    }
}
