//! Instants and durations of the script, in microseconds.
ghost use Rattle.std.specs.Prelude.{◌≡◌, ℕ, ◌+◌, ◌-◌, ◌*◌, ◌/◌, ◌^◌, ◌≤◌, ◌≢◌, ℤ, pos, ◌*ℤ◌, int_div, int_rem};
ghost use Rattle.std.specs.Int.{saturate_signed, w64};
ghost use Rattle.net_wire.specs.Time.{saturated, instant_after, micros_between};

use std::marker::Model;
use std::ops::{Add, Div, Mul, Shl, Sub};

/// A moment, in microseconds from the script's moment 0; moments before it are negative.
#[derive(Clone, Copy, Debug, Default, PartialEq, Eq, Hash, PartialOrd, Ord)]
pub struct Instant {
    micros: i64,
}

impl Model for Instant {
    ghost use Rattle.std.specs.Prelude.{ℤ};

    ghost Value = { ℤ };

    ghost view = { λ i. i.micros };

    ghost inverse = { λ z. record { micros = z } };
}

impl Instant {
    /// The moment 0.
    pub const ZERO: Instant = Instant { micros: 0 };

    pub fn from_micros(micros: i64) -> Instant
        ensures { result ≡ micros }
    {
        Instant { micros }
    }

    /// Saturates.
    pub fn from_millis(millis: i64) -> Instant
        ensures { result ≡ saturate_signed w64 (millis *ℤ pos 1000) }
    {
        Instant {
            micros: millis.saturating_mul(1000),
        }
    }

    /// Saturates.
    pub fn from_secs(secs: i64) -> Instant
        ensures { result ≡ saturate_signed w64 (secs *ℤ pos 1000000) }
    {
        Instant {
            micros: secs.saturating_mul(1_000_000),
        }
    }

    /// The microseconds from moment 0.
    pub fn total_micros(&self) -> i64
        ensures { result ≡ self.now }
    {
        self.micros
    }

    /// The whole seconds, truncated toward 0.
    pub fn secs(&self) -> i64
        ensures { result ≡ int_div self.now (pos 1000000) }
    {
        self.micros / 1_000_000
    }

    /// The microseconds beside the whole seconds.
    pub fn micros(&self) -> i64
        ensures { result ≡ int_rem self.now (pos 1000000) }
    {
        self.micros % 1_000_000
    }
}

/// A span of time, in microseconds.
#[derive(Clone, Copy, Debug, Default, PartialEq, Eq, Hash, PartialOrd, Ord)]
pub struct Duration {
    micros: u64,
}

impl Model for Duration {
    ghost use Rattle.std.specs.Prelude.{ℕ};

    ghost Value = { ℕ };

    ghost view = { λ d. d.micros };

    ghost inverse = { λ n. record { micros = n } };
}

impl Duration {
    /// The longest span.
    pub const MAX: Duration = Duration { micros: u64::MAX };

    pub fn from_micros(micros: u64) -> Duration
        ensures { result ≡ micros }
    {
        Duration { micros }
    }

    /// Saturates.
    pub fn from_millis(millis: u64) -> Duration
        ensures { result ≡ saturated (millis * 1000) }
    {
        Duration {
            micros: millis.saturating_mul(1000),
        }
    }

    /// Saturates.
    pub fn from_secs(secs: u64) -> Duration
        ensures { result ≡ saturated (secs * 1000000) }
    {
        Duration {
            micros: secs.saturating_mul(1_000_000),
        }
    }

    pub fn total_micros(&self) -> u64
        ensures { result ≡ self.now }
    {
        self.micros
    }
}

impl Add<Duration> for Instant {
    type Output = Instant;

    ghost add_gives = { λ instant span sum. sum ≡ instant_after instant span };

    /// Saturates.
    fn add(self, rhs: Duration) -> Instant {
        let sum = i128::from(self.micros) + i128::from(rhs.micros);
        Instant {
            micros: sum.min(i128::from(i64::MAX)) as i64,
        }
    }
}

impl Sub for Instant {
    type Output = Duration;

    ghost sub_gives = { λ one other span. span ≡ micros_between one other };

    /// The distance, whichever instant is first.
    fn sub(self, rhs: Instant) -> Duration {
        Duration {
            micros: self.micros.abs_diff(rhs.micros),
        }
    }
}

impl Add for Duration {
    type Output = Duration;

    ghost add_gives = { λ one other sum. sum ≡ saturated (one + other) };

    /// Saturates.
    fn add(self, rhs: Duration) -> Duration {
        Duration {
            micros: self.micros.saturating_add(rhs.micros),
        }
    }
}

impl Sub for Duration {
    type Output = Duration;

    ghost can_sub = { λ span part. part ≤ span };

    ghost sub_gives = { λ span part rest. rest ≡ span - part };

    fn sub(self, rhs: Duration) -> Duration {
        Duration {
            micros: self.micros - rhs.micros,
        }
    }
}

impl Mul<u32> for Duration {
    type Output = Duration;

    ghost mul_gives = { λ span times product. product ≡ saturated (span * times) };

    /// Saturates.
    fn mul(self, rhs: u32) -> Duration {
        Duration {
            micros: self.micros.saturating_mul(u64::from(rhs)),
        }
    }
}

impl Div<u32> for Duration {
    type Output = Duration;

    ghost can_div = { λ span parts. parts ≢ 0 };

    ghost div_gives = { λ span parts part. part ≡ span / parts };

    fn div(self, rhs: u32) -> Duration {
        Duration {
            micros: self.micros / u64::from(rhs),
        }
    }
}

impl Shl<u32> for Duration {
    type Output = Duration;

    ghost shl_gives = { λ span places doubled. doubled ≡ saturated (span * 2 ^ places) };

    /// Saturates.
    fn shl(self, rhs: u32) -> Duration {
        if rhs < u64::BITS {
            Duration {
                micros: self.micros.saturating_mul(1 << rhs),
            }
        } else if self.micros == 0 {
            self
        } else {
            Duration::MAX
        }
    }
}
