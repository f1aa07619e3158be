//! What tells the present moment.

ghost use Rattle.std.specs.Prelude.{◌≡◌, ℕ, ◌+◌, ◌^◌, ◌<◌, ◌≤◌};
ghost use Rattle.outside.specs.declared.clock.TheConstants.{MOMENTS_END};

use crash_base::Moment;
use std::marker::Model;

/// A clock's moments are below this number, 2^62.
pub const MOMENTS_END: u64 = 0x4000_0000_0000_0000;

/// What tells the present moment.
pub trait Clock {
    /// Its last answer, and 0 before the first.
    ghost told: { Self → ℕ };

    /// The present moment, which is not before its last answer, and below 2^62. It takes no memory.
    fn now(&mut self) -> Moment
        ensures told { told self.new ≡ result.0 }
        ensures rises { told self.old ≤ result.0 }
        ensures small { result.0 < MOMENTS_END };
}

/// A clock that stands still until it is set.
#[derive(Drop)]
pub struct PlainClock {
    shown: Moment,
    told: Moment,
}

impl Model for PlainClock {
    ghost use Rattle.std.specs.Prelude.{◌<◌, ◌≤◌};
    ghost use Rattle.outside.specs.Clock.{PlainClockValue};
    ghost use Rattle.outside.specs.declared.clock.TheConstants.{MOMENTS_END};

    ghost Value = { PlainClockValue };

    ghost view = { λ c. record { shown = c.shown; told = c.told } };

    ghost invariant = { λ c. (c.told.0 ≤ c.shown.0) × (c.shown.0 < MOMENTS_END) };
}

impl PlainClock {
    /// A clock that shows this moment.
    pub fn new(now: Moment) -> PlainClock
        requires small { now.0 < MOMENTS_END }
        ensures { result ≡ record { shown = now; told = record { 0 = 0 } } }
    {
        PlainClock {
            shown: now,
            told: Moment(0),
        }
    }

    /// Sets it to a moment that is not before the one that it shows.
    pub fn set(&mut self, now: Moment)
        requires rises { self.old.shown.0 ≤ now.0 }
        requires small { now.0 < MOMENTS_END }
        ensures { self.new ≡ record { shown = now; told = self.old.told } }
    {
        self.shown = now;
    }
}

impl Clock for PlainClock {
    ghost told = { λ c. c.told.0 };

    fn now(&mut self) -> Moment
        ensures answer { result ≡ self.old.shown }
        ensures rises { self.old.told.0 ≤ result.0 }
        ensures small { result.0 < MOMENTS_END }
        ensures after { self.new ≡ record { shown = self.old.shown; told = self.old.shown } }
    {
        self.told = self.shown;
        self.shown
    }
}

/// `MOMENTS_END` is 2^62, so a sum of two moments of a clock is below 2^63. It refuses another end.
pub fn moments_add_up()
    ensures end { MOMENTS_END ≡ 2 ^ 62 }
    ensures sum { (earlier more : ℕ) → earlier < MOMENTS_END → more < MOMENTS_END → earlier + more < 2 ^ 63 }
{}
