//! A clock over the system's.

ghost use Rattle.std.specs.Prelude.{◌≡◌, ◌<◌, ◌≤◌};
ghost use Rattle.outside.specs.Clock.{HasRead};
ghost use Rattle.outside.specs.declared.clock.TheConstants.{MOMENTS_END};

use crate::clock::{Clock, MOMENTS_END};
use crash_base::Moment;
use std::marker::Model;
use std::time;

/// A clock over the system's, in milliseconds since 1970 (UTC). Where the system's clock goes back,
/// or fails, it gives its last answer again, and counts the failure; past 2^62 - 1 it stands still.
#[derive(Drop)]
pub struct SystemClock<C: time::Clock + Drop> {
    system: C,
    told: Moment,
    faults: u64,
}

impl<C: time::Clock + Drop> Model for SystemClock<C> {
    ghost use Rattle.std.specs.Prelude.{◌<◌};
    ghost use Rattle.outside.specs.Clock.{SystemClockValue};
    ghost use Rattle.outside.specs.declared.clock.TheConstants.{MOMENTS_END};

    ghost Value = { SystemClockValue };

    ghost view = { λ c. record { told = c.told; faults = c.faults } };

    ghost invariant = { λ c. c.told.0 < MOMENTS_END };
}

impl<C: time::Clock + Drop> SystemClock<C> {
    /// A clock that has told nothing yet.
    pub fn new(system: C) -> SystemClock<C>
        ensures { result ≡ record { told = record { 0 = 0 }; faults = 0 } }
    {
        SystemClock {
            system,
            told: Moment(0),
            faults: 0,
        }
    }

    /// How often the system's clock has failed.
    pub fn faults(&self) -> u64
        ensures { result ≡ self.now.faults }
    {
        self.faults
    }
}

impl<C: time::Clock + Drop> Clock for SystemClock<C> {
    ghost told = { λ c. c.told.0 };

    fn now(&mut self) -> Moment
        ensures answer { result ≡ self.new.told }
        ensures rises { self.old.told.0 ≤ self.new.told.0 }
        ensures small { self.new.told.0 < MOMENTS_END }
        ensures read { HasRead self.old self.new }
    {
        match self.system.since_1970() {
            Ok(since) => {
                let millis = since.as_millis().min(u128::from(MOMENTS_END - 1)) as u64;
                self.told = Moment(self.told.0.max(millis));
            }
            Err(_) => self.faults = self.faults.saturating_add(1),
        }
        self.told
    }
}
