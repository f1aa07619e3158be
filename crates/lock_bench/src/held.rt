//! What the lock holds: a number that work is done on. No events of it are told.

ghost use Rattle.std.specs.Prelude.{[]};
ghost use mathlib.Core.List.{IsPrefix};

use turn_lock::Chronicle;

/// A number that work is done on, and how often that was.
#[derive(Drop)]
pub struct Held {
    pub state: u64,
    pub count: u64,
}

impl Chronicle for Held {
    type Event = u8;

    ghost events = { λ held. [] };
}

impl Held {
    /// Does so many turns of work, each after the other: no compiler knows how to make one of two.
    pub fn work(&mut self, turns: u64) {
        let mut state = self.state;
        for _ in 0..turns {
            state ^= state << 13;
            state ^= state >> 7;
            state ^= state << 17;
        }
        self.state = state;
        self.count = self.count.wrapping_add(1);
    }
}
