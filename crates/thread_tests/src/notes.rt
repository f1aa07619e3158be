//! A value with a history, for a lock.

ghost use Rattle.std.specs.Prelude.{◌≡◌, []};
ghost use mathlib.Core.List.{IsPrefix};

use std::alloc::Global;
use turn_lock::Chronicle;

/// Who noted itself, in order, and how many times that was.
#[derive(Drop)]
pub struct Notes {
    count: u64,
    notes: Vec<u8>,
}

impl Chronicle for Notes {
    type Event = u8;

    ghost events = { λ notes. notes.notes.items };
}

impl Notes {
    /// No notes.
    pub fn new(alloc: Global) -> Notes {
        Notes {
            count: 0,
            notes: Vec::new(alloc),
        }
    }

    /// Notes one more, where memory is found.
    #[tactic(auto, using(crate::proofs::Growing::prefix_more, crate::proofs::Growing::prefix_same))]
    pub fn note(&mut self, who: u8)
        ensures { IsPrefix self.old.notes.items self.new.notes.items }
    {
        match self.notes.push(who) {
            Ok(()) => self.count = self.count.wrapping_add(1),
            Err(_) => {}
        }
    }

    /// How many notes were made.
    pub fn count(&self) -> u64 {
        self.count
    }

    /// Who noted itself, in order.
    pub fn as_slice(&self) -> &[u8] {
        self.notes.as_slice()
    }

    /// How often it did so.
    pub fn times(&self, who: u8) -> usize {
        self.notes.iter().filter(|other| **other == who).count()
    }
}
