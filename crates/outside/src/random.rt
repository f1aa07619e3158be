//! What gives random words.

ghost use Rattle.std.specs.Prelude.{◌≡◌, ℕ, ◌+◌, ◌%◌, ◌^◌};

use std::marker::Model;

/// What gives random words. What it promises of them is in its `gives`.
pub trait Random {
    /// A call that gives this word may lead from the one state to the other.
    ghost gives: { Self → ℕ → Self → Type 0 };

    /// A random word. It takes no memory.
    fn word(&mut self) -> u64
        ensures given { gives self.old result self.new };
}

/// Words that are counted: as random as a test or a scenario wants them.
#[derive(Drop)]
pub struct PlainRandom {
    next: u64,
}

impl Model for PlainRandom {
    ghost use Rattle.std.specs.Prelude.{ℕ};

    ghost Value = { ℕ };

    ghost view = { λ r. r.next };
}

impl PlainRandom {
    /// Words from `next` on.
    pub fn new(next: u64) -> PlainRandom
        ensures { result ≡ next }
    {
        PlainRandom { next }
    }
}

impl Random for PlainRandom {
    ghost use Rattle.outside.specs.Random.{PlainGives};

    ghost gives = { PlainGives };

    fn word(&mut self) -> u64
        ensures answer { result ≡ self.old }
        ensures after { self.new ≡ (self.old + 1) % (2 ^ 64) }
    {
        let word = self.next;
        self.next = self.next.wrapping_add(1);
        word
    }
}
