//! What gives serial numbers.

ghost use Rattle.std.specs.Prelude.{◌≡◌, ℕ, ◌+◌, ◌^◌, ◌<◌, ◌≤◌, List, Option, Some, None, nat_lt, if◌then◌else◌, IfOk, IfErr, Ok, Err};
ghost use Rattle.std.specs.List.{filter_map};
ghost use Rattle.outside.specs.declared.serials.TheConstants.{SERIALS_END};
ghost use Rattle.outside.specs.Serials.{IsDrawn, Looked, Draws, AllDiffer};

use std::marker::Model;

/// A draw that looks at this number, 2^62, or at a greater one, draws none.
pub const SERIALS_END: u64 = 0x4000_0000_0000_0000;

/// No serial number is left.
#[derive(Clone, Copy, Debug, PartialEq, Eq)]
pub struct Spent {
    /// The number that was looked at, which is 2^62 or more.
    pub seen: u64,
}

/// What gives serial numbers, each once.
///
/// A draw looks at a number, and then draws one or none. Where the numbers are shared, other draws may
/// come between the look and the draw, so that the number drawn may be beyond the one looked at.
pub trait Serials {
    /// This number may still be drawn.
    ghost undrawn: { Self → ℕ → Type 0 };

    /// A draw that looks at this number, and draws this one or none, may lead from the one state to the
    /// other.
    ghost looks: { Self → ℕ → Option ℕ → Self → Type 0 };

    /// Draws a number that was never drawn before, where the number that it looks at is below 2^62. The
    /// number drawn is below 2^63. It takes no memory.
    ///
    /// # Errors
    /// `Spent` exactly where the number that it looked at is 2^62 or more.
    fn draw(&mut self) -> Result<u64, Spent>
        ensures drawn { IfOk result (λ serial. (seen : ℕ) × (seen < SERIALS_END) × looks self.old seen (Some serial) self.new) }
        ensures small { IfOk result (λ serial. serial < 2 ^ 63) }
        ensures spent { IfErr result (λ spent. (SERIALS_END ≤ spent.seen) × looks self.old spent.seen None self.new) };

    /// Nothing below a number that was looked at may be drawn any more, and nothing may be drawn again.
    ghost goes_on: { (old new : Self) (seen : ℕ) (drawn : Option ℕ) → looks old seen drawn new
        → Looked undrawn old seen new };

    /// A number that is drawn was still to be drawn, and is not any more.
    ghost once: { (old new : Self) (seen serial : ℕ) → looks old seen (Some serial) new
        → IsDrawn undrawn old new serial };
}

/// Serial numbers that are counted.
#[derive(Drop)]
pub struct PlainSerials {
    next: u64,
}

impl Model for PlainSerials {
    ghost use Rattle.std.specs.Prelude.{ℕ};

    ghost Value = { ℕ };

    ghost view = { λ s. s.next };
}

impl PlainSerials {
    /// Serials from `next` on.
    pub fn new(next: u64) -> PlainSerials
        ensures { result ≡ next }
    {
        PlainSerials { next }
    }
}

impl Serials for PlainSerials {
    ghost use Rattle.outside.specs.Serials.{PlainLooks, plain_goes_on, plain_once};

    ghost undrawn = { λ next serial. next ≤ serial };

    ghost looks = { PlainLooks };

    fn draw(&mut self) -> Result<u64, Spent>
        ensures answer { result ≡ (if nat_lt self.old SERIALS_END then Ok self.old else Err (record { seen = self.old })) }
        ensures after { self.new ≡ (if nat_lt self.old SERIALS_END then self.old + 1 else self.old) }
    {
        if self.next < SERIALS_END {
            let serial = self.next;
            self.next += 1;
            Ok(serial)
        } else {
            Err(Spent { seen: self.next })
        }
    }

    ghost goes_on = { plain_goes_on };

    ghost once = { plain_once };
}

/// `SERIALS_END` is 2^62, and over any draws the numbers drawn differ. It refuses another end, and a number that is
/// drawn twice.
pub fn serials_differ<S: Serials>(_serials: &S)
    ensures end { SERIALS_END ≡ 2 ^ 62 }
    ensures differ { (old new : S) (draws : List (Option ℕ)) → Draws S.looks old draws new
        → AllDiffer (filter_map (λ drawn. drawn) draws) }
{}
