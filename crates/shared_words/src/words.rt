//! The words.

ghost use Rattle.std.specs.Prelude.{◌≡◌, ℕ, ◌+◌, ◌-◌, ◌^◌, ◌<◌, ◌≤◌, [], ◌∷◌, ◌++◌, length, max, IfOk, IfErr, MatchResult};
ghost use Rattle.outside.specs.declared.serials.TheConstants.{SERIALS_END};
ghost use Rattle.outside.specs.Serials.{AllDiffer};
ghost use Rattle.shared_words.specs.Rule.{sight_of};
ghost use Rattle.shared_words.specs.Words.{greatest};

use crate::seat::WordSeat;
use crate::steps::{
    WordTable, draw_serial, join_seats, make, raise_generation, see_generation, see_serial, split,
};
use crash_base::{GroupNo, OutOfMemory};
use outside::{SERIALS_END, Spent};
use std::alloc::Global;
use std::marker::Model;

/// A serial word, and a generation word for each group.
#[derive(Drop)]
pub struct Words {
    table: WordTable,
}

impl Model for Words {
    ghost use Rattle.std.specs.Prelude.{◌≡◌, ◌+◌};
    ghost use Rattle.shared_words.specs.Words.{WordsValue};

    ghost Value = { WordsValue };

    ghost view = { λ w. record { id = w.table.shared.table_id; groups = w.table.shared.key.groups; parts = w.table.shared.key.parts } };

    ghost invariant = { λ w. w.table.shared.table_id.words ≡ 1 + w.table.shared.key.groups };
}

impl Words {
    /// New words, all 0, and the seat with all parts.
    pub fn new(alloc: Global, groups: u16, parts: u32) -> Result<(Words, WordSeat), OutOfMemory>
        requires { 1 ≤ parts }
        ensures words { IfOk result (λ made. (made.0.groups ≡ groups) × (made.0.parts ≡ parts)) }
        ensures seat { IfOk result (λ made. made.1 ≡ record {
          words = made.0.id;
          parts = parts;
          drawn = [];
          seen = 0;
          sights = [];
        }) }
    {
        let (table, inner) = make(alloc, groups, parts)?;
        Ok((Words { table }, WordSeat { inner }))
    }

    /// Draws a number that no seat has drawn: it looks at the serial word, and where that is below 2^62 it draws the
    /// number that stands there by then. A seat with all parts draws the numbers from 0 on. It takes no memory, and
    /// waits for nobody.
    ///
    /// # Errors
    /// `Spent` exactly where the word that it looked at is 2^62 or more.
    pub fn draw(&self, seat: &mut WordSeat) -> Result<u64, Spent>
        requires seat { seat.old.words ≡ self.now.id }
        ensures drawn { IfOk result (λ serial. seat.new ≡ record (seat.old) {
          drawn = seat.old.drawn ++ serial ∷ [];
          seen = serial;
        }) }
        ensures looked { IfOk result (λ serial. (looked : ℕ) × (seat.old.seen ≤ looked) × (looked < SERIALS_END)
            × (looked ≤ serial)) }
        ensures small { IfOk result (λ serial. serial < 2 ^ 62 + 2 ^ 32) }
        ensures differ { AllDiffer seat.new.drawn }
        ensures spent { IfErr result (λ spent. (SERIALS_END ≤ spent.seen)
            × (seat.new ≡ record (seat.old) { seen = spent.seen })) }
        ensures more { seat.old.seen ≤ seat.new.seen }
        ensures whole { seat.old.parts ≡ self.now.parts → MatchResult result (λ serial. serial ≡ length seat.old.drawn)
            (λ spent. spent.seen ≡ length seat.old.drawn) }
    {
        let found = see_serial(&self.table, &mut seat.inner);
        if found < SERIALS_END {
            Ok(draw_serial(&self.table, &mut seat.inner))
        } else {
            Err(Spent { seen: found })
        }
    }

    /// The generation of a group: at least what this seat saw or raised there, and just the greatest of that where the
    /// seat has all parts. It takes no memory, and waits for nobody.
    pub fn look(&self, seat: &mut WordSeat, g: GroupNo) -> u64
        requires seat { seat.old.words ≡ self.now.id }
        requires group { g.0 < self.now.groups }
        ensures seen { seat.new ≡ record (seat.old) { sights = seat.old.sights ++ sight_of g.0 result ∷ [] } }
        ensures least { greatest g.0 seat.old.sights ≤ result }
        ensures whole { seat.old.parts ≡ self.now.parts → result ≡ greatest g.0 seat.old.sights }
    {
        see_generation(&self.table, &mut seat.inner, g)
    }

    /// Raises the generation of a group to this number, where it is less. It takes no memory, and waits for nobody.
    pub fn raise(&self, seat: &mut WordSeat, g: GroupNo, n: u64)
        requires seat { seat.old.words ≡ self.now.id }
        requires group { g.0 < self.now.groups }
        ensures { (found : ℕ) × (greatest g.0 seat.old.sights ≤ found)
            × (seat.old.parts ≡ self.now.parts → found ≡ greatest g.0 seat.old.sights)
            × (seat.new ≡ record (seat.old) { sights = seat.old.sights ++ sight_of g.0 (max found n) ∷ [] }) }
    {
        let _ = raise_generation(&self.table, &mut seat.inner, g, n);
    }

    /// Cuts that many parts off. The new seat has drawn nothing, and has seen as much. It takes no memory, and waits
    /// for nobody.
    pub fn split(&self, seat: &mut WordSeat, parts: u32) -> WordSeat
        requires seat { seat.old.words ≡ self.now.id }
        requires parts { (1 ≤ parts) × (parts < seat.old.parts) }
        ensures cut { result ≡ record (seat.old) { parts = parts; drawn = [] } }
        ensures left { seat.new ≡ record (seat.old) { parts = seat.old.parts - parts } }
    {
        WordSeat {
            inner: split(&self.table, &mut seat.inner, parts),
        }
    }

    /// Adds the other's parts. The numbers that both drew differ, and what either saw is seen. It takes no memory, and
    /// waits for nobody.
    pub fn join(&self, seat: &mut WordSeat, other: WordSeat)
        requires seats { (seat.old.words ≡ self.now.id) × (other.words ≡ self.now.id) }
        ensures seat { seat.new ≡ record (seat.old) {
          parts = seat.old.parts + other.parts;
          drawn = seat.old.drawn ++ other.drawn;
          seen = max seat.old.seen other.seen;
          sights = seat.old.sights ++ other.sights;
        } }
        ensures differ { AllDiffer seat.new.drawn }
    {
        let WordSeat { inner } = other;
        join_seats(&self.table, &mut seat.inner, inner);
    }
}
