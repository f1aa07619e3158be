//! A loan of a seat of words.

ghost use Rattle.std.specs.Prelude.{ℕ, []};
ghost use Rattle.shared_words.specs.Words.{WordSeatValue};

use shared_words::{WordSeat, Words};
use std::marker::Brand;

/// A seat of some words that is lent.
#[derive(Drop)]
pub struct Lent<'a> {
    pub words: &'a Words,
    pub seat: &'a mut WordSeat,
}

/// Which loan of a seat it is, and what the seat was when it was lent. A call with `Brand` picks both.
pub trait Loan {
    ghost loan: { ℕ };

    ghost lent: { WordSeatValue };
}

impl Loan for Brand {
    ghost loan = { 0 };

    ghost lent = { record {
      words = record {
        words = 0;
        slots = 0;
        views_name = 0;
        atom = 0;
        block = 0;
        offset = 0;
        slot_names = [];
      };
      parts = 0;
      drawn = [];
      seen = 0;
      sights = [];
    } };
}
