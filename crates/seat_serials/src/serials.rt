//! Serial numbers that are drawn with a seat of words.

ghost use Rattle.std.specs.Prelude.{◌≡◌, ◌≤◌, IfOk, IfErr, None, Some, length, take};
ghost use Rattle.outside.specs.declared.serials.TheConstants.{SERIALS_END};
ghost use Rattle.seat_serials.specs.Drawing.{SeatLooks};

use crate::loan::{Lent, Loan};
use outside::{Serials, Spent};
use shared_words::{WordSeat, Words};
use std::marker::{Model, PhantomData};

/// Serial numbers that are drawn with a seat of some words, over a loan of it. Whoever is lent them, the seat is the
/// one of the loan, it stays of these words, and no more is done with it than to draw. Contracts see it as the seat.
#[derive(Drop)]
pub struct SeatSerials<'a, B: Loan> {
    words: &'a Words,
    seat: &'a mut WordSeat,
    loan: PhantomData<B>,
}

impl<'a, B: Loan> Model for SeatSerials<'a, B> {
    ghost use Rattle.std.specs.Prelude.{◌≡◌};
    ghost use Rattle.shared_words.specs.Words.{WordSeatValue};
    ghost use Rattle.seat_serials.specs.Drawing.{HasDrawnOn};

    ghost Value = { WordSeatValue };

    ghost view = { λ s. s.seat.now };

    ghost invariant = { λ s. (s.seat.ghost_name ≡ B.loan) × (s.seat.now.words ≡ s.words.now.id)
        × HasDrawnOn B.lent s.seat.now };
}

impl<'a, B: Loan> SeatSerials<'a, B> {
    /// Those of a seat that is lent.
    pub fn new(lent: Lent<'a>) -> SeatSerials<'a, B>
        requires words { lent.seat.now.words ≡ lent.words.now.id }
        requires loan { lent.seat.ghost_name ≡ B.loan }
        requires lent { lent.seat.now ≡ B.lent }
        ensures { result ≡ lent.entry.seat.now }
    {
        let Lent { words, seat } = lent;
        SeatSerials {
            words,
            seat,
            loan: PhantomData,
        }
    }

    /// The seat: nothing but draws was done with it. It has seen no less than when it was lent, and what it had drawn
    /// then begins what it has drawn (`since`); its words, its parts and its sights are as they were (`same`).
    pub fn into_lent(self) -> Lent<'a>
        ensures loan { result.seat.ghost_name ≡ B.loan }
        ensures seat { result.seat.now ≡ self.entry }
        ensures since { (B.lent.seen ≤ result.seat.now.seen)
            × (take (length B.lent.drawn) result.seat.now.drawn ≡ B.lent.drawn) }
        ensures same { (result.seat.now.words ≡ B.lent.words) × (result.seat.now.parts ≡ B.lent.parts)
            × (result.seat.now.sights ≡ B.lent.sights) }
    {
        let SeatSerials {
            words,
            seat,
            loan: _,
        } = self;
        Lent { words, seat }
    }
}

impl<'a, B: Loan> Serials for SeatSerials<'a, B> {
    ghost use Rattle.seat_serials.specs.Drawing.{MayBeDrawn, goes_on, once};

    ghost undrawn = { MayBeDrawn };

    ghost looks = { SeatLooks };

    /// Draws as `Words::draw` does.
    fn draw(&mut self) -> Result<u64, Spent> {
        self.words.draw(self.seat)
    }

    ghost goes_on = { goes_on };

    ghost once = { once };
}
