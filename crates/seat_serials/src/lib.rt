//! Serial numbers that are drawn with a seat of words, for whoever takes any `Serials`.
//!
//! Who is lent `&mut` serials may say nothing of them where it fails, and so nothing of a seat that they hold. A
//! `SeatSerials` keeps what is so of its seat by its type: it is over one loan of one seat, which its parameter names;
//! the seat stays of its words, and no more is done with it than to draw.
//!
//! ```text
//! fn take_in<'a, B: Loan>(lent: Lent<'a>) -> (Result<Taken, OutOfMemory>, Lent<'a>) {
//!     let mut serials = SeatSerials::<'a, B>::new(lent);
//!     let taken = take_request(&mut serials);       // draws with the seat, and may fail
//!     (taken, serials.into_lent())                  // the seat has drawn on, whatever came of it
//! }
//!
//! let (taken, _) = take_in::<Brand>(Lent { words: &words, seat: &mut seat });
//! ```
//!
//! The call with `Brand` picks the loan, in the `Invariants.antt` of the function that makes it:
//!
//! ```text
//! ghosts-take_in a = record { loan = a.lent.seat.ghost_name; lent = a.lent.seat.now }
//! ```
//!
//! A draw with a seat is `SeatLooks` of `specs/Drawing`: over what the seat had drawn and seen. It takes no memory, and
//! waits for nobody.
#![tactic(auto)]

mod loan;
mod serials;

pub use loan::{Lent, Loan};
pub use serials::SeatSerials;
