//! A lock round a value with a history, which threads take in the order of tickets.
//!
//! A thread takes the value with a seat of the lock, and gives it back with a history that has only grown:
//!
//! ```text
//! let (lock, mut seat) = TurnLock::new(alloc, value, 64)?;  // a seat with all 64 parts, which has seen the history
//! let mut theirs = lock.split(&mut seat, 1);                // a seat with one of them, for another thread
//!
//! let mut value = lock.take(rt, &mut seat);                 // waits; what the seat has seen begins the history
//! value.add(event);                                         // whatever makes the history longer
//! lock.give(&mut seat, value);                              // the new events stand at places of the seat's own
//!
//! lock.join(&mut seat, theirs);                             // once the other thread is done
//! let value = lock.close(seat);                             // only a seat with all parts does so
//! ```
//!
//! Contracts see of a seat which lock it is of, how many of the lock's parts it has, whether the value is out with it,
//! the history that the value had when the seat last held it, and the places in that history of the events that it
//! added itself (`SeatValue` of `specs/Seats`). What a seat has seen is a beginning of the history at all times,
//! whatever the others do. So a fact about a beginning of the history, once known, stays known from hold to hold, and
//! each event that a seat added stands in the history once, in the order in which the seat added it.
//!
//! The lock is a table of `atomic_table`: a word from which tickets are drawn, a word with the ticket that is served,
//! and one slot for the value. Its rule is `Kept` of `specs/Turns`, and `src/steps` has its eight kinds of step, each
//! with what it tells. The words count modulo 2^64; each ticket that is out is of a seat with a part of its own, and
//! the parts are fewer than 2^32, so no two tickets that are out are equal.
//!
//! In front of the tickets stands a gate of one permit (`src/gate`), since a fair lock hands over to threads that do not
//! run. It decides how long a thread waits, and no proof speaks of it. Who draws the next ticket is left to chance, and
//! that a thread ever has its turn is not promised.
//!
//! `new` takes memory, and nothing else does; `take` waits, and nothing else does. A hold moves the value out and in,
//! so a large value stands in a `Box`.
#![tactic(auto)]

mod chronicle;
mod gate;
mod lock;
mod plays;
mod seat;
mod steps;
mod view;

pub use chronicle::Chronicle;
pub use lock::TurnLock;
pub use seat::Seat;
