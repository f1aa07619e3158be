//! How a request is taken in: it is decided, the clock is read for it, and all is drawn for it, in order.
//!
//! ```text
//! let intake = take_in(alloc, &router, key, home, &head, &mut clock, &mut random, &mut serials)?;
//! match intake.arrival {
//!     Arrival::Refused(refusal) => {}             // answer it: nothing was drawn
//!     Arrival::SerialsSpent { request, seen } => {}  // no serial number is left
//!     Arrival::Admitted(admission) => {}          // serve its call, under its number, with its nonces
//! }
//! ```
//!
//! `specs/Intakes.antt` says so as `TakesIn`, over any clock, random words and serial numbers: each number of `drawn`
//! was drawn for it, in the order of the draws of its order (`request_decisions::draw_for`), and nothing else was.
//! Where a serial number is spent, nothing is drawn behind it; where memory is wanted, nothing is drawn at all. The
//! moment of a request is the last that the clock told, whatever it told before.
//!
//! The laws say what follows: a request that is refused draws nothing (`refused_requests_draw_nothing`); one that is
//! admitted has the call of its order, its number and nonces are of this boot and were drawn for it, and the number of
//! one that is cut short is told where it is known (`ordered_requests_bear_what_was_drawn`); and the serial numbers
//! among what was drawn differ (`drawn_serials_are_draws`).
#![tactic(auto)]

mod intake;
mod laws;

pub use intake::{Admission, Arrival, HomeBoot, Intake, take_in};
pub use laws::{
    drawn_serials_are_draws, ordered_requests_bear_what_was_drawn, refused_requests_draw_nothing,
};
