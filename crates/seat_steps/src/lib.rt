//! The steps of the connections of a scenario. Each connection is a seat, and what its step leaves is a function.
//!
//! ```text
//! let mut seat = Seat::new(alloc);
//! seat.feed(bytes)?;
//! let (lanes, stepped) = seat.step(alloc, &router, key, worker, now, &mut container, lanes, &mut next);
//! let SeatStepped { bytes, items, report } = stepped?;   // what is put out, the items, and what failed
//! let (lanes, item) = seat.give_up(&mut container, lanes);
//! ```
//!
//! A step is one call at the turn of the connection, and what the connection then does by itself. It goes over the
//! bricks of the scenario by their lanes, which are passed on by value: the windows are lent to the connection and put
//! back, and the link is that of `lane_link`, on which the seat's twin is active. What the connection holds has a twin
//! in the world of the bricks, which begins there as the connection's own read or write began. Right behind a step in
//! the container the connection reports its request, if that failed, for the manager of whoever drives it.
//!
//! - `specs/Seats.antt` has the function, `seat_step`: of the seat, of all that a step may change (`SeatWorld`), and of
//!   what it is given, which is the key, who serves, the moment, and whether the keeper keeps what it is handed.
//! - `Seat::step` says that there is a reply of the keeper by which just this was left (`HasStepped`), and how the
//!   reply shows: in the events, in what the keeper tells, and in its count of faults. It also says which calls were
//!   made (`MakesCalls`), as the laws of connections take them, and that what was heard is spelled by its bytes, as
//!   the laws of `seat_laws` take it. Where memory was wanted, nothing was added, to the history or by the
//!   keeper; or the event was made, and the keeper replied as that tells (`BreaksOff`).
//! - `Seat::give_up` leaves what `seat_gone` says.
//! - Bricks stay as events and lanes made them behind a step and where a seat is given up, also of a seat that does not
//!   stand: law `bricks_stay_sound`.
//! - `specs/Answering.antt` has what is so of a connection at any time, in the words of `shepherd`, as `SeatAnswers`:
//!   its items are for the requests of its bytes, in order, each once, and what it put out are the responses to its
//!   items. Each step keeps it, by the function: law `seats_answer_their_requests`.
//!
//! Whoever drives several seats keeps of each that it goes on in its container (`GoesOnAtSeat`), as with `shepherd`.
//!
//! The random word and the serial number that are drawn next are numbers (`NextDraws`), and a step leaves those that
//! follow.
#![tactic(auto)]

mod alone;
mod answering;
mod events;
mod giving_up;
mod laws;
mod reporting;
mod seat;
mod step;
mod twins;

pub use answering::{made_steps_show_texts, seats_answer_their_requests};
pub use laws::bricks_stay_sound;
pub use seat::{NODE, NextDraws, Seat, SeatShepherd};
pub use site_programs::SiteMaker;
pub use step::SeatStepped;
