//! What the lines of a scenario do that are about connections of browsers.
//!
//! A line is refused, or is done and writes its text. What each line does is defined as a function of the site before
//! it, and of what the keeper replies to its steps, whose value is the answer: the site that the line leaves, and the
//! text. The site is the boot with its events, the sessions, and the connections by their numbers, with the manager
//! that hears of their requests that failed.
//!
//! ```text
//! let mut seats = Seats::new(alloc, &deployment)?;
//! let (sessions, answer) = seats.line(alloc, &router, &mut container, sessions, SeatLine::Conn(1));
//! let (sessions, answer) = seats.line(alloc, &router, &mut container, sessions, SeatLine::Bytes(1, request));
//! let (sessions, answer) = seats.line(alloc, &router, &mut container, sessions, SeatLine::Run(1));
//! answer?                                      // s1 out 485454502f312e31..
//! seats.report_line(alloc, &deployment, &names, now)?;                // decide none
//! let sessions = seats.give_back(alloc, &mut container, sessions);    // before the next boot: connections are gone
//! ```
//!
//! A step is one step of `seat_steps`. A run makes steps until the connection waits for bytes or is gone. It is defined
//! over the replies of the keeper, one for each step (`specs/Runs.antt`): with as many as the run has steps it comes to
//! an answer, and more replies change nothing.
//!
//! A line is refused whose number no connection has (`MAX_SEAT`), and a step or a run where the sessions have no
//! bricks.
//!
//! Where a step reports that its request failed, the manager hears it (`specs/Hearing.antt`), and its decision is
//! written behind the text of the step. A line `report` tells the manager of a request likewise. Nothing is rebooted:
//! whoever reads the decision carries it out.
//!
//! Each contract also tells of the steps that a line makes (`specs/Making.antt`) that each was made by its calls, and
//! that what it heard is spelled by its bytes, as each frame of the code is: the laws about what connections read,
//! answer and serve take it so.
//!
//! The random words of a scenario are 1, 2, 3 and so on over all its boots, and the serials are those of its sessions,
//! which are lent to each step and put back. The manager stays over all boots too.
//!
//! The laws hold of every site. `steps_are_those_of_seats` says what a step leaves and writes,
//! `lines_change_one_connection` what a line leaves as it was, and `lines_are_taken` where it is not refused;
//! `lines_come_to_one_answer` says that replies behind the last one change nothing, `steps_made_are_those_of_a_line`
//! which steps a line makes, `responses_are_put_out_in_order` what a connection puts out over all its lines,
//! `responses_are_those_of_their_items` that it answers its requests, and `managers_hear_of_failures` what the manager
//! hears.
#![tactic(auto)]

mod giving;
mod hearing;
mod laws;
mod lending;
mod responding;
mod running;
mod seats;
mod stepping;
mod texts;

pub use laws::{
    lines_are_taken, lines_change_one_connection, lines_come_to_one_answer,
    managers_hear_of_failures, responses_are_put_out_in_order, steps_are_those_of_seats,
    steps_made_are_those_of_a_line,
};
pub use responding::responses_are_those_of_their_items;
pub use seats::{FIRST_WORD, FIRST_WORKER, Seats};
