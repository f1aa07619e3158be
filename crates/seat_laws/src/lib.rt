//! Laws of the steps of seats: what a connection of a scenario reads and writes of its session are calls of the world
//! of the scenario's bricks.
//!
//! A seat stands over bricks (`SeatStands`) where they are sound, and its twin is that of what its connection does with
//! its session. So the laws of `lane_link` speak of it: what it reads was written, and a cookie that its write answers
//! is acknowledged. There is no code.
//!
//! - `seats_stand`: behind each step of a seat, as `seat_steps` says it as a function, whatever the keeper replies.
//! - `others_stand`: behind a step of another one; and they have no twin in common then either.
//! - `seats_stand_meanwhile`: from its begin on, when bytes come, over lines, and where another one is given up.
//! - `seats_lend`: what a step does with the bricks is steps of lent bricks, which `session_steps` speaks of.
//! - `drawn_serials_rise`, `owed_writes_were_drawn`: what is drawn lies between the serial numbers that are next before
//!   and after; and the nonce of a call that begins was drawn in that step, or was owed since the request was taken.
//! - `attempts_fit`, `boots_stay_sound_at_seats`: the call of the attempt that a seat's request has open fits the boot,
//!   and is of a request of it; so a step counts at most one entering of a component, or adds the commit of such a
//!   call, and a sound boot stays sound. A journal stays meant, where what a seat serves has a text that spells
//!   its call.
//! - `seats_spell_their_calls`, `moments_stay_in_time`: it has such a text behind each step at a moment before 2^62,
//!   and no line comes to a later one.
//! - `bricks_go_by_lent_steps`, `seats_begin_with_drawn_nonces`: the same of any step, by the function alone, for
//!   whoever has no seat that stands at hand.
//! - `requests_order_their_own_writes`: the request of a seat has ordered only its own write, behind each step.
//! - `seats_read_what_was_written`: what a seat hears of its session is the value that was acknowledged; or that it has
//!   expired, or is lost, with the cause of each brick. A request that bears a cookie in time waits for a read by this
//!   very one, and waits no longer only once it has heard what that came to.
//! - `seats_read_their_own_sessions`: a read that begins is by the cookie that the request bears, in time, and stays
//!   this one; a request whose cookie has expired is told so; and what was heard stays until the item is taken.
//! - `reads_begin_behind_earlier_lanes`: a seat's read had not begun before the seat began to wait for it.
//! - `seats_acknowledge_what_they_wrote`: a cookie that a seat's write answers is acknowledged with the value written.
//! - `seats_miss_for_causes`: a write that a seat missed has the cause of each brick.
//! - `seats_come_to_rest`: each step leaves fewer, until the seat waits for bytes or is gone.
//! - `seats_serve_their_requests`: behind each step, what a connection put out are the responses to its items, and each
//!   item is for its own request, with what was decided of that and drawn for it. Its items come in order
//!   (`items_of_seats_come_in_order`, `items_of_seats_follow_one_another`), its pages are what the site means
//!   (`pages_of_seats_are_meant`), and what it drew came next (`drawn_numbers_come_next`). A cookie that its write
//!   answers is acknowledged with the value that its page sets (`seats_write_what_their_pages_set`).
//! - `seats_report_each_failure_once`: what a connection reports of requests that failed is what its items tell, in
//!   order, each once, and then what is to be told of the request that is open.
//! - `replies_matter_where_handed`: where a step hands nothing to the keeper, its reply changes nothing.
//!
//! Two things are asked of whoever drives the seats. What a seat hears is spelled by its bytes (`SeatHears`): the
//! contract of `Seat::step` tells it. And where a call begins, its nonce is new (`HoldsNew`): it was drawn so
//! (`owed_writes_were_drawn`), and stays so by `session_lanes::nonces_stay_new`.
#![tactic(auto)]

mod fitting;
mod laws;
mod lending;
mod owned_writes;
mod reading;
mod reporting;
mod resting;
mod serving;

pub use fitting::{
    attempts_fit, boots_stay_sound_at_seats, moments_stay_in_time, replies_matter_where_handed,
    seats_spell_their_calls,
};
pub use laws::{
    drawn_serials_rise, others_stand, owed_writes_were_drawn, seats_lend, seats_stand,
    seats_stand_meanwhile,
};
pub use lending::{bricks_go_by_lent_steps, seats_begin_with_drawn_nonces};
pub use owned_writes::requests_order_their_own_writes;
pub use reading::{
    reads_begin_behind_earlier_lanes, seats_acknowledge_what_they_wrote, seats_miss_for_causes,
    seats_read_their_own_sessions, seats_read_what_was_written,
};
pub use reporting::seats_report_each_failure_once;
pub use resting::seats_come_to_rest;
pub use serving::{
    drawn_numbers_come_next, items_of_seats_come_in_order, items_of_seats_follow_one_another,
    pages_of_seats_are_meant, seats_serve_their_requests, seats_write_what_their_pages_set,
};
