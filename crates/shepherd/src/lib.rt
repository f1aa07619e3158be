//! One connection: its bytes are taken off as requests, each is served to its item, and its responses are put out in
//! order.
//!
//! ```text
//! let mut shepherd = Shepherd::new(alloc);
//! loop {
//!     match shepherd.turn() {
//!         ShepherdTurn::Bytes => {}                // feed what comes, or `end` where nothing more comes
//!         ShepherdTurn::Request => shepherd.take_request(alloc, &router, key, home, &link, &mut clock, ..)?,
//!         ShepherdTurn::Outside => shepherd.step_outside(alloc, &mut link)?,
//!         ShepherdTurn::Windows => shepherd.step_windows(alloc, &mut windows)?,
//!         ShepherdTurn::Inside => shepherd.step_inside(alloc, &mut container)?,
//!         ShepherdTurn::Program => shepherd.open(alloc, worker, &maker)?,
//!         ShepherdTurn::Own => shepherd.advance(alloc, key)?,
//!         ShepherdTurn::Output => write_all(&mut sink, shepherd.output().as_slice()),
//!         ShepherdTurn::Item => items.push(shepherd.take_item())?,
//!         ShepherdTurn::Ended(end) => return end,
//!     }
//! }
//! ```
//!
//! Each call makes one step, which is one event at most, and its contract says what that leaves; so others may step
//! between any two. After a call that wanted memory the connection has ended. `drop_call` and `drop_passes` give up, at
//! any turn, what its request holds; where its response has left, its item can still be taken then.
//!
//! A request that is admitted begins with its own number, moment, key and nonces, and is served by the program of its
//! own call, as the user of its session (`requests_are_served_as_they_came`); the laws of `served_items` carry this to
//! its item.
//!
//! Right behind a step in the container `report` is what the manager that decides on reboots is told of the request
//! (`failed_requests_are_reported`).
//!
//! `specs/Standing.antt` has what is so of a connection at any time, as `Standing`: over the bytes that were fed, the
//! heads of the requests that were taken off them, the bytes that were put out, and the items that were taken. The law
//! `connections_stand` says that each step keeps it, and `items_are_for_requests_in_order` what follows: however the
//! bytes were cut, the requests of all bytes, by the definition of `http_wire`, are those of the heads, in order, and
//! then those of what is left and is still to come; the heads are those of the items, each once, and of the request
//! that is open; and what was put out is what was put out for each, in order, and at last the response of what is
//! refused. `Standing` does not say that what was put out for a request is the response to its item:
//! `specs/Answering.antt` does, as `Answering`, over the same heads, which each step keeps
//! (`connections_answer_their_requests`, `taken_requests_are_answered`): so the bytes are the responses to the items,
//! in order, each to the request of its head (`responses_are_to_their_items`).
//!
//! `specs/Accounting.antt` has what a connection added to the history of the container and left in that of the windows,
//! as `Accounting`: each step keeps it, whatever others add meanwhile (`connections_account_for_what_they_add`,
//! `taken_requests_add_nothing`). So its own events and marks are those that its items tell of, in order, and then
//! those of the request that is open (`items_tell_what_was_added`).
//!
//! Whoever drives several connections keeps of each that it goes on in its container (`specs/Going.antt`, as `GoesOn`):
//! each step keeps it, whatever others add meanwhile, and then each call that its turn asks for may be made
//! (`connections_go_on`, `taken_requests_go_on`).
//!
//! `specs/Stopping.antt` has what a connection has added and left where memory was wanted, as `Stopped`: what its items
//! tell of, and what one more request may have done. It stays so where its call and its passes are given up, and then
//! no passes are left unspent (`stopped_connections_account_for_what_they_left`).
#![tactic(auto)]

mod accounting;
mod answering;
mod going;
mod laws;
mod leaving;
mod opening;
mod reporting;
mod serving;
mod shepherd;
mod stepping;
mod stopping;
mod taking;

pub use accounting::{
    connections_account_for_what_they_add, items_tell_what_was_added, taken_requests_add_nothing,
};
pub use answering::{
    connections_answer_their_requests, responses_are_to_their_items, taken_requests_are_answered,
};
pub use going::{connections_go_on, taken_requests_go_on};
pub use laws::{
    connections_stand, connections_stand_with_their_requests, items_are_for_requests_in_order,
};
pub use opening::ProgramMaker;
pub use reporting::failed_requests_are_reported;
pub use serving::requests_are_served_as_they_came;
pub use shepherd::{AskedCall, EndKind, Shepherd, ShepherdTurn, Stage};
pub use stopping::stopped_connections_account_for_what_they_left;
