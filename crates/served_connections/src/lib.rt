//! Laws of a connection that is served, from its begin to its end, whatever others do between two of its steps.
//!
//! `shepherd` and `served_items` say what each step of a connection keeps, in laws of one idea each. Here they are put
//! together, so that a loop that drives a connection has one fact to keep, and is told at its end what was served:
//!
//! ```text
//! Serves          over its course so far, the history of its container, what its link has counted, and the moment
//!                 that the clock told last
//! ServesSoFar     the same where memory was wanted: what was served by then
//! HasEnded        it has ended, and has served all requests of its bytes
//! HasServedToHere it waits for more bytes, and has served all requests of those that came
//! HasServedWhole  it was left between two requests: it has served the first requests of its bytes
//! HasStopped      memory was wanted: it has served the first requests, and may have done something for one more
//! ```
//!
//! A `Course` is what was done over a connection, from its begin on: the bytes that were fed to it, what was drawn for
//! its requests, the serial numbers that were found spent, what it put out, its items, the events that it added to the
//! history of its container, the marks that it left in that of the windows, the windows that were full where passes
//! were refused, and the calls of its link that it made. `Begun` is where it began. What an item tells of its session
//! is so over these calls (`specs/Heard`), whatever their order.
//!
//! `connections_are_served_from_their_begin`, `connections_are_served_behind_their_steps` and
//! `requests_join_their_connections` have a clause for each call of a shepherd; `meanwhile` is for all that others do.
//! `connections_stop_where_memory_is_wanted` has one for each call that may want memory, and for what may follow it.
//! `courses_tell_what_was_served` says what follows at an end, and `connections_come_to_rest` when one is reached;
//! `courses_show_what_was_served` takes that apart, item by item. `items_are_no_older_than_their_connection` says where
//! a connection begins, and what its items have seen since; `spent_serials_were_looked_at`, that a serial number that
//! an item tells of as spent was looked at for it; `full_windows_were_found`, that windows that an item tells of as
//! full were so where passes were refused; and `unhindered_items_are_pages`, that the request of an item that is no
//! page was hindered.
//!
//! Where an item is to be told of each response that was put out, memory for it is to be had before the response
//! leaves.
//!
//! There is no code here but functions that do nothing, so there are no wrong bodies to refuse.
#![tactic(auto)]

mod beginning;
mod hindering;
mod showing;
mod stepping;
mod stopping;
mod taking;
mod telling;

pub use beginning::connections_are_served_from_their_begin;
pub use hindering::unhindered_items_are_pages;
pub use showing::courses_show_what_was_served;
pub use stepping::connections_are_served_behind_their_steps;
pub use stopping::connections_stop_where_memory_is_wanted;
pub use taking::requests_join_their_connections;
pub use telling::{
    connections_come_to_rest, courses_tell_what_was_served, full_windows_were_found,
    items_are_no_older_than_their_connection, spent_serials_were_looked_at,
};
