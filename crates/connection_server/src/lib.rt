//! A connection of the site, served from its first byte to its end, beside other threads.
//!
//! ```text
//! let shared = Shared { container, windows, words, reports, router, key, home };  // what all threads share
//! let mut seat = WorkerSeat { worker, container, windows, words, pass };          // the seats of this one
//!
//! let served = serve_connection(
//!     rt, alloc, &mut seat, &shared, &mut source, &mut sink, &mut link, &mut clock, &mut random,
//! );
//! served.items                                                                    // what was served, in order
//! ```
//!
//! `serve_gated` is the same, and tells a gate of each point that the connection passes. A call turns a shepherd of
//! `shepherd` until it has ended: it reads and writes, asks bricks over the link, and takes the locks of `site_locks`
//! for one step at a time. So many threads serve connections in one container at once, and each step of one comes
//! between two steps of others.
//!
//! What is promised is `HasServedConnection` of `specs/Ending`, over the laws of `served_connections`: what was put out
//! are the responses to the items, the items are for the requests of the bytes, each tells what was served of its own
//! request, and what the seats added to the histories of the container and of the windows is what the items tell of.
//! What an item tells of its session is so over the calls of the link that were made. It holds where the call returns,
//! whatever other threads do meanwhile.
//!
//! Requests that failed are reported to whoever decides on reboots, by `ReportQueue`. A report is dropped where the
//! queue is full, or where there is no memory for it.
#![tactic(auto)]

mod connection;
mod outset;
mod points;
mod served;
mod serving;
mod shared;
mod showing;
mod steps;

pub use points::{NoPoints, Point, Points};
pub use served::{Served, ServedEnd};
pub use serving::{serve_connection, serve_gated};
pub use shared::{Shared, WorkerSeat};
pub use showing::served_connections_tell_how_they_ended;
