//! Leases by the moment at which they end, so that a sweep finds what is due without a look at the others.
//!
//! ```text
//! let mut wheel = LeaseWheel::new(alloc);
//! let node = wheel.add(expiry, item)?;     // the name of the item's node
//! wheel.remove(node);                      // the item, whenever its lease would have ended
//! while let Some(item) = wheel.pop_due(moment) {
//!     // each item whose expiry and 60,000 ms more are before the moment, one at a time
//! }
//! ```
//!
//! Contracts see a wheel as its items, each with its expiry and the name of its node, in order of expiry, and of one
//! expiry in the order in which they were added (`Leased` of `specs/Leased`).
//!
//! The items of one expiry stand in a list of raw nodes, and the lists in a map in order of expiry. An empty list
//! leaves the map, so the first list of the map has what is due first.
//!
//! An add takes memory for the item's node, and where no other has its expiry for a list; nothing else takes any. Each
//! call visits about log n of n expiries, and a drop each item once.
#![tactic(auto)]

mod laws;
mod lists;
#[cfg(test)]
mod tests;
mod wheel;

pub use laws::items_are_due_when_the_grace_is_over;
pub use wheel::{LeaseWheel, WheelItem, WheelNode};
