//! Bricks of this process, each under a lock, to which threads have links.
//!
//! A house has bricks 1 to n, all of one incarnation. Who has seats of it may ask its bricks, a brick at a time, or
//! make a link of the seats, which is a `Link` as one over a network would be:
//!
//! ```text
//! let (house, mut seats) = BrickHouse::new(alloc, 3, 7, 64)?;   // bricks 1, 2 and 3; 64 parts of each lock
//! let theirs = house.split(alloc, &mut seats)?;                 // seats with one part of each, for another thread
//!
//! let mut link = HouseLink::new(rt, alloc, &house, theirs)?;    // in the other thread
//! link.send(alloc, BrickNo(2), put.as_slice());                 // Done: brick 2 answers, and its reply waits here
//! link.receive(alloc, BrickNo(2), &mut bytes);                  // Got: the bytes of that reply
//! link.receive(alloc, BrickNo(2), &mut bytes);                  // Silent: no reply waits
//! link.send(alloc, BrickNo(9), put.as_slice());                 // Silent: there is no brick 9
//! let theirs = link.into_seats();
//! ```
//!
//! Each brick stands in a `TurnLock`, and a request that is sent to it is one hold; other bytes make none. Its history
//! is one event, its number and incarnation, so whoever takes a brick knows these, and nothing of what others stored
//! there. So a link tells of each reply that some brick of this number and incarnation gave it to the request
//! (`HouseMakes` of `specs/HouseLinks`). The laws say what follows: `houses_answer_for_their_bricks`,
//! `houses_answer_in_order`, and `house_links_count_their_events`.
//!
//! Replies wait in the link, as frames, and are spelled as bytes when they are received. The queue of a brick grows by
//! one with each request that is sent to it, until its replies are received: who gives up a call hears its replies
//! all the same, as `settle` of `ssm_stub` does. All memory that a send needs is taken before the brick changes: where
//! memory runs out, link and brick are as they were.
#![tactic(auto)]

mod cell;
mod house;
mod lane;
mod laws;
mod link;
mod seats;

pub use house::{BrickHouse, MAX_HOUSE_BRICKS};
pub use laws::{
    house_links_count_their_events, houses_answer_for_their_bricks, houses_answer_in_order,
};
pub use link::HouseLink;
pub use seats::HouseSeats;
