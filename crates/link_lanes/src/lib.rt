//! The lanes that a link has of its bricks, and what it counts.
//!
//! A link of this process keeps replies until they are received: a lane for each of its bricks, in the order of their
//! numbers, from 1. What stands in a lane is the link's own. This crate has what all such links share:
//!
//! - `specs/Lanes`: the lane of the brick of a number, and what an ask, a frame and a silence make of the lanes. All
//!   silences of numbers without a brick are counted together;
//! - `specs/Tallies`: no count falls, and each event adds to the counts what a `Link` promises of it, whatever lanes
//!   are, as long as asks and frames leave the silences that a lane has counted;
//! - `place_of`, the place of a brick's lane.
#![tactic(auto)]

mod place;

pub use place::place_of;
