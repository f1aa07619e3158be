//! A link in memory to bricks that answer at once, for scenarios and tests.
//!
//! A `ScriptLink` owns the bricks 1 to n, at most 16, each of incarnation 1 at first. What is sent to a
//! brick it answers at once, and its reply waits in the brick's queue until it is received. So a test
//! says what is lost, repeated or late, and when a brick crashes:
//!
//! ```text
//! let mut link = ScriptLink::new(alloc, 3)?;            // bricks 1, 2 and 3
//! link.send(alloc, BrickNo(2), put.as_slice());         // Done: brick 2 keeps the value and replies
//! link.receive(alloc, BrickNo(2), &mut bytes);          // Got: the bytes of its Stored
//! link.receive(alloc, BrickNo(2), &mut bytes);          // Silent: no reply waits
//! link.repeat(BrickNo(2), 1)?;                          // its first reply waits once more
//! link.lose(BrickNo(2), 1);                             // its next reply is lost
//! link.drop_asks(BrickNo(3), 1);                        // the next frame to brick 3 does not reach it
//! link.crash(BrickNo(2));                               // the values of brick 2 go, its queue stays
//! link.send(alloc, BrickNo(9), put.as_slice());         // Silent: there is no brick 9
//! ```
//!
//! Each brick stands in a lane, with all replies that it ever made, and a queue of the places of those
//! that wait. So a reply is kept once, as the frame that the brick made, and is spelled as bytes when it
//! is received. All memory that a send needs is taken before the brick acts: where memory runs out, the
//! link is as it was.
//!
//! Contracts see the link as a `ScriptValue`. Each call says its new value as a function of the old one
//! (`on_lane` and the changes of a lane), and `makes` is that equation for each event of the link. The
//! laws say what follows:
//!
//! - `bricks_of_the_link_stand`: each brick stands for the history of what happened to it;
//! - `hearing_a_queue`, `hearing_over_the_link`: an asked brick is heard by one rule, which says how many
//!   frames go: the first lawful reply is heard where fewer than 64 strays stand before it;
//! - `writes_over_the_link`, `reads_over_the_link`: what a write or a read of `ssm_stub` leaves in each lane
//!   and in the link's counts;
//! - `writes_answer_by_the_rule`, `reads_answer_by_the_rule`: its answer and the link then are a function of
//!   the link before: which bricks are asked and heard, in order, and what the rule hears of each;
//! - `settling_over_the_link`: what a whole `settle` comes to, pass by pass;
//! - `runs_over_the_link_have_one_end`: how one ends follows from where it started.
//!
//! A send and a receive cost what the brick's answer and one reply's bytes cost, however many wait. The
//! replies that were made are never thrown away.
#![tactic(auto)]

mod lane;
mod laws;
mod script_link;

pub use laws::{
    bricks_of_the_link_stand, hearing_a_queue, hearing_over_the_link, reads_answer_by_the_rule,
    reads_over_the_link, runs_over_the_link_have_one_end, settling_over_the_link,
    writes_answer_by_the_rule, writes_over_the_link,
};
pub use script_link::{MAX_LINK_BRICKS, ScriptLink};
