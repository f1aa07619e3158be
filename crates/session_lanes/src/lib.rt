//! The bricks of sessions, each with the lane on which its replies come, and the windows on what is sent to them.
//!
//! ```text
//! let mut lanes = Lanes::new(alloc, 3, 3, 2)?;           // 3 bricks: a write asks 3, and 2 are to store its value
//! let passes = lanes.take(alloc, first)?;                // leave to ask the bricks whose windows are open
//! let call = lanes.calls();
//! lanes.begin_write(alloc, order, passes.as_slice())?;   // the call of this number
//! while lanes.turn(alloc, call)? {}                      // the call asks, and hears, until it wants nothing more
//! lanes.settle(call, passes);                            // the windows go by what it heard
//! lanes.write_of(call)                                   // Some, and `answer` gives the cookie
//! ```
//!
//! The bricks are a world of `ssm_world`, which goes on by its events alone. A brick replies at once to an ask that is
//! not dropped, and its replies wait in its lane: they come in that order, and calls of this crate say which are lost,
//! which asks are dropped, and which replies come once more. A write and a read are calls of the world that go on turn
//! by turn; other calls may take turns between.
//!
//! Each function leaves just what its definition says, and nothing changes where it is refused. Only after out of
//! memory may anything between have been done, and a turn leaves the counts as they were then.
//!
//! What holds whatever is done with lanes:
//!
//! - `lanes_stay_sound`: events made their world, and each packet that a lane names is a reply of its brick.
//! - `calls_end`: a call has its answer within 66 of its turns for each brick that it asks.
//! - `nonces_stay_new`: a nonce that was drawn is new until a call begins with it, in whatever order calls begin.
//! - `counts_never_fall`: the silences of each brick and of all, and the frames that calls heard.
//!
//! `lend_windows` and `LentLanes::with_windows` take the windows apart from the lanes and put them back, so that others
//! may take and spend passes of them.
//!
//! A turn costs what the events of the world cost that it makes. The packets and the calls of all time are kept.
#![tactic(auto)]

mod counts;
mod lane;
mod lanes;
mod laws;
mod lending;
mod reading;
mod turns;
mod writing;

pub use lanes::{HoldAnswer, Lanes, TURNS_PER_BRICK};
pub use laws::{calls_end, counts_never_fall, lanes_stay_sound, nonces_stay_new};
pub use lending::LentLanes;
pub use writing::WriteOrder;
