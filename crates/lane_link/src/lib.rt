//! The bricks of a scenario as the link of its connections: what a connection reads and writes of a session are calls
//! of the scenario's own world.
//!
//! ```text
//! let call = link.lanes.calls();
//! link.lanes.begin_read(alloc, nonce, now, cookie)?;     // the twin of the connection's read
//! link.active = Some(call);
//! way.step_outside(alloc, &mut link)?;                   // one turn of the twin
//! link.lanes.turn(alloc, other)?;                        // other calls take turns between
//! link.active = Some(call);
//! way.step_outside(alloc, &mut link)?;
//! ```
//!
//! A way of `session_way` holds its own read or write, and the world has its twin: the same machine, which is told the
//! same. `LaneLink` names the call of the world that is active. It takes a frame or gives one only where the active
//! call wants just that, and then this call takes its turn (`LaneLinkMakes`); else the brick counts as silent, and
//! nothing happens in the world.
//!
//! - `twins_begin`, `steps_are_turns_of_twins` and `twins_stay`: a twin begins with its way, each step of the way is
//!   one turn of the twin, and nothing else that is done with the lanes parts them.
//! - `lanes_go_by_events`: all that is done with the lanes is events of their world, which stays sound.
//! - `ways_read_what_was_written` and `written_cookies_are_acknowledged`: what a way reads is right by the world, and
//!   what it writes is acknowledged there.
//! - `lent_windows_fit`: the windows of the lanes may be lent to a way (`Lanes::lend_windows`), and put back, as
//!   `LaneLink::step_windows` and `LaneLink::give_back` do.
#![tactic(auto)]

mod laws;
mod lending;
mod link;

pub use laws::{
    lanes_go_by_events, lent_windows_fit, steps_are_turns_of_twins, twins_begin, twins_stay,
    ways_read_what_was_written, written_cookies_are_acknowledged,
};
pub use link::LaneLink;
