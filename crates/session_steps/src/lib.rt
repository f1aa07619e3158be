//! What the lines of a scenario do that are about sessions.
//!
//! A line is refused, or is done and writes its text. What each line does is defined as a function of the state before
//! it, whose value is the answer: the state that the line leaves, and the text.
//!
//! ```text
//! let mut setup = Setup::new();
//! setup.bricks_line(3, 3, 2);                        // 3 bricks: a write asks 3, and 2 are to store its value
//! setup.key_line(key);                               // the key of the service
//! let mut sessions = Sessions::new(alloc, setup)?;
//! sessions.reopen(1);                                // boot 1 has started
//! sessions.step(alloc, SessionLine::Write(7, value))?;   // k7 version 0 bricks 1 2
//! sessions.step(alloc, SessionLine::Crash(1))?;
//! sessions.step(alloc, SessionLine::Fetch(7))?;      // k7 found 00ff
//! ```
//!
//! The bricks are those of `session_lanes`. A brick replies at once, and its replies wait in its lane: they come in
//! that order, and lines say which are lost, dropped or come once more. A write and a fetch are calls that go on, turn
//! by turn, until they want nothing more.
//!
//! Between two lines `IsSessions` holds: the present moment is below 2^62, each cookie names 1 to 16 distinct bricks,
//! and the packets that wait in a lane are replies of its brick. So a call ends within 66 turns for each brick that it
//! asks, and has its answer then; no line is refused after it has changed something.
//!
//! The bricks and the serials may be lent to connections between two lines (`Sessions::lend`) and put back
//! (`LentSessions::put_back`), whatever connections did with them (`specs/Lent.antt`): so reads and writes of
//! connections are calls of the same world, share its windows, and draw from the same serials. This is a turn of
//! sessions like a line (`SessionTurn`), so that the laws over turns speak of scenarios with connections, too. For a
//! connection whose call is under way while lines are done, laws say that its call stays as it is
//! (`lines_leave_calls`), that a nonce which it has drawn stays new (`other_nonces_stay_new`), and that all goes on by
//! events (`turns_go_by_events`); while other connections go on, `lent_steps_leave_others` says it.
//!
//! A line costs what its turns do, of which there is one for each ask and one for each reply that it hears. After more
//! lines a write and a fetch cost more by the logarithm of their number, since their nonce is looked up among those of
//! all calls. The packets and the calls of all lines are kept.
#![tactic(auto)]

mod fetching;
mod lane_lines;
mod laws;
mod lending;
mod parts;
mod sessions;
mod texts;
mod writing;

pub use laws::{
    cookies_come_from_writes, fetches_answer_by_the_rule, fetches_answer_what_was_written,
    fetches_lose_only_where_all_have, fetches_read_back, fetches_with_new_nonces_are_done,
    lent_bricks_stay_sound, lent_steps_leave_others, lines_leave_calls, nonces_stay_new,
    other_nonces_stay_new, presented_texts_are_told_apart, sessions_are_worlds,
    sessions_keep_what_is_acknowledged, sessions_stand, takes_are_calls_of_windows,
    turns_go_by_events, writes_say_whether_they_are_acknowledged, writes_with_new_nonces_are_done,
};
pub use lending::LentSessions;
pub use sessions::{DEFAULT_KEY_BYTES, LEASE, MAX_MOMENT, NODE, Sessions};
