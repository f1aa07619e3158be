//! Sessions over a network that loses, repeats and reorders packets, and over bricks that crash.
//!
//! A world has bricks with all that happened to them, all packets ever sent, and all writes and reads,
//! and goes on by events. Any packet may come to whom it is for at any time, again and again, or never; so
//! packets are lost, repeated and reordered at will. `World::step` makes of a world just what an event
//! does (`step` of the specs), and nothing of one that may not happen.
//!
//! ```text
//! let mut world = World::new(alloc, 1)?;
//! world.step(alloc, &write)?;                                     // a Write to brick 1: call 0
//! world.step(alloc, &WorldEvent::Send { call: 0, silent: false, sent: true })?;    // packet 0, a Put
//! world.step(alloc, &WorldEvent::Deliver { packet: 0 })?;         // packet 1, a Stored
//! world.step(alloc, &WorldEvent::Hear { call: 0, packet: 1 })?;   // the write has its answer
//! world.write_of(0)                                               // Some, and `answer` gives the cookie
//! ```
//!
//! What is promised of every world that events make of a new one, whatever they are:
//!
//! - `worlds_are_sound`: each request is the ask of one call, to a brick that this call asks, each stored
//!   value is one that a write asked its brick to keep, each reply was made by its brick at a moment of the
//!   brick's history, and what calls heard was sent.
//! - `one_value_per_version` and `acknowledged_values_are_held`: a version stands for one value; each holder
//!   that an acknowledged cookie names has stored it in the incarnation named, and holds it until it
//!   crashes or is swept past the lease and the grace.
//! - `acknowledged_cookies_name_who_stored`, `acknowledged_cookies_stay_acknowledged` and
//!   `acknowledged_cookies_may_be_read`: an acknowledged cookie names the first bricks of its write that
//!   stored, as the events told the write; it stays acknowledged whatever follows; and its 1 to 16 holders
//!   are distinct, so a read of it may begin.
//! - `missed_writes_have_causes`: where a write is missed, too few bricks told it that they stored the value, and
//!   each other has its cause, which is right by what the events told this write and by the brick's history.
//! - `reads_answer_what_was_written`: a read of a cookie that was acknowledged before answers the
//!   acknowledged value, or that the cookie has expired, or the cause of each holder, which is right by the
//!   holder's history and by what the events told this read.
//! - `holders_answer_found`: a holder that neither crashed nor was swept past the lease and the grace, and
//!   was heard, gave the value, unless the link was silent to the read or gave it 64 strays.
//! - `worlds_only_grow` and `answers_stay_in_later_worlds`: a later world has all packets of an earlier one,
//!   longer histories, and its calls, which have heard besides what the events since told them, and whose
//!   answers stay.
//! - `nonces_stay_new`: a nonce that no call has is new until a call begins with it, in whatever order nonces
//!   were drawn and begin.
//! - `events_that_may_not_happen_change_nothing`, and `events_that_may_happen_change_the_world`.
//!
//! A `World` is always one that some events made (`IsMade`, which `World::is_made` hands out), so these hold
//! of it. The calls are those of `ssm_stub`, and the bricks those of `brick_store`; a world keeps
//! beside each brick the list of what happened to it. An event looks at one call, and copies the frame that
//! it is about. A write and a read that begin look their nonce up in an ordered set, so nonces may begin in any
//! order (`World::is_new`). A crash visits each value of its brick, and a sweep those that it removes.
#![tactic(auto)]

mod asking;
mod call;
mod call_list;
mod copies;
mod event;
mod laws;
mod logged_brick;
mod logged_bricks;
mod nonced_call;
mod ordered_nonces;
mod world;
mod world_state;

pub use call::Call;
pub use copies::copied_cookie;
pub use event::{Packet, WorldEvent};
pub use laws::{
    acknowledged_cookies_may_be_read, acknowledged_cookies_name_who_stored,
    acknowledged_cookies_stay_acknowledged, acknowledged_values_are_held,
    answers_stay_in_later_worlds, events_that_may_happen_change_the_world,
    events_that_may_not_happen_change_nothing, holders_answer_found, missed_writes_have_causes,
    nonces_stay_new, one_value_per_version, reads_answer_what_was_written, worlds_are_sound,
    worlds_only_grow,
};
pub use world::World;
