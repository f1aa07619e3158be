//! What one request does with its session: it is read before the action, written after it where that is called for, and
//! settled after the response has left.
//!
//! ```text
//! let mut way = SessionWay::Reading(SessionRead::new(alloc, now, nonce, cookie)?);
//! while let Wants::Outside = way.wants() { way.step_outside(alloc, &mut link)?; }
//! let SessionWay::Reading(read) = way else { unreachable!() };
//! let outcome = read.into_outcome();                     // found with its key and expiry, expired, or lost
//! // the action runs; `value_to_write` says whether its session is written, and which value
//! let mut way = SessionWay::Ordered(order);
//! way.step_windows(alloc, &mut windows)?;                // passes are taken, and the write begins
//! while let Wants::Outside = way.wants() { way.step_outside(alloc, &mut link)?; }
//! let SessionWay::Writing(write) = &way else { unreachable!() };
//! match write.answer() { .. }                            // a cookie for the response, or why it was missed
//! // the response leaves
//! way.settle();
//! while let Wants::Outside = way.wants() { way.step_outside(alloc, &mut link)?; }
//! let outcome = way.step_windows(alloc, &mut windows)?;  // the passes are spent; the cookie or the causes leave
//! ```
//!
//! A way is an enum of stages, `SessionWay`, and `wants` says whose step is next: the outside's, of which each is one
//! send or one receive of the link, or the windows', of which each is one take or one spend. So anything may happen
//! between two steps. `step_outside` is exactly one step of the machine of `ssm_stub` that the stage holds
//! (`StepsOutside`), over any link, and `step_windows` exactly one take or one spend (`StepsWindows`). `give_back`
//! spends the passes that are held at any stage, an unheard one as Silent, and takes no memory.
//!
//! What a write came to is looked at by reference while its bricks are still heard, and is handed on by value once its
//! passes are spent, or at once by `SessionWrite::into_parts`: so no cookie and no list of causes is copied. The text
//! of a cookie is made from the reference, by `session_cookie::encode_cookie`.
//!
//! The laws: `runs_go_on` says that steps without a gap are one run (`HasRead`, `HasWritten`), and
//! `ways_end_as_calls_do` that a run with an answer has ended as `read` and `write` of `ssm_stub` end, so that their
//! laws say what the answer means; where nothing is wanted there is an answer (`ways_have_answers`).
//! `writes_follow_their_orders` says what is sent, and by which passes; and `ways_tell_how_they_began` that a read
//! tells its cookie, and a write its order. `no_pass_is_lost` follows the passes: those that were taken are those that
//! are spent; `takes_are_spent_once` follows their marks in the history of the windows, and `settled_passes_are_heard`
//! says by what they are spent. `sessions_are_renewed` says when a session is written, and how long it lasts.
//!
//! A step costs what a step of `ssm_stub` costs. The value is copied once for its write, and the cookie once for its
//! read.
#![tactic(auto)]

mod laws;
mod lease;
mod session_read;
mod session_write;
mod way;

pub use laws::{
    no_pass_is_lost, runs_go_on, sessions_are_renewed, settled_passes_are_heard,
    takes_are_spent_once, ways_end_as_calls_do, ways_have_answers, ways_tell_how_they_began,
    writes_follow_their_orders,
};
pub use lease::{LEASE, RENEWAL, SessionLease, expiry_at, value_to_write};
pub use session_read::{ReadOutcome, SessionRead};
pub use session_write::{SessionWrite, WriteOrder, WriteOutcome, WriteParts};
pub use way::{SessionWay, Wants};
