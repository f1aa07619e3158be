//! The ticket of a call: all that the call holds until it ends, in room that was taken at its begin.
//!
//! A ticket cannot be cloned, so a call ends once. Each change of it is one step, and takes no memory:
//!
//! ```text
//! let mut ticket = Ticket::new(alloc, request, worker, at)?;
//! ticket.push_frame(component, instance, touch);
//! ticket.add_read(Some(ReadMark::Row(id)), value);
//! if ticket.steps() < MAX_STEPS && !ticket.is_full_for(write.id) {
//!     ticket.add_put(write);
//! }
//! let instance = ticket.pop_frame();
//! ticket.close_frames(&mut pool);
//! let parts = ticket.take_parts(alloc)?;
//! ticket.renew(next, worker, at);
//! ```
//!
//! Contracts see a ticket as its call, and each change gives the exact value that it leaves. Its limits hold at all
//! times, so a caller that keeps to the `requires` of a change needs no other test. Which rows and components these
//! are is the caller's affair. An instance serves each open frame: a token of a pool (`component_pool`), which cannot
//! be made or cloned, so the ticket has it alone until the frame is closed or the call ends.
//!
//! A ticket ends in one of two ways: `into_parts` gives its vectors away with the room that they have, and
//! `take_parts` moves the items into vectors that are just large enough, so that the ticket can be renewed.
//!
//! A `Program` says which steps a call makes: the next one depends on the answers so far alone. Its run over rows
//! answers each step from them, with its own puts laid over. So a run over other rows that are the same in all that
//! it read is equal (`equal_answers`), and what a commit did at the begin of its call is what it would do where it
//! commits (`serial_order`). A call that follows its program meets each condition of each step (`calls_follow`). A step
//! whose answer did not come may be made again, but for an enter by a method that says otherwise
//! (`steps_are_repeated`).
#![tactic(auto)]

mod limits;
mod next;
mod parts;
mod program;
mod program_laws;
mod search;
mod ticket;

pub use limits::{MAX_FRAMES, MAX_MARKS, MAX_STEPS, MAX_WRITES};
pub use next::{Answer, AnswerList, Next};
pub use parts::{InstanceList, TicketParts};
pub use program::Program;
pub use program_laws::{calls_follow, equal_answers, serial_order, steps_are_repeated};
pub use ticket::Ticket;
