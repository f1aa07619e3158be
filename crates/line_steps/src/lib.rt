//! What the lines of a scenario do that call no keeper: to what the head says, and to live calls.
//!
//! A line is refused, or is done and writes its text. What each line does is defined as a function of the state before
//! it, whose value is the answer: the state that the line leaves, and the text. A line of a call that enters a
//! component counts that in the boot, and changes nothing else of it; where memory ran out, it changes nothing.
//!
//! ```text
//! let mut head = Head::new(alloc);
//! head_line(alloc, &mut head, line)?;          // component, hard, soft, owns, fault, limit, site
//! let mut callers = Callers::new(alloc);
//! if callers.can_begin(7) {
//!     callers.pad(7)?;
//!     callers.put(7, container.begin(alloc, request_of(container.boot(), 7), WorkerNo(7))?);
//! }
//! callers.call_step(alloc, &mut container, 7, CallLine::Exit)?;
//! let ticket = callers.take(7);                // to be committed, or dropped
//! ```
//!
//! `head_line` keeps the parts of the head such that a deployment accepts them, which are those of the site where it
//! was named, and `Callers` keeps the calls such that each fits its boot. A line visits its bytes and those that it
//! writes, and what its call of the boot visits. `sites_have_three_bricks` says which bricks the site has.
#![tactic(auto)]

mod call_lines;
mod callers;
mod copying;
mod head;
mod laws;
mod tables;
mod texts;

pub use call_lines::call_line;
pub use callers::{Caller, Callers, request_of};
pub use head::{Head, SITE_BRICKS, SITE_LEAST, SITE_MOST, head_line};
pub use laws::sites_have_three_bricks;
pub use tables::{LAST_TABLE, table_of};
pub use texts::{
    boot_text, commit_refusal_text, committed_text, down_text, journal_text, list_answer_text,
    reboot_refusal_text, rebooted_text, refusal_text, row_answer_text, table_text, up_text,
};
