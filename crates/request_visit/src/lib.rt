//! One request from its decision to its item, a step at a time, over any program, container, windows and link.
//!
//! ```text
//! let mut visit = Visit::with_session(alloc, facts, link.counts(), nonce, cookie)?;
//! loop {
//!     match visit.turn() {
//!         Turn::Outside => visit.step_outside(alloc, &mut link)?,          // one send or one receive
//!         Turn::Windows => visit.step_windows(alloc, &mut windows)?,       // one take or one spend
//!         Turn::Inside => visit.step_inside(alloc, &mut container)?,       // one begin, one step or one commit
//!         Turn::Program => visit.open(tries, program),                     // by the session: `visit.lease`
//!         Turn::Own => visit.advance(alloc, key)?,                         // nobody else is asked
//!         Turn::Output => write_all(&mut sink, visit.leave()),
//!         Turn::Over => return visit.into_item(),
//!     }
//! }
//! ```
//!
//! | Stage | Turn | Then |
//! |---|---|---|
//! | `Reading` | `Outside`, and `Own` once the read has its answer | `Opening`, or `Decided` where the session is gone |
//! | `Opening` | `Program` | `Serving` |
//! | `Serving` | `Inside` | a page: `Answered`, or `Committed` where its session is written; else `Decided` |
//! | `Committed` | `Windows`, `Outside`, and `Own` once the write has its answer | `Answered`; `Decided` where passes were refused |
//! | `Decided` | `Own` | `Answered` |
//! | `Answered` | `Output` | `Left` |
//! | `Left` | `Outside` and `Windows`, until the write is settled and its passes are spent | `Over` |
//!
//! Each function makes one step, or none, and its contract says what that leaves: `specs/Stepping.antt` for the steps
//! of the link, the windows and the container, `specs/Serving.antt` and `Ready.antt` for what follows a commit, and
//! `specs/Advancing.antt` for what a request becomes by itself. So anything may happen between
//! two steps.
//!
//! What follows a page of its own is made before its commit (`ready_of`): the response, or the order of the write
//! with a copy of the page. So no want of memory comes between an entry and its response, but where a session is
//! written.
//!
//! `drop_call` and `drop_passes` give up, at any turn, what a request holds.
//!
//! Six laws follow a request over its steps, whatever others do between two of them:
//! `requests_account_for_their_events` (`specs/Accounts.antt`: which events it added to the history of the container),
//! `requests_account_for_their_marks` (`specs/Marks.antt`: which marks it left in that of the windows),
//! `responses_are_of_their_items` (`specs/Says.antt`: what its response says),
//! `requests_account_for_their_sessions` (`specs/Sessions.antt`: what came of the read and of the write of its session;
//! so the cookie that `advance` is to show may be read),
//! `requests_account_for_their_causes` (`specs/Counts.antt`: that the link counted what its causes say), and
//! `requests_go_on` (`specs/Going.antt`: that it may step in the container, as `step_inside` asks). Each ends at the
//! item. The law `pages_follow_their_entries` says what is shown and what is written after a commit.
#![tactic(auto)]

mod advancing;
mod beginning;
mod facts;
mod laws;
mod opening;
mod ready;
mod serving;
mod stepping;
mod visit;
mod work;

pub use facts::VisitFacts;
pub use laws::{
    pages_follow_their_entries, requests_account_for_their_causes,
    requests_account_for_their_events, requests_account_for_their_marks,
    requests_account_for_their_sessions, requests_go_on, responses_are_of_their_items,
};
pub use ready::{Ready, Shown, ready_of};
pub use serving::{Closed, Closing, serve};
pub use visit::{Fate, Turn, Visit, Work};
