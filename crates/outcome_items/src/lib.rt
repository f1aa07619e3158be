//! What became of each request of a connection: its item, and what follows from it.
//!
//! Whoever serves a request ends with an `Item`. It says what became of the request, and with which cause; what is
//! answered, and what was done for it elsewhere, are functions of it:
//!
//! ```text
//! let item = Item { outcome: ItemOutcome::Ended(RequestOutcome::Page { place, again: false }), .. };
//! let bytes = response_to(alloc, &item.outcome, Some(&done), None, head.close, false)?;
//! ```
//!
//! | Outcome | Answer | In the container | In the windows |
//! |---|---|---|---|
//! | `Refused` | that of the refusal | | |
//! | `SerialsSpent` | try again | | |
//! | `Expired` | `Session expired`, the cookie is cleared | | |
//! | `Lost` | `Session lost`, the cookie is cleared | | |
//! | `Ended`, a page | what its entry answers | its entry, if it added it | with a cookie: passes taken and spent |
//! | `Ended`, `Sentinel`, `Revoked`, `Conflict` or `JournalFull` | try again | | |
//! | `Ended`, `Hung` or `Raised` | `Failed`, 500 | | |
//! | `Ended`, `KeeperFailed` | try again | the mark of the keeper that failed | |
//! | `Overload` | try again | its entry, if it added it | passes refused |
//! | `Missed` | try again | its entry, if it added it | passes taken and spent |
//!
//! `specs/Answers.antt` has the answers as one table, and `specs/Traces.antt` the two columns behind it. The laws say
//! what the tables must be: `failures_are_of_faults_and_pages`, `refusals_are_told_apart`, `cookies_are_of_pages`,
//! `tries_again_keep_cookies`, `requests_add_one_event`, `again_is_already`, `no_pass_stays_out`,
//! `heads_are_answered_as_gets_are` and `responses_are_one`.
//!
//! `report_of` is what the manager that decides on reboots is told of a request: which components one went through that
//! a component has failed; of one that found the journal full, just that; and of any other nothing.
//!
//! The table of answers takes no memory. A page's text is copied once, into the response.
#![tactic(auto)]

mod answering;
mod item;
mod laws;
mod outcome;
mod reporting;

pub use answering::{entry_response, response_to};
pub use item::{Holds, Item, ItemList};
pub use laws::{
    again_is_already, cookies_are_of_pages, failures_are_of_faults_and_pages,
    heads_are_answered_as_gets_are, no_pass_stays_out, refusals_are_told_apart,
    requests_add_one_event, responses_are_one, tries_again_keep_cookies,
};
pub use outcome::ItemOutcome;
pub use reporting::report_of;
