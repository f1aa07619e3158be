//! The container: a boot over the rows of its keeper, and the history of both.
//!
//! A container is started over the rows that its keeper gives, and hands the writes of each commit to the keeper before
//! the commit is answered, whole or not at all. So a container that is started over the same keeper later finds just
//! the rows that this one was started over, with the number of its boot and the writes of the commits that were
//! answered put over them:
//!
//! ```text
//! let mut container = Container::start(alloc, deployment, keeper, plans, limits)?;
//! let ticket = container.begin(alloc, request, worker)?;
//! ..
//! match container.commit(alloc, ticket, None) { .. }
//! let keeper = container.into_keeper();
//! ```
//!
//! Calls enter components, read, list and put rows through the container, which passes them on to its boot and is as it
//! was after each, but that it counts how often each component was entered. A component fails by the fault plans that
//! the container is started with, until a reboot that is wide enough cures it: `Container::enter` says so. A container
//! that is started again has the plans that no reboot cures. `Container::as_boot` lends the boot for what it tells of
//! calls, of its plans, and of the instances that serve.
//!
//! What a container adds is the keeper and the history: its start, its entries, a mark for each commit whose keeper
//! failed, and one for the first `stop`. Each call that takes a container by `&mut` says that its history has grown, so
//! a ticket that fits goes on to fit (`histories_grow`).
#![tactic(auto)]

mod container;
mod history;
mod judging;
mod laws;
mod start;

pub use boot_core::{
    ActionEntry, Binding, Boot, CallRefusal, CommitEntry, CommitRefusal, Conflict, DoneText, Entry,
    FullAt, Journal, JournalLimits, MAX_ENTRIES, MAX_FRAMES, MAX_JOURNAL_BYTES, MAX_MARKS,
    MAX_STEPS, MAX_WRITES, Mark, MarkList, ReadMark, RebootRefusal, Refused, Remains, Rows,
    SessionChange, Stale, Start, StartRefusal, Ticket, TicketParts, Touch, TouchList,
    boots_stay_sound, calls_go_on_fitting, least_group_is_busy, reboots_revoke_calls,
};
pub use container::Container;
pub use history::{Event, HistoryMark, MarkedEvent};
pub use laws::{good_rows_are_apart, histories_grow, keepers_hold_the_rows};
pub use start::StartFail;
