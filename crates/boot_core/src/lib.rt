//! One boot: calls over one journal, from their begin to their commit, and reboots between any two of their steps.
//!
//! A call is a ticket that its caller holds. It enters components and leaves them, reads and lists rows, puts rows, and
//! in the end commits: then, and only then, its writes become an entry of the journal, whole, or it leaves nothing. It
//! sees the rows as they were when it began, with its own puts laid over, and commits only where nothing that it read
//! or writes was written since, and only once for its request. A reboot takes a group of components down and brings it
//! up again while calls go on. From its Down on, each call that entered the group is revoked: its every further step is
//! refused, and so is its commit. No other call is revoked.
//!
//! ```text
//! let mut boot = Boot::start(alloc, start)?;
//! let mut ticket = boot.begin(alloc, request, worker)?;
//! if boot.may_enter(&ticket, component) {
//!     boot.enter(&mut ticket, component, method)?;
//! }
//! if boot.is_in_owner(&ticket, id.table) {
//!     let row = boot.read(alloc, &mut ticket, id)?;
//!     boot.put(&mut ticket, write)?;
//! }
//! let down = boot.begin_reboot(Scope::Group(group))?;
//! let up = boot.end_reboot(down);
//! match boot.commit(alloc, &mut keeper, ticket, None) { .. }
//! ```
//!
//! `Boot::journal` hands out that the boot is sound (`IsSound` in `specs/Sound`): its journal is legal, so each commit
//! is whole, once, live and current; it is within its limits; and each row was written by a call that entered the group
//! of the row's owner. The laws `boots_stay_sound`, `calls_go_on_fitting` and `reboots_revoke_calls` say so of the
//! definitions alone, and `journal_model::legal_journals_are_serial` what it means. The steps of a call here are those
//! of a program's call (`boot_steps_follow`), and one that follows a program is refused by nothing but a reboot
//! (`programs_pass_no_limit`), or by a fault plan of a component that it enters.
//!
//! A boot may have fault plans, and a pool with the instances that serve the frames of calls. A component that may be
//! entered fails by the first of its plans that is active, and is then answered `Raised` or `Hung`: from the count of
//! its enterings on that the plan says, until a reboot of its group cures the plan, which one of the plan's level or a
//! wider one does (`enters_fail_by_plans`, `reboots_end_faults`).
//!
//! Refusals come in a fixed order; `enter`, `read`, `list`, `put`, `commit` and `begin_reboot` each have one function
//! in `specs/Refusals` that says which one comes first, and answer exactly that one. Out of memory is apart, and so is
//! a keeper that failed: they are answered only where nothing else refuses, and leave the boot as it was; the call of
//! such a commit has ended. A caller has two duties, and the boot offers the test of each: a component is entered only
//! from one that may call it (`may_enter`), and a row is read, listed or put only from the component that owns its
//! table (`is_in_owner`).
//!
//! A call has all the room of its ticket when it begins. That of a call which committed or was given up is kept for
//! another one, up to sixteen tickets, and else a ticket takes new room. A commit takes exactly the room that its
//! entry needs, and the journal room for one entry more.
#![tactic(auto)]

mod boot;
mod commits;
mod conflicts;
mod enters;
mod idle;
mod laws;
mod plan_laws;
mod program_laws;
mod reads;
mod reboots;
mod refusals;
mod staleness;

pub use boot::{Boot, Deployed, Remains, Start};
pub use call_ticket::{MAX_FRAMES, MAX_MARKS, MAX_STEPS, MAX_WRITES, Ticket, TicketParts};
pub use commit_journal::{
    ActionEntry, CommitEntry, Conflict, DoneText, Entry, FullAt, Journal, JournalLimits,
    MAX_ENTRIES, MAX_JOURNAL_BYTES, Mark, MarkList, ReadMark, SessionChange, Stale, Touch,
    TouchList,
};
pub use laws::{
    boots_stay_sound, calls_go_on_fitting, commits_are_refused_in_order, least_group_is_busy,
    reboots_revoke_calls,
};
pub use naming_table::Binding;
pub use plan_laws::{enters_fail_by_plans, reboots_end_faults};
pub use program_laws::{boot_steps_follow, programs_pass_no_limit};
pub use refusals::{CallRefusal, CommitRefusal, RebootRefusal, Refused, StartRefusal};
pub use row_store::Rows;
