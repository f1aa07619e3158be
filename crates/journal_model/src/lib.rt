//! What the entries of a journal are, and what they mean: the rows that they leave, and the snapshot of them at a
//! place; the status of a group after its reboots; what a call holds until it commits, when a reboot has made it
//! stale, and when what it read or writes was written since; which journals are legal, and how full one is.
//!
//! The container, its journal and its tickets share these types and definitions. The code here is small;
//! the laws in `laws`, `step_laws`, `snapshot_laws` and `reboot_laws` say what the definitions promise to each other.
#![tactic(auto)]

mod bytes;
mod conflict;
mod entry;
mod laws;
mod limits;
mod reboot_laws;
mod snapshot_laws;
mod stale;
mod status;
mod statuses;
mod step_laws;

pub use bytes::{read_bytes, value_bytes, written_bytes};
pub use conflict::Conflict;
pub use entry::{
    ActionEntry, CommitEntry, DoneText, Entry, Mark, MarkList, ReadMark, SessionChange, Touch,
    TouchList,
};
pub use laws::{
    commit_is_in_the_rows, fits_until_commit, generations_add_up, grows_legally, last_write_counts,
    write_takes_its_place,
};
pub use limits::{FullAt, JournalLimits, MAX_ENTRIES, MAX_JOURNAL_BYTES};
pub use reboot_laws::{
    downs_are_found, journals_fill, no_commit_after_a_reboot, stale_calls_stay_stale,
    staleness_shows_in_generations, statuses_are_within, statuses_follow_entries,
    undone_downs_are_found, what_is_down_can_come_up,
};
pub use snapshot_laws::{
    conflicts_are_found, legal_journals_are_serial, lists_show_what_reads_find,
    newest_is_after_the_last_write, reads_still_hold, snapshots_stay,
};
pub use stale::Stale;
pub use status::GroupStatus;
pub use statuses::GroupStatuses;
pub use step_laws::{
    calls_keep_what_they_did, commits_are_found, enters_leave_touches,
    entries_count_what_they_hold, journals_are_full_exactly, puts_are_seen,
    reads_leave_their_marks, tests_are_exact,
};
