//! A workload over a container: four callers put, read, list, commit and reboot as numbers choose that are drawn from
//! one number, and a summary says what came of it.
//!
//! ```text
//! let (keeper, summary) = run_workload(alloc, 7, 20_000, keeper);
//! ```
//!
//! The deployment is that of `work_parts`: A needs B and owns table 40, and C owns table 41; no component has a fault
//! plan, so none fails. Each turn draws the next number (`next_number`), which chooses what one of the callers does
//! with which key (`chosen`). What a turn leaves of the boot, of the caller's call and of the tally is a function of
//! the state and of whether the keeper keeps a commit's writes (`turn` of `specs/Turns.antt`), and the summary is a
//! function of the last state (`summary` of `specs/Summary.antt`). So equal numbers over equal keepers give equal
//! summaries.
#![tactic(auto)]

mod choices;
mod deploying;
mod laws;
mod run;
mod steps;
mod summary;
mod tally;
mod turns;

pub use choices::{Choice, Deed, MAX_TURNS};
pub use laws::{
    choices_are_drawn, commits_are_those_of_the_journal, turns_change_one_caller,
    two_groups_are_deployed,
};
pub use run::{WorkloadFailure, run_workload};
pub use tally::{Outcome, Tally};
