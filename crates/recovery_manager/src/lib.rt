//! When something is to be rebooted, and how much.
//!
//! The manager is told of requests that failed, each with the components that it went through. Three reports of
//! one component within ten seconds bring a reboot of its group; where a reboot within the last thirty seconds did
//! not help, the next one is wider: the application, the process, and at last a person is called:
//!
//! ```text
//! let mut manager = Manager::new(alloc, &deployment)?;
//! match manager.hear(report)? {
//!     Decision::None => {}
//!     Decision::Reboot(level) => ..,      // whoever asked carries it out
//! }
//! ```
//!
//! `hear` takes a report as of the last event's moment where its own is an earlier one. `report` and `journal_full`
//! are told the parts of a report, at moments that do not fall.
//!
//! `docs/RECOVERY.md` has the rule as an operator reads it. `decision_of` of `specs/Decisions` is it, over all
//! reports that no decision consumed and all acts ever decided on, and `specs/Events` says which these are after
//! a list of events. The laws `reports_bring_decisions`, `levels_widen`, `old_acts_do_not_count` and
//! `decisions_consume_reports` say what it comes to.
//!
//! A manager keeps the reports of the last ten seconds and the acts of the last thirty, and the group of each
//! component. What it makes of a report is a function of these (`told` of `specs/Telling`), and by the law
//! `managers_decide_by_all_reports` it decides by them as by all (`StandsFor`). It carries nothing out.
#![tactic(auto)]

mod acts;
mod decision;
mod laws;
mod manager;
mod moments;
mod paths;

pub use acts::{Act, WIDENED_MILLISECONDS};
pub use decision::{Decision, REPORTS_TO_REBOOT};
pub use laws::{
    decisions_consume_reports, levels_widen, managers_decide_by_all_reports,
    new_managers_were_told_nothing, old_acts_do_not_count, reports_bring_decisions,
};
pub use manager::Manager;
