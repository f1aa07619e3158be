//! Which components the requests that failed of late went through.
//!
//! A report is told of a request that failed: the components that it went through, and when. A component's
//! score is how many of the reports of the last ten seconds have it on their path:
//!
//! ```text
//! let mut scores = Scores::new(alloc);
//! scores.add(alloc, &path, moment)?;         // a request failed, and went through these
//! match scores.top(moment) {
//!     Some((component, score)) => ..,        // no component has a greater score
//!     None => ..,                            // no report counts for any component
//! }
//! scores.clear();                            // something was done about it
//! ```
//!
//! A path that names a component several times counts for it once. Reports may come in any order of their
//! moments, and a score is counted over all of them: `score` of `specs/Scores`. The law
//! `scores_are_counts` says what counts and what no longer does, and `one_component_is_top` that there is
//! only one top: the component that no other outscores, and of several such the one with the least number.
//!
//! `forget` drops the reports that are too old at a moment. By the law `forgotten_reports_score_nothing`
//! nothing that is asked of that moment or a later one is answered differently then.
//!
//! Reports stand in one vector. A score visits each report and its path, and the top does so for each
//! component on each path.
#![tactic(auto)]

mod laws;
mod report;
mod scores;
mod top;

pub use laws::{forgotten_reports_score_nothing, one_component_is_top, scores_are_counts};
pub use report::{FailureReport, PathReport, SCORED_MILLISECONDS, is_within, report_of};
pub use scores::Scores;
