//! Reports of requests that failed.

ghost use Rattle.std.specs.Prelude.{◌≡◌, length, filter, IfOk};
ghost use Rattle.failure_scores.specs.Scores.{report_of, is_within, is_on, is_recent, counts, score};

use crash_base::{ComponentNo, Moment, OutOfMemory, PathList};
use std::alloc::Global;

/// How many milliseconds a report counts for: it does not where more than these passed since.
pub const SCORED_MILLISECONDS: u64 = 10_000;

/// A request failed.
#[derive(Drop)]
pub struct PathReport {
    /// The components that it went through, in any order. One may stand there several times.
    pub path: PathList,
    /// When it failed.
    pub moment: Moment,
}

/// What a manager is told of a request that failed.
#[derive(Drop)]
pub enum FailureReport {
    /// The components that it went through, and when it failed.
    Path(PathReport),
    /// That it found the journal full, and when.
    JournalFull(Moment),
}

/// Whether no more than these milliseconds passed from a moment until now. None passed where now is earlier.
pub fn is_within(milliseconds: u64, moment: Moment, now: Moment) -> bool
    ensures { result ≡ is_within milliseconds moment now }
{
    now.0.saturating_sub(moment.0) <= milliseconds
}

/// Whether a component is on a path.
fn is_on(component: ComponentNo, path: &[ComponentNo]) -> bool
    ensures { result ≡ is_on component path.now }
{
    path.iter().any(|other| other.0 == component.0)
}

/// Whether a report is recent.
pub(crate) fn is_recent(report: &PathReport, now: Moment) -> bool
    ensures { result ≡ is_recent now report.now }
{
    is_within(SCORED_MILLISECONDS, report.moment, now)
}

/// Whether a report counts for a component.
fn counts(report: &PathReport, component: ComponentNo, now: Moment) -> bool
    ensures { result ≡ counts component now report.now }
{
    is_recent(report, now) && is_on(component, report.path.as_slice())
}

/// How many of these reports count for a component.
fn count_for(reports: &[PathReport], component: ComponentNo, now: Moment) -> usize
    ensures { result ≡ length (filter (counts component now) reports.now) }
{
    reports
        .iter()
        .filter(|report| counts(report, component, now))
        .count()
}

/// The score of a component over these reports. It visits each of them and its path.
pub(crate) fn score_of(reports: &[PathReport], component: ComponentNo, now: Moment) -> u64
    ensures { result ≡ score reports.now component now }
{
    count_for(reports, component, now) as u64
}

/// A report of a path, which is copied. It visits each component.
pub fn report_of(alloc: Global, path: &PathList, moment: Moment) -> Result<PathReport, OutOfMemory>
    ensures { IfOk result (λ report. report ≡ report_of path.now moment) }
{
    let copy = PathList::from_vec(Vec::from_slice(alloc, path.as_slice())?);
    Ok(PathReport { path: copy, moment })
}
