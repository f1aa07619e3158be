//! What the manager that decides on reboots is told of a request, by what became of it.

ghost use Rattle.std.specs.Prelude.{◌≡◌, IfOk};
ghost use Rattle.outcome_items.specs.Reports.{path_report, report_of, report_of_end};

use crate::outcome::ItemOutcome;
use crash_base::{Moment, OutOfMemory, PathList};
use failure_scores::FailureReport;
use request_tries::RequestOutcome;
use std::alloc::Global;

/// The report of a request that a component has failed, which went through these. They are copied.
fn path_report(alloc: Global, moment: Moment, path: &PathList) -> Result<FailureReport, OutOfMemory>
    ensures { IfOk result (λ report. report ≡ path_report moment path.now) }
{
    let report = failure_scores::report_of(alloc, path, moment)?;
    Ok(FailureReport::Path(report))
}

/// What is reported of a request that came to this end in the container.
fn report_of_end(
    alloc: Global,
    moment: Moment,
    end: &RequestOutcome,
) -> Result<Option<FailureReport>, OutOfMemory>
    ensures { IfOk result (λ report. report ≡ report_of_end moment end.now) }
{
    match end {
        RequestOutcome::Hung { path, .. } => {
            let report = path_report(alloc, moment, path)?;
            Ok(Some(report))
        }
        RequestOutcome::Raised { path, .. } => {
            let report = path_report(alloc, moment, path)?;
            Ok(Some(report))
        }
        RequestOutcome::JournalFull(_) => Ok(Some(FailureReport::JournalFull(moment))),
        RequestOutcome::Page { .. }
        | RequestOutcome::Sentinel { .. }
        | RequestOutcome::Revoked(_)
        | RequestOutcome::Conflict(_)
        | RequestOutcome::KeeperFailed => Ok(None),
    }
}

/// What the manager that decides on reboots is told of a request with this moment, by what became of it: that a
/// component has failed it, with the path, which is copied; or that the journal was full. None where it is told
/// nothing.
///
/// It fails only where memory ran out.
pub fn report_of(
    alloc: Global,
    moment: Moment,
    outcome: &ItemOutcome,
) -> Result<Option<FailureReport>, OutOfMemory>
    ensures { IfOk result (λ report. report ≡ report_of moment outcome.now) }
{
    match outcome {
        ItemOutcome::Ended(end) => report_of_end(alloc, moment, end),
        ItemOutcome::Refused(_)
        | ItemOutcome::SerialsSpent { .. }
        | ItemOutcome::Expired { .. }
        | ItemOutcome::Lost(_)
        | ItemOutcome::Overload { .. }
        | ItemOutcome::Missed { .. } => Ok(None),
    }
}
