//! Moments of reports.

ghost use Rattle.std.specs.Prelude.{◌≡◌};
ghost use Rattle.recovery_manager.specs.Events.{later, no_earlier};

use crash_base::Moment;
use failure_scores::{FailureReport, PathReport};

/// The later of two moments.
fn later(a: Moment, b: Moment) -> Moment
    ensures { result ≡ later a b }
{
    if a.0 < b.0 { b } else { a }
}

/// A report at no earlier a moment than this one. Its path is not copied.
#[tactic(auto, unfolding(crate::specs::Events::no_earlier))]
pub(crate) fn no_earlier(report: FailureReport, moment: Moment) -> FailureReport
    ensures { result ≡ no_earlier moment report }
{
    match report {
        FailureReport::Path(report) => FailureReport::Path(PathReport {
            path: report.path,
            moment: later(moment, report.moment),
        }),
        FailureReport::JournalFull(at) => FailureReport::JournalFull(later(moment, at)),
    }
}
