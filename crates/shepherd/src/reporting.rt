//! What a connection reports of its requests that failed.

ghost use Rattle.std.specs.Prelude.{◌≡◌, ◌↔◌, IfOk, None, Some};
ghost use Rattle.container_core.specs.Container.{ContainerValue, events_of};
ghost use Rattle.crash_base.specs.declared.numbers.Moment.{Moment};
ghost use Rattle.failure_scores.specs.declared.report.FailureReport.{FailureReport};
ghost use Rattle.failure_scores.specs.declared.report.FailureReport.TheVariants as reports;
ghost use Rattle.failure_scores.specs.declared.report.PathReport.{PathReport};
ghost use Rattle.request_tries.specs.Serving.{errand_of};
ghost use Rattle.request_visit.specs.Stepping.{OnServing, VisitsInside};
ghost use Rattle.shepherd.specs.Reports.{FoundFull, HasFailed, TellsOfEnd, report_by, report_in};
ghost use Rattle.shepherd.specs.Shepherds.{turn};
ghost use Rattle.shepherd.specs.Steps.{OnVisit, ShepherdSteps};
ghost use Rattle.shepherd.specs.declared.shepherd.Shepherd.{Shepherd};

use crate::shepherd::{Shepherd, ShepherdTurn, Stage};
use call_ticket::Program;
use crash_base::{Moment, OutOfMemory};
use failure_scores::FailureReport;
use outcome_items::report_of;
use request_visit::Work;
use std::alloc::Global;

/// What is reported of a request with this moment that has come so far.
fn report_by<P>(
    alloc: Global,
    moment: Moment,
    work: &Work<P>,
) -> Result<Option<FailureReport>, OutOfMemory>
    ensures { IfOk result (λ report. report ≡ report_by moment work.now) }
{
    match work {
        Work::Decided(became) => report_of(alloc, moment, became),
        Work::Reading
        | Work::Opening
        | Work::Serving(_, _)
        | Work::Committed { .. }
        | Work::Answered(_, _)
        | Work::Left(_) => Ok(None),
    }
}

impl<P> Stage<P> {
    /// What is reported of the request that is open.
    #[tactic(auto, unfolding(crate::specs::Reports::report_in))]
    fn report(&self, alloc: Global) -> Result<Option<FailureReport>, OutOfMemory>
        ensures { IfOk result (λ report. report ≡ report_in self.now) }
    {
        match self {
            Stage::Serving(visit, _) => report_by(alloc, visit.facts.now, &visit.work),
            Stage::Resting => Ok(None),
            Stage::Refusing(_, _) => Ok(None),
            Stage::Over(_) => Ok(None),
        }
    }
}

impl<P> Shepherd<P> {
    /// Right behind a step in the container: what the manager that decides on reboots is to be told of the request that
    /// is open. It takes memory for a copy of the path.
    ///
    /// # Errors
    /// There is no memory.
    pub fn report(&self, alloc: Global) -> Result<Option<FailureReport>, OutOfMemory>
        ensures { IfOk result (λ report. report ≡ report_in self.now.stage) }
    {
        self.stage.report(alloc)
    }
}

/// What is reported behind a step in the container. A path is reported exactly where a component has failed the
/// request, which went through these, and a full journal exactly where the request found it so; with the moment of the
/// request. Nothing is reported of a request that goes on, and what is reported is what its end tells, which stands in
/// the history.
pub fn failed_requests_are_reported<P: Program>()
    ensures failed { (s : Shepherd P) (r : PathReport) → (report_in s.stage ≡ Some (reports.Path r))
        ↔ OnVisit s.stage (λ v call. HasFailed r.path r.moment v) }
    ensures full { (s : Shepherd P) (moment : Moment) → (report_in s.stage ≡ Some (reports.JournalFull moment))
        ↔ OnVisit s.stage (λ v call. FoundFull moment v) }
    ensures goes_on { (s : Shepherd P) → turn s ≡ ShepherdTurn.Inside → report_in s.stage ≡ None }
    ensures told { (old new : Shepherd P) (container after : ContainerValue) (report : FailureReport)
        → ShepherdSteps (λ v w. VisitsInside P.asks v container w after) old new → report_in new.stage ≡ Some report
        → OnVisit old.stage (λ v call. OnServing v.work (λ tries program. TellsOfEnd after.boot.start (events_of after)
        (errand_of tries (P.asks program)) v.facts.now report)) }
{}
