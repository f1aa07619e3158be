//! The manager.

ghost use Rattle.std.specs.Prelude.{◌≡◌, ◌≤◌, List, [], ◌∷◌, ◌++◌, IfOk, OnOk, OnErr, filter};
ghost use Rattle.crash_base.specs.declared.numbers.Level.TheVariants.{Process};
ghost use Rattle.deployment.specs.declared.parts.Parts.{Parts};
ghost use Rattle.failure_scores.specs.declared.report.FailureReport.TheVariants.{Path, JournalFull};
ghost use Rattle.failure_scores.specs.Scores.{report_of};
ghost use Rattle.recovery_manager.specs.declared.decision.Decision.TheVariants.{Reboot};
ghost use Rattle.recovery_manager.specs.Events.{ManagerEvent, Reported, JournalFilled, decision_after, last_moment, no_earlier};
ghost use Rattle.recovery_manager.specs.Kept.{StandsFor};
ghost use Rattle.recovery_manager.specs.Telling.{new_manager, told, handed_on};

use crate::acts::{Act, forget};
use crate::decision::{Decision, carry, decide};
use crate::moments::no_earlier;
use crate::paths::{groups_of, known_path};
use crash_base::{GroupNo, Level, Moment, OutOfMemory, PathList};
use deployment::Deployment;
use failure_scores::{FailureReport, PathReport, Scores, report_of};
use std::alloc::Global;
use std::marker::Model;

/// What decides on reboots.
#[derive(Drop)]
pub struct Manager {
    /// By the numbers of components.
    groups: Vec<GroupNo>,
    scores: Scores,
    acts: Vec<Act>,
    latest: Moment,
}

impl Model for Manager {
    ghost use Rattle.std.specs.Prelude.{length};
    ghost use Rattle.recovery_manager.specs.Kept.{AreKnown, ManagerValue};

    ghost Value = { ManagerValue };

    ghost view = { λ m. record {
      groups = m.groups.items;
      reports = m.scores;
      acts = m.acts.items;
      latest = m.latest;
    } };

    ghost invariant = { λ m. AreKnown (length m.groups.items) m.scores };
}

impl Manager {
    /// A manager of a deployment, which was told of nothing. It takes memory for a number for each component.
    #[tactic(auto, unfolding(crate::specs::Telling::new_manager))]
    pub fn new(alloc: Global, deployment: &Deployment) -> Result<Manager, OutOfMemory>
        ensures value { IfOk result (λ manager. manager ≡ new_manager deployment.now) }
        ensures events { IfOk result (λ manager. StandsFor manager deployment.now []) }
    {
        let groups = groups_of(alloc, deployment)?;
        Ok(Manager {
            groups,
            scores: Scores::new(alloc),
            acts: Vec::new(alloc),
            latest: Moment(0),
        })
    }

    /// The moment of the last event, and 0 before the first. It takes no memory.
    pub fn latest(&self) -> Moment
        ensures value { result ≡ self.now.latest }
        ensures events { (parts : Parts) (events : List ManagerEvent) → StandsFor self.now parts events →
            result ≡ last_moment events }
    {
        self.latest
    }

    /// What is to be done about a report that is handed on: one of an earlier moment than the last event is taken as of
    /// that event's. It does what `report` and `journal_full` do. It takes memory where there is no room left for the
    /// report and for an act.
    ///
    /// # Errors
    /// `OutOfMemory`, after which nothing changed.
    pub fn hear(&mut self, report: FailureReport) -> Result<Decision, OutOfMemory>
        ensures decision { IfOk result (λ decision.
            decision ≡ (told self.old (handed_on self.old report)).decision) }
        ensures after { OnOk result (self.new ≡ (told self.old (handed_on self.old report)).manager) }
        ensures err { OnErr result (self.new ≡ self.old) }
    {
        let report = no_earlier(report, self.latest);
        self.tell(report)
    }

    /// What is to be done about a request that failed at a moment, after it went through the components on a path.
    /// A number that is no component's counts for nothing. Where the decision is to reboot, it is kept as an act, and
    /// all reports so far are consumed. It visits each recent report for each component on the paths of them, and each
    /// recent act a few times. It takes memory for the path and for an act.
    ///
    /// # Errors
    /// `OutOfMemory`, after which nothing changed.
    pub fn report(
        &mut self,
        alloc: Global,
        path: &PathList,
        moment: Moment,
    ) -> Result<Decision, OutOfMemory>
        requires in_order { self.old.latest.0 ≤ moment.0 }
        ensures decision { (parts : Parts) (events : List ManagerEvent) → StandsFor self.old parts events →
            IfOk result (λ decision. decision ≡ decision_after parts events (report_of path.now moment)) }
        ensures after { (parts : Parts) (events : List ManagerEvent) → StandsFor self.old parts events →
            IfOk result (λ decision. StandsFor self.new parts
            (events ++ Reported (report_of path.now moment) decision ∷ [])) }
        ensures latest { IfOk result (λ _. self.new.latest ≡ moment) }
        ensures err { OnErr result (self.new ≡ self.old) }
    {
        let report = report_of(alloc, path, moment)?;
        let decision = self.tell(FailureReport::Path(report))?;
        Ok(decision)
    }

    /// What is to be done about a journal that is full at a moment: the process is rebooted. It is kept as an act, and
    /// consumes no reports. It visits each recent report and act, and takes memory for the act.
    ///
    /// # Errors
    /// `OutOfMemory`, after which nothing changed.
    pub fn journal_full(&mut self, moment: Moment) -> Result<Decision, OutOfMemory>
        requires in_order { self.old.latest.0 ≤ moment.0 }
        ensures decision { IfOk result (λ decision. decision ≡ Reboot Process) }
        ensures after { (parts : Parts) (events : List ManagerEvent) → StandsFor self.old parts events →
            IfOk result (λ _. StandsFor self.new parts (events ++ JournalFilled moment ∷ [])) }
        ensures latest { IfOk result (λ _. self.new.latest ≡ moment) }
        ensures err { OnErr result (self.new ≡ self.old) }
    {
        let decision = self.tell(FailureReport::JournalFull(moment))?;
        Ok(decision)
    }

    /// What is to be done about a report.
    fn tell(&mut self, report: FailureReport) -> Result<Decision, OutOfMemory>
        ensures decision { IfOk result (λ decision. decision ≡ (told self.old report).decision) }
        ensures after { OnOk result (self.new ≡ (told self.old report).manager) }
        ensures err { OnErr result (self.new ≡ self.old) }
    {
        match report {
            FailureReport::Path(report) => self.tell_path(report),
            FailureReport::JournalFull(moment) => self.tell_full(moment),
        }
    }

    /// What is to be done about the report of a path.
    fn tell_path(&mut self, report: PathReport) -> Result<Decision, OutOfMemory>
        ensures decision { IfOk result (λ decision. decision ≡ (told self.old (Path report)).decision) }
        ensures after { OnOk result (self.new ≡ (told self.old (Path report)).manager) }
        ensures err { OnErr result (self.new ≡ self.old) }
    {
        let moment = report.moment;
        let path = known_path(report.path, self.groups.len());
        self.scores.add_report(PathReport { path, moment })?;
        let decision = decide(&self.scores, &self.groups, &self.acts, moment);
        if let Err(want) = carry(&mut self.scores, &mut self.acts, decision, moment) {
            self.scores.take_back();
            return Err(want);
        }
        self.scores.forget(moment);
        forget(&mut self.acts, moment);
        self.latest = moment;
        Ok(decision)
    }

    /// What is to be done about a journal that was full.
    fn tell_full(&mut self, moment: Moment) -> Result<Decision, OutOfMemory>
        ensures decision { IfOk result (λ decision. decision ≡ (told self.old (JournalFull moment)).decision) }
        ensures after { OnOk result (self.new ≡ (told self.old (JournalFull moment)).manager) }
        ensures err { OnErr result (self.new ≡ self.old) }
    {
        let level = Level::Process;
        self.acts.push(Act { moment, level })?;
        self.scores.forget(moment);
        forget(&mut self.acts, moment);
        self.latest = moment;
        Ok(Decision::Reboot(level))
    }
}
