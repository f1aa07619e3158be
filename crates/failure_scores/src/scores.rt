//! Scores of components by the reports that were told.

ghost use Rattle.std.specs.Prelude.{◌≡◌, List, [], ◌∷◌, ◌++◌, OnOk, OnErr, MatchOption, filter};
ghost use Rattle.crash_base.specs.declared.numbers.ComponentNo.{ComponentNo};
ghost use Rattle.failure_scores.specs.declared.report.PathReport.{PathReport};
ghost use Rattle.failure_scores.specs.Scores.{report_of, is_recent, score};
ghost use Rattle.failure_scores.specs.Top.{IsTop};

use crate::report::{PathReport, is_recent, report_of, score_of};
use crate::top::top_of;
use crash_base::{ComponentNo, Moment, OutOfMemory, PathList};
use std::alloc::Global;
use std::marker::Model;

/// The reports that were told, which contracts see in order.
#[derive(Drop)]
pub struct Scores {
    reports: Vec<PathReport>,
}

impl Model for Scores {
    ghost use Rattle.std.specs.Prelude.{List};
    ghost use Rattle.failure_scores.specs.declared.report.PathReport.{PathReport};

    ghost Value = { List PathReport };

    ghost view = { λ s. s.reports.items };
}

/// Drops the reports that count no more.
fn forget(reports: &mut Vec<PathReport>, now: Moment)
    ensures { reports.new.items ≡ filter (is_recent now) reports.old.items }
{
    reports.retain(|report| is_recent(report, now));
}

impl Scores {
    /// No reports. It takes no memory.
    pub fn new(alloc: Global) -> Scores
        ensures { result ≡ [] }
    {
        Scores {
            reports: Vec::new(alloc),
        }
    }

    /// Adds a report of a path, which is copied, at the end. It takes memory for the copy, and visits each of its
    /// components.
    ///
    /// # Errors
    /// `OutOfMemory`, after which nothing changed.
    pub fn add(&mut self, alloc: Global, path: &PathList, moment: Moment) -> Result<(), OutOfMemory>
        ensures ok { OnOk result (self.new ≡ self.old ++ report_of path.now moment ∷ []) }
        ensures err { OnErr result (self.new ≡ self.old) }
    {
        let report = report_of(alloc, path, moment)?;
        self.add_report(report)
    }

    /// Adds a report at the end. It takes memory where there is no room left.
    ///
    /// # Errors
    /// `OutOfMemory`, after which nothing changed.
    pub fn add_report(&mut self, report: PathReport) -> Result<(), OutOfMemory>
        ensures ok { OnOk result (self.new ≡ self.old ++ report ∷ []) }
        ensures err { OnErr result (self.new ≡ self.old) }
    {
        self.reports.push(report)?;
        Ok(())
    }

    /// Takes the last report back. Nothing changes where there is none. It takes no memory.
    pub fn take_back(&mut self)
        ensures last { (reports : List PathReport) (last : PathReport) → self.old ≡ reports ++ last ∷ [] →
            self.new ≡ reports }
        ensures none { self.old ≡ [] → self.new ≡ [] }
    {
        drop(self.reports.pop());
    }

    /// The score of a component: how many reports of the last ten seconds have it on their path. It visits each
    /// report and its path, and takes no memory.
    pub fn score(&self, component: ComponentNo, now: Moment) -> u64
        ensures { result ≡ score self.now component now }
    {
        score_of(&self.reports, component, now)
    }

    /// The component of the greatest score with its score, and of several such the one with the least number.
    /// None exactly where the score of every component is 0. It scores each component on each path, and takes no
    /// memory.
    pub fn top(&self, now: Moment) -> Option<(ComponentNo, u64)>
        ensures { MatchOption result ((c : ComponentNo) → score self.now c now ≡ 0)
            (λ top. IsTop self.now now top.0 top.1) }
    {
        top_of(&self.reports, now)
    }

    /// Drops the reports that count no more, now and later. It visits each report, and takes no memory.
    pub fn forget(&mut self, now: Moment)
        ensures { self.new ≡ filter (is_recent now) self.old }
    {
        forget(&mut self.reports, now);
    }

    /// Drops all reports. It takes no memory.
    pub fn clear(&mut self)
        ensures { self.new ≡ [] }
    {
        self.reports.clear();
    }
}
