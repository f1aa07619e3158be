//! What the manager hears of requests that failed, and the lines of its decisions.

ghost use Rattle.std.specs.Prelude.{◌≡◌, Some, IfOk, OnOk, string_bytes};
ghost use Rattle.container_core.specs.Container.{ContainerValue};
ghost use Rattle.scenario_text.specs.Answer.{KeepsRefused, answer_of};
ghost use Rattle.seat_lines.specs.Hearing.{decided_text, manager_after, path_of, report_line, report_said};
ghost use Rattle.seat_lines.specs.Site.{AllGoOn};

use crate::seats::Seats;
use crate::texts::decide_text;
use crash_base::{ComponentName, Moment, OutOfMemory, PathList};
use deployment::Deployment;
use failure_scores::{FailureReport, PathReport};
use recovery_manager::Manager;
use scenario_text::{LineAnswer, MAX_PATH, NameList};
use std::alloc::Global;

/// The manager hears a report. The text of its decision.
fn hear_one(
    alloc: Global,
    manager: &mut Manager,
    report: FailureReport,
) -> Result<String, OutOfMemory>
    ensures text { IfOk result (λ text. string_bytes text ≡ decided_text manager.old (Some report)) }
    ensures after { OnOk result (manager.new ≡ manager_after manager.old (Some report)) }
{
    let decision = manager.hear(report)?;
    let text = decide_text(alloc, decision)?;
    Ok(text)
}

/// The manager hears what a step reports, if it reports something. The text of its decision then.
pub(crate) fn hear(
    alloc: Global,
    manager: &mut Manager,
    report: Option<FailureReport>,
) -> Result<String, OutOfMemory>
    ensures text { IfOk result (λ text. string_bytes text ≡ decided_text manager.old report) }
    ensures after { OnOk result (manager.new ≡ manager_after manager.old report) }
{
    match report {
        None => Ok(String::new(alloc)),
        Some(report) => hear_one(alloc, manager, report),
    }
}

/// The components of these names, if each is the name of one.
fn path_of(
    alloc: Global,
    deployment: &Deployment,
    names: &[ComponentName],
) -> Result<Option<PathList>, OutOfMemory>
    ensures { IfOk result (λ path. path ≡ path_of deployment.now names.now) }
{
    let mut path = PathList::new(alloc);
    let mut rest = names;
    while let [name, after @ ..] = rest {
        let Some(component) = deployment.named(name.as_slice()) else {
            return Ok(None);
        };
        path.push(component)?;
        rest = after;
    }
    Ok(Some(path))
}

/// The report of a request that failed at a moment, after it went through the components of these names.
fn report_said(
    alloc: Global,
    deployment: &Deployment,
    names: &NameList,
    moment: Moment,
) -> Result<Option<FailureReport>, OutOfMemory>
    ensures { IfOk result (λ report. report ≡ report_said deployment.now names.now moment) }
{
    if names.len() > MAX_PATH {
        return Ok(None);
    }
    match path_of(alloc, deployment, names.as_slice())? {
        None => Ok(None),
        Some(path) => Ok(Some(FailureReport::Path(PathReport { path, moment }))),
    }
}

impl Seats {
    /// A request is reported that failed at a moment, after it went through the components of these names. The manager
    /// hears it, and its decision is written. Refused where a name is no component's, or where they are more than
    /// `MAX_PATH`. It visits each component for each name, and costs what `Manager::hear` does.
    ///
    /// # Errors
    /// Out of memory. The manager may have heard the report then.
    #[tactic(auto, unfolding(crate::specs::Hearing::report_line))]
    pub fn report_line(
        &mut self,
        alloc: Global,
        deployment: &Deployment,
        names: &NameList,
        now: Moment,
    ) -> Result<LineAnswer, OutOfMemory>
        ensures answer { IfOk result (λ a. answer_of a self.new ≡ report_line deployment.now self.old names.now now) }
        ensures refused { IfOk result (λ a. KeepsRefused a self.old self.new) }
        ensures goes { (container : ContainerValue) → AllGoOn container self.old → AllGoOn container self.new }
    {
        match report_said(alloc, deployment, names, now)? {
            None => Ok(LineAnswer::Refused),
            Some(report) => {
                let text = hear_one(alloc, &mut self.manager, report)?;
                Ok(LineAnswer::Wrote(text))
            }
        }
    }
}
