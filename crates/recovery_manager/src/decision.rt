//! Decisions.

ghost use Rattle.std.specs.Prelude.{◌≡◌, ◌++◌, length, OnOk, OnErr, slice_get};
ghost use Rattle.recovery_manager.specs.Events.{unconsumed, acts_by};
ghost use Rattle.recovery_manager.specs.Kept.{AreKnown, decision_at, kept_decision};

use crate::acts::{Act, next_level};
use crash_base::{ComponentNo, GroupNo, Level, Moment, OutOfMemory};
use failure_scores::Scores;

/// How many reports of a component bring a reboot.
pub const REPORTS_TO_REBOOT: u64 = 3;

/// What is to be done about a report.
#[derive(Clone, Copy)]
pub enum Decision {
    /// Nothing.
    None,
    /// A reboot of this level.
    Reboot(Level),
}

/// The group of a component.
fn group_at(groups: &[GroupNo], component: ComponentNo) -> Option<GroupNo>
    ensures { result ≡ slice_get groups.now component.0 }
{
    groups.get(component.0 as usize).copied()
}

/// What is to be done for a component that has the reports that bring a reboot: one of its group, or a wider one.
fn reboot_for(groups: &[GroupNo], acts: &[Act], component: ComponentNo, now: Moment) -> Decision
    ensures { result ≡ decision_at acts.now now (slice_get groups.now component.0) }
{
    match group_at(groups, component) {
        Some(group) => Decision::Reboot(next_level(acts, group, now)),
        None => Decision::None,
    }
}

/// What is to be done by these scores and acts.
pub(crate) fn decide(scores: &Scores, groups: &[GroupNo], acts: &[Act], now: Moment) -> Decision
    requires { AreKnown (length groups.now) scores.now }
    ensures { result ≡ kept_decision groups.now scores.now acts.now now }
{
    match scores.top(now) {
        None => Decision::None,
        Some((component, score)) => {
            if score < REPORTS_TO_REBOOT {
                Decision::None
            } else {
                reboot_for(groups, acts, component, now)
            }
        }
    }
}

/// Keeps the act of a decision that a report brought, and drops the reports where it is one to reboot.
pub(crate) fn carry(
    scores: &mut Scores,
    acts: &mut Vec<Act>,
    decision: Decision,
    moment: Moment,
) -> Result<(), OutOfMemory>
    ensures reports { OnOk result (scores.new ≡ unconsumed decision scores.old) }
    ensures acts { OnOk result (acts.new.items ≡ acts.old.items ++ acts_by moment decision) }
    ensures err { OnErr result (scores.new ≡ scores.old) }
    ensures err_acts { OnErr result (acts.new.items ≡ acts.old.items) }
{
    match decision {
        Decision::None => Ok(()),
        Decision::Reboot(level) => {
            acts.push(Act { moment, level })?;
            scores.clear();
            Ok(())
        }
    }
}
