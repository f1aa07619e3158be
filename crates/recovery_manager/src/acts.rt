//! Reboots that were decided on.

ghost use Rattle.std.specs.Prelude.{◌≡◌, ◌&&◌, filter};
ghost use Rattle.recovery_manager.specs.Levels.{is_recent, same_level, has_act, next_level};

use crash_base::{GroupNo, Level, Moment};
use failure_scores::is_within;

/// How many milliseconds an act counts for: a reboot that is decided on no later than that is wider than it.
pub const WIDENED_MILLISECONDS: u64 = 30_000;

/// A reboot that was decided on.
#[derive(Clone, Copy)]
pub struct Act {
    /// When it was decided on.
    pub moment: Moment,
    /// What is rebooted.
    pub level: Level,
}

/// Whether an act is recent.
fn is_recent(act: &Act, now: Moment) -> bool
    ensures { result ≡ is_recent now act.now }
{
    is_within(WIDENED_MILLISECONDS, act.moment, now)
}

/// Whether both are the same level.
fn is_same_level(a: Level, b: Level) -> bool
    ensures { result ≡ same_level a b }
{
    match (a, b) {
        (Level::Group(own), Level::Group(its)) => own.0 == its.0,
        (Level::App, Level::App) => true,
        (Level::Process, Level::Process) => true,
        (Level::Human, Level::Human) => true,
        _ => false,
    }
}

/// Whether an act is a recent one of this level.
fn is_recent_act(act: &Act, level: Level, now: Moment) -> bool
    ensures { result ≡ is_recent now act.now && same_level act.now.level level }
{
    is_recent(act, now) && is_same_level(act.level, level)
}

/// Whether there is a recent act of this level.
fn has_act(acts: &[Act], level: Level, now: Moment) -> bool
    ensures { result ≡ has_act acts.now level now }
{
    acts.iter().any(|act| is_recent_act(act, level, now))
}

/// The level of a group's next reboot. It visits each act at most four times.
pub(crate) fn next_level(acts: &[Act], group: GroupNo, now: Moment) -> Level
    ensures { result ≡ next_level acts.now group now }
{
    if has_act(acts, Level::Human, now) {
        return Level::Human;
    }
    if has_act(acts, Level::Process, now) {
        return Level::Human;
    }
    if has_act(acts, Level::App, now) {
        return Level::Process;
    }
    if has_act(acts, Level::Group(group), now) {
        return Level::App;
    }
    Level::Group(group)
}

/// Drops the acts that count no more.
pub(crate) fn forget(acts: &mut Vec<Act>, now: Moment)
    ensures { acts.new.items ≡ filter (is_recent now) acts.old.items }
{
    acts.retain(|act| is_recent(act, now));
}
