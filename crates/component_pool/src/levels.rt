//! What a reboot of a level cures.

ghost use Rattle.std.specs.Prelude.{◌≡◌};
ghost use Rattle.component_pool.specs.Cures.{cures, level_of, wider, widest_cures, width};

use crash_base::{Level, Scope};

/// How wide a level is, from the narrowest on.
fn width(level: Level) -> u8
    ensures { result ≡ width level }
{
    match level {
        Level::Group(_) => 0,
        Level::App => 1,
        Level::Process => 2,
        Level::Human => 3,
    }
}

/// Whether a reboot of a level cures what is cured by another one: where it is as wide or wider, in the order group,
/// application, process. Which groups they name does not count.
pub fn cures(level: Level, cured_by: Level) -> bool
    ensures { result ≡ cures level cured_by }
{
    width(cured_by) <= width(level)
}

/// The level at which a scope is rebooted.
pub fn level_of(scope: Scope) -> Level
    ensures { result ≡ level_of scope }
{
    match scope {
        Scope::Group(group) => Level::Group(group),
        Scope::App => Level::App,
    }
}

/// Whether the widest of some reboots cures what is cured by a level.
pub(crate) fn widest_cures(widest: Option<Level>, cured_by: Level) -> bool
    ensures { result ≡ widest_cures widest cured_by }
{
    match widest {
        None => false,
        Some(widest) => cures(widest, cured_by),
    }
}

/// The widest of some reboots and one more.
pub(crate) fn wider(widest: Option<Level>, level: Level) -> Level
    ensures { result ≡ wider widest level }
{
    match widest {
        None => level,
        Some(widest) => { if cures(widest, level) { widest } else { level } }
    }
}
