//! What a pool knows of a component.

ghost use Rattle.std.specs.Prelude.{◌≡◌, true};
ghost use Rattle.component_pool.specs.Pool.{has_next, once_entered, once_rebooted};

use crate::levels::wider;
use crash_base::{GroupNo, Level, Scope};

/// What a pool knows of a component.
#[derive(Clone, Copy)]
pub struct PooledComponent {
    /// The group that it is rebooted with.
    pub group: GroupNo,
    /// How often it was entered. It is counted up to `u64::MAX`.
    pub entered: u64,
    /// How often its group was rebooted.
    pub generation: u64,
    /// The widest level of these reboots. None where there was none.
    pub widest: Option<Level>,
}

impl PooledComponent {
    /// Whether it may be rebooted with a scope once more: its generation is not the greatest that there is.
    pub(crate) fn has_next(self, scope: Scope) -> bool
        ensures { result ≡ has_next scope self }
    {
        !scope.holds(self.group) || self.generation < u64::MAX
    }

    /// This one, entered once more.
    pub(crate) fn once_entered(self) -> PooledComponent
        ensures { result ≡ once_entered self }
    {
        PooledComponent {
            entered: self.entered.saturating_add(1),
            ..self
        }
    }

    /// This one, once the groups of a scope were rebooted at a level.
    pub(crate) fn once_rebooted(self, scope: Scope, level: Level) -> PooledComponent
        requires { has_next scope self ≡ true }
        ensures { result ≡ once_rebooted scope level self }
    {
        if scope.holds(self.group) {
            PooledComponent {
                generation: self.generation + 1,
                widest: Some(wider(self.widest, level)),
                ..self
            }
        } else {
            self
        }
    }
}
