//! What is rebooted at once.

ghost use Rattle.std.specs.Prelude.{◌≡◌};
ghost use Rattle.crash_base.specs.Scope.{holds, same_scope};

use crate::numbers::GroupNo;

/// The most groups, and so the most components, of a deployment. Their numbers are below it.
pub const MAX_GROUPS: u16 = 64;

/// What is rebooted at once.
#[derive(Clone, Copy)]
pub enum Scope {
    /// One recovery group.
    Group(GroupNo),
    /// The whole application: every group.
    App,
}

impl Scope {
    /// Whether this scope holds a group: a group's scope that group, and the application every number below
    /// `MAX_GROUPS`.
    pub fn holds(self, group: GroupNo) -> bool
        ensures { result ≡ holds self group.0 }
    {
        match self {
            Scope::Group(own) => own.0 == group.0,
            Scope::App => group.0 < MAX_GROUPS,
        }
    }

    /// Whether both are the same scope.
    pub fn is_same(self, other: Scope) -> bool
        ensures { result ≡ same_scope self other }
    {
        match (self, other) {
            (Scope::Group(own), Scope::Group(its)) => own.0 == its.0,
            (Scope::App, Scope::App) => true,
            _ => false,
        }
    }
}
