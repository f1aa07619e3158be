//! The status of each group.

ghost use Rattle.std.specs.Prelude.{◌≡◌, ◌≢◌, ◌<◌, ℕ, ◌+◌, ◌^◌, List, [], ◌∷◌, ◌++◌, length, true, None};
ghost use Rattle.crash_base.specs.Scope.{holds};
ghost use Rattle.journal_model.specs.declared.entry.Entry.{Entry};
ghost use Rattle.journal_model.specs.declared.entry.Entry.TheVariants.{Down, Up};
ghost use Rattle.journal_model.specs.Legal.{AreInTurn, MayEnd};
ghost use Rattle.journal_model.specs.Reboots.{status_of};
ghost use Rattle.journal_model.specs.Statuses.{statuses_first, status_in, went_down, came_up, set_down, set_up, changed, AreStatuses};

use crate::status::GroupStatus;
use crash_base::{GroupNo, MAX_GROUPS, Place, Scope};
use std::marker::Model;

/// The status of each of `MAX_GROUPS` groups.
#[derive(Drop)]
pub struct GroupStatuses {
    /// By the numbers of groups, so that a look for a group visits one of them.
    statuses: [GroupStatus; MAX_GROUPS as usize],
}

impl Model for GroupStatuses {
    ghost use Rattle.std.specs.Prelude.{◌≡◌, List, length};
    ghost use Rattle.crash_base.specs.declared.scope.TheConstants.{MAX_GROUPS};
    ghost use Rattle.journal_model.specs.declared.status.GroupStatus.{GroupStatus};

    ghost Value = { List GroupStatus };

    ghost view = { λ s. s.statuses };

    ghost invariant = { λ s. length s.statuses ≡ MAX_GROUPS };
}

impl GroupStatuses {
    /// Groups that are all up and were never rebooted.
    #[tactic(auto, unfolding(crate::specs::Statuses::statuses_first))]
    pub fn first() -> GroupStatuses
        ensures value { result ≡ statuses_first }
        ensures journal { AreStatuses result [] }
    {
        GroupStatuses {
            statuses: [GroupStatus {
                generation: 0,
                down: None,
            }; MAX_GROUPS as usize],
        }
    }

    /// A group's status. It visits that group alone.
    pub fn of(&self, group: GroupNo) -> GroupStatus
        requires { group.0 < MAX_GROUPS }
        ensures value { result ≡ status_in self.now group.0 }
        ensures journal { (es : List Entry) →
            AreStatuses self.now es → result ≡ status_of es group.0 }
    {
        self.statuses[group.0 as usize]
    }

    /// A group goes down by the Down at this place, and was rebooted once more. It takes no memory.
    pub fn set_down(&mut self, group: GroupNo, down: Place)
        requires within { group.0 < MAX_GROUPS }
        requires few { (status_in self.old group.0).generation + 1 < 2 ^ 64 }
        ensures value { self.new ≡ set_down self.old group.0 down }
        ensures status { status_in self.new group.0 ≡ went_down down (status_in self.old group.0) }
    {
        let status = &mut self.statuses[group.0 as usize];
        status.generation += 1;
        status.down = Some(down);
    }

    /// A group comes up. It takes no memory.
    pub fn set_up(&mut self, group: GroupNo)
        requires { group.0 < MAX_GROUPS }
        ensures value { self.new ≡ set_up self.old group.0 }
        ensures status { status_in self.new group.0 ≡ came_up (status_in self.old group.0) }
    {
        self.statuses[group.0 as usize].down = None;
    }

    /// Each group that a scope holds goes down by the Down at this place. It takes no memory, and asks the
    /// scope for each of `MAX_GROUPS` groups.
    pub fn set_scope_down(&mut self, scope: Scope, down: Place)
        requires up { (g : ℕ) → g < MAX_GROUPS → holds scope g ≡ true →
            (status_in self.old g).down ≡ None }
        requires few { (g : ℕ) → g < MAX_GROUPS → holds scope g ≡ true →
            (status_in self.old g).generation + 1 < 2 ^ 64 }
        ensures each { (g : ℕ) → g < MAX_GROUPS →
            status_in self.new g ≡ changed scope (went_down down) self.old g }
        ensures journal { (es : List Entry) → AreStatuses self.old es → down.0 ≡ length es →
            AreStatuses self.new (es ++ Down scope ∷ []) }
    {
        for number in 0..MAX_GROUPS {
            let group = GroupNo(number);
            if scope.holds(group) {
                self.set_down(group, down);
            }
        }
    }

    /// Each group that a scope holds comes up. It takes no memory, and asks the scope for each of
    /// `MAX_GROUPS` groups.
    pub fn set_scope_up(&mut self, scope: Scope)
        ensures each { (g : ℕ) → g < MAX_GROUPS →
            status_in self.new g ≡ changed scope came_up self.old g }
        ensures journal { (es : List Entry) → AreStatuses self.old es → AreInTurn es →
            MayEnd es scope → AreStatuses self.new (es ++ Up scope ∷ []) }
    {
        for number in 0..MAX_GROUPS {
            let group = GroupNo(number);
            if scope.holds(group) {
                self.set_up(group);
            }
        }
    }
}
