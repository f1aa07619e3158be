//! The names of components, and what each is bound to.

ghost use Rattle.std.specs.Prelude.{◌≡◌, ◌≢◌, ◌<◌, ◌≤◌, ℕ, ◌+◌, ◌^◌, List, [], ◌∷◌, ◌++◌, length, All, true, None, IfOk, if◌then◌else◌};
ghost use Rattle.crash_base.specs.Scope.{holds};
ghost use Rattle.deployment.specs.declared.parts.Parts.{Parts};
ghost use Rattle.journal_model.specs.declared.entry.Entry.{Entry};
ghost use Rattle.journal_model.specs.declared.entry.Entry.TheVariants.{Down, Up};
ghost use Rattle.journal_model.specs.Legal.{AreInTurn, MayEnd};
ghost use Rattle.journal_model.specs.Reboots.{status_of};
ghost use Rattle.journal_model.specs.Statuses.{went_down, came_up};
ghost use Rattle.naming_table.specs.Binding.{binding_in};
ghost use Rattle.naming_table.specs.Names.{new_names, status_at, with_down, with_up, binding_now, Follows};

use crate::binding::{Binding, binding_of};
use crate::bound::{BoundList, BoundName, bound_names, first_bound};
use crash_base::{ComponentName, ComponentNo, GroupNo, MAX_GROUPS, OutOfMemory, Place, Scope};
use deployment::Deployment;
use journal_model::{GroupStatus, GroupStatuses};
use std::alloc::Global;
use std::marker::Model;

/// The names of a deployment's components, and the status of each group.
#[derive(Drop)]
pub struct Names {
    /// By the numbers of components.
    bound: BoundList,
    statuses: GroupStatuses,
}

impl Model for Names {
    ghost use Rattle.naming_table.specs.Names.{NamesValue, AreWhole};

    ghost Value = { NamesValue };

    ghost view = { λ n. record { bound = n.bound; statuses = n.statuses } };

    ghost invariant = { λ n. AreWhole n.bound };
}

/// What a name is bound to, among these names and groups.
fn bound_to(bound: &[BoundName], statuses: &GroupStatuses, name: &[u8]) -> Option<Binding>
    requires few { length bound.now ≤ MAX_GROUPS }
    requires groups { All (λ b. b.group.0 < MAX_GROUPS) bound.now }
    ensures { result ≡
        binding_now (record { bound = bound.now; statuses = statuses.now }) name.now }
{
    let c = first_bound(bound, name)?;
    let group = bound[c].group;
    Some(binding_of(ComponentNo(c as u16), group, statuses.of(group)))
}

impl Names {
    /// The names of a deployment's components, whose groups are all up and were never rebooted. It takes
    /// memory for the names, and copies each of their bytes.
    pub fn new(alloc: Global, deployment: &Deployment) -> Result<Names, OutOfMemory>
        ensures value { IfOk result (λ names. names ≡ new_names deployment.now) }
        ensures follows { IfOk result (λ names. Follows names deployment.now []) }
    {
        let bound = bound_names(alloc, deployment)?;
        Ok(Names {
            bound,
            statuses: GroupStatuses::first(),
        })
    }

    /// What a name is bound to: its component in the present generation where the component's group is up,
    /// and else a sentinel. None exactly where no component has the name. It takes no memory, and visits
    /// each name up to that one, and one group.
    pub fn look(&self, name: &ComponentName) -> Option<Binding>
        ensures value { result ≡ binding_now self.now name.now }
        ensures journal { (parts : Parts) (es : List Entry) →
            Follows self.now parts es → result ≡ binding_in parts es name.now }
    {
        bound_to(self.bound.as_slice(), &self.statuses, name.as_slice())
    }

    /// A group's status. It visits that group alone.
    pub fn status(&self, group: GroupNo) -> GroupStatus
        requires { group.0 < MAX_GROUPS }
        ensures value { result ≡ status_at self.now group.0 }
        ensures journal { (parts : Parts) (es : List Entry) →
            Follows self.now parts es → result ≡ status_of es group.0 }
    {
        self.statuses.of(group)
    }

    /// A group goes down by the Down at this place, and was rebooted once more. It takes no memory.
    pub fn set_down(&mut self, group: GroupNo, down: Place)
        requires within { group.0 < MAX_GROUPS }
        requires up { (status_at self.old group.0).down ≡ None }
        requires few { (status_at self.old group.0).generation + 1 < 2 ^ 64 }
        ensures value { self.new ≡ with_down self.old group.0 down }
        ensures status { status_at self.new group.0 ≡ went_down down (status_at self.old group.0) }
    {
        self.statuses.set_down(group, down);
    }

    /// A group comes up. It takes no memory.
    pub fn set_up(&mut self, group: GroupNo)
        requires within { group.0 < MAX_GROUPS }
        requires down { (status_at self.old group.0).down ≢ None }
        ensures value { self.new ≡ with_up self.old group.0 }
        ensures status { status_at self.new group.0 ≡ came_up (status_at self.old group.0) }
    {
        self.statuses.set_up(group);
    }

    /// Each group that a scope holds goes down by the Down at this place. It takes no memory, and asks the
    /// scope for each of `MAX_GROUPS` groups.
    pub fn set_scope_down(&mut self, scope: Scope, down: Place)
        requires up { (g : ℕ) → g < MAX_GROUPS → holds scope g ≡ true →
            (status_at self.old g).down ≡ None }
        requires few { (g : ℕ) → g < MAX_GROUPS → holds scope g ≡ true →
            (status_at self.old g).generation + 1 < 2 ^ 64 }
        ensures bound { self.new.bound ≡ self.old.bound }
        ensures each { (g : ℕ) → g < MAX_GROUPS → status_at self.new g ≡
            (if holds scope g then went_down down (status_at self.old g)
            else status_at self.old g) }
        ensures journal { (parts : Parts) (es : List Entry) →
            Follows self.old parts es → down.0 ≡ length es →
            Follows self.new parts (es ++ Down scope ∷ []) }
    {
        self.statuses.set_scope_down(scope, down);
    }

    /// Each group that a scope holds comes up. It takes no memory, and asks the scope for each of
    /// `MAX_GROUPS` groups.
    pub fn set_scope_up(&mut self, scope: Scope)
        requires { (g : ℕ) → g < MAX_GROUPS → holds scope g ≡ true →
            (status_at self.old g).down ≢ None }
        ensures bound { self.new.bound ≡ self.old.bound }
        ensures each { (g : ℕ) → g < MAX_GROUPS → status_at self.new g ≡
            (if holds scope g then came_up (status_at self.old g) else status_at self.old g) }
        ensures journal { (parts : Parts) (es : List Entry) →
            Follows self.old parts es → AreInTurn es → MayEnd es scope →
            Follows self.new parts (es ++ Up scope ∷ []) }
    {
        self.statuses.set_scope_up(scope);
    }
}
