//! The instances and the fault plans of a deployment's components.

ghost use Rattle.std.specs.Prelude.{◌≡◌, ◌≢◌, ◌<◌, ◌≤◌, ◌↔◌, ℕ, ◌+◌, ◌==◌, List, [], length, true, false, Some, IfOk, OnOk, OnErr, IsTrue, is_some, count_by, if◌then◌else◌, slice_index_or, vec_capacity};
ghost use Rattle.std.specs.List.{list_all};
ghost use Rattle.crash_base.specs.declared.fault_plans.FaultPlan.{FaultPlan};
ghost use Rattle.crash_base.specs.declared.numbers.Level.{Level};
ghost use Rattle.crash_base.specs.declared.scope.Scope.TheVariants.{Group};
ghost use Rattle.deployment.specs.declared.parts.Parts.{Parts};
ghost use Rattle.deployment.specs.Groups.{group_of};
ghost use Rattle.component_pool.specs.Cures.{level_of};
ghost use Rattle.component_pool.specs.Instances.{HasTaken, has_taken, idle_of, instance_in};
ghost use Rattle.component_pool.specs.Plans.{active_plan, counted};
ghost use Rattle.component_pool.specs.Pool.{AreFresh, AreGivenBack, AreLeftIdle, HaveEntered, HaveRebooted, MayReboot, StandsFor, active_now, component_in, entered_in, given_back, has_next, new_component, none_entered, once_more, one_more, rebooted_at};

use crate::component::PooledComponent;
use crate::instance::{Instance, InstanceNo};
use crate::instances::Instances;
use crate::levels::level_of;
use crate::plans::first_active;
use crash_base::{
    ComponentNo, FaultKind, FaultList, GroupNo, Level, MAX_GROUPS, OutOfMemory, Scope,
};
use deployment::{Deployment, components_are_alone};
use std::alloc::Global;
use std::marker::Model;

/// The instances and the fault plans of a deployment's components.
#[derive(Drop)]
pub struct Pool {
    /// As they were given. Which are cured is known by the components.
    plans: FaultList,
    /// By their numbers. Those past the components of the deployment are never used.
    components: [PooledComponent; MAX_GROUPS as usize],
    instances: Instances,
}

impl Model for Pool {
    ghost use Rattle.component_pool.specs.Pool.{PoolValue, IsPool};

    ghost Value = { PoolValue };

    ghost view = { λ p. record { plans = p.plans; components = p.components; instances = p.instances } };

    ghost invariant = { λ p. IsPool p.components p.instances };
}

/// The group of a component, and of a number without one that number.
fn group_of(deployment: &Deployment, number: u16) -> GroupNo
    ensures { result.0 ≡ group_of deployment.now number }
{
    if (number as usize) < deployment.parts().components.len() {
        deployment.group_of(ComponentNo(number))
    } else {
        components_are_alone();
        GroupNo(number)
    }
}

/// What is known of components that were never entered and never rebooted.
fn new_components(deployment: &Deployment) -> [PooledComponent; MAX_GROUPS as usize]
    ensures many { length result ≡ MAX_GROUPS }
    ensures new { (c : ℕ) → c < MAX_GROUPS →
        component_in result c ≡ new_component (group_of deployment.now c) }
{
    let mut components = [PooledComponent {
        group: GroupNo(0),
        entered: 0,
        generation: 0,
        widest: None,
    }; MAX_GROUPS as usize];
    for number in 0..MAX_GROUPS {
        components[number as usize] = PooledComponent {
            group: group_of(deployment, number),
            entered: 0,
            generation: 0,
            widest: None,
        };
    }
    components
}

/// Counts an entering of a component.
fn enter(components: &mut [PooledComponent], c: u16)
    requires { c < length components.old }
    ensures { HaveEntered components.old components.new c }
{
    components[c as usize] = components[c as usize].once_entered();
}

/// Gives an instance back: it is idle where it is of the present generation of its component, and else it is removed.
fn give_back(components: &[PooledComponent], instances: &mut Instances, n: u64)
    requires many { length components.now ≡ MAX_GROUPS }
    requires fresh { AreFresh components.now instances.old }
    ensures given { instance_in instances.new n
        ≡ given_back components.now (instance_in instances.old n) }
    ensures others { (m : ℕ) → m ≢ n → instance_in instances.new m ≡ instance_in instances.old m }
    ensures untaken { has_taken (instance_in instances.old n) ≡ false →
        instances.new ≡ instances.old }
{
    match instances.get(n) {
        None => {}
        Some(found) => {
            if !found.is_taken {
                return;
            }
            let c = found.component.0 as usize;
            if found.generation == components[c].generation {
                instances.put_back(n, found);
            } else {
                instances.remove(n);
            }
        }
    }
}

/// Gives these instances back, the last first, and leaves none.
fn give_all(components: &[PooledComponent], instances: &mut Instances, taken: &mut Vec<InstanceNo>)
    requires many { length components.now ≡ MAX_GROUPS }
    requires fresh { AreFresh components.now instances.old }
    ensures given { AreGivenBack components.now taken.old.items instances.old instances.new }
    ensures fresh { AreFresh components.now instances.new }
    ensures none { taken.new.items ≡ [] }
    ensures room { vec_capacity taken.new ≡ vec_capacity taken.old }
{
    while let Some(instance) = taken.pop() {
        give_back(components, instances, instance.number());
    }
}

/// Reboots the components of the groups of a scope: those of their instances that are idle go.
fn reboot(components: &mut [PooledComponent], instances: &mut Instances, scope: Scope, level: Level)
    requires many { length components.old ≡ MAX_GROUPS }
    requires few { MayReboot components.old scope }
    requires fresh { AreFresh components.old instances.old }
    ensures components { HaveRebooted components.old components.new scope level }
    ensures instances { AreLeftIdle components.old scope instances.old instances.new }
{
    for number in 0..MAX_GROUPS {
        let component = components[number as usize];
        instances.remove_idle(number, scope.holds(component.group));
        components[number as usize] = component.once_rebooted(scope, level);
    }
}

/// Whether each component may be rebooted with a scope once more.
fn have_next(components: &[PooledComponent], scope: Scope) -> bool
    ensures { result ≡ list_all (has_next scope) components.now }
{
    components.iter().all(|component| component.has_next(scope))
}

impl Pool {
    /// A pool without instances, for components that were never entered and never rebooted. It takes no memory, and
    /// asks for the group of each of them.
    pub fn new(alloc: Global, deployment: &Deployment, plans: FaultList) -> Pool
        ensures stands { StandsFor result deployment.now plans (λ c. 0) (λ g. []) }
        ensures instances { result.instances ≡ [] }
        ensures entered { entered_in result ≡ none_entered }
    {
        let components = new_components(deployment);
        Pool {
            plans,
            components,
            instances: Instances::new(alloc),
        }
    }

    /// The fault plans, as they were given, cured ones too.
    pub fn plans(&self) -> &FaultList
        ensures { result.now ≡ self.now.plans }
    {
        &self.plans
    }

    /// The fault plans, as they were given, cured ones too, to start again. All else is dropped, and nothing is copied.
    pub fn into_plans(self) -> FaultList
        ensures { result ≡ self.plans }
    {
        self.plans
    }

    /// The present generation of a component: how often its group was rebooted.
    pub fn generation(&self, c: ComponentNo) -> u64
        requires { c.0 < MAX_GROUPS }
        ensures { result ≡ (component_in self.now.components c.0).generation }
    {
        self.components[c.0 as usize].generation
    }

    /// How many instances there are, taken and idle. Each idle one is of the present generation of its component.
    pub fn instances(&self) -> usize
        ensures count { result ≡ count_by is_some self.now.instances }
        ensures fresh { AreFresh self.now.components self.now.instances }
    {
        self.instances.len()
    }

    /// The number and the kind of the first active plan of a component, which has it fail. It takes no memory, and
    /// visits each plan up to that one.
    pub fn active(&self, c: ComponentNo) -> Option<(u16, FaultKind)>
        requires { c.0 < MAX_GROUPS }
        ensures value { result ≡ active_now self.now c.0 }
        ensures stands { (parts : Parts) (given : List FaultPlan) (enterings : ℕ → ℕ) (reboots : ℕ → List Level) →
            StandsFor self.now parts given enterings reboots →
            result ≡ active_plan given c.0 (counted (enterings c.0)) (reboots (group_of parts c.0)) }
    {
        let component = self.components[c.0 as usize];
        let found = first_active(self.plans.as_slice(), c.0, component);
        found
    }

    /// Takes an instance of a component, which serves a frame until it is given back: an idle one, or a new one where
    /// none is idle. It counts as an entering of the component. Where memory ran out the pool is as it was, and none
    /// was idle.
    pub fn take(&mut self, c: ComponentNo, generation: u64) -> Result<InstanceNo, OutOfMemory>
        requires component { c.0 < MAX_GROUPS }
        requires present { generation ≡ (component_in self.old.components c.0).generation }
        ensures taken { IfOk result (λ n. HasTaken
            self.old.instances self.new.instances c generation n) }
        ensures entered { OnOk result (HaveEntered self.old.components self.new.components c.0) }
        ensures counted { OnOk result (entered_in self.new ≡ one_more (entered_in self.old) c.0) }
        ensures plans { self.new.plans ≡ self.old.plans }
        ensures refused { OnErr result (self.new ≡ self.old) }
        ensures wanted { OnErr result ((m : ℕ) →
            instance_in self.old.instances m ≢ Some (idle_of c generation)) }
        ensures stands { (parts : Parts) (given : List FaultPlan) (enterings : ℕ → ℕ) (reboots : ℕ → List Level) →
            StandsFor self.old parts given enterings reboots →
            OnOk result (StandsFor self.new parts given (once_more c.0 enterings) reboots) }
    {
        let key = self.instances.take(c, generation)?;
        enter(&mut self.components, c.0);
        Ok(InstanceNo::new(key as u64))
    }

    /// Gives an instance back that was taken: it is idle where it is of the present generation of its component, and
    /// else it is dropped. A number that another pool gave, of no instance that is taken here, changes nothing. It
    /// takes no memory.
    pub fn give(&mut self, instance: InstanceNo)
        ensures given { instance_in self.new.instances instance
            ≡ given_back self.old.components (instance_in self.old.instances instance) }
        ensures others { (n : ℕ) → n ≢ instance →
            instance_in self.new.instances n ≡ instance_in self.old.instances n }
        ensures untaken { has_taken (instance_in self.old.instances instance) ≡ false →
            self.new ≡ self.old }
        ensures components { self.new.components ≡ self.old.components }
        ensures counted { entered_in self.new ≡ entered_in self.old }
        ensures plans { self.new.plans ≡ self.old.plans }
    {
        give_back(&self.components, &mut self.instances, instance.number());
    }

    /// Gives these instances back, as `give` says of each, and leaves none, in the room that they have: those of the
    /// frames that a call has open when it ends. It takes no memory, and visits each of them.
    pub fn give_all(&mut self, taken: &mut Vec<InstanceNo>)
        ensures given { AreGivenBack
            self.old.components taken.old.items self.old.instances self.new.instances }
        ensures none { taken.new.items ≡ [] }
        ensures room { vec_capacity taken.new ≡ vec_capacity taken.old }
        ensures components { self.new.components ≡ self.old.components }
        ensures counted { entered_in self.new ≡ entered_in self.old }
        ensures plans { self.new.plans ≡ self.old.plans }
    {
        give_all(&self.components, &mut self.instances, taken);
    }

    /// Whether the groups of a scope may be rebooted once more: none of them was 2^64 − 1 times. It takes no memory,
    /// and asks for each of `MAX_GROUPS` components.
    pub fn may_reboot(&self, scope: Scope) -> bool
        ensures value { result ≡ list_all (has_next scope) self.now.components }
        ensures may { IsTrue result ↔ MayReboot self.now.components scope }
    {
        have_next(&self.components, scope)
    }

    /// A group is rebooted at a level: its components have their next generation, the idle ones of their instances are
    /// dropped, and the plans of its components that this cures are active no more. It takes no memory, and visits each
    /// of `MAX_GROUPS` components and each of these instances.
    pub fn drop_group(&mut self, g: GroupNo, level: Level)
        requires { MayReboot self.old.components (Group g) }
        ensures components { HaveRebooted self.old.components self.new.components (Group g) level }
        ensures instances { AreLeftIdle
            self.old.components (Group g) self.old.instances self.new.instances }
        ensures counted { entered_in self.new ≡ entered_in self.old }
        ensures plans { self.new.plans ≡ self.old.plans }
        ensures stands { (parts : Parts) (given : List FaultPlan) (enterings : ℕ → ℕ) (reboots : ℕ → List Level) →
            StandsFor self.old parts given enterings reboots →
            StandsFor self.new parts given enterings (rebooted_at (Group g) level reboots) }
    {
        reboot(
            &mut self.components,
            &mut self.instances,
            Scope::Group(g),
            level,
        );
    }

    /// Each group of a scope is rebooted, at the level of that scope, as `drop_group` says. It takes no memory, and
    /// visits each of `MAX_GROUPS` components and each of these instances.
    pub fn drop_scope(&mut self, scope: Scope)
        requires { MayReboot self.old.components scope }
        ensures components { HaveRebooted
            self.old.components self.new.components scope (level_of scope) }
        ensures instances { AreLeftIdle
            self.old.components scope self.old.instances self.new.instances }
        ensures counted { entered_in self.new ≡ entered_in self.old }
        ensures plans { self.new.plans ≡ self.old.plans }
        ensures stands { (parts : Parts) (given : List FaultPlan) (enterings : ℕ → ℕ) (reboots : ℕ → List Level) →
            StandsFor self.old parts given enterings reboots →
            StandsFor self.new parts given enterings (rebooted_at scope (level_of scope) reboots) }
    {
        reboot(
            &mut self.components,
            &mut self.instances,
            scope,
            level_of(scope),
        );
    }
}
