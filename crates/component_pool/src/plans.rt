//! Which fault plans are active.

ghost use Rattle.std.specs.Prelude.{◌≡◌, ◌<◌, ◌≤◌, length, IfSome, position, option_and_then};
ghost use Rattle.component_pool.specs.Plans.{left_by_process, outlives_process, plan_at};
ghost use Rattle.component_pool.specs.Pool.{makes_fail_now};

use crate::component::PooledComponent;
use crate::levels::{cures, widest_cures};
use crash_base::{FaultKind, FaultList, FaultPlan, Level, MAX_FAULT_PLANS};

/// Whether a plan makes a component fail, by what is known of that one.
fn makes_fail(plan: &FaultPlan, c: u16, component: PooledComponent) -> bool
    ensures { result ≡ makes_fail_now c component plan.now }
{
    plan.component.0 == c
        && (plan.after <= component.entered && !widest_cures(component.widest, plan.cured_by))
}

/// The place of the first plan that makes a component fail, by what is known of that one.
fn first_place(plans: &[FaultPlan], c: u16, component: PooledComponent) -> Option<usize>
    ensures value { result ≡ position (makes_fail_now c component) plans.now }
    ensures within { IfSome result (λ number. number < length plans.now) }
{
    plans.iter().position(|plan| makes_fail(plan, c, component))
}

/// The number and the kind of the first plan that makes a component fail, by what is known of that one.
pub(crate) fn first_active(
    plans: &[FaultPlan],
    c: u16,
    component: PooledComponent,
) -> Option<(u16, FaultKind)>
    requires { length plans.now ≤ MAX_FAULT_PLANS }
    ensures { result ≡ option_and_then (plan_at plans.now) (position (makes_fail_now c component) plans.now) }
{
    match first_place(plans, c, component) {
        None => None,
        Some(number) => Some((number as u16, plans[number].kind)),
    }
}

/// Whether a plan is left by a reboot of the process.
fn outlives_process(plan: &FaultPlan) -> bool
    ensures { result ≡ outlives_process plan.now }
{
    !cures(Level::Process, plan.cured_by)
}

/// Keeps the plans that a reboot of the process leaves.
fn keep_left(plans: &mut Vec<FaultPlan>)
    ensures left { plans.new.items ≡ left_by_process plans.old.items }
    ensures few { length plans.new.items ≤ length plans.old.items }
{
    plans.retain(|plan| outlives_process(plan));
}

/// The plans that a reboot of the process leaves, in order: those that no reboot cures. With these the next container
/// is started. It visits each plan, and takes no memory.
pub fn left_by_process(plans: FaultList) -> FaultList
    ensures { result ≡ left_by_process plans }
{
    let mut left = plans.into_vec();
    keep_left(&mut left);
    FaultList::from_vec(left)
}
