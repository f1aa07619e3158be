//! Whether a call may enter a component, and the frame that it opens.

ghost use Rattle.std.specs.Prelude.{◌≡◌, ◌≢◌, ◌<◌, ℕ, List, length, None, All, IfSome, OnOk, OnErr};
ghost use Rattle.crash_base.specs.declared.fault_plans.FaultPlan.{FaultPlan};
ghost use Rattle.crash_base.specs.declared.numbers.Level.{Level};
ghost use Rattle.component_pool.specs.Plans.{active_plan, counted};
ghost use Rattle.component_pool.specs.Pool.{StandsFor, entered_in, one_more, times};
ghost use Rattle.deployment.specs.declared.parts.Parts.{Parts};
ghost use Rattle.deployment.specs.Groups.{group_of};
ghost use Rattle.journal_model.specs.Reboots.{down_of};
ghost use Rattle.journal_model.specs.Stale.{IsTouch};
ghost use Rattle.boot_core.specs.Refusals.{barred, failing};
ghost use Rattle.boot_core.specs.Steps.{ticket_entered};

use crate::refusals::CallRefusal;
use crate::staleness::stale_in;
use call_ticket::{MAX_FRAMES, MAX_STEPS, Ticket};
use commit_journal::{Journal, Touch};
use component_pool::{InstanceNo, Pool};
use crash_base::{ComponentNo, FaultKind, GroupNo, MAX_GROUPS, OutOfMemory, Place};

/// Why a call may not enter a component of a group, whichever component it is. It visits each group that the call has
/// entered.
pub(crate) fn barred(journal: &Journal, ticket: &Ticket, group: GroupNo) -> Option<CallRefusal>
    requires touches { All (IsTouch journal.now.entries) ticket.now.call.touched }
    requires known { group.0 < MAX_GROUPS }
    ensures value { result ≡ barred journal.now.entries ticket.now.call group.0 }
    ensures memory { IfSome result (λ e. e ≢ CallRefusal.OutOfMemory) }
    ensures depth { result ≡ None → length ticket.now.call.frames < MAX_FRAMES }
    ensures steps { result ≡ None → ticket.now.call.steps < MAX_STEPS }
    ensures up { result ≡ None → down_of journal.now.entries group.0 ≡ None }
{
    if let Some(stale) = stale_in(journal, ticket.touched()) {
        return Some(CallRefusal::Revoked(stale));
    }
    if ticket.depth() == MAX_FRAMES {
        return Some(CallRefusal::Depth);
    }
    if ticket.steps() == MAX_STEPS {
        return Some(CallRefusal::Steps);
    }
    match journal.down_of(group) {
        Some(down) => Some(CallRefusal::Sentinel { group, down }),
        None => None,
    }
}

/// Why a component fails, if it does: by the first of its fault plans that is active. It visits each plan up to that
/// one.
pub(crate) fn failing(pool: &Pool, c: ComponentNo) -> Option<CallRefusal>
    requires { c.0 < MAX_GROUPS }
    ensures value { (parts : Parts) (given : List FaultPlan) (enterings : ℕ → ℕ) (reboots : ℕ → List Level) →
        StandsFor pool.now parts given enterings reboots → result ≡ failing c (active_plan given c.0
        (counted (enterings c.0)) (reboots (group_of parts c.0))) }
    ensures memory { IfSome result (λ e. e ≢ CallRefusal.OutOfMemory) }
{
    match pool.active(c) {
        Some((fault, FaultKind::Raise)) => Some(CallRefusal::Raised {
            component: c,
            fault,
        }),
        Some((fault, FaultKind::Hang)) => Some(CallRefusal::Hung {
            component: c,
            fault,
        }),
        Some((_, FaultKind::Leak)) | None => None,
    }
}

/// Takes an instance that serves a frame of a component: an idle one, or a new one where none is idle. It counts as an
/// entering of the component.
pub(crate) fn take_instance(pool: &mut Pool, c: ComponentNo) -> Result<InstanceNo, OutOfMemory>
    requires { c.0 < MAX_GROUPS }
    ensures counted { OnOk result (entered_in pool.new ≡ one_more (entered_in pool.old) c.0) }
    ensures plans { pool.new.plans ≡ pool.old.plans }
    ensures stands { (parts : Parts) (given : List FaultPlan) (enterings : ℕ → ℕ) (reboots : ℕ → List Level) →
        StandsFor pool.old parts given enterings reboots →
        OnOk result (StandsFor pool.new parts given (times (entered_in pool.new)) reboots) }
    ensures refused { OnErr result (pool.new ≡ pool.old) }
{
    let generation = pool.generation(c);
    let instance = pool.take(c, generation)?;
    Ok(instance)
}

/// Opens a frame of a component of a group, which is up, and which this instance serves.
pub(crate) fn open_frame(
    journal: &Journal,
    ticket: &mut Ticket,
    c: ComponentNo,
    group: GroupNo,
    instance: InstanceNo,
)
    requires known { group.0 < MAX_GROUPS }
    requires depth { length ticket.old.call.frames < MAX_FRAMES }
    requires steps { ticket.old.call.steps < MAX_STEPS }
    ensures { ticket.new ≡ ticket_entered journal.now.entries group.0 c ticket.old }
{
    let touch = if ticket.is_touched(group) {
        None
    } else {
        Some(Touch {
            group,
            generation: journal.generation(group),
            front: Place(journal.len()),
        })
    };
    ticket.push_frame(c, instance, touch);
}
