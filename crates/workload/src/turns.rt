//! One turn of the workload.

ghost use Rattle.std.specs.Prelude.{◌≡◌, ◌≢◌, ◌≤◌, ◌<◌, ◌+◌, ◌^◌, Bool, false, Some, None, [], length, IfOk, IfSome, OnOk, OnErr, MatchResult, slice_set};
ghost use Rattle.boot_core.specs.Boot.{HasGrown};
ghost use Rattle.boot_core.specs.Fits.{FitsIn};
ghost use Rattle.commit_journal.specs.Journal.{IsScope};
ghost use Rattle.line_steps.specs.Callers.{caller_at, ended};
ghost use Rattle.line_steps.specs.declared.callers.Caller.TheVariants.{Absent, Live};
ghost use Rattle.outside.specs.Faults.{Rose};
ghost use Rattle.workload.specs.Parts.{work_parts};
ghost use Rattle.workload.specs.Turns.{commit_outcome, commit_left, scope_of, reboot_left, reboot_by_key, deed_left, begin_left, caller_left, in_hand, turn, work_at};
ghost use Rattle.workload.specs.Tally.{answers};
ghost use Rattle.workload.specs.Working.{left_at, GoesOn, IsGoing, ComesBy};

use crate::choices::{Choice, Deed, LAST_CALLER, MAX_TURNS, chosen, next_number};
use crate::deploying::{A, C};
use crate::steps::{Left, ended, enter_step, goes_on, list_step, put_step, read_step};
use crate::tally::{Outcome, Tally};
use boot_core::{Boot, CommitRefusal, RebootRefusal, Ticket};
use container_core::Container;
use crash_base::{ComponentNo, OutOfMemory, RequestNo, Scope, WorkerNo};
use line_steps::Callers;
use outside::Keeper;
use std::alloc::Global;

/// A call begins, and enters the component of a key.
#[tactic(auto, unfolding(crate::specs::Turns::begin_left))]
fn begin_step<K: Keeper + Drop>(
    alloc: Global,
    container: &mut Container<K>,
    caller: u64,
    k: u64,
    key: u64,
) -> Result<Left, OutOfMemory>
    requires parts { container.old.boot.start.deployment ≡ work_parts }
    requires caller { caller < 2 ^ 32 }
    requires turn { k < 2 ^ 32 }
    ensures left { IfOk result (λ left. left_at container.new.boot left.ticket left.outcome
        ≡ begin_left container.old.boot caller k key) }
    ensures goes { IfOk result (λ left. IfSome left.ticket (GoesOn container.new.boot)) }
    ensures kept { OnErr result (container.new.boot ≡ container.old.boot) }
    ensures count { container.new.faults ≡ container.old.faults }
    ensures grown { HasGrown container.old.boot container.new.boot }
{
    let request = RequestNo {
        boot: container.boot(),
        serial: (1 << 63) + k,
    };
    let ticket = container.begin(alloc, request, WorkerNo(caller as u32))?;
    let left = enter_step(container, ticket, key)?;
    Ok(left)
}

/// How a refused commit is counted.
fn commit_outcome(refusal: CommitRefusal) -> Result<Outcome, OutOfMemory>
    ensures { MatchResult result
        (λ outcome. (outcome ≡ commit_outcome refusal) × (refusal ≢ CommitRefusal.OutOfMemory))
        (λ _. refusal ≡ CommitRefusal.OutOfMemory) }
{
    match refusal {
        CommitRefusal::Already { .. } => Ok(Outcome::Refused),
        CommitRefusal::Revoked(_) => Ok(Outcome::Revoked),
        CommitRefusal::Conflict(_) => Ok(Outcome::Conflict),
        CommitRefusal::JournalFull(_) => Ok(Outcome::Refused),
        CommitRefusal::OutOfMemory => Err(OutOfMemory),
        CommitRefusal::KeeperFailed => Ok(Outcome::Refused),
    }
}

/// A call commits.
fn commit_step<K: Keeper + Drop>(
    alloc: Global,
    container: &mut Container<K>,
    ticket: Ticket,
) -> Result<Left, OutOfMemory>
    requires { FitsIn container.old.boot ticket.call }
    ensures left { IfOk result (λ left. ComesBy (left_at container.new.boot left.ticket left.outcome)
        (commit_left container.old.boot ticket) container.old.faults container.new.faults) }
    ensures ended { IfOk result (λ left. left.ticket ≡ None) }
    ensures kept { OnErr result (container.new.boot ≡ container.old.boot) }
    ensures count { container.old.faults ≤ container.new.faults }
    ensures grown { HasGrown container.old.boot container.new.boot }
{
    match container.commit(alloc, ticket, None) {
        Ok(_) => Ok(ended(Some(Outcome::Committed))),
        Err(refused) => {
            let outcome = commit_outcome(refused.cause)?;
            Ok(ended(Some(outcome)))
        }
    }
}

/// The group of a component.
fn scope_of(boot: &Boot, c: ComponentNo) -> Scope
    requires { c.0 < length boot.now.start.deployment.components }
    ensures scope { result ≡ scope_of boot.now c }
    ensures known { IsScope result }
{
    Scope::Group(boot.deployment().group_of(c))
}

/// A refused reboot drops the call of the caller.
fn reboot_refused<K: Keeper + Drop>(
    container: &mut Container<K>,
    ticket: Ticket,
    refusal: RebootRefusal,
) -> Result<Left, OutOfMemory>
    ensures answer { MatchResult result
        (λ left. (left.ticket ≡ None) × (left.outcome ≡ Some Outcome.Refused)
        × (refusal ≢ RebootRefusal.OutOfMemory))
        (λ _. refusal ≡ RebootRefusal.OutOfMemory) }
    ensures same { container.new ≡ container.old }
{
    container.abandon(ticket);
    match refusal {
        RebootRefusal::Busy { .. } => Ok(ended(Some(Outcome::Refused))),
        RebootRefusal::JournalFull(_) => Ok(ended(Some(Outcome::Refused))),
        RebootRefusal::OutOfMemory => Err(OutOfMemory),
    }
}

/// A caller reboots the group of a component.
#[tactic(auto, unfolding(crate::specs::Turns::reboot_left))]
fn reboot_step<K: Keeper + Drop>(
    container: &mut Container<K>,
    ticket: Ticket,
    c: ComponentNo,
) -> Result<Left, OutOfMemory>
    requires component { c.0 < length container.old.boot.start.deployment.components }
    requires goes { GoesOn container.old.boot ticket }
    ensures left { IfOk result (λ left. left_at container.new.boot left.ticket left.outcome
        ≡ reboot_left container.old.boot ticket c) }
    ensures goes { IfOk result (λ left. IfSome left.ticket (GoesOn container.new.boot)) }
    ensures kept { OnErr result (container.new.boot ≡ container.old.boot) }
    ensures count { container.new.faults ≡ container.old.faults }
    ensures grown { HasGrown container.old.boot container.new.boot }
{
    let scope = scope_of(container.as_boot(), c);
    match container.begin_reboot(scope) {
        Ok(down) => {
            container.end_reboot(down);
            Ok(goes_on(ticket))
        }
        Err(refusal) => reboot_refused(container, ticket, refusal),
    }
}

/// A caller reboots the group of A or that of C, or drops its call, by a key.
fn reboot_by_key<K: Keeper + Drop>(
    container: &mut Container<K>,
    ticket: Ticket,
    key: u64,
) -> Result<Left, OutOfMemory>
    requires parts { container.old.boot.start.deployment ≡ work_parts }
    requires goes { GoesOn container.old.boot ticket }
    ensures left { IfOk result (λ left. left_at container.new.boot left.ticket left.outcome
        ≡ reboot_by_key container.old.boot ticket key) }
    ensures goes { IfOk result (λ left. IfSome left.ticket (GoesOn container.new.boot)) }
    ensures kept { OnErr result (container.new.boot ≡ container.old.boot) }
    ensures count { container.new.faults ≡ container.old.faults }
    ensures grown { HasGrown container.old.boot container.new.boot }
{
    if key < 4 {
        reboot_step(container, ticket, ComponentNo(A))
    } else if key < 8 {
        reboot_step(container, ticket, ComponentNo(C))
    } else {
        container.abandon(ticket);
        Ok(ended(None))
    }
}

/// What a live caller does.
fn live_step<K: Keeper + Drop>(
    alloc: Global,
    container: &mut Container<K>,
    ticket: Ticket,
    k: u64,
    choice: Choice,
) -> Result<Left, OutOfMemory>
    requires parts { container.old.boot.start.deployment ≡ work_parts }
    requires goes { GoesOn container.old.boot ticket }
    requires turn { k < 2 ^ 32 }
    ensures left { IfOk result (λ left. ComesBy (left_at container.new.boot left.ticket left.outcome)
        (λ keeps. deed_left container.old.boot ticket k choice.key keeps choice.deed)
        container.old.faults container.new.faults) }
    ensures goes { IfOk result (λ left. IfSome left.ticket (GoesOn container.new.boot)) }
    ensures kept { OnErr result (container.new.boot ≡ container.old.boot) }
    ensures count { container.old.faults ≤ container.new.faults }
    ensures grown { HasGrown container.old.boot container.new.boot }
{
    match choice.deed {
        Deed::Put => {
            let put = put_step(alloc, container, ticket, k, choice.key)?;
            Ok(put)
        }
        Deed::Read => {
            let read = read_step(alloc, container, ticket, choice.key)?;
            Ok(read)
        }
        Deed::List => {
            let listed = list_step(alloc, container, ticket)?;
            Ok(listed)
        }
        Deed::Commit => {
            let committed = commit_step(alloc, container, ticket)?;
            Ok(committed)
        }
        Deed::Reboot => {
            let rebooted = reboot_by_key(container, ticket, choice.key)?;
            Ok(rebooted)
        }
    }
}

/// What a caller does that has this call in hand, if any.
fn caller_step<K: Keeper + Drop>(
    alloc: Global,
    container: &mut Container<K>,
    call: Option<Ticket>,
    k: u64,
    choice: Choice,
) -> Result<Left, OutOfMemory>
    requires parts { container.old.boot.start.deployment ≡ work_parts }
    requires goes { IfSome call (GoesOn container.old.boot) }
    requires caller { choice.caller < 2 ^ 32 }
    requires turn { k < 2 ^ 32 }
    ensures left { IfOk result (λ left. ComesBy (left_at container.new.boot left.ticket left.outcome)
        (λ keeps. caller_left container.old.boot k choice keeps (in_hand call))
        container.old.faults container.new.faults) }
    ensures goes { IfOk result (λ left. IfSome left.ticket (GoesOn container.new.boot)) }
    ensures kept { OnErr result (container.new.boot ≡ container.old.boot) }
    ensures count { container.old.faults ≤ container.new.faults }
    ensures grown { HasGrown container.old.boot container.new.boot }
{
    match call {
        None => {
            let begun = begin_step(alloc, container, choice.caller, k, choice.key)?;
            Ok(begun)
        }
        Some(ticket) => {
            let left = live_step(alloc, container, ticket, k, choice)?;
            Ok(left)
        }
    }
}

/// Takes the call that a caller has in hand, if any.
fn take_call(callers: &mut Callers, number: u64) -> Option<Ticket>
    ensures call { caller_at callers.old number ≡ in_hand result }
    ensures taken { callers.new ≡ ended callers.old number }
{
    let call = callers.take(number);
    call
}

/// Gives a caller that has none this call, if any.
fn put_back(callers: &mut Callers, number: u64, call: Option<Ticket>)
    requires place { number < length callers.old }
    requires away { caller_at callers.old number ≡ Absent }
    ensures { callers.new ≡ slice_set callers.old number (in_hand call) }
{
    if let Some(ticket) = call {
        callers.put(number, ticket);
    }
}

/// A turn of the workload, which draws the next number. The answer is that number.
pub(crate) fn turn<K: Keeper + Drop>(
    alloc: Global,
    container: &mut Container<K>,
    callers: &mut Callers,
    tally: &mut Tally,
    k: u64,
    number: u64,
) -> Result<u64, OutOfMemory>
    requires going { IsGoing container.old.boot callers.old }
    requires places { LAST_CALLER < length callers.old }
    requires tallied { answers tally.old ≤ k }
    requires turn { k < MAX_TURNS }
    ensures turned { IfOk result (λ drawn.
        ComesBy (work_at drawn (k + 1) container.new.boot callers.new tally.new)
        (turn (work_at number k container.old.boot callers.old tally.old))
        container.old.faults container.new.faults) }
    ensures going { OnOk result (IsGoing container.new.boot callers.new) }
    ensures places { OnOk result (LAST_CALLER < length callers.new) }
    ensures tallied { OnOk result (answers tally.new ≤ k + 1) }
    ensures kept { OnErr result (container.new.boot ≡ container.old.boot) }
    ensures count { container.old.faults ≤ container.new.faults }
{
    let drawn = next_number(number);
    let choice = chosen(drawn);
    let call = take_call(callers, choice.caller);
    let left = caller_step(alloc, container, call, k, choice)?;
    let Left { ticket, outcome } = left;
    put_back(callers, choice.caller, ticket);
    tally.count_if(outcome);
    Ok(drawn)
}
