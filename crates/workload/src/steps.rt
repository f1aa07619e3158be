//! What a caller does in a turn within its call.

ghost use Rattle.std.specs.Prelude.{◌≡◌, ◌≢◌, ◌≤◌, ◌<◌, ◌^◌, [], Some, None, IfOk, IfSome, OnErr, MatchResult};
ghost use Rattle.boot_core.specs.Boot.{HasGrown};
ghost use Rattle.boot_core.specs.Fits.{FitsIn};
ghost use Rattle.line_steps.specs.CallLines.{row_id};
ghost use Rattle.workload.specs.Parts.{work_parts};
ghost use Rattle.workload.specs.Turns.{step_outcome, own_table, put_left, read_left, list_left, entered_by, enter_left};
ghost use Rattle.workload.specs.Working.{left_at, GoesOn};

use crate::deploying::{A, A_TABLE, C, C_TABLE};
use crate::tally::Outcome;
use boot_core::{CallRefusal, Ticket};
use container_core::Container;
use crash_base::{ComponentNo, OutOfMemory, RowBytes, RowId, RowWrite};
use outside::Keeper;
use std::alloc::Global;

/// What a turn leaves of the call of its caller, and how a call was answered that ended.
#[derive(Drop)]
pub(crate) struct Left {
    pub(crate) ticket: Option<Ticket>,
    pub(crate) outcome: Option<Outcome>,
}

/// A call goes on.
pub(crate) fn goes_on(ticket: Ticket) -> Left
    ensures ticket { result.ticket ≡ Some ticket }
    ensures outcome { result.outcome ≡ None }
{
    Left {
        ticket: Some(ticket),
        outcome: None,
    }
}

/// A call has ended, with this answer if there is one.
pub(crate) fn ended(outcome: Option<Outcome>) -> Left
    ensures ticket { result.ticket ≡ None }
    ensures outcome { result.outcome ≡ outcome }
{
    Left {
        ticket: None,
        outcome,
    }
}

/// How a refused step of a call is counted.
fn step_outcome(refusal: CallRefusal) -> Result<Outcome, OutOfMemory>
    ensures { MatchResult result
        (λ outcome. (outcome ≡ step_outcome refusal) × (refusal ≢ CallRefusal.OutOfMemory))
        (λ _. refusal ≡ CallRefusal.OutOfMemory) }
{
    match refusal {
        CallRefusal::Revoked(_) => Ok(Outcome::Revoked),
        CallRefusal::Depth => Ok(Outcome::Refused),
        CallRefusal::Steps => Ok(Outcome::Refused),
        CallRefusal::Reads => Ok(Outcome::Refused),
        CallRefusal::Writes => Ok(Outcome::Refused),
        CallRefusal::Sentinel { .. } => Ok(Outcome::Refused),
        CallRefusal::Hung { .. } => Ok(Outcome::Refused),
        CallRefusal::Raised { .. } => Ok(Outcome::Refused),
        CallRefusal::OutOfMemory => Err(OutOfMemory),
    }
}

/// A step of a call was refused: the call is dropped.
fn refused<K: Keeper + Drop>(
    container: &mut Container<K>,
    ticket: Ticket,
    refusal: CallRefusal,
) -> Result<Left, OutOfMemory>
    ensures answer { MatchResult result
        (λ left. (left.ticket ≡ None) × (left.outcome ≡ Some (step_outcome refusal))
        × (refusal ≢ CallRefusal.OutOfMemory))
        (λ _. refusal ≡ CallRefusal.OutOfMemory) }
    ensures same { container.new ≡ container.old }
{
    container.abandon(ticket);
    let outcome = step_outcome(refusal)?;
    Ok(ended(Some(outcome)))
}

/// The table of the component that a call is in.
fn own_table<K: Keeper + Drop>(container: &Container<K>, ticket: &Ticket) -> u8
    ensures { result ≡ own_table container.now.boot.start.deployment ticket.now.call }
{
    if container.as_boot().is_in_owner(ticket, A_TABLE) {
        A_TABLE
    } else {
        C_TABLE
    }
}

/// The row of a key in the table of the component that a call is in.
fn own_row<K: Keeper + Drop>(container: &Container<K>, ticket: &Ticket, key: u64) -> RowId
    ensures { result ≡ row_id (own_table container.now.boot.start.deployment ticket.now.call) key }
{
    RowId {
        table: own_table(container, ticket),
        key,
    }
}

/// A call puts the number of the turn in the row of a key.
#[tactic(auto, unfolding(crate::specs::Turns::put_left))]
pub(crate) fn put_step<K: Keeper + Drop>(
    alloc: Global,
    container: &mut Container<K>,
    ticket: Ticket,
    k: u64,
    key: u64,
) -> Result<Left, OutOfMemory>
    requires goes { GoesOn container.old.boot ticket }
    requires turn { k < 2 ^ 32 }
    ensures left { IfOk result (λ left. left_at container.new.boot left.ticket left.outcome
        ≡ put_left container.old.boot ticket k key) }
    ensures goes { IfOk result (λ left. IfSome left.ticket (GoesOn container.new.boot)) }
    ensures same { container.new ≡ container.old }
{
    let mut ticket = ticket;
    let write = RowWrite {
        id: own_row(container, &ticket, key),
        bytes: RowBytes::copied(alloc, (k as u32).to_be_bytes().as_slice())?,
    };
    match container.put(&mut ticket, write) {
        Ok(()) => Ok(goes_on(ticket)),
        Err(refusal) => {
            let left = refused(container, ticket, refusal)?;
            Ok(left)
        }
    }
}

/// A call reads the row of a key.
#[tactic(auto, unfolding(crate::specs::Turns::read_left))]
pub(crate) fn read_step<K: Keeper + Drop>(
    alloc: Global,
    container: &mut Container<K>,
    ticket: Ticket,
    key: u64,
) -> Result<Left, OutOfMemory>
    requires goes { GoesOn container.old.boot ticket }
    ensures left { IfOk result (λ left. left_at container.new.boot left.ticket left.outcome
        ≡ read_left container.old.boot ticket key) }
    ensures goes { IfOk result (λ left. IfSome left.ticket (GoesOn container.new.boot)) }
    ensures same { container.new ≡ container.old }
{
    let mut ticket = ticket;
    let id = own_row(container, &ticket, key);
    match container.read(alloc, &mut ticket, id) {
        Ok(_) => Ok(goes_on(ticket)),
        Err(refusal) => {
            let left = refused(container, ticket, refusal)?;
            Ok(left)
        }
    }
}

/// A call lists its table.
#[tactic(auto, unfolding(crate::specs::Turns::list_left))]
pub(crate) fn list_step<K: Keeper + Drop>(
    alloc: Global,
    container: &mut Container<K>,
    ticket: Ticket,
) -> Result<Left, OutOfMemory>
    requires goes { GoesOn container.old.boot ticket }
    ensures left { IfOk result (λ left. left_at container.new.boot left.ticket left.outcome
        ≡ list_left container.old.boot ticket) }
    ensures goes { IfOk result (λ left. IfSome left.ticket (GoesOn container.new.boot)) }
    ensures same { container.new ≡ container.old }
{
    let mut ticket = ticket;
    let table = own_table(container, &ticket);
    match container.list(alloc, &mut ticket, table) {
        Ok(_) => Ok(goes_on(ticket)),
        Err(refusal) => {
            let left = refused(container, ticket, refusal)?;
            Ok(left)
        }
    }
}

/// The component that a call enters by its key.
fn entered_by(key: u64) -> ComponentNo
    ensures { result ≡ entered_by key }
{
    if key % 2 == 0 {
        ComponentNo(A)
    } else {
        ComponentNo(C)
    }
}

/// A call that has just begun enters the component of a key.
pub(crate) fn enter_step<K: Keeper + Drop>(
    container: &mut Container<K>,
    ticket: Ticket,
    key: u64,
) -> Result<Left, OutOfMemory>
    requires parts { container.old.boot.start.deployment ≡ work_parts }
    requires outside { ticket.call.frames ≡ [] }
    requires fits { FitsIn container.old.boot ticket.call }
    ensures left { IfOk result (λ left. left_at container.new.boot left.ticket left.outcome
        ≡ enter_left container.old.boot ticket (entered_by key)) }
    ensures goes { IfOk result (λ left. IfSome left.ticket (GoesOn container.new.boot)) }
    ensures kept { OnErr result (container.new ≡ container.old) }
    ensures count { container.new.faults ≡ container.old.faults }
    ensures grown { HasGrown container.old.boot container.new.boot }
{
    let mut ticket = ticket;
    match container.enter(&mut ticket, entered_by(key), 0) {
        Ok(()) => Ok(goes_on(ticket)),
        Err(refusal) => {
            let left = refused(container, ticket, refusal)?;
            Ok(left)
        }
    }
}
