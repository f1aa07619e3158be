//! Lines of one live call.

ghost use Rattle.std.specs.Prelude.{◌≡◌, IfOk, OnErr};
ghost use Rattle.boot_core.specs.Fits.{FitsIn};
ghost use Rattle.scenario_text.specs.Answer.{KeepsRefused, answer_of};
ghost use Rattle.container_core.specs.Container.{IsButEntered};
ghost use Rattle.line_steps.specs.CallLines.{done_in, call_line, enter_step, exit_step, read_step, list_step, put_step};

use crate::tables::table_of;
use crate::texts::{list_answer_text, refusal_text, row_answer_text};
use boot_core::{CallRefusal, MAX_STEPS, Ticket};
use container_core::Container;
use crash_base::{ComponentName, OutOfMemory, RowBytes, RowId, RowWrite};
use outside::Keeper;
use scenario_text::{CallLine, HexBytes, LineAnswer};
use std::alloc::Global;

/// Enters a component.
#[tactic(auto, unfolding(crate::specs::CallLines::enter_step))]
fn enter_step<K: Keeper + Drop>(
    alloc: Global,
    container: &mut Container<K>,
    ticket: &mut Ticket,
    caller: u64,
    name: ComponentName,
) -> Result<LineAnswer, OutOfMemory>
    requires { FitsIn container.old.boot ticket.old.call }
    ensures answer { IfOk result (λ a.
        answer_of a (done_in container.new.boot ticket.new) ≡ enter_step container.old.boot caller ticket.old name) }
    ensures refused { IfOk result (λ a. KeepsRefused a (done_in container.old.boot ticket.old)
        (done_in container.new.boot ticket.new)) }
    ensures fits { FitsIn container.new.boot ticket.new.call }
    ensures but_entered { IsButEntered container.old container.new }
    ensures memory { OnErr result (container.new ≡ container.old) }
{
    let Some(c) = container.deployment().named(name.as_slice()) else {
        return Ok(LineAnswer::Refused);
    };
    if !container.as_boot().may_enter(ticket, c) {
        return Ok(LineAnswer::Refused);
    }
    match container.enter(ticket, c, 0) {
        Ok(()) => Ok(LineAnswer::Done),
        Err(refusal) => Ok(LineAnswer::Wrote(refusal_text(alloc, caller, refusal)?)),
    }
}

/// Leaves the component that was entered last.
#[tactic(auto, unfolding(crate::specs::CallLines::exit_step))]
fn exit_step<K: Keeper + Drop>(
    alloc: Global,
    container: &mut Container<K>,
    ticket: &mut Ticket,
    caller: u64,
) -> Result<LineAnswer, OutOfMemory>
    requires { FitsIn container.old.boot ticket.old.call }
    ensures answer { IfOk result (λ a.
        answer_of a (done_in container.new.boot ticket.new) ≡ exit_step container.old.boot caller ticket.old) }
    ensures refused { IfOk result (λ a. KeepsRefused a (done_in container.old.boot ticket.old)
        (done_in container.new.boot ticket.new)) }
    ensures fits { FitsIn container.new.boot ticket.new.call }
    ensures but_entered { IsButEntered container.old container.new }
    ensures memory { OnErr result (container.new ≡ container.old) }
{
    if ticket.depth() == 0 {
        return Ok(LineAnswer::Refused);
    }
    if let Err(stale) = container.check(ticket) {
        let text = refusal_text(alloc, caller, CallRefusal::Revoked(stale))?;
        return Ok(LineAnswer::Wrote(text));
    }
    if ticket.steps() == MAX_STEPS {
        let text = refusal_text(alloc, caller, CallRefusal::Steps)?;
        return Ok(LineAnswer::Wrote(text));
    }
    match container.exit(ticket) {
        Ok(()) => Ok(LineAnswer::Done),
        Err(_) => unreachable!(),
    }
}

/// Reads a row.
#[tactic(auto, unfolding(crate::specs::CallLines::read_step))]
fn read_step<K: Keeper + Drop>(
    alloc: Global,
    container: &mut Container<K>,
    ticket: &mut Ticket,
    caller: u64,
    number: u64,
    key: u64,
) -> Result<LineAnswer, OutOfMemory>
    requires { FitsIn container.old.boot ticket.old.call }
    ensures answer { IfOk result (λ a.
        answer_of a (done_in container.new.boot ticket.new) ≡ read_step container.old.boot caller ticket.old number key) }
    ensures refused { IfOk result (λ a. KeepsRefused a (done_in container.old.boot ticket.old)
        (done_in container.new.boot ticket.new)) }
    ensures fits { FitsIn container.new.boot ticket.new.call }
    ensures but_entered { IsButEntered container.old container.new }
    ensures memory { OnErr result (container.new ≡ container.old) }
{
    let Some(table) = table_of(number) else {
        return Ok(LineAnswer::Refused);
    };
    let id = RowId { table, key };
    if !container.as_boot().is_in_owner(ticket, id.table) {
        return Ok(LineAnswer::Refused);
    }
    match container.read(alloc, ticket, id) {
        Ok(value) => Ok(LineAnswer::Wrote(row_answer_text(alloc, caller, value)?)),
        Err(refusal) => Ok(LineAnswer::Wrote(refusal_text(alloc, caller, refusal)?)),
    }
}

/// Lists a table.
#[tactic(auto, unfolding(crate::specs::CallLines::list_step))]
fn list_step<K: Keeper + Drop>(
    alloc: Global,
    container: &mut Container<K>,
    ticket: &mut Ticket,
    caller: u64,
    number: u64,
) -> Result<LineAnswer, OutOfMemory>
    requires { FitsIn container.old.boot ticket.old.call }
    ensures answer { IfOk result (λ a.
        answer_of a (done_in container.new.boot ticket.new) ≡ list_step container.old.boot caller ticket.old number) }
    ensures refused { IfOk result (λ a. KeepsRefused a (done_in container.old.boot ticket.old)
        (done_in container.new.boot ticket.new)) }
    ensures fits { FitsIn container.new.boot ticket.new.call }
    ensures but_entered { IsButEntered container.old container.new }
    ensures memory { OnErr result (container.new ≡ container.old) }
{
    let Some(listed) = table_of(number) else {
        return Ok(LineAnswer::Refused);
    };
    if !container.as_boot().is_in_owner(ticket, listed) {
        return Ok(LineAnswer::Refused);
    }
    match container.list(alloc, ticket, listed) {
        Ok(rows) => Ok(LineAnswer::Wrote(list_answer_text(alloc, caller, rows)?)),
        Err(refusal) => Ok(LineAnswer::Wrote(refusal_text(alloc, caller, refusal)?)),
    }
}

/// Puts a row.
#[tactic(auto, unfolding(crate::specs::CallLines::put_step))]
fn put_step<K: Keeper + Drop>(
    alloc: Global,
    container: &mut Container<K>,
    ticket: &mut Ticket,
    caller: u64,
    number: u64,
    key: u64,
    bytes: HexBytes,
) -> Result<LineAnswer, OutOfMemory>
    requires { FitsIn container.old.boot ticket.old.call }
    ensures answer { IfOk result (λ a.
        answer_of a (done_in container.new.boot ticket.new) ≡ put_step container.old.boot caller ticket.old number key bytes) }
    ensures refused { IfOk result (λ a. KeepsRefused a (done_in container.old.boot ticket.old)
        (done_in container.new.boot ticket.new)) }
    ensures fits { FitsIn container.new.boot ticket.new.call }
    ensures but_entered { IsButEntered container.old container.new }
    ensures memory { OnErr result (container.new ≡ container.old) }
{
    let Some(table) = table_of(number) else {
        return Ok(LineAnswer::Refused);
    };
    if !container.as_boot().is_in_owner(ticket, table) {
        return Ok(LineAnswer::Refused);
    }
    let write = RowWrite {
        id: RowId { table, key },
        bytes: RowBytes::from_vec(bytes.into_vec()),
    };
    match container.put(ticket, write) {
        Ok(()) => Ok(LineAnswer::Done),
        Err(refusal) => Ok(LineAnswer::Wrote(refusal_text(alloc, caller, refusal)?)),
    }
}

/// A line of one live call. It visits what the step of the call does, and the bytes of what it writes. Where memory ran
/// out, the container is as it was, and the call may have read the row or listed the table.
pub fn call_line<K: Keeper + Drop>(
    alloc: Global,
    container: &mut Container<K>,
    ticket: &mut Ticket,
    caller: u64,
    line: CallLine,
) -> Result<LineAnswer, OutOfMemory>
    requires { FitsIn container.old.boot ticket.old.call }
    ensures answer { IfOk result (λ a.
        answer_of a (done_in container.new.boot ticket.new) ≡ call_line container.old.boot caller ticket.old line) }
    ensures refused { IfOk result (λ a. KeepsRefused a (done_in container.old.boot ticket.old)
        (done_in container.new.boot ticket.new)) }
    ensures fits { FitsIn container.new.boot ticket.new.call }
    ensures but_entered { IsButEntered container.old container.new }
    ensures memory { OnErr result (container.new ≡ container.old) }
{
    match line {
        CallLine::Enter(name) => enter_step(alloc, container, ticket, caller, name),
        CallLine::Exit => exit_step(alloc, container, ticket, caller),
        CallLine::Read(number, key) => read_step(alloc, container, ticket, caller, number, key),
        CallLine::List(number) => list_step(alloc, container, ticket, caller, number),
        CallLine::Put(number, key, bytes) => {
            put_step(alloc, container, ticket, caller, number, key, bytes)
        }
    }
}
