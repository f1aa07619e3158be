//! The steps of an attempt in a container.

ghost use Rattle.std.specs.Prelude.{◌≡◌, IfOk, OnErr};
ghost use Rattle.call_ticket.specs.Following.{MayMake};
ghost use Rattle.call_ticket.specs.declared.next.Next.TheVariants as next;
ghost use Rattle.boot_core.specs.Fits.{FitsIn};
ghost use Rattle.container_core.specs.Container.{HasGrownBy, IsButEntered, with_boot};
ghost use Rattle.call_attempts.specs.Attempt.{HasMade, boot_made};

use crate::stop::{Stop, stop_by};
use boot_core::{DoneText, Ticket};
use call_ticket::{Answer, Next};
use container_core::Container;
use crash_base::{ComponentNo, OutOfMemory, RowId, RowWrite};
use outside::Keeper;
use std::alloc::Global;

/// What a step of a program comes to.
#[derive(Drop)]
pub enum Made {
    /// It was answered.
    Answered(Answer),
    /// It asks for nothing more: the call is done, and answers this where it commits.
    Done(DoneText),
    /// A reboot stopped it, or a component that fails.
    Stopped(Stop),
}

/// Enters a component, or is stopped.
fn enter<K: Keeper + Drop>(
    container: &mut Container<K>,
    ticket: &mut Ticket,
    c: ComponentNo,
    method: u8,
) -> Result<Made, OutOfMemory>
    requires may { MayMake container.old.boot.start.deployment ticket.old.call (next.Enter c method) }
    requires fits { FitsIn container.old.boot ticket.old.call }
    ensures made { IfOk result (λ r.
        HasMade container.old.boot ticket.old (next.Enter c method) r ticket.new) }
    ensures fits { FitsIn container.new.boot ticket.new.call }
    ensures leaves { IfOk result (λ r.
        container.new ≡ with_boot container.old (boot_made container.old.boot (next.Enter c method) r)) }
    ensures but_entered { IsButEntered container.old container.new }
    ensures wanting { OnErr result (container.new ≡ container.old) }
    ensures grown { HasGrownBy container.old container.new }
{
    match container.enter(ticket, c, method) {
        Ok(()) => Ok(Made::Answered(Answer::Entered)),
        Err(refusal) => {
            let stop = stop_by(refusal)?;
            Ok(Made::Stopped(stop))
        }
    }
}

/// Reads a row, or is stopped.
fn read<K: Keeper + Drop>(
    alloc: Global,
    container: &mut Container<K>,
    ticket: &mut Ticket,
    id: RowId,
) -> Result<Made, OutOfMemory>
    requires may { MayMake container.old.boot.start.deployment ticket.old.call (next.Read id) }
    requires fits { FitsIn container.old.boot ticket.old.call }
    ensures made { IfOk result (λ r. HasMade container.old.boot ticket.old (next.Read id) r ticket.new) }
    ensures fits { FitsIn container.new.boot ticket.new.call }
    ensures same { container.new ≡ container.old }
{
    match container.read(alloc, ticket, id) {
        Ok(value) => Ok(Made::Answered(Answer::Row(value))),
        Err(refusal) => {
            let stop = stop_by(refusal)?;
            Ok(Made::Stopped(stop))
        }
    }
}

/// Lists a table, or is stopped.
fn list<K: Keeper + Drop>(
    alloc: Global,
    container: &mut Container<K>,
    ticket: &mut Ticket,
    table: u8,
) -> Result<Made, OutOfMemory>
    requires may { MayMake container.old.boot.start.deployment ticket.old.call (next.List table) }
    requires fits { FitsIn container.old.boot ticket.old.call }
    ensures made { IfOk result (λ r. HasMade container.old.boot ticket.old (next.List table) r ticket.new) }
    ensures fits { FitsIn container.new.boot ticket.new.call }
    ensures same { container.new ≡ container.old }
{
    match container.list(alloc, ticket, table) {
        Ok(rows) => Ok(Made::Answered(Answer::Rows(rows))),
        Err(refusal) => {
            let stop = stop_by(refusal)?;
            Ok(Made::Stopped(stop))
        }
    }
}

/// Puts a row, or is stopped.
fn put<K: Keeper + Drop>(
    container: &mut Container<K>,
    ticket: &mut Ticket,
    write: RowWrite,
) -> Result<Made, OutOfMemory>
    requires may { MayMake container.old.boot.start.deployment ticket.old.call (next.Put write) }
    requires fits { FitsIn container.old.boot ticket.old.call }
    ensures made { IfOk result (λ r. HasMade container.old.boot ticket.old (next.Put write) r ticket.new) }
    ensures fits { FitsIn container.new.boot ticket.new.call }
    ensures same { container.new ≡ container.old }
{
    match container.put(ticket, write) {
        Ok(()) => Ok(Made::Answered(Answer::Kept)),
        Err(refusal) => {
            let stop = stop_by(refusal)?;
            Ok(Made::Stopped(stop))
        }
    }
}

/// Leaves a component, or is stopped.
fn exit<K: Keeper + Drop>(container: &mut Container<K>, ticket: &mut Ticket) -> Made
    requires may { MayMake container.old.boot.start.deployment ticket.old.call next.Exit }
    requires fits { FitsIn container.old.boot ticket.old.call }
    ensures made { HasMade container.old.boot ticket.old next.Exit result ticket.new }
    ensures fits { FitsIn container.new.boot ticket.new.call }
    ensures same { container.new ≡ container.old }
{
    match container.exit(ticket) {
        Ok(()) => Made::Answered(Answer::Left),
        Err(stale) => Made::Stopped(Stop::Revoked(stale)),
    }
}

/// Makes a step, or is stopped.
pub(crate) fn make<K: Keeper + Drop>(
    alloc: Global,
    container: &mut Container<K>,
    ticket: &mut Ticket,
    next: Next,
) -> Result<Made, OutOfMemory>
    requires may { MayMake container.old.boot.start.deployment ticket.old.call next }
    requires fits { FitsIn container.old.boot ticket.old.call }
    ensures made { IfOk result (λ r. HasMade container.old.boot ticket.old next r ticket.new) }
    ensures fits { FitsIn container.new.boot ticket.new.call }
    ensures leaves { IfOk result (λ r.
        container.new ≡ with_boot container.old (boot_made container.old.boot next r)) }
    ensures but_entered { IsButEntered container.old container.new }
    ensures wanting { OnErr result (container.new ≡ container.old) }
    ensures grown { HasGrownBy container.old container.new }
{
    match next {
        Next::Enter { component, method } => enter(container, ticket, component, method),
        Next::Read(id) => read(alloc, container, ticket, id),
        Next::List(table) => list(alloc, container, ticket, table),
        Next::Put(write) => put(container, ticket, write),
        Next::Exit => Ok(exit(container, ticket)),
        Next::Done(done) => Ok(Made::Done(done)),
    }
}
