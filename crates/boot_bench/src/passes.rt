//! Calls of a container that enter a component and leave it again, over a keeper that keeps nothing.

ghost use Rattle.boot_core.specs.Fits.{FitsIn};

use crate::null_keeper::NullKeeper;
use crate::store::{BOOT, LIMITS, STOCK, deployment, no_plans};
use container_core::{CallRefusal, Container, MAX_STEPS, StartRefusal, Ticket};
use crash_base::{OutOfMemory, RequestNo, WorkerNo};
use std::alloc::Global;

/// How often a call enters and leaves.
const PASSES: u64 = 64;

/// A container of a cart and a stock, which do not fail. None where it is not started.
fn start(alloc: Global) -> Result<Option<Container<NullKeeper>>, OutOfMemory> {
    let Some(deployment) = deployment(alloc)? else {
        return Ok(None);
    };
    match Container::start(alloc, deployment, NullKeeper {}, no_plans(alloc), LIMITS) {
        Ok(container) => Ok(Some(container)),
        Err(fail) => match fail.refusal {
            StartRefusal::OutOfMemory => Err(OutOfMemory),
            _ => Ok(None),
        },
    }
}

/// Enters the stock. Whether it was not refused; where memory ran out, that is answered.
fn enter(container: &mut Container<NullKeeper>, ticket: &mut Ticket) -> Result<bool, OutOfMemory>
    requires { FitsIn container.old.boot ticket.old.call }
    ensures { FitsIn container.new.boot ticket.new.call }
{
    if STOCK.0 >= container.deployment().count() || !container.as_boot().may_enter(ticket, STOCK) {
        return Ok(false);
    }
    match container.enter(ticket, STOCK, 0) {
        Ok(()) => Ok(true),
        Err(CallRefusal::OutOfMemory) => Err(OutOfMemory),
        Err(_) => Ok(false),
    }
}

/// Leaves the component that was entered last. Whether it was not refused.
fn exit(container: &mut Container<NullKeeper>, ticket: &mut Ticket) -> bool
    requires { FitsIn container.old.boot ticket.old.call }
    ensures { FitsIn container.new.boot ticket.new.call }
{
    if ticket.depth() == 0 || ticket.steps() >= MAX_STEPS {
        return false;
    }
    container.exit(ticket).is_ok()
}

/// Enters the stock and leaves it again. Whether nothing was refused.
fn makes_pass(
    container: &mut Container<NullKeeper>,
    ticket: &mut Ticket,
) -> Result<bool, OutOfMemory>
    requires { FitsIn container.old.boot ticket.old.call }
    ensures { FitsIn container.new.boot ticket.new.call }
{
    if !enter(container, ticket)? {
        return Ok(false);
    }
    Ok(exit(container, ticket))
}

/// Makes a call that enters and leaves so often, and gives it up. How often nothing was refused.
fn call(
    alloc: Global,
    container: &mut Container<NullKeeper>,
    serial: u64,
    count: u64,
) -> Result<u64, OutOfMemory> {
    let request = RequestNo { boot: BOOT, serial };
    let mut ticket = container.begin(alloc, request, WorkerNo(1))?;
    let mut made: u64 = 0;
    for pass in 0..count {
        if makes_pass(container, &mut ticket)? {
            made = made.wrapping_add(1);
        }
    }
    container.abandon(ticket);
    Ok(made)
}

/// Enters a component and leaves it `count` times, in calls one after the other. How often nothing was refused; None
/// where the container is not started.
pub(crate) fn passes(alloc: Global, count: u64) -> Result<Option<u64>, OutOfMemory> {
    let Some(mut container) = start(alloc)? else {
        return Ok(None);
    };
    let calls = count / PASSES;
    let mut made: u64 = 0;
    for serial in 0..calls {
        made = made.wrapping_add(call(alloc, &mut container, serial, PASSES)?);
    }
    let rest = call(alloc, &mut container, calls, count % PASSES)?;
    Ok(Some(made.wrapping_add(rest)))
}
