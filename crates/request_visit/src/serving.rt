//! A request in the container: one step of it, or its commit, with what follows.

ghost use Rattle.std.specs.Prelude.{◌≡◌, ◌≢◌, ◌⊎◌, ◌≤◌, ◌<◌, ◌^◌, true, None, Some, IfOk, IfSome, OnOk, OnErr};
ghost use Rattle.std.specs.Option.{option_map};
ghost use Rattle.boot_core.specs.Fits.{FitsIn};
ghost use Rattle.container_core.specs.Container.{HasGrownBy, with_boot};
ghost use Rattle.outcome_items.specs.Traces.{again_in_end};
ghost use Rattle.call_ticket.specs.declared.next.Next.TheVariants as next;
ghost use Rattle.request_tries.specs.Serving.{IsServing, wanted_by};
ghost use Rattle.request_tries.specs.Steps.{HasAtMostAdvanced, KeepsNothing};
ghost use Rattle.outcome_items.specs.declared.outcome.ItemOutcome.{ItemOutcome};
ghost use Rattle.request_visit.specs.declared.serving.Closed.{Closed};
ghost use Rattle.request_visit.specs.Serving.{Commits, Serves, closing_after, ready_after};

use crate::facts::VisitFacts;
use crate::ready::{Ready, ready_of};
use call_ticket::Program;
use container_core::{Container, DoneText, histories_grow};
use crash_base::{OutOfMemory, Place};
use outcome_items::{Holds, ItemOutcome};
use outside::Keeper;
use request_tries::{Ended, Progress, RequestOutcome, RequestTries};
use session_way::SessionLease;
use std::alloc::Global;

/// How a request left the container.
#[derive(Drop)]
pub enum Closed {
    /// It is committed, by an earlier call of it where `again` is true. This follows.
    Page {
        place: Place,
        again: bool,
        ready: Ready,
    },
    /// It is not committed.
    Other(ItemOutcome),
}

/// How a request left the container, and how far that had come when it was held for it.
#[derive(Drop)]
pub struct Closing {
    pub closed: Closed,
    pub holds: Holds,
}

/// What follows a page: what was made before the commit, where the entry is its own.
fn ready_after(
    alloc: Global,
    facts: VisitFacts,
    lease: Option<&SessionLease>,
    ready: Option<Ready>,
    done: Option<&DoneText>,
    again: bool,
) -> Result<Ready, OutOfMemory>
    requires { facts.now.0 < 2 ^ 62 }
    ensures made { IfOk result (λ made. made ≡ ready_after facts (option_map (λ l. l.now) lease.entry) ready
        (option_map (λ d. d.now) done.entry) again) }
    ensures wanted { OnErr result ((again ≡ true) ⊎ (ready ≡ None)) }
{
    match ready {
        Some(ready) => {
            if again {
                ready_of(alloc, facts, lease, done)
            } else {
                Ok(ready)
            }
        }
        None => ready_of(alloc, facts, lease, done),
    }
}

/// How a request leaves the container that is not committed. What was made for its page is let go.
fn other(outcome: RequestOutcome, ready: Option<Ready>) -> Closed
    ensures { result ≡ Closed.Other (ItemOutcome.Ended outcome) }
{
    drop(ready);
    Closed::Other(ItemOutcome::Ended(outcome))
}

/// How a request leaves the container that has ended so, where this was made before its commit.
fn closing_after(
    alloc: Global,
    facts: VisitFacts,
    lease: Option<&SessionLease>,
    ready: Option<Ready>,
    end: Ended,
) -> Result<Closing, OutOfMemory>
    requires { facts.now.0 < 2 ^ 62 }
    ensures made { IfOk result (λ closing. closing
        ≡ closing_after facts (option_map (λ l. l.now) lease.entry) ready end) }
    ensures wanted { OnErr result ((again_in_end end.outcome ≡ Some true) ⊎ (ready ≡ None)) }
{
    let Ended {
        outcome,
        from,
        front,
        held,
        done,
    } = end;
    let holds = Holds { from, front, held };
    let closed = match outcome {
        RequestOutcome::Page { place, again } => {
            let ready = ready_after(alloc, facts, lease, ready, done.as_ref(), again)?;
            Closed::Page {
                place,
                again,
                ready,
            }
        }
        RequestOutcome::Sentinel { group, down } => {
            other(RequestOutcome::Sentinel { group, down }, ready)
        }
        RequestOutcome::Hung {
            component,
            fault,
            path,
        } => other(
            RequestOutcome::Hung {
                component,
                fault,
                path,
            },
            ready,
        ),
        RequestOutcome::Raised {
            component,
            fault,
            path,
        } => other(
            RequestOutcome::Raised {
                component,
                fault,
                path,
            },
            ready,
        ),
        RequestOutcome::Revoked(tries) => other(RequestOutcome::Revoked(tries), ready),
        RequestOutcome::Conflict(tries) => other(RequestOutcome::Conflict(tries), ready),
        RequestOutcome::JournalFull(full) => other(RequestOutcome::JournalFull(full), ready),
        RequestOutcome::KeeperFailed => other(RequestOutcome::KeeperFailed, ready),
    };
    drop(done);
    Ok(Closing { closed, holds })
}

/// Commits a request whose program is done and answers this. What follows its page is made before.
fn commit<K: Keeper + Drop, P: Program>(
    alloc: Global,
    facts: VisitFacts,
    lease: Option<&SessionLease>,
    tries: &mut RequestTries,
    program: &P,
    container: &mut Container<K>,
    done: DoneText,
) -> Result<Option<Closing>, OutOfMemory>
    requires accepts { P.accepts program.now container.old.boot.start.deployment }
    requires serving { IsServing container.old.boot (P.asks program.now) tries.old }
    requires done { wanted_by (P.asks program.now) tries.old ≡ Some (next.Done done) }
    requires moment { facts.now.0 < 2 ^ 62 }
    ensures commits { IfOk result (λ closing. Commits container.old (P.asks program.now) facts
        (option_map (λ l. l.now) lease.entry) tries.old done closing container.new tries.new) }
    ensures nothing { OnErr result (container.new.since ≡ container.old.since) }
    ensures boot { OnErr result (container.new.boot ≡ container.old.boot) }
    ensures keeper { OnErr result (KeepsNothing container.old container.new) }
    ensures held { IfSome tries.new.attempt (λ a. FitsIn container.new.boot a.ticket.call) }
    ensures closed { OnOk result (tries.new.attempt ≡ None) }
    ensures count { container.old.faults ≤ container.new.faults }
    ensures grown { HasGrownBy container.old container.new }
{
    histories_grow();
    let ready = ready_of(alloc, facts, lease, Some(&done))?;
    match tries.commit(alloc, container, program, done)? {
        None => Ok(None),
        Some(end) => {
            let closing = closing_after(alloc, facts, lease, Some(ready), end)?;
            Ok(Some(closing))
        }
    }
}

/// One step of a request in the container: the begin of an attempt, the step that its program asks for, or its
/// commit, where the program is done. What follows a page of its own is made before its commit, so that nothing is
/// wanted once the entry is there. Some is answered where the request has ended, and then nothing is held.
///
/// # Errors
/// Out of memory: then nothing was added to the history, of the boot at most the entering that was asked for was
/// counted, and the request can only be given up.
pub fn serve<K: Keeper + Drop, P: Program>(
    alloc: Global,
    facts: VisitFacts,
    lease: Option<&SessionLease>,
    tries: &mut RequestTries,
    program: &P,
    container: &mut Container<K>,
) -> Result<Option<Closing>, OutOfMemory>
    requires accepts { P.accepts program.now container.old.boot.start.deployment }
    requires serving { IsServing container.old.boot (P.asks program.now) tries.old }
    requires moment { facts.now.0 < 2 ^ 62 }
    ensures serves { IfOk result (λ closing. Serves container.old (P.asks program.now) facts
        (option_map (λ l. l.now) lease.entry) tries.old closing container.new tries.new) }
    ensures nothing { OnErr result (container.new.since ≡ container.old.since) }
    ensures at_most { OnErr result (HasAtMostAdvanced container.old (P.asks program.now) tries.old.attempt
        (with_boot container.old container.new.boot)) }
    ensures keeper { OnErr result (KeepsNothing container.old container.new) }
    ensures held { IfSome tries.new.attempt (λ a. FitsIn container.new.boot a.ticket.call) }
    ensures closed { IfOk result (λ closing. closing ≢ None → tries.new.attempt ≡ None) }
    ensures count { container.old.faults ≤ container.new.faults }
    ensures grown { HasGrownBy container.old container.new }
{
    histories_grow();
    match tries.step(alloc, container, program)? {
        Progress::Went => Ok(None),
        Progress::Done(done) => commit(alloc, facts, lease, tries, program, container, done),
        Progress::Ended(end) => {
            let closing = closing_after(alloc, facts, lease, None, end)?;
            Ok(Some(closing))
        }
    }
}
