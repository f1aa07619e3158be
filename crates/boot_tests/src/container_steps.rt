//! Steps of a call as texts, and how it ends.
//!
//! A step is a word: `e` enters component 1, `x` leaves it, `r3.7` reads a row, `l` lists table 3, `p3.7=a` puts a row,
//! and `c` asks whether the call may go on.

ghost use Rattle.boot_core.specs.Fits.{FitsIn};

use crate::boot_fixtures::write;
use crate::kept_words::add_short_row;
use crate::words::{add_named, add_pair, add_word, id, text};
use container_core::{CallRefusal, CommitRefusal, Container, MAX_STEPS, Refused, Stale, Ticket};
use crash_base::{ComponentNo, Place};
use outside::Keeper;
use std::alloc::Global;
use std::process::Abort;

/// Enters a component, which the call may enter from where it is.
pub fn enter<K: Keeper + Drop>(
    rt: &impl Abort,
    container: &mut Container<K>,
    ticket: &mut Ticket,
    c: ComponentNo,
) -> Result<(), CallRefusal>
    requires { FitsIn container.old.boot ticket.old.call }
    ensures { FitsIn container.new.boot ticket.new.call }
{
    assert!(rt; c.0 < container.deployment().count());
    assert!(rt; container.as_boot().may_enter(ticket, c));
    container.enter(ticket, c, 0)
}

/// Leaves the component that was entered last.
pub fn exit<K: Keeper + Drop>(
    rt: &impl Abort,
    container: &mut Container<K>,
    ticket: &mut Ticket,
) -> Result<(), Stale>
    requires { FitsIn container.old.boot ticket.old.call }
    ensures { FitsIn container.new.boot ticket.new.call }
{
    assert!(rt; ticket.depth() > 0 && ticket.steps() < MAX_STEPS);
    container.exit(ticket)
}

/// Enters component 1, and adds the place of the Down where its group is down.
fn enter_stock<K: Keeper + Drop>(
    rt: &impl Abort,
    words: &mut String,
    container: &mut Container<K>,
    ticket: &mut Ticket,
)
    requires { FitsIn container.old.boot ticket.old.call }
    ensures { FitsIn container.new.boot ticket.new.call }
{
    match enter(rt, container, ticket, ComponentNo(1)) {
        Ok(()) => {}
        Err(CallRefusal::Sentinel { down, .. }) => add_named(rt, words, "down", down.0),
        Err(_) => add_word(rt, words, "refused"),
    }
}

/// Leaves the component that was entered last, and adds whether that is refused.
fn leave<K: Keeper + Drop>(
    rt: &impl Abort,
    words: &mut String,
    container: &mut Container<K>,
    ticket: &mut Ticket,
)
    requires { FitsIn container.old.boot ticket.old.call }
    ensures { FitsIn container.new.boot ticket.new.call }
{
    match exit(rt, container, ticket) {
        Ok(()) => add_word(rt, words, "left"),
        Err(_) => add_word(rt, words, "refused"),
    }
}

/// Adds whether the call may go on.
fn check<K: Keeper + Drop>(
    rt: &impl Abort,
    words: &mut String,
    container: &Container<K>,
    ticket: &Ticket,
)
    requires { FitsIn container.now.boot ticket.now.call }
{
    match container.check(ticket) {
        Ok(()) => add_word(rt, words, "live"),
        Err(stale) => add_named(rt, words, "stale", u64::from(stale.group.0)),
    }
}

/// Reads a row, and adds its bytes.
fn read<K: Keeper + Drop>(
    rt: &impl Abort,
    alloc: Global,
    words: &mut String,
    container: &mut Container<K>,
    ticket: &mut Ticket,
    row: &str,
)
    requires { FitsIn container.old.boot ticket.old.call }
    ensures { FitsIn container.new.boot ticket.new.call }
{
    let id = id(rt, row);
    assert!(rt; container.as_boot().is_in_owner(ticket, id.table));
    match container.read(alloc, ticket, id) {
        Ok(Some(bytes)) => add_word(rt, words, text(rt, bytes.as_slice())),
        Ok(None) => add_word(rt, words, "none"),
        Err(_) => add_word(rt, words, "refused"),
    }
}

/// Lists table 3, and adds its rows.
fn list<K: Keeper + Drop>(
    rt: &impl Abort,
    alloc: Global,
    words: &mut String,
    container: &mut Container<K>,
    ticket: &mut Ticket,
)
    requires { FitsIn container.old.boot ticket.old.call }
    ensures { FitsIn container.new.boot ticket.new.call }
{
    assert!(rt; container.as_boot().is_in_owner(ticket, 3));
    match container.list(alloc, ticket, 3) {
        Ok(rows) => {
            for row in rows.as_slice() {
                add_short_row(rt, words, row);
            }
        }
        Err(_) => add_word(rt, words, "refused"),
    }
}

fn put<K: Keeper + Drop>(
    rt: &impl Abort,
    alloc: Global,
    container: &mut Container<K>,
    ticket: &mut Ticket,
    row: &str,
)
    requires { FitsIn container.old.boot ticket.old.call }
    ensures { FitsIn container.new.boot ticket.new.call }
{
    let write = write(rt, alloc, row);
    assert!(rt; write.id.table > 0);
    assert!(rt; container.as_boot().is_in_owner(ticket, write.id.table));
    match container.put(ticket, write) {
        Ok(()) => {}
        Err(_) => panic!(rt; "the put is refused: {row}"),
    }
}

fn do_step<K: Keeper + Drop>(
    rt: &impl Abort,
    alloc: Global,
    words: &mut String,
    container: &mut Container<K>,
    ticket: &mut Ticket,
    step: &str,
)
    requires { FitsIn container.old.boot ticket.old.call }
    ensures { FitsIn container.new.boot ticket.new.call }
{
    if let Some(row) = step.strip_prefix("r") {
        read(rt, alloc, words, container, ticket, row);
    } else if let Some(row) = step.strip_prefix("p") {
        put(rt, alloc, container, ticket, row);
    } else if step == "l" {
        list(rt, alloc, words, container, ticket);
    } else if step == "x" {
        leave(rt, words, container, ticket);
    } else if step == "c" {
        check(rt, words, container, ticket);
    } else {
        enter_stock(rt, words, container, ticket);
    }
}

/// Makes the steps of a text, and adds what they answer.
pub fn do_steps<K: Keeper + Drop>(
    rt: &impl Abort,
    alloc: Global,
    words: &mut String,
    container: &mut Container<K>,
    ticket: &mut Ticket,
    steps: &str,
)
    requires { FitsIn container.old.boot ticket.old.call }
    ensures { FitsIn container.new.boot ticket.new.call }
{
    for step in steps.split(' ') {
        do_step(rt, alloc, words, container, ticket, step);
    }
}

fn add_cause(rt: &impl Abort, words: &mut String, cause: CommitRefusal) {
    match cause {
        CommitRefusal::Already { place } => add_named(rt, words, "already", place.0),
        CommitRefusal::KeeperFailed => add_word(rt, words, "keeper_failed"),
        CommitRefusal::JournalFull(full) => add_pair(rt, words, full.entries, "/", full.bytes),
        CommitRefusal::Revoked(_) => add_word(rt, words, "revoked"),
        CommitRefusal::Conflict(_) => add_word(rt, words, "conflict"),
        CommitRefusal::OutOfMemory => add_word(rt, words, "out_of_memory"),
    }
}

/// Adds what a commit answered: its place, or why it was refused.
pub fn add_commit(rt: &impl Abort, words: &mut String, answer: Result<Place, Refused>) {
    match answer {
        Ok(place) => add_named(rt, words, "", place.0),
        Err(refused) => add_cause(rt, words, refused.cause),
    }
}
