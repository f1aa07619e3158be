//! Steps of a call as texts, and how it ends.
//!
//! A step is a word: `e1` enters component 1, `x` leaves it, `r3.7` reads a row, `l3` lists a table,
//! and `p3.7=a` puts a row.

ghost use Rattle.std.specs.Prelude.{◌≡◌};
ghost use Rattle.boot_core.specs.Boot.{HasGrown};
ghost use Rattle.boot_core.specs.Fits.{FitsIn};

use crate::boot_fixtures::{request, write};
use crate::words::{
    add_dotted, add_id, add_named, add_number, add_pair, add_row, add_text, add_word, byte, id,
    short,
};
use boot_core::{Boot, CallRefusal, CommitRefusal, MAX_STEPS, Mark, ReadMark, Refused, Ticket};
use crash_base::{ComponentNo, Place, RowList, WorkerNo};
use outside::SureKeeper;
use std::alloc::Global;
use std::process::Abort;

/// Adds why a step was refused.
pub fn add_refusal(rt: &impl Abort, words: &mut String, refusal: CallRefusal) {
    match refusal {
        CallRefusal::Revoked(stale) => add_pair(rt, words, stale.had, "~", stale.now),
        CallRefusal::Depth => add_word(rt, words, "depth"),
        CallRefusal::Steps => add_word(rt, words, "steps"),
        CallRefusal::Reads => add_word(rt, words, "reads"),
        CallRefusal::Writes => add_word(rt, words, "writes"),
        CallRefusal::Sentinel { group, down } => {
            add_pair(rt, words, u64::from(group.0), "!", down.0)
        }
        CallRefusal::Hung { component, fault } => {
            add_dotted(rt, words, "hung", u64::from(component.0), u64::from(fault))
        }
        CallRefusal::Raised { component, fault } => {
            add_dotted(
                rt,
                words,
                "raised",
                u64::from(component.0),
                u64::from(fault),
            )
        }
        CallRefusal::OutOfMemory => add_word(rt, words, "out_of_memory"),
    }
}

fn enter(rt: &impl Abort, words: &mut String, boot: &mut Boot, ticket: &mut Ticket, component: u16)
    requires { FitsIn boot.old ticket.old.call }
    ensures fits { FitsIn boot.new ticket.new.call }
    ensures grown { HasGrown boot.old boot.new }
{
    assert!(rt; component < boot.deployment().count());
    assert!(rt; boot.may_enter(ticket, ComponentNo(component)));
    match boot.enter(ticket, ComponentNo(component), 0) {
        Ok(()) => {}
        Err(refusal) => add_refusal(rt, words, refusal),
    }
}

fn leave(rt: &impl Abort, boot: &mut Boot, ticket: &mut Ticket)
    requires { FitsIn boot.old ticket.old.call }
    ensures fits { FitsIn boot.new ticket.new.call }
    ensures same { boot.new ≡ boot.old }
{
    assert!(rt; boot.check(ticket).is_ok());
    assert!(rt; ticket.depth() > 0 && ticket.steps() < MAX_STEPS);
    match boot.exit(ticket) {
        Ok(()) => {}
        Err(_) => panic!(rt; "the exit is refused"),
    }
}

/// Reads a row, and adds its bytes or `none`.
fn read(
    rt: &impl Abort,
    alloc: Global,
    words: &mut String,
    boot: &Boot,
    ticket: &mut Ticket,
    row: &str,
)
    requires { FitsIn boot.now ticket.old.call }
    ensures { FitsIn boot.now ticket.new.call }
{
    let id = id(rt, row);
    assert!(rt; boot.is_in_owner(ticket, id.table));
    match boot.read(alloc, ticket, id) {
        Ok(Some(bytes)) => add_text(rt, words, " ", bytes.as_slice()),
        Ok(None) => add_word(rt, words, "none"),
        Err(refusal) => add_refusal(rt, words, refusal),
    }
}

/// Adds the rows of a table that was listed, between parentheses.
fn add_listed(rt: &impl Abort, words: &mut String, rows: &RowList) {
    add_word(rt, words, "(");
    for row in rows.as_slice() {
        add_row(rt, words, row);
    }
    add_word(rt, words, ")");
}

fn list(
    rt: &impl Abort,
    alloc: Global,
    words: &mut String,
    boot: &Boot,
    ticket: &mut Ticket,
    table: u8,
)
    requires { FitsIn boot.now ticket.old.call }
    ensures { FitsIn boot.now ticket.new.call }
{
    assert!(rt; boot.is_in_owner(ticket, table));
    match boot.list(alloc, ticket, table) {
        Ok(rows) => add_listed(rt, words, &rows),
        Err(refusal) => add_refusal(rt, words, refusal),
    }
}

fn put(
    rt: &impl Abort,
    alloc: Global,
    words: &mut String,
    boot: &Boot,
    ticket: &mut Ticket,
    row: &str,
)
    requires { FitsIn boot.now ticket.old.call }
    ensures { FitsIn boot.now ticket.new.call }
{
    let write = write(rt, alloc, row);
    assert!(rt; write.id.table > 0);
    assert!(rt; boot.is_in_owner(ticket, write.id.table));
    match boot.put(ticket, write) {
        Ok(()) => {}
        Err(refusal) => add_refusal(rt, words, refusal),
    }
}

fn do_step(
    rt: &impl Abort,
    alloc: Global,
    words: &mut String,
    boot: &mut Boot,
    ticket: &mut Ticket,
    step: &str,
)
    requires { FitsIn boot.old ticket.old.call }
    ensures fits { FitsIn boot.new ticket.new.call }
    ensures grown { HasGrown boot.old boot.new }
{
    if let Some(component) = step.strip_prefix("e") {
        enter(rt, words, boot, ticket, short(rt, component));
    } else if let Some(row) = step.strip_prefix("r") {
        read(rt, alloc, words, boot, ticket, row);
    } else if let Some(table) = step.strip_prefix("l") {
        list(rt, alloc, words, boot, ticket, byte(rt, table));
    } else if let Some(row) = step.strip_prefix("p") {
        put(rt, alloc, words, boot, ticket, row);
    } else if step == "x" {
        leave(rt, boot, ticket);
    }
}

/// Makes the steps of a text, and adds what they answer.
pub fn do_steps(
    rt: &impl Abort,
    alloc: Global,
    words: &mut String,
    boot: &mut Boot,
    ticket: &mut Ticket,
    steps: &str,
)
    requires { FitsIn boot.old ticket.old.call }
    ensures fits { FitsIn boot.new ticket.new.call }
    ensures grown { HasGrown boot.old boot.new }
{
    for step in steps.split(' ') {
        do_step(rt, alloc, words, boot, ticket, step);
    }
}

fn add_mark_of(rt: &impl Abort, words: &mut String, read: ReadMark) {
    match read {
        ReadMark::Row(id) => add_id(rt, words, id),
        ReadMark::Table(table) => add_named(rt, words, "t", u64::from(table)),
    }
}

/// Adds a mark, with the bytes of a row that was there.
fn add_mark(rt: &impl Abort, words: &mut String, mark: &Mark) {
    add_mark_of(rt, words, mark.read);
    if let Some(value) = &mark.value {
        add_text(rt, words, "=", value.as_slice());
    }
}

/// Adds what a call has read, between brackets.
pub fn add_marks(rt: &impl Abort, words: &mut String, marks: &[Mark]) {
    add_word(rt, words, "[");
    for mark in marks {
        add_mark(rt, words, mark);
    }
    add_word(rt, words, "]");
}

fn add_cause(rt: &impl Abort, words: &mut String, cause: CommitRefusal) {
    match cause {
        CommitRefusal::Already { place } => add_named(rt, words, "already ", place.0),
        CommitRefusal::Revoked(stale) => add_pair(rt, words, stale.had, "~", stale.now),
        CommitRefusal::Conflict(conflict) => {
            add_mark_of(rt, words, conflict.mark);
            add_pair(rt, words, conflict.at.0, "<", conflict.newest.0);
        }
        CommitRefusal::JournalFull(full) => add_pair(rt, words, full.entries, "/", full.bytes),
        CommitRefusal::OutOfMemory => add_word(rt, words, "out_of_memory"),
        CommitRefusal::KeeperFailed => add_word(rt, words, "keeper_failed"),
    }
}

/// Adds what a commit answered: its place, or why it was refused.
pub fn add_commit(rt: &impl Abort, words: &mut String, answer: Result<Place, Refused>) {
    match answer {
        Ok(place) => add_number(rt, words, place.0),
        Err(refused) => add_cause(rt, words, refused.cause),
    }
}

/// Begins a call of a request of boot 1.
pub fn begin(rt: &impl Abort, alloc: Global, boot: &mut Boot, serial: u64, worker: u32) -> Ticket
    ensures same { boot.new ≡ boot.old }
    ensures fits { FitsIn boot.old result.call }
{
    boot.begin(alloc, request(serial), WorkerNo(worker))
        .expect(rt, "a call")
}

/// Commits a call over a keeper of its own, and adds the answer.
pub fn commit(rt: &impl Abort, alloc: Global, words: &mut String, boot: &mut Boot, ticket: Ticket)
    requires { FitsIn boot.old ticket.call }
    ensures { HasGrown boot.old boot.new }
{
    let mut keeper = SureKeeper::new(RowList::new(alloc));
    let answer = boot.commit(alloc, &mut keeper, ticket, None);
    add_commit(rt, words, answer);
}

/// Makes a whole call of these steps, and adds what they and its commit answer.
pub fn call(
    rt: &impl Abort,
    alloc: Global,
    words: &mut String,
    boot: &mut Boot,
    serial: u64,
    worker: u32,
    steps: &str,
)
    ensures { HasGrown boot.old boot.new }
{
    let mut ticket = begin(rt, alloc, boot, serial, worker);
    do_steps(rt, alloc, words, boot, &mut ticket, steps);
    commit(rt, alloc, words, boot, ticket);
}
