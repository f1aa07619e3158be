//! What a ticket holds of its call.

use crate::boot_fixtures::{plan_list, request};
use crate::parts::deployment_of;
use crate::pool::take;
use crate::words::{add_number, add_pair, add_row, add_text, add_word, expect_words};
use call_ticket::{MAX_FRAMES, MAX_MARKS, MAX_STEPS, Ticket, TicketParts};
use commit_journal::{Mark, ReadMark, Touch};
use component_pool::{InstanceNo, Pool};
use crash_base::{ComponentNo, GroupNo, Place, RowBytes, RowId, RowWrite, WorkerNo};
use std::alloc::Global;
use std::process::Abort;

const ROW: RowId = RowId { table: 3, key: 7 };

/// The component that calls enter.
const CLERK: ComponentNo = ComponentNo(5);

/// A component that is alone in its group.
const PORTER: ComponentNo = ComponentNo(3);

/// A pool whose instance 0 is of the clerk, and is taken.
fn new_pool(rt: &impl Abort, alloc: Global) -> Pool {
    let deployment = deployment_of(rt, alloc, "*6 2-5");
    let mut pool = Pool::new(alloc, &deployment, plan_list(rt, alloc, &[]));
    let _taken = take(rt, &mut pool, CLERK);
    pool
}

/// Enters a component of this group, which is new to the call and was rebooted four times.
fn enter(rt: &impl Abort, pool: &mut Pool, ticket: &mut Ticket, c: ComponentNo, group: GroupNo) {
    assert!(rt; ticket.depth() < MAX_FRAMES && ticket.steps() < MAX_STEPS);
    assert!(rt; !ticket.is_touched(group));
    let touch = Touch {
        group,
        generation: 4,
        front: Place(9),
    };
    ticket.push_frame(c, take(rt, pool, c), Some(touch));
}

/// Enters the clerk, whose group is 2.
fn enter_clerk(rt: &impl Abort, pool: &mut Pool, ticket: &mut Ticket) {
    enter(rt, pool, ticket, CLERK, GroupNo(2));
}

/// Reads two bytes of a row.
fn read(rt: &impl Abort, alloc: Global, ticket: &mut Ticket) {
    let value = RowBytes::copied(alloc, b"ab").expect(rt, "a value");
    assert!(rt; ticket.steps() < MAX_STEPS && ticket.marks().len() < MAX_MARKS);
    ticket.add_read(Some(ReadMark::Row(ROW)), Some(value));
}

/// Puts a row of three bytes.
fn put(rt: &impl Abort, alloc: Global, ticket: &mut Ticket) {
    let bytes = RowBytes::copied(alloc, b"xyz").expect(rt, "a row");
    assert!(rt; ticket.steps() < MAX_STEPS && !ticket.is_full_for(ROW));
    ticket.add_put(RowWrite { id: ROW, bytes });
}

/// Leaves a component, and answers its instance.
fn leave(rt: &impl Abort, ticket: &mut Ticket) -> InstanceNo {
    assert!(rt; ticket.depth() > 0 && ticket.steps() < MAX_STEPS);
    ticket.pop_frame()
}

/// Adds the request, the worker, the place of the begin, the open frames, the steps and the bytes.
fn add_ticket(rt: &impl Abort, words: &mut String, ticket: &Ticket) {
    add_number(rt, words, ticket.request().serial);
    add_pair(rt, words, u64::from(ticket.worker().0), "@", ticket.at().0);
    add_number(rt, words, ticket.depth() as u64);
    add_number(rt, words, ticket.steps());
    add_number(rt, words, ticket.bytes());
}

/// Adds what the call puts of the row, and whether it read it.
fn add_row_of(rt: &impl Abort, words: &mut String, ticket: &Ticket) {
    match ticket.own_put(ROW) {
        Some(bytes) => add_text(rt, words, " ", bytes.as_slice()),
        None => add_word(rt, words, "none"),
    }
    let marked = ticket.marked(&ReadMark::Row(ROW));
    add_word(rt, words, if marked { "read" } else { "unread" });
}

fn add_mark(rt: &impl Abort, words: &mut String, mark: &Mark) {
    if let Some(value) = &mark.value {
        add_text(rt, words, " ", value.as_slice());
    }
}

/// Adds the instances, the groups, the values that were read and the rows of a call that ended.
fn add_parts(rt: &impl Abort, words: &mut String, parts: &TicketParts) {
    for instance in parts.instances.as_slice() {
        add_number(rt, words, instance.number());
    }
    for touch in parts.touched.as_slice() {
        add_pair(rt, words, u64::from(touch.group.0), "#", touch.generation);
    }
    for mark in parts.marks.as_slice() {
        add_mark(rt, words, mark);
    }
    for write in parts.writes.as_slice() {
        add_row(rt, words, write);
    }
}

/// Enters, reads and puts.
fn make_steps(rt: &impl Abort, alloc: Global, pool: &mut Pool, ticket: &mut Ticket) {
    enter_clerk(rt, pool, ticket);
    read(rt, alloc, ticket);
    put(rt, alloc, ticket);
}

/// Adds what a ticket holds of its call, before its steps and after them.
fn add_call(
    rt: &impl Abort,
    alloc: Global,
    words: &mut String,
    pool: &mut Pool,
    ticket: &mut Ticket,
) {
    add_row_of(rt, words, ticket);
    make_steps(rt, alloc, pool, ticket);
    add_row_of(rt, words, ticket);
    add_ticket(rt, words, ticket);
    add_number(rt, words, leave(rt, ticket).number());
}

/// Adds what a ticket holds whose frames are closed, and which instance of the clerk is taken next.
fn add_closed(
    rt: &impl Abort,
    alloc: Global,
    words: &mut String,
    pool: &mut Pool,
    ticket: &mut Ticket,
) {
    make_steps(rt, alloc, pool, ticket);
    ticket.close_frames(pool);
    add_ticket(rt, words, ticket);
    add_number(rt, words, take(rt, pool, CLERK).number());
}

/// Leaves two components, and adds which instance each leave answers: that of the frame which was opened last.
fn add_two_frames(rt: &impl Abort, words: &mut String, pool: &mut Pool, ticket: &mut Ticket) {
    enter_clerk(rt, pool, ticket);
    enter(rt, pool, ticket, PORTER, GroupNo(3));
    add_number(rt, words, leave(rt, ticket).number());
    add_number(rt, words, leave(rt, ticket).number());
}

/// Adds what a ticket holds that is used again.
fn add_renewed(
    rt: &impl Abort,
    alloc: Global,
    words: &mut String,
    pool: &mut Pool,
    ticket: &mut Ticket,
) {
    make_steps(rt, alloc, pool, ticket);
    let parts = ticket.take_parts(alloc).expect(rt, "the parts");
    add_parts(rt, words, &parts);
    add_ticket(rt, words, ticket);
    ticket.renew(request(71), WorkerNo(5), Place(10));
    add_ticket(rt, words, ticket);
}

fn new_ticket(rt: &impl Abort, alloc: Global) -> Ticket {
    Ticket::new(alloc, request(70), WorkerNo(4), Place(9)).expect(rt, "a ticket")
}

/// Makes a ticket, does what a word says with it, and asserts what it holds.
fn expect_ticket(rt: &impl Abort, alloc: Global, pool: &mut Pool, what: &str, want: &str) {
    let mut words = String::new(alloc);
    let mut ticket = new_ticket(rt, alloc);
    match what {
        "a call" => add_call(rt, alloc, &mut words, pool, &mut ticket),
        "closed" => add_closed(rt, alloc, &mut words, pool, &mut ticket),
        "renewed" => add_renewed(rt, alloc, &mut words, pool, &mut ticket),
        _ => add_two_frames(rt, &mut words, pool, &mut ticket),
    }
    drop(ticket);
    expect_words(rt, &words, want, what);
}

/// A ticket holds its call and is used again, and its frames are left with their own instances.
#[test]
fn tickets_hold_their_calls(rt: HostRuntime) {
    let alloc = rt.alloc();
    let mut pool = new_pool(&rt, alloc);
    let call = "none unread xyz read 70 4@9 1 3 5 1";
    expect_ticket(&rt, alloc, &mut pool, "a call", call);
    expect_ticket(&rt, alloc, &mut pool, "closed", "70 4@9 0 3 5 2");
    let again = "3 2#4 ab 3.7=xyz 70 4@9 0 0 0 71 5@10 0 0 0";
    expect_ticket(&rt, alloc, &mut pool, "renewed", again);
    let mut pool = new_pool(&rt, alloc);
    expect_ticket(&rt, alloc, &mut pool, "two frames", "2 1");
}
