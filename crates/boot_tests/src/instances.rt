//! How many instances serve the calls of a container, however often these enter and leave, and of a boot, however these
//! end.

ghost use Rattle.boot_core.specs.Fits.{FitsIn};

use crate::boot_fixtures::{boot_of, plan_list, request};
use crate::boot_steps::{add_commit, begin as begin_in, commit, do_steps};
use crate::container_fixtures::started;
use crate::container_steps::{enter, exit};
use crate::containers::begin;
use crate::faults::reboot;
use crate::words::{add_number, expect_words};
use boot_core::Boot;
use container_core::{Container, JournalLimits, Ticket};
use crash_base::{ComponentNo, GroupNo, RowList, Scope};
use outside::{Keeper, SureKeeper};
use std::alloc::Global;
use std::process::Abort;

/// How often two calls are made.
const PAIRS: u64 = 1_600;

/// How often a call goes through all components.
const ROUNDS: u64 = 21;

/// The most frames that are open at once: one of the call that stays, and one in each component.
const MOST: usize = 4;

/// A container of the components a, b and c, of which a needs b, and b uses c.
fn container(rt: &impl Abort, alloc: Global) -> Container<SureKeeper> {
    let keeper = SureKeeper::new(RowList::new(alloc));
    let limits = JournalLimits {
        entries: 1_000,
        bytes: 0,
    };
    let plans = plan_list(rt, alloc, &[]);
    started(rt, alloc, "+a +b +c 0-1 1~2", keeper, plans, limits)
}

/// Enters a component, which is not refused.
fn go_in<K: Keeper + Drop>(
    rt: &impl Abort,
    container: &mut Container<K>,
    ticket: &mut Ticket,
    c: u16,
)
    requires { FitsIn container.old.boot ticket.old.call }
    ensures { FitsIn container.new.boot ticket.new.call }
{
    match enter(rt, container, ticket, ComponentNo(c)) {
        Ok(()) => {}
        Err(_) => panic!(rt; "an enter is refused"),
    }
}

/// Leaves a component, which is not refused.
fn go_out<K: Keeper + Drop>(rt: &impl Abort, container: &mut Container<K>, ticket: &mut Ticket)
    requires { FitsIn container.old.boot ticket.old.call }
    ensures { FitsIn container.new.boot ticket.new.call }
{
    match exit(rt, container, ticket) {
        Ok(()) => {}
        Err(_) => panic!(rt; "an exit is refused"),
    }
}

/// Asserts how many instances there are.
fn expect_count<K: Keeper + Drop>(rt: &impl Abort, container: &Container<K>, want: usize) {
    let count = container.as_boot().pool().instances();
    assert!(rt; count == want, "{count} instances, not {want}");
}

/// Enters each component from the one before, and leaves them all.
fn go_through<K: Keeper + Drop>(rt: &impl Abort, container: &mut Container<K>, ticket: &mut Ticket)
    requires { FitsIn container.old.boot ticket.old.call }
    ensures { FitsIn container.new.boot ticket.new.call }
{
    go_in(rt, container, ticket, 0);
    go_in(rt, container, ticket, 1);
    go_in(rt, container, ticket, 2);
    expect_count(rt, container, MOST);
    go_out(rt, container, ticket);
    go_out(rt, container, ticket);
    go_out(rt, container, ticket);
}

/// Makes all steps that a call may make, and is left inside of two components.
fn go_on<K: Keeper + Drop>(rt: &impl Abort, container: &mut Container<K>, ticket: &mut Ticket)
    requires { FitsIn container.old.boot ticket.old.call }
{
    for round in 0..ROUNDS {
        go_through(rt, container, ticket);
    }
    go_in(rt, container, ticket, 0);
    go_in(rt, container, ticket, 1);
    expect_count(rt, container, MOST);
}

/// Makes two calls, which enter 66 times and leave 63 times, and gives both up. The first stays in component a, while
/// the second goes through all of them. Of twenty pairs one meets a reboot of the group of a and b, or of all, while it
/// is open: what was made before that is gone.
fn make_pair(rt: &impl Abort, alloc: Global, container: &mut Container<SureKeeper>, number: u64) {
    let mut first = begin(rt, alloc, container, request(70));
    go_in(rt, container, &mut first, 0);
    let mut second = begin(rt, alloc, container, request(71));
    go_on(rt, container, &mut second);
    let left = if number % 100 == 99 {
        reboot(rt, container, Scope::App);
        0
    } else if number % 20 == 19 {
        reboot(rt, container, Scope::Group(GroupNo(0)));
        1
    } else {
        MOST
    };
    container.abandon(second);
    container.abandon(first);
    expect_count(rt, container, left);
}

/// Over 100,000 enters and exits there are never more instances than frames were open at once, and after a reboot none
/// that it dropped.
#[test]
fn instances_serve_one_call_after_another(rt: HostRuntime) {
    let mut container = container(&rt, rt.alloc());
    for number in 0..PAIRS {
        make_pair(&rt, rt.alloc(), &mut container, number);
    }
    drop(container);
}

/// Begins a call that is left inside of two components, and adds how many instances there are.
fn stay_inside(
    rt: &impl Abort,
    alloc: Global,
    words: &mut String,
    boot: &mut Boot,
    serial: u64,
) -> Ticket
    ensures { FitsIn boot.new result.call }
{
    let mut ticket = begin_in(rt, alloc, boot, serial, 4);
    do_steps(rt, alloc, words, boot, &mut ticket, "e0 e1");
    add_number(rt, words, boot.pool().instances() as u64);
    ticket
}

/// Commits a call inside of two components, and adds what that answers.
fn commit_inside(rt: &impl Abort, alloc: Global, words: &mut String, boot: &mut Boot, serial: u64) {
    let ticket = stay_inside(rt, alloc, words, boot, serial);
    commit(rt, alloc, words, boot, ticket);
}

/// Refuses the commit of a call inside of two components, and adds what that answers.
fn refuse_inside(rt: &impl Abort, alloc: Global, words: &mut String, boot: &mut Boot, serial: u64) {
    let ticket = stay_inside(rt, alloc, words, boot, serial);
    let refused = boot.refuse(ticket, &None);
    add_commit(rt, words, Err(refused));
}

/// A call finds the instances idle that served the frames of the one before: one that has committed, one whose commit
/// was refused, and one that was refused without trying.
#[test]
fn calls_that_end_give_their_instances_back(rt: HostRuntime) {
    let alloc = rt.alloc();
    let mut words = String::new(alloc);
    let mut boot = boot_of(&rt, alloc, "+a +b 0-1");
    commit_inside(&rt, alloc, &mut words, &mut boot, 70);
    commit_inside(&rt, alloc, &mut words, &mut boot, 70);
    refuse_inside(&rt, alloc, &mut words, &mut boot, 70);
    refuse_inside(&rt, alloc, &mut words, &mut boot, 71);
    commit_inside(&rt, alloc, &mut words, &mut boot, 71);
    drop(boot);
    let want = "2 0 2 already 0 2 already 0 2 out_of_memory 2 1";
    expect_words(&rt, &words, want, "inside of two components");
}
