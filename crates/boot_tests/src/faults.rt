//! Components of a container that fail by fault plans, and what cures them.
//!
//! A row has the fault plans, what is done, and after another bar what that answers. The components are a, b and c, of
//! which a needs b. `a` begins a call that enters component a, and stays open. `reboot:a` reboots the group of a, and
//! `reboot:app` the application; `down:a` begins the reboot of a group that is not ended; `reopen` starts the container
//! again, where all calls are gone.
//!
//! A call answers `in`, or why it is refused: `raised0.1` is component 0 by plan 1, and `0!2` group 0 by the Down at
//! place 2. Last comes how many instances are left once all calls are given up.

ghost use Rattle.commit_journal.specs.Journal.{IsScope};

use crate::boot_fixtures::{LIMITS, request};
use crate::boot_steps::add_refusal;
use crate::container_fixtures::started;
use crate::container_steps::enter;
use crate::containers::begin;
use crate::plans::{component_of, plans_of};
use crate::words::{add_named, add_number, add_pair, add_word, cut, expect_words};
use container_core::{Container, Ticket};
use crash_base::{ComponentNo, GroupNo, Place, RowList, Scope};
use outside::{Keeper, SureKeeper};
use std::alloc::Global;
use std::process::Abort;

/// The application, or the group of a component.
pub fn scope_of(name: &str) -> Scope
    ensures { IsScope result }
{
    match name {
        "app" => Scope::App,
        "c" => Scope::Group(GroupNo(2)),
        _ => Scope::Group(GroupNo(0)),
    }
}

/// A container with these plans, over a keeper that holds no rows.
fn container(rt: &impl Abort, alloc: Global, plans: &str) -> Container<SureKeeper> {
    let keeper = SureKeeper::new(RowList::new(alloc));
    let plans = plans_of(rt, alloc, plans);
    started(rt, alloc, "+a +b +c 0-1", keeper, plans, LIMITS)
}

/// Begins a call that enters a component, and adds what that answers.
fn call<K: Keeper + Drop>(
    rt: &impl Abort,
    alloc: Global,
    words: &mut String,
    container: &mut Container<K>,
    open: &mut Vec<Ticket>,
    c: ComponentNo,
) {
    let mut ticket = begin(rt, alloc, container, request(70));
    match enter(rt, container, &mut ticket, c) {
        Ok(()) => add_word(rt, words, "in"),
        Err(refusal) => add_refusal(rt, words, refusal),
    }
    open.push(ticket).expect(rt, "room");
}

/// Begins the reboot of a scope.
pub fn begin_reboot<K: Keeper + Drop>(
    rt: &impl Abort,
    container: &mut Container<K>,
    scope: Scope,
) -> Place
    requires { IsScope scope }
{
    match container.begin_reboot(scope) {
        Ok(down) => down,
        Err(_) => panic!(rt; "the reboot is refused"),
    }
}

/// Reboots a scope, and answers the places of its Down and its Up.
pub fn reboot<K: Keeper + Drop>(
    rt: &impl Abort,
    container: &mut Container<K>,
    scope: Scope,
) -> (Place, Place)
    requires { IsScope scope }
{
    let down = begin_reboot(rt, container, scope);
    assert!(rt; container.is_undone(down));
    (down, container.end_reboot(down))
}

/// Starts the container again, and adds the number of its boot.
fn reopen<K: Keeper + Drop>(
    rt: &impl Abort,
    alloc: Global,
    words: &mut String,
    container: Container<K>,
) -> Container<K> {
    let (opened, _) = container.reopen(alloc);
    match opened {
        Ok(container) => {
            add_named(rt, words, "boot", u64::from(container.boot()));
            container
        }
        Err(_) => panic!(rt; "the container is not started again"),
    }
}

/// Does what a word says of a container that goes on, and adds what that answers.
fn do_step<K: Keeper + Drop>(
    rt: &impl Abort,
    alloc: Global,
    words: &mut String,
    container: &mut Container<K>,
    open: &mut Vec<Ticket>,
    step: &str,
) {
    if let Some(name) = step.strip_prefix("reboot:") {
        let (down, up) = reboot(rt, container, scope_of(name));
        add_pair(rt, words, down.0, "-", up.0);
    } else if let Some(name) = step.strip_prefix("down:") {
        let down = begin_reboot(rt, container, scope_of(name));
        add_named(rt, words, "down", down.0);
    } else {
        call(rt, alloc, words, container, open, component_of(rt, step));
    }
}

/// Does what the words of a text say.
fn do_steps<K: Keeper + Drop>(
    rt: &impl Abort,
    alloc: Global,
    words: &mut String,
    container: Container<K>,
    open: &mut Vec<Ticket>,
    steps: &str,
) -> Container<K> {
    let mut container = container;
    for step in steps.split(' ') {
        if step == "reopen" {
            open.clear();
            container = reopen(rt, alloc, words, container);
        } else {
            do_step(rt, alloc, words, &mut container, open, step);
        }
    }
    container
}

/// Gives these calls up, and adds how many instances are left.
fn give_up<K: Keeper + Drop>(
    rt: &impl Abort,
    words: &mut String,
    container: &mut Container<K>,
    open: Vec<Ticket>,
) {
    for ticket in open {
        container.abandon(ticket);
    }
    add_number(rt, words, container.as_boot().pool().instances() as u64);
}

/// Each level of cure beside each level of reboot that a container makes. Then plans of one component and of several:
/// the first that is active counts, by the enterings of its component that were not refused. A group that is down is
/// told before a plan.
const ROWS: &str = "a 0 raise group|a reboot:a a|raised0.0 0-1 in 1
a 0 raise group|a reboot:app a|raised0.0 0-1 in 1
a 0 raise group|a reopen a|raised0.0 boot2 in 1
a 0 raise app|a reboot:a a|raised0.0 0-1 raised0.0 0
a 0 raise app|a reboot:app a|raised0.0 0-1 in 1
a 0 raise app|a reopen a|raised0.0 boot2 in 1
a 0 raise process|a reboot:a a|raised0.0 0-1 raised0.0 0
a 0 raise process|a reboot:app a|raised0.0 0-1 raised0.0 0
a 0 raise process|a reopen a|raised0.0 boot2 in 1
a 0 raise human|a reboot:a a|raised0.0 0-1 raised0.0 0
a 0 raise human|a reboot:app a|raised0.0 0-1 raised0.0 0
a 0 raise human|a reopen a|raised0.0 boot2 raised0.0 0
a 1 raise app|a a reboot:a a reboot:app a|in raised0.0 0-1 raised0.0 2-3 in 1
a 1 raise app|a b c b c a|in in in in in raised0.0 5
a 2 hang app|a a a c|in in hung0.0 in 3
b 0 hang group|b reboot:c b a reboot:a b|hung1.0 0-1 hung1.0 in 2-3 in 1
b 0 hang group|b a reboot:b b a|hung1.0 in 0-1 in in 2
c 0 raise app|c reboot:a c reboot:c c reboot:app c|raised2.0 0-1 raised2.0 2-3 raised2.0 4-5 in 1
a 0 hang group,a 0 raise app|a reboot:a a reboot:app a|hung0.0 0-1 raised0.1 2-3 in 1
a 1 hang app,a 0 raise group|a a reboot:a a a|raised0.1 raised0.1 0-1 in hung0.0 1
a 0 leak group,a 0 raise app|a a reboot:a a|in in 0-1 raised0.1 0
c 0 raise app,a 1 raise app,c 0 hang human|c a a c|raised2.0 in raised0.1 raised2.0 1
a 1 raise group,a 1 hang human,c 0 raise process|a a reopen a a c|in raised0.0 boot2 in hung0.0 in 2
a 0 raise human|down:a a b c|down0 0!0 0!0 in 1";

fn expect_row(rt: &impl Abort, alloc: Global, row: &str) {
    let (plans, text) = cut(rt, row, '|');
    let (steps, want) = cut(rt, text, '|');
    let mut words = String::new(alloc);
    let mut open = Vec::new(alloc);
    let first = container(rt, alloc, plans);
    let mut last = do_steps(rt, alloc, &mut words, first, &mut open, steps);
    give_up(rt, &mut words, &mut last, open);
    drop(last);
    expect_words(rt, &words, want, row);
}

#[test]
fn components_fail_until_they_are_cured(rt: HostRuntime) {
    for row in ROWS.split('\n') {
        expect_row(&rt, rt.alloc(), row);
    }
}
