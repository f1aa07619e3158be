//! Calls and reboots of a boot, and what they leave in its journal, its rows and its names.

ghost use Rattle.commit_journal.specs.Journal.{IsScope};

use crate::boot_fixtures::{boot_of, name};
use crate::boot_steps::{begin, call, do_steps};
use crate::journals::expect_entries;
use crate::names::add_binding;
use crate::words::{add_named, add_number, add_pair, add_row, expect_so, expect_words};
use boot_core::{
    Boot, MAX_ENTRIES, MAX_FRAMES, MAX_JOURNAL_BYTES, MAX_MARKS, MAX_STEPS, MAX_WRITES,
};
use crash_base::{GroupNo, Place, Scope};
use deployment::MAX_METHODS;
use std::alloc::Global;
use std::process::Abort;

/// A cart and a stock, which owns two tables.
const SHOP: &str = "+cart +stock 3=1 4=1";

/// Adds the current rows.
fn add_current(rt: &impl Abort, alloc: Global, words: &mut String, boot: &Boot) {
    let at = Place(boot.journal().len());
    let rows = boot.rows().all_at(alloc, at).expect(rt, "the rows");
    for row in rows.as_slice() {
        add_row(rt, words, row);
    }
}

/// Makes two calls, and asserts where they committed, what the current rows are then, and what the journal holds.
fn make_calls(rt: &impl Abort, alloc: Global, boot: &mut Boot) {
    let mut words = String::new(alloc);
    let first = "e1 p3.7=o p3.2=t p3.7=n p3.5=f";
    call(rt, alloc, &mut words, boot, 70, 4, first);
    call(rt, alloc, &mut words, boot, 71, 6, "e1 p3.2=u p3.1=s");
    add_current(rt, alloc, &mut words, boot);
    expect_words(rt, &words, "0 1 3.1=s 3.2=u 3.5=f 3.7=n", first);
    let want = "1:70 4@0 1#0 0 3.7=n 3.2=t 3.5=f 1:71 6@1 1#0 1 3.2=u 3.1=s";
    expect_entries(rt, alloc, boot.journal().entries(), want);
}

/// Gives up a call, and asserts that the journal holds nothing of it.
fn give_up(rt: &impl Abort, alloc: Global, boot: &mut Boot) {
    let mut words = String::new(alloc);
    let mut ticket = begin(rt, alloc, boot, 70, 4);
    do_steps(rt, alloc, &mut words, boot, &mut ticket, "e1 p3.7=a x");
    boot.abandon(ticket);
    expect_entries(rt, alloc, boot.journal().entries(), "");
}

/// Begins the reboot of a scope.
pub fn begin_reboot(rt: &impl Abort, boot: &mut Boot, scope: Scope) -> Place
    requires { IsScope scope }
{
    match boot.begin_reboot(scope) {
        Ok(down) => down,
        Err(_) => panic!(rt; "the reboot is refused"),
    }
}

/// Ends the reboot that a Down began.
pub fn end_reboot(rt: &impl Abort, boot: &mut Boot, down: Place) -> Place {
    assert!(rt; boot.is_undone(down));
    boot.end_reboot(down)
}

/// Adds what the name of component 1 is bound to, and the place of the Down of its group if it is down.
fn add_stock(rt: &impl Abort, alloc: Global, words: &mut String, boot: &Boot) {
    add_binding(rt, words, boot.find(&name(rt, alloc, b"stock")));
    if let Some(down) = boot.undone_of(Scope::Group(GroupNo(1))) {
        add_named(rt, words, "down", down.0);
    }
}

/// Reboots group 1.
fn reboot(rt: &impl Abort, alloc: Global, boot: &mut Boot) {
    let mut words = String::new(alloc);
    add_stock(rt, alloc, &mut words, boot);
    let down = begin_reboot(rt, boot, Scope::Group(GroupNo(1)));
    add_stock(rt, alloc, &mut words, boot);
    let up = end_reboot(rt, boot, down);
    add_stock(rt, alloc, &mut words, boot);
    add_pair(rt, &mut words, down.0, "-", up.0);
    add_number(rt, &mut words, u64::from(boot.number()));
    expect_words(rt, &words, "1.0 1!0 down0 1.1 0-1 1", "stock");
}

/// Contracts cite limits by their names alone, so their values are tested.
fn expect_limits(rt: &impl Abort) {
    let calls = MAX_FRAMES == 16
        && MAX_STEPS == 128
        && MAX_MARKS == 64
        && MAX_WRITES == 16
        && MAX_METHODS == 16;
    let journal = MAX_ENTRIES == 262_144 && MAX_JOURNAL_BYTES == 268_435_456;
    expect_so(rt, calls && journal, "limits");
}

#[test]
fn boots_commit_give_up_and_reboot(rt: HostRuntime) {
    let mut boot = boot_of(&rt, rt.alloc(), SHOP);
    make_calls(&rt, rt.alloc(), &mut boot);
    drop(boot);
    let mut boot = boot_of(&rt, rt.alloc(), SHOP);
    give_up(&rt, rt.alloc(), &mut boot);
    drop(boot);
    let mut boot = boot_of(&rt, rt.alloc(), SHOP);
    reboot(&rt, rt.alloc(), &mut boot);
    drop(boot);
    expect_limits(&rt);
}
