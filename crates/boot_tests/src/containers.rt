//! Calls of a container, its history, and how it starts again.

ghost use Rattle.boot_core.specs.Fits.{FitsIn};

use crate::boot_fixtures::{LIMITS, plan_list, request};
use crate::container_fixtures::{SHOP, over_failing};
use crate::container_steps::{add_commit, do_steps};
use crate::keepers::add_kept;
use crate::starts::{add_boot, add_calls};
use crate::words::{add_named, add_pair, add_word, cut, expect_words, number};
use container_core::{Binding, Container, Ticket};
use crash_base::{ComponentName, GroupNo, RequestNo, Scope, WorkerNo};
use outside::Keeper;
use std::alloc::Global;
use std::process::Abort;

/// Begins a call.
pub fn begin<K: Keeper + Drop>(
    rt: &impl Abort,
    alloc: Global,
    container: &mut Container<K>,
    request: RequestNo,
) -> Ticket
    ensures { FitsIn container.new.boot result.call }
{
    container
        .begin(alloc, request, WorkerNo(4))
        .expect(rt, "a call")
}

/// Makes a whole call of these steps, and adds what they and its commit answer.
pub fn call<K: Keeper + Drop>(
    rt: &impl Abort,
    alloc: Global,
    words: &mut String,
    container: &mut Container<K>,
    request: RequestNo,
    steps: &str,
) {
    let mut ticket = begin(rt, alloc, container, request);
    do_steps(rt, alloc, words, container, &mut ticket, steps);
    let answer = container.commit(alloc, ticket, None);
    add_commit(rt, words, answer);
}

/// Adds the number of the events after a `.`, or after a `!` where the container was stopped.
fn add_events<K: Keeper + Drop>(rt: &impl Abort, words: &mut String, container: &Container<K>) {
    let mark = if container.stopped() { "!" } else { "." };
    add_named(rt, words, mark, container.events());
}

/// Makes a call that enters component 1, and is given up.
fn give_up<K: Keeper + Drop>(
    rt: &impl Abort,
    alloc: Global,
    words: &mut String,
    container: &mut Container<K>,
) {
    let mut ticket = begin(rt, alloc, container, request(80));
    do_steps(rt, alloc, words, container, &mut ticket, "e");
    container.abandon(ticket);
}

/// Adds how often the stock was rebooted, or the place of the Down that keeps it down.
fn find_stock<K: Keeper + Drop>(
    rt: &impl Abort,
    alloc: Global,
    words: &mut String,
    container: &Container<K>,
) {
    let name = ComponentName::copied(alloc, b"stock").expect(rt, "a name");
    match container.find(&name) {
        Some(Binding::Live { generation, .. }) => add_named(rt, words, "live", generation),
        Some(Binding::Sentinel { down, .. }) => add_named(rt, words, "sentinel", down.0),
        None => add_word(rt, words, "unknown"),
    }
}

/// Reboots group 1, with a call in between that cannot enter it.
fn reboot<K: Keeper + Drop>(
    rt: &impl Abort,
    alloc: Global,
    words: &mut String,
    container: &mut Container<K>,
) {
    let down = match container.begin_reboot(Scope::Group(GroupNo(1))) {
        Ok(down) => down,
        Err(_) => panic!(rt; "the reboot is refused"),
    };
    give_up(rt, alloc, words, container);
    find_stock(rt, alloc, words, container);
    assert!(rt; container.is_undone(down));
    let up = container.end_reboot(down);
    find_stock(rt, alloc, words, container);
    add_pair(rt, words, down.0, "-", up.0);
}

/// Does what a line says: `stop`, `reboot`, or a call, of which it has the number of the request and the steps. Adds
/// what it answers, and the number of the events.
fn do_line<K: Keeper + Drop>(
    rt: &impl Abort,
    alloc: Global,
    words: &mut String,
    container: &mut Container<K>,
    line: &str,
) {
    if let Some((serial, steps)) = line.split_once(':') {
        call(
            rt,
            alloc,
            words,
            container,
            request(number(rt, serial)),
            steps,
        );
    } else if line == "reboot" {
        reboot(rt, alloc, words, container);
    } else if line == "stop" {
        container.stop();
    }
    add_events(rt, words, container);
}

fn do_lines<K: Keeper + Drop>(
    rt: &impl Abort,
    alloc: Global,
    words: &mut String,
    container: &mut Container<K>,
    lines: &str,
) {
    for line in lines.split(';') {
        do_line(rt, alloc, words, container, line);
    }
}

/// Starts the container again, which is not refused, and adds its boot.
fn reopen<K: Keeper + Drop>(
    rt: &impl Abort,
    alloc: Global,
    words: &mut String,
    container: Container<K>,
) -> Container<K> {
    let (opened, _) = container.reopen(alloc);
    match opened {
        Ok(container) => {
            add_boot(rt, alloc, words, &container);
            container
        }
        Err(_) => panic!(rt; "the container is not started again"),
    }
}

/// The number of the call of the keeper that fails; the lines before the container is started again; those after that;
/// and what all of them answer, each with the number of the events, with the boot in between. At the end stand the
/// calls of the keeper, its faults and its rows.
const HISTORIES: &str =
    "0|stop;stop;70:e p3.7=a;stop;71:e r3.7|70:e r3.7 p3.7=c;70:e p3.8=b;stop|!2 !2 0 !3 !3 a 1 !4 boot2 0.0=00000002 3.7=61 a 0 .2 already0 .2 !3 6/0 0.0=00000002 3.7=63
3|70:e p3.7=a;70:e p3.7=b;stop;71:e|70:e r3.7|keeper_failed .2 0 .3 !4 1 !5 boot2 0.0=00000002 3.7=62 b 0 .2 6/1 0.0=00000002 3.7=62
4|70:e p3.7=a;70:e p3.7=b;71:e r3.7;stop;72:e p3.7=c|70:e r3.7|0 .2 already0 .2 a 1 .3 !4 keeper_failed !5 boot2 0.0=00000002 3.7=61 a 0 .2 6/1 0.0=00000002 3.7=61
0|reboot;70:e p3.7=a|reboot;stop|down0 sentinel0 live1 0-1 .3 2 .4 boot2 0.0=00000002 3.7=61 down0 sentinel0 live1 0-1 .3 !4 5/0 0.0=00000002 3.7=61
0|70:e p3.7=a p3.8=b x;71:c e p3.8=c p3.6=d l x c|70:e l|left 0 .2 live 3.6=64 3.7=61 3.8=63 left live 1 .3 boot2 0.0=00000002 3.6=64 3.7=61 3.8=63 3.6=64 3.7=61 3.8=63 0 .2 6/0 0.0=00000002 3.6=64 3.7=61 3.8=63";

fn expect_history(rt: &impl Abort, alloc: Global, row: &str) {
    let (failing, text) = cut(rt, row, '|');
    let (before, text) = cut(rt, text, '|');
    let (after, want) = cut(rt, text, '|');
    let mut words = String::new(alloc);
    let plans = plan_list(rt, alloc, &[]);
    let mut first = over_failing(rt, alloc, SHOP, number(rt, failing), plans, LIMITS);
    do_lines(rt, alloc, &mut words, &mut first, before);
    let mut second = reopen(rt, alloc, &mut words, first);
    do_lines(rt, alloc, &mut words, &mut second, after);
    let mut keeper = second.into_keeper();
    add_calls(rt, &mut words, &keeper);
    add_kept(rt, alloc, &mut words, &mut keeper);
    expect_words(rt, &words, want, row);
}

#[test]
fn a_container_has_a_history_and_starts_again(rt: HostRuntime) {
    for row in HISTORIES.split('\n') {
        expect_history(&rt, rt.alloc(), row);
    }
}
