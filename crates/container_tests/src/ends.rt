//! Tests of how a server ends to which nobody comes.

use crate::links::LinkShelf;
use crate::served::{Run, house, let_run, log_of, of_row};
use crate::starts::LonelyGate;
use crash_base::RowList;
use outside::{CallList, MapKeeper};
use std::alloc::Global;
use std::process::Abort;
use std::sync::Wait;
use std::thread::Threads;

/// How many workers there are to be, whether the gate has memory for its plans, the keeper, the status, how many calls
/// of the keeper were made, how many rows it has then, and what the operator is told. The gate has tools for four
/// threads, two of which are workers.
const ENDS: &str = "1 plans empty: 0 2 1 boot 1 started over 0 rows
2 plans empty: 0 2 1 boot 1 started over 0 rows
3 plans empty: 9 0 0 out of memory
1 none empty: 9 0 0 out of memory
1 plans unread: 6 1 0 keeper failed
1 plans unwritten: 6 2 0 keeper failed
1 plans long: 7 1 1 bad row 3 12
1 plans strange: 7 1 1 bad row 0 1
1 plans longest: 0 2 2 boot 1 started over 1 rows
1 plans last: 11 1 1 boots spent
1 plans before_last: 0 2 1 boot 4294967295 started over 0 rows";

/// A keeper of no rows, one call of which may fail.
fn failing(rt: &impl Abort, alloc: Global, call: u64) -> MapKeeper {
    let mut calls = CallList::new(alloc);
    calls.push(call).expect(rt, "a call");
    MapKeeper::new(alloc, RowList::new(alloc), calls).expect(rt, "a keeper")
}

/// The keeper that a word names: `last` is that of a last boot whose number is the greatest.
fn keeper(rt: &impl Abort, alloc: Global, word: &str) -> MapKeeper {
    match word {
        "empty" => failing(rt, alloc, 0),
        "unread" => failing(rt, alloc, 1),
        "unwritten" => failing(rt, alloc, 2),
        "long" => of_row(rt, alloc, 3, 12, &[0; 4097]),
        "strange" => of_row(rt, alloc, 0, 1, &[0, 0, 0, 1]),
        "longest" => of_row(rt, alloc, 3, 12, &[0; 4096]),
        "last" => of_row(rt, alloc, 0, 0, &[255, 255, 255, 255]),
        "before_last" => of_row(rt, alloc, 0, 0, &[255, 255, 255, 254]),
        _ => panic!(rt; "a keeper"),
    }
}

/// Lets a server run.
fn end_of<R: Threads + Wait + Abort + Sync>(rt: &R, alloc: Global, words: &str) -> Run {
    let mut words = words.split(' ');
    let workers: u16 = words
        .next()
        .expect(rt, "workers")
        .parse()
        .ok()
        .expect(rt, "workers");
    let has_plans = words.next() == Some("plans");
    let keeper = keeper(rt, alloc, words.next().expect(rt, "a keeper"));
    let (house, seats) = house(rt, alloc);
    let shelf = LinkShelf::new(rt, alloc, &house, seats).expect(rt, "links");
    let gate = LonelyGate {
        alloc,
        shelf,
        has_plans,
    };
    assert!(rt; workers >= 1);
    assert!(rt; workers <= 64);
    let_run(rt, alloc, &gate, workers, keeper)
}

/// How a server ended, in words.
fn words_of(rt: &impl Abort, alloc: Global, ran: &Run) -> String {
    let status = ran.status;
    let calls = ran.keeper.calls();
    let rows = ran.keeper.rows(alloc).expect(rt, "rows").len();
    let log = log_of(rt, ran);
    format!(in alloc; "{status} {calls} {rows} {log}").expect(rt, "words")
}

#[test]
fn a_server_ends_with_its_keeper(rt: HostRuntime) {
    let alloc = rt.alloc();
    for row in ENDS.lines() {
        let (words, want) = row.split_once(": ").expect(&rt, row);
        let ran = end_of(&rt, alloc, words);
        let found = words_of(&rt, alloc, &ran);
        assert!(rt; found.trim_end() == want, "{row}: {found}");
        assert!(rt; ran.has_closed == (ran.status == 0), "{row}");
    }
}
