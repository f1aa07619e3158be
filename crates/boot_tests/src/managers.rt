//! What is decided on reports of requests that failed.

use crate::parts::deployment_of;
use crate::scores::path_of;
use crate::words::{add_named, add_word, cut, expect_so, expect_words, number};
use crash_base::{ComponentNo, GroupNo, Level, Moment, PathList};
use failure_scores::{FailureReport, PathReport};
use recovery_manager::{Decision, Manager};
use std::alloc::Global;
use std::process::Abort;

/// The shop of the auction: each component that needs another by a hard reference shares its group.
const SHOP: &str = "*8 5-3 6-3 7-1";

fn add_decision(rt: &impl Abort, words: &mut String, decision: Decision) {
    match decision {
        Decision::None => add_word(rt, words, "none"),
        Decision::Reboot(Level::Group(group)) => {
            add_named(rt, words, "group", u64::from(group.0));
        }
        Decision::Reboot(Level::App) => add_word(rt, words, "app"),
        Decision::Reboot(Level::Process) => add_word(rt, words, "process"),
        Decision::Reboot(Level::Human) => add_word(rt, words, "human"),
    }
}

/// What is decided on a report.
fn report(
    rt: &impl Abort,
    alloc: Global,
    manager: &mut Manager,
    path: &PathList,
    moment: u64,
) -> Decision {
    assert!(rt; manager.latest().0 <= moment);
    manager
        .report(alloc, path, Moment(moment))
        .expect(rt, "a decision")
}

/// What is decided on a full journal.
fn journal_full(rt: &impl Abort, manager: &mut Manager, moment: u64) -> Decision {
    assert!(rt; manager.latest().0 <= moment);
    manager
        .journal_full(Moment(moment))
        .expect(rt, "a decision")
}

/// What is decided on a report that is handed on.
fn hear(rt: &impl Abort, manager: &mut Manager, report: FailureReport) -> Decision {
    manager.hear(report).expect(rt, "a decision")
}

/// What is decided on a report of the path that a text spells, which is handed on.
fn hear_path(
    rt: &impl Abort,
    alloc: Global,
    manager: &mut Manager,
    text: &str,
    at: u64,
) -> Decision {
    let path = path_of(rt, alloc, text);
    let moment = Moment(at);
    hear(
        rt,
        manager,
        FailureReport::Path(PathReport { path, moment }),
    )
}

/// What is decided on a report of the path that a text spells.
fn report_path(
    rt: &impl Abort,
    alloc: Global,
    manager: &mut Manager,
    text: &str,
    at: u64,
) -> Decision {
    let path = path_of(rt, alloc, text);
    report(rt, alloc, manager, &path, at)
}

/// Adds what is decided on reports of a path, as often as a text says: `3x1.2` is three reports, and `3h1.2` three that
/// are handed on.
fn add_reports(
    rt: &impl Abort,
    alloc: Global,
    manager: &mut Manager,
    words: &mut String,
    event: &str,
    at: u64,
) {
    let mark = if event.contains('h') { 'h' } else { 'x' };
    let (times, path) = cut(rt, event, mark);
    for _ in 0..number(rt, times) {
        let decision = if mark == 'h' {
            hear_path(rt, alloc, manager, path, at)
        } else {
            report_path(rt, alloc, manager, path, at)
        };
        add_decision(rt, words, decision);
    }
}

/// Does what a word says. `3x1.2@5` is three reports of a path at 5, and `full@5` a full journal at 5; `3h1.2@5` and
/// `heard@5` are the same where they are handed on, which may be later than others.
fn do_word(rt: &impl Abort, alloc: Global, manager: &mut Manager, words: &mut String, word: &str) {
    let (event, moment) = cut(rt, word, '@');
    let moment = number(rt, moment);
    match event {
        "full" => add_decision(rt, words, journal_full(rt, manager, moment)),
        "heard" => {
            let report = FailureReport::JournalFull(Moment(moment));
            add_decision(rt, words, hear(rt, manager, report));
        }
        _ => add_reports(rt, alloc, manager, words, event, moment),
    }
}

/// A row has the parts of a deployment, what its manager is told, and after another bar what that decides.
fn expect_row(rt: &impl Abort, alloc: Global, row: &str) {
    let (parts, text) = cut(rt, row, '|');
    let (script, want) = cut(rt, text, '|');
    let deployment = deployment_of(rt, alloc, parts);
    let mut manager = Manager::new(alloc, &deployment).expect(rt, "a manager");
    let mut words = String::new(alloc);
    for word in script.split(' ') {
        do_word(rt, alloc, &mut manager, &mut words, word);
    }
    expect_words(rt, &words, want, row);
}

/// Decisions widen and consume. In the shop of the auction, components that need one another are one group. At last
/// there, earlier reports are taken as of the last one's moment.
const ROWS: &str =
    "+a +b +c 0-1|3x0@0 9x0@29999 3x0@60000|none none group0 none none app none none process none none human none none group0
+a +b +c 0-1|3x0@0 3x0@30000 3x0@60001|none none group0 none none app none none group0
+a +b +c 0-1|3x0@0 3x0@30001|none none group0 none none group0
+a +b +c 0-1|3x0@0 3x2@1 3x1@2|none none group0 none none group2 none none app
+a +b +c 0-1|3x0@0 3x0@1 3x2@2|none none group0 none none app none none process
+a +b +c 0-1|2x0@0 1x0@10000|none none group0
+a +b +c 0-1|2x0@0 1x0@10001 2x0@10002|none none none none group0
+a +b +c 0-1|2x0.2@0 1x2@1 2x0@2|none none group2 none none
+a +b +c 0-1|2x2.1@0 1x1.2@1|none none group0
+a +b +c 0-1|1x2.2.2@0 2x2@1|none none group2
+a +b +c 0-1|9x3@0 2x3.2@1 1x2.3@2|none none none none none none none none none none none group2
+a +b +c 0-1|9x-@0|none none none none none none none none none
+a +b +c 0-1|full@0 3x2@30000 full@30000 3x2@60000|process none none human process none none human
+a +b +c 0-1|full@0 3x2@30001|process none none group2
+a +b +c 0-1|2x0@0 full@0 1x0@0|none none process human
*8 5-3 6-3 7-1|1x0@0|none
*8 5-3 6-3 7-1|full@0|process
*8 5-3 6-3 7-1|3x6@0|none none group3
*8 5-3 6-3 7-1|3x0.5@0|none none group0
*8 5-3 6-3 7-1|2h0@20000 1h0@5|none none group0
*8 5-3 6-3 7-1|3h0.5@20000 3h5@0 3h0@30001|none none group0 none none group3 none none app
*8 5-3 6-3 7-1|heard@20000 3h2@5 heard@7 3h2@50001|process none none human process none none group2
*8 5-3 6-3 7-1|2h0@0 1h0@10001 2h0@10000|none none none none group0";

#[test]
fn decisions_widen_and_consume(rt: HostRuntime) {
    for row in ROWS.split('\n') {
        expect_row(&rt, rt.alloc(), row);
    }
}

/// All that a manager was told and decided: each report with its path, each act with its level.
#[derive(Drop)]
struct Told {
    paths: Vec<(u64, PathList)>,
    /// How many of the paths are consumed.
    consumed: usize,
    acts: Vec<(u64, Level)>,
}

/// The groups of the components of `SHOP`, worked out by hand.
const GROUPS: [u16; 8] = [0, 1, 2, 3, 4, 3, 3, 1];

/// How many paths of the last ten seconds, that are not consumed, have a component.
fn count(told: &Told, component: u16, now: u64) -> u64 {
    let mut count = 0u64;
    for (place, (moment, path)) in told.paths.iter().enumerate() {
        let recent = now.wrapping_sub(*moment) <= 10_000;
        if place >= told.consumed && recent && path.as_slice().iter().any(|c| c.0 == component) {
            count = count.wrapping_add(1);
        }
    }
    count
}

/// How wide the widest act of the last thirty seconds is that rebooted a group: 0 where there is none.
fn widest(told: &Told, group: u16, now: u64) -> u64 {
    let mut widest = 0u64;
    for (moment, level) in &told.acts {
        if now.wrapping_sub(*moment) <= 30_000 {
            widest = widest.max(match level {
                Level::Group(own) => if own.0 == group { 1 } else { 0 },
                Level::App => 2,
                Level::Process => 3,
                Level::Human => 4,
            });
        }
    }
    widest
}

/// What a plain count decides for a group.
fn wanted_for(told: &Told, group: u16, now: u64) -> Decision {
    Decision::Reboot(match widest(told, group, now) {
        0 => Level::Group(GroupNo(group)),
        1 => Level::App,
        2 => Level::Process,
        _ => Level::Human,
    })
}

/// What a plain count over all that was told decides.
fn wanted(told: &Told, now: u64) -> Decision {
    let mut most = 0u64;
    let mut decision = Decision::None;
    for (component, group) in GROUPS.iter().enumerate() {
        let count = count(told, component as u16, now);
        if count > most {
            most = count;
            decision = wanted_for(told, *group, now);
        }
    }
    if most < 3 { Decision::None } else { decision }
}

fn keep_act(rt: &impl Abort, told: &mut Told, now: u64, decision: Decision) {
    if let Decision::Reboot(level) = decision {
        told.acts.push((now, level)).expect(rt, "an act");
    }
}

fn expect_same(rt: &impl Abort, alloc: Global, found: Decision, want: Decision) {
    let mut found_words = String::new(alloc);
    let mut want_words = String::new(alloc);
    add_decision(rt, &mut found_words, found);
    add_decision(rt, &mut want_words, want);
    expect_so(rt, found_words == want_words, &found_words);
}

/// A path that a number tells: at most four of ten numbers, of which eight are components.
fn chance_path(rt: &impl Abort, alloc: Global, number: u64) -> PathList {
    let mut path = PathList::new(alloc);
    let mut digits = number / 64;
    for _ in 0..number % 5 {
        path.push(ComponentNo((digits % 10) as u16))
            .expect(rt, "a path");
        digits /= 10;
    }
    path
}

fn report_next(
    rt: &impl Abort,
    alloc: Global,
    manager: &mut Manager,
    told: &mut Told,
    number: u64,
    now: u64,
) {
    let path = chance_path(rt, alloc, number);
    let found = report(rt, alloc, manager, &path, now);
    told.paths.push((now, path)).expect(rt, "a report");
    let want = wanted(told, now);
    expect_same(rt, alloc, found, want);
    if let Decision::Reboot(_) = want {
        told.consumed = told.paths.len();
    }
    keep_act(rt, told, now, want);
}

fn fill_next(rt: &impl Abort, alloc: Global, manager: &mut Manager, told: &mut Told, now: u64) {
    let want = Decision::Reboot(Level::Process);
    expect_same(rt, alloc, journal_full(rt, manager, now), want);
    keep_act(rt, told, now, want);
}

#[test]
fn ten_thousand_reports_beside_a_plain_count(rt: HostRuntime) {
    let deployment = deployment_of(&rt, rt.alloc(), SHOP);
    let mut manager = Manager::new(rt.alloc(), &deployment).expect(&rt, "a manager");
    let mut told = Told {
        paths: Vec::new(rt.alloc()),
        consumed: 0,
        acts: Vec::new(rt.alloc()),
    };
    let mut state = 7u64;
    let mut now = 0u64;
    for _ in 0..10_000 {
        state = state
            .wrapping_mul(6_364_136_223_846_793_005)
            .wrapping_add(1_442_695_040_888_963_407);
        let number = state >> 33;
        now = now.saturating_add(number % 4_001);
        if number % 97 == 0 {
            fill_next(&rt, rt.alloc(), &mut manager, &mut told, now);
        } else {
            report_next(
                &rt,
                rt.alloc(),
                &mut manager,
                &mut told,
                number / 4_001,
                now,
            );
        }
    }
    expect_so(&rt, told.consumed > 0, "a reboot");
    expect_so(&rt, told.acts.len() > 300, "reboots");
}
