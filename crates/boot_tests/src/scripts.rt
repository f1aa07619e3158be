//! Commits and starts over keepers of which one call fails, against rows that are worked out here.

use crate::boot_fixtures::{LIMITS, plan_list, request};
use crate::container_fixtures::{SHOP, started};
use crate::containers::call;
use crate::keepers::{SilentKeeper, add_kept, failing_keeper};
use crate::kept_words::add_bytes;
use crate::parts::deployment_of;
use crate::starts::{add_rows, add_start_refusal};
use crate::words::{add_named, add_pair, add_word, cut, expect_so, expect_words, number};
use container_core::{Container, StartFail};
use crash_base::RowList;
use outside::Keeper;
use std::alloc::Global;
use std::process::Abort;

/// What a script has come to: the number of the boot, the byte of each row of table 3 by its key, with 0 where there is
/// none, the calls of the keeper, which of them fails, and the events of the container.
#[derive(Drop)]
struct Expected {
    boot: u32,
    rows: [u8; 5],
    calls: u64,
    failing: u64,
    events: u64,
}

impl Expected {
    /// Counts a call of the keeper, and answers whether it fails.
    fn fails(&mut self) -> bool {
        self.calls = self.calls.saturating_add(1);
        self.calls == self.failing
    }

    /// Starts a container, and answers whether that is refused.
    fn start(&mut self) -> bool {
        if self.fails() || self.fails() {
            return true;
        }
        self.boot = self.boot.saturating_add(1);
        self.events = 1;
        false
    }

    /// Puts a row where a step does.
    fn put(&mut self, rt: &impl Abort, step: &str) {
        if let Some(row) = step.strip_prefix("p3.") {
            let (key, bytes) = cut(rt, row, '=');
            let key = number(rt, key) as usize;
            assert!(rt; key < 5 && bytes.len() == 1);
            self.rows[key] = bytes.as_bytes()[0];
        }
    }

    /// Commits a call of these steps, and answers whether the keeper fails.
    fn commit(&mut self, rt: &impl Abort, steps: &str) -> bool {
        self.events = self.events.saturating_add(1);
        if steps.contains('p') && self.fails() {
            return true;
        }
        for step in steps.split(' ') {
            self.put(rt, step);
        }
        false
    }
}

/// Adds a row, where there is one.
fn add_expected_row(rt: &impl Abort, words: &mut String, key: usize, byte: u8) {
    if byte > 0 {
        add_pair(rt, words, 3, ".", key as u64);
        add_bytes(rt, words, &[byte]);
    }
}

/// Adds the rows that there have to be.
fn add_expected(rt: &impl Abort, words: &mut String, expected: &Expected) {
    add_pair(rt, words, 0, ".", 0);
    add_bytes(rt, words, &expected.boot.to_be_bytes());
    for key in 0..5 {
        add_expected_row(rt, words, key, expected.rows[key]);
    }
}

/// Asserts the number of the boot, that of the events, and the current rows.
fn expect_container<K: Keeper + Drop>(
    rt: &impl Abort,
    alloc: Global,
    container: &Container<K>,
    expected: &Expected,
    step: &str,
) {
    let mut words = String::new(alloc);
    let mut want = String::new(alloc);
    add_named(rt, &mut words, "", u64::from(container.boot()));
    add_named(rt, &mut words, "", container.events());
    add_rows(rt, alloc, &mut words, container);
    add_named(rt, &mut want, "", u64::from(expected.boot));
    add_named(rt, &mut want, "", expected.events);
    add_expected(rt, &mut want, expected);
    expect_words(rt, &words, want.trim_start(), step);
}

/// Starts a container over the keeper of a refused start. A second start is not refused.
fn start_again<K: Keeper + Drop>(
    rt: &impl Abort,
    alloc: Global,
    fail: StartFail<K>,
    expected: &mut Expected,
) -> Container<K> {
    let mut words = String::new(alloc);
    add_start_refusal(rt, &mut words, fail.refusal);
    expect_words(rt, &words, "keeper_failed", "a start");
    expect_so(rt, !expected.start(), "a second start");
    let plans = plan_list(rt, alloc, &[]);
    started(rt, alloc, SHOP, fail.keeper, plans, LIMITS)
}

/// The container that a start answered, or that a second one does.
fn answered<K: Keeper + Drop>(
    rt: &impl Abort,
    alloc: Global,
    answer: Result<Container<K>, StartFail<K>>,
    expected: &mut Expected,
) -> Container<K> {
    let refused = expected.start();
    expect_so(rt, answer.is_err() == refused, "a start");
    match answer {
        Ok(container) => container,
        Err(fail) => start_again(rt, alloc, fail, expected),
    }
}

/// Makes a call of these steps, and asserts what its commit answers. The commits of a boot have the places 0, 1 and so
/// on.
fn commit<K: Keeper + Drop>(
    rt: &impl Abort,
    alloc: Global,
    container: &mut Container<K>,
    steps: &str,
    expected: &mut Expected,
) {
    let mut words = String::new(alloc);
    let mut want = String::new(alloc);
    let place = container.journal().len();
    let request = request(expected.events);
    call(rt, alloc, &mut words, container, request, steps);
    if expected.commit(rt, steps) {
        add_word(rt, &mut want, "keeper_failed");
    } else {
        add_named(rt, &mut want, "", place);
    }
    expect_words(rt, &words, want.trim_start(), steps);
}

/// Does a step of the script: a start over the same keeper, or a call.
fn do_step<K: Keeper + Drop>(
    rt: &impl Abort,
    alloc: Global,
    container: Container<K>,
    step: &str,
    expected: &mut Expected,
) -> Container<K> {
    let mut container = container;
    if step == "reopen" {
        let (opened, _) = container.reopen(alloc);
        return answered(rt, alloc, opened, expected);
    }
    commit(rt, alloc, &mut container, step, expected);
    container
}

/// Ten calls, one of which puts nothing, and two starts: fifteen calls of a keeper with the first start.
const SCRIPT: &str =
    "e p3.1=a;e p3.2=b p3.1=c;e;e p3.3=d;reopen;e p3.1=e p3.4=f;e p3.2=g;reopen;e p3.2=h;e p3.4=i p3.3=j;e p3.1=k;e p3.1=l p3.2=m";

/// Does the first steps of the script, and hands the keeper back.
fn do_steps<K: Keeper + Drop>(
    rt: &impl Abort,
    alloc: Global,
    keeper: K,
    count: u64,
    expected: &mut Expected,
) -> K {
    let deployment = deployment_of(rt, alloc, SHOP);
    let answer = Container::start(alloc, deployment, keeper, plan_list(rt, alloc, &[]), LIMITS);
    let mut container = answered(rt, alloc, answer, expected);
    let mut done = 0;
    for step in SCRIPT.split(';') {
        if done < count {
            done += 1;
            container = do_step(rt, alloc, container, step, expected);
            expect_container(rt, alloc, &container, expected, step);
        }
    }
    container.into_keeper()
}

/// Does the first steps of the script over a keeper, and asserts what it holds then.
fn expect_kept<K: Keeper + Drop>(
    rt: &impl Abort,
    alloc: Global,
    keeper: K,
    failing: u64,
    count: u64,
) {
    let mut expected = Expected {
        boot: 0,
        rows: [0; 5],
        calls: 0,
        failing,
        events: 0,
    };
    let mut keeper = do_steps(rt, alloc, keeper, count, &mut expected);
    let mut words = String::new(alloc);
    let mut want = String::new(alloc);
    add_kept(rt, alloc, &mut words, &mut keeper);
    add_expected(rt, &mut want, &expected);
    expect_words(rt, &words, want.trim_start(), "the rows of the keeper");
}

/// Does each prefix of the script over a keeper that tells its rows, and over one that does not.
fn expect_prefixes(rt: &impl Abort, alloc: Global, failing: u64) {
    for count in 0..13 {
        let keeper = failing_keeper(rt, alloc, RowList::new(alloc), failing);
        expect_kept(rt, alloc, keeper, failing, count);
        let inner = failing_keeper(rt, alloc, RowList::new(alloc), failing);
        expect_kept(rt, alloc, SilentKeeper { inner }, failing, count);
    }
}

/// One call of the keeper fails, whichever it is, and at 16 none.
#[test]
fn a_keeper_holds_the_rows_of_the_commits_that_were_answered(rt: HostRuntime) {
    for failing in 1..17 {
        expect_prefixes(&rt, rt.alloc(), failing);
    }
}
