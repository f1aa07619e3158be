//! Tests of restarts.

use crate::clients::Ear;
use crate::floods::{FloodGate, MORE, Tally};
use crate::links::{HostClock, LinkShelf};
use crate::served::{categories_fail, house, let_run, log_of, no_rows, of_row, responses};
use crate::stories::{Ask, StoryGate};
use auction_rows::CATEGORY_TABLE;
use crash_base::Level;
use std::alloc::Global;
use std::process::Abort;
use std::sync::Wait;
use std::sync::atomic::Ordering;
use std::thread::Threads;

/// Ann registers. Then Categories fails: three times before its group is rebooted, three times before the application
/// is, and three times before the process is. At last she looks whether she is known, and is signed in still. At each
/// reboot but that of the process the clock is looked at twice.
const ASKS: &[Ask] = &[
    ("/form/register", "", 0),
    ("/register", "name=ann&password=pw1", 0),
    ("/categories", "", 0),
    ("/categories", "", 0),
    ("/categories", "", 0),
    ("/categories", "", 3),
    ("/categories", "", 3),
    ("/categories", "", 3),
    ("/categories", "", 6),
    ("/categories", "", 6),
    ("/categories", "", 6),
    ("/user/1", "", 7),
    ("/categories", "", 7),
    ("/about", "", 7),
];

/// What she hears.
const RESPONSES: &str = "200 OK: Form register
200 OK: Welcome ann
500 Internal Server Error: Failed
500 Internal Server Error: Failed
500 Internal Server Error: Failed
500 Internal Server Error: Failed
500 Internal Server Error: Failed
500 Internal Server Error: Failed
500 Internal Server Error: Failed
500 Internal Server Error: Failed
500 Internal Server Error: Failed
200 OK: ann
200 OK: Categories
200 OK: ann
";

/// What the operator is told.
const LOG: &str = "boot 1 started over 0 rows
rebooted Web, down for 0 ms
rebooted all, down for 0 ms
restarting behind 6 entries
boot 2 started over 3 rows
";

/// The clock stands.
const STANDS: &[u64] = &[0];

/// What nothing helps: Categories fails before and behind each reboot, and goes on so behind each look whether a person
/// is to be called.
const HELPLESS: &[Ask] = &[
    ("/categories", "", 0),
    ("/categories", "", 0),
    ("/categories", "", 0),
    ("/categories", "", 3),
    ("/categories", "", 3),
    ("/categories", "", 3),
    ("/categories", "", 6),
    ("/categories", "", 6),
    ("/categories", "", 6),
    ("/categories", "", 7),
    ("/categories", "", 7),
    ("/categories", "", 7),
    ("/categories", "", 8),
    ("/categories", "", 8),
    ("/categories", "", 8),
    ("/categories", "", 9),
    ("/categories", "", 9),
    ("/categories", "", 9),
    ("/categories", "", 10),
    ("/categories", "", 10),
    ("/categories", "", 10),
    ("/", "", 11),
];

/// By how much the clock is moved behind the four looks of the two reboots, and behind those whether a person is to be
/// called: the second is 29,999 ms behind the first, the third a millisecond later, and the fourth at that moment.
const HELPLESS_STEPS: &[u64] = &[0, 0, 0, 0, 29_999, 1, 0];

/// What the operator is told of it: a person is called at the first look and at the third. The entries are that each
/// reboot began and that it ended.
const HELPLESS_LOG: &str = "boot 1 started over 0 rows
rebooted Web, down for 0 ms
rebooted all, down for 0 ms
restarting behind 4 entries
boot 2 started over 0 rows
human needed
human needed
";

/// Lets a server run to whose gate one client comes that asks this, until Categories is cured so, over a clock that is
/// moved so. Whether the operator is told this, and what the client hears.
fn told_and_heard<R: Threads + Wait + Abort + Sync>(
    rt: &R,
    alloc: Global,
    asks: &'static [Ask],
    cured_by: Level,
    steps: &'static [u64],
    want: &str,
) -> String {
    let (house, seats) = house(rt, alloc);
    let shelf = LinkShelf::new(rt, alloc, &house, seats).expect(rt, "links");
    let ear = Ear::new(alloc);
    let host = HostClock::new(steps);
    let fault = categories_fail(cured_by);
    let gate = StoryGate::new(rt, alloc, shelf, fault, asks, &ear, &host);
    let ran = let_run(rt, alloc, &gate, 1, no_rows(rt, alloc));
    assert!(rt; !gate.has_given_up());
    assert!(rt; ran.status == 0);
    assert!(rt; ran.has_closed);
    let log = log_of(rt, &ran);
    assert!(rt; log == want, "{log}");
    responses(rt, alloc, &ear)
}

#[test]
fn rows_stay_where_the_process_is_rebooted(rt: HostRuntime) {
    let found = told_and_heard(&rt, rt.alloc(), ASKS, Level::Process, STANDS, LOG);
    assert!(rt; found.as_str() == RESPONSES, "{found}");
}

#[test]
fn a_person_is_called_again_while_nothing_helps(rt: HostRuntime) {
    let alloc = rt.alloc();
    let found = told_and_heard(
        &rt,
        alloc,
        HELPLESS,
        Level::Human,
        HELPLESS_STEPS,
        HELPLESS_LOG,
    );
    let mut want = "500 Internal Server Error: Failed\n"
        .repeat(alloc, 21)
        .expect(&rt, "lines");
    want.push_str("200 OK: Auctions\n").expect(&rt, "a line");
    assert!(rt; found == want, "{found}");
}

/// What an entry of a page that tells of the bad row counts for: the 4,096 bytes of the row, the 113 of the action's
/// text, and the 64 of the page.
const ENTRY_BYTES: u64 = 4273;

/// A journal may have 268,435,456 bytes; 7/8 of them are 234,881,024.
const PLANNED_BYTES: u64 = 234_881_024;

/// How many entries the operator was told of at the only restart, before a boot over the same row.
fn entries_told(rt: &impl Abort, log: &str) -> u64 {
    let rest = log
        .strip_prefix("boot 1 started over 1 rows\nrestarting behind ")
        .expect(rt, log);
    let entries = rest
        .strip_suffix(" entries\nboot 2 started over 1 rows\n")
        .expect(rt, log);
    entries.parse().ok().expect(rt, log)
}

/// Each request that is read is answered by its page, before the restart and behind it. It takes a second, and minutes
/// with the checks of `rt try`.
#[test]
fn a_restart_comes_before_the_journal_is_full(rt: HostRuntime) {
    let alloc = rt.alloc();
    let (house, seats) = house(&rt, alloc);
    let shelf = LinkShelf::new(&rt, alloc, &house, seats).expect(&rt, "links");
    let tally = Tally::new();
    let gate = FloodGate::new(&rt, alloc, shelf, &tally);
    let keeper = of_row(&rt, alloc, CATEGORY_TABLE, 1, &[0; 4096]);
    let ran = let_run(&rt, alloc, &gate, 1, keeper);
    assert!(rt; ran.status == 0);
    assert!(rt; ran.has_closed);
    let entries = entries_told(&rt, log_of(&rt, &ran));
    assert!(rt;
        entries.saturating_mul(ENTRY_BYTES) >= PLANNED_BYTES,
        "{entries}"
    );
    let asked = tally.asked.load(Ordering::SeqCst);
    assert!(rt; asked >= entries.saturating_add(MORE), "{asked} {entries}");
    assert!(rt; tally.pages.load(Ordering::SeqCst) == asked, "{asked}");
    assert!(rt; tally.others.load(Ordering::SeqCst) == 0);
}
