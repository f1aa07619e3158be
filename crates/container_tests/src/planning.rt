//! Tests of when a restart is planned.

use container_core::FullAt;
use container_server::is_restart_due;
use std::process::Abort;

/// Entries and bytes of a journal, how many requests are inside, and whether a restart is due. A journal may have
/// 262,144 entries and 268,435,456 bytes: 7/8 of them are 229,376 and 234,881,024, and 31/32 are 253,952 and
/// 260,046,848.
const ROWS: &str = "0 0 0 no
229375 0 0 no
229376 0 0 due
229376 0 1 no
253951 0 1 no
253952 0 1 due
253952 0 64 due
262144 0 64 due
0 234881023 0 no
0 234881024 0 due
0 234881024 1 no
0 260046847 1 no
0 260046848 1 due
0 268435456 64 due
229375 234881023 0 no
229375 234881024 0 due
229376 234881023 0 due
253951 260046847 1 no
253951 260046848 64 due";

/// The number that a word spells.
fn number(rt: &impl Abort, word: Option<&str>) -> u64 {
    let word = word.expect(rt, "a word");
    word.parse().ok().expect(rt, word)
}

fn expect_row(rt: &impl Abort, row: &str) {
    let mut words = row.split(' ');
    let entries = number(rt, words.next());
    let bytes = number(rt, words.next());
    let inside = number(rt, words.next());
    let is_due = is_restart_due(FullAt { entries, bytes }, inside);
    let want = words.next() == Some("due");
    assert!(rt; is_due == want, "{row}");
}

#[test]
fn a_restart_is_planned_before_the_journal_is_full(rt: HostRuntime) {
    for row in ROWS.lines() {
        expect_row(&rt, row);
    }
}
