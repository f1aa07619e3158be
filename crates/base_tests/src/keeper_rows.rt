//! Rows that are put, and come back.

use crate::keeper_words::{TABLE, add_apply, add_load, keeper, last_words};
use crate::words::{expect_so, expect_words};
use keeper_sqlite::SqlKeeper;
use sqlite::MemStore;
use std::alloc::Global;
use std::process::Abort;

/// Applies the writes of each line in turn, and asserts what they and then a load answer, and how
/// many faults were counted; and what is said of the last one, if there was one.
fn expect_calls(
    rt: &impl Abort,
    alloc: Global,
    keeper: &mut SqlKeeper<MemStore>,
    lines: &str,
    want: &str,
    last: &str,
) {
    let mut words = String::new(alloc);
    for line in lines.split('\n') {
        add_apply(rt, alloc, &mut words, keeper, line);
    }
    add_load(rt, alloc, &mut words, keeper);
    expect_words(rt, &words, want, lines);
    let faults = if last.is_empty() { 0 } else { 1 };
    expect_so(rt, keeper.faults() == faults, "faults");
    expect_words(rt, &last_words(rt, alloc, keeper), last, lines);
}

/// Calls of a new keeper over a database after these statements.
fn expect_after(
    rt: &impl Abort,
    alloc: Global,
    statements: &[&str],
    lines: &str,
    want: &str,
    last: &str,
) {
    let mut keeper = keeper(rt, alloc, statements);
    expect_calls(rt, alloc, &mut keeper, lines, want, last);
}

/// Rows come back in order of their ids, and the later write of an id is kept. A refused apply leaves all rows, and
/// rows of an earlier run are found. A row with another id is not guessed at.
#[test]
fn rows_come_back(rt: HostRuntime) {
    expect_after(
        &rt,
        rt.alloc(),
        &[],
        "255.18446744073709551615=last 0.1099511627776=a 7.256= 7.255=b 0.0=first\n0.1099511627776= 255.0=c 7.256=d",
        "ok ok 0.0=first 0.1099511627776= 7.255=b 7.256=d 255.0=c 255.18446744073709551615=last",
        "",
    );
    let lines = "3.1=one 3.2=two 3.1=three\n3.2=four 3.2=five";
    let want = "ok ok 3.1=three 3.2=five";
    expect_after(&rt, rt.alloc(), &[], lines, want, "");
    let index = "CREATE UNIQUE INDEX one_value ON crash_rows (v)";
    let lines = "1.1=a 1.2=b\n1.1=c 1.3=d 1.4=b 1.5=e\n1.6=f";
    let want = "ok failed ok 1.1=a 1.2=b 1.6=f";
    expect_after(
        &rt,
        rt.alloc(),
        &[TABLE, index],
        lines,
        want,
        "UNIQUE constraint failed",
    );
    let row = "INSERT INTO crash_rows VALUES (9, x'0000000000000102', x'7879')";
    let want = "ok 9.257=z 9.258=xy";
    expect_after(&rt, rt.alloc(), &[TABLE, row], "9.257=z", want, "");
    for values in DAMAGED.split('\n') {
        expect_damaged(&rt, rt.alloc(), values);
    }
}

/// What is said of them.
const NO_ROW: &str = "crash_rows has a row whose t is not from 0 to 255 or whose k is not 8 bytes";

/// Values of a row that no `apply` puts.
const DAMAGED: &str = "256, x'0000000000000001'
-1, x'0000000000000001'
9, x'00000000000001'
9, x'000000000000000001'
9, x''";

fn expect_damaged(rt: &impl Abort, alloc: Global, values: &str) {
    let text = format!(in alloc; "INSERT INTO crash_rows VALUES ({values}, x'61')").expect(
        rt, values,
    );
    let statements = [TABLE, text.as_str()];
    expect_after(rt, alloc, &statements, "9.1=a", "ok failed", NO_ROW);
}
