//! Compares what a command did, and what it left of its keeper, with a row.
//!
//! A row is `GIVEN|FAILING|CALLS|KEPT|STATUS|REPORTED|WRITTEN|TEXT`: a keeper of the rows GIVEN, of whose calls the one
//! of the number FAILING fails; how many calls it should have had, and which rows it should hold, when a command over
//! TEXT has ended; and what the command should have done. A row of a keeper is `T K HEX` and a semicolon.

use crate::command_tests::keepers::TestKeeper;
use crate::command_tests::running::{Case, Ran, SURE, run};
use crate::command_tests::words::{
    cut, expect_number, expect_text, lines, number, rows_of, text_of,
};
use outside::MapKeeper;
use std::alloc::Global;
use std::process::Abort;

/// Asserts that these lines came.
fn expect_lines(rt: &impl Abort, alloc: Global, found: &[u8], wanted: &str, row: &str) {
    let found = std::str::from_utf8(found).expect(rt, row);
    expect_text(rt, found, &lines(rt, alloc, wanted), row);
}

/// Asserts what `STATUS|REPORTED|WRITTEN` wants of a command.
pub fn expect_ran(rt: &impl Abort, alloc: Global, ran: &Ran, want: &str, row: &str) {
    let (status, rest) = cut(rt, want, '|');
    let (reported, written) = rest.rsplit_once('|').expect(rt, row);
    expect_number(rt, u64::from(ran.status), number(rt, status), row);
    expect_lines(rt, alloc, ran.errors.as_slice(), reported, row);
    expect_lines(rt, alloc, ran.out.as_slice(), written, row);
}

/// The keeper that a row begins with.
pub fn keeper_of<K: TestKeeper>(rt: &impl Abort, alloc: Global, row: &str) -> K {
    let (given, rest) = cut(rt, row, '|');
    let (failing, _) = cut(rt, rest, '|');
    K::made(rt, alloc, rows_of(rt, alloc, given), number(rt, failing))
}

/// Asserts what a row without its text wants of a command and a keeper, and hands the keeper back.
pub fn expect_run<K: TestKeeper>(
    rt: &impl Abort,
    alloc: Global,
    case: Case,
    want: &str,
    keeper: K,
) -> K {
    let (_, rest) = cut(rt, want, '|');
    let (_, rest) = cut(rt, rest, '|');
    let (calls, rest) = cut(rt, rest, '|');
    let (kept, want) = cut(rt, rest, '|');
    let (ran, keeper) = run(rt, alloc, case, keeper);
    expect_ran(rt, alloc, &ran, want, case.row);
    expect_number(rt, keeper.calls(), number(rt, calls), case.row);
    let rows = keeper.rows(rt, alloc);
    expect_text(rt, &text_of(rt, alloc, &rows), kept, case.row);
    keeper
}

/// Asserts what a row without its text wants of a command over a keeper of this kind.
pub fn expect_kept<K: TestKeeper>(rt: &impl Abort, alloc: Global, case: Case, want: &str) {
    let keeper = keeper_of::<K>(rt, alloc, want);
    expect_run(rt, alloc, case, want, keeper);
}

/// Asserts what a row wants of a command, over a text that begins with these first lines and a keeper of this kind.
fn expect_row<K: TestKeeper>(rt: &impl Abort, alloc: Global, words: &str, first: &str, row: &str) {
    let (want, text) = row.rsplit_once('|').expect(rt, row);
    let text = [first, text].as_slice().concat(alloc).expect(rt, row);
    let case = Case {
        row,
        words,
        text: &text,
        outside: SURE,
    };
    expect_kept::<K>(rt, alloc, case, want);
}

/// Asserts what rows want of a command, over texts that begin with these first lines and keepers of this kind.
pub fn expect_rows<K: TestKeeper>(
    rt: &impl Abort,
    alloc: Global,
    words: &str,
    first: &str,
    rows: &str,
) {
    for row in rows.split('\n') {
        expect_row::<K>(rt, alloc, words, first, row);
    }
}

/// Rows of `drive` over the keeper in memory.
pub fn expect_driven(rt: &impl Abort, alloc: Global, first: &str, rows: &str) {
    expect_rows::<MapKeeper>(rt, alloc, "drive", first, rows);
}
