//! How the outside is read and written: in pieces of every size, and with each call failing in turn.

use crate::command_tests::running::{Case, run};
use crate::command_tests::table::expect_ran;
use crate::command_tests::words::{cut, number, times};
use crash_base::RowList;
use drive_engine::MAX_SCENARIO_BYTES;
use outside::SureKeeper;
use std::alloc::Global;
use std::process::Abort;

/// The first scenario that a newcomer runs.
const FIRST: &str = "component A;owns A 40;begin c1;enter c1 A;put c1 40 7 6162;commit c1;table;";

/// The same without its last line feed.
const WITHOUT_FEED: &str =
    "component A;owns A 40;begin c1;enter c1 A;put c1 40 7 6162;commit c1;table";

/// A descriptor text of one component.
const ONE: &str = "[[component]];name = \"A\";";

/// A descriptor text of one group.
const PAIR: &str = "[[component]];name = \"A\";hard = [\"B\"];[[component]];name = \"B\";";

/// Asserts what a row `OUTSIDE|STATUS|REPORTED|WRITTEN` wants of a command over one text.
fn expect_outside(rt: &impl Abort, alloc: Global, words: &str, text: &str, row: &str) {
    let (outside, want) = cut(rt, row, '|');
    let case = Case {
        row,
        words,
        text,
        outside,
    };
    let (ran, _) = run(rt, alloc, case, SureKeeper::new(RowList::new(alloc)));
    expect_ran(rt, alloc, &ran, want, row);
}

/// Asserts what rows want of a command over one text.
fn expect_outsides(rt: &impl Abort, alloc: Global, words: &str, text: &str, rows: &str) {
    for row in rows.split('\n') {
        expect_outside(rt, alloc, words, text, row);
    }
}

/// What is written of `FIRST` once so many bytes of it were read: its commit ends at 69, and it ends at 75.
fn written_by(bytes: u64) -> &'static str {
    if bytes < 69 {
        ""
    } else if bytes < 75 {
        "c1 committed 0;"
    } else {
        "c1 committed 0;40 7 6162;"
    }
}

/// Asserts what `FIRST` has written when one of so many reads of this size fails, whichever it is.
fn expect_failed_reads(rt: &impl Abort, alloc: Global, piece: u64, reads: u64) {
    for failing in 1..=reads {
        let written = written_by((failing - 1).saturating_mul(piece));
        let row = format!(in alloc; "{piece} {failing} 0 0|4|read failed;|{written}").expect(
            rt, "a row",
        );
        expect_outside(rt, alloc, "drive", FIRST, &row);
    }
}

/// Sizes of pieces, each with the number of reads that `FIRST` takes so, of which the last finds the end.
const READS: &str = "1 76
7 12
10 9
16 6
23 5
69 3
74 3
75 2
100 2";

#[test]
fn a_failed_read_leaves_the_lines_before_it(rt: HostRuntime) {
    for row in READS.split('\n') {
        let (piece, reads) = cut(&rt, row, ' ');
        expect_failed_reads(&rt, rt.alloc(), number(&rt, piece), number(&rt, reads));
    }
}

/// The last line has no line feed, and is not done before the end was read. A line that is too long ends the
/// scenario before the next read.
const LAST_READS: &str = "0 2 0 0|4|read failed;|c1 committed 0;
1 75 0 0|4|read failed;|c1 committed 0;
0 3 0 0|0||c1 committed 0;40 7 6162;";

const LONG_READS: &str = "1 8193 0 0|4|read failed;|
1 8194 0 0|8|line 1 too long;|";

#[test]
fn a_line_has_an_end(rt: HostRuntime) {
    let alloc = rt.alloc();
    expect_outsides(&rt, alloc, "drive", WITHOUT_FEED, LAST_READS);
    let long = times(&rt, alloc, "#", 8200);
    expect_outsides(&rt, alloc, "drive", &long, LONG_READS);
}

/// Five reads of descriptors, of which the last finds the end.
const DESCRIPTOR_READS: &str = "8 1 0 0|4|read failed;|
8 2 0 0|4|read failed;|
8 3 0 0|4|read failed;|
8 4 0 0|4|read failed;|
8 5 0 0|4|read failed;|
8 6 0 0|0||A 0;";

/// Two writes of a transcript.
const WRITES: &str = "0 0 1 0|5|write failed;|
1 0 1 0|5|write failed;|
0 0 2 0|5|write failed;|c1 committed 0;
10 0 2 0|5|write failed;|c1 committed 0;
0 0 3 0|0||c1 committed 0;40 7 6162;";

/// One write of groups.
const GROUP_WRITES: &str = "0 0 1 0|5|write failed;|
0 0 2 0|0||A 0;";

/// One report after a failed read, after a failed write, and none at the end.
const REPORTS: &str = "16 1 0 1|4||
0 0 2 1|5||c1 committed 0;
0 0 0 1|0||c1 committed 0;40 7 6162;";

#[test]
fn each_call_of_the_outside_fails_in_turn(rt: HostRuntime) {
    let alloc = rt.alloc();
    expect_outsides(&rt, alloc, "groups", ONE, DESCRIPTOR_READS);
    expect_outsides(&rt, alloc, "drive", FIRST, WRITES);
    expect_outsides(&rt, alloc, "groups", ONE, GROUP_WRITES);
    expect_outsides(&rt, alloc, "drive", FIRST, REPORTS);
    expect_outsides(&rt, alloc, "drive", "begin c0", "0 0 0 1|3||");
    expect_outsides(&rt, alloc, "groups", ONE, "0 0 1 1|5||");
    expect_outsides(&rt, alloc, "groups", "= 1", "0 0 0 1|10||");
}

/// Asserts what a command writes, whose text is read in pieces of each size.
fn expect_in_pieces(rt: &impl Abort, alloc: Global, word: &str, text: &str, want: &str) {
    for piece in 1..text.len() as u64 + 1 {
        let row = format!(in alloc; "{piece} 0 0 0|0||{want}").expect(rt, want);
        expect_outsides(rt, alloc, word, text, &row);
    }
}

#[test]
fn pieces_change_nothing(rt: HostRuntime) {
    let alloc = rt.alloc();
    expect_in_pieces(&rt, alloc, "drive", FIRST, "c1 committed 0;40 7 6162;");
    expect_in_pieces(
        &rt,
        alloc,
        "drive",
        WITHOUT_FEED,
        "c1 committed 0;40 7 6162;",
    );
    expect_in_pieces(&rt, alloc, "groups", PAIR, "A 0;B 0;");
}

#[test]
fn a_scenario_has_its_length(rt: HostRuntime) {
    assert_eq!(&rt; MAX_SCENARIO_BYTES, 4_294_967_295);
}
