//! The keeper that a command hands back: as it was, where the command has no use for it, and ready for another run.

use crate::command_tests::keepers::{BackwardKeeper, ForwardKeeper, TestKeeper};
use crate::command_tests::running::{Case, SURE};
use crate::command_tests::table::{expect_kept, expect_rows, expect_run, keeper_of};
use crate::command_tests::words::times;
use outside::MapKeeper;
use std::alloc::Global;
use std::process::Abort;

/// Descriptors that have groups, that are refused, and none at all.
const GROUPS: &str =
    "0 0 00000003;40 7 61;|1|0|0 0 00000003;40 7 61;|0||A 0;|[[component]];name = \"A\";
0 1 -;|0|0|0 1 -;|10|descriptors refused;||= 1
0 0 ffffffff;|0|0|0 0 ffffffff;|0|||";

#[test]
fn groups_leave_the_keeper(rt: HostRuntime) {
    let alloc = rt.alloc();
    expect_rows::<MapKeeper>(&rt, alloc, "groups", "", GROUPS);
    let long = times(&rt, alloc, ";", 1_048_577);
    let row = format!(in alloc; "40 7 61;|1|0|40 7 61;|8|line 1 too long;||{long}").expect(
        &rt, "a row",
    );
    expect_rows::<MapKeeper>(&rt, alloc, "groups", "", &row);
}

/// Words that spell no command. The program takes the last two before it looks for one.
const NO_COMMANDS: &str =
    "\nDrive\ndrive x\nworkload\nworkload 7\nworkload 7 1 1\nWorkload 7 1\n7 workload 1\n\
workload 07 1\nworkload 7 01\nworkload +7 1\nworkload 7 -1\nworkload 7 1.\nworkload x 1\n\
workload 18446744073709551616 1\nworkload 7 100001\n--version\n--help";

/// They make no call of the keeper, whatever it is.
const UNCALLED: &str = "0 0 00000003;40 7 61;|1|0|0 0 00000003;40 7 61;|2|\
usage: crash drive | groups | workload NUMBER COUNT | serve PORT FILE KEYFILE WORKERS;|";

#[test]
fn other_words_leave_the_keeper(rt: HostRuntime) {
    for words in NO_COMMANDS.split('\n') {
        let case = Case {
            row: words,
            words,
            text: "table;",
            outside: SURE,
        };
        expect_kept::<MapKeeper>(&rt, rt.alloc(), case, UNCALLED);
    }
}

/// Five runs over one keeper: one that ends at a refused line, two of other deployments, one of two boots, and one that
/// starts none. The calls are those of all runs by then.
const RUNS: &str = "|0|3|0 0 00000001;40 7 61;|3|line 7;|c1 committed 0;|\
component A;owns A 40;begin c1;enter c1 A;put c1 40 7 61;commit c1;commit c1
|0|6|0 0 00000002;3 1 62;40 7 61;|0||40 7 61;c1 committed 0;3 1 62;40 7 61;|\
component B;owns B 3;table;begin c1;enter c1 B;put c1 3 1 62;commit c1;table
|0|8|0 0 00000003;3 1 62;40 7 61;|0||c1 committed 0;3 1 62;40 7 61;|begin c1;commit c1;table
|0|12|0 0 00000005;3 1 62;40 7 61;|0||boot 5;3 1 62;40 7 61;|reopen;table
|0|12|0 0 00000005;3 1 62;40 7 61;|0|||component A;owns A 40;";

/// Runs over one keeper whose call fails: the boot that is not started takes no number, nor does the commit leave rows.
const FAILING_RUNS: &str = "|3|3|0 0 00000001;|0||c1 keeper failed;|\
component A;owns A 40;begin c1;enter c1 A;put c1 40 7 61;commit c1
|3|6|0 0 00000002;40 7 61;|0||c1 committed 0;40 7 61;|\
component A;owns A 40;begin c1;enter c1 A;put c1 40 7 61;commit c1;table";

/// The same where the second start fails.
const FAILING_STARTS: &str = "40 7 61;|4|2|0 0 00000001;40 7 61;|0||40 7 61;|table
|4|4|0 0 00000001;40 7 61;|6|keeper failed;||table
|4|6|0 0 00000002;40 7 61;|0||40 7 61;c1 committed 0;0 commit 2:9223372036854775809 writes 0;|\
table;begin c1;commit c1;journal";

/// Does one of these runs, and hands the keeper back.
fn expect_next_run<K: TestKeeper>(rt: &impl Abort, alloc: Global, row: &str, keeper: K) -> K {
    let (want, text) = row.rsplit_once('|').expect(rt, row);
    let case = Case {
        row,
        words: "drive",
        text,
        outside: SURE,
    };
    expect_run(rt, alloc, case, want, keeper)
}

/// Does these runs over a keeper of this kind.
fn expect_runs<K: TestKeeper>(rt: &impl Abort, alloc: Global, rows: &str) {
    let mut keeper = keeper_of::<K>(rt, alloc, rows);
    for row in rows.split('\n') {
        keeper = expect_next_run(rt, alloc, row, keeper);
    }
}

#[test]
fn a_keeper_is_for_many_runs(rt: HostRuntime) {
    let alloc = rt.alloc();
    expect_runs::<MapKeeper>(&rt, alloc, RUNS);
    expect_runs::<MapKeeper>(&rt, alloc, FAILING_RUNS);
    expect_runs::<MapKeeper>(&rt, alloc, FAILING_STARTS);
}

#[test]
fn a_keeper_that_tells_nothing_is_for_many_runs(rt: HostRuntime) {
    let alloc = rt.alloc();
    expect_runs::<ForwardKeeper>(&rt, alloc, RUNS);
    expect_runs::<ForwardKeeper>(&rt, alloc, FAILING_STARTS);
    expect_runs::<BackwardKeeper>(&rt, alloc, RUNS);
}
