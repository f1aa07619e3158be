//! One scenario of ten commits and two reopens, over keepers of which each call fails in turn.
//!
//! What it should leave was worked out apart from the program. Of the commits with rows, number n puts n into row n and
//! into row 0, and one that is not kept leaves neither. The keeper's calls 1 and 2, 6 and 7, 10 and 11 are those of the
//! three starts, and the others are those of the eight commits that have rows.

use crate::command_tests::keepers::{BackwardKeeper, ForwardKeeper, TestKeeper};
use crate::command_tests::running::{Case, SURE};
use crate::command_tests::table::expect_kept;
use outside::MapKeeper;
use std::alloc::Global;
use std::process::Abort;

/// Ten commits, of which two have no rows, and two reopens.
const SCENARIO: &str = "component A;owns A 40;\
begin c1;enter c1 A;put c1 40 0 01;put c1 40 1 01;commit c1;\
begin c2;enter c2 A;put c2 40 2 02;put c2 40 0 02;commit c2;\
begin c3;enter c3 A;read c3 40 0;commit c3;\
begin c4;enter c4 A;put c4 40 0 03;put c4 40 3 03;commit c4;\
reopen;\
begin c1;enter c1 A;put c1 40 0 04;put c1 40 4 04;commit c1;\
begin c2;enter c2 A;put c2 40 0 05;put c2 40 5 05;commit c2;\
reopen;\
begin c1;enter c1 A;put c1 40 0 06;put c1 40 6 06;commit c1;\
begin c2;enter c2 A;put c2 40 7 07;put c2 40 0 07;commit c2;\
begin c4;enter c4 A;put c4 40 0 08;put c4 40 8 08;commit c4;\
begin c3;enter c3 A;list c3 40;commit c3;";

/// Rows `FAILING|CALLS|KEPT|STATUS|REPORTED|WRITTEN`: the call of the keeper that fails, 0 for none, how many are made,
/// and what is left of it.
const LEFT: &str =
    "0|14|0 0 00000003;40 0 08;40 1 01;40 2 02;40 3 03;40 4 04;40 5 05;40 6 06;40 7 07;40 8 08;|0||\
c1 committed 0;\
c2 committed 1;c3 row 02;c3 committed 2;c4 committed 3;boot 2;c1 committed 0;c2 committed 1;boot 3;\
c1 committed 0;c2 committed 1;c4 committed 2;c3 list 9 0=08 1=01 2=02 3=03 4=04 5=05 6=06 7=07 8=08;\
c3 committed 3;
1|1||6|keeper failed;|
2|2||6|keeper failed;|
3|14|0 0 00000003;40 0 08;40 2 02;40 3 03;40 4 04;40 5 05;40 6 06;40 7 07;40 8 08;|0||c1 keeper failed;\
c2 committed 0;c3 row 02;c3 committed 1;c4 committed 2;boot 2;c1 committed 0;c2 committed 1;boot 3;\
c1 committed 0;c2 committed 1;c4 committed 2;c3 list 8 0=08 2=02 3=03 4=04 5=05 6=06 7=07 8=08;c3 committed 3;
4|14|0 0 00000003;40 0 08;40 1 01;40 3 03;40 4 04;40 5 05;40 6 06;40 7 07;40 8 08;|0||c1 committed 0;\
c2 keeper failed;c3 row 01;c3 committed 1;c4 committed 2;boot 2;c1 committed 0;c2 committed 1;boot 3;\
c1 committed 0;c2 committed 1;c4 committed 2;c3 list 8 0=08 1=01 3=03 4=04 5=05 6=06 7=07 8=08;c3 committed 3;
5|14|0 0 00000003;40 0 08;40 1 01;40 2 02;40 4 04;40 5 05;40 6 06;40 7 07;40 8 08;|0||c1 committed 0;\
c2 committed 1;c3 row 02;c3 committed 2;c4 keeper failed;boot 2;c1 committed 0;c2 committed 1;boot 3;\
c1 committed 0;c2 committed 1;c4 committed 2;c3 list 8 0=08 1=01 2=02 4=04 5=05 6=06 7=07 8=08;c3 committed 3;
6|6|0 0 00000001;40 0 03;40 1 01;40 2 02;40 3 03;|6|keeper failed;|c1 committed 0;c2 committed 1;c3 row 02;\
c3 committed 2;c4 committed 3;
7|7|0 0 00000001;40 0 03;40 1 01;40 2 02;40 3 03;|6|keeper failed;|c1 committed 0;c2 committed 1;c3 row 02;\
c3 committed 2;c4 committed 3;
8|14|0 0 00000003;40 0 08;40 1 01;40 2 02;40 3 03;40 5 05;40 6 06;40 7 07;40 8 08;|0||c1 committed 0;\
c2 committed 1;c3 row 02;c3 committed 2;c4 committed 3;boot 2;c1 keeper failed;c2 committed 0;boot 3;\
c1 committed 0;c2 committed 1;c4 committed 2;c3 list 8 0=08 1=01 2=02 3=03 5=05 6=06 7=07 8=08;c3 committed 3;
9|14|0 0 00000003;40 0 08;40 1 01;40 2 02;40 3 03;40 4 04;40 6 06;40 7 07;40 8 08;|0||c1 committed 0;\
c2 committed 1;c3 row 02;c3 committed 2;c4 committed 3;boot 2;c1 committed 0;c2 keeper failed;boot 3;\
c1 committed 0;c2 committed 1;c4 committed 2;c3 list 8 0=08 1=01 2=02 3=03 4=04 6=06 7=07 8=08;c3 committed 3;
10|10|0 0 00000002;40 0 05;40 1 01;40 2 02;40 3 03;40 4 04;40 5 05;|6|keeper failed;|c1 committed 0;\
c2 committed 1;c3 row 02;c3 committed 2;c4 committed 3;boot 2;c1 committed 0;c2 committed 1;
11|11|0 0 00000002;40 0 05;40 1 01;40 2 02;40 3 03;40 4 04;40 5 05;|6|keeper failed;|c1 committed 0;\
c2 committed 1;c3 row 02;c3 committed 2;c4 committed 3;boot 2;c1 committed 0;c2 committed 1;
12|14|0 0 00000003;40 0 08;40 1 01;40 2 02;40 3 03;40 4 04;40 5 05;40 7 07;40 8 08;|0||c1 committed 0;\
c2 committed 1;c3 row 02;c3 committed 2;c4 committed 3;boot 2;c1 committed 0;c2 committed 1;boot 3;\
c1 keeper failed;c2 committed 0;c4 committed 1;c3 list 8 0=08 1=01 2=02 3=03 4=04 5=05 7=07 8=08;c3 committed 2;
13|14|0 0 00000003;40 0 08;40 1 01;40 2 02;40 3 03;40 4 04;40 5 05;40 6 06;40 8 08;|0||c1 committed 0;\
c2 committed 1;c3 row 02;c3 committed 2;c4 committed 3;boot 2;c1 committed 0;c2 committed 1;boot 3;\
c1 committed 0;c2 keeper failed;c4 committed 1;c3 list 8 0=08 1=01 2=02 3=03 4=04 5=05 6=06 8=08;c3 committed 2;
14|14|0 0 00000003;40 0 07;40 1 01;40 2 02;40 3 03;40 4 04;40 5 05;40 6 06;40 7 07;|0||c1 committed 0;\
c2 committed 1;c3 row 02;c3 committed 2;c4 committed 3;boot 2;c1 committed 0;c2 committed 1;boot 3;\
c1 committed 0;c2 committed 1;c4 keeper failed;c3 list 8 0=07 1=01 2=02 3=03 4=04 5=05 6=06 7=07;c3 committed 2;";

/// Does the scenario over keepers of this kind that hold no rows.
fn expect_each<K: TestKeeper>(rt: &impl Abort, alloc: Global) {
    for row in LEFT.split('\n') {
        let want = format!(in alloc; "|{row}").expect(rt, row);
        let case = Case {
            row,
            words: "drive",
            text: SCENARIO,
            outside: SURE,
        };
        expect_kept::<K>(rt, alloc, case, &want);
    }
}

#[test]
fn each_call_of_a_keeper_fails_in_turn(rt: HostRuntime) {
    expect_each::<MapKeeper>(&rt, rt.alloc());
}

/// What a keeper tells of its rows, and in which order it gives them, changes nothing.
#[test]
fn each_call_of_a_keeper_that_tells_nothing_fails_in_turn(rt: HostRuntime) {
    expect_each::<ForwardKeeper>(&rt, rt.alloc());
    expect_each::<BackwardKeeper>(&rt, rt.alloc());
}
