//! What commits hand to the keeper, and what is left where it fails.

use crate::command_tests::keepers::{BackwardKeeper, ForwardKeeper};
use crate::command_tests::running::Case;
use crate::command_tests::table::{expect_driven, expect_kept, expect_rows};
use crate::command_tests::words::cut;
use outside::MapKeeper;
use std::alloc::Global;
use std::process::Abort;

/// Three customers buy, and the keeper fails at its fourth call, which is the commit of the second one: of its rows
/// none is left, and it alone is told so. The first has bought two things.
const PURCHASES: &str = "|4|5|0 0 00000001;40 1 61;40 3 63;40 4 64;|\
0||c1 committed 0;c2 keeper failed;c3 committed 1;40 1 61;40 3 63;40 4 64;|\
component A;owns A 40;\
begin c1;enter c1 A;put c1 40 1 61;put c1 40 4 64;commit c1;\
begin c2;enter c2 A;put c2 40 2 62;commit c2;\
begin c3;enter c3 A;put c3 40 3 63;commit c3;table";

#[test]
fn a_purchase_fails_between_two_others(rt: HostRuntime) {
    let alloc = rt.alloc();
    expect_driven(&rt, alloc, "", PURCHASES);
    expect_rows::<ForwardKeeper>(&rt, alloc, "drive", "", PURCHASES);
    expect_rows::<BackwardKeeper>(&rt, alloc, "drive", "", PURCHASES);
}

/// The component A with a table.
const ALONE: &str = "component A;owns A 40;";

/// A commit with rows is one call, however many these are, and one without rows is none.
const CALLS: &str = "|0|2|0 0 00000001;|0||c1 committed 0;|begin c1;commit c1
|0|2|0 0 00000001;|0||c1 row none;c1 list 0;c1 committed 0;|\
begin c1;enter c1 A;read c1 40 7;list c1 40;commit c1
|0|3|0 0 00000001;40 7 62;|0||c1 committed 0;|begin c1;enter c1 A;put c1 40 7 61;put c1 40 7 62;commit c1
|0|3|0 0 00000001;40 7 62;40 8 61;|0||c1 committed 0;|begin c1;enter c1 A;put c1 40 8 61;put c1 40 7 62;commit c1
|0|4|0 0 00000001;40 7 62;|0||c1 committed 0;c2 committed 1;|\
begin c1;enter c1 A;put c1 40 7 61;commit c1;begin c2;enter c2 A;put c2 40 7 62;commit c2
|0|3|0 0 00000001;40 0 -;|0||c1 committed 0;|begin c1;enter c1 A;put c1 40 0 -;commit c1";

/// No other line is a call of the keeper, so what a call puts is not kept before it commits.
const NO_CALLS: &str = "|3|2|0 0 00000001;|0||c1 committed 0;|begin c1;enter c1 A;commit c1
|3|2|0 0 00000001;|0||c1 row 61;|begin c1;enter c1 A;put c1 40 7 61;read c1 40 7;exit c1
|3|2|0 0 00000001;|0|||begin c1;enter c1 A;put c1 40 7 61;drop c1;table
|3|2|0 0 00000001;|0||down 0;up 1;down 2;up 3;0 down group 0;1 up group 0;2 down app;3 up app;|\
reboot A;down app;up app;table;journal
|3|2|0 0 00000001;|3|line 6;||begin c1;enter c1 A;put c1 40 7 61;commit c2";

/// A commit that the boot refuses is no call either, though that would fail.
const REFUSED: &str =
    "|3|2|0 0 00000001;|0||c1 full 0 0;|limit 0 0;begin c1;enter c1 A;put c1 40 7 61;commit c1
|3|2|0 0 00000001;|0||down 0;up 1;c1 revoked group 0 had 0 now 1;|\
begin c1;enter c1 A;put c1 40 7 61;reboot A;commit c1
|4|3|0 0 00000001;40 7 62;|0||c2 committed 0;c1 conflict row 40 7 at 0 newest 1;|\
begin c1;enter c1 A;put c1 40 7 61;begin c2;enter c2 A;put c2 40 7 62;commit c2;commit c1
|4|3|0 0 00000001;40 7 61;|0||c1 committed 0;c1 already 0;|\
begin c1;enter c1 A;put c1 40 7 61;commit c1;begin c1;enter c1 A;put c1 40 7 62;commit c1";

/// The call has ended, and its caller makes the same request again. It left no row, entry or conflict, and took no
/// place.
const AFTER_FAULTS: &str = "|3|4|0 0 00000001;40 7 61;|\
0||c1 keeper failed;c1 committed 0;c1 already 0;40 7 61;0 commit 1:9223372036854775809 writes 1;|\
begin c1;enter c1 A;put c1 40 7 61;commit c1;begin c1;enter c1 A;put c1 40 7 61;commit c1;\
begin c1;commit c1;table;journal
|3|3|0 0 00000001;|3|line 7;|c1 keeper failed;|begin c1;enter c1 A;put c1 40 7 61;commit c1;commit c1
|3|3|0 0 00000001;|0||c1 keeper failed;|begin c1;enter c1 A;put c1 40 7 61;commit c1;table;journal
|3|3|0 0 00000001;|0||c1 keeper failed;c1 row none;c1 list 0;c1 committed 0;|\
begin c1;enter c1 A;put c1 40 7 61;commit c1;begin c1;enter c1 A;read c1 40 7;list c1 40;commit c1
|3|4|0 0 00000001;40 7 62;|0||c1 keeper failed;c2 committed 0;40 7 62;|\
begin c1;begin c2;enter c1 A;enter c2 A;put c1 40 7 61;put c2 40 7 62;commit c1;commit c2;table
|3|3|0 0 00000001;|0||c2 row none;c2 list 0;c1 keeper failed;c2 row none;c2 committed 0;|\
begin c1;begin c2;enter c1 A;enter c2 A;put c1 40 7 61;read c2 40 7;list c2 40;commit c1;read c2 40 7;commit c2
|3|4|0 0 00000001;40 8 62;|0||c1 keeper failed;c2 committed 0;c3 full 1 1;|\
limit 1 100;begin c1;enter c1 A;put c1 40 7 6161;commit c1;begin c2;enter c2 A;put c2 40 8 62;commit c2;\
begin c3;commit c3
|3|4|0 0 00000001;40 8 6262;|0||c1 keeper failed;c2 committed 0;c3 full 1 2;|\
limit 100 2;begin c1;enter c1 A;put c1 40 7 6161;commit c1;begin c2;enter c2 A;put c2 40 8 6262;commit c2;\
begin c3;enter c3 A;put c3 40 9 63;commit c3
|4|4|0 0 00000001;40 7 61;|0||c1 committed 0;c2 keeper failed;40 7 61;|\
begin c1;enter c1 A;put c1 40 7 61;commit c1;begin c2;enter c2 A;put c2 40 8 62;put c2 40 7 62;commit c2;table
|3|6|0 0 00000002;40 7 62;|0||c1 keeper failed;boot 2;c1 row none;c1 committed 0;40 7 62;|\
begin c1;enter c1 A;put c1 40 7 61;commit c1;reopen;begin c1;enter c1 A;read c1 40 7;put c1 40 7 62;commit c1;table
|3|3|0 0 00000001;|0||c1 keeper failed;down 0;up 1;c2 committed 2;|\
begin c1;enter c1 A;put c1 40 7 61;commit c1;reboot A;begin c2;commit c2";

#[test]
fn commits_with_rows_call_the_keeper(rt: HostRuntime) {
    let alloc = rt.alloc();
    expect_driven(&rt, alloc, ALONE, CALLS);
    expect_driven(&rt, alloc, ALONE, NO_CALLS);
    expect_driven(&rt, alloc, ALONE, REFUSED);
    expect_driven(&rt, alloc, ALONE, AFTER_FAULTS);
}

/// A commit of 16 rows, over four of them that are there: all are kept, or none.
const SIXTEEN: &str = "40 1 61;40 5 61;40 11 61;40 16 61;|0|3|\
0 0 00000001;40 1 62;40 2 62;40 3 62;40 4 62;40 5 62;40 6 62;40 7 62;40 8 62;40 9 62;\
40 10 62;40 11 62;40 12 62;40 13 62;40 14 62;40 15 62;40 16 62;|0||c1 committed 0;|TEXT
40 1 61;40 5 61;40 11 61;40 16 61;|3|3|0 0 00000001;40 1 61;40 5 61;40 11 61;40 16 61;|0||c1 keeper failed;|TEXT";

#[test]
fn all_rows_of_a_commit_are_kept_or_none(rt: HostRuntime) {
    let alloc = rt.alloc();
    let mut text = "begin c1;enter c1 A;"
        .to_string(alloc)
        .expect(&rt, "a text");
    for key in 1..=16 {
        let put = format!(in alloc; "put c1 40 {key} 62;").expect(&rt, "a put");
        text.push_str(&put).expect(&rt, "a text");
    }
    text.push_str("commit c1").expect(&rt, "a text");
    let rows = SIXTEEN.replace(alloc, "TEXT", &text).expect(&rt, "rows");
    expect_driven(&rt, alloc, ALONE, &rows);
}

/// What a call writes is kept before its commit is answered, and the next boot is started before that is told. What
/// comes behind a read that fails is not done. A row has the outside in front.
const OUTSIDES: &str = "0 0 1 0||0|3|0 0 00000001;40 7 61;|5|write failed;||begin c1
0 0 1 0||3|3|0 0 00000001;|5|write failed;||begin c1
0 0 2 0||0|5|0 0 00000002;40 7 61;|5|write failed;|c1 committed 0;|reopen;begin c1
0 2 0 0||0|3|0 0 00000001;40 7 61;|4|read failed;|c1 committed 0;|begin c1;enter c1 A;put c1 40 8 62;commit c1";

/// Asserts what such a row wants of a call that commits, and of what comes behind.
fn expect_outside(rt: &impl Abort, alloc: Global, row: &str) {
    let (outside, rest) = cut(rt, row, '|');
    let (want, text) = rest.rsplit_once('|').expect(rt, row);
    let first = "component A;owns A 40;begin c1;enter c1 A;put c1 40 7 61;commit c1;";
    let text = [first, text].as_slice().concat(alloc).expect(rt, row);
    let case = Case {
        row,
        words: "drive",
        text: &text,
        outside,
    };
    expect_kept::<MapKeeper>(rt, alloc, case, want);
}

#[test]
fn rows_are_kept_before_a_commit_is_answered(rt: HostRuntime) {
    for row in OUTSIDES.split('\n') {
        expect_outside(&rt, rt.alloc(), row);
    }
}
