//! Workloads, which read nothing and run over the keeper that the command is given.

use crate::command_tests::keepers::{BackwardKeeper, ForwardKeeper, TestKeeper};
use crate::command_tests::running::{Case, run};
use crate::command_tests::table::{expect_kept, expect_ran, keeper_of};
use crate::command_tests::words::cut;
use outside::MapKeeper;
use std::alloc::Global;
use std::process::Abort;

/// Rows `NUMBER COUNT|WRITTEN` over a keeper without rows. What is written was worked out by an independent model.
const SUMMARIES: &str = "\
0 0|commits 0;revoked 0;conflicts 0;refused 0;journal 0;rows 0;\
digest e3b0c44298fc1c149afbf4c8996fb92427ae41e4649b934ca495991b7852b855;
0 1|commits 0;revoked 0;conflicts 0;refused 0;journal 0;rows 0;\
digest e3b0c44298fc1c149afbf4c8996fb92427ae41e4649b934ca495991b7852b855;
1 300|commits 46;revoked 15;conflicts 8;refused 0;journal 66;rows 17;\
digest aebd329c6a8cd467ea32fedb43b8ad58304eec6cefdd023ac7902758e92981d4;
20261130 1000|commits 151;revoked 56;conflicts 20;refused 0;journal 237;rows 32;\
digest 981e7f514e37b435ed722adae079c086a3550f20d774f3104a7583e26d8fd814;
18446744073709551615 2500|commits 344;revoked 171;conflicts 43;refused 0;journal 562;rows 32;\
digest 03679ddaad491a6530f8d664d8fc03d60c8e860a74b6cf7b6cc7786eebdfa179;
7 20000|commits 2856;revoked 1287;conflicts 377;refused 0;journal 4774;rows 32;\
digest 80aaf95d7c0a37691b634aebe09b3b75c427eb149755e96ad1d63ab66f34d596;";

/// Rows `NUMBER COUNT|GIVEN|FAILING|CALLS|KEPT|STATUS|REPORTED|WRITTEN` over keepers with rows, and over keepers of
/// which a call fails: the first two are those of the start, and the others are those of commits. What is kept and
/// written was worked out by the same model.
const KEPT: &str = "\
3 60||0|5|0 0 00000001;41 6 0000000c;41 7 00000029;41 14 0000002c;|\
0||commits 8;revoked 4;conflicts 1;refused 0;journal 12;rows 3;\
digest 9778187cf89ba387211fdf7aebc1af0c82e10991d59a8e7710d5b93b6bdfc74f;
3 60|0 0 00000003;3 9 -;40 7 61;41 6 62;|0|5|0 0 00000004;3 9 -;40 7 61;41 6 0000000c;41 7 00000029;41 14 0000002c;|\
0||commits 8;revoked 4;conflicts 1;refused 0;journal 12;rows 5;\
digest 3c6fcd5401dcb64bbebe3db3c159a983653b94b50b7b48ac312fb03da979bf82;
3 60|0 0 00000003;3 9 -;40 7 61;41 6 62;|3|5|0 0 00000004;3 9 -;40 7 61;41 6 62;41 7 00000029;41 14 0000002c;|\
0||commits 7;revoked 4;conflicts 1;refused 1;journal 11;rows 5;\
digest 5f344f36ce92a6fbba675170754629b7111d621223f6e307acb953d984ac2645;
3 60||5|5|0 0 00000001;41 6 0000000c;41 7 00000029;41 14 0000000f;|\
0||commits 8;revoked 4;conflicts 0;refused 1;journal 12;rows 3;\
digest 469ae46bedc8fabbd588bc6c6f9b7c6b7903d746a7521e99bf4cb8900ff4ae3c;
3 60|0 0 fffffffe;|0|5|0 0 ffffffff;41 6 0000000c;41 7 00000029;41 14 0000002c;|\
0||commits 8;revoked 4;conflicts 1;refused 0;journal 12;rows 3;\
digest 9778187cf89ba387211fdf7aebc1af0c82e10991d59a8e7710d5b93b6bdfc74f;
3 60||1|1||6|keeper failed;|
3 60|0 0 00000003;3 9 -;40 7 61;41 6 62;|2|2|0 0 00000003;3 9 -;40 7 61;41 6 62;|6|keeper failed;|
3 60|0 1 -;40 7 61;|0|1|0 1 -;40 7 61;|7|bad row 0 1;|
3 60|0 1 -;40 7 61;|1|1|0 1 -;40 7 61;|6|keeper failed;|
3 60|0 1 -;40 7 61;|2|1|0 1 -;40 7 61;|7|bad row 0 1;|
3 60|0 0 000001;|0|1|0 0 000001;|7|bad row 0 0;|
3 60|0 0 ffffffff;40 7 61;|0|1|0 0 ffffffff;40 7 61;|11|boots spent;|
0 0|0 0 ffffffff;|0|1|0 0 ffffffff;|11|boots spent;|
0 0|0 0 00000003;3 9 -;40 7 61;41 6 62;|0|2|0 0 00000004;3 9 -;40 7 61;41 6 62;|\
0||commits 0;revoked 0;conflicts 0;refused 0;journal 0;rows 3;\
digest 326a8b2070e1f97c709cfd661bb47ac07da34ffb9ca2f1c76ba21daca3b0fe30;
0 0||2|2||6|keeper failed;|";

/// The rows are kept before the summary is written.
const UNWRITTEN: &str =
    "3 60||0|5|0 0 00000001;41 6 0000000c;41 7 00000029;41 14 0000002c;|5|write failed;|";

/// A workload of these numbers over an outside. Its text spells no descriptors, and starts a boot as a scenario.
fn case_of<'a>(row: &'a str, words: &'a str, outside: &'a str) -> Case<'a> {
    Case {
        row,
        words,
        text: "table;",
        outside,
    }
}

/// Asserts what a row wants of a workload over an outside and a keeper of this kind.
fn expect_worked<K: TestKeeper>(rt: &impl Abort, alloc: Global, outside: &str, row: &str) {
    let (numbers, want) = cut(rt, row, '|');
    let words = format!(in alloc; "workload {numbers}").expect(rt, row);
    expect_kept::<K>(rt, alloc, case_of(row, &words, outside), want);
}

/// Asserts what rows want of workloads over keepers of this kind. The input is not read, whose first read would fail.
fn expect_each<K: TestKeeper>(rt: &impl Abort, alloc: Global) {
    for row in KEPT.split('\n') {
        expect_worked::<K>(rt, alloc, "0 1 0 0", row);
    }
}

/// Asserts the summary of a workload over a keeper without rows.
fn expect_summary(rt: &impl Abort, alloc: Global, row: &str) {
    let (numbers, written) = cut(rt, row, '|');
    let words = format!(in alloc; "workload {numbers}").expect(rt, row);
    let want = format!(in alloc; "0||{written}").expect(rt, row);
    let keeper = keeper_of::<MapKeeper>(rt, alloc, "|0|");
    let (ran, _) = run(rt, alloc, case_of(row, &words, "0 1 0 0"), keeper);
    expect_ran(rt, alloc, &ran, &want, row);
}

#[test]
fn workloads_write_their_summaries(rt: HostRuntime) {
    for row in SUMMARIES.split('\n') {
        expect_summary(&rt, rt.alloc(), row);
    }
}

#[test]
fn workloads_run_over_the_keeper(rt: HostRuntime) {
    expect_each::<MapKeeper>(&rt, rt.alloc());
}

/// What a keeper tells of its rows, and in which order it gives them, changes nothing.
#[test]
fn workloads_run_over_a_keeper_that_tells_nothing(rt: HostRuntime) {
    expect_each::<ForwardKeeper>(&rt, rt.alloc());
    expect_each::<BackwardKeeper>(&rt, rt.alloc());
}

/// The summary is written whole or, where the output fails, in part.
#[test]
fn a_summary_that_is_not_written_leaves_its_rows(rt: HostRuntime) {
    expect_worked::<MapKeeper>(&rt, rt.alloc(), "0 1 1 0", UNWRITTEN);
}
