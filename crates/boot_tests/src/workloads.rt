//! Workloads, against the figures of an independent model.

use crate::keepers::failing_keeper;
use crate::words::{cut, number};
use boot_core::StartRefusal;
use crash_base::RowList;
use outside::MapKeeper;
use std::alloc::Global;
use std::process::Abort;
use workload::{MAX_TURNS, WorkloadFailure, run_workload};

/// What a workload is run with, and its summary: the number, how many turns there are, and which call of the keeper
/// fails, if one does; then the lines, each but the first after a `/`. The keeper's first two calls are those of the
/// start.
const WORKLOADS: &str = "\
0 0 0|commits 0/revoked 0/conflicts 0/refused 0/journal 0/rows 0/digest e3b0c44298fc1c149afbf4c8996fb92427ae41e4649b934ca495991b7852b855
0 1 0|commits 0/revoked 0/conflicts 0/refused 0/journal 0/rows 0/digest e3b0c44298fc1c149afbf4c8996fb92427ae41e4649b934ca495991b7852b855
7 20000 0|commits 2856/revoked 1287/conflicts 377/refused 0/journal 4774/rows 32/digest 80aaf95d7c0a37691b634aebe09b3b75c427eb149755e96ad1d63ab66f34d596
1 300 0|commits 46/revoked 15/conflicts 8/refused 0/journal 66/rows 17/digest aebd329c6a8cd467ea32fedb43b8ad58304eec6cefdd023ac7902758e92981d4
20261130 1000 0|commits 151/revoked 56/conflicts 20/refused 0/journal 237/rows 32/digest 981e7f514e37b435ed722adae079c086a3550f20d774f3104a7583e26d8fd814
18446744073709551615 2500 0|commits 344/revoked 171/conflicts 43/refused 0/journal 562/rows 32/digest 03679ddaad491a6530f8d664d8fc03d60c8e860a74b6cf7b6cc7786eebdfa179
7 400 3|commits 63/revoked 26/conflicts 8/refused 1/journal 101/rows 23/digest fb21b35c3e5c149a60371fd36573212ff614f1599bd3714954762250875459b1
7 400 9|commits 64/revoked 26/conflicts 7/refused 1/journal 102/rows 24/digest b8057a2a69ef868f1dfbeee5a3a3a37d70a4da6caa5d800594cbc2ad0ea60768
3 60 3|commits 7/revoked 4/conflicts 1/refused 1/journal 11/rows 2/digest 982e55325a6c2c7afb5122e240637d55c87346daf79e5b63aa363c30232b25e0";

/// Runs a workload over a keeper without rows, of whose calls the one of this number fails. The answer is the summary,
/// or why there is none; and how many rows the keeper holds then.
fn run(
    rt: &impl Abort,
    alloc: Global,
    number: u64,
    count: u64,
    failing: u64,
) -> (Result<String, WorkloadFailure>, usize) {
    assert!(rt; count <= MAX_TURNS);
    let keeper = failing_keeper(rt, alloc, RowList::new(alloc), failing);
    let (keeper, answer) = run_workload::<MapKeeper>(alloc, number, count, keeper);
    let rows = keeper.rows(alloc).expect(rt, "the rows");
    (answer, rows.as_slice().len())
}

/// The text of lines that are joined by a `/`.
fn lines(rt: &impl Abort, alloc: Global, joined: &str) -> String {
    let mut text = String::new(alloc);
    for line in joined.split('/') {
        text.push_str(line).expect(rt, "a line");
        text.push_str("\n").expect(rt, "a line");
    }
    text
}

/// Asserts that a workload comes to its summary.
fn expect_summary(rt: &impl Abort, alloc: Global, row: &str) {
    let (words, joined) = cut(rt, row, '|');
    let (first, rest) = cut(rt, words, ' ');
    let (count, failing) = cut(rt, rest, ' ');
    let want = lines(rt, alloc, joined);
    match run(
        rt,
        alloc,
        number(rt, first),
        number(rt, count),
        number(rt, failing),
    ) {
        (Ok(text), _) => assert!(rt; text.as_str() == want.as_str(), "{text}\n{row}"),
        (Err(_), _) => panic!(rt; "{row}"),
    }
}

/// A workload whose keeper fails at its start has no summary.
fn expect_unstarted(rt: &impl Abort, alloc: Global, failing: u64) {
    let (answer, rows) = run(rt, alloc, 7, 10, failing);
    assert!(rt;
        matches!(
            answer,
            Err(WorkloadFailure::Unstarted(StartRefusal::KeeperFailed))
        )
    );
    assert!(rt; rows == 0);
}

/// A workload hands its rows back: sixteen rows of either table, and that of the boot's number.
#[test]
fn workloads_come_to_their_summaries(rt: HostRuntime) {
    for row in WORKLOADS.split('\n') {
        expect_summary(&rt, rt.alloc(), row);
    }
    let (_, rows) = run(&rt, rt.alloc(), 7, 20_000, 0);
    assert!(rt; rows == 33);
    expect_unstarted(&rt, rt.alloc(), 1);
    expect_unstarted(&rt, rt.alloc(), 2);
}
