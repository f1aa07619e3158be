//! What a journal finds of its requests, beside a plain scan of its entries.

ghost use Rattle.std.specs.Prelude.{◌≡◌, [], None};

use crate::words::expect_so;
use commit_journal::{
    CommitEntry, Entry, Journal, JournalLimits, MAX_ENTRIES, MarkList, TouchList,
};
use crash_base::{Place, RequestNo, WorkerNo, WriteList};
use std::alloc::Global;
use std::process::Abort;

const FALLING: u64 = 65_535;

const FEW: u64 = 300;

fn journal_of(alloc: Global) -> Journal {
    Journal::new(
        alloc,
        JournalLimits {
            entries: MAX_ENTRIES,
            bytes: 0,
        },
    )
}

/// A commit of a call that did nothing.
fn nothing(alloc: Global, request: RequestNo) -> CommitEntry
    ensures reads { result.reads ≡ [] }
    ensures writes { result.writes ≡ [] }
    ensures action { result.action ≡ None }
{
    CommitEntry {
        request,
        worker: WorkerNo(1),
        at: Place(0),
        touched: TouchList::new(alloc),
        reads: MarkList::new(alloc),
        writes: WriteList::new(alloc),
        action: None,
    }
}

/// Takes room for an entry. Where memory runs out, which it does only where an allocation is made to fail, the journal
/// has to be as it was.
fn reserve(rt: &impl Abort, journal: &mut Journal) {
    let len = journal.len();
    if journal.reserve(1).is_err() {
        let is_same = journal.len() == len && journal.fullness().entries == len;
        expect_so(rt, is_same, "the journal is as it was");
        journal.reserve(1).expect(rt, "room");
    }
}

/// Commits a call of a request that did nothing.
fn commit(rt: &impl Abort, alloc: Global, journal: &mut Journal, request: RequestNo) {
    journal.reserve(1).expect(rt, "room");
    let entry = nothing(alloc, request);
    assert!(rt; journal.full_for(1, 0).is_none());
    let _place = journal.push(Entry::Commit(entry));
}

fn is_commit_of(entry: &Entry, request: RequestNo) -> bool {
    match entry {
        Entry::Commit(commit) => {
            commit.request.boot == request.boot && commit.request.serial == request.serial
        }
        Entry::Down(_) | Entry::Up(_) => false,
    }
}

/// The place of the first commit of a request.
fn first_commit(entries: &[Entry], request: RequestNo) -> Option<u64> {
    for (place, entry) in entries.iter().enumerate() {
        if is_commit_of(entry, request) {
            return Some(place as u64);
        }
    }
    None
}

/// Asserts where the commit of a request is.
fn expect_place(rt: &impl Abort, journal: &Journal, request: RequestNo, want: Option<u64>) {
    let found = journal.commit_of(request).map(|place| place.0);
    expect_so(rt, found == want, "the place of a commit");
}

/// Asserts that the commits of all requests are those of a scan.
fn expect_commits(rt: &impl Abort, journal: &Journal) {
    for boot in 0..3 {
        for serial in 0..20 {
            let request = RequestNo { boot, serial };
            let want = first_commit(journal.entries(), request);
            expect_place(rt, journal, request, want);
        }
    }
}

/// Asserts that the commits of requests by chance are those of a scan.
fn expect_chance(rt: &impl Abort, alloc: Global) {
    let mut journal = journal_of(alloc);
    let mut number = 1u64;
    for _ in 0..FEW {
        number = number
            .wrapping_mul(6_364_136_223_846_793_005)
            .wrapping_add(1_442_695_040_888_963_407);
        let high = number >> 33;
        let request = RequestNo {
            boot: (high % 3) as u32,
            serial: high / 8 % 20,
        };
        reserve(rt, &mut journal);
        commit(rt, alloc, &mut journal, request);
        expect_commits(rt, &journal);
    }
}

/// The serial of the n-th commit, of which each is another: they fall, or come in an order that looks like chance.
fn serial_of(n: u64, is_falling: bool) -> u64 {
    if is_falling {
        FALLING.wrapping_sub(n)
    } else {
        n.wrapping_mul(98_765) % MAX_ENTRIES
    }
}

/// Asserts that so many commits of boot 1 are found at their places, and none of boot 2.
fn expect_serials(rt: &impl Abort, alloc: Global, count: u64, is_falling: bool) {
    let mut journal = journal_of(alloc);
    for n in 0..count {
        let serial = serial_of(n, is_falling);
        commit(rt, alloc, &mut journal, RequestNo { boot: 1, serial });
    }
    for n in 0..count {
        let serial = serial_of(n, is_falling);
        expect_place(rt, &journal, RequestNo { boot: 1, serial }, Some(n));
        expect_place(rt, &journal, RequestNo { boot: 2, serial }, None);
    }
}

/// Requests come by chance, in any order, and in falling order.
#[test]
fn commits_are_found_by_their_requests(rt: HostRuntime) {
    expect_chance(&rt, rt.alloc());
    expect_serials(&rt, rt.alloc(), MAX_ENTRIES, false);
    expect_serials(&rt, rt.alloc(), FALLING, true);
}
