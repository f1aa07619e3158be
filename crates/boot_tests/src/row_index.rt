//! What the index of rows finds, beside plain scans of all that was written.

ghost use Rattle.std.specs.Prelude.{ℕ, ◌<◌, All};
ghost use Rattle.row_store.specs.declared.noted.Noted.{Noted};

use crate::rows::add_rows;
use crate::words::{add_row, expect_so, expect_words};
use crash_base::{Place, RowBytes, RowId, RowList, RowWrite};
use row_store::Rows;
use std::alloc::Global;
use std::process::Abort;

const TABLES: u8 = 3;

const KEYS: u64 = 4;

/// A number that follows another in a row that looks like chance.
fn next(number: u64) -> u64 {
    number
        .wrapping_mul(6_364_136_223_846_793_005)
        .wrapping_add(1_442_695_040_888_963_407)
}

/// A row that a number tells.
fn row_of(rt: &impl Abort, alloc: Global, number: u64) -> RowWrite {
    let high = number >> 33;
    let digit = [b'a' + (high % 23) as u8];
    RowWrite {
        id: RowId {
            table: (high / 32 % 3) as u8,
            key: high / 128 % KEYS,
        },
        bytes: RowBytes::copied(alloc, &digit).expect(rt, "a row"),
    }
}

/// The rows that numbers tell of which the first is given, at most five of them.
fn rows_of(rt: &impl Abort, alloc: Global, first: u64) -> RowList {
    let mut rows = RowList::new(alloc);
    let mut number = first;
    for _ in 0..(first >> 40) % 6 {
        number = next(number);
        rows.push(row_of(rt, alloc, number)).expect(rt, "a row");
    }
    rows
}

/// A write, and the first place at which it is seen.
#[derive(Drop)]
struct Written {
    from: u64,
    row: RowWrite,
}

fn add_written(rt: &impl Abort, all: &mut Vec<Written>, from: u64, rows: RowList) {
    for row in rows.into_vec() {
        all.push(Written { from, row }).expect(rt, "a write");
    }
}

/// The last write of a row before a place.
fn last_before(all: &[Written], id: RowId, at: u64) -> Option<&RowWrite> {
    let mut found = None;
    for written in all {
        if written.from <= at && written.row.id.is_same(id) {
            found = Some(&written.row);
        }
    }
    found
}

/// The place after the last note of a row.
fn newest_of(all: &[Written], id: RowId) -> u64 {
    let mut newest = 0;
    for written in all {
        if written.row.id.is_same(id) {
            newest = written.from;
        }
    }
    newest
}

/// The place after the last note of a table.
fn table_newest_of(all: &[Written], table: u8) -> u64 {
    let mut newest = 0;
    for written in all {
        if written.row.id.table == table {
            newest = written.from;
        }
    }
    newest
}

/// Adds the rows of a table at a place.
fn add_table(rt: &impl Abort, words: &mut String, all: &[Written], table: u8, at: u64) {
    for key in 0..KEYS {
        if let Some(row) = last_before(all, RowId { table, key }, at) {
            add_row(rt, words, row);
        }
    }
}

/// Whether two rows that may be there have the same bytes.
fn is_same(found: Option<&RowBytes>, want: Option<&RowWrite>) -> bool {
    match (found, want) {
        (Some(found), Some(want)) => found.as_slice() == want.bytes.as_slice(),
        (None, None) => true,
        _ => false,
    }
}

fn expect_table(rt: &impl Abort, alloc: Global, rows: &Rows, all: &[Written], table: u8, at: u64) {
    let mut found = String::new(alloc);
    let mut want = String::new(alloc);
    let list = rows.list_at(alloc, table, Place(at)).expect(rt, "a list");
    add_rows(rt, &mut found, list.as_slice());
    add_table(rt, &mut want, all, table, at);
    expect_words(rt, &found, want.as_str().trim_start(), "a table");
    for key in 0..KEYS {
        let id = RowId { table, key };
        let want = last_before(all, id, at);
        expect_so(rt, is_same(rows.row_at(id, Place(at)), want), "a row");
    }
}

fn expect_all(rt: &impl Abort, alloc: Global, rows: &Rows, all: &[Written], at: u64) {
    let mut found = String::new(alloc);
    let mut want = String::new(alloc);
    let list = rows.all_at(alloc, Place(at)).expect(rt, "all rows");
    add_rows(rt, &mut found, list.as_slice());
    for table in 0..TABLES {
        expect_table(rt, alloc, rows, all, table, at);
        add_table(rt, &mut want, all, table, at);
    }
    expect_words(rt, &found, want.as_str().trim_start(), "all rows");
}

fn expect_newest(rt: &impl Abort, rows: &Rows, all: &[Written]) {
    for table in 0..TABLES {
        let newest = table_newest_of(all, table);
        expect_so(rt, rows.table_newest(table).0 == newest, "a table");
        for key in 0..KEYS {
            let id = RowId { table, key };
            expect_so(rt, rows.newest(id).0 == newest_of(all, id), "a row");
        }
    }
}

/// Asserts that the rows are those of all writes, at each place up to one.
fn expect_rows(rt: &impl Abort, alloc: Global, rows: &Rows, all: &[Written], end: u64) {
    for at in 0..=end {
        expect_all(rt, alloc, rows, all, at);
    }
    expect_newest(rt, rows, all);
}

/// Notes rows at a place.
fn note(rt: &impl Abort, alloc: Global, rows: &mut Rows, writes: &[RowWrite], place: u64)
    requires later { All (λ (n : Noted). n.place.0 < place) rows.old.noted }
    requires fits { place < 1000000 }
    ensures earlier { (p : ℕ) → place < p → All (λ (n : Noted). n.place.0 < p) rows.new.noted }
{
    rows.note(alloc, writes, Place(place)).expect(rt, "a note");
}

#[test]
fn rows_are_those_of_a_scan(rt: HostRuntime) {
    let alloc = rt.alloc();
    let mut all = Vec::new(alloc);
    add_written(&rt, &mut all, 0, rows_of(&rt, alloc, 5 << 40));
    let mut rows = Rows::new(alloc, rows_of(&rt, alloc, 5 << 40)).expect(&rt, "the rows");
    let mut number = 1;
    for place in 0..40u64 {
        number = next(number);
        let writes = rows_of(&rt, alloc, number);
        note(&rt, alloc, &mut rows, writes.as_slice(), place);
        add_written(&rt, &mut all, place + 1, writes);
        expect_rows(&rt, alloc, &rows, &all, place + 2);
    }
}

const NOTES: u64 = 200_000;

/// The place of the last note of a key before a place, where note n is of key n % 4.
fn note_before(at: u64, key: u64) -> Option<u64> {
    let back = at.wrapping_sub(1).wrapping_sub(key) % 4;
    at.checked_sub(1)?.checked_sub(back)
}

/// The row that note n writes.
fn numbered(rt: &impl Abort, alloc: Global, n: u64) -> RowList {
    let mut rows = RowList::new(alloc);
    let bytes = RowBytes::copied(alloc, &n.to_be_bytes()).expect(rt, "a row");
    let id = RowId {
        table: 3,
        key: n % 4,
    };
    rows.push(RowWrite { id, bytes }).expect(rt, "a row");
    rows
}

/// Asserts which note a row at a place is of.
fn expect_note(rt: &impl Abort, rows: &Rows, key: u64, at: u64) {
    match (
        rows.row_at(RowId { table: 3, key }, Place(at)),
        note_before(at, key),
    ) {
        (Some(found), Some(n)) => {
            let is_note = found.as_slice() == n.to_be_bytes().as_slice();
            expect_so(rt, is_note, "the note of a row");
        }
        (None, None) => {}
        _ => panic!(rt; "row {key} at {at}"),
    }
}

/// A scan of the notes for each row would take hours.
#[test]
fn many_notes_are_not_scanned(rt: HostRuntime) {
    let alloc = rt.alloc();
    let mut rows = Rows::new(alloc, RowList::new(alloc)).expect(&rt, "the rows");
    for n in 0..NOTES {
        let writes = numbered(&rt, alloc, n);
        note(&rt, alloc, &mut rows, writes.as_slice(), n);
    }
    for n in 0..NOTES {
        expect_note(&rt, &rows, n / 7 % 4, n.wrapping_mul(7919) % (NOTES + 2));
    }
}
