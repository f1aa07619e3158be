//! The loops, each over a boot that was just started.

ghost use Rattle.std.specs.Prelude.{◌<◌};

use crate::store::{OTHER, Store, TABLE, row};
use crash_base::{OutOfMemory, Place, RowId};
use std::alloc::Global;
use std::ops::Range;

/// How many rows the table has that is listed.
const LISTED_ROWS: u64 = 1_000;

/// How many rows are committed over where there may be no memory.
const SHARED_ROWS: u64 = 3;

/// How many rows are looked at.
const LOOK_ROWS: u64 = 4;

/// How many commits wrote them.
const LOOK_COMMITS: u64 = 200_000;

/// How far the commits of neighbouring looks are from each other, which has no divisor in common with their number.
const LOOK_STRIDE: u64 = 7_919;

/// The key of a commit's row, of so many rows; of 0 rows, its own.
fn key(number: u64, rows: u64) -> u64 {
    if rows == 0 { number } else { number % rows }
}

/// Makes a call of a request that puts a row and commits. The row spells a place, and what is told is whether the
/// commit was answered that place.
fn is_committed(
    alloc: Global,
    store: &mut Store,
    serial: u64,
    id: RowId,
    place: u64,
) -> Result<bool, OutOfMemory>
    requires { 0 < id.table }
{
    let row = row(alloc, id, place)?;
    match store.commit(alloc, serial, row)? {
        Some(at) => Ok(at.0 == place),
        None => Ok(false),
    }
}

/// Commits at the places of a range, by requests that rise with them, over so many rows of a table. How many were
/// answered their places.
fn fill(
    alloc: Global,
    store: &mut Store,
    table: u8,
    rows: u64,
    places: Range<u64>,
) -> Result<u64, OutOfMemory>
    requires { 0 < table }
{
    let mut made: u64 = 0;
    for place in places {
        let id = RowId {
            table,
            key: key(place, rows),
        };
        if is_committed(alloc, store, place, id, place)? {
            made = made.wrapping_add(1);
        }
    }
    Ok(made)
}

/// Makes `count` commits over so many rows, by requests whose numbers rise. How many were answered their places.
pub(crate) fn commits(
    alloc: Global,
    store: &mut Store,
    count: u64,
    rows: u64,
) -> Result<u64, OutOfMemory> {
    fill(alloc, store, TABLE, rows, 0..count)
}

/// Makes `count` commits, each of a row of its own, by requests whose numbers fall. How many were answered their
/// places.
pub(crate) fn falling(alloc: Global, store: &mut Store, count: u64) -> Result<u64, OutOfMemory> {
    let mut made: u64 = 0;
    for place in 0..count {
        let id = RowId {
            table: TABLE,
            key: place,
        };
        if is_committed(alloc, store, count - place, id, place)? {
            made = made.wrapping_add(1);
        }
    }
    Ok(made)
}

/// The row of the commit at a place, which is one of three.
fn shared(place: u64) -> RowId
    ensures { 0 < result.table }
{
    RowId {
        table: TABLE,
        key: place % SHARED_ROWS,
    }
}

/// Whether the boot has just the commits at the places before this one: its journal ends there, and each of their rows
/// is what its commit wrote, until the next commit of that row.
fn has_just(store: &Store, end: u64) -> bool {
    if store.entries() != end {
        return false;
    }
    for place in 0..end {
        if !store.has(shared(place), Place(place + 1), place) {
            return false;
        }
    }
    for key in 0..SHARED_ROWS {
        let id = RowId { table: TABLE, key };
        if store.newest(id) != newest_before(end, key) {
            return false;
        }
    }
    true
}

/// The place after the last commit before `end` of the row of a key, else 0.
fn newest_before(end: u64, key: u64) -> u64 {
    let mut newest = 0;
    for place in 0..end {
        if place % SHARED_ROWS == key {
            newest = place + 1;
        }
    }
    newest
}

/// Makes a commit at a place, and where there is no memory for it, once more over the boot as it was. Whether it was
/// answered its place, and nothing else changed.
fn is_retried(alloc: Global, store: &mut Store, place: u64) -> Result<bool, OutOfMemory> {
    match is_committed(alloc, store, place, shared(place), place) {
        Ok(made) => Ok(made && has_just(store, place.wrapping_add(1))),
        Err(OutOfMemory) => {
            if !has_just(store, place) {
                return Ok(false);
            }
            is_committed(alloc, store, place, shared(place), place)
        }
    }
}

/// Makes `count` commits over three rows, each once more where there was no memory for it. How many were answered their
/// places and left the others as they were.
pub(crate) fn retries(alloc: Global, store: &mut Store, count: u64) -> Result<u64, OutOfMemory> {
    let mut made: u64 = 0;
    for place in 0..count {
        if is_retried(alloc, store, place)? {
            made = made.wrapping_add(1);
        }
    }
    Ok(made)
}

/// Lists a table of 1,000 rows `count` times, after commits to another table. How many rows were listed.
pub(crate) fn lists(
    alloc: Global,
    store: &mut Store,
    others: u64,
    count: u64,
) -> Result<u64, OutOfMemory> {
    fill(alloc, store, TABLE, 0, 0..LISTED_ROWS)?;
    let end = LISTED_ROWS.saturating_add(others);
    fill(alloc, store, OTHER, 0, LISTED_ROWS..end)?;
    let mut rows: u64 = 0;
    for _ in 0..count {
        rows = rows.wrapping_add(store.list(alloc, TABLE)? as u64);
    }
    Ok(rows)
}

/// Makes commits over four rows, and looks at what a row was at `count` places, each before the next commit of that
/// row. How many looks found the last commit before the place.
pub(crate) fn looks(alloc: Global, store: &mut Store, count: u64) -> Result<u64, OutOfMemory> {
    fill(alloc, store, TABLE, LOOK_ROWS, 0..LOOK_COMMITS)?;
    let mut found: u64 = 0;
    for round in 0..count {
        let place = round.wrapping_mul(LOOK_STRIDE) % LOOK_COMMITS;
        let id = RowId {
            table: TABLE,
            key: place % LOOK_ROWS,
        };
        if store.has(id, Place(place + LOOK_ROWS), place) {
            found = found.wrapping_add(1);
        }
    }
    Ok(found)
}
