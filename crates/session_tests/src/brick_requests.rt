//! A brick through many requests, beside a plain list.

use crate::asking::{
    add_sender, ask, brick, crash, expect_kept, filled, get, key, put, sweep, version,
};
use crate::words::{add_number, add_text, expect_so};
use brick_store::Brick;
use crash_base::{BrickNo, Moment};
use ssm_frames::Frame;
use std::alloc::Global;
use std::process::Abort;

/// A value that is kept: how many bytes it has, each of them `A`, under which key and version, and
/// until when.
#[derive(Clone, Copy)]
struct Row {
    key: u8,
    serial: u64,
    expiry: u64,
    size: usize,
}

/// What a brick keeps, in the order in which it was put.
#[derive(Drop)]
struct Rows {
    rows: Vec<Row>,
    swept: u64,
    incarnation: u64,
}

/// The next number that looks random.
fn next(state: &mut u64) -> u64 {
    *state = state
        .wrapping_mul(6_364_136_223_846_793_005)
        .wrapping_add(1_442_695_040_888_963_407);
    *state >> 33
}

/// A row of few keys and versions.
fn next_row(state: &mut u64) -> Row {
    Row {
        key: (next(state) % 6) as u8,
        serial: next(state) % 5,
        expiry: next(state) % 200_000,
        size: (next(state) % 4) as usize,
    }
}

fn is_same(a: &Row, b: &Row) -> bool {
    a.key == b.key && a.serial == b.serial
}

impl Rows {
    fn put(&mut self, rt: &impl Abort, row: Row) {
        self.rows.retain(|kept| !is_same(kept, &row));
        self.rows.push(row).expect(rt, "a row");
    }

    fn find(&self, row: &Row) -> Option<Row> {
        for kept in &self.rows {
            if is_same(kept, row) {
                return Some(*kept);
            }
        }
        None
    }

    fn sweep(&mut self, moment: u64) {
        self.rows
            .retain(|kept| kept.expiry.saturating_add(60_000) >= moment);
        self.swept = self.swept.max(moment);
    }

    fn crash(&mut self) {
        self.rows.clear();
        self.swept = 0;
        self.incarnation = self.incarnation.wrapping_add(1);
    }

    fn bytes(&self) -> u64 {
        let mut bytes = 0u64;
        for row in &self.rows {
            bytes = bytes.wrapping_add(row.size as u64);
        }
        bytes
    }
}

/// Asserts what a brick replies.
fn expect_asked(rt: &impl Abort, alloc: Global, brick: &mut Brick, request: &Frame, want: &str) {
    expect_so(rt, ask(rt, alloc, brick, request).as_str() == want, want);
}

/// Adds what a brick replies to a Get.
fn add_reply_to_get(rt: &impl Abort, alloc: Global, words: &mut String, rows: &Rows, row: &Row) {
    match rows.find(row) {
        None => {
            add_sender(rt, words, "absent", BrickNo(3), rows.incarnation);
            add_number(rt, words, rows.swept);
        }
        Some(kept) => {
            add_sender(rt, words, "found", BrickNo(3), rows.incarnation);
            add_number(rt, words, kept.expiry);
            add_text(rt, words, filled(rt, alloc, 65, kept.size).as_slice());
        }
    }
}

fn put_next(rt: &impl Abort, alloc: Global, brick: &mut Brick, rows: &mut Rows, row: Row) {
    let value = filled(rt, alloc, 65, row.size);
    let request = put(key(row.key), version(row.serial), row.expiry, value);
    let mut want = String::new(alloc);
    add_sender(rt, &mut want, "stored", BrickNo(3), rows.incarnation);
    expect_asked(rt, alloc, brick, &request, &want);
    rows.put(rt, row);
}

fn get_next(rt: &impl Abort, alloc: Global, brick: &mut Brick, rows: &Rows, row: Row) {
    let request = get(key(row.key), version(row.serial));
    let mut want = String::new(alloc);
    add_reply_to_get(rt, alloc, &mut want, rows, &row);
    expect_asked(rt, alloc, brick, &request, &want);
}

/// Sweeps by a request.
fn ask_sweep(rt: &impl Abort, alloc: Global, brick: &mut Brick, rows: &Rows, moment: u64) {
    let mut want = String::new(alloc);
    add_sender(rt, &mut want, "swept", BrickNo(3), rows.incarnation);
    add_number(rt, &mut want, moment);
    expect_asked(rt, alloc, brick, &sweep(moment), &want);
}

/// Sweeps, every other time by a request.
fn sweep_next(rt: &impl Abort, alloc: Global, brick: &mut Brick, rows: &mut Rows, row: Row) {
    if row.size % 2 == 0 {
        brick.sweep(Moment(row.expiry));
    } else {
        ask_sweep(rt, alloc, brick, rows, row.expiry);
    }
    rows.sweep(row.expiry);
}

fn crash_next(rt: &impl Abort, brick: &mut Brick, rows: &mut Rows) {
    crash(rt, brick);
    rows.crash();
    expect_so(rt, brick.incarnation() == rows.incarnation, "a crash");
}

fn step(rt: &impl Abort, alloc: Global, brick: &mut Brick, rows: &mut Rows, state: &mut u64) {
    let row = next_row(state);
    match next(state) % 64 {
        0 => crash_next(rt, brick, rows),
        1..=3 => sweep_next(rt, alloc, brick, rows, row),
        4..=33 => put_next(rt, alloc, brick, rows, row),
        _ => get_next(rt, alloc, brick, rows, row),
    }
    expect_kept(rt, brick, rows.rows.len() as u64, rows.bytes());
}

#[test]
fn a_brick_replies_as_a_list(rt: HostRuntime) {
    let mut brick = brick(rt.alloc());
    let mut rows = Rows {
        rows: Vec::new(rt.alloc()),
        swept: 0,
        incarnation: 7,
    };
    let mut state = 2_026;
    for _ in 0..10_000 {
        step(&rt, rt.alloc(), &mut brick, &mut rows, &mut state);
    }
}
