//! What a brick replies to a few requests in a row.

use crate::asking::{brick, crash, expect_kept, expect_reply, get, key, put, sweep, version};
use crate::words::expect_so;
use brick_store::Brick;
use crash_base::{MAX_SESSION_BYTES, SessionBytes};
use std::alloc::Global;
use std::process::Abort;

/// The value that a text spells.
fn spelled(rt: &impl Abort, alloc: Global, text: &str) -> SessionBytes {
    let bytes = Vec::from_slice(alloc, text.as_bytes()).expect(rt, text);
    assert!(rt; bytes.len() <= MAX_SESSION_BYTES);
    SessionBytes::from_vec(bytes)
}

/// Puts a text under a key and a version.
fn expect_put(
    rt: &impl Abort,
    alloc: Global,
    brick: &mut Brick,
    at: (u8, u64),
    expiry: u64,
    text: &str,
) {
    let request = put(key(at.0), version(at.1), expiry, spelled(rt, alloc, text));
    expect_reply(rt, alloc, brick, &request, "stored 3.7");
}

fn expect_get(rt: &impl Abort, alloc: Global, brick: &mut Brick, at: (u8, u64), want: &str) {
    let request = get(key(at.0), version(at.1));
    expect_reply(rt, alloc, brick, &request, want);
}

/// Values are kept by key and version.
fn keep(rt: &impl Abort, alloc: Global, brick: &mut Brick) {
    expect_put(rt, alloc, brick, (2, 10), 5000, "ab");
    expect_put(rt, alloc, brick, (2, 9), 6000, "c");
    expect_put(rt, alloc, brick, (1, 10), 7000, "def");
    expect_put(rt, alloc, brick, (2, 10), 8000, "x");
    expect_get(rt, alloc, brick, (2, 10), "found 3.7 8000 x");
    expect_get(rt, alloc, brick, (2, 9), "found 3.7 6000 c");
    expect_get(rt, alloc, brick, (1, 10), "found 3.7 7000 def");
    expect_get(rt, alloc, brick, (1, 9), "absent 3.7 0");
    expect_kept(rt, brick, 3, 5);
}

/// A sweep takes a value after 60 seconds.
fn sweep_twice(rt: &impl Abort, alloc: Global, brick: &mut Brick) {
    expect_put(rt, alloc, brick, (2, 10), 5000, "ab");
    expect_put(rt, alloc, brick, (2, 11), 5001, "cde");
    expect_reply(rt, alloc, brick, &sweep(65_000), "swept 3.7 65000");
    expect_get(rt, alloc, brick, (2, 10), "found 3.7 5000 ab");
    expect_reply(rt, alloc, brick, &sweep(65_001), "swept 3.7 65001");
    expect_reply(rt, alloc, brick, &sweep(3), "swept 3.7 3");
    expect_get(rt, alloc, brick, (2, 10), "absent 3.7 65001");
    expect_get(rt, alloc, brick, (2, 11), "found 3.7 5001 cde");
    expect_kept(rt, brick, 1, 3);
}

/// A crash takes all.
fn lose_all(rt: &impl Abort, alloc: Global, brick: &mut Brick) {
    expect_put(rt, alloc, brick, (2, 10), 5000, "ab");
    expect_reply(rt, alloc, brick, &sweep(9), "swept 3.7 9");
    crash(rt, brick);
    let is_next = brick.number().0 == 3 && brick.incarnation() == 8;
    expect_so(rt, is_next, "the next incarnation");
    expect_kept(rt, brick, 0, 0);
    expect_get(rt, alloc, brick, (2, 10), "absent 3.8 0");
}

#[test]
fn values_are_kept_swept_and_lost(rt: HostRuntime) {
    keep(&rt, rt.alloc(), &mut brick(rt.alloc()));
    sweep_twice(&rt, rt.alloc(), &mut brick(rt.alloc()));
    lose_all(&rt, rt.alloc(), &mut brick(rt.alloc()));
}
