//! Bricks at their limits.

use crate::asking::{brick, expect_kept, expect_reply, filled, key, put, version};
use crate::words::expect_so;
use brick_store::{Brick, MAX_BRICK_BYTES, MAX_BRICK_VALUES};
use ssm_frames::{Frame, SWEEP_GRACE, is_request};
use std::alloc::Global;
use std::process::Abort;

/// Puts a value of so many bytes under a version.
fn expect_put(
    rt: &impl Abort,
    alloc: Global,
    brick: &mut Brick,
    serial: u64,
    size: usize,
    want: &str,
) {
    let request = put(key(5), version(serial), 1000, filled(rt, alloc, 65, size));
    expect_reply(rt, alloc, brick, &request, want);
}

/// Puts a value of so many bytes under each of the versions before one.
fn fill(rt: &impl Abort, alloc: Global, brick: &mut Brick, end: u64, size: usize) {
    for serial in 0..end {
        let request = put(key(5), version(serial), 1000, filled(rt, alloc, 65, size));
        assert!(rt; is_request(&request));
        let reply = brick.answer(alloc, &request).expect(rt, "a reply");
        expect_so(
            rt,
            matches!(reply, Frame::Stored { .. }),
            "a value is stored",
        );
    }
}

/// A brick of 16384 long values is full.
fn expect_long(rt: &impl Abort, alloc: Global, brick: &mut Brick) {
    fill(rt, alloc, brick, 16_384, 4096);
    expect_kept(rt, brick, 16_384, 67_108_864);
    expect_put(rt, alloc, brick, 16_384, 1, "full 3.7 16384 67108864");
    expect_put(rt, alloc, brick, 16_384, 0, "stored 3.7");
    expect_put(rt, alloc, brick, 77, 4096, "stored 3.7");
    expect_kept(rt, brick, 16_385, 67_108_864);
    expect_put(rt, alloc, brick, 77, 4095, "stored 3.7");
    expect_put(rt, alloc, brick, 16_384, 1, "stored 3.7");
    expect_kept(rt, brick, 16_385, 67_108_864);
}

/// A brick of 65536 empty values is full.
fn expect_many(rt: &impl Abort, alloc: Global, brick: &mut Brick) {
    fill(rt, alloc, brick, 65_536, 0);
    expect_kept(rt, brick, 65_536, 0);
    expect_put(rt, alloc, brick, 65_536, 0, "full 3.7 65536 0");
    expect_put(rt, alloc, brick, 65_535, 9, "stored 3.7");
    expect_kept(rt, brick, 65_536, 9);
}

/// Contracts cite limits by their names alone, so their values are tested.
#[test]
fn bricks_have_limits(rt: HostRuntime) {
    expect_long(&rt, rt.alloc(), &mut brick(rt.alloc()));
    expect_many(&rt, rt.alloc(), &mut brick(rt.alloc()));
    let limits = MAX_BRICK_VALUES == 65_536
        && MAX_BRICK_BYTES == 67_108_864
        && SWEEP_GRACE == 60_000;
    expect_so(&rt, limits, "limits");
}
