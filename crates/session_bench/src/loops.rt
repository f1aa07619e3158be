//! The loops, and the frames that they go over.

ghost use Rattle.std.specs.Prelude.{◌≡◌, true, IfOk};
ghost use Rattle.ssm_frames.specs.Requests.{is_request};

use brick_store::{Brick, MAX_BRICK_VALUES};
use crash_base::{BrickNo, Moment, OutOfMemory, SessionBytes, SessionKey, Version};
use ssm_frames::{Frame, SWEEP_GRACE, decode, encode};
use std::alloc::Global;

/// How many bytes a value has.
const VALUE_BYTES: usize = 100;

/// How many values the brick keeps.
const VALUES: u64 = 60_000;

/// The nonce of each frame.
const NONCE: Version = Version {
    node: 1,
    boot: 1,
    serial: 1,
};

/// The version of each value.
const VERSION: Version = Version {
    node: 1,
    boot: 1,
    serial: 0,
};

/// The key of a value, by its number. Neighbouring numbers have keys that are far from each other.
pub(crate) fn key(number: u64) -> SessionKey {
    let spread = number.wrapping_mul(0x9e37_79b9_7f4a_7c15).to_be_bytes();
    let mut bytes = [0u8; 16];
    for i in 0..8 {
        bytes[i] = spread[i];
    }
    SessionKey(bytes)
}

/// A value.
pub(crate) fn value(alloc: Global) -> Result<SessionBytes, OutOfMemory> {
    Ok(SessionBytes::from_vec(Vec::from_elem(alloc, b'a', VALUE_BYTES)?))
}

/// When the leases of values end that are put with no other expiry.
const EXPIRY: Moment = Moment(1_800_000);

/// A Put of a value with an expiry.
fn put_until(alloc: Global, number: u64, expiry: Moment) -> Result<Frame, OutOfMemory>
    ensures { IfOk result (λ frame. is_request frame ≡ true) }
{
    Ok(Frame::Put {
        nonce: NONCE,
        key: key(number),
        version: VERSION,
        expiry,
        value: value(alloc)?,
    })
}

/// A Put of a value.
fn put(alloc: Global, number: u64) -> Result<Frame, OutOfMemory>
    ensures { IfOk result (λ frame. is_request frame ≡ true) }
{
    put_until(alloc, number, EXPIRY)
}

/// A Get of a value.
fn get(number: u64) -> Frame
    ensures { is_request result ≡ true }
{
    Frame::Get {
        nonce: NONCE,
        key: key(number),
        version: VERSION,
    }
}

/// A brick that keeps `VALUES` values.
fn filled_brick(alloc: Global) -> Result<Brick, OutOfMemory> {
    let mut brick = Brick::new(alloc, BrickNo(1), 1);
    for number in 0..VALUES {
        brick.answer(alloc, &put(alloc, number)?)?;
    }
    Ok(brick)
}

/// When the lease of a value ends that has an expiry of its own.
fn own_expiry(number: u64) -> Moment {
    Moment(EXPIRY.0.saturating_add(number))
}

/// A brick that keeps so many values, each with an expiry of its own.
fn leased_brick(alloc: Global, values: u64) -> Result<Brick, OutOfMemory> {
    let mut brick = Brick::new(alloc, BrickNo(1), 1);
    for number in 0..values {
        brick.answer(alloc, &put_until(alloc, number, own_expiry(number))?)?;
    }
    Ok(brick)
}

/// A brick that keeps as many values as it may, each with an expiry of its own.
fn full_brick(alloc: Global) -> Result<Brick, OutOfMemory> {
    leased_brick(alloc, MAX_BRICK_VALUES)
}

/// The number after this one of those that look random.
fn next(state: u64) -> u64 {
    state
        .wrapping_mul(6_364_136_223_846_793_005)
        .wrapping_add(1_442_695_040_888_963_407)
}

/// Encodes a Put `count` times. The sum of the frames' bytes.
pub fn encoded(alloc: Global, count: u64) -> Result<u64, OutOfMemory> {
    let frame = put(alloc, 1)?;
    let mut sum: u64 = 0;
    for _ in 0..count {
        sum = sum.wrapping_add(encode(alloc, &frame)?.as_slice().len() as u64);
    }
    Ok(sum)
}

/// The bytes of the value of a Put.
fn put_bytes(frame: &Frame) -> u64 {
    match frame {
        Frame::Put { value, .. } => value.as_slice().len() as u64,
        _ => 0,
    }
}

/// Decodes a Put `count` times. The sum of the values' bytes.
pub fn decoded(alloc: Global, count: u64) -> Result<u64, OutOfMemory> {
    let bytes = encode(alloc, &put(alloc, 1)?)?;
    let mut sum: u64 = 0;
    for _ in 0..count {
        if let Some(frame) = decode(alloc, bytes.as_slice())? {
            sum = sum.wrapping_add(put_bytes(&frame));
        }
    }
    Ok(sum)
}

/// Whether a brick has stored a value.
fn is_stored(frame: &Frame) -> u64 {
    match frame {
        Frame::Stored { .. } => 1,
        _ => 0,
    }
}

/// Makes a Put of a kept value and puts it, `count` times. How many were stored.
pub fn stored(alloc: Global, count: u64) -> Result<u64, OutOfMemory> {
    let mut brick = filled_brick(alloc)?;
    let mut state: u64 = 1;
    let mut sum: u64 = 0;
    for _ in 0..count {
        state = next(state);
        let request = put(alloc, (state >> 33) % VALUES)?;
        sum = sum.wrapping_add(is_stored(&brick.answer(alloc, &request)?));
    }
    Ok(sum)
}

/// Makes a Put of a kept value and puts it, `count` times, each with an expiry of its own. How many were stored.
pub fn renewed(alloc: Global, count: u64) -> Result<u64, OutOfMemory> {
    let mut brick = full_brick(alloc)?;
    let mut state: u64 = 1;
    let mut sum: u64 = 0;
    for round in 0..count {
        state = next(state);
        let expiry = own_expiry(MAX_BRICK_VALUES.saturating_add(round));
        let request = put_until(alloc, (state >> 33) % MAX_BRICK_VALUES, expiry)?;
        sum = sum.wrapping_add(is_stored(&brick.answer(alloc, &request)?));
    }
    Ok(sum)
}

/// Makes a Put of a pair that is not kept and puts it, `count` times, each with an expiry of its own, and after each
/// thousand of them sweeps the thousand that end first. How many were stored.
pub fn freshened(alloc: Global, count: u64) -> Result<u64, OutOfMemory> {
    let mut brick = leased_brick(alloc, VALUES)?;
    let mut sum: u64 = 0;
    for round in 0..count {
        let number = VALUES.saturating_add(round);
        let request = put_until(alloc, number, own_expiry(number))?;
        sum = sum.wrapping_add(is_stored(&brick.answer(alloc, &request)?));
        if round % 1000 == 999 {
            brick.sweep(Moment((EXPIRY.0 + SWEEP_GRACE + 1).saturating_add(round)));
        }
    }
    Ok(sum)
}

/// The bytes of the value that was found.
fn found_bytes(frame: &Frame) -> u64 {
    match frame {
        Frame::Found { value, .. } => value.as_slice().len() as u64,
        _ => 0,
    }
}

/// Gets kept values `count` times. The sum of their bytes.
pub fn got(alloc: Global, count: u64) -> Result<u64, OutOfMemory> {
    let mut brick = filled_brick(alloc)?;
    let mut state: u64 = 1;
    let mut sum: u64 = 0;
    for _ in 0..count {
        state = next(state);
        let request = get((state >> 33) % VALUES);
        sum = sum.wrapping_add(found_bytes(&brick.answer(alloc, &request)?));
    }
    Ok(sum)
}

/// Sweeps a full brick `count` times while nothing is due. How many values it kept each time.
pub fn swept_in_vain(alloc: Global, count: u64) -> Result<u64, OutOfMemory> {
    let mut brick = full_brick(alloc)?;
    let mut sum: u64 = 0;
    for _ in 0..count {
        brick.sweep(EXPIRY);
        sum = sum.wrapping_add(brick.values());
    }
    Ok(sum)
}

/// Fills a brick, and sweeps a thousand values at once, `count` times, at most 65. How many it kept each time.
pub fn swept(alloc: Global, count: u64) -> Result<u64, OutOfMemory> {
    let mut brick = full_brick(alloc)?;
    let mut sum: u64 = 0;
    for turn in 1..count.min(65) + 1 {
        brick.sweep(Moment(EXPIRY.0 + SWEEP_GRACE + 1000 * turn));
        sum = sum.wrapping_add(brick.values());
    }
    Ok(sum)
}
