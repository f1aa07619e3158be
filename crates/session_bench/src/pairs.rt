//! The loop of pairs of a write and a read, over a link in memory.

ghost use Rattle.send_windows.specs.Passes.{AreHeard, AreUnheard};

use crate::loops::{key, value};
use crash_base::{Moment, OutOfMemory, SessionBytes, SessionKey, Version};
use link_memory::ScriptLink;
use send_windows::{PassList, TakeRefusal, Windows};
use session_cookie::Cookie;
use ssm_stub::{ReadRefusal, WriteRefusal, read, settle, write};
use std::alloc::Global;

/// How many pairs are made over one link. A link in memory keeps every reply that its bricks ever
/// made, and no more values than the bricks have room for, so the next pairs are made over a new one.
const LINK_PAIRS: u64 = 10_000;

/// The last moment of each lease.
const EXPIRY: Moment = Moment(1_800_000);

/// The nonce of a call.
fn nonce(serial: u64) -> Version {
    Version {
        node: 1,
        boot: 1,
        serial,
    }
}

/// Reads a value by its cookie. How many bytes it has; none where it is lost.
fn read_back(
    alloc: Global,
    link: &mut ScriptLink,
    nonce: Version,
    cookie: &Cookie,
) -> Result<u64, OutOfMemory> {
    match read(alloc, link, Moment(0), nonce, cookie) {
        Ok(value) => Ok(value.as_slice().len() as u64),
        Err(ReadRefusal::OutOfMemory) => Err(OutOfMemory),
        Err(ReadRefusal::Expired { .. } | ReadRefusal::Lost(_)) => Ok(0),
    }
}

/// Writes a value to the bricks of passes, and hears all of them. The cookie; None where too few stored
/// the value.
fn write_all(
    alloc: Global,
    link: &mut ScriptLink,
    passes: &mut PassList,
    least: u16,
    nonce: Version,
    key: SessionKey,
    value: &SessionBytes,
) -> Result<Option<Cookie>, OutOfMemory>
    requires { AreUnheard passes.old }
    ensures { AreHeard passes.new }
{
    let answer = write(alloc, link, passes, least, nonce, key, value, EXPIRY);
    settle(alloc, link, passes, nonce, key);
    passes.hush();
    match answer {
        Ok(cookie) => Ok(Some(cookie)),
        Err(WriteRefusal::Missed(_)) => Ok(None),
        Err(WriteRefusal::OutOfMemory) => Err(OutOfMemory),
    }
}

/// Takes passes, writes a value by them and spends them. The cookie; None where there were no passes,
/// or too few bricks stored the value.
fn write_once(
    alloc: Global,
    link: &mut ScriptLink,
    windows: &mut Windows,
    serial: u64,
    value: &SessionBytes,
) -> Result<Option<Cookie>, OutOfMemory> {
    let least = windows.wq();
    match windows.take(alloc, serial) {
        Ok(passes) => {
            let mut passes = passes;
            let key = key(serial);
            let cookie = write_all(alloc, link, &mut passes, least, nonce(serial), key, value);
            windows.spend(passes);
            cookie
        }
        Err(TakeRefusal::Overload(_)) => Ok(None),
        Err(TakeRefusal::OutOfMemory) => Err(OutOfMemory),
    }
}

/// Writes a value and reads it back by its cookie. How many bytes came back.
fn pair(
    alloc: Global,
    link: &mut ScriptLink,
    windows: &mut Windows,
    serial: u64,
    value: &SessionBytes,
) -> Result<u64, OutOfMemory> {
    match write_once(alloc, link, windows, serial, value)? {
        Some(cookie) => read_back(alloc, link, nonce(serial.wrapping_add(1)), &cookie),
        None => Ok(0),
    }
}

/// Makes `count` pairs, the serials of the first being `first` and one more.
fn pair_all(
    alloc: Global,
    link: &mut ScriptLink,
    windows: &mut Windows,
    first: u64,
    count: u64,
) -> Result<u64, OutOfMemory> {
    let value = value(alloc)?;
    let mut sum: u64 = 0;
    for place in 0..count {
        let serial = first.wrapping_add(place.wrapping_mul(2));
        sum = sum.wrapping_add(pair(alloc, link, windows, serial, &value)?);
    }
    Ok(sum)
}

/// Makes `count` pairs over a new link to three bricks.
fn pair_over(alloc: Global, first: u64, count: u64) -> Result<u64, OutOfMemory> {
    let mut link = ScriptLink::new(alloc, 3)?;
    let mut windows = Windows::new(alloc, 3, 3, 2, false)?;
    pair_all(alloc, &mut link, &mut windows, first, count)
}

/// Writes a value to three bricks, of which two are to store it, and reads it back by its cookie,
/// `count` times. The sum of the bytes that came back.
pub fn paired(alloc: Global, count: u64) -> Result<u64, OutOfMemory> {
    let mut sum: u64 = 0;
    for place in 0..count / LINK_PAIRS {
        let first = place.wrapping_mul(2 * LINK_PAIRS);
        sum = sum.wrapping_add(pair_over(alloc, first, LINK_PAIRS)?);
    }
    Ok(sum.wrapping_add(pair_over(alloc, 0, count % LINK_PAIRS)?))
}
