//! Links to a house of bricks: requests to put and to get numbers, their replies in short, and threads that ask at
//! once.

ghost use Rattle.std.specs.Prelude.{◌≡◌, ◌≤◌, IfOk, length, true};
ghost use denote.Param.Send.{IsSync};
ghost use Rattle.crash_base.specs.declared.items.TheConstants.{MAX_FRAME_BYTES};
ghost use Rattle.ssm_frames.specs.Requests.{is_request};

use brick_house::{BrickHouse, HouseLink, HouseSeats};
use crash_base::{
    BrickNo, FrameBytes, Moment, OutOfMemory, SessionBytes, SessionKey, Version, take_u64,
};
use outside::{Link, Received, Sent};
use ssm_frames::{Frame, decode, encode};
use std::alloc::Global;
use std::sync::Wait;
use std::thread::{Threads, join};

/// How often each thread asks each brick.
pub const ROUNDS: u64 = 1_000;

/// The bricks of the house that threads ask: 1 to this.
pub const BRICKS: u16 = 3;

/// A reply in short.
#[derive(Clone, Copy, Debug, PartialEq, Eq)]
pub struct Reply {
    pub told: Told,
    /// The number of the brick.
    pub brick: u16,
    pub incarnation: u64,
    /// The serial of the nonce.
    pub serial: u64,
}

/// What a reply tells.
#[derive(Clone, Copy, Debug, PartialEq, Eq)]
pub enum Told {
    Stored,
    /// The number that was found.
    Found(u64),
    Absent,
    /// The moment of a sweep.
    Swept(u64),
    Full,
}

/// The session of a thread.
fn key(who: u8) -> SessionKey {
    SessionKey([who, 0, 0, 0, 0, 0, 0, 0, 0, 0, 0, 0, 0, 0, 0, 0])
}

/// A version, and the nonce of a request, by its serial.
fn version(serial: u64) -> Version {
    Version {
        node: 1,
        boot: 1,
        serial,
    }
}

/// The value that spells a number.
fn value(alloc: Global, number: u64) -> Result<SessionBytes, OutOfMemory> {
    Ok(SessionBytes::from_vec(Vec::from_slice(alloc, &number.to_be_bytes())?))
}

/// The number that a value spells, 0 where it spells none.
fn number(value: &SessionBytes) -> u64 {
    match take_u64(value.as_slice()) {
        Some((number, _)) => number,
        None => 0,
    }
}

/// A request to keep a number for a thread, whose version has this serial.
pub fn put(alloc: Global, who: u8, serial: u64, number: u64) -> Result<Frame, OutOfMemory>
    ensures { IfOk result (λ frame. is_request frame ≡ true) }
{
    Ok(Frame::Put {
        nonce: version(serial),
        key: key(who),
        version: version(serial),
        expiry: Moment(0),
        value: value(alloc, number)?,
    })
}

/// A request for what is kept for a thread under the version of this serial.
pub fn get(who: u8, serial: u64) -> Frame
    ensures { is_request result ≡ true }
{
    Frame::Get {
        nonce: version(serial),
        key: key(who),
        version: version(serial),
    }
}

/// A reply in short. None for a request.
pub fn reply_of(frame: &Frame) -> Option<Reply> {
    let (told, nonce, brick, incarnation) = match frame {
        Frame::Stored {
            nonce,
            brick,
            incarnation,
            ..
        } => (Told::Stored, nonce, brick, incarnation),
        Frame::Found {
            nonce,
            brick,
            incarnation,
            value,
            ..
        } => (Told::Found(number(value)), nonce, brick, incarnation),
        Frame::Absent {
            nonce,
            brick,
            incarnation,
            ..
        } => (Told::Absent, nonce, brick, incarnation),
        Frame::Swept {
            nonce,
            brick,
            incarnation,
            moment,
        } => (Told::Swept(moment.0), nonce, brick, incarnation),
        Frame::BrickFull {
            nonce,
            brick,
            incarnation,
            ..
        } => (Told::Full, nonce, brick, incarnation),
        _ => return None,
    };
    Some(Reply {
        told,
        brick: brick.0,
        incarnation: *incarnation,
        serial: nonce.serial,
    })
}

/// Sends a frame to a brick.
pub fn send<L: Link>(
    alloc: Global,
    link: &mut L,
    to: u16,
    frame: &Frame,
) -> Result<Sent, OutOfMemory> {
    let bytes = encode(alloc, frame)?;
    match link.send(alloc, BrickNo(to), bytes.as_slice()) {
        Sent::OutOfMemory => Err(OutOfMemory),
        sent => Ok(sent),
    }
}

/// Receives from a brick. None where it is silent, or what came is no reply.
pub fn receive<L: Link>(
    alloc: Global,
    link: &mut L,
    from: u16,
) -> Result<Option<Reply>, OutOfMemory> {
    let mut bytes = FrameBytes::new(alloc);
    match link.receive(alloc, BrickNo(from), &mut bytes) {
        Received::Silent => Ok(None),
        Received::OutOfMemory => Err(OutOfMemory),
        Received::Got => match decode(alloc, bytes.as_slice())? {
            Some(frame) => Ok(reply_of(&frame)),
            None => Ok(None),
        },
    }
}

/// The number that a thread puts in its request of this serial.
pub fn number_of(who: u8, serial: u64) -> u64 {
    serial.wrapping_mul(2).wrapping_add(who as u64)
}

/// Puts a number of a thread at a brick and gets it back. Whether the brick of incarnation 7 stored and found it.
fn is_kept<L: Link>(
    alloc: Global,
    link: &mut L,
    who: u8,
    brick: u16,
    serial: u64,
) -> Result<bool, OutOfMemory> {
    let number = number_of(who, serial);
    let put = put(alloc, who, serial, number)?;
    if send(alloc, link, brick, &put)? != Sent::Done
        || send(alloc, link, brick, &get(who, serial))? != Sent::Done
    {
        return Ok(false);
    }
    let stored = receive(alloc, link, brick)?;
    let found = receive(alloc, link, brick)?;
    Ok(
        stored == from(brick, serial, Told::Stored)
            && found == from(brick, serial, Told::Found(number)),
    )
}

/// A reply of a brick of incarnation 7.
pub fn from(brick: u16, serial: u64, told: Told) -> Option<Reply> {
    Some(Reply {
        told,
        brick,
        incarnation: 7,
        serial,
    })
}

/// Asks each brick often. How often it stored and found.
fn ask_often<L: Link>(alloc: Global, link: &mut L, who: u8) -> Result<u64, OutOfMemory> {
    let mut kept: u64 = 0;
    for serial in 0..ROUNDS {
        for brick in 0..BRICKS {
            if is_kept(alloc, link, who, brick + 1, serial)? {
                kept = kept.wrapping_add(1);
            }
        }
    }
    Ok(kept)
}

/// What one thread does, over a link of its own.
fn ask<R: Wait>(
    rt: &R,
    alloc: Global,
    house: &BrickHouse,
    seats: HouseSeats,
    who: u8,
) -> Result<u64, OutOfMemory>
    requires { seats.house ≡ house.now }
{
    let mut link = HouseLink::new(rt, alloc, house, seats)?;
    ask_often(alloc, &mut link, who)
}

/// Two threads at once, of numbers 1 and 2. How often the bricks stored and found for each.
pub fn two_ask<R: Threads + Wait + Sync>(
    rt: &R,
    alloc: Global,
    house: &BrickHouse,
    first: HouseSeats,
    second: HouseSeats,
) -> (Result<u64, OutOfMemory>, Result<u64, OutOfMemory>)
    requires { (first.house ≡ house.now) × (second.house ≡ house.now) }
{
    join(
        rt,
        move || -> Result<u64, OutOfMemory>
            requires sync { IsSync R.row }
            requires seats { first.house ≡ house.now }
        { ask(rt, alloc, house, first, 1) },
        move || -> Result<u64, OutOfMemory>
            requires sync { IsSync R.row }
            requires seats { second.house ≡ house.now }
        { ask(rt, alloc, house, second, 2) },
    )
}
