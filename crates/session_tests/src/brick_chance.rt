//! 100,000 puts, gets, sweeps and crashes that numbers draw, beside a plain table of what a brick has to keep.

use crate::asking::{brick, crash, filled, get, key, put, sweep, version};
use crate::words::expect_so;
use crate::world_chance::Dice;
use brick_store::Brick;
use crash_base::{SessionKey, Version};
use ssm_frames::{Frame, is_request};
use std::alloc::Global;
use std::process::Abort;

/// How many keys there are, and versions of each.
const KEYS: u64 = 16;

const VERSIONS: u64 = 8;

/// A value that has to be kept: so many times this byte.
#[derive(Clone, Copy)]
struct Held {
    expiry: u64,
    byte: u8,
    size: usize,
}

/// What has to be kept under each key and version.
#[derive(Drop)]
struct Plain {
    slots: Vec<Option<Held>>,
    swept: u64,
    incarnation: u64,
}

/// The key and the version of a slot.
fn pair(slot: usize) -> (SessionKey, Version) {
    let number = slot as u64;
    let byte = (number / VERSIONS).to_be_bytes()[7];
    (key(byte), version(number % VERSIONS))
}

/// Whether a sweep takes what is in a slot.
fn is_taken(slot: Option<Held>, moment: u64) -> bool {
    match slot {
        Some(held) => held.expiry < moment.saturating_sub(60_000),
        None => false,
    }
}

impl Plain {
    fn new(rt: &impl Abort, alloc: Global) -> Plain {
        let slots = (KEYS * VERSIONS) as usize;
        Plain {
            slots: Vec::from_elem(alloc, None, slots).expect(rt, "slots"),
            swept: 0,
            incarnation: 7,
        }
    }

    fn keep(&mut self, slot: usize, held: Option<Held>) {
        if let Some(place) = self.slots.get_mut(slot) {
            *place = held;
        }
    }

    fn held(&self, slot: usize) -> Option<Held> {
        match self.slots.get(slot) {
            Some(held) => *held,
            None => None,
        }
    }

    fn sweep(&mut self, moment: u64) {
        self.swept = self.swept.max(moment);
        for slot in &mut self.slots {
            if is_taken(*slot, moment) {
                *slot = None;
            }
        }
    }

    fn crash(&mut self) {
        self.swept = 0;
        self.incarnation = self.incarnation.wrapping_add(1);
        for slot in &mut self.slots {
            *slot = None;
        }
    }

    /// Whether a brick says that it keeps as many values and bytes.
    fn counts_as(&self, brick: &Brick) -> bool {
        let mut values: u64 = 0;
        let mut bytes: u64 = 0;
        for slot in &self.slots {
            if let Some(held) = slot {
                values = values.wrapping_add(1);
                bytes = bytes.wrapping_add(held.size as u64);
            }
        }
        brick.values() == values && brick.bytes() == bytes
    }
}

fn reply(rt: &impl Abort, alloc: Global, brick: &mut Brick, request: &Frame) -> Frame {
    assert!(rt; is_request(request));
    brick.answer(alloc, request).expect(rt, "a reply")
}

/// Whether a Get is replied what is held.
fn is_right(plain: &Plain, held: Option<Held>, reply: &Frame) -> bool {
    match (held, reply) {
        (Some(held), Frame::Found { expiry, value, .. }) => {
            let bytes = value.as_slice();
            let is_filled = bytes.iter().all(|byte| *byte == held.byte);
            expiry.0 == held.expiry && bytes.len() == held.size && is_filled
        }
        (
            None,
            Frame::Absent {
                swept,
                incarnation,
                ..
            },
        ) => { swept.0 == plain.swept && *incarnation == plain.incarnation }
        _ => false,
    }
}

fn put_one(rt: &impl Abort, alloc: Global, dice: &mut Dice, brick: &mut Brick, plain: &mut Plain) {
    let slot = dice.below(KEYS * VERSIONS) as usize;
    let held = Held {
        expiry: dice.below(400),
        byte: dice.below(256).to_be_bytes()[7],
        size: dice.below(40) as usize,
    };
    let (key, version) = pair(slot);
    let value = filled(rt, alloc, held.byte, held.size);
    let told = reply(rt, alloc, brick, &put(key, version, held.expiry, value));
    expect_so(rt, matches!(told, Frame::Stored { .. }), "a put");
    plain.keep(slot, Some(held));
}

fn get_one(rt: &impl Abort, alloc: Global, dice: &mut Dice, brick: &mut Brick, plain: &Plain) {
    let slot = dice.below(KEYS * VERSIONS) as usize;
    let (key, version) = pair(slot);
    let told = reply(rt, alloc, brick, &get(key, version));
    expect_so(rt, is_right(plain, plain.held(slot), &told), "a get");
}

fn sweep_one(
    rt: &impl Abort,
    alloc: Global,
    dice: &mut Dice,
    brick: &mut Brick,
    plain: &mut Plain,
) {
    let moment = dice.below(460).saturating_add(60_000);
    let told = reply(rt, alloc, brick, &sweep(moment));
    expect_so(rt, matches!(told, Frame::Swept { .. }), "a sweep");
    plain.sweep(moment);
}

#[test]
fn bricks_keep_what_a_plain_table_keeps(rt: HostRuntime) {
    let alloc = rt.alloc();
    let mut dice = Dice { state: 29 };
    let mut brick = brick(alloc);
    let mut plain = Plain::new(&rt, alloc);
    for _ in 0..100_000u64 {
        match dice.below(1000) {
            0..=549 => put_one(&rt, alloc, &mut dice, &mut brick, &mut plain),
            550..=969 => get_one(&rt, alloc, &mut dice, &mut brick, &plain),
            970..=998 => sweep_one(&rt, alloc, &mut dice, &mut brick, &mut plain),
            _ => {
                crash(&rt, &mut brick);
                plain.crash();
            }
        }
        expect_so(&rt, plain.counts_as(&brick), "what a brick keeps");
    }
}
