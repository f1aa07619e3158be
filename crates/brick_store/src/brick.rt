//! A brick.

ghost use Rattle.std.specs.Prelude.{◌≡◌, ◌-◌, ◌^◌, ◌<◌, ◌≤◌, ℕ, List, [], ◌∷◌, false, true, length, is_some, IfOk, OnOk, OnErr, Some};
ghost use Rattle.ssm_frames.specs.Requests.{is_request};
ghost use Rattle.brick_store.specs.declared.kept.TheConstants.{MAX_BRICK_VALUES, MAX_BRICK_BYTES};
ghost use Rattle.brick_store.specs.Bricks.{new_brick, put_value, stored, swept_at, crashed, answered, put_reply, get_reply, reply, takes_memory};
ghost use Rattle.brick_store.specs.declared.event.BrickEvent.{BrickEvent};
ghost use Rattle.brick_store.specs.declared.event.BrickEvent.TheVariants as event;
ghost use Rattle.brick_store.specs.History.{later};
ghost use Rattle.brick_store.specs.Standing.{StandsFor, heard};
ghost use Rattle.brick_store.specs.Kept.{with_kept, kept_under, bytes_of, is_full};

use crate::kept::{MAX_BRICK_BYTES, MAX_BRICK_VALUES, copied_value};
use crate::kept_map::KeptMap;
use crate::laws::bricks_stand_for_their_history;
use crash_base::{BrickNo, Moment, OutOfMemory, SessionBytes, SessionKey, Version};
use ssm_frames::Frame;
use std::alloc::Global;
use std::marker::Model;

/// A brick, with all values that it keeps.
#[derive(Drop)]
pub struct Brick {
    number: BrickNo,
    incarnation: u64,
    swept: Moment,
    kept: KeptMap,
}

impl Model for Brick {
    ghost use Rattle.std.specs.Prelude.{◌≤◌, length};
    ghost use Rattle.brick_store.specs.declared.kept.TheConstants.{MAX_BRICK_VALUES};
    ghost use Rattle.brick_store.specs.Bricks.{BrickValue};

    ghost Value = { BrickValue };

    ghost view = { λ b. record { number = b.number; incarnation = b.incarnation; swept = b.swept; kept = b.kept } };

    ghost invariant = { λ b. length b.kept ≤ MAX_BRICK_VALUES };
}

/// The later of two moments.
fn later(a: Moment, b: Moment) -> Moment
    ensures { result ≡ later a b }
{
    if a.0 < b.0 { b } else { a }
}

/// Whether a brick that keeps these values has no room for this one.
fn is_full(
    kept: &KeptMap,
    key: SessionKey,
    version: Version,
    expiry: Moment,
    value: &SessionBytes,
) -> bool
    requires { length kept.now ≤ MAX_BRICK_VALUES }
    ensures { result ≡ is_full kept.now (put_value key version expiry value.now) }
{
    let size = value.as_slice().len() as u64;
    match kept.get(key, version) {
        None => {
            if kept.len() >= MAX_BRICK_VALUES {
                return true;
            }
            kept.bytes() + size > MAX_BRICK_BYTES
        }
        Some(lease) => {
            let less = lease.value.as_slice().len() as u64;
            kept.bytes() + size > MAX_BRICK_BYTES + less
        }
    }
}

impl Brick {
    /// A brick of this number and incarnation, which keeps nothing and was never swept. It takes no
    /// memory.
    pub fn new(alloc: Global, number: BrickNo, incarnation: u64) -> Brick
        ensures value { result ≡ new_brick number incarnation }
        ensures stands { StandsFor incarnation [] result }
    {
        bricks_stand_for_their_history();
        Brick {
            number,
            incarnation,
            swept: Moment(0),
            kept: KeptMap::new(alloc),
        }
    }

    /// Its number. It takes no memory.
    pub fn number(&self) -> BrickNo
        ensures { result ≡ self.now.number }
    {
        self.number
    }

    /// Its incarnation: the one that it began with, and one more for each crash. It takes no memory.
    pub fn incarnation(&self) -> u64
        ensures { result ≡ self.now.incarnation }
    {
        self.incarnation
    }

    /// How many values it keeps, at most 65,536 (`MAX_BRICK_VALUES`). It takes no memory.
    pub fn values(&self) -> u64
        ensures values { result ≡ length self.now.kept }
        ensures few { result ≤ MAX_BRICK_VALUES }
    {
        self.kept.len()
    }

    /// How many bytes the values that it keeps have together, at most 67,108,864 (`MAX_BRICK_BYTES`).
    /// It takes no memory.
    pub fn bytes(&self) -> u64
        ensures bytes { result ≡ bytes_of self.now.kept }
        ensures few { result ≤ MAX_BRICK_BYTES }
    {
        self.kept.bytes()
    }

    /// Whether a Put of this value would be answered BrickFull. It visits about log n of n values, and takes no memory.
    pub fn is_full_for(
        &self,
        key: SessionKey,
        version: Version,
        expiry: Moment,
        value: &SessionBytes,
    ) -> bool
        ensures { result ≡ is_full self.now.kept (put_value key version expiry value.now) }
    {
        is_full(&self.kept, key, version, expiry, value)
    }

    /// Removes the values whose expiry and 60,000 ms more (`SWEEP_GRACE`) are before a moment. It
    /// visits no others, each for about log n of n values, and takes no memory.
    pub fn sweep(&mut self, moment: Moment)
        ensures value { self.new ≡ swept_at self.old moment }
        ensures stands { (first : ℕ) (h : List BrickEvent) → StandsFor first h self.old
            → StandsFor first (event.Sweep moment ∷ h) self.new }
    {
        bricks_stand_for_their_history();
        self.kept.sweep(moment);
        self.swept = later(self.swept, moment);
    }

    /// Loses all values, and is of the next incarnation. It visits each value, and takes no memory.
    pub fn crash(&mut self)
        requires { self.old.incarnation < 2 ^ 64 - 1 }
        ensures value { self.new ≡ crashed self.old }
        ensures stands { (first : ℕ) (h : List BrickEvent) → StandsFor first h self.old
            → StandsFor first (event.Crash ∷ h) self.new }
    {
        bricks_stand_for_their_history();
        self.kept.clear();
        self.swept = Moment(0);
        self.incarnation += 1;
    }

    /// Keeps a copy of a value, if there is room, and replies.
    fn put(
        &mut self,
        alloc: Global,
        nonce: Version,
        key: SessionKey,
        version: Version,
        expiry: Moment,
        value: &SessionBytes,
    ) -> Result<Frame, OutOfMemory>
        ensures reply { IfOk result (λ frame. frame ≡ put_reply self.old nonce (put_value key version expiry value.now)) }
        ensures new { OnOk result (self.new ≡ stored self.old (put_value key version expiry value.now)) }
        ensures err { OnErr result (self.new ≡ self.old) }
        ensures memory { OnErr result (is_full self.old.kept (put_value key version expiry value.now) ≡ false) }
    {
        if self.kept.put(alloc, key, version, expiry, value)? {
            return Ok(Frame::Stored {
                nonce,
                key,
                version,
                brick: self.number,
                incarnation: self.incarnation,
            });
        }
        Ok(Frame::BrickFull {
            nonce,
            key,
            version,
            brick: self.number,
            incarnation: self.incarnation,
            entries: self.kept.len() as u32,
            bytes: self.kept.bytes(),
        })
    }

    /// Finds a copy of a value, or says that there is none.
    fn get(
        &self,
        alloc: Global,
        nonce: Version,
        key: SessionKey,
        version: Version,
    ) -> Result<Frame, OutOfMemory>
        ensures reply { IfOk result (λ frame. frame ≡ get_reply self.now.number self.now.incarnation self.now.swept
            nonce key version (kept_under key version self.now.kept)) }
        ensures memory { OnErr result (is_some (kept_under key version self.now.kept) ≡ true) }
    {
        match self.kept.get(key, version) {
            None => Ok(Frame::Absent {
                nonce,
                key,
                version,
                brick: self.number,
                incarnation: self.incarnation,
                swept: self.swept,
            }),
            Some(lease) => {
                let value = copied_value(alloc, &lease.value)?;
                Ok(Frame::Found {
                    nonce,
                    key,
                    version,
                    brick: self.number,
                    incarnation: self.incarnation,
                    expiry: lease.node.expiry(),
                    value,
                })
            }
        }
    }

    /// Does what a request asks, and replies. A Put that there is no room for changes nothing, and is
    /// answered BrickFull. Only where a value is stored or found does it take memory, and where memory
    /// runs out, the brick is as it was. A Put and a Get visit about log n of n values, and copy the
    /// value once; a Sweep visits what it removes.
    pub fn answer(&mut self, alloc: Global, frame: &Frame) -> Result<Frame, OutOfMemory>
        requires { is_request frame.now ≡ true }
        ensures reply { IfOk result (λ answer. reply self.old frame.now ≡ Some answer) }
        ensures new { OnOk result (self.new ≡ answered self.old frame.now) }
        ensures err { OnErr result (self.new ≡ self.old) }
        ensures memory { OnErr result (takes_memory self.old frame.now ≡ true) }
        ensures stands { OnOk result ((first : ℕ) (h : List BrickEvent) → StandsFor first h self.old
            → StandsFor first (heard h frame.now) self.new) }
    {
        bricks_stand_for_their_history();
        match frame {
            Frame::Put {
                nonce,
                key,
                version,
                expiry,
                value,
            } => match self.put(alloc, *nonce, *key, *version, *expiry, value) {
                Ok(reply) => Ok(reply),
                Err(OutOfMemory) => Err(OutOfMemory),
            },
            Frame::Get {
                nonce,
                key,
                version,
            } => self.get(alloc, *nonce, *key, *version),
            Frame::Sweep { nonce, moment } => {
                self.sweep(*moment);
                Ok(Frame::Swept {
                    nonce: *nonce,
                    brick: self.number,
                    incarnation: self.incarnation,
                    moment: *moment,
                })
            }
            _ => unreachable!(),
        }
    }
}
