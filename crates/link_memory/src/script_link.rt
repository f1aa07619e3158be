//! The link in memory.

ghost use Rattle.std.specs.Prelude.{◌≡◌, ◌+◌, ◌-◌, ◌^◌, ◌<◌, ◌≤◌, IfOk, OnOk, OnErr, length};
ghost use Rattle.outside.specs.Faults.{counted};
ghost use Rattle.link_lanes.specs.Lanes.{on_lane};
ghost use Rattle.link_memory.specs.Script.{ScriptMakes, new_link, new_lanes, made_of, incarnation_of, values_of, script_tally};
ghost use Rattle.link_memory.specs.Lane.{new_lane, asked, repeated, crashed_lane, swept_lane, losing, dropping};

use crate::lane::Lane;
use crash_base::{BrickNo, FrameBytes, Moment, OutOfMemory};
use link_lanes::place_of;
use outside::{Link, LinkCounts, Received, Sent};
use std::alloc::Global;
use std::marker::Model;

/// The most bricks that a link has.
pub const MAX_LINK_BRICKS: u16 = 16;

/// A link to bricks that answer at once. Calls that name a brick have as their condition that the brick
/// is one of the link's: its number is from 1 to how many there are.
#[derive(Drop)]
pub struct ScriptLink {
    lanes: Vec<Lane>,
    unknown: u64,
    hushed: u64,
    got: u64,
}

impl Model for ScriptLink {
    ghost use Rattle.link_memory.specs.Script.{ScriptValue};

    ghost Value = { ScriptValue };

    ghost view = { λ l. record { lanes = l.lanes.items; unknown = l.unknown; hushed = l.hushed; got = l.got } };
}

/// The lanes of new bricks.
fn new_lanes(alloc: Global, bricks: u16) -> Result<Vec<Lane>, OutOfMemory>
    requires { bricks ≤ MAX_LINK_BRICKS }
    ensures { IfOk result (λ lanes. lanes.items ≡ new_lanes bricks) }
{
    let mut lanes = Vec::with_capacity(alloc, bricks as usize)?;
    for at in 0..bricks {
        lanes.push(Lane::new(alloc, BrickNo(at + 1)))?;
    }
    Ok(lanes)
}

impl ScriptLink {
    /// A link to the bricks 1 to `bricks`, at most 16 (`MAX_LINK_BRICKS`), each of incarnation 1, which
    /// keep nothing. Its one error is want of memory.
    pub fn new(alloc: Global, bricks: u16) -> Result<ScriptLink, OutOfMemory>
        requires some { 1 ≤ bricks }
        requires few { bricks ≤ MAX_LINK_BRICKS }
        ensures { IfOk result (λ link. link ≡ new_link bricks) }
    {
        Ok(ScriptLink {
            lanes: new_lanes(alloc, bricks)?,
            unknown: 0,
            hushed: 0,
            got: 0,
        })
    }

    /// How many bricks it has. They are numbered from 1. It takes no memory.
    pub fn bricks(&self) -> usize
        ensures { result ≡ length self.now.lanes }
    {
        self.lanes.len()
    }

    /// How many values a brick keeps. It takes no memory.
    pub fn values(&self, brick: BrickNo) -> u64
        requires some { 1 ≤ brick.0 }
        requires few { brick.0 ≤ length self.now.lanes }
        ensures { result ≡ values_of self.now brick }
    {
        self.lanes[brick.0 as usize - 1].values()
    }

    /// The incarnation of a brick. It takes no memory.
    pub fn incarnation(&self, brick: BrickNo) -> u64
        requires some { 1 ≤ brick.0 }
        requires few { brick.0 ≤ length self.now.lanes }
        ensures { result ≡ incarnation_of self.now brick }
    {
        self.lanes[brick.0 as usize - 1].incarnation()
    }

    /// How many replies a brick ever made, lost ones included. It takes no memory.
    pub fn made(&self, brick: BrickNo) -> u64
        requires some { 1 ≤ brick.0 }
        requires few { brick.0 ≤ length self.now.lanes }
        ensures { result ≡ length (made_of self.now brick) }
    {
        self.lanes[brick.0 as usize - 1].made()
    }

    /// A brick crashes: all values go, and it is of the next incarnation. Its queue stays. It visits
    /// each value, and takes no memory.
    pub fn crash(&mut self, brick: BrickNo)
        requires some { 1 ≤ brick.0 }
        requires few { brick.0 ≤ length self.old.lanes }
        requires below { incarnation_of self.old brick < 2 ^ 64 - 1 }
        ensures { self.new ≡ on_lane brick crashed_lane self.old }
    {
        self.lanes[brick.0 as usize - 1].crash();
    }

    /// A brick is swept. It visits the values that it removes, and takes no memory.
    pub fn sweep(&mut self, brick: BrickNo, moment: Moment)
        requires some { 1 ≤ brick.0 }
        requires few { brick.0 ≤ length self.old.lanes }
        ensures { self.new ≡ on_lane brick (swept_lane moment) self.old }
    {
        self.lanes[brick.0 as usize - 1].sweep(moment);
    }

    /// The next `more` replies of a brick are to be lost, besides those that are still to be lost. It
    /// takes no memory.
    pub fn lose(&mut self, brick: BrickNo, more: u64)
        requires some { 1 ≤ brick.0 }
        requires few { brick.0 ≤ length self.old.lanes }
        ensures { self.new ≡ on_lane brick (losing more) self.old }
    {
        self.lanes[brick.0 as usize - 1].lose(more);
    }

    /// The next `more` frames to a brick are to be dropped, besides those that are still to be dropped.
    /// It takes no memory.
    pub fn drop_asks(&mut self, brick: BrickNo, more: u64)
        requires some { 1 ≤ brick.0 }
        requires few { brick.0 ≤ length self.old.lanes }
        ensures { self.new ≡ on_lane brick (dropping more) self.old }
    {
        self.lanes[brick.0 as usize - 1].drop_asks(more);
    }

    /// The reply of this number, counted from 1 over all that a brick ever made, lost ones included,
    /// waits once more, behind those that wait. It copies no frame. Its one error is want of memory, and
    /// then nothing changed.
    pub fn repeat(&mut self, brick: BrickNo, number: u64) -> Result<(), OutOfMemory>
        requires some { 1 ≤ brick.0 }
        requires few { brick.0 ≤ length self.old.lanes }
        requires first { 1 ≤ number }
        requires last { number ≤ length (made_of self.old brick) }
        ensures ok { OnOk result (self.new ≡ on_lane brick (repeated number) self.old) }
        ensures err { OnErr result (self.new ≡ self.old) }
    {
        self.lanes[brick.0 as usize - 1].repeat(number)
    }

    /// Counts a silence of a number without a brick.
    fn hush_unknown(&mut self)
        ensures counts { self.new
            ≡ record (self.old) { unknown = counted self.old.unknown; hushed = counted self.old.hushed } }
        ensures unknown_fits { self.old.unknown < 2 ^ 64 }
        ensures hushed_fits { self.old.hushed < 2 ^ 64 }
    {
        self.unknown = self.unknown.saturating_add(1);
        self.hushed = self.hushed.saturating_add(1);
    }
}

impl Link for ScriptLink {
    ghost use Rattle.link_memory.specs.Tallies.{script_tallies};

    ghost makes = { ScriptMakes };

    ghost tally = { script_tally };

    /// As of the trait: the brick answers at once, and its reply waits or is lost. Done also where the
    /// frame is dropped and where the bytes spell no request, which get no reply; Silent just where there
    /// is no such brick. Want of memory changes nothing. It costs what the brick's answer costs.
    fn send(&mut self, alloc: Global, to: BrickNo, frame: &[u8]) -> Sent {
        match place_of(&self.lanes, to) {
            None => {
                self.hush_unknown();
                Sent::Silent
            }
            Some(place) => match self.lanes[place].ask(alloc, frame) {
                Ok(()) => Sent::Done,
                Err(OutOfMemory) => Sent::OutOfMemory,
            },
        }
    }

    /// As of the trait: the first reply that waits is given. Silent just where none waits, or there is no
    /// such brick. Want of memory changes nothing. It visits each byte of the reply once.
    fn receive(&mut self, alloc: Global, from: BrickNo, into: &mut FrameBytes) -> Received {
        match place_of(&self.lanes, from) {
            None => {
                self.hush_unknown();
                Received::Silent
            }
            Some(place) => match self.lanes[place].receive(alloc, into) {
                Received::Got => {
                    self.got = self.got.saturating_add(1);
                    Received::Got
                }
                Received::Silent => {
                    self.hushed = self.hushed.saturating_add(1);
                    Received::Silent
                }
                Received::OutOfMemory => Received::OutOfMemory,
            },
        }
    }

    /// As of the trait.
    fn counts(&self) -> LinkCounts {
        LinkCounts {
            hushed: self.hushed,
            got: self.got,
        }
    }

    ghost tallies = { script_tallies };
}
