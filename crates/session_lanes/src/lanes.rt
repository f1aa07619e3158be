//! The bricks with their lanes.

ghost use Rattle.std.specs.Prelude.{◌≡◌, ◌≢◌, ◌≤◌, ◌<◌, suc, true, false, length, option_map, slice_get, is_some, None, Some, IfOk, MatchOption};
ghost use lib.ListN.{replicate};
ghost use Rattle.send_windows.specs.declared.fact.TheConstants.{MAX_BRICKS};
ghost use Rattle.send_windows.specs.Windows.{HasBrick, KeepLimits};
ghost use Rattle.ssm_stub.specs.Reads.{ReadState};
ghost use Rattle.ssm_stub.specs.Writes.{WriteState};
ghost use Rattle.ssm_world.specs.declared.call.Call.TheVariants as kind;
ghost use Rattle.ssm_world.specs.Worlds.{is_new, next_of};
ghost use Rattle.session_lanes.specs.Calls.{left_if, more_lost, more_dropped, repeated, brick_crashed, brick_swept, values_of, hold_answer, pass_held, pass_freed};
ghost use Rattle.session_lanes.specs.Counts.{silences_of};
ghost use Rattle.session_lanes.specs.Lane.{brick_no, new_lane, lane_at};
ghost use Rattle.session_lanes.specs.Lanes.{first_waiting, new_lanes, silent_once};

use crate::counts::Counts;
use crate::lane::Lane;
use crash_base::{BrickNo, Moment, OutOfMemory, Version};
use outside::LinkCounts;
use send_windows::{Pass, PassMark, WindowFact, Windows};
use ssm_stub::{ReadCall, StubNext, WriteCall};
use ssm_world::{Packet, World, WorldEvent};
use std::alloc::Global;
use std::marker::Model;

/// The most turns that a call takes for each brick: one to send its ask, and 64 replies and a silence to hear.
pub const TURNS_PER_BRICK: usize = 66;

/// What came of holding a pass to a brick.
#[derive(Clone, Copy)]
pub enum HoldAnswer {
    /// A pass is held: so many to the brick are in flight by then.
    Held { in_flight: u64 },
    /// The window of the brick is full: as many passes as it, or more, are in flight.
    Full { window: u64, in_flight: u64 },
}

/// The bricks by their world, the windows on what is sent to each, the lane of each, in order of number, and what is
/// counted of all calls.
#[derive(Drop)]
pub struct Lanes {
    pub(crate) world: World,
    pub(crate) windows: Windows,
    pub(crate) lanes: Vec<Lane>,
    pub(crate) counts: Counts,
}

impl Model for Lanes {
    ghost use Rattle.session_lanes.specs.Lanes.{LanesState, HasLanes};

    ghost Value = { LanesState };

    ghost view = { λ s. record { world = s.world; windows = s.windows; lanes = s.lanes.items; counts = s.counts } };

    ghost invariant = { λ s. HasLanes (record { world = s.world; windows = s.windows; lanes = s.lanes.items; counts = s.counts }) };
}

/// The lanes of so many bricks, on which nothing happened.
fn empty_lanes(alloc: Global, bricks: u16) -> Result<Vec<Lane>, OutOfMemory>
    ensures { IfOk result (λ lanes. lanes.items ≡ replicate bricks new_lane) }
{
    let mut lanes = Vec::with_capacity(alloc, bricks as usize)?;
    for _ in 0..bricks {
        lanes.push(Lane::new(alloc))?;
    }
    Ok(lanes)
}

/// The place of the lane of the brick of a number, if there is one.
fn place_of(lanes: &[Lane], brick: u64) -> Option<usize>
    ensures { MatchOption result (lane_at lanes.now brick ≡ None)
        (λ place. (brick ≡ suc place) × (place < length lanes.now)) }
{
    if brick == 0 || brick > lanes.len() as u64 {
        return None;
    }
    Some(brick as usize - 1)
}

impl Lanes {
    /// Bricks 1 to this number, at most 16, each of incarnation 1. A write asks at most and needs at least so many of
    /// them.
    pub fn new(alloc: Global, bricks: u16, most: u16, least: u16) -> Result<Lanes, OutOfMemory>
        requires some { 1 ≤ least }
        requires enough { least ≤ most }
        requires within { most ≤ bricks }
        requires few { bricks ≤ MAX_BRICKS }
        ensures { IfOk result (λ st. st ≡ new_lanes bricks most least) }
    {
        let windows = Windows::new(alloc, bricks, most, least, true)?;
        let lanes = empty_lanes(alloc, bricks)?;
        let counts = Counts::new(alloc, bricks)?;
        let world = World::new(alloc, bricks)?;
        Ok(Lanes {
            world,
            windows,
            lanes,
            counts,
        })
    }

    /// The place of the lane of the brick of a number, if there is one.
    pub(crate) fn place_of(&self, brick: u64) -> Option<usize>
        ensures { MatchOption result (lane_at self.now.lanes brick ≡ None)
            (λ place. (brick ≡ suc place) × (place < length self.now.lanes)) }
    {
        place_of(&self.lanes, brick)
    }

    /// The number of the brick whose lane stands at a place.
    pub(crate) fn number_at(&self, place: usize) -> BrickNo
        requires { place < length self.now.lanes }
        ensures number { result ≡ brick_no (suc place) }
        ensures known { HasBrick self.now.windows result }
    {
        let _ = &self.lanes;
        BrickNo(place as u16 + 1)
    }

    /// The limits of windows hold of these. It does nothing.
    pub fn keeps_limits(&self)
        ensures { KeepLimits self.now.windows }
    {
        self.windows.facts();
    }

    /// Whether no call has this nonce. It takes no memory. Its cost is the logarithm of the number of calls.
    pub fn is_new(&self, nonce: Version) -> bool
        ensures { result ≡ is_new self.now.world nonce }
    {
        self.world.is_new(nonce)
    }

    /// How many calls there are: the number of the next one. It takes no memory.
    pub fn calls(&self) -> u64
        ensures { result ≡ length self.now.world.calls }
    {
        self.world.calls()
    }

    /// The write of this number, if it is one. It takes no memory.
    pub fn write_of(&self, call: u64) -> Option<&WriteCall>
        ensures { MatchOption result ((s : WriteState) → slice_get self.now.world.calls call ≢ Some (kind.Write s))
            (λ write. slice_get self.now.world.calls call ≡ Some (kind.Write write.now)) }
    {
        self.world.write_of(call)
    }

    /// The read of this number, if it is one. It takes no memory.
    pub fn read_of(&self, call: u64) -> Option<&ReadCall>
        ensures { MatchOption result ((s : ReadState) → slice_get self.now.world.calls call ≢ Some (kind.Read s))
            (λ read. slice_get self.now.world.calls call ≡ Some (kind.Read read.now)) }
    {
        self.world.read_of(call)
    }

    /// What the call of this number wants next, if there is one. It takes no memory.
    pub fn next_of(&self, call: u64) -> Option<StubNext>
        ensures { result ≡ option_map next_of (slice_get self.now.world.calls call) }
    {
        self.world.next_of(call)
    }

    /// The packet of this number, if there is one. It takes no memory.
    pub fn packet_of(&self, packet: u64) -> Option<&Packet>
        ensures { option_map (λ p. p.now) result ≡ slice_get self.now.world.packets packet }
    {
        self.world.packet_of(packet)
    }

    /// Whether there is a brick of this number. It takes no memory.
    pub fn has_brick(&self, brick: u64) -> bool
        ensures { result ≡ is_some (lane_at self.now.lanes brick) }
    {
        self.place_of(brick).is_some()
    }

    /// The number of the packet that a call would hear next of a brick: of the first reply that waits, if one does. It
    /// takes no memory.
    pub fn first_waiting(&self, brick: u64) -> Option<u64>
        ensures { result ≡ first_waiting self.now brick }
    {
        match self.place_of(brick) {
            None => None,
            Some(place) => self.lanes[place].first_reply(),
        }
    }

    /// The brick of a number is silent to someone who is no call: it is counted, and no event happens. It takes no
    /// memory.
    pub fn silence(&mut self, brick: u64)
        ensures { self.new ≡ silent_once self.old brick }
    {
        self.counts.silence(brick);
    }

    /// How often a brick was silent, over all calls, and how many frames calls heard. It takes no memory.
    pub fn counts(&self) -> LinkCounts
        ensures hushed { result.hushed ≡ self.now.counts.hushed }
        ensures got { result.got ≡ self.now.counts.got }
    {
        self.counts.sums()
    }

    /// How often the brick of a number was silent to a call. All numbers without a brick have one count. It takes no
    /// memory.
    pub fn silences(&self, brick: u64) -> u64
        ensures { result ≡ silences_of self.now.counts brick }
    {
        self.counts.silences(brick)
    }

    /// More of a brick's next replies are to be lost. False, and nothing changes, where there is no such brick.
    pub fn lose(&mut self, brick: u64, more: u64) -> bool
        ensures after { left_if result self.new ≡ more_lost self.old brick more }
        ensures refused { result ≡ false → self.new ≡ self.old }
    {
        let Some(place) = place_of(&self.lanes, brick) else {
            return false;
        };
        self.lanes[place].lose(more);
        true
    }

    /// More of the next asks to a brick are to be dropped. False, and nothing changes, where there is no such brick.
    pub fn drop_asks(&mut self, brick: u64, more: u64) -> bool
        ensures after { left_if result self.new ≡ more_dropped self.old brick more }
        ensures refused { result ≡ false → self.new ≡ self.old }
    {
        let Some(place) = place_of(&self.lanes, brick) else {
            return false;
        };
        self.lanes[place].drop_asks(more);
        true
    }

    /// The reply of this number, counted from 1 over all that a brick made, waits once more, behind the others. False,
    /// and nothing changes, where there is no such brick, or it never made that reply.
    pub fn repeat(&mut self, brick: u64, number: u64) -> Result<bool, OutOfMemory>
        ensures after { IfOk result (λ done. left_if done self.new ≡ repeated self.old brick number) }
        ensures refused { IfOk result (λ done. done ≡ false → self.new ≡ self.old) }
    {
        let Some(place) = place_of(&self.lanes, brick) else {
            return Ok(false);
        };
        let Some(packet) = self.lanes[place].reply_made(number) else {
            return Ok(false);
        };
        self.lanes[place].wait(packet)?;
        Ok(true)
    }

    /// A brick crashes. It visits each value that the brick keeps. False, and nothing changes, where there is no such
    /// brick, or its incarnation is the last.
    pub fn crash(&mut self, alloc: Global, brick: u64) -> Result<bool, OutOfMemory>
        ensures after { IfOk result (λ done. left_if done self.new ≡ brick_crashed self.old brick) }
        ensures refused { IfOk result (λ done. done ≡ false → self.new ≡ self.old) }
    {
        let Some(place) = place_of(&self.lanes, brick) else {
            return Ok(false);
        };
        let number = self.number_at(place);
        let Some(incarnation) = self.world.incarnation(number) else {
            return Ok(false);
        };
        if incarnation == u64::MAX {
            return Ok(false);
        }
        self.world
            .step(alloc, &WorldEvent::Crash { brick: number })?;
        Ok(true)
    }

    /// A brick is swept at a moment. It visits the values that it removes. False, and nothing changes, where there is
    /// no such brick.
    pub fn sweep(&mut self, alloc: Global, brick: u64, moment: Moment) -> Result<bool, OutOfMemory>
        ensures after { IfOk result (λ done. left_if done self.new ≡ brick_swept self.old brick moment) }
        ensures refused { IfOk result (λ done. done ≡ false → self.new ≡ self.old) }
    {
        let Some(place) = place_of(&self.lanes, brick) else {
            return Ok(false);
        };
        let brick = self.number_at(place);
        self.world
            .step(alloc, &WorldEvent::Sweep { brick, moment })?;
        Ok(true)
    }

    /// How many values a brick keeps, if there is one of this number. It takes no memory.
    pub fn values(&self, brick: u64) -> Option<u64>
        ensures { result ≡ values_of self.now brick }
    {
        match self.place_of(brick) {
            None => None,
            Some(place) => self.world.values(self.number_at(place)),
        }
    }

    /// Each brick with its window, in order of number. It takes no memory.
    pub fn facts(&self) -> &[WindowFact]
        ensures { result.now ≡ self.now.windows.facts }
    {
        self.windows.facts()
    }

    /// A pass to a brick is held, where the brick's window is open; where it is full, nothing changes. None where there
    /// is no such brick. It visits each brick a few times, and takes no memory.
    pub fn hold(&mut self, brick: u64) -> Option<HoldAnswer>
        ensures answer { result ≡ hold_answer self.old brick }
        ensures after { self.new ≡ pass_held self.old brick (lane_at self.old.lanes brick) }
    {
        let Some(place) = place_of(&self.lanes, brick) else {
            return None;
        };
        let number = self.number_at(place);
        match self.windows.try_pass(number) {
            None => Some(HoldAnswer::Full {
                window: self.windows.window(number),
                in_flight: self.windows.in_flight(number),
            }),
            Some(_) => {
                self.lanes[place].hold();
                Some(HoldAnswer::Held {
                    in_flight: self.windows.in_flight(number),
                })
            }
        }
    }

    /// The last pass that is held of a brick is spent with this mark; Unheard counts as silent. It visits each brick.
    /// False, and nothing changes, where there is no such brick, or no pass to it is held.
    pub fn free(&mut self, brick: u64, mark: PassMark) -> bool
        ensures after { left_if result self.new ≡ pass_freed self.old brick mark }
        ensures refused { result ≡ false → self.new ≡ self.old }
    {
        let Some(place) = place_of(&self.lanes, brick) else {
            return false;
        };
        if !self.lanes[place].holds() {
            return false;
        }
        let pass = Pass {
            brick: self.number_at(place),
            mark: PassMark::Unheard,
        };
        match mark {
            PassMark::Answered => self.windows.answered(pass),
            PassMark::Silent | PassMark::Unheard => self.windows.silent(pass),
        }
        self.lanes[place].free();
        true
    }
}
