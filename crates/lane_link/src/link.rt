//! Lanes as a link.

ghost use Rattle.std.specs.Prelude.{◌≡◌, slice_get, IfOk, OnOk, OnErr};
ghost use Rattle.lane_link.specs.Links.{CountsStay, LaneLinkMakes, SpellsPacket, active_call, hears_from, is_ask, lane_link_tally, next_wanted, sends_to, turned, unwanted, wants_to_send};

use crash_base::{BrickNo, FrameBytes, OutOfMemory};
use outside::{Link, LinkCounts, Received, Sent};
use session_lanes::Lanes;
use ssm_frames::encode;
use ssm_stub::StubNext;
use std::alloc::Global;

/// The bricks of a world, as the link of one call of this world at a time: the call that is active.
#[derive(Drop)]
pub struct LaneLink {
    pub lanes: Lanes,
    /// The number of the call by which frames are sent and received, if there is one.
    pub active: Option<u64>,
}

/// Whether what is wanted is to send to this brick.
fn sends_to(to: BrickNo, next: Option<StubNext>) -> bool
    ensures { result ≡ sends_to to next }
{
    match next {
        Some(StubNext::Send { brick }) => brick.0 == to.0,
        Some(StubNext::Receive { .. }) => false,
        Some(StubNext::Ended) => false,
        None => false,
    }
}

/// Whether what is wanted is to hear this brick.
fn hears_from(from: BrickNo, next: Option<StubNext>) -> bool
    ensures { result ≡ hears_from from next }
{
    match next {
        Some(StubNext::Send { .. }) => false,
        Some(StubNext::Receive { brick }) => brick.0 == from.0,
        Some(StubNext::Ended) => false,
        None => false,
    }
}

/// Whether these bytes spell the ask of the call of a number, if there is one.
fn is_ask_of(alloc: Global, lanes: &Lanes, call: u64, bytes: &[u8]) -> Result<bool, OutOfMemory>
    ensures { IfOk result (λ is. is ≡ is_ask bytes.now (slice_get lanes.now.world.calls call)) }
{
    match lanes.write_of(call) {
        Some(write) => {
            let ask = write.frame(alloc)?;
            Ok(ask.as_slice() == bytes)
        }
        None => match lanes.read_of(call) {
            Some(read) => {
                let ask = read.frame(alloc)?;
                Ok(ask.as_slice() == bytes)
            }
            None => Ok(false),
        },
    }
}

/// The bytes that spell the packet of a number, and none where there is no such packet.
fn packet_bytes(alloc: Global, lanes: &Lanes, packet: u64) -> Result<FrameBytes, OutOfMemory>
    ensures { IfOk result (λ bytes. SpellsPacket bytes (slice_get lanes.now.world.packets packet)) }
{
    match lanes.packet_of(packet) {
        Some(found) => {
            let bytes = encode(alloc, &found.frame)?;
            Ok(bytes)
        }
        None => Ok(FrameBytes::new(alloc)),
    }
}

impl LaneLink {
    /// What the active call wants next, if there is one.
    fn next_wanted(&self) -> Option<StubNext>
        ensures { result ≡ next_wanted self.now }
    {
        match self.active {
            Some(call) => self.lanes.next_of(call),
            None => None,
        }
    }

    /// Whether these bytes spell the ask of the active call.
    fn is_ask(&self, alloc: Global, bytes: &[u8]) -> Result<bool, OutOfMemory>
        ensures { IfOk result (λ is. is ≡ is_ask bytes.now (active_call self.now)) }
    {
        match self.active {
            Some(call) => {
                let is = is_ask_of(alloc, &self.lanes, call, bytes)?;
                Ok(is)
            }
            None => Ok(false),
        }
    }

    /// Whether the active call wants to send just these bytes to this brick.
    fn wants_to_send(&self, alloc: Global, to: BrickNo, bytes: &[u8]) -> Result<bool, OutOfMemory>
        ensures { IfOk result (λ wants. wants ≡ wants_to_send self.now to bytes.now) }
    {
        if !sends_to(to, self.next_wanted()) {
            return Ok(false);
        }
        let is = self.is_ask(alloc, bytes)?;
        Ok(is)
    }

    /// The active call takes a turn.
    fn turn(&mut self, alloc: Global) -> Result<(), OutOfMemory>
        ensures after { OnOk result (self.new ≡ turned self.old) }
        ensures want { OnErr result (CountsStay self.old self.new) }
    {
        match self.active {
            Some(call) => {
                self.lanes.turn(alloc, call)?;
                Ok(())
            }
            None => Ok(()),
        }
    }

    /// Nobody wanted to speak to this brick: it counts as silent.
    fn silence(&mut self, brick: BrickNo)
        ensures { self.new ≡ unwanted self.old brick }
    {
        self.lanes.silence(u64::from(brick.0));
    }
}

impl Link for LaneLink {
    ghost use Rattle.lane_link.specs.Tallies.{lane_link_tallies};

    ghost makes = { LaneLinkMakes };

    ghost tally = { lane_link_tally };

    /// As of the trait: the active call takes its turn, where it wants to send just this frame to this brick. Done also
    /// where the ask is dropped on its way; Silent where there is no such brick, and where the call wants anything
    /// else, or none is active: nothing happens in the world then. It costs what the turn costs, and visits each byte
    /// of the ask twice.
    fn send(&mut self, alloc: Global, to: BrickNo, frame: &[u8]) -> Sent {
        match self.wants_to_send(alloc, to, frame) {
            Err(OutOfMemory) => Sent::OutOfMemory,
            Ok(false) => {
                self.silence(to);
                Sent::Silent
            }
            Ok(true) => {
                let there = self.lanes.has_brick(u64::from(to.0));
                match self.turn(alloc) {
                    Err(OutOfMemory) => Sent::OutOfMemory,
                    Ok(()) => { if there { Sent::Done } else { Sent::Silent } }
                }
            }
        }
    }

    /// As of the trait: the active call takes its turn, where it wants to hear this brick, and `into` is the first
    /// reply that waits. Silent where none waits, and where the call wants anything else, or none is active: nothing
    /// happens in the world then. It costs what the turn costs, and visits each byte of the reply once.
    fn receive(&mut self, alloc: Global, from: BrickNo, into: &mut FrameBytes) -> Received {
        if !hears_from(from, self.next_wanted()) {
            self.silence(from);
            return Received::Silent;
        }
        match self.lanes.first_waiting(u64::from(from.0)) {
            None => match self.turn(alloc) {
                Err(OutOfMemory) => Received::OutOfMemory,
                Ok(()) => Received::Silent,
            },
            Some(packet) => match packet_bytes(alloc, &self.lanes, packet) {
                Err(OutOfMemory) => Received::OutOfMemory,
                Ok(bytes) => match self.turn(alloc) {
                    Err(OutOfMemory) => Received::OutOfMemory,
                    Ok(()) => {
                        *into = bytes;
                        Received::Got
                    }
                },
            },
        }
    }

    /// As of the trait.
    fn counts(&self) -> LinkCounts {
        self.lanes.counts()
    }

    ghost tallies = { lane_link_tallies };
}
