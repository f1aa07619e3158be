//! A world.

ghost use Rattle.std.specs.Prelude.{◌≡◌, ◌≢◌, ◌++◌, ◌∷◌, [], List, true, length, option_map, slice_get, Some, MatchOption, IfOk, OnOk, OnErr};
ghost use Rattle.brick_store.specs.declared.event.BrickEvent.{BrickEvent};
ghost use Rattle.brick_store.specs.History.{all_held, incarnation_after};
ghost use Rattle.ssm_stub.specs.Writes.{WriteState};
ghost use Rattle.ssm_stub.specs.Reads.{ReadState};
ghost use Rattle.ssm_world.specs.declared.call.Call.TheVariants as kind;
ghost use Rattle.ssm_world.specs.Worlds.{new_world, history, is_new, next_of, step, may_happen, IsMade};

use crate::call::Call;
use crate::event::{Packet, WorldEvent};
use crate::world_state::WorldState;
use crash_base::{BrickNo, OutOfMemory, Version};
use ssm_stub::{ReadCall, StubNext, WriteCall};
use std::alloc::Global;
use std::marker::Model;

/// Bricks, all packets ever sent, and all calls, as some events made them of a new world.
#[derive(Drop)]
pub struct World {
    state: WorldState,
}

impl Model for World {
    ghost use Rattle.ssm_world.specs.Worlds.{WorldValue, IsMade};

    ghost Value = { WorldValue };

    ghost view = { λ w. w.state };

    ghost invariant = { λ w. IsMade w.state };
}

impl World {
    /// A world of bricks 1 to this number, each of incarnation 1, before any event.
    pub fn new(alloc: Global, bricks: u16) -> Result<World, OutOfMemory>
        ensures value { IfOk result (λ w. w ≡ new_world bricks) }
        ensures made { IfOk result (λ w. IsMade w) }
    {
        let state = WorldState::new(alloc, bricks)?;
        Ok(World { state })
    }

    /// Some events made this world of a new one, so each law of this crate holds of it. It does nothing.
    pub fn is_made(&self)
        ensures { IsMade self.now }
    {
        let _ = &self.state;
    }

    /// Whether no call has this nonce. It takes no memory. Its cost is the logarithm of the number of calls.
    pub fn is_new(&self, nonce: Version) -> bool
        ensures { result ≡ is_new self.now nonce }
    {
        self.state.is_new(nonce)
    }

    /// How many calls there are. It takes no memory.
    pub fn calls(&self) -> u64
        ensures { result ≡ length self.now.calls }
    {
        self.state.calls()
    }

    /// How many packets were sent. It takes no memory.
    pub fn packets(&self) -> u64
        ensures { result ≡ length self.now.packets }
    {
        self.state.packets()
    }

    /// How many bricks there are. It takes no memory.
    pub fn bricks(&self) -> u16
        ensures { result ≡ length self.now.histories }
    {
        self.state.bricks()
    }

    /// How many values a brick holds, if there is one of this number. It takes no memory.
    pub fn values(&self, brick: BrickNo) -> Option<u64>
        ensures { result ≡ option_map (λ (h : List BrickEvent). length (all_held h)) (history self.now brick) }
    {
        self.state.values(brick)
    }

    /// A brick's incarnation, if there is one of this number. It takes no memory.
    pub fn incarnation(&self, brick: BrickNo) -> Option<u64>
        ensures { result ≡ option_map (λ (h : List BrickEvent). incarnation_after 1 h) (history self.now brick) }
    {
        self.state.incarnation(brick)
    }

    /// What the call of this number wants next, if there is one. It takes no memory.
    pub fn next_of(&self, call: u64) -> Option<StubNext>
        ensures { result ≡ option_map next_of (slice_get self.now.calls call) }
    {
        self.state.next_of(call)
    }

    /// The packet of this number, if there is one. It takes no memory.
    pub fn packet_of(&self, packet: u64) -> Option<&Packet>
        ensures { option_map (λ p. p.now) result ≡ slice_get self.now.packets packet }
    {
        self.state.packet_of(packet)
    }

    /// The write of this number, if it is one. It takes no memory.
    pub fn write_of(&self, call: u64) -> Option<&WriteCall>
        ensures { MatchOption result ((s : WriteState) → slice_get self.now.calls call ≢ Some (kind.Write s))
            (λ write. slice_get self.now.calls call ≡ Some (kind.Write write.now)) }
    {
        match self.state.call_of(call) {
            Some(Call::Write(write)) => Some(write),
            _ => None,
        }
    }

    /// The read of this number, if it is one. It takes no memory.
    pub fn read_of(&self, call: u64) -> Option<&ReadCall>
        ensures { MatchOption result ((s : ReadState) → slice_get self.now.calls call ≢ Some (kind.Read s))
            (λ read. slice_get self.now.calls call ≡ Some (kind.Read read.now)) }
    {
        match self.state.call_of(call) {
            Some(Call::Read(read)) => Some(read),
            _ => None,
        }
    }

    /// An event happens. One that may not happen changes nothing, and takes no memory. Where memory runs
    /// out, the world is as it was. Whatever happens, some events have made the world of a new one, so
    /// each law of this crate holds of it.
    ///
    /// A Write or a Read costs what `is_new` does, and copies what it is given; a Send and a Hear copy the
    /// frame, of which nothing is encoded or decoded; a Deliver costs what the brick's answer does, and makes
    /// one more copy of a value that is stored; a Crash visits each value of the brick, and a Sweep those that it
    /// removes. So a write to one brick makes four copies of its value: in its ask, in the packet, in the brick, and in
    /// what happened to it.
    pub fn step(&mut self, alloc: Global, event: &WorldEvent) -> Result<(), OutOfMemory>
        ensures ok { OnOk result (self.new ≡ step self.old event.now) }
        ensures err { OnErr result (self.new ≡ self.old) }
        ensures memory { OnErr result (may_happen self.old event.now ≡ true) }
        ensures made { IsMade self.new }
    {
        self.state.step(alloc, event)
    }
}
