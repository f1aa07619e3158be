//! How a call goes on.

ghost use Rattle.std.specs.Prelude.{◌≡◌, ◌<◌, suc, true, false, length, slice_get, option_map, Some, Ok, IfOk, OnOk, OnErr};
ghost use Rattle.crash_base.specs.declared.numbers.BrickNo.{BrickNo};
ghost use Rattle.ssm_stub.specs.declared.event.StubNext.TheVariants as next;
ghost use Rattle.ssm_world.specs.declared.event.WorldEvent.TheVariants.{Send, Hush};
ghost use Rattle.ssm_world.specs.Worlds.{next_of};
ghost use Rattle.session_lanes.specs.Lane.{LaneState, lane_at};
ghost use Rattle.session_lanes.specs.Lanes.{after_event, in_silence, gets, asks, listens, turn_of, wants_more, turns, gone_on};

use crate::lanes::{Lanes, TURNS_PER_BRICK};
use crash_base::{BrickNo, OutOfMemory};
use session_cookie::MAX_HOLDERS;
use ssm_stub::StubNext;
use ssm_world::WorldEvent;
use std::alloc::Global;

impl Lanes {
    /// An event of the world.
    fn happens(&mut self, alloc: Global, event: WorldEvent) -> Result<(), OutOfMemory>
        ensures after { OnOk result (self.new ≡ after_event self.old event) }
        ensures counts { OnErr result (self.new.counts ≡ self.old.counts) }
    {
        self.world.step(alloc, &event)?;
        Ok(())
    }

    /// A call hears nothing of a brick, which was silent.
    fn hush(&mut self, alloc: Global, call: u64, brick: BrickNo) -> Result<(), OutOfMemory>
        ensures after { OnOk result (self.new ≡ in_silence self.old brick.0 (Hush call)) }
        ensures counts { OnErr result (self.new.counts ≡ self.old.counts) }
    {
        self.happens(alloc, WorldEvent::Hush { call })?;
        self.counts.silence(u64::from(brick.0));
        Ok(())
    }

    /// A call hears the packet of a number.
    fn hear(&mut self, alloc: Global, call: u64, packet: u64) -> Result<(), OutOfMemory>
        ensures after { OnOk result (self.new ≡ gets self.old call packet) }
        ensures counts { OnErr result (self.new.counts ≡ self.old.counts) }
    {
        self.happens(alloc, WorldEvent::Hear { call, packet })?;
        self.counts.frame();
        Ok(())
    }

    /// The ask of a call to a brick is not sent, since the link was silent.
    fn ask_nobody(&mut self, alloc: Global, call: u64, brick: BrickNo) -> Result<(), OutOfMemory>
        ensures after { OnOk result (self.new ≡ in_silence self.old brick.0 (Send call true false)) }
        ensures counts { OnErr result (self.new.counts ≡ self.old.counts) }
    {
        self.happens(
            alloc,
            WorldEvent::Send {
                call,
                silent: true,
                sent: false,
            },
        )?;
        self.counts.silence(u64::from(brick.0));
        Ok(())
    }

    /// A call sends its ask to the brick whose lane stands at a place. The brick replies at once, where the ask is not
    /// dropped.
    fn ask_at(&mut self, alloc: Global, call: u64, place: usize) -> Result<(), OutOfMemory>
        requires { place < length self.old.lanes }
        ensures after { OnOk result ((lane : LaneState) (brick : BrickNo) → slice_get self.old.lanes place ≡ Some lane
            → brick.0 ≡ suc place → self.new ≡ asks self.old call brick (Some lane)) }
        ensures counts { OnErr result (self.new.counts ≡ self.old.counts) }
    {
        let ask = self.world.packets();
        self.happens(
            alloc,
            WorldEvent::Send {
                call,
                silent: false,
                sent: true,
            },
        )?;
        if self.lanes[place].drops() {
            self.lanes[place].drop_ask();
            return Ok(());
        }
        let reply = ask.checked_add(1).ok_or(OutOfMemory)?;
        self.happens(alloc, WorldEvent::Deliver { packet: ask })?;
        self.lanes[place].keep_reply(reply)?;
        Ok(())
    }

    /// A call sends its ask to a brick. To a number without a brick the link is silent.
    fn ask(&mut self, alloc: Global, call: u64, brick: BrickNo) -> Result<(), OutOfMemory>
        ensures after { OnOk result (self.new ≡ asks self.old call brick (lane_at self.old.lanes brick.0)) }
        ensures counts { OnErr result (self.new.counts ≡ self.old.counts) }
    {
        match self.place_of(u64::from(brick.0)) {
            None => self.ask_nobody(alloc, call, brick),
            Some(place) => self.ask_at(alloc, call, place),
        }
    }

    /// A call hears the brick whose lane stands at a place: the first reply that waits comes, or the link is silent.
    fn listen_at(&mut self, alloc: Global, call: u64, place: usize) -> Result<(), OutOfMemory>
        requires { place < length self.old.lanes }
        ensures after { OnOk result ((lane : LaneState) (brick : BrickNo) → slice_get self.old.lanes place ≡ Some lane
            → brick.0 ≡ suc place → self.new ≡ listens self.old call brick (Some lane)) }
        ensures counts { OnErr result (self.new.counts ≡ self.old.counts) }
    {
        let brick = self.number_at(place);
        let Some(packet) = self.lanes[place].next_reply() else {
            self.hush(alloc, call, brick)?;
            return Ok(());
        };
        self.hear(alloc, call, packet)?;
        Ok(())
    }

    /// A call hears a brick.
    fn listen(&mut self, alloc: Global, call: u64, brick: BrickNo) -> Result<(), OutOfMemory>
        ensures after { OnOk result (self.new ≡ listens self.old call brick (lane_at self.old.lanes brick.0)) }
        ensures counts { OnErr result (self.new.counts ≡ self.old.counts) }
    {
        match self.place_of(u64::from(brick.0)) {
            None => self.hush(alloc, call, brick),
            Some(place) => self.listen_at(alloc, call, place),
        }
    }

    /// The call of a number does what it wants next. True where it wanted something; false, and nothing changes, where
    /// it wants nothing, or there is no such call.
    pub fn turn(&mut self, alloc: Global, call: u64) -> Result<bool, OutOfMemory>
        ensures turn { OnOk result (self.new ≡ turn_of self.old call (slice_get self.old.world.calls call)) }
        ensures more { IfOk result (λ more. more ≡ wants_more self.old call) }
        ensures ended { result ≡ Ok false → self.new ≡ self.old }
        ensures counts { OnErr result (self.new.counts ≡ self.old.counts) }
    {
        match self.world.next_of(call) {
            Some(StubNext::Send { brick }) => {
                self.ask(alloc, call, brick)?;
                Ok(true)
            }
            Some(StubNext::Receive { brick }) => {
                self.listen(alloc, call, brick)?;
                Ok(true)
            }
            Some(StubNext::Ended) | None => Ok(false),
        }
    }

    /// The call of a number goes on for so many turns, or until it wants nothing more.
    fn take_turns(&mut self, alloc: Global, call: u64, most: usize) -> Result<(), OutOfMemory>
        ensures { OnOk result (self.new ≡ turns most self.old call) }
    {
        let mut left = most;
        while left > 0 {
            if !self.turn(alloc, call)? {
                return Ok(());
            }
            left -= 1;
        }
        Ok(())
    }

    /// The call of a number goes on until it wants nothing more. It costs what its turns do, of which there are one for
    /// each ask, and one for each reply that it hears.
    #[tactic(auto, unfolding(crate::specs::Lanes::gone_on))]
    pub fn go_on(&mut self, alloc: Global, call: u64) -> Result<(), OutOfMemory>
        ensures { OnOk result (self.new ≡ gone_on self.old call) }
    {
        self.take_turns(alloc, call, TURNS_PER_BRICK * MAX_HOLDERS)
    }
}
