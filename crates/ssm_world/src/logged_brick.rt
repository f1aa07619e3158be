//! A brick with what happened to it.

ghost use Rattle.std.specs.Prelude.{◌≡◌, List, length, ◌∷◌, [], ◌<◌, ◌-◌, ◌^◌, true, Some, OnOk, OnErr, IfOk};
ghost use Rattle.std.specs.List.{cons_option};
ghost use Rattle.ssm_frames.specs.Requests.{is_request};
ghost use Rattle.brick_store.specs.declared.event.BrickEvent.TheVariants as happened;
ghost use Rattle.brick_store.specs.Bricks.{reply};
ghost use Rattle.brick_store.specs.History.{all_held, incarnation_after};
ghost use Rattle.brick_store.specs.Standing.{StandsFor, heard};
ghost use Rattle.brick_store.specs.declared.event.BrickEvent.{BrickEvent};
ghost use Rattle.ssm_world.specs.Worlds.{brick_after};
ghost use Rattle.ssm_world.specs.Logged.{LoggedValue};

use crate::copies::copied_value;
use brick_store::{Brick, BrickEvent, Kept};
use crash_base::{BrickNo, Moment, OutOfMemory};
use ssm_frames::Frame;
use std::alloc::Global;
use std::marker::Model;

/// A brick with all that happened to it, the first event first.
#[derive(Drop)]
pub(crate) struct LoggedBrick {
    brick: Brick,
    events: Vec<BrickEvent>,
}

impl Model for LoggedBrick {
    ghost use Rattle.std.specs.Prelude.{reverse};
    ghost use Rattle.brick_store.specs.Standing.{StandsFor};
    ghost use Rattle.ssm_world.specs.Logged.{LoggedValue};

    ghost Value = { LoggedValue };

    ghost view = { λ b. record { number = b.brick.number; history = reverse b.events.items } };

    ghost invariant = { λ b. StandsFor 1 (reverse b.events.items) b.brick };
}

/// What a request adds to the history of a brick, if it adds something.
fn event_of(alloc: Global, brick: &Brick, frame: &Frame) -> Result<Option<BrickEvent>, OutOfMemory>
    ensures { IfOk result (λ event. (h : List BrickEvent) → StandsFor 1 h brick.now → heard h frame.now ≡ cons_option event h) }
{
    match frame {
        Frame::Put {
            nonce: _,
            key,
            version,
            expiry,
            value,
        } => {
            if brick.is_full_for(*key, *version, *expiry, value) {
                return Ok(None);
            }
            let value = copied_value(alloc, value)?;
            Ok(Some(BrickEvent::Stored(Kept {
                key: *key,
                version: *version,
                expiry: *expiry,
                value,
            })))
        }
        Frame::Sweep { nonce: _, moment } => Ok(Some(BrickEvent::Sweep(*moment))),
        _ => Ok(None),
    }
}

impl LoggedBrick {
    /// A brick of incarnation 1 to which nothing happened. It takes no memory.
    pub(crate) fn new(alloc: Global, number: BrickNo) -> LoggedBrick
        ensures { result ≡ record { number = number; history = [] } }
    {
        LoggedBrick {
            brick: Brick::new(alloc, number, 1),
            events: Vec::new(alloc),
        }
    }

    /// Its incarnation. It takes no memory.
    pub(crate) fn incarnation(&self) -> u64
        ensures { result ≡ incarnation_after 1 self.now.history }
    {
        self.brick.incarnation()
    }

    /// How many values it holds. It takes no memory.
    pub(crate) fn values(&self) -> u64
        ensures { result ≡ length (all_held self.now.history) }
    {
        self.brick.values()
    }

    /// The brick does what a request asks, and replies. Where memory runs out, it is as it was. It
    /// copies a value that is stored or found, and one that is stored once more.
    pub(crate) fn answer(&mut self, alloc: Global, frame: &Frame) -> Result<Frame, OutOfMemory>
        requires { is_request frame.now ≡ true }
        ensures reply { IfOk result (λ answer. reply (brick_after self.old.number self.old.history) frame.now ≡ Some answer) }
        ensures new { OnOk result (self.new ≡ record (self.old) { history = heard self.old.history frame.now }) }
        ensures err { OnErr result (self.new ≡ self.old) }
    {
        match event_of(alloc, &self.brick, frame)? {
            None => {
                let reply = self.brick.answer(alloc, frame)?;
                Ok(reply)
            }
            Some(event) => {
                self.events.reserve(1)?;
                let reply = self.brick.answer(alloc, frame)?;
                self.events.push_reserved(event);
                Ok(reply)
            }
        }
    }

    /// The brick crashes. It visits each value.
    pub(crate) fn crash(&mut self) -> Result<(), OutOfMemory>
        requires { incarnation_after 1 self.old.history < 2 ^ 64 - 1 }
        ensures ok { OnOk result (self.new ≡ record (self.old) { history = happened.Crash ∷ self.old.history }) }
        ensures err { OnErr result (self.new ≡ self.old) }
    {
        self.events.push(BrickEvent::Crash)?;
        self.brick.crash();
        Ok(())
    }

    /// The brick is swept. It visits the values that it removes.
    pub(crate) fn sweep(&mut self, moment: Moment) -> Result<(), OutOfMemory>
        ensures ok { OnOk result (self.new ≡ record (self.old) { history = happened.Sweep moment ∷ self.old.history }) }
        ensures err { OnErr result (self.new ≡ self.old) }
    {
        self.events.push(BrickEvent::Sweep(moment))?;
        self.brick.sweep(moment);
        Ok(())
    }
}
