//! The bricks of a world, by their numbers.

ghost use Rattle.std.specs.Prelude.{◌≡◌, ◌⊎◌, ◌+◌, ◌-◌, ◌^◌, ◌<◌, ◌∷◌, [], true, List, length, option_map, MatchOption, Some, is_some, IfOk, OnOk, OnErr};
ghost use lib.ListN.{replicate};
ghost use Rattle.ssm_frames.specs.Requests.{is_request};
ghost use Rattle.brick_store.specs.declared.event.BrickEvent.{BrickEvent};
ghost use Rattle.brick_store.specs.declared.event.BrickEvent.TheVariants as happened;
ghost use Rattle.brick_store.specs.Bricks.{reply};
ghost use Rattle.brick_store.specs.History.{all_held, incarnation_after};
ghost use Rattle.brick_store.specs.Standing.{heard};
ghost use Rattle.ssm_world.specs.Worlds.{brick_after, history_at, with_history_at};

use crate::logged_brick::LoggedBrick;
use crash_base::{BrickNo, Moment, OutOfMemory};
use ssm_frames::Frame;
use std::alloc::Global;
use std::marker::Model;

/// Bricks 1, 2 and so on.
#[derive(Drop)]
pub(crate) struct LoggedBricks {
    bricks: Vec<LoggedBrick>,
}

impl Model for LoggedBricks {
    ghost use Rattle.std.specs.Prelude.{List};
    ghost use Rattle.brick_store.specs.declared.event.BrickEvent.{BrickEvent};
    ghost use Rattle.ssm_world.specs.Logged.{histories_of, AreNumbered};

    ghost Value = { List (List BrickEvent) };

    ghost view = { λ b. histories_of b.bricks.items };

    ghost invariant = { λ b. AreNumbered b.bricks.items };
}

/// The place of a brick among so many, if there is one.
fn place_among(bricks: usize, brick: BrickNo) -> Option<usize>
    ensures { MatchOption result ((brick.0 ≡ 0) ⊎ (bricks < brick.0)) (λ place. (brick.0 ≡ place + 1) × (place < bricks)) }
{
    if brick.0 == 0 || brick.0 as usize > bricks {
        None
    } else {
        Some(brick.0 as usize - 1)
    }
}

impl LoggedBricks {
    /// Bricks 1 to this number, each of incarnation 1, to which nothing happened.
    pub(crate) fn new(alloc: Global, bricks: u16) -> Result<LoggedBricks, OutOfMemory>
        ensures { IfOk result (λ all. all ≡ replicate bricks []) }
    {
        let mut all = Vec::new(alloc);
        for i in 0..bricks {
            all.push(LoggedBrick::new(alloc, BrickNo(i + 1)))?;
        }
        Ok(LoggedBricks { bricks: all })
    }

    /// Whether there is a brick of this number. It takes no memory.
    pub(crate) fn has(&self, brick: BrickNo) -> bool
        ensures { result ≡ is_some (history_at self.now brick.0) }
    {
        place_among(self.bricks.len(), brick).is_some()
    }

    /// A brick does what a request asks, and replies. Where memory runs out, all are as they were.
    pub(crate) fn answer(
        &mut self,
        alloc: Global,
        brick: BrickNo,
        frame: &Frame,
    ) -> Result<Frame, OutOfMemory>
        requires there { is_some (history_at self.old brick.0) ≡ true }
        requires asks { is_request frame.now ≡ true }
        ensures reply { IfOk result (λ answer. (h : List BrickEvent) → history_at self.old brick.0 ≡ Some h
            → reply (brick_after brick h) frame.now ≡ Some answer) }
        ensures new { OnOk result ((h : List BrickEvent) → history_at self.old brick.0 ≡ Some h
            → self.new ≡ with_history_at self.old brick.0 (heard h frame.now)) }
        ensures err { OnErr result (self.new ≡ self.old) }
    {
        let place = brick.0 as usize - 1;
        let reply = self.bricks[place].answer(alloc, frame)?;
        Ok(reply)
    }

    /// How many bricks there are. It takes no memory.
    pub(crate) fn len(&self) -> u16
        ensures { result ≡ length self.now }
    {
        self.bricks.len() as u16
    }

    /// How many values a brick holds, if there is one of this number. It takes no memory.
    pub(crate) fn values(&self, brick: BrickNo) -> Option<u64>
        ensures { result ≡ option_map (λ (h : List BrickEvent). length (all_held h)) (history_at self.now brick.0) }
    {
        match place_among(self.bricks.len(), brick) {
            None => None,
            Some(place) => Some(self.bricks[place].values()),
        }
    }

    /// A brick's incarnation, if there is one of this number. It takes no memory.
    pub(crate) fn incarnation(&self, brick: BrickNo) -> Option<u64>
        ensures { result ≡ option_map (λ (h : List BrickEvent). incarnation_after 1 h) (history_at self.now brick.0) }
    {
        match place_among(self.bricks.len(), brick) {
            None => None,
            Some(place) => Some(self.bricks[place].incarnation()),
        }
    }

    /// A brick crashes.
    pub(crate) fn crash(&mut self, brick: BrickNo) -> Result<(), OutOfMemory>
        requires there { is_some (history_at self.old brick.0) ≡ true }
        requires not_last { (h : List BrickEvent) → history_at self.old brick.0 ≡ Some h → incarnation_after 1 h < 2 ^ 64 - 1 }
        ensures ok { OnOk result ((h : List BrickEvent) → history_at self.old brick.0 ≡ Some h
            → self.new ≡ with_history_at self.old brick.0 (happened.Crash ∷ h)) }
        ensures err { OnErr result (self.new ≡ self.old) }
    {
        let place = brick.0 as usize - 1;
        self.bricks[place].crash()?;
        Ok(())
    }

    /// A brick is swept.
    pub(crate) fn sweep(&mut self, brick: BrickNo, moment: Moment) -> Result<(), OutOfMemory>
        requires { is_some (history_at self.old brick.0) ≡ true }
        ensures ok { OnOk result ((h : List BrickEvent) → history_at self.old brick.0 ≡ Some h
            → self.new ≡ with_history_at self.old brick.0 (happened.Sweep moment ∷ h)) }
        ensures err { OnErr result (self.new ≡ self.old) }
    {
        let place = brick.0 as usize - 1;
        self.bricks[place].sweep(moment)?;
        Ok(())
    }
}
