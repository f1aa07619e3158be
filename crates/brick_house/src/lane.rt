//! What a link has of a brick: the replies that wait, and how often it was silent.

ghost use Rattle.std.specs.Prelude.{◌≡◌, ◌<◌, ◌≤◌, ◌^◌, ◌++◌, ◌∷◌, [], length, true, OnOk, OnErr};
ghost use Rattle.ssm_frames.specs.Requests.{is_request};
ghost use Rattle.brick_house.specs.HouseLinks.{empty_lane, IsAsked, IsAnswered, Receives};

use crate::house::BrickHouse;
use crate::seats::HouseSeats;
use crash_base::{BrickNo, FrameBytes, OutOfMemory};
use outside::Received;
use ssm_frames::{Frame, decode, encode, is_request};
use std::alloc::Global;
use std::collections::VecDeque;
use std::marker::Model;
use std::sync::Wait;

/// What a link has of a brick: its replies that wait, and how often it was silent.
#[derive(Drop)]
pub(crate) struct Lane {
    queue: VecDeque<Frame>,
    silences: u64,
}

impl Model for Lane {
    ghost use Rattle.brick_house.specs.HouseLinks.{LaneValue};

    ghost Value = { LaneValue };

    ghost view = { λ l. record { queue = l.queue.items; silences = l.silences } };
}

impl Lane {
    /// A lane without replies or silences. It takes no memory.
    pub(crate) fn new(alloc: Global) -> Lane
        ensures { result ≡ empty_lane }
    {
        Lane {
            queue: VecDeque::new(alloc),
            silences: 0,
        }
    }

    /// Lets the brick do what a request asks, and keeps its reply. All memory is taken before the brick or the queue
    /// changes.
    fn serve<W: Wait>(
        &mut self,
        rt: &W,
        alloc: Global,
        house: &BrickHouse,
        seats: &mut HouseSeats,
        to: BrickNo,
        request: &Frame,
    ) -> Result<(), OutOfMemory>
        requires house { seats.old.house ≡ house.now }
        requires some { 1 ≤ to.0 }
        requires few { to.0 ≤ length house.now.locks }
        requires request { is_request request.now ≡ true }
        ensures seats { seats.new ≡ seats.old }
        ensures ok { OnOk result (IsAnswered house.now to request.now self.old self.new) }
        ensures err { OnErr result (self.new ≡ self.old) }
    {
        self.queue.reserve(1)?;
        let answer = house.ask(rt, alloc, seats, to, request)?;
        self.queue.push_back_reserved(answer);
        Ok(())
    }

    /// Takes bytes that were sent to the brick. Where they spell no request, nothing comes of them.
    pub(crate) fn ask<W: Wait>(
        &mut self,
        rt: &W,
        alloc: Global,
        house: &BrickHouse,
        seats: &mut HouseSeats,
        to: BrickNo,
        bytes: &[u8],
    ) -> Result<(), OutOfMemory>
        requires house { seats.old.house ≡ house.now }
        requires some { 1 ≤ to.0 }
        requires few { to.0 ≤ length house.now.locks }
        ensures seats { seats.new ≡ seats.old }
        ensures ok { OnOk result (IsAsked house.now to bytes.now self.old self.new) }
        ensures err { OnErr result (self.new ≡ self.old) }
    {
        match decode(alloc, bytes)? {
            None => Ok(()),
            Some(frame) => {
                if is_request(&frame) {
                    self.serve(rt, alloc, house, seats, to, &frame)
                } else {
                    Ok(())
                }
            }
        }
    }

    /// Gives the bytes of the first reply that waits, or counts a silence where none does.
    pub(crate) fn receive(&mut self, alloc: Global, into: &mut FrameBytes) -> Received
        ensures { Receives result into.new self.old self.new }
    {
        match self.queue.front() {
            None => {
                self.silences = self.silences.saturating_add(1);
                Received::Silent
            }
            Some(answer) => match encode(alloc, answer) {
                Ok(bytes) => {
                    *into = bytes;
                    self.queue.pop_front();
                    Received::Got
                }
                Err(OutOfMemory) => Received::OutOfMemory,
            },
        }
    }
}
