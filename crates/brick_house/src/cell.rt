//! A brick as its lock has it.

ghost use Rattle.std.specs.Prelude.{◌≡◌, [], ◌∷◌, true, Some, IfOk};
ghost use Rattle.ssm_frames.specs.Requests.{is_request};
ghost use Rattle.brick_store.specs.Bricks.{reply};
ghost use Rattle.brick_house.specs.Houses.{identity_of};

use brick_store::Brick;
use crash_base::{BrickNo, OutOfMemory};
use ssm_frames::Frame;
use std::alloc::Global;
use turn_lock::Chronicle;

/// Which brick it is. No value of this is made.
#[derive(Clone, Copy)]
pub struct BrickIdentity {
    pub number: BrickNo,
    pub incarnation: u64,
}

/// A brick, whose history is one event: which brick it is.
#[derive(Drop)]
pub struct BrickCell {
    pub(crate) inner: Brick,
}

impl Chronicle for BrickCell {
    type Event = BrickIdentity;

    ghost events = { λ cell. identity_of cell.inner ∷ [] };
}

impl BrickCell {
    /// The brick does what a request asks, and replies. It stays the brick that it was.
    pub(crate) fn answer(&mut self, alloc: Global, request: &Frame) -> Result<Frame, OutOfMemory>
        requires { is_request request.now ≡ true }
        ensures reply { IfOk result (λ answer. reply self.old.inner request.now ≡ Some answer) }
        ensures identity { identity_of self.new.inner ≡ identity_of self.old.inner }
    {
        match self.inner.answer(alloc, request) {
            Ok(answer) => Ok(answer),
            Err(OutOfMemory) => Err(OutOfMemory),
        }
    }
}
