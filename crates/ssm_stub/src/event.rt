//! What a call wants, and what comes of it.

ghost use Rattle.std.specs.Prelude.{◌≡◌, IfOk};
ghost use Rattle.ssm_stub.specs.Runs.{told_of};

use crash_base::{BrickNo, FrameBytes, Items, OutOfMemory};
use ssm_frames::{Frame, decode};
use std::alloc::Global;

/// Bricks, in the order in which they are asked.
pub type BrickList = Items<BrickNo>;

/// What a call wants next.
#[derive(Clone, Copy)]
pub enum StubNext {
    /// Its ask is to be sent to this brick.
    Send { brick: BrickNo },
    /// A frame is to be received from this brick.
    Receive { brick: BrickNo },
    /// Nothing.
    Ended,
}

/// What came of it.
#[derive(Drop)]
pub enum StubEvent {
    /// The ask was sent.
    Sent,
    /// These bytes came.
    Frame(FrameBytes),
    /// The link answered that the brick was silent.
    Silent,
}

/// An event as a call is told it: its bytes are read.
#[derive(Drop)]
pub enum Told {
    /// The ask was sent.
    Sent,
    /// This frame came, or bytes that spell none.
    Came(Option<Frame>),
    /// The brick was silent.
    Silent,
}

/// What a call is told of an event.
pub(crate) fn told_of(alloc: Global, event: &StubEvent) -> Result<Told, OutOfMemory>
    ensures { IfOk result (λ told. told ≡ told_of event.now) }
{
    match event {
        StubEvent::Sent => Ok(Told::Sent),
        StubEvent::Frame(bytes) => {
            let frame = decode(alloc, bytes.as_slice())?;
            Ok(Told::Came(frame))
        }
        StubEvent::Silent => Ok(Told::Silent),
    }
}
