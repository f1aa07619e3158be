//! What carries frames to bricks and back.

ghost use Rattle.std.specs.Prelude.{◌≡◌, ℕ, ◌<◌, ◌≤◌, List, length};
ghost use Rattle.std.specs.List.{count_by};
ghost use Rattle.outside.specs.declared.link.LinkEvent.{LinkEvent};
ghost use Rattle.crash_base.specs.declared.items.TheConstants.{MAX_FRAME_BYTES};
ghost use Rattle.outside.specs.Faults.{Rose, RoseBy};
ghost use Rattle.outside.specs.Link.{send_event, receive_event, is_silence, is_silence_of, is_frame, Tally, Tallied, Made};

use crash_base::{BrickNo, FrameBytes};
use std::alloc::Global;

/// What a send answered.
#[derive(Clone, Copy, Debug, PartialEq, Eq)]
pub enum Sent {
    /// The link took the frame. Whether it arrives is not told.
    Done,
    /// The brick was silent, and the link counted this. The frame may arrive all the same.
    Silent,
    /// The allocator had no memory. The frame was not sent.
    OutOfMemory,
}

/// What a receive answered.
#[derive(Clone, Copy, Debug, PartialEq, Eq)]
pub enum Received {
    /// A frame came.
    Got,
    /// The brick was silent, and the link counted this.
    Silent,
    /// The allocator had no memory.
    OutOfMemory,
}

/// One call of a link, with what it answered.
#[derive(Drop)]
pub enum LinkEvent {
    /// The link took this frame to a brick.
    Sends(BrickNo, FrameBytes),
    /// A send of this frame to a brick was answered Silent.
    SendsInSilence(BrickNo, FrameBytes),
    /// This frame came from a brick.
    Gets(BrickNo, FrameBytes),
    /// A receive from a brick was answered Silent.
    HearsSilence(BrickNo),
    /// A send of this frame to a brick was answered OutOfMemory.
    WantsToSend(BrickNo, FrameBytes),
    /// A receive from a brick was answered OutOfMemory.
    WantsToReceive(BrickNo),
}

/// What a link has counted, each number up to 2^64 - 1.
#[derive(Clone, Copy, Debug, PartialEq, Eq)]
pub struct LinkCounts {
    /// How often a brick was silent, over all bricks.
    pub hushed: u64,
    /// How many frames `receive` gave.
    pub got: u64,
}

/// What carries frames to bricks and back.
///
/// What a link tells is the relation `makes`: which states of the link one call, seen as an event,
/// may lead to. A link in memory gives the state after a call as a function of the state before and
/// the event. A link over a network tells no more than the law `tallies`.
pub trait Link {
    /// This event may lead from the one state to the other.
    ghost makes: { Self → LinkEvent → Self → Type 0 };

    /// What the link has counted: each number a `u64` that stays at its greatest value.
    ghost tally: { Self → Tally };

    /// Gives the link a frame, of 1 to 4,161 bytes (`MAX_FRAME_BYTES`), for a brick.
    fn send(&mut self, alloc: Global, to: BrickNo, frame: &[u8]) -> Sent
        requires some { 0 < length frame.now }
        requires short { length frame.now ≤ MAX_FRAME_BYTES }
        ensures { makes self.old (send_event to frame.now result) self.new };

    /// Waits for a frame from a brick. Where one came, `into` is that frame, and else anything.
    fn receive(&mut self, alloc: Global, from: BrickNo, into: &mut FrameBytes) -> Received
        ensures { makes self.old (receive_event from into.new result) self.new };

    /// The silences over all bricks, and the frames that came. It takes no memory.
    fn counts(&self) -> LinkCounts
        ensures hushed { result.hushed ≡ (tally self.now).hushed }
        ensures got { result.got ≡ (tally self.now).got };

    /// No count falls over an event, and each that the event adds to rises.
    ghost tallies: { (old new : Self) (event : LinkEvent) → makes old event new
        → Tallied event (tally old) (tally new) };
}

/// Over any calls of a link each brick's count of silences, and the counts of silences and of frames over all
/// bricks, have risen by at least as many as came, or are at 2^64 - 1.
pub fn links_count_their_events<L: Link>(_link: &L)
    ensures brick { (old new : L) (events : List LinkEvent) (brick : ℕ) → Made L.makes old events new
        → RoseBy (count_by (is_silence_of brick) events) ((L.tally old).silences brick) ((L.tally new).silences brick) }
    ensures hushed { (old new : L) (events : List LinkEvent) → Made L.makes old events new
        → RoseBy (count_by is_silence events) (L.tally old).hushed (L.tally new).hushed }
    ensures got { (old new : L) (events : List LinkEvent) → Made L.makes old events new
        → RoseBy (count_by is_frame events) (L.tally old).got (L.tally new).got }
{}
