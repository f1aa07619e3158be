//! A lane of the link: a brick, with what is still to happen to its asks and replies.

ghost use Rattle.std.specs.Prelude.{◌≡◌, ◌+◌, ◌-◌, ◌^◌, ◌<◌, ◌≤◌, ◌++◌, ◌∷◌, [], if◌then◌else◌, nat_lt, length, slice_get, All, true, Some, None, OnOk, OnErr, MatchOption};
ghost use Rattle.std.specs.Vec.{vec_len, vec_capacity};
ghost use Rattle.std.specs.VecDeque.{deque_len, deque_capacity};
ghost use Rattle.ssm_frames.specs.Requests.{is_request};
ghost use Rattle.link_lanes.specs.Lanes.{raised, IsFirst};
ghost use Rattle.link_memory.specs.Lane.{new_lane, asked, reached, served, Receives, with_reply, given, silent, repeated, crashed_lane, swept_lane, losing, dropping, replies_at};

use brick_store::Brick;
use crash_base::{BrickNo, FrameBytes, Moment, OutOfMemory};
use outside::Received;
use ssm_frames::{Frame, decode, encode, is_request};
use std::alloc::Global;
use std::collections::VecDeque;
use std::marker::Model;

/// A brick, with what is still to happen to its asks and replies. Each reply is kept once: the queue
/// has the places of those that wait among all that were made.
#[derive(Drop)]
pub(crate) struct Lane {
    brick: Brick,
    to_drop: u64,
    to_lose: u64,
    made: Vec<Frame>,
    queue: VecDeque<usize>,
    silences: u64,
}

impl Model for Lane {
    ghost use Rattle.link_memory.specs.Lane.{LaneValue, replies_at};
    ghost use Rattle.std.specs.Prelude.{◌<◌, All, length};

    ghost Value = { LaneValue };

    ghost view = { λ l. record {
      brick = l.brick;
      to_drop = l.to_drop;
      to_lose = l.to_lose;
      made = l.made.items;
      queue = replies_at l.made.items l.queue.items;
      silences = l.silences;
    } };

    ghost invariant = { λ l. All (λ place. place < length l.made.items) l.queue.items };
}

/// Makes room for one more reply.
fn reserve(made: &mut Vec<Frame>, queue: &mut VecDeque<usize>) -> Result<(), OutOfMemory>
    ensures made { made.new.items ≡ made.old.items }
    ensures queue { queue.new.items ≡ queue.old.items }
    ensures made_room { OnOk result (vec_len made.new < vec_capacity made.new) }
    ensures queue_room { OnOk result (deque_len queue.new < deque_capacity queue.new) }
{
    made.reserve(1)?;
    queue.reserve(1)?;
    Ok(())
}

/// Keeps a reply, for which there is room. It waits unless a reply is still to be lost.
fn keep(made: &mut Vec<Frame>, queue: &mut VecDeque<usize>, to_lose: &mut u64, reply: Frame)
    requires made_room { vec_len made.old < vec_capacity made.old }
    requires queue_room { deque_len queue.old < deque_capacity queue.old }
    ensures made { made.new.items ≡ made.old.items ++ reply ∷ [] }
    ensures queue { queue.new.items ≡ (if nat_lt 0 to_lose.old then queue.old.items else queue.old.items ++ length made.old.items ∷ []) }
    ensures to_lose { to_lose.new ≡ to_lose.old - 1 }
{
    if *to_lose > 0 {
        *to_lose -= 1;
    } else {
        queue.push_back_reserved(made.len());
    }
    made.push_reserved(reply);
}

/// The first place of a queue.
fn first(queue: &VecDeque<usize>) -> Option<usize>
    ensures { result ≡ slice_get queue.now.items 0 }
{
    queue.front().copied()
}

impl Lane {
    /// The lane of a new brick of this number.
    pub(crate) fn new(alloc: Global, number: BrickNo) -> Lane
        ensures { result ≡ new_lane number.0 }
    {
        Lane {
            brick: Brick::new(alloc, number, 1),
            to_drop: 0,
            to_lose: 0,
            made: Vec::new(alloc),
            queue: VecDeque::new(alloc),
            silences: 0,
        }
    }

    /// How many values the brick keeps.
    pub(crate) fn values(&self) -> u64
        ensures { result ≡ length self.now.brick.kept }
    {
        self.brick.values()
    }

    /// The brick's incarnation.
    pub(crate) fn incarnation(&self) -> u64
        ensures { result ≡ self.now.brick.incarnation }
    {
        self.brick.incarnation()
    }

    /// How many replies the brick ever made.
    pub(crate) fn made(&self) -> u64
        ensures { result ≡ length self.now.made }
    {
        self.made.len() as u64
    }

    /// Sweeps the brick.
    pub(crate) fn sweep(&mut self, moment: Moment)
        ensures { self.new ≡ swept_lane moment self.old }
    {
        self.brick.sweep(moment);
    }

    /// Crashes the brick. Its queue stays.
    pub(crate) fn crash(&mut self)
        requires { self.old.brick.incarnation < 2 ^ 64 - 1 }
        ensures { self.new ≡ crashed_lane self.old }
    {
        self.brick.crash();
    }

    /// So many more replies are to be lost.
    pub(crate) fn lose(&mut self, more: u64)
        ensures { self.new ≡ losing more self.old }
    {
        self.to_lose = self.to_lose.saturating_add(more);
    }

    /// So many more asks are to be dropped.
    pub(crate) fn drop_asks(&mut self, more: u64)
        ensures { self.new ≡ dropping more self.old }
    {
        self.to_drop = self.to_drop.saturating_add(more);
    }

    /// Lets the brick do what a request asks, and keeps its reply. All memory is taken before the brick
    /// or the replies change.
    fn serve(&mut self, alloc: Global, request: &Frame) -> Result<(), OutOfMemory>
        requires { is_request request.now ≡ true }
        ensures ok { OnOk result (self.new ≡ served request.now self.old) }
        ensures err { OnErr result (self.new ≡ self.old) }
    {
        reserve(&mut self.made, &mut self.queue)?;
        let reply = self.brick.answer(alloc, request)?;
        keep(&mut self.made, &mut self.queue, &mut self.to_lose, reply);
        Ok(())
    }

    /// Lets a frame reach the brick. A reply does nothing there.
    #[tactic(auto, using(crate::proofs::Replies::not_served))]
    fn reach(&mut self, alloc: Global, frame: &Frame) -> Result<(), OutOfMemory>
        ensures ok { OnOk result (self.new ≡ served frame.now self.old) }
        ensures err { OnErr result (self.new ≡ self.old) }
    {
        if is_request(frame) {
            self.serve(alloc, frame)
        } else {
            Ok(())
        }
    }

    /// Takes bytes that were sent. They are dropped where an ask is still to be dropped.
    pub(crate) fn ask(&mut self, alloc: Global, bytes: &[u8]) -> Result<(), OutOfMemory>
        ensures ok { OnOk result (self.new ≡ asked bytes.now self.old) }
        ensures err { OnErr result (self.new ≡ self.old) }
    {
        if self.to_drop > 0 {
            self.to_drop -= 1;
            return Ok(());
        }
        match decode(alloc, bytes)? {
            None => Ok(()),
            Some(frame) => self.reach(alloc, &frame),
        }
    }

    /// Gives the bytes of the first reply that waits, or counts a silence where none does.
    pub(crate) fn receive(&mut self, alloc: Global, into: &mut FrameBytes) -> Received
        ensures { Receives result into.new self.old self.new }
    {
        match first(&self.queue) {
            None => {
                self.silences = self.silences.saturating_add(1);
                Received::Silent
            }
            Some(place) => match encode(alloc, &self.made[place]) {
                Ok(bytes) => {
                    *into = bytes;
                    self.queue.pop_front();
                    Received::Got
                }
                Err(OutOfMemory) => Received::OutOfMemory,
            },
        }
    }

    /// Lets the reply of this number wait once more.
    pub(crate) fn repeat(&mut self, number: u64) -> Result<(), OutOfMemory>
        requires some { 1 ≤ number }
        requires made { number ≤ length self.old.made }
        ensures ok { OnOk result (self.new ≡ repeated number self.old) }
        ensures err { OnErr result (self.new ≡ self.old) }
    {
        self.queue.push_back((number - 1) as usize)?;
        Ok(())
    }
}
