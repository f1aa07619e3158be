//! The lane of a brick.

ghost use Rattle.std.specs.Prelude.{◌≡◌, ◌-◌, ◌∷◌, [], nat_lt, slice_get, OnOk, MatchOption};
ghost use Rattle.session_lanes.specs.Lane.{new_lane, raised, losing, dropping, waiting, with_reply, reply_made};

use crash_base::OutOfMemory;
use std::alloc::Global;
use std::collections::VecDeque;
use std::marker::Model;

/// What is still to happen on the way to a brick and from it, all replies that the brick ever made, and those of them
/// that wait to be heard. A reply is kept by the number of its packet.
#[derive(Drop)]
pub(crate) struct Lane {
    to_drop: u64,
    to_lose: u64,
    made: Vec<u64>,
    queue: VecDeque<u64>,
    held: u64,
}

impl Model for Lane {
    ghost use Rattle.session_lanes.specs.Lane.{LaneState};

    ghost Value = { LaneState };

    ghost view = { λ l. record { to_drop = l.to_drop; to_lose = l.to_lose; made = l.made.items; queue = l.queue.items; held = l.held } };
}

impl Lane {
    /// A lane on which nothing happened. It takes no memory.
    pub(crate) fn new(alloc: Global) -> Lane
        ensures { result ≡ new_lane }
    {
        Lane {
            to_drop: 0,
            to_lose: 0,
            made: Vec::new(alloc),
            queue: VecDeque::new(alloc),
            held: 0,
        }
    }

    /// So many more of the next replies are to be lost.
    pub(crate) fn lose(&mut self, more: u64)
        ensures { self.new ≡ losing more self.old }
    {
        self.to_lose = self.to_lose.saturating_add(more);
    }

    /// So many more of the next asks are to be dropped.
    pub(crate) fn drop_asks(&mut self, more: u64)
        ensures { self.new ≡ dropping more self.old }
    {
        self.to_drop = self.to_drop.saturating_add(more);
    }

    /// Whether an ask is still to be dropped.
    pub(crate) fn drops(&self) -> bool
        ensures { result ≡ nat_lt 0 self.now.to_drop }
    {
        self.to_drop > 0
    }

    /// An ask was dropped: one less is to be.
    pub(crate) fn drop_ask(&mut self)
        ensures { self.new ≡ record (self.old) { to_drop = self.old.to_drop - 1 } }
    {
        self.to_drop = self.to_drop.saturating_sub(1);
    }

    /// A reply was made: it is lost where one is still to be lost, and else waits behind the others.
    pub(crate) fn keep_reply(&mut self, packet: u64) -> Result<(), OutOfMemory>
        ensures { OnOk result (self.new ≡ with_reply packet self.old) }
    {
        self.made.push(packet)?;
        if self.to_lose > 0 {
            self.to_lose -= 1;
            return Ok(());
        }
        self.queue.push_back(packet)?;
        Ok(())
    }

    /// The reply of a number among all that were made, counted from 1, if it was made.
    pub(crate) fn reply_made(&self, number: u64) -> Option<u64>
        ensures { result ≡ reply_made self.now number }
    {
        if number == 0 || number > self.made.len() as u64 {
            return None;
        }
        Some(self.made[number as usize - 1])
    }

    /// A reply waits behind the others.
    pub(crate) fn wait(&mut self, packet: u64) -> Result<(), OutOfMemory>
        ensures { OnOk result (self.new ≡ waiting packet self.old) }
    {
        self.queue.push_back(packet)?;
        Ok(())
    }

    /// The first reply that waits, if one does.
    pub(crate) fn first_reply(&self) -> Option<u64>
        ensures { result ≡ slice_get self.now.queue 0 }
    {
        self.queue.get(0).copied()
    }

    /// Takes the first reply that waits, if one does.
    pub(crate) fn next_reply(&mut self) -> Option<u64>
        ensures { MatchOption result ((self.old.queue ≡ []) × (self.new ≡ self.old))
            (λ packet. (self.old.queue ≡ packet ∷ self.new.queue) × (self.new ≡ record (self.old) { queue = self.new.queue })) }
    {
        self.queue.pop_front()
    }

    /// One pass more is held.
    pub(crate) fn hold(&mut self)
        ensures { self.new ≡ record (self.old) { held = raised self.old.held 1 } }
    {
        self.held = self.held.saturating_add(1);
    }

    /// Whether a pass is held.
    pub(crate) fn holds(&self) -> bool
        ensures { result ≡ nat_lt 0 self.now.held }
    {
        self.held > 0
    }

    /// A held pass was spent: one less is held.
    pub(crate) fn free(&mut self)
        ensures { self.new ≡ record (self.old) { held = self.old.held - 1 } }
    {
        self.held = self.held.saturating_sub(1);
    }
}
