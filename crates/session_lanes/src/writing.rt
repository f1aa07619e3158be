//! Writing a value.

ghost use Rattle.std.specs.Prelude.{◌≡◌, ◌≤◌, length, slice_get, IfOk, IfErr, OnOk};
ghost use Rattle.send_windows.specs.Facts.{open_count};
ghost use Rattle.send_windows.specs.Passes.{AreHeard};
ghost use Rattle.send_windows.specs.Windows.{AreTaken, RefusedAs, chosen, taken};
ghost use Rattle.session_lanes.specs.Lanes.{begun_write, heard_by, spent_as, written_out};

use crate::lanes::Lanes;
use crash_base::{Moment, OutOfMemory, SessionBytes, SessionKey, Version};
use send_windows::{Pass, PassList, TakeRefusal};
use ssm_stub::{bricks_of, mark_passes};
use ssm_world::WorldEvent;
use std::alloc::Global;

/// A value to be written.
#[derive(Drop)]
pub struct WriteOrder {
    /// The nonce of the write, which is the version of the value.
    pub nonce: Version,
    /// The key of the session.
    pub key: SessionKey,
    pub value: SessionBytes,
    /// The moment after which the value's cookie has expired.
    pub expiry: Moment,
}

impl Lanes {
    /// Takes passes for a write, gone round from a number.
    ///
    /// # Errors
    /// As of `Windows::take`.
    pub fn take(&mut self, alloc: Global, first: u64) -> Result<PassList, TakeRefusal>
        ensures passes { IfOk result (λ passes. passes ≡ chosen self.old.windows first) }
        ensures lawful { IfOk result (AreTaken self.old.windows.wq self.old.windows.w) }
        ensures after { OnOk result (self.new ≡ record (self.old) { windows = taken self.old.windows (chosen self.old.windows first) }) }
        ensures enough { OnOk result (self.old.windows.wq ≤ open_count self.old.windows.facts) }
        ensures err { IfErr result (RefusedAs self.old.windows self.new.windows) }
        ensures others { self.new ≡ record (self.old) { windows = self.new.windows } }
    {
        self.windows.take(alloc, first)
    }

    /// A write begins at the bricks of these passes, as the call of the next number: where no call has its nonce, and
    /// the bricks are 1 to 16 distinct ones. Else nothing changes.
    pub fn begin_write(
        &mut self,
        alloc: Global,
        order: WriteOrder,
        passes: &[Pass],
    ) -> Result<(), OutOfMemory>
        ensures { OnOk result (self.new ≡ begun_write self.old order.nonce order.key order.value order.expiry passes.now) }
    {
        let write = WorldEvent::Write {
            nonce: order.nonce,
            key: order.key,
            value: order.value,
            expiry: order.expiry,
            bricks: bricks_of(alloc, passes)?,
            least: self.windows.wq(),
        };
        self.world.step(alloc, &write)?;
        Ok(())
    }

    /// A write begins at the bricks of these passes, and goes on to its end. The answer is its number, which is that of
    /// no call where it did not begin.
    pub fn write_out(
        &mut self,
        alloc: Global,
        order: WriteOrder,
        passes: &[Pass],
    ) -> Result<u64, OutOfMemory>
        ensures call { IfOk result (λ call. call ≡ length self.old.world.calls) }
        ensures lanes { OnOk result (self.new ≡ written_out self.old order.nonce order.key order.value order.expiry passes.now) }
    {
        let call = self.calls();
        self.begin_write(alloc, order, passes)?;
        self.go_on(alloc, call)?;
        Ok(call)
    }

    /// Passes by what the call of a number heard of their bricks, where it is a write. What was not heard counts as
    /// silent.
    #[tactic(auto, using(crate::proofs::HeardBy::heard_by_write, crate::proofs::HeardBy::heard_by_none))]
    fn heard(&self, call: u64, passes: PassList) -> PassList
        ensures passes { result ≡ heard_by (slice_get self.now.world.calls call) passes }
        ensures heard { AreHeard result }
    {
        let mut passes = passes;
        if let Some(write) = self.world.write_of(call) {
            mark_passes(&mut passes, write);
        }
        passes.hush();
        passes
    }

    /// Spends passes that were heard.
    fn spend(&mut self, passes: PassList)
        requires { AreHeard passes }
        ensures { self.new ≡ spent_as self.old passes }
    {
        self.windows.spend(passes);
    }

    /// The passes of the write of a number are spent by what it has heard of their bricks. What it has not heard counts
    /// as silent. It visits each brick for each pass, and takes no memory.
    pub fn settle(&mut self, call: u64, passes: PassList)
        ensures { self.new ≡ spent_as self.old (heard_by (slice_get self.old.world.calls call) passes) }
    {
        let heard = self.heard(call, passes);
        self.spend(heard);
    }
}
