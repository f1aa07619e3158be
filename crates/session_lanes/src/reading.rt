//! Reading a value.

ghost use Rattle.std.specs.Prelude.{◌≡◌, length, IfOk, OnOk};
ghost use Rattle.session_lanes.specs.Lanes.{begun_read, read_out};

use crate::lanes::Lanes;
use crash_base::{Moment, OutOfMemory, Version};
use session_cookie::Cookie;
use ssm_world::WorldEvent;
use std::alloc::Global;

impl Lanes {
    /// A read of a cookie begins at a moment, as the call of the next number: where no call has its nonce, and the
    /// cookie names 1 to 16 distinct bricks. Else nothing changes.
    pub fn begin_read(
        &mut self,
        alloc: Global,
        nonce: Version,
        now: Moment,
        cookie: Cookie,
    ) -> Result<(), OutOfMemory>
        ensures { OnOk result (self.new ≡ begun_read self.old nonce now cookie) }
    {
        let read = WorldEvent::Read { nonce, now, cookie };
        self.world.step(alloc, &read)?;
        Ok(())
    }

    /// A read of a cookie begins at a moment, and goes on to its answer. The answer is its number, which is that of no
    /// call where it did not begin.
    pub fn read_out(
        &mut self,
        alloc: Global,
        nonce: Version,
        now: Moment,
        cookie: Cookie,
    ) -> Result<u64, OutOfMemory>
        ensures call { IfOk result (λ call. call ≡ length self.old.world.calls) }
        ensures lanes { OnOk result (self.new ≡ read_out self.old nonce now cookie) }
    {
        let call = self.calls();
        self.begin_read(alloc, nonce, now, cookie)?;
        self.go_on(alloc, call)?;
        Ok(call)
    }
}
