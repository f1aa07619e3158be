//! A call with its nonce.

ghost use Rattle.std.specs.Prelude.{◌≡◌, IfOk, OnOk, OnErr};
ghost use Rattle.ssm_stub.specs.Writes.{write_start};
ghost use Rattle.ssm_stub.specs.Reads.{read_start};
ghost use Rattle.ssm_world.specs.declared.call.Call.TheVariants as call;
ghost use Rattle.ssm_world.specs.Worlds.{nonce_of, ask_of, next_of, hear};

use crate::call::Call;
use crate::copies::copied_frame;
use crash_base::{Moment, OutOfMemory, SessionBytes, SessionKey, Version};
use session_cookie::Cookie;
use ssm_frames::Frame;
use ssm_stub::{BrickList, ReadCall, StubNext, Told, WriteCall};
use std::alloc::Global;
use std::marker::Model;

/// A call with its nonce.
#[derive(Drop)]
pub(crate) struct NoncedCall {
    nonce: Version,
    call: Call,
}

impl Model for NoncedCall {
    ghost use Rattle.std.specs.Prelude.{◌≡◌};
    ghost use Rattle.ssm_world.specs.declared.call.Call.{Call};
    ghost use Rattle.ssm_world.specs.Worlds.{nonce_of};

    ghost Value = { Call };

    ghost view = { λ c. c.call };

    ghost invariant = { λ c. c.nonce ≡ nonce_of c.call };
}

/// Tells a call what came.
fn tell(alloc: Global, call: &mut Call, told: Told) -> Result<(), OutOfMemory>
    ensures ok { OnOk result (call.new ≡ hear call.old told) }
    ensures err { OnErr result (call.new ≡ call.old) }
{
    match call {
        Call::Write(write) => write.hear_told(alloc, &told),
        Call::Read(read) => read.hear_told(alloc, told),
    }
}

impl NoncedCall {
    /// A write of which nothing was sent.
    pub(crate) fn write(
        alloc: Global,
        bricks: BrickList,
        least: u16,
        nonce: Version,
        key: SessionKey,
        value: SessionBytes,
        expiry: Moment,
    ) -> Result<NoncedCall, OutOfMemory>
        ensures { IfOk result (λ c. c ≡ call.Write (write_start bricks least nonce key value expiry)) }
    {
        let call = WriteCall::new(alloc, bricks, least, nonce, key, value, expiry)?;
        Ok(NoncedCall {
            nonce,
            call: Call::Write(call),
        })
    }

    /// A read of which nothing was sent.
    pub(crate) fn read(
        alloc: Global,
        now: Moment,
        nonce: Version,
        cookie: Cookie,
    ) -> Result<NoncedCall, OutOfMemory>
        ensures { IfOk result (λ c. c ≡ call.Read (read_start now nonce cookie)) }
    {
        let call = ReadCall::new(alloc, now, nonce, cookie)?;
        Ok(NoncedCall {
            nonce,
            call: Call::Read(call),
        })
    }

    /// The write or the read. It takes no memory.
    pub(crate) fn call(&self) -> &Call
        ensures { result.now ≡ self.now }
    {
        &self.call
    }

    /// Its nonce. It takes no memory.
    pub(crate) fn nonce(&self) -> Version
        ensures { result ≡ nonce_of self.now }
    {
        self.nonce
    }

    /// What it wants next. It takes no memory.
    pub(crate) fn next(&self) -> StubNext
        ensures { result ≡ next_of self.now }
    {
        match &self.call {
            Call::Write(write) => write.next(),
            Call::Read(read) => read.next(),
        }
    }

    /// A copy of its ask.
    pub(crate) fn ask(&self, alloc: Global) -> Result<Frame, OutOfMemory>
        ensures { IfOk result (λ frame. frame ≡ ask_of self.now) }
    {
        match &self.call {
            Call::Write(write) => {
                let frame = copied_frame(alloc, write.ask())?;
                Ok(frame)
            }
            Call::Read(read) => Ok(read.ask()),
        }
    }

    /// Takes in what came. Where memory ran out, it is as it was.
    pub(crate) fn hear(&mut self, alloc: Global, told: Told) -> Result<(), OutOfMemory>
        ensures ok { OnOk result (self.new ≡ hear self.old told) }
        ensures err { OnErr result (self.new ≡ self.old) }
    {
        tell(alloc, &mut self.call, told)
    }
}
