//! Writing a value.

ghost use Rattle.std.specs.Prelude.{◌≡◌, ◌≤◌, length, map, slice_get, slice_set, Some, IfOk, IfErr, OnOk};
ghost use Rattle.scenario_text.specs.Answer.{KeepsRefused, answer_of};
ghost use Rattle.send_windows.specs.Facts.{open_count};
ghost use Rattle.send_windows.specs.Windows.{KeepLimits, AreTaken, RefusedAs, chosen, taken};
ghost use Rattle.send_windows.specs.Passes.{hushed, AreHeard};
ghost use Rattle.ssm_stub.specs.Writes.{WriteState, heard_passes};
ghost use Rattle.ssm_world.specs.declared.call.Call.TheVariants as kind;
ghost use Rattle.ssm_world.specs.declared.event.WorldEvent.TheVariants.{Write};
ghost use Rattle.session_steps.specs.Kept.{IsSessions};
ghost use Rattle.session_steps.specs.Sessions.{session_key, padded, told_write, write_line};
ghost use Rattle.session_lanes.specs.Lanes.{LanesState, after_event, spent_as, written_out};

use crate::parts::Parts;
use crate::texts::{missed_text, overload_text, version_text};
use crash_base::{OutOfMemory, SessionBytes, SessionKey};
use scenario_text::{HexBytes, LineAnswer};
use send_windows::{PassList, TakeRefusal};
use session_cookie::Cookie;
use session_lanes::{Lanes, WriteOrder};
use ssm_stub::WriteRefusal;
use ssm_world::copied_cookie;
use std::alloc::Global;

/// The session key of a number.
fn session_key(key: u64) -> SessionKey
    ensures { result ≡ session_key key }
{
    SessionKey(u128::from(key).to_be_bytes())
}

/// Makes a place for the cookie of each key up to this one.
fn pad(cookies: &mut Vec<Option<Cookie>>, key: u64) -> Result<(), OutOfMemory>
    ensures { OnOk result (cookies.new.items ≡ padded cookies.old.items key) }
{
    while cookies.len() as u64 <= key {
        cookies.push(None)?;
    }
    Ok(())
}

/// Keeps the cookie of a key.
fn keep(cookies: &mut Vec<Option<Cookie>>, key: u64, cookie: Cookie) -> Result<(), OutOfMemory>
    ensures { OnOk result (cookies.new.items ≡ slice_set (padded cookies.old.items key) key (Some cookie)) }
{
    pad(cookies, key)?;
    cookies[key as usize] = Some(cookie);
    Ok(())
}

/// A write begins with these passes and goes on to its end, and the passes are spent. The answer is its number. Where
/// memory ran out, what was not heard counts as silent.
fn write_and_settle(
    lanes: &mut Lanes,
    alloc: Global,
    order: WriteOrder,
    passes: PassList,
) -> Result<u64, OutOfMemory>
    ensures call { IfOk result (λ call. call ≡ length lanes.old.world.calls) }
    ensures store { OnOk result ((write : WriteState)
        → slice_get (written_out lanes.old order.nonce order.key order.value order.expiry passes).world.calls (length lanes.old.world.calls) ≡ Some (kind.Write write)
        → lanes.new ≡ spent_as (written_out lanes.old order.nonce order.key order.value order.expiry passes) (map hushed (heard_passes write passes))) }
{
    let call = lanes.calls();
    let written = lanes.write_out(alloc, order, passes.as_slice());
    lanes.settle(call, passes);
    written
}

impl Parts {
    /// What the write of a number comes to under a key, once it has gone on to its end.
    fn tell_write(&mut self, alloc: Global, key: u64, call: u64) -> Result<LineAnswer, OutOfMemory>
        ensures { IfOk result (λ a. (st : LanesState) (write : WriteState) → self.old.store ≡ Some st
            → slice_get st.world.calls call ≡ Some (kind.Write write) → answer_of a self.new ≡ told_write self.old key write) }
    {
        let Some(store) = &self.store else {
            return Ok(LineAnswer::Refused);
        };
        let Some(write) = store.write_of(call) else {
            return Ok(LineAnswer::Refused);
        };
        let text = match write.answer() {
            None => return Ok(LineAnswer::Refused),
            Some(Ok(cookie)) => {
                keep(&mut self.cookies, key, copied_cookie(alloc, cookie)?)?;
                version_text(alloc, key, cookie)?
            }
            Some(Err(WriteRefusal::Missed(causes))) => missed_text(alloc, key, causes.as_slice())?,
            Some(Err(WriteRefusal::OutOfMemory)) => return Err(OutOfMemory),
        };
        Ok(LineAnswer::Wrote(text))
    }

    /// A value is written under a key. It costs what its turns do, and copies the value once for each brick that is
    /// asked and once for each that stores it.
    #[tactic(auto, unfolding(crate::specs::Sessions::write_line))]
    pub(crate) fn write_line(
        &mut self,
        alloc: Global,
        key: u64,
        value: HexBytes,
    ) -> Result<LineAnswer, OutOfMemory>
        requires { IsSessions self.old }
        ensures answer { IfOk result (λ a. answer_of a self.new ≡ write_line self.old key value) }
        ensures refused { IfOk result (λ a. KeepsRefused a self.old self.new) }
    {
        let order = WriteOrder {
            nonce: self.nonce(),
            key: session_key(key),
            value: SessionBytes::from_vec(value.into_vec()),
            expiry: self.expiry(),
        };
        let first = self.serial;
        let Some(store) = &mut self.store else {
            return Ok(LineAnswer::Refused);
        };
        if !store.is_new(order.nonce) {
            return Ok(LineAnswer::Refused);
        }
        store.keeps_limits();
        match store.take(alloc, first) {
            Err(TakeRefusal::OutOfMemory) => Err(OutOfMemory),
            Err(TakeRefusal::Overload(full)) => {
                self.draw();
                let text = overload_text(alloc, key, full.as_slice())?;
                Ok(LineAnswer::Wrote(text))
            }
            Ok(passes) => {
                let call = write_and_settle(store, alloc, order, passes)?;
                self.draw();
                let answer = self.tell_write(alloc, key, call)?;
                Ok(answer)
            }
        }
    }
}
