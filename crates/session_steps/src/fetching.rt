//! Reading a value.

ghost use Rattle.std.specs.Prelude.{◌≡◌, slice_get, Some, IfOk};
ghost use Rattle.scenario_text.specs.Answer.{KeepsRefused, answer_of};
ghost use Rattle.ssm_stub.specs.Reads.{ReadState};
ghost use Rattle.ssm_world.specs.declared.call.Call.TheVariants as kind;
ghost use Rattle.session_steps.specs.Kept.{IsSessions};
ghost use Rattle.session_steps.specs.Sessions.{told_read, fetch_line};
ghost use Rattle.session_lanes.specs.Lanes.{LanesState};

use crate::parts::Parts;
use crate::texts::{expired_text, found_text, lost_text};
use crash_base::OutOfMemory;
use scenario_text::LineAnswer;
use ssm_stub::ReadRefusal;
use ssm_world::copied_cookie;
use std::alloc::Global;

impl Parts {
    /// What the read of a number comes to under a key, once it has gone on to its answer.
    fn tell_read(&mut self, alloc: Global, key: u64, call: u64) -> Result<LineAnswer, OutOfMemory>
        ensures { IfOk result (λ a. (st : LanesState) (read : ReadState) → self.old.store ≡ Some st
            → slice_get st.world.calls call ≡ Some (kind.Read read) → answer_of a self.new ≡ told_read self.old key read) }
    {
        let Some(store) = &self.store else {
            return Ok(LineAnswer::Refused);
        };
        let Some(read) = store.read_of(call) else {
            return Ok(LineAnswer::Refused);
        };
        let text = match read.answer() {
            None => return Ok(LineAnswer::Refused),
            Some(Ok(value)) => found_text(alloc, key, value.as_slice())?,
            Some(Err(ReadRefusal::Expired { now, expiry })) => {
                expired_text(alloc, key, *now, *expiry)?
            }
            Some(Err(ReadRefusal::Lost(causes))) => lost_text(alloc, key, causes.as_slice())?,
            Some(Err(ReadRefusal::OutOfMemory)) => return Err(OutOfMemory),
        };
        Ok(LineAnswer::Wrote(text))
    }

    /// The value under a key is read by the key's cookie. It costs what its turns do, and copies the value once.
    #[tactic(auto, unfolding(crate::specs::Sessions::fetch_line))]
    pub(crate) fn fetch_line(&mut self, alloc: Global, key: u64) -> Result<LineAnswer, OutOfMemory>
        requires { IsSessions self.old }
        ensures answer { IfOk result (λ a. answer_of a self.new ≡ fetch_line self.old key) }
        ensures refused { IfOk result (λ a. KeepsRefused a self.old self.new) }
    {
        let Some(cookie) = self.cookie_of(key) else {
            return Ok(LineAnswer::Refused);
        };
        let cookie = copied_cookie(alloc, cookie)?;
        let nonce = self.nonce();
        let Some(store) = &mut self.store else {
            return Ok(LineAnswer::Refused);
        };
        if !store.is_new(nonce) {
            return Ok(LineAnswer::Refused);
        }
        let call = store.read_out(alloc, nonce, self.moment, cookie)?;
        self.draw();
        let answer = self.tell_read(alloc, key, call)?;
        Ok(answer)
    }
}
