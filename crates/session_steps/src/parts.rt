//! The parts of sessions, and what each line does to them.

ghost use Rattle.std.specs.Prelude.{◌≡◌, ◌≤◌, [], option_map, None, IfOk};
ghost use Rattle.scenario_text.specs.Answer.{Done, KeepsRefused, answer_of};
ghost use Rattle.session_steps.specs.Kept.{IsSessions};
ghost use Rattle.session_steps.specs.Present.{presented_text};
ghost use Rattle.session_steps.specs.Sessions.{nonce, drawn, cookie_of, expiry, cookie_line, now_line, lose_line, mute_line, repeat_line, crash_line, sweep_line, values_line, windows_line, hold_line, free_line, session_line};

use crate::lane_lines::{crash, free, hold, lose, mute, repeat, sweep, tell_values, tell_windows};
use crate::sessions::{LEASE, MAX_MOMENT, NODE};
use crate::texts::{answer_text, cookie_text};
use crash_base::{CookieText, Moment, OutOfMemory, Version};
use scenario_text::{Freed, LineAnswer, SessionLine};
use session_cookie::{Cookie, decode_cookie, encode_cookie};
use session_lanes::Lanes;
use std::alloc::Global;
use std::marker::Model;

/// The present moment; the number of the boot, and the serial that its next write or fetch draws; the key of the
/// service; the cookie of each key, by its number, if it has one; and the bricks, if there are some.
#[derive(Drop)]
pub(crate) struct Parts {
    pub(crate) moment: Moment,
    pub(crate) boot: u32,
    pub(crate) serial: u64,
    pub(crate) key: Vec<u8>,
    pub(crate) cookies: Vec<Option<Cookie>>,
    pub(crate) store: Option<Lanes>,
}

impl Model for Parts {
    ghost use Rattle.session_steps.specs.Sessions.{SessionsState};

    ghost Value = { SessionsState };

    ghost view = { λ s. record { moment = s.moment; boot = s.boot; serial = s.serial; key = s.key.items; cookies = s.cookies.items; store = s.store } };
}

impl Parts {
    /// The nonce that the next write or fetch draws.
    pub(crate) fn nonce(&self) -> Version
        ensures { result ≡ nonce self.now }
    {
        Version {
            node: NODE,
            boot: self.boot,
            serial: self.serial,
        }
    }

    /// The moment after which a cookie that is made now has expired.
    pub(crate) fn expiry(&self) -> Moment
        requires { self.now.moment.0 ≤ MAX_MOMENT }
        ensures { result ≡ expiry self.now }
    {
        Moment(self.moment.0 + LEASE)
    }

    /// A serial was drawn.
    pub(crate) fn draw(&mut self)
        ensures { self.new ≡ drawn self.old }
    {
        self.serial = self.serial.saturating_add(1);
    }

    /// The cookie of a key, if it has one.
    pub(crate) fn cookie_of(&self, key: u64) -> Option<&Cookie>
        ensures { option_map (λ cookie. cookie.now) result ≡ cookie_of self.now key }
    {
        if key >= self.cookies.len() as u64 {
            return None;
        }
        self.cookies[key as usize].as_ref()
    }

    /// The cookie of a key is shown.
    #[tactic(auto, unfolding(crate::specs::Sessions::cookie_line))]
    fn cookie_line(&self, alloc: Global, key: u64) -> Result<LineAnswer, OutOfMemory>
        requires { IsSessions self.now }
        ensures { IfOk result (λ a. answer_of a self.now ≡ cookie_line self.now key) }
    {
        let Some(cookie) = self.cookie_of(key) else {
            return Ok(LineAnswer::Refused);
        };
        let shown = encode_cookie(alloc, &self.key, cookie)?;
        let text = cookie_text(alloc, key, shown.as_slice())?;
        Ok(LineAnswer::Wrote(text))
    }

    /// A text is presented as a cookie.
    #[tactic(auto, using(crate::proofs::Presented::presented))]
    fn present_line(&self, alloc: Global, text: CookieText) -> Result<LineAnswer, OutOfMemory>
        ensures { IfOk result (λ a. answer_of a self.now ≡ Done self.now (presented_text self.now.key text)) }
    {
        let answer = decode_cookie(alloc, &self.key, text.as_slice());
        let text = answer_text(alloc, answer)?;
        Ok(LineAnswer::Wrote(text))
    }

    /// The present moment goes on, or stays.
    #[tactic(auto, unfolding(crate::specs::Sessions::now_line))]
    fn now_line(&mut self, moment: u64) -> LineAnswer
        ensures answer { answer_of result self.new ≡ now_line self.old moment }
        ensures refused { KeepsRefused result self.old self.new }
    {
        if moment < self.moment.0 {
            return LineAnswer::Refused;
        }
        if moment > MAX_MOMENT {
            return LineAnswer::Refused;
        }
        self.moment = Moment(moment);
        LineAnswer::Done
    }

    /// More of a brick's next replies are to be lost.
    #[tactic(auto, using(crate::proofs::OneLine::lane_line, crate::proofs::OneLine::lane_refused), unfolding(crate::specs::Sessions::lose_line))]
    fn lose_line(&mut self, brick: u64, more: u64) -> LineAnswer
        ensures answer { answer_of result self.new ≡ lose_line self.old brick more }
        ensures refused { KeepsRefused result self.old self.new }
    {
        match &mut self.store {
            None => LineAnswer::Refused,
            Some(store) => lose(store, brick, more),
        }
    }

    /// More of the next asks to a brick are to be dropped.
    #[tactic(auto, using(crate::proofs::OneLine::lane_line, crate::proofs::OneLine::lane_refused), unfolding(crate::specs::Sessions::mute_line))]
    fn mute_line(&mut self, brick: u64, more: u64) -> LineAnswer
        ensures answer { answer_of result self.new ≡ mute_line self.old brick more }
        ensures refused { KeepsRefused result self.old self.new }
    {
        match &mut self.store {
            None => LineAnswer::Refused,
            Some(store) => mute(store, brick, more),
        }
    }

    /// A reply of a brick waits once more.
    #[tactic(auto, using(crate::proofs::OneLine::lane_line, crate::proofs::OneLine::lane_refused), unfolding(crate::specs::Sessions::repeat_line))]
    fn repeat_line(&mut self, brick: u64, number: u64) -> Result<LineAnswer, OutOfMemory>
        ensures answer { IfOk result (λ a. answer_of a self.new ≡ repeat_line self.old brick number) }
        ensures refused { IfOk result (λ a. KeepsRefused a self.old self.new) }
    {
        match &mut self.store {
            None => Ok(LineAnswer::Refused),
            Some(store) => repeat(store, brick, number),
        }
    }

    /// A brick crashes.
    #[tactic(auto, using(crate::proofs::OneLine::lane_line, crate::proofs::OneLine::lane_refused), unfolding(crate::specs::Sessions::crash_line))]
    fn crash_line(&mut self, alloc: Global, brick: u64) -> Result<LineAnswer, OutOfMemory>
        ensures answer { IfOk result (λ a. answer_of a self.new ≡ crash_line self.old brick) }
        ensures refused { IfOk result (λ a. KeepsRefused a self.old self.new) }
    {
        match &mut self.store {
            None => Ok(LineAnswer::Refused),
            Some(store) => crash(store, alloc, brick),
        }
    }

    /// A brick is swept at a moment.
    #[tactic(auto, using(crate::proofs::OneLine::lane_line, crate::proofs::OneLine::lane_refused), unfolding(crate::specs::Sessions::sweep_line))]
    fn sweep_line(
        &mut self,
        alloc: Global,
        brick: u64,
        moment: u64,
    ) -> Result<LineAnswer, OutOfMemory>
        ensures answer { IfOk result (λ a. answer_of a self.new ≡ sweep_line self.old brick moment) }
        ensures refused { IfOk result (λ a. KeepsRefused a self.old self.new) }
    {
        match &mut self.store {
            None => Ok(LineAnswer::Refused),
            Some(store) => sweep(store, alloc, brick, moment),
        }
    }

    /// How many values a brick keeps is told.
    #[tactic(auto, using(crate::proofs::OneLine::lane_line, crate::proofs::OneLine::lane_refused), unfolding(crate::specs::Sessions::values_line))]
    fn values_line(&mut self, alloc: Global, brick: u64) -> Result<LineAnswer, OutOfMemory>
        ensures answer { IfOk result (λ a. answer_of a self.new ≡ values_line self.old brick) }
        ensures refused { IfOk result (λ a. KeepsRefused a self.old self.new) }
    {
        match &mut self.store {
            None => Ok(LineAnswer::Refused),
            Some(store) => tell_values(store, alloc, brick),
        }
    }

    /// The windows are told.
    #[tactic(auto, using(crate::proofs::OneLine::lane_line, crate::proofs::OneLine::lane_refused), unfolding(crate::specs::Sessions::windows_line))]
    fn windows_line(&mut self, alloc: Global) -> Result<LineAnswer, OutOfMemory>
        ensures answer { IfOk result (λ a. answer_of a self.new ≡ windows_line self.old) }
        ensures refused { IfOk result (λ a. KeepsRefused a self.old self.new) }
    {
        match &mut self.store {
            None => Ok(LineAnswer::Refused),
            Some(store) => tell_windows(store, alloc),
        }
    }

    /// A pass to a brick is held.
    #[tactic(auto, using(crate::proofs::OneLine::lane_line, crate::proofs::OneLine::lane_refused), unfolding(crate::specs::Sessions::hold_line))]
    fn hold_line(&mut self, alloc: Global, brick: u64) -> Result<LineAnswer, OutOfMemory>
        ensures answer { IfOk result (λ a. answer_of a self.new ≡ hold_line self.old brick) }
        ensures refused { IfOk result (λ a. KeepsRefused a self.old self.new) }
    {
        match &mut self.store {
            None => Ok(LineAnswer::Refused),
            Some(store) => hold(store, alloc, brick),
        }
    }

    /// The last pass that is held of a brick is spent.
    #[tactic(auto, using(crate::proofs::OneLine::lane_line, crate::proofs::OneLine::lane_refused), unfolding(crate::specs::Sessions::free_line))]
    fn free_line(&mut self, brick: u64, how: Freed) -> LineAnswer
        ensures answer { answer_of result self.new ≡ free_line self.old brick how }
        ensures refused { KeepsRefused result self.old self.new }
    {
        match &mut self.store {
            None => LineAnswer::Refused,
            Some(store) => free(store, brick, how),
        }
    }

    /// A line about sessions.
    pub(crate) fn line(
        &mut self,
        alloc: Global,
        line: SessionLine,
    ) -> Result<LineAnswer, OutOfMemory>
        requires { IsSessions self.old }
        ensures answer { IfOk result (λ a. answer_of a self.new ≡ session_line self.old line) }
        ensures refused { IfOk result (λ a. KeepsRefused a self.old self.new) }
    {
        match line {
            SessionLine::Now(moment) => Ok(self.now_line(moment)),
            SessionLine::Write(key, value) => self.write_line(alloc, key, value),
            SessionLine::Fetch(key) => self.fetch_line(alloc, key),
            SessionLine::Cookie(key) => self.cookie_line(alloc, key),
            SessionLine::Present(text) => self.present_line(alloc, text),
            SessionLine::Lose(brick, more) => Ok(self.lose_line(brick, more)),
            SessionLine::Mute(brick, more) => Ok(self.mute_line(brick, more)),
            SessionLine::Repeat(brick, number) => self.repeat_line(brick, number),
            SessionLine::Crash(brick) => self.crash_line(alloc, brick),
            SessionLine::Sweep(brick, moment) => self.sweep_line(
                alloc,
                brick,
                moment.unwrap_or(self.moment.0),
            ),
            SessionLine::Values(brick) => self.values_line(alloc, brick),
            SessionLine::Windows => self.windows_line(alloc),
            SessionLine::Hold(brick) => self.hold_line(alloc, brick),
            SessionLine::Free(brick, how) => Ok(self.free_line(brick, how)),
        }
    }

    /// The present moment is 0, and no cookies and no bricks are left.
    pub(crate) fn forget(&mut self)
        ensures { self.new ≡ record (self.old) { moment = record { 0 = 0 }; cookies = []; store = None } }
    {
        self.moment = Moment(0);
        self.cookies.clear();
        self.store = None;
    }
}
