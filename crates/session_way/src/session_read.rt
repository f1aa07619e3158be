//! A read of a session by its cookie.

ghost use Rattle.std.specs.Prelude.{◌≡◌, ◌≢◌, Some, IfOk, OnOk, OnErr};
ghost use Rattle.std.specs.Option.{option_map};
ghost use Rattle.ssm_frames.specs.Spelling.{encode_of};
ghost use Rattle.ssm_stub.specs.declared.event.StubNext.TheVariants.{Ended};
ghost use Rattle.ssm_stub.specs.Reads.{read_answer, read_ask, read_machine, read_next, read_start};
ghost use Rattle.ssm_stub.specs.Runs.{BreaksOff, Steps};
ghost use Rattle.session_way.specs.Reading.{answer_of_read, cookie_asked};

use crate::lease::SessionLease;
use crash_base::{FrameBytes, Moment, OutOfMemory, SessionBytes, Version};
use outside::Link;
use session_cookie::{Cookie, HolderList};
use ssm_stub::{CauseList, ReadCall, ReadRefusal, StubNext, read_step};
use std::alloc::Global;
use std::marker::Model;

/// What a read came to.
#[derive(Drop)]
pub enum ReadOutcome {
    /// The session, as a brick of the cookie gave it.
    Found(SessionLease),
    /// The moment of the read is past the expiry of the cookie.
    Expired { now: Moment, expiry: Moment },
    /// Each brick of the cookie has its cause.
    Lost(CauseList),
}

/// A read of a session by its cookie, and the bytes of its ask.
#[derive(Drop)]
pub struct SessionRead {
    call: ReadCall,
    moment: Moment,
    nonce: Version,
    cookie: Cookie,
    ask: FrameBytes,
}

impl Model for SessionRead {
    ghost use Rattle.std.specs.Prelude.{◌≡◌};
    ghost use Rattle.ssm_stub.specs.Reads.{ReadState, read_ask};
    ghost use Rattle.session_way.specs.Asks.{IsAskOf};
    ghost use Rattle.session_way.specs.Reading.{IsBegunBy};

    ghost Value = { ReadState };

    ghost view = { λ r. r.call };

    ghost invariant = { λ r. IsAskOf r.ask (read_ask r.call) × IsBegunBy r.moment r.nonce r.cookie r.call };
}

/// A copy of a cookie.
fn copied(alloc: Global, cookie: &Cookie) -> Result<Cookie, OutOfMemory>
    ensures { IfOk result (λ copy. copy ≡ cookie.now) }
{
    let bricks = Vec::from_slice(alloc, cookie.bricks.as_slice())?;
    Ok(Cookie {
        key: cookie.key,
        version: cookie.version,
        expiry: cookie.expiry,
        bricks: HolderList::from_vec(bricks),
    })
}

impl SessionRead {
    /// A read of which nothing was sent yet: at the moment of its request, by this cookie, with a nonce that was drawn
    /// for it. It visits each brick of the cookie twice.
    ///
    /// # Errors
    /// There is no memory.
    pub fn new(
        alloc: Global,
        now: Moment,
        nonce: Version,
        cookie: Cookie,
    ) -> Result<SessionRead, OutOfMemory>
        ensures { IfOk result (λ read. read ≡ read_start now nonce cookie) }
    {
        let kept = copied(alloc, &cookie)?;
        let call = ReadCall::new(alloc, now, nonce, cookie)?;
        let ask = call.frame(alloc)?;
        Ok(SessionRead {
            call,
            moment: now,
            nonce,
            cookie: kept,
            ask,
        })
    }

    /// The moment of its request. It takes no memory.
    pub fn moment(&self) -> Moment
        ensures { result ≡ self.now.moment }
    {
        self.moment
    }

    /// The nonce that was drawn for it. It takes no memory.
    pub fn nonce(&self) -> Version
        ensures { result ≡ self.now.nonce }
    {
        self.nonce
    }

    /// A copy of the cookie by which it asks, whatever it has heard. It visits each brick of the cookie once.
    ///
    /// # Errors
    /// There is no memory.
    pub fn copy_cookie(&self, alloc: Global) -> Result<Cookie, OutOfMemory>
        ensures { IfOk result (λ cookie. cookie ≡ cookie_asked self.now) }
    {
        copied(alloc, &self.cookie)
    }

    /// What it wants next; nothing once it has its answer. It takes no memory.
    pub fn next(&self) -> StubNext
        ensures { result ≡ read_next self.now }
    {
        self.call.next()
    }

    /// The answer; None while there is none. It takes no memory.
    pub fn answer(&self) -> Option<&Result<SessionBytes, ReadRefusal>>
        ensures { option_map (λ a. a.now) result ≡ read_answer self.now }
    {
        self.call.answer()
    }

    /// Makes the call of the link that the read wants: one send of its ask, or one receive.
    ///
    /// # Errors
    /// There is no memory. The read is as it was; the link may have made the call.
    pub fn step<L: Link>(&mut self, alloc: Global, link: &mut L) -> Result<(), OutOfMemory>
        requires { read_next self.old ≢ Ended }
        ensures step { OnOk result (Steps read_machine L.makes (encode_of (read_ask self.old)) self.old link.old self.new link.new) }
        ensures same { OnErr result (self.new ≡ self.old) }
        ensures want { OnErr result (BreaksOff L.makes (encode_of (read_ask self.old)) (read_next self.old) link.old link.new) }
    {
        let mut into = FrameBytes::new(alloc);
        read_step(alloc, link, &mut self.call, self.ask.as_slice(), &mut into)
    }

    /// What a read came to that wants nothing more. A session that was found has the key by which it is written again.
    /// It takes no memory.
    pub fn into_outcome(self) -> ReadOutcome
        requires { read_next self ≡ Ended }
        ensures answer { read_answer self ≡ Some (answer_of_read result) }
        ensures key { (lease : SessionLease) → result ≡ ReadOutcome.Found lease → lease.key ≡ self.key }
        ensures expiry { (lease : SessionLease) → result ≡ ReadOutcome.Found lease → lease.expiry ≡ self.expiry }
    {
        let key = self.cookie.key;
        let expiry = self.cookie.expiry;
        match self.call.into_answer() {
            Some(Ok(value)) => ReadOutcome::Found(SessionLease { key, value, expiry }),
            Some(Err(ReadRefusal::Expired { now, expiry })) => ReadOutcome::Expired { now, expiry },
            Some(Err(ReadRefusal::Lost(causes))) => ReadOutcome::Lost(causes),
            Some(Err(ReadRefusal::OutOfMemory)) => unreachable!(),
            None => unreachable!(),
        }
    }
}
