//! One read of a session's value, a step at a time.

ghost use Rattle.std.specs.Prelude.{◌≡◌, ◌≤◌, length, filter_map, option_map, position, Some, IfOk, OnOk, OnErr};
ghost use Rattle.crash_base.specs.declared.items.TheConstants.{MAX_FRAME_BYTES};
ghost use Rattle.ssm_frames.specs.Reading.{decode_of};
ghost use Rattle.ssm_frames.specs.Spelling.{encode_of};
ghost use Rattle.ssm_stub.specs.Runs.{told_of};
ghost use Rattle.ssm_stub.specs.Ears.{heard};
ghost use Rattle.ssm_stub.specs.Reads.{get_lawful, is_found, value_of, found_in, loss_of, read_answer_of, read_start, read_answer, hear_read, read_next, read_ask, turn_of_read};

use crate::ask::{Ask, Turn, none_asked, put_ear, turn_in_order, wanted_of};
use crate::cause::{BrickCause, Cause, CauseList};
use crate::ear::{Ear, Outcome, Stage, after_frame, after_sent};
use crate::event::{StubEvent, StubNext, Told, told_of};
use crate::reply::{ReadReply, Reference, get_reply};
use crash_base::{FrameBytes, Moment, OutOfMemory, SessionBytes, SessionKey, Version};
use session_cookie::{Cookie, Holder};
use ssm_frames::{Frame, encode};
use std::alloc::{AllocFailed, Global};
use std::marker::Model;

/// Why a read was refused.
#[derive(Drop)]
pub enum ReadRefusal {
    /// The moment of the read is past the expiry.
    Expired { now: Moment, expiry: Moment },
    /// Each brick of the cookie has its cause.
    Lost(CauseList),
    /// Out of memory.
    OutOfMemory,
}

/// One read. Its ask, a Get, is sent to the first brick of the cookie, and the brick is heard; then to
/// the second, and so on, until one has the value. It has its answer then, or once all were heard.
#[derive(Drop)]
pub struct ReadCall {
    moment: Moment,
    nonce: Version,
    key: SessionKey,
    version: Version,
    expiry: Moment,
    asks: Vec<Ask<Holder, ReadReply>>,
    answer: Option<Result<SessionBytes, ReadRefusal>>,
}

impl Model for ReadCall {
    ghost use Rattle.std.specs.Prelude.{◌≡◌};
    ghost use Rattle.ssm_stub.specs.Reads.{ReadState, read_answer_of};

    ghost Value = { ReadState };

    ghost view = { λ c. record { moment = c.moment; nonce = c.nonce; key = c.key; version = c.version; expiry = c.expiry; asks = c.asks.items } };

    ghost invariant = { λ c. c.answer ≡ read_answer_of c.moment c.expiry c.asks.items };
}

/// Whether this brick gave the value.
fn is_found(ask: &Ask<Holder, ReadReply>) -> bool
    ensures { result ≡ is_found ask.now }
{
    match ask.ear {
        Ear::Heard(Outcome::Answered(ReadReply::Found(_))) => true,
        _ => false,
    }
}

/// The place of the first brick that gave the value.
fn first_found(asks: &[Ask<Holder, ReadReply>]) -> Option<usize>
    ensures { result ≡ position is_found asks.now }
{
    asks.iter().position(|ask| is_found(ask))
}

/// A copy of the value that the brick gave, if it did.
fn value_of(
    alloc: Global,
    ask: &Ask<Holder, ReadReply>,
) -> Result<Option<SessionBytes>, OutOfMemory>
    ensures { IfOk result (λ value. value ≡ value_of ask.now) }
{
    match &ask.ear {
        Ear::Heard(Outcome::Answered(ReadReply::Found(value))) => {
            let copy = Vec::from_slice(alloc, value.as_slice())?;
            Ok(Some(SessionBytes::from_vec(copy)))
        }
        _ => Ok(None),
    }
}

/// A copy of the value of the first brick that gave one.
fn found_in(
    alloc: Global,
    asks: &[Ask<Holder, ReadReply>],
) -> Result<Option<SessionBytes>, OutOfMemory>
    ensures { IfOk result (λ value. value ≡ found_in asks.now) }
{
    match first_found(asks) {
        None => Ok(None),
        Some(at) => match asks.get(at) {
            None => Ok(None),
            Some(ask) => {
                let value = value_of(alloc, ask)?;
                Ok(value)
            }
        },
    }
}

/// Why the brick did not give the value, where that is known.
fn loss_of(ask: &Ask<Holder, ReadReply>) -> Option<BrickCause>
    ensures { result ≡ loss_of ask.now }
{
    match ask.ear {
        Ear::Heard(Outcome::Answered(ReadReply::Crashed { incarnation })) => Some(BrickCause {
            brick: ask.who.brick,
            cause: Cause::Crashed { incarnation },
        }),
        Ear::Heard(Outcome::Answered(ReadReply::Swept { moment })) => Some(BrickCause {
            brick: ask.who.brick,
            cause: Cause::Swept { moment },
        }),
        Ear::Heard(Outcome::Silent) => Some(BrickCause {
            brick: ask.who.brick,
            cause: Cause::Silent,
        }),
        Ear::Heard(Outcome::Strayed) => Some(BrickCause {
            brick: ask.who.brick,
            cause: Cause::Strayed,
        }),
        _ => None,
    }
}

/// Those with causes, in order.
fn losses_of(alloc: Global, asks: &[Ask<Holder, ReadReply>]) -> Result<Vec<BrickCause>, OutOfMemory>
    ensures { IfOk result (λ causes. causes.items ≡ filter_map loss_of asks.now) }
{
    let mut causes = Vec::new(alloc);
    for ask in asks {
        if let Some(cause) = loss_of(ask) {
            causes.push(cause)?;
        }
    }
    Ok(causes)
}

/// The answer over what was heard so far, if there is one. It takes memory only where there is one.
fn read_answer_of(
    alloc: Global,
    now: Moment,
    expiry: Moment,
    asks: &[Ask<Holder, ReadReply>],
) -> Result<Option<Result<SessionBytes, ReadRefusal>>, OutOfMemory>
    ensures { IfOk result (λ answer. answer ≡ read_answer_of now expiry asks.now) }
{
    if expiry.0 < now.0 {
        return Ok(Some(Err(ReadRefusal::Expired { now, expiry })));
    }
    match found_in(alloc, asks)? {
        Some(value) => Ok(Some(Ok(value))),
        None => match turn_in_order(asks) {
            Some(_) => Ok(None),
            None => {
                let causes = losses_of(alloc, asks)?;
                Ok(Some(Err(ReadRefusal::Lost(CauseList::from_vec(causes)))))
            }
        },
    }
}

/// What is heard of a holder after an event.
fn get_heard(
    nonce: Version,
    key: SessionKey,
    version: Version,
    expiry: Moment,
    holder: Holder,
    stage: Stage,
    told: Told,
) -> Ear<ReadReply>
    ensures { result ≡ heard (get_lawful nonce key version expiry holder) stage told }
{
    match told {
        Told::Sent => after_sent(stage),
        Told::Came(frame) => {
            let wanted = Reference {
                nonce,
                key,
                version,
                brick: holder.brick,
            };
            after_frame(stage, get_reply(wanted, holder, expiry, frame))
        }
        Told::Silent => Ear::Heard(Outcome::Silent),
    }
}

/// A read of which nothing was sent yet.
pub(crate) fn begin_read(
    alloc: Global,
    now: Moment,
    nonce: Version,
    cookie: &Cookie,
) -> Result<ReadCall, OutOfMemory>
    ensures { IfOk result (λ call. call ≡ read_start now nonce cookie.now) }
{
    let asks = none_asked(alloc, cookie.bricks.as_slice())?;
    let answer = read_answer_of(alloc, now, cookie.expiry, &asks)?;
    Ok(ReadCall {
        moment: now,
        nonce,
        key: cookie.key,
        version: cookie.version,
        expiry: cookie.expiry,
        asks,
        answer,
    })
}

impl ReadCall {
    /// A read of which nothing was sent yet: at this moment, of the holders of this cookie, in its order. It
    /// visits each holder once.
    ///
    /// # Errors
    /// There is no memory.
    pub fn new(
        alloc: Global,
        now: Moment,
        nonce: Version,
        cookie: Cookie,
    ) -> Result<ReadCall, OutOfMemory>
        ensures { IfOk result (λ call. call ≡ read_start now nonce cookie) }
    {
        begin_read(alloc, now, nonce, &cookie)
    }

    /// The answer; None while there is none. It takes no memory.
    pub fn answer(&self) -> Option<&Result<SessionBytes, ReadRefusal>>
        ensures { option_map (λ a. a.now) result ≡ read_answer self.now }
    {
        self.answer.as_ref()
    }

    /// The answer itself, of a call that is done with; None where there is none yet. It takes no memory.
    pub fn into_answer(self) -> Option<Result<SessionBytes, ReadRefusal>>
        ensures { result ≡ read_answer self }
    {
        self.answer
    }

    /// Whose turn it is, while there is no answer.
    fn turn(&self) -> Option<Turn<Holder>>
        ensures { result ≡ turn_of_read self.now }
    {
        if self.answer.is_some() {
            None
        } else {
            turn_in_order(&self.asks)
        }
    }

    /// What it wants next: its ask sent to the first holder without an outcome, or, where that was sent,
    /// a frame from it; nothing once it has its answer. It visits each holder once at most, and takes no
    /// memory.
    pub fn next(&self) -> StubNext
        ensures { result ≡ read_next self.now }
    {
        match self.turn() {
            None => StubNext::Ended,
            Some(turn) => wanted_of(turn.who.brick, turn.stage),
        }
    }

    /// Its ask, a Get: what is to be sent where `next` is Send. It takes no memory.
    pub fn ask(&self) -> Frame
        ensures { result ≡ read_ask self.now }
    {
        Frame::Get {
            nonce: self.nonce,
            key: self.key,
            version: self.version,
        }
    }

    /// The bytes of its ask, from 1 to 4,161.
    ///
    /// # Errors
    /// There is no memory.
    pub fn frame(&self, alloc: Global) -> Result<FrameBytes, OutOfMemory>
        ensures bytes { IfOk result (λ bytes. bytes ≡ encode_of (read_ask self.now)) }
        ensures some { IfOk result (λ bytes. 1 ≤ length bytes) }
        ensures few { IfOk result (λ bytes. length bytes ≤ MAX_FRAME_BYTES) }
        ensures back { IfOk result (λ bytes. decode_of bytes ≡ Some (read_ask self.now)) }
    {
        encode(alloc, &self.ask())
    }

    /// Takes in what came of what `next` names, where a frame that came is read already: as `hear` does.
    ///
    /// # Errors
    /// There is no memory for the answer. The call is as it was.
    pub fn hear_told(&mut self, alloc: Global, told: Told) -> Result<(), OutOfMemory>
        ensures ok { OnOk result (self.new ≡ hear_read self.old told) }
        ensures err { OnErr result (self.new ≡ self.old) }
    {
        let Some(turn) = self.turn() else {
            return Ok(());
        };
        let ear = get_heard(
            self.nonce,
            self.key,
            self.version,
            self.expiry,
            turn.who,
            turn.stage,
            told,
        );
        put_ear(&mut self.asks, turn.at, ear);
        match read_answer_of(alloc, self.moment, self.expiry, &self.asks) {
            Ok(answer) => {
                self.answer = answer;
                Ok(())
            }
            Err(OutOfMemory) => {
                put_ear(&mut self.asks, turn.at, Ear::Open(turn.stage));
                Err(OutOfMemory)
            }
        }
    }

    /// Takes in what came of what `next` names: Sent only where that is Send, a frame only where it is
    /// Receive; any other event changes nothing. Where memory ran out, the call is as it was.
    pub fn hear(&mut self, alloc: Global, event: StubEvent) -> Result<(), OutOfMemory>
        ensures ok { OnOk result (self.new ≡ hear_read self.old (told_of event)) }
        ensures err { OnErr result (self.new ≡ self.old) }
    {
        let told = told_of(alloc, &event)?;
        self.hear_told(alloc, told)
    }
}
