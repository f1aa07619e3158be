//! One write of a session's value, a step at a time.

ghost use Rattle.std.specs.Prelude.{◌≡◌, ◌≤◌, length, map, filter_map, option_map, take, Some, IfOk, OnOk, OnErr};
ghost use Rattle.crash_base.specs.declared.items.TheConstants.{MAX_FRAME_BYTES};
ghost use Rattle.ssm_frames.specs.Reading.{decode_of};
ghost use Rattle.ssm_frames.specs.Spelling.{encode_of};
ghost use Rattle.ssm_stub.specs.Runs.{told_of};
ghost use Rattle.ssm_stub.specs.Turns.{turn_after_asks};
ghost use Rattle.ssm_stub.specs.Ears.{heard};
ghost use Rattle.ssm_stub.specs.Writes.{put_lawful, holder_of, cause_of, answer_of, write_start, write_answer, hear_write, write_next, write_until, mark_by, mark_in};

use crate::ask::{Ask, none_asked, put_ear, turn_after_asks, wanted_of};
use crate::cause::{BrickCause, Cause, CauseList};
use crate::ear::{Ear, Outcome, Stage, after_frame, after_sent};
use crate::event::{BrickList, StubEvent, StubNext, Told, told_of};
use crate::reply::{Reference, WriteReply, put_reply};
use crash_base::{BrickNo, FrameBytes, Moment, OutOfMemory, SessionBytes, SessionKey, Version};
use send_windows::PassMark;
use session_cookie::{Cookie, Holder, HolderList};
use ssm_frames::{Frame, encode};
use std::alloc::{AllocFailed, Global};
use std::marker::Model;

/// Why a write was refused.
#[derive(Drop)]
pub enum WriteRefusal {
    /// All bricks were heard, and fewer than enough stored the value: why each other one did not.
    Missed(CauseList),
    /// Out of memory.
    OutOfMemory,
}

/// One write. Its ask, a Put, is sent to each brick in order, and then the bricks are heard in order;
/// it has its answer once enough have stored the value, or once all were heard. After its answer it goes
/// on to hear the others.
#[derive(Drop)]
pub struct WriteCall {
    ask: Frame,
    least: u16,
    nonce: Version,
    key: SessionKey,
    expiry: Moment,
    asks: Vec<Ask<BrickNo, WriteReply>>,
    answer: Option<Result<Cookie, WriteRefusal>>,
}

impl Model for WriteCall {
    ghost use Rattle.std.specs.Prelude.{◌≡◌};
    ghost use Rattle.ssm_stub.specs.Writes.{WriteState, answer_of};

    ghost Value = { WriteState };

    ghost view = { λ c. record { ask = c.ask; least = c.least; nonce = c.nonce; key = c.key; expiry = c.expiry; asks = c.asks.items } };

    ghost invariant = { λ c. c.answer ≡ answer_of c.least c.nonce c.key c.expiry c.asks.items };
}

/// The brick as a holder of the value, where it stored it.
fn holder_of(ask: &Ask<BrickNo, WriteReply>) -> Option<Holder>
    ensures { result ≡ holder_of ask.now }
{
    match ask.ear {
        Ear::Heard(Outcome::Answered(WriteReply::Stored { incarnation })) => Some(Holder {
            brick: ask.who,
            incarnation,
        }),
        _ => None,
    }
}

/// Why the brick did not store the value, where that is known.
fn cause_of(ask: &Ask<BrickNo, WriteReply>) -> Option<BrickCause>
    ensures { result ≡ cause_of ask.now }
{
    match ask.ear {
        Ear::Heard(Outcome::Answered(WriteReply::Full { entries, bytes })) => Some(BrickCause {
            brick: ask.who,
            cause: Cause::Full { entries, bytes },
        }),
        Ear::Heard(Outcome::Silent) => Some(BrickCause {
            brick: ask.who,
            cause: Cause::Silent,
        }),
        Ear::Heard(Outcome::Strayed) => Some(BrickCause {
            brick: ask.who,
            cause: Cause::Strayed,
        }),
        _ => None,
    }
}

/// How many of these stored the value.
fn holder_count(asks: &[Ask<BrickNo, WriteReply>]) -> usize
    ensures { result ≡ length (filter_map holder_of asks.now) }
{
    let mut count = 0;
    for ask in asks {
        if let Some(_) = holder_of(ask) {
            count += 1;
        }
    }
    count
}

/// Those that stored the value, as holders, in order.
fn holders_of(alloc: Global, asks: &[Ask<BrickNo, WriteReply>]) -> Result<Vec<Holder>, OutOfMemory>
    ensures { IfOk result (λ holders. holders.items ≡ filter_map holder_of asks.now) }
{
    let mut holders = Vec::with_capacity(alloc, asks.len())?;
    for ask in asks {
        if let Some(holder) = holder_of(ask) {
            holders.push(holder)?;
        }
    }
    Ok(holders)
}

/// Those with causes, in order.
fn causes_of(
    alloc: Global,
    asks: &[Ask<BrickNo, WriteReply>],
) -> Result<Vec<BrickCause>, OutOfMemory>
    ensures { IfOk result (λ causes. causes.items ≡ filter_map cause_of asks.now) }
{
    let mut causes = Vec::new(alloc);
    for ask in asks {
        if let Some(cause) = cause_of(ask) {
            causes.push(cause)?;
        }
    }
    Ok(causes)
}

/// The first so many that stored the value, as holders, in order.
fn first_holders(
    alloc: Global,
    least: u16,
    asks: &[Ask<BrickNo, WriteReply>],
) -> Result<HolderList, OutOfMemory>
    ensures { IfOk result (λ holders. holders ≡ take least (filter_map holder_of asks.now)) }
{
    let mut holders = holders_of(alloc, asks)?;
    holders.truncate(least as usize);
    Ok(HolderList::from_vec(holders))
}

/// The answer over what was heard so far, if there is one. It takes memory only where there is one.
fn answer_of(
    alloc: Global,
    least: u16,
    nonce: Version,
    key: SessionKey,
    expiry: Moment,
    asks: &[Ask<BrickNo, WriteReply>],
) -> Result<Option<Result<Cookie, WriteRefusal>>, OutOfMemory>
    ensures { IfOk result (λ answer. answer ≡ answer_of least nonce key expiry asks.now) }
{
    if least as usize <= holder_count(asks) {
        let bricks = first_holders(alloc, least, asks)?;
        return Ok(Some(Ok(Cookie {
            key,
            version: nonce,
            expiry,
            bricks,
        })));
    }
    match turn_after_asks(asks) {
        Some(_) => Ok(None),
        None => {
            let causes = causes_of(alloc, asks)?;
            Ok(Some(Err(WriteRefusal::Missed(CauseList::from_vec(causes)))))
        }
    }
}

/// What is heard of a brick after an event.
pub(crate) fn put_heard(
    nonce: Version,
    key: SessionKey,
    brick: BrickNo,
    stage: Stage,
    told: &Told,
) -> Ear<WriteReply>
    ensures { result ≡ heard (put_lawful nonce key brick) stage told.now }
{
    match told {
        Told::Sent => after_sent(stage),
        Told::Came(frame) => {
            let wanted = Reference {
                nonce,
                key,
                version: nonce,
                brick,
            };
            after_frame(stage, put_reply(wanted, frame))
        }
        Told::Silent => Ear::Heard(Outcome::Silent),
    }
}

/// The mark of a pass by what was heard of its brick.
pub(crate) fn mark_by(ear: &Ear<WriteReply>) -> PassMark
    ensures { result ≡ mark_by ear.now }
{
    match ear {
        Ear::Open(_) => PassMark::Unheard,
        Ear::Heard(Outcome::Answered(_)) => PassMark::Answered,
        Ear::Heard(Outcome::Silent) => PassMark::Silent,
        Ear::Heard(Outcome::Strayed) => PassMark::Silent,
    }
}

/// The mark of the brick of a number.
fn mark_in(asks: &[Ask<BrickNo, WriteReply>], brick: BrickNo) -> PassMark
    ensures { result ≡ mark_in asks.now brick }
{
    let mut rest = asks;
    while let [first, after @ ..] = rest {
        if first.who.0 == brick.0 {
            return mark_by(&first.ear);
        }
        rest = after;
    }
    PassMark::Unheard
}

impl WriteCall {
    /// A write of which nothing was sent yet: a value to be put to these bricks, in this order, until `least`
    /// of them have stored it. `write` and a world ask 1 to 16 distinct bricks, and `least` from 1 to their
    /// number. It visits each brick once.
    ///
    /// # Errors
    /// There is no memory.
    pub fn new(
        alloc: Global,
        bricks: BrickList,
        least: u16,
        nonce: Version,
        key: SessionKey,
        value: SessionBytes,
        expiry: Moment,
    ) -> Result<WriteCall, OutOfMemory>
        ensures { IfOk result (λ call. call ≡ write_start bricks least nonce key value expiry) }
    {
        let asks = none_asked(alloc, bricks.as_slice())?;
        let answer = answer_of(alloc, least, nonce, key, expiry, &asks)?;
        Ok(WriteCall {
            ask: Frame::Put {
                nonce,
                key,
                version: nonce,
                expiry,
                value,
            },
            least,
            nonce,
            key,
            expiry,
            asks,
            answer,
        })
    }

    /// The answer; None while there is none. It takes no memory.
    pub fn answer(&self) -> Option<&Result<Cookie, WriteRefusal>>
        ensures { option_map (λ a. a.now) result ≡ write_answer self.now }
    {
        self.answer.as_ref()
    }

    /// The answer itself, of a call that is done with; None where there is none yet. It takes no memory.
    pub fn into_answer(self) -> Option<Result<Cookie, WriteRefusal>>
        ensures { result ≡ write_answer self }
    {
        self.answer
    }

    /// Its ask, a Put: what is to be sent where `next` is Send. It takes no memory.
    pub fn ask(&self) -> &Frame
        ensures { result.now ≡ self.now.ask }
    {
        &self.ask
    }

    /// The bricks with what was heard of each, in asked order.
    pub(crate) fn asks(&self) -> &[Ask<BrickNo, WriteReply>]
        ensures { result.now ≡ self.now.asks }
    {
        &self.asks
    }

    /// The mark of a pass to a brick of the call: Unheard while the brick has no outcome, Answered by a
    /// lawful reply, and Silent where the brick was silent or strayed. It visits each brick once at most,
    /// and takes no memory.
    pub fn mark(&self, brick: BrickNo) -> PassMark
        ensures { result ≡ mark_in self.now.asks brick }
    {
        mark_in(&self.asks, brick)
    }

    /// What it wants next until it has its answer, and nothing then. It visits each brick twice at most,
    /// and takes no memory.
    pub fn next_until_answer(&self) -> StubNext
        ensures { result ≡ write_until.next self.now }
    {
        if self.answer.is_some() {
            StubNext::Ended
        } else {
            self.next()
        }
    }

    /// What it wants next: its ask sent to the first brick that was not asked; then a frame from the
    /// first brick without an outcome; then nothing. It visits each brick twice at most, and takes no
    /// memory.
    pub fn next(&self) -> StubNext
        ensures { result ≡ write_next self.now }
    {
        match turn_after_asks(&self.asks) {
            None => StubNext::Ended,
            Some(turn) => wanted_of(turn.who, turn.stage),
        }
    }

    /// The bytes of its ask, from 1 to 4,161. It copies the value once.
    ///
    /// # Errors
    /// There is no memory.
    pub fn frame(&self, alloc: Global) -> Result<FrameBytes, OutOfMemory>
        ensures bytes { IfOk result (λ bytes. bytes ≡ encode_of self.now.ask) }
        ensures some { IfOk result (λ bytes. 1 ≤ length bytes) }
        ensures few { IfOk result (λ bytes. length bytes ≤ MAX_FRAME_BYTES) }
        ensures back { IfOk result (λ bytes. decode_of bytes ≡ Some self.now.ask) }
    {
        encode(alloc, &self.ask)
    }

    /// Takes in what came of what `next` names, where a frame that came is read already: as `hear` does.
    ///
    /// # Errors
    /// There is no memory for the answer. The call is as it was.
    pub fn hear_told(&mut self, alloc: Global, told: &Told) -> Result<(), OutOfMemory>
        ensures ok { OnOk result (self.new ≡ hear_write self.old told.now) }
        ensures err { OnErr result (self.new ≡ self.old) }
    {
        let Some(turn) = turn_after_asks(&self.asks) else {
            return Ok(());
        };
        let ear = put_heard(self.nonce, self.key, turn.who, turn.stage, told);
        put_ear(&mut self.asks, turn.at, ear);
        match answer_of(
            alloc,
            self.least,
            self.nonce,
            self.key,
            self.expiry,
            &self.asks,
        ) {
            Ok(answer) => {
                self.answer = answer;
                Ok(())
            }
            Err(OutOfMemory) => {
                put_ear(&mut self.asks, turn.at, Ear::Open(turn.stage));
                Err(OutOfMemory)
            }
        }
    }

    /// Takes in what came of what `next` names: Sent only where that is Send, a frame only where it is
    /// Receive; any other event changes nothing. Where memory ran out, the call is as it was.
    pub fn hear(&mut self, alloc: Global, event: StubEvent) -> Result<(), OutOfMemory>
        ensures ok { OnOk result (self.new ≡ hear_write self.old (told_of event)) }
        ensures err { OnErr result (self.new ≡ self.old) }
    {
        let told = told_of(alloc, &event)?;
        self.hear_told(alloc, &told)
    }
}
