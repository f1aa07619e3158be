//! A write of a session, with the passes by which it asks.

ghost use Rattle.std.specs.Prelude.{◌≡◌, ◌≢◌, IfOk, IfErr, OnOk, OnErr};
ghost use Rattle.std.specs.Option.{option_map};
ghost use Rattle.ssm_frames.specs.Spelling.{encode_of};
ghost use Rattle.send_windows.specs.Passes.{AreHeard};
ghost use Rattle.ssm_stub.specs.declared.event.StubNext.TheVariants.{Ended};
ghost use Rattle.ssm_stub.specs.Runs.{BreaksOff, Steps};
ghost use Rattle.ssm_stub.specs.Writes.{write_answer, write_machine, write_next, write_until};
ghost use Rattle.session_way.specs.Asks.{IsAskOf};
ghost use Rattle.session_way.specs.Writing.{IsBegunOf, answer_of_write, passes_spent, write_begun};

use crash_base::{FrameBytes, Moment, OutOfMemory, SessionBytes, SessionKey, Version};
use outside::Link;
use send_windows::{Pass, PassList};
use session_cookie::Cookie;
use ssm_frames::Frame;
use ssm_stub::{CauseList, StubNext, WriteCall, WriteRefusal, bricks_of, mark_passes, write_step};
use std::alloc::{AllocFailed, Global};
use std::marker::Model;

/// What is to be written: a value under a session's key, as the version that the nonce names, until an expiry. Passes
/// are taken from the serial of the nonce on.
#[derive(Drop)]
pub struct WriteOrder {
    pub nonce: Version,
    pub key: SessionKey,
    pub value: SessionBytes,
    pub expiry: Moment,
}

/// What a write came to.
#[derive(Drop)]
pub enum WriteOutcome {
    /// As many bricks as are to store the value did: the cookie names them.
    Written(Cookie),
    /// All bricks were heard, and fewer did: why each other one did not.
    Missed(CauseList),
}

/// What is left of a write that goes no further.
#[derive(Drop)]
pub struct WriteParts {
    /// What it came to; None where it has no answer.
    pub outcome: Option<WriteOutcome>,
    /// Its passes, each heard: by what was heard of its brick, and Silent where nothing was.
    pub passes: PassList,
}

/// A write, the bytes of its ask, and the passes by which it asks.
#[derive(Drop)]
pub struct SessionWrite {
    call: WriteCall,
    ask: FrameBytes,
    passes: PassList,
}

impl Model for SessionWrite {
    ghost use Rattle.session_way.specs.Asks.{IsAskOf};
    ghost use Rattle.session_way.specs.Writing.{IsPut, WritingState};

    ghost Value = { WritingState };

    ghost view = { λ w. record { write = w.call; passes = w.passes } };

    ghost invariant = { λ w. IsAskOf w.ask w.call.ask × IsPut w.call };
}

/// A write of which nothing was sent, and the bytes of its ask.
#[derive(Drop)]
struct Begun {
    call: WriteCall,
    ask: FrameBytes,
}

fn make_begun(
    alloc: Global,
    order: WriteOrder,
    least: u16,
    passes: &PassList,
) -> Result<Begun, OutOfMemory>
    ensures call { IfOk result (λ begun. begun.call ≡ (write_begun order least passes.now).write) }
    ensures ask { IfOk result (λ begun. IsAskOf begun.ask begun.call.ask) }
{
    let bricks = bricks_of(alloc, passes.as_slice())?;
    let call = WriteCall::new(
        alloc,
        bricks,
        least,
        order.nonce,
        order.key,
        order.value,
        order.expiry,
    )?;
    let ask = call.frame(alloc)?;
    Ok(Begun { call, ask })
}

/// What a write came to, if it has its answer.
fn outcome_of(call: WriteCall) -> Option<WriteOutcome>
    ensures { option_map answer_of_write result ≡ write_answer call }
{
    match call.into_answer() {
        Some(Ok(cookie)) => Some(WriteOutcome::Written(cookie)),
        Some(Err(WriteRefusal::Missed(causes))) => Some(WriteOutcome::Missed(causes)),
        Some(Err(WriteRefusal::OutOfMemory)) => unreachable!(),
        None => None,
    }
}

impl SessionWrite {
    /// A write of which nothing was sent yet, to the bricks of these passes, of which so many are to store its value.
    /// It visits each pass a few times, and copies the value once.
    ///
    /// # Errors
    /// There is no memory. The passes are handed back.
    pub fn begin(
        alloc: Global,
        order: WriteOrder,
        least: u16,
        passes: PassList,
    ) -> Result<SessionWrite, PassList>
        ensures begun { IfOk result (λ write. write ≡ write_begun order least passes) }
        ensures back { IfErr result (λ left. left ≡ passes) }
    {
        match make_begun(alloc, order, least, &passes) {
            Ok(Begun { call, ask }) => Ok(SessionWrite { call, ask, passes }),
            Err(OutOfMemory) => Err(passes),
        }
    }

    /// What it wants next until it has its answer, and nothing then. It takes no memory.
    pub fn next_until_answer(&self) -> StubNext
        ensures { result ≡ write_until.next self.now.write }
    {
        self.call.next_until_answer()
    }

    /// What it wants next; nothing once all its bricks were heard. It takes no memory.
    pub fn next(&self) -> StubNext
        ensures { result ≡ write_next self.now.write }
    {
        self.call.next()
    }

    /// The answer; None while there is none, and never that memory was wanted (`ways_have_answers`). The response's
    /// text of a cookie is made from this reference, by `session_cookie::encode_cookie` under the service's key; what
    /// that requires of its bricks is `ways_end_as_calls_do`'s `holders`. The cookie itself comes once the passes are
    /// spent. It takes no memory.
    pub fn answer(&self) -> Option<&Result<Cookie, WriteRefusal>>
        ensures { option_map (λ a. a.now) result ≡ write_answer self.now.write }
    {
        self.call.answer()
    }

    /// The passes by which it asks, as they were taken. It takes no memory.
    pub fn passes(&self) -> &[Pass]
        ensures { result.now ≡ self.now.passes }
    {
        self.passes.as_slice()
    }

    /// A copy of the order of which it was begun, whatever it has heard. It copies the value once.
    ///
    /// # Errors
    /// There is no memory.
    pub fn copy_order(&self, alloc: Global) -> Result<WriteOrder, OutOfMemory>
        ensures { IfOk result (λ order. IsBegunOf order self.now.write) }
    {
        match self.call.ask() {
            Frame::Put {
                nonce,
                key,
                version: _,
                expiry,
                value,
            } => {
                let copy = Vec::from_slice(alloc, value.as_slice())?;
                Ok(WriteOrder {
                    nonce: *nonce,
                    key: *key,
                    value: SessionBytes::from_vec(copy),
                    expiry: *expiry,
                })
            }
            _ => unreachable!(),
        }
    }

    /// Makes the call of the link that the write wants: one send of its ask, or one receive.
    ///
    /// # Errors
    /// There is no memory. The write is as it was; the link may have made the call.
    pub fn step<L: Link>(&mut self, alloc: Global, link: &mut L) -> Result<(), OutOfMemory>
        requires { write_next self.old.write ≢ Ended }
        ensures step { OnOk result (Steps write_machine L.makes (encode_of self.old.write.ask) self.old.write link.old self.new.write link.new) }
        ensures passes { self.new.passes ≡ self.old.passes }
        ensures same { OnErr result (self.new ≡ self.old) }
        ensures want { OnErr result (BreaksOff L.makes (encode_of self.old.write.ask) (write_next self.old.write) link.old link.new) }
    {
        let mut into = FrameBytes::new(alloc);
        write_step(alloc, link, &mut self.call, self.ask.as_slice(), &mut into)
    }

    /// What it came to, if it has its answer, and the passes as they are spent. The passes of a write that was missed
    /// may go into `SessionWay::Holding`, which spends them as the write would. It visits each brick for each pass, and
    /// takes no memory.
    pub fn into_parts(self) -> WriteParts
        ensures outcome { option_map answer_of_write result.outcome ≡ write_answer self.write }
        ensures spent { result.passes ≡ passes_spent self }
        ensures heard { AreHeard result.passes }
    {
        let SessionWrite {
            call,
            ask: _,
            passes,
        } = self;
        let mut passes = passes;
        mark_passes(&mut passes, &call);
        passes.hush();
        let outcome = outcome_of(call);
        WriteParts { outcome, passes }
    }
}
