//! The way of a request with its session, stage by stage.

ghost use Rattle.std.specs.Prelude.{◌≡◌, ◌++◌, map, IfOk, IfErr, OnOk, OnErr};
ghost use Rattle.std.specs.Option.{option_map};
ghost use Rattle.send_windows.specs.Passes.{hushed};
ghost use Rattle.send_windows.specs.Windows.{AreTaken, RefusedAs, after_spend, taken};
ghost use Rattle.ssm_stub.specs.Writes.{write_answer};
ghost use Rattle.session_way.specs.Marks.{marks_by, refusal_marks};
ghost use Rattle.session_way.specs.Way.{BreaksOffOutside, IsRefused, StepsOutside, StepsWindows, after_give_back, answer_held, held, outside_or, passes_for, settled, wants};
ghost use Rattle.session_way.specs.Writing.{answer_of_write, passes_spent, write_begun};

use crate::session_read::SessionRead;
use crate::session_write::{SessionWrite, WriteOrder, WriteOutcome, WriteParts};
use crash_base::OutOfMemory;
use outside::Link;
use send_windows::{PassList, TakeRefusal, Windows};
use ssm_stub::StubNext;
use std::alloc::Global;
use std::mem;

/// Where a request stands with its session.
#[derive(Drop)]
pub enum SessionWay {
    /// Nothing is done with it.
    Resting,
    /// It is read by its cookie, until the read has its answer.
    Reading(SessionRead),
    /// It is to be written, and passes are to be taken for that.
    Ordered(WriteOrder),
    /// It is written, until the write has its answer.
    Writing(SessionWrite),
    /// The response has left: the bricks that are left are heard, and then the passes are spent.
    Settling(SessionWrite),
    /// Passes are held, and nothing more is asked by them: there was no memory for their write to begin, or it was
    /// taken apart. They are to be spent.
    Holding(PassList),
}

/// Whose step is next.
#[derive(Clone, Copy)]
pub enum Wants {
    /// Nobody's: the stage has come to its end.
    Nothing,
    /// One call of the link.
    Outside,
    /// One call of the windows.
    Windows,
}

/// A call of the link where a call of the stub wants one, and else this.
fn outside_or(wants: Wants, next: StubNext) -> Wants
    ensures { result ≡ outside_or wants next }
{
    match next {
        StubNext::Send { .. } => Wants::Outside,
        StubNext::Receive { .. } => Wants::Outside,
        StubNext::Ended => wants,
    }
}

/// Spends passes of which nothing more is known, each unheard one as Silent.
fn spend_hushed(windows: &mut Windows, passes: PassList)
    ensures { windows.new ≡ after_spend windows.old (map hushed passes) }
{
    let mut passes = passes;
    passes.hush();
    windows.spend(passes);
}

/// Spends the passes of a write, and gives what the write came to.
fn spend_write(windows: &mut Windows, write: SessionWrite) -> Option<WriteOutcome>
    ensures after { windows.new ≡ after_spend windows.old (passes_spent write) }
    ensures answer { option_map answer_of_write result ≡ write_answer write.write }
{
    let WriteParts { outcome, passes } = write.into_parts();
    windows.spend(passes);
    outcome
}

/// Takes passes for a write of this order, and begins it. Err hands the passes back, where there was no memory for
/// that.
fn begin(
    alloc: Global,
    order: WriteOrder,
    windows: &mut Windows,
) -> Result<Result<SessionWrite, PassList>, TakeRefusal>
    ensures begun { IfOk result (λ begun. IfOk begun (λ write. write ≡ write_begun order windows.old.wq (passes_for order windows.old))) }
    ensures back { IfOk result (λ begun. IfErr begun (λ left. left ≡ passes_for order windows.old)) }
    ensures after { OnOk result (windows.new ≡ taken windows.old (passes_for order windows.old)) }
    ensures lawful { OnOk result (AreTaken windows.old.wq windows.old.w (passes_for order windows.old)) }
    ensures refused { IfErr result (RefusedAs windows.old windows.new) }
{
    let least = windows.wq();
    let passes = windows.take(alloc, order.nonce.serial)?;
    Ok(SessionWrite::begin(alloc, order, least, passes))
}

/// Puts what is done with a session in place of what was, which is let go.
fn put(way: &mut SessionWay, next: SessionWay)
    ensures { way.new ≡ next }
{
    drop(mem::replace(way, next));
}

impl SessionWay {
    /// Whose step is next. It takes no memory.
    pub fn wants(&self) -> Wants
        ensures { result ≡ wants self.now }
    {
        match self {
            SessionWay::Resting => Wants::Nothing,
            SessionWay::Reading(read) => outside_or(Wants::Nothing, read.next()),
            SessionWay::Ordered(_) => Wants::Windows,
            SessionWay::Writing(write) => outside_or(Wants::Nothing, write.next_until_answer()),
            SessionWay::Settling(write) => outside_or(Wants::Windows, write.next()),
            SessionWay::Holding(_) => Wants::Windows,
        }
    }

    /// Makes one call of the link, a send or a receive: the one that the read or the write wants.
    ///
    /// # Errors
    /// There is no memory. The way is as it was; the link may have made the call.
    pub fn step_outside<L: Link>(&mut self, alloc: Global, link: &mut L) -> Result<(), OutOfMemory>
        requires { wants self.old ≡ Wants.Outside }
        ensures step { OnOk result (StepsOutside L.makes self.old link.old self.new link.new) }
        ensures same { OnErr result (self.new ≡ self.old) }
        ensures want { OnErr result (BreaksOffOutside L.makes self.old link.old link.new) }
    {
        match self {
            SessionWay::Resting => unreachable!(),
            SessionWay::Reading(read) => read.step(alloc, link),
            SessionWay::Ordered(_) => unreachable!(),
            SessionWay::Writing(write) => write.step(alloc, link),
            SessionWay::Settling(write) => write.step(alloc, link),
            SessionWay::Holding(_) => unreachable!(),
        }
    }

    /// The call of the windows that is wanted.
    fn call_windows(
        &mut self,
        alloc: Global,
        windows: &mut Windows,
    ) -> Result<Option<WriteOutcome>, TakeRefusal>
        requires { wants self.old ≡ Wants.Windows }
        ensures step { OnOk result (StepsWindows self.old windows.old self.new windows.new) }
        ensures answer { IfOk result (λ outcome. option_map answer_of_write outcome ≡ answer_held self.old) }
        ensures refused { IfErr result (IsRefused self.old windows.old self.new windows.new) }
    {
        match mem::replace(self, SessionWay::Resting) {
            SessionWay::Resting => unreachable!(),
            SessionWay::Reading(_) => unreachable!(),
            SessionWay::Ordered(order) => {
                let begun = begin(alloc, order, windows)?;
                match begun {
                    Ok(write) => {
                        put(self, SessionWay::Writing(write));
                        Ok(None)
                    }
                    Err(passes) => {
                        put(self, SessionWay::Holding(passes));
                        Err(TakeRefusal::OutOfMemory)
                    }
                }
            }
            SessionWay::Writing(_) => unreachable!(),
            SessionWay::Settling(write) => Ok(spend_write(windows, write)),
            SessionWay::Holding(passes) => {
                spend_hushed(windows, passes);
                Ok(None)
            }
        }
    }

    /// One call of the windows. Where a write is to begin, passes are taken for it, from the serial of its nonce on,
    /// and the write begins to their bricks. Where passes are held, they are spent, as `give_back` does, and what their
    /// write came to is given, if there was one.
    ///
    /// # Errors
    /// None where passes are held. Else as of `Windows::take`, after which nothing is held. `OutOfMemory` also where
    /// passes were taken and there was no memory for the write to begin: they are held then.
    pub fn step_windows(
        &mut self,
        alloc: Global,
        windows: &mut Windows,
    ) -> Result<Option<WriteOutcome>, TakeRefusal>
        requires { wants self.old ≡ Wants.Windows }
        ensures step { OnOk result (StepsWindows self.old windows.old self.new windows.new) }
        ensures answer { IfOk result (λ outcome. option_map answer_of_write outcome ≡ answer_held self.old) }
        ensures marks { OnOk result (windows.new.history ≡ windows.old.history ++ marks_by self.old self.new) }
        ensures refused { IfErr result (IsRefused self.old windows.old self.new windows.new) }
        ensures refusal { IfErr result (λ refusal. windows.new.history
            ≡ windows.old.history ++ refusal_marks refusal self.old self.new) }
    {
        self.call_windows(alloc, windows)
    }

    /// The response has left: a write is settled from now on. It changes no other stage.
    pub fn settle(&mut self)
        ensures { self.new ≡ settled self.old }
    {
        match mem::replace(self, SessionWay::Resting) {
            SessionWay::Writing(write) => put(self, SessionWay::Settling(write)),
            other => put(self, other),
        }
    }

    /// Gives back what is held, at any stage: the passes are spent by what was heard of their bricks, an unheard one as
    /// Silent; and what their write came to, if it has its answer. One call of the windows where passes are held, and
    /// none else. It takes no memory.
    pub fn give_back(&mut self, windows: &mut Windows) -> Option<WriteOutcome>
        ensures windows { windows.new ≡ after_give_back windows.old (held self.old) }
        ensures answer { option_map answer_of_write result ≡ answer_held self.old }
        ensures rests { self.new ≡ SessionWay.Resting }
        ensures marks { windows.new.history ≡ windows.old.history ++ marks_by self.old self.new }
    {
        match mem::replace(self, SessionWay::Resting) {
            SessionWay::Writing(write) => spend_write(windows, write),
            SessionWay::Settling(write) => spend_write(windows, write),
            SessionWay::Holding(passes) => {
                spend_hushed(windows, passes);
                None
            }
            SessionWay::Resting => None,
            SessionWay::Reading(_) => None,
            SessionWay::Ordered(_) => None,
        }
    }
}
