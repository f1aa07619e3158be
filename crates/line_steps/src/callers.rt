//! Callers of a scenario.

ghost use Rattle.std.specs.Prelude.{◌≡◌, ◌<◌, ◌≤◌, [], length, slice_set, IfOk, OnOk, OnErr, MatchOption};
ghost use Rattle.boot_core.specs.Boot.{BootValue};
ghost use Rattle.boot_core.specs.Fits.{FitsIn};
ghost use Rattle.scenario_text.specs.Answer.{KeepsRefused, answer_of};
ghost use Rattle.container_core.specs.Container.{IsButEntered};
ghost use Rattle.line_steps.specs.CallLines.{done_in};
ghost use Rattle.line_steps.specs.Callers.{caller_at, padded, request_of, is_live, can_begin, caller_line, call_step, AllFit, FitsCaller, IsAway, TakesCall};
ghost use Rattle.line_steps.specs.declared.callers.Caller.TheVariants.{Live, Absent};

use crate::call_lines::call_line;
use boot_core::Ticket;
use container_core::Container;
use crash_base::{OutOfMemory, RequestNo};
use outside::Keeper;
use scenario_text::{CallLine, LineAnswer, MAX_CALLER};
use std::alloc::Global;
use std::marker::Model;
use std::mem;

/// What a caller has in hand.
#[derive(Drop)]
pub enum Caller {
    /// No call: it has not begun one in this boot, or its last one has ended.
    Absent,
    /// A call, which has not ended.
    Live(Ticket),
}

/// The callers, by their numbers. Those past the end have no call.
#[derive(Drop)]
pub struct Callers {
    callers: Vec<Caller>,
}

impl Model for Callers {
    ghost use Rattle.std.specs.Prelude.{List};
    ghost use Rattle.line_steps.specs.declared.callers.Caller.{Caller};

    ghost Value = { List Caller };

    ghost view = { λ a. a.callers.items };
}

/// The request that a caller makes in a boot.
pub fn request_of(boot: u32, caller: u64) -> RequestNo
    requires { caller ≤ MAX_CALLER }
    ensures { result ≡ request_of boot caller }
{
    RequestNo {
        boot,
        serial: (1 << 63) + caller,
    }
}

/// Whether a caller has a call that has not ended.
fn is_live(caller: &Caller) -> bool
    ensures { result ≡ is_live caller.now }
{
    match caller {
        Caller::Live(_) => true,
        Caller::Absent => false,
    }
}

/// A line of a caller's call, if it is live.
fn caller_line<K: Keeper + Drop>(
    alloc: Global,
    container: &mut Container<K>,
    caller: &mut Caller,
    number: u64,
    line: CallLine,
) -> Result<LineAnswer, OutOfMemory>
    requires { FitsCaller container.old.boot caller.old }
    ensures answer { IfOk result (λ a. answer_of a (done_in container.new.boot caller.new)
        ≡ caller_line container.old.boot number line caller.old) }
    ensures refused { IfOk result (λ a. KeepsRefused a (done_in container.old.boot caller.old)
        (done_in container.new.boot caller.new)) }
    ensures fits { FitsCaller container.new.boot caller.new }
    ensures but_entered { IsButEntered container.old container.new }
    ensures memory { OnErr result (container.new ≡ container.old) }
{
    match caller {
        Caller::Live(ticket) => call_line(alloc, container, ticket, number, line),
        Caller::Absent => Ok(LineAnswer::Refused),
    }
}

/// Takes a caller's call, if it is live: it has ended.
fn take(caller: &mut Caller) -> Option<Ticket>
    ensures { MatchOption result ((caller.new ≡ caller.old) × IsAway caller.old)
        (λ ticket. (caller.old ≡ Live ticket) × (caller.new ≡ Absent)) }
{
    match mem::replace(caller, Caller::Absent) {
        Caller::Live(ticket) => Some(ticket),
        Caller::Absent => None,
    }
}

/// Makes a place for each number up to this one.
fn pad(callers: &mut Vec<Caller>, number: u64) -> Result<(), OutOfMemory>
    ensures padded { OnOk result (callers.new.items ≡ padded callers.old.items number) }
    ensures fits { (b : BootValue) → AllFit b callers.old.items → AllFit b callers.new.items }
{
    while callers.len() as u64 <= number {
        callers.push(Caller::Absent)?;
    }
    Ok(())
}

impl Callers {
    /// No caller has begun. It takes no memory.
    pub fn new(alloc: Global) -> Callers
        ensures { result ≡ [] }
    {
        Callers {
            callers: Vec::new(alloc),
        }
    }

    /// Whether a caller may begin a call. It visits that caller.
    pub fn can_begin(&self, number: u64) -> bool
        ensures { result ≡ can_begin self.now number }
    {
        if number > MAX_CALLER {
            return false;
        }
        if number >= self.callers.len() as u64 {
            return true;
        }
        !is_live(&self.callers[number as usize])
    }

    /// Makes a place for each number up to this one that has none. Where memory ran out, there may be places for some
    /// of them.
    pub fn pad(&mut self, number: u64) -> Result<(), OutOfMemory>
        ensures padded { OnOk result (self.new ≡ padded self.old number) }
        ensures fits { (b : BootValue) → AllFit b self.old → AllFit b self.new }
    {
        pad(&mut self.callers, number)?;
        Ok(())
    }

    /// Gives a caller that has a place this call.
    pub fn put(&mut self, number: u64, ticket: Ticket)
        requires { number < length self.old }
        ensures { self.new ≡ slice_set self.old number (Live ticket) }
    {
        self.callers[number as usize] = Caller::Live(ticket);
    }

    /// A line of a live call. It visits that caller. Where memory ran out, the container is as it was.
    #[tactic(auto, unfolding(crate::specs::Callers::call_step))]
    pub fn call_step<K: Keeper + Drop>(
        &mut self,
        alloc: Global,
        container: &mut Container<K>,
        number: u64,
        line: CallLine,
    ) -> Result<LineAnswer, OutOfMemory>
        requires { AllFit container.old.boot self.old }
        ensures answer { IfOk result (λ a. answer_of a (done_in container.new.boot self.new)
            ≡ call_step container.old.boot self.old number line) }
        ensures refused { IfOk result (λ a. KeepsRefused a (done_in container.old.boot self.old)
            (done_in container.new.boot self.new)) }
        ensures fits { AllFit container.new.boot self.new }
        ensures but_entered { IsButEntered container.old container.new }
        ensures memory { OnErr result (container.new ≡ container.old) }
    {
        if number >= self.callers.len() as u64 {
            return Ok(LineAnswer::Refused);
        }
        let caller = &mut self.callers[number as usize];
        let answer = caller_line(alloc, container, caller, number, line)?;
        Ok(answer)
    }

    /// Takes a caller's call, which ends. None exactly where no call of the caller is live.
    pub fn take(&mut self, number: u64) -> Option<Ticket>
        ensures { MatchOption result
            ((self.new ≡ self.old) × IsAway (caller_at self.old number))
            (λ ticket. TakesCall self.old self.new number ticket) }
    {
        if number >= self.callers.len() as u64 {
            return None;
        }
        take(&mut self.callers[number as usize])
    }
}
