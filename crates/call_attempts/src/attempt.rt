//! An attempt: a call that follows a program.

ghost use Rattle.std.specs.Prelude.{◌≡◌, ◌&&◌, ◌++◌, IfOk, OnOk, OnErr};
ghost use Rattle.std.specs.Option.{option_to_list};
ghost use Rattle.call_ticket.specs.Following.{Follows, MayMake};
ghost use Rattle.call_ticket.specs.Repeated.{may_repeat};
ghost use Rattle.boot_core.specs.Fits.{FitsIn};
ghost use Rattle.container_core.specs.Container.{HasGrownBy, IsButEntered, with_boot};
ghost use Rattle.call_attempts.specs.Attempt.{HasAtMostMade, HasStepped, IsUnderWay, boot_left, entered_in, rows_at_begin, attempt_of, last_entered, wanted};

use crate::steps::{Made, make};
use crate::stop::Stop;
use boot_core::{DoneText, Ticket};
use call_ticket::{Answer, AnswerList, Next, Program, calls_follow};
use container_core::{Container, histories_grow};
use crash_base::{ComponentNo, OutOfMemory, PathList};
use deployment::Deployment;
use outside::Keeper;
use std::alloc::Global;
use std::marker::Model;

/// What a step of an attempt comes to.
#[derive(Drop)]
pub enum Stepped {
    /// The attempt goes on.
    Went,
    /// The call is done, and answers this where it commits.
    Done(DoneText),
    /// A reboot stopped the attempt, or a component that fails.
    Stopped(Stop),
}

/// A call that follows a program: its ticket, the answers that it had so far, whether each step that it made may be
/// made again, and the components that it entered, in order.
#[derive(Drop)]
pub struct Attempt {
    ticket: Ticket,
    answers: AnswerList,
    repeats: bool,
    entered: PathList,
}

impl Model for Attempt {
    ghost use Rattle.call_attempts.specs.Attempt.{AttemptValue};

    ghost Value = { AttemptValue };

    ghost view = { λ a. record {
      ticket = a.ticket;
      answers = a.answers;
      repeats = a.repeats;
      entered = a.entered;
    } };
}

/// The step that a program asks for after these answers, which the call may make.
fn ask<K: Keeper + Drop, P: Program>(
    alloc: Global,
    container: &Container<K>,
    program: &P,
    ticket: &Ticket,
    answers: &AnswerList,
) -> Result<Next, OutOfMemory>
    requires accepts { P.accepts program.now container.now.boot.start.deployment }
    requires follows { Follows (P.asks program.now) (rows_at_begin container.now.boot ticket.now.call)
        answers.now ticket.now.call }
    ensures asked { IfOk result (λ next. next ≡ P.asks program.now answers.now) }
    ensures may { IfOk result (λ next.
        MayMake container.now.boot.start.deployment ticket.now.call next) }
{
    calls_follow();
    let next = program.next(alloc, answers)?;
    Ok(next)
}

/// Whether a step may be made again.
fn may_repeat(deployment: &Deployment, next: &Next) -> bool
    ensures { result ≡ may_repeat deployment.now next.now }
{
    match next {
        Next::Enter { component, method } => deployment.idempotent(*component, *method),
        _ => true,
    }
}

/// Whether all steps so far may be made again, and this one too.
fn repeats_after(repeats: bool, deployment: &Deployment, next: &Next) -> bool
    ensures { result ≡ repeats && may_repeat deployment.now next.now }
{
    repeats && may_repeat(deployment, next)
}

/// The component that a step enters, if it enters one.
fn component_in(next: &Next) -> Option<ComponentNo>
    ensures { option_to_list result ≡ entered_in next.now }
{
    match next {
        Next::Enter { component, .. } => Some(*component),
        _ => None,
    }
}

/// Adds the component that a step entered, if it entered one.
fn add_entered(entered: &mut PathList, component: Option<ComponentNo>) -> Result<(), OutOfMemory>
    ensures { OnOk result (entered.new ≡ entered.old ++ option_to_list component) }
{
    if let Some(component) = component {
        entered.push(component)?;
    }
    Ok(())
}

impl Attempt {
    /// An attempt that begins with this ticket. It takes no memory.
    pub fn new(alloc: Global, ticket: Ticket) -> Attempt
        ensures { result ≡ attempt_of ticket }
    {
        Attempt {
            ticket,
            answers: AnswerList::new(alloc),
            repeats: true,
            entered: PathList::new(alloc),
        }
    }

    /// The ticket, to commit the call or to give it up. It takes no memory.
    pub fn into_ticket(self) -> Ticket
        ensures { result ≡ self.ticket }
    {
        self.ticket
    }

    /// The ticket, to give the call up, and the components that it entered, in order. It takes no memory.
    pub fn into_parts(self) -> (Ticket, PathList)
        ensures { result ≡ (self.ticket, self.entered) }
    {
        (self.ticket, self.entered)
    }

    /// Whether each step that it made may be made again: no method that it entered says otherwise.
    pub fn repeats(&self) -> bool
        ensures { result ≡ self.now.repeats }
    {
        self.repeats
    }

    /// The component that its last step entered, if it entered one. It takes no memory.
    pub fn last_entered(&self) -> Option<ComponentNo>
        ensures { result ≡ last_entered self.now }
    {
        match self.answers.as_slice().last() {
            Some(Answer::Entered) => self.entered.as_slice().last().copied(),
            _ => None,
        }
    }

    /// Makes the step that the program asks for next, by one call of the container, or none where the program is done.
    /// It takes what `Program::next` and the step take, and room for the answer and for a component that is entered.
    ///
    /// # Errors
    /// Out of memory. The attempt can then only be given up, by `into_ticket`; and where the step was answered before
    /// that, the container is as it leaves it.
    pub fn step<K: Keeper + Drop, P: Program>(
        &mut self,
        alloc: Global,
        container: &mut Container<K>,
        program: &P,
    ) -> Result<Stepped, OutOfMemory>
        requires accepts { P.accepts program.now container.old.boot.start.deployment }
        requires under_way { IsUnderWay container.old.boot (P.asks program.now) self.old }
        ensures stepped { IfOk result (λ came.
            HasStepped container.old.boot (P.asks program.now) self.old came self.new) }
        ensures leaves { IfOk result (λ came. container.new
            ≡ with_boot container.old (boot_left container.old.boot (wanted (P.asks program.now) self.old) came)) }
        ensures but_entered { IsButEntered container.old container.new }
        ensures at_most { OnErr result (HasAtMostMade container.old (wanted (P.asks program.now) self.old)
            container.new) }
        ensures under_way { OnOk result (IsUnderWay container.new.boot (P.asks program.now) self.new) }
        ensures fits { FitsIn container.new.boot self.new.ticket.call }
        ensures grown { HasGrownBy container.old container.new }
    {
        histories_grow();
        let next = ask(alloc, container, program, &self.ticket, &self.answers)?;
        let repeats = repeats_after(self.repeats, container.deployment(), &next);
        let component = component_in(&next);
        match make(alloc, container, &mut self.ticket, next)? {
            Made::Answered(answer) => {
                self.repeats = repeats;
                self.answers.push(answer)?;
                add_entered(&mut self.entered, component)?;
                Ok(Stepped::Went)
            }
            Made::Done(done) => Ok(Stepped::Done(done)),
            Made::Stopped(stop) => Ok(Stepped::Stopped(stop)),
        }
    }
}
