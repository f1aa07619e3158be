//! One request in a container: its tries that ended, and the attempt that is open.

ghost use Rattle.std.specs.Prelude.{◌≡◌, ◌≢◌, ◌≤◌, List, [], ◌∷◌, ◌++◌, None, Some, IfOk, IfSome, IsErr, OnOk, OnErr};
ghost use Rattle.boot_core.specs.Fits.{FitsIn};
ghost use Rattle.call_ticket.specs.declared.next.Next.TheVariants as next;
ghost use Rattle.container_core.specs.Container.{HasGrownBy, IsButEntered, events_of};
ghost use Rattle.container_core.specs.History.{entries_in};
ghost use Rattle.call_attempts.specs.Attempt.{IsUnderWay, attempt_of};
ghost use Rattle.request_tries.specs.Serving.{IsServing, closed, has_begun, last_entered, unbegun, wanted_by};
ghost use Rattle.request_tries.specs.Steps.{AddsNothing, Advances, AnswersOwn, Brings, CommitsAs, EndsTry, HasAtMostAdvanced, HearsCommit, IfDone, IsRefused, IsStopped, KeepsHistory, KeepsNothing, LeavesBoot, CauseAddsNothing, StepsAs, end_of, ended_at, from_of, front_at, outcome_by, progress_of};

use crate::answers::copied_done_at;
use crate::outcome::{
    Ended, HistoryFront, MAX_TRIES, Progress, RequestOutcome, Try, TryCause, TryList,
};
use call_attempts::{Attempt, Stepped, Stop};
use call_ticket::{Program, calls_follow};
use container_core::{
    ActionEntry, CommitRefusal, Container, DoneText, Journal, Refused, Ticket, histories_grow,
};
use crash_base::{ActionText, ComponentNo, OutOfMemory, PathList, Place, RequestNo, WorkerNo};
use outside::Keeper;
use std::alloc::Global;
use std::marker::Model;
use std::mem;

/// One request in a container: its tries that ended, and the attempt that is open.
#[derive(Drop)]
pub struct RequestTries {
    request: RequestNo,
    worker: WorkerNo,
    text: ActionText,
    tries: TryList,
    attempt: Option<Attempt>,
}

impl Model for RequestTries {
    ghost use Rattle.request_tries.specs.Serving.{TriesValue};

    ghost Value = { TriesValue };

    ghost view = { λ s. record {
      request = s.request;
      worker = s.worker;
      text = s.text;
      tries = s.tries;
      attempt = s.attempt;
    } };
}

/// The history of a container has the entries of its journal.
fn history_is<K: Keeper + Drop>(container: &Container<K>)
    ensures { entries_in container.now.since ≡ container.now.boot.entries }
{
    let _journal = container.journal();
}

/// How far the history of a container has come.
fn front_at<K: Keeper + Drop>(container: &Container<K>) -> HistoryFront
    ensures { result ≡ front_at container.now }
{
    HistoryFront {
        front: Place(container.journal().len()),
        held: container.events(),
    }
}

/// What a step comes to that has ended the request, or else a try alone.
fn progress_of(end: Option<Ended>) -> Progress
    ensures { result ≡ progress_of end }
{
    match end {
        None => Progress::Went,
        Some(ended) => Progress::Ended(ended),
    }
}

/// The end of a request, when the history has come so far.
fn ended_at(
    now: HistoryFront,
    from: Place,
    outcome: RequestOutcome,
    done: Option<DoneText>,
) -> Ended
    ensures { result ≡ ended_at now from outcome done }
{
    Ended {
        outcome,
        from,
        front: now.front,
        held: now.held,
        done,
    }
}

/// The path of a try that failed: the components that it entered, and the one that failed.
fn path_to(entered: PathList, component: ComponentNo) -> Result<PathList, OutOfMemory>
    ensures { IfOk result (λ path. path ≡ entered ++ component ∷ []) }
{
    let mut path = entered;
    path.push(component)?;
    Ok(path)
}

impl RequestTries {
    /// A request that was not begun. It takes no memory.
    pub fn new(
        alloc: Global,
        request: RequestNo,
        worker: WorkerNo,
        text: ActionText,
    ) -> RequestTries
        ensures { result ≡ unbegun request worker text }
    {
        RequestTries {
            request,
            worker,
            text,
            tries: TryList::new(alloc),
            attempt: None,
        }
    }

    /// The number of the request.
    fn request(&self) -> RequestNo
        ensures { result ≡ self.now.request }
    {
        self.request
    }

    /// Who serves it.
    fn worker(&self) -> WorkerNo
        ensures { result ≡ self.now.worker }
    {
        self.worker
    }

    /// An attempt begins with this ticket.
    fn open(&mut self, alloc: Global, ticket: Ticket)
        ensures { self.new ≡ record self.old { attempt = Some (attempt_of ticket) } }
    {
        self.attempt = Some(Attempt::new(alloc, ticket));
    }

    /// Begins an attempt.
    fn begin<K: Keeper + Drop>(
        &mut self,
        alloc: Global,
        container: &mut Container<K>,
    ) -> Result<(), OutOfMemory>
        requires { self.old.attempt ≡ None }
        ensures begun { OnOk result (self.new ≡ has_begun container.old.boot self.old) }
        ensures held { IfSome self.new.attempt (λ a. FitsIn container.new.boot a.ticket.call) }
        ensures same { container.new ≡ container.old }
    {
        let ticket = container.begin(alloc, self.request(), self.worker())?;
        self.open(alloc, ticket);
        Ok(())
    }

    /// Takes the open attempt, which has ended.
    fn close(&mut self) -> Option<Attempt>
        ensures value { result ≡ self.old.attempt }
        ensures closed { self.new ≡ closed self.old }
    {
        mem::replace(&mut self.attempt, None)
    }

    /// A copy of the text of its action.
    fn copied_text(&self, alloc: Global) -> Result<ActionText, OutOfMemory>
        ensures { IfOk result (λ text. text ≡ self.now.text) }
    {
        ActionText::copied(alloc, self.text.as_slice())
    }

    /// Where its first try began; or this place, where the first one began there.
    fn from_of(&self, at: Place) -> Place
        ensures { result ≡ from_of self.now at }
    {
        match self.tries.as_slice() {
            [first, ..] => first.at,
            [] => at,
        }
    }

    /// The outcome of this request, whose last try ended so.
    fn outcome_by(&mut self, alloc: Global, cause: TryCause) -> RequestOutcome
        requires { self.old.attempt ≡ None }
        ensures outcome { result ≡ outcome_by cause self.old.tries }
        ensures closed { self.new.attempt ≡ None }
    {
        let tries = mem::replace(&mut self.tries, TryList::new(alloc));
        match cause {
            TryCause::Revoked(_) => RequestOutcome::Revoked(tries),
            TryCause::Conflict { .. } => RequestOutcome::Conflict(tries),
        }
    }

    /// A try that began at this place has ended without a commit.
    fn end_try(
        &mut self,
        alloc: Global,
        now: HistoryFront,
        at: Place,
        cause: TryCause,
        repeats: bool,
    ) -> Result<Option<Ended>, OutOfMemory>
        requires { self.old.attempt ≡ None }
        ensures ends { IfOk result (λ e. EndsTry now self.old at cause repeats e self.new) }
        ensures closed { self.new.attempt ≡ None }
    {
        let from = self.from_of(at);
        let front = now.front;
        self.tries.push(Try { at, cause, front })?;
        if repeats && self.tries.len() < MAX_TRIES {
            return Ok(None);
        }
        let outcome = self.outcome_by(alloc, cause);
        Ok(Some(ended_at(now, from, outcome, None)))
    }

    /// A commit was refused, of a try that began at this place.
    fn refused(
        &mut self,
        alloc: Global,
        journal: &Journal,
        now: HistoryFront,
        at: Place,
        cause: CommitRefusal,
        repeats: bool,
    ) -> Result<Option<Ended>, OutOfMemory>
        requires { self.old.attempt ≡ None }
        ensures refused { IfOk result (λ e.
            IsRefused now journal.now.entries self.old at cause repeats e self.new) }
        ensures nothing { OnErr result (CauseAddsNothing cause) }
        ensures closed { self.new.attempt ≡ None }
    {
        let from = self.from_of(at);
        let outcome = match cause {
            CommitRefusal::Revoked(stale) => {
                let end = self.end_try(alloc, now, at, TryCause::Revoked(stale), repeats)?;
                return Ok(end);
            }
            CommitRefusal::Conflict(conflict) => {
                let cause = TryCause::Conflict {
                    mark: conflict.mark,
                    newest: conflict.newest,
                };
                let end = self.end_try(alloc, now, at, cause, true)?;
                return Ok(end);
            }
            CommitRefusal::Already { place } => {
                let done = copied_done_at(alloc, journal, place)?;
                let outcome = RequestOutcome::Page { place, again: true };
                return Ok(Some(ended_at(now, from, outcome, done)));
            }
            CommitRefusal::JournalFull(full) => RequestOutcome::JournalFull(full),
            CommitRefusal::KeeperFailed => RequestOutcome::KeeperFailed,
            CommitRefusal::OutOfMemory => return Err(OutOfMemory),
        };
        Ok(Some(ended_at(now, from, outcome, None)))
    }

    /// Hears the answer to the commit of a try that began at this place.
    fn hear_commit(
        &mut self,
        alloc: Global,
        journal: &Journal,
        now: HistoryFront,
        at: Place,
        repeats: bool,
        answer: Result<Place, Refused>,
    ) -> Result<Option<Ended>, OutOfMemory>
        requires { self.old.attempt ≡ None }
        ensures hears { IfOk result (λ e.
            HearsCommit now journal.now.entries self.old at repeats answer e self.new) }
        ensures nothing { OnErr result (AddsNothing answer) }
        ensures closed { self.new.attempt ≡ None }
    {
        match answer {
            Ok(place) => {
                let from = self.from_of(at);
                let outcome = RequestOutcome::Page {
                    place,
                    again: false,
                };
                Ok(Some(ended_at(now, from, outcome, None)))
            }
            Err(refused) => self.refused(alloc, journal, now, at, refused.cause, repeats),
        }
    }

    /// Hears what stopped a try that began at this place, and entered these components.
    fn hear_stop(
        &mut self,
        alloc: Global,
        now: HistoryFront,
        at: Place,
        repeats: bool,
        entered: PathList,
        stop: Stop,
    ) -> Result<Option<Ended>, OutOfMemory>
        requires { self.old.attempt ≡ None }
        ensures stopped { IfOk result (λ e. IsStopped now self.old at repeats entered stop e self.new) }
        ensures closed { self.new.attempt ≡ None }
    {
        match stop {
            Stop::Sentinel { group, down } => {
                let from = self.from_of(at);
                let outcome = RequestOutcome::Sentinel { group, down };
                Ok(Some(ended_at(now, from, outcome, None)))
            }
            Stop::Hung { component, fault } => {
                let from = self.from_of(at);
                let path = path_to(entered, component)?;
                let outcome = RequestOutcome::Hung {
                    component,
                    fault,
                    path,
                };
                Ok(Some(ended_at(now, from, outcome, None)))
            }
            Stop::Raised { component, fault } => {
                let from = self.from_of(at);
                let path = path_to(entered, component)?;
                let outcome = RequestOutcome::Raised {
                    component,
                    fault,
                    path,
                };
                Ok(Some(ended_at(now, from, outcome, None)))
            }
            Stop::Revoked(stale) => {
                self.end_try(alloc, now, at, TryCause::Revoked(stale), repeats)
            }
        }
    }

    /// The open attempt was stopped, and is given up.
    fn stop<K: Keeper + Drop>(
        &mut self,
        alloc: Global,
        container: &mut Container<K>,
        stop: Stop,
    ) -> Result<Option<Ended>, OutOfMemory>
        requires { self.old.attempt ≢ None }
        ensures stops { IfOk result (λ e. IfSome self.old.attempt (λ a. IsStopped (front_at container.old)
            (closed self.old) a.ticket.call.at a.repeats a.entered stop e self.new)) }
        ensures closed { self.new.attempt ≡ None }
        ensures same { container.new ≡ container.old }
    {
        let Some(attempt) = self.close() else {
            unreachable!()
        };
        let repeats = attempt.repeats();
        let (ticket, entered) = attempt.into_parts();
        let at = ticket.at();
        container.abandon(ticket);
        let now = front_at(container);
        self.hear_stop(alloc, now, at, repeats, entered, stop)
    }

    /// Makes the commit of the open attempt, which is done and answers this. The text of the action is copied before,
    /// for another try.
    fn make_commit<K: Keeper + Drop>(
        &mut self,
        alloc: Global,
        container: &mut Container<K>,
        done: DoneText,
    ) -> Result<Option<Ended>, OutOfMemory>
        requires open { self.old.attempt ≢ None }
        requires fits { IfSome self.old.attempt (λ a. FitsIn container.old.boot a.ticket.call) }
        ensures commits { IfOk result (λ e.
            CommitsAs container.old self.old self.old.attempt done e container.new self.new) }
        ensures nothing { OnErr result (KeepsHistory container.old container.new) }
        ensures keeper { OnErr result (KeepsNothing container.old container.new) }
        ensures held { IfSome self.new.attempt (λ a. FitsIn container.new.boot a.ticket.call) }
        ensures closed { OnOk result (self.new.attempt ≡ None) }
        ensures count { container.old.faults ≤ container.new.faults }
        ensures grown { HasGrownBy container.old container.new }
    {
        histories_grow();
        let text = self.copied_text(alloc)?;
        let Some(attempt) = self.close() else {
            unreachable!()
        };
        let repeats = attempt.repeats();
        let ticket = attempt.into_ticket();
        let at = ticket.at();
        let answer = container.commit(alloc, ticket, Some(ActionEntry { text, done }));
        let now = front_at(container);
        self.hear_commit(alloc, container.journal(), now, at, repeats, answer)
    }

    /// Makes the step that the open attempt asks for, if one is open.
    fn advance<K: Keeper + Drop, P: Program>(
        &mut self,
        alloc: Global,
        container: &mut Container<K>,
        program: &P,
    ) -> Result<Option<Stepped>, OutOfMemory>
        requires accepts { P.accepts program.now container.old.boot.start.deployment }
        requires way { IfSome self.old.attempt (λ a. IsUnderWay container.old.boot (P.asks program.now) a) }
        ensures advances { IfOk result (λ came.
            Advances container.old.boot (P.asks program.now) self.old came self.new) }
        ensures held { IfSome self.new.attempt (λ a. FitsIn container.new.boot a.ticket.call) }
        ensures leaves { IfOk result (λ came.
            LeavesBoot container.old (P.asks program.now) self.old.attempt came container.new) }
        ensures but_entered { IsButEntered container.old container.new }
        ensures at_most { OnErr result (HasAtMostAdvanced container.old (P.asks program.now) self.old.attempt
            container.new) }
        ensures grown { HasGrownBy container.old container.new }
    {
        match &mut self.attempt {
            None => Ok(None),
            Some(attempt) => {
                let came = attempt.step(alloc, container, program)?;
                Ok(Some(came))
            }
        }
    }

    /// The component that its last step entered: none where no attempt is open, or where that step entered none. It
    /// takes no memory.
    pub fn last_entered(&self) -> Option<ComponentNo>
        ensures { result ≡ last_entered self.now }
    {
        match &self.attempt {
            None => None,
            Some(attempt) => attempt.last_entered(),
        }
    }

    /// Makes one step of the request: the begin of an attempt, where none is open; or the step that its program asks
    /// for. Where the program is done there is none to make: `Done` is answered, as often as it is asked, until the
    /// attempt is committed by `commit`. Where the request has ended nothing is held. A step adds nothing to the
    /// history, and leaves the container as it was but for how often its components were entered.
    ///
    /// # Errors
    /// Out of memory: the request can only be given up, by `abandon`. The container is then as it was, or as the step
    /// leaves it that was asked for.
    pub fn step<K: Keeper + Drop, P: Program>(
        &mut self,
        alloc: Global,
        container: &mut Container<K>,
        program: &P,
    ) -> Result<Progress, OutOfMemory>
        requires accepts { P.accepts program.now container.old.boot.start.deployment }
        requires serving { IsServing container.old.boot (P.asks program.now) self.old }
        ensures steps { IfOk result (λ to.
            StepsAs container.old (P.asks program.now) self.old self.old.attempt to container.new self.new) }
        ensures brings { IfOk result (λ to.
            Brings container.old container.new (P.asks program.now) self.old self.new (end_of to)) }
        ensures done { IfOk result (λ to. IfDone to (λ done. (self.new ≡ self.old)
            × (wanted_by (P.asks program.now) self.new ≡ Some (next.Done done)) × (container.new ≡ container.old))) }
        ensures but_entered { IsButEntered container.old container.new }
        ensures at_most { OnErr result (HasAtMostAdvanced container.old (P.asks program.now) self.old.attempt
            container.new) }
        ensures held { IfSome self.new.attempt (λ a. FitsIn container.new.boot a.ticket.call) }
        ensures ended { IfOk result (λ to. end_of to ≢ None → self.new.attempt ≡ None) }
        ensures grown { HasGrownBy container.old container.new }
    {
        histories_grow();
        history_is(container);
        match self.advance(alloc, container, program)? {
            None => {
                self.begin(alloc, container)?;
                Ok(Progress::Went)
            }
            Some(came) => match came {
                Stepped::Went => Ok(Progress::Went),
                Stepped::Done(done) => Ok(Progress::Done(done)),
                Stepped::Stopped(stop) => {
                    let end = self.stop(alloc, container, stop)?;
                    Ok(progress_of(end))
                }
            },
        }
    }

    /// Commits the open attempt, whose program is done and answers this, by one call of the container. The program is
    /// asked nothing: it tells whose answer this is. Then no attempt is open. Some is answered where the request has
    /// ended; else another try is to be made, by `step`. The history has grown by just what `Brings` says.
    ///
    /// What the caller wants memory for to show a page of its own, it can take before, of `done`: once the entry was
    /// added, Ok is answered, and the entry answers just `done`. What an earlier entry answers is copied after the
    /// commit was refused, and so has added nothing.
    ///
    /// # Errors
    /// Out of memory: then nothing was added to the history, and the request can only be given up, by `abandon`.
    pub fn commit<K: Keeper + Drop, P: Program>(
        &mut self,
        alloc: Global,
        container: &mut Container<K>,
        program: &P,
        done: DoneText,
    ) -> Result<Option<Ended>, OutOfMemory>
        requires accepts { P.accepts program.now container.old.boot.start.deployment }
        requires serving { IsServing container.old.boot (P.asks program.now) self.old }
        requires done { wanted_by (P.asks program.now) self.old ≡ Some (next.Done done) }
        ensures commits { IfOk result (λ e.
            CommitsAs container.old self.old self.old.attempt done e container.new self.new) }
        ensures brings { IfOk result (λ e.
            Brings container.old container.new (P.asks program.now) self.old self.new e) }
        ensures answers { IfOk result (λ e. IfSome e (AnswersOwn (events_of container.new) done)) }
        ensures nothing { OnErr result (KeepsHistory container.old container.new) }
        ensures keeper { OnErr result (KeepsNothing container.old container.new) }
        ensures held { IfSome self.new.attempt (λ a. FitsIn container.new.boot a.ticket.call) }
        ensures closed { OnOk result (self.new.attempt ≡ None) }
        ensures count { container.old.faults ≤ container.new.faults }
        ensures grown { HasGrownBy container.old container.new }
    {
        calls_follow();
        history_is(container);
        self.make_commit(alloc, container, done)
    }

    /// Gives up what it holds: the call of the open attempt, if one is open. Nothing else changes. It takes no memory.
    pub fn abandon<K: Keeper + Drop>(&mut self, container: &mut Container<K>)
        ensures closed { self.new ≡ closed self.old }
        ensures same { container.new ≡ container.old }
        ensures grown { HasGrownBy container.old container.new }
    {
        histories_grow();
        if let Some(attempt) = self.close() {
            container.abandon(attempt.into_ticket());
        }
    }
}
