//! A request from its decision to the end of its way: what is wanted for it next, and what each step leaves.

ghost use Rattle.std.specs.Prelude.{◌≡◌, Some};
ghost use Rattle.request_visit.specs.Visits.{last_entered, or_over, or_own, turn, turn_by};

use crate::facts::VisitFacts;
use crate::ready::Shown;
use crash_base::{ComponentNo, Place, ResponseBytes};
use outcome_items::{Holds, ItemOutcome};
use outside::LinkCounts;
use request_tries::RequestTries;
use session_cookie::Cookie;
use session_way::{SessionLease, SessionWay, Wants};
use std::mem;

/// What became of a request, as far as it is told before its way has come to its end.
#[derive(Drop)]
pub enum Fate {
    /// This became of it.
    Known(ItemOutcome),
    /// It is committed, by an earlier call of it where `again` is true, and its session is written: what came of
    /// that is told when the passes are spent.
    Writing { place: Place, again: bool },
}

/// How far a request has come.
#[derive(Drop)]
pub enum Work<P> {
    /// Its session is read.
    Reading,
    /// Its session is known, and its program is to be made.
    Opening,
    /// It is served in the container, by this program.
    Serving(RequestTries, P),
    /// It is committed, and its session is written; then this is shown.
    Committed {
        place: Place,
        again: bool,
        shown: Shown,
    },
    /// This became of it, and its response is to be made.
    Decided(ItemOutcome),
    /// Its response is made.
    Answered(Fate, ResponseBytes),
    /// Its response has left.
    Left(Fate),
}

/// Whose step is next.
#[derive(Clone, Copy)]
pub enum Turn {
    /// One call of the link.
    Outside,
    /// One call of the windows.
    Windows,
    /// One call of the container.
    Inside,
    /// The program of the request is to be given.
    Program,
    /// What was heard is to be taken in, or a response made: nobody else is asked.
    Own,
    /// The response is to leave.
    Output,
    /// Nothing is left to be done.
    Over,
}

/// A request on its way: all is plain data, so that each step is told as what it leaves.
#[derive(Drop)]
pub struct Visit<P> {
    /// What was known of it at its begin.
    pub facts: VisitFacts,
    /// How far the container had come when it was held for it.
    pub holds: Holds,
    /// What the link had counted after its last call for it.
    pub counts: LinkCounts,
    /// Its session, where that was read.
    pub lease: Option<SessionLease>,
    /// The cookie of its session, where that was written.
    pub cookie: Option<Cookie>,
    /// What is done with its session.
    pub way: SessionWay,
    /// How far it has come.
    pub work: Work<P>,
}

/// Whose step is next for a session, and its request's own where it is nobody's.
fn or_own(wants: Wants) -> Turn
    ensures { result ≡ or_own wants }
{
    match wants {
        Wants::Nothing => Turn::Own,
        Wants::Outside => Turn::Outside,
        Wants::Windows => Turn::Windows,
    }
}

/// Whose step is next for a session, after which nothing is left.
fn or_over(wants: Wants) -> Turn
    ensures { result ≡ or_over wants }
{
    match wants {
        Wants::Nothing => Turn::Over,
        Wants::Outside => Turn::Outside,
        Wants::Windows => Turn::Windows,
    }
}

impl<P> Work<P> {
    /// Whose step is next, where the session wants this.
    fn turn(&self, wants: Wants) -> Turn
        ensures { result ≡ turn_by self.now wants }
    {
        match self {
            Work::Reading => or_own(wants),
            Work::Opening => Turn::Program,
            Work::Serving(_, _) => Turn::Inside,
            Work::Committed { .. } => or_own(wants),
            Work::Decided(_) => Turn::Own,
            Work::Answered(_, _) => Turn::Output,
            Work::Left(_) => or_over(wants),
        }
    }

    /// The component that its last step entered, if it entered one.
    fn last_entered(&self) -> Option<ComponentNo>
        ensures { result ≡ last_entered self.now }
    {
        match self {
            Work::Serving(tries, _) => tries.last_entered(),
            _ => None,
        }
    }
}

impl<P> Visit<P> {
    /// Whose step is next. It takes no memory.
    pub fn turn(&self) -> Turn
        ensures { result ≡ turn self.now }
    {
        self.work.turn(self.way.wants())
    }

    /// The component that its last step entered: none where it is not in the container, or that step entered none. It
    /// takes no memory.
    pub fn last_entered(&self) -> Option<ComponentNo>
        ensures { result ≡ last_entered self.now.work }
    {
        self.work.last_entered()
    }
}

impl<P: Drop> Visit<P> {
    /// It has come so far.
    pub(crate) fn set_work(&mut self, work: Work<P>)
        ensures { self.new ≡ record self.old { work = work } }
    {
        drop(mem::replace(&mut self.work, work));
    }

    /// This is done with its session.
    pub(crate) fn set_way(&mut self, way: SessionWay)
        ensures { self.new ≡ record self.old { way = way } }
    {
        drop(mem::replace(&mut self.way, way));
    }

    /// Its session, or none.
    pub(crate) fn set_lease(&mut self, lease: SessionLease)
        ensures { self.new ≡ record self.old { lease = Some lease } }
    {
        self.lease = Some(lease);
    }

    /// The cookie of its session.
    pub(crate) fn set_cookie(&mut self, cookie: Cookie)
        ensures { self.new ≡ record self.old { cookie = Some cookie } }
    {
        self.cookie = Some(cookie);
    }

    /// Takes its work, for which another is to be set.
    pub(crate) fn take_work(&mut self) -> Work<P>
        ensures taken { result ≡ self.old.work }
        ensures left { self.new ≡ record self.old { work = Work.Opening } }
    {
        mem::replace(&mut self.work, Work::Opening)
    }

    /// Takes what is done with its session, so that nothing is.
    pub(crate) fn take_way(&mut self) -> SessionWay
        ensures taken { result ≡ self.old.way }
        ensures left { self.new ≡ record self.old { way = SessionWay.Resting } }
    {
        mem::replace(&mut self.way, SessionWay::Resting)
    }
}
