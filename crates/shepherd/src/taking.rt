//! How a request is taken off the bytes of a connection.

ghost use Rattle.std.specs.Prelude.{◌≡◌, ◌≤◌, true, IfOk, OnErr, OnOk};
ghost use Rattle.outcome_items.specs.Answers.{is_head_only};
ghost use Rattle.request_visit.specs.Stepping.{counted};
ghost use Rattle.site_responses.specs.Responses.{last_response};
ghost use Rattle.shepherd.specs.Shepherds.{turn};
ghost use Rattle.shepherd.specs.Steps.{TakesRequest, admitted_visit, bare_facts, begun_by, facts_of};
ghost use Rattle.shepherd.specs.declared.shepherd.Stage.TheVariants.{Refusing};

use crate::shepherd::{AskedCall, Shepherd, ShepherdTurn, Stage};
use crash_base::{Moment, OutOfMemory, Place, RequestNo, SessionKey, Version};
use http_wire::{Head, MethodKind, Taken};
use outcome_items::ItemOutcome;
use outside::{Clock, Link, LinkCounts, Random, Serials};
use request_intake::{Admission, Arrival, HomeBoot, Intake, take_in};
use request_visit::{Visit, VisitFacts};
use site_responses::{Untaken, untaken_response};
use site_routes::SiteRouter;
use std::alloc::Global;
use std::mem;

/// Whether a request asks for the head of its response alone.
fn is_head_only(method: MethodKind) -> bool
    ensures { result ≡ is_head_only method }
{
    match method {
        MethodKind::HeadOnly => true,
        MethodKind::Get | MethodKind::Post | MethodKind::Other => false,
    }
}

/// What is known of a request that is not served.
fn bare_facts(request: Option<RequestNo>, now: Moment, front: Place, head: &Head) -> VisitFacts
    ensures { result ≡ bare_facts request now front head.now }
{
    VisitFacts {
        request,
        now,
        key: SessionKey([0; 16]),
        write: Version {
            node: 0,
            boot: 0,
            serial: 0,
        },
        front,
        close: head.close,
        head_only: is_head_only(head.method),
    }
}

/// What is known of a request that is served.
fn facts_of(admission: &Admission, now: Moment, front: Place, head: &Head) -> VisitFacts
    ensures { result ≡ facts_of admission.now now front head.now }
{
    VisitFacts {
        request: Some(admission.request),
        now,
        key: admission.call.call().key,
        write: admission.write,
        front,
        close: head.close,
        head_only: is_head_only(head.method),
    }
}

/// A request that is served begins: its session is read where it has one.
fn admitted<P: Drop>(
    alloc: Global,
    facts: VisitFacts,
    counts: LinkCounts,
    admission: Admission,
) -> Result<Stage<P>, OutOfMemory>
    ensures { IfOk result (λ stage. stage ≡ admitted_visit facts counts admission admission.cookie) }
{
    let Admission {
        request,
        call,
        cookie,
        read,
        write: _,
    } = admission;
    match cookie {
        None => Ok(Stage::Serving(
            Visit::without_session(facts, counts),
            Some(AskedCall { request, call }),
        )),
        Some(cookie) => {
            let visit = Visit::with_session(alloc, facts, counts, read, cookie)?;
            Ok(Stage::Serving(visit, Some(AskedCall { request, call })))
        }
    }
}

/// A request that was taken in begins.
fn begun<P: Drop>(
    alloc: Global,
    front: Place,
    counts: LinkCounts,
    head: &Head,
    now: Moment,
    arrival: Arrival,
) -> Result<Stage<P>, OutOfMemory>
    ensures { IfOk result (λ stage. stage ≡ begun_by front counts head.now now arrival) }
{
    match arrival {
        Arrival::Refused(refusal) => {
            let facts = bare_facts(None, now, front, head);
            let visit = Visit::decided(facts, counts, ItemOutcome::Refused(refusal));
            Ok(Stage::Serving(visit, None))
        }
        Arrival::SerialsSpent { request, seen } => {
            let facts = bare_facts(request, now, front, head);
            let visit = Visit::decided(facts, counts, ItemOutcome::SerialsSpent { seen });
            Ok(Stage::Serving(visit, None))
        }
        Arrival::Admitted(admission) => {
            let facts = facts_of(&admission, now, front, head);
            let stage = admitted(alloc, facts, counts, admission)?;
            Ok(stage)
        }
    }
}

impl<P: Drop> Shepherd<P> {
    /// It comes to another stage.
    pub(crate) fn set_stage(&mut self, stage: Stage<P>)
        ensures { self.new ≡ record self.old { stage = stage } }
    {
        drop(mem::replace(&mut self.stage, stage));
    }

    /// No further request is taken.
    fn refuse(&mut self, alloc: Global, why: Untaken) -> Result<(), OutOfMemory>
        ensures refused { OnOk result (self.new ≡ record self.old { stage = Refusing why (last_response why) }) }
        ensures want { OnErr result (self.new ≡ self.old) }
    {
        let bytes = untaken_response(alloc, why)?;
        self.set_stage(Stage::Refusing(why, bytes));
        Ok(())
    }

    /// Takes what the bytes begin with.
    fn take<C: Clock, R: Random, S: Serials, L: Link>(
        &mut self,
        alloc: Global,
        router: &SiteRouter,
        key: &[u8],
        home: HomeBoot,
        link: &L,
        clock: &mut C,
        random: &mut R,
        serials: &mut S,
    ) -> Result<(), OutOfMemory>
        requires { turn self.old ≡ ShepherdTurn.Request }
        ensures taken { OnOk result (TakesRequest C.told R.gives S.looks key.now home (counted (L.tally link.now))
            self.old clock.old random.old serials.old self.new clock.new random.new serials.new) }
        ensures rises { C.told clock.old ≤ C.told clock.new }
        ensures rest { OnErr result (self.new ≡ record self.old { received = self.new.received }) }
    {
        match self.received.take(alloc)? {
            Taken::Request(head) => {
                let intake = take_in(alloc, router, key, home, &head, clock, random, serials)?;
                let Intake {
                    now,
                    drawn: _,
                    arrival,
                } = intake;
                let stage = begun(alloc, self.front, link.counts(), &head, now, arrival)?;
                self.set_stage(stage);
                Ok(())
            }
            Taken::Bad => self.refuse(alloc, Untaken::Bad),
            Taken::TooLong { len: _, lines: _ } => self.refuse(alloc, Untaken::TooLong),
            Taken::NoCoding => self.refuse(alloc, Untaken::NoCoding),
            Taken::BodyTooLong { length: _ } => self.refuse(alloc, Untaken::BodyTooLong),
            Taken::More => unreachable!(),
        }
    }

    /// Takes what the bytes begin with. A request is decided, its moment is read off the clock, and all is drawn for
    /// it; what is refused has its last response made.
    ///
    /// # Errors
    /// There is no memory: the connection has ended, and all of it but the bytes that came is as it was.
    pub fn take_request<C: Clock, R: Random, S: Serials, L: Link>(
        &mut self,
        alloc: Global,
        router: &SiteRouter,
        key: &[u8],
        home: HomeBoot,
        link: &L,
        clock: &mut C,
        random: &mut R,
        serials: &mut S,
    ) -> Result<(), OutOfMemory>
        requires { turn self.old ≡ ShepherdTurn.Request }
        ensures taken { OnOk result (TakesRequest C.told R.gives S.looks key.now home (counted (L.tally link.now))
            self.old clock.old random.old serials.old self.new clock.new random.new serials.new) }
        ensures rises { C.told clock.old ≤ C.told clock.new }
        ensures same { OnErr result (self.new.stage ≡ self.old.stage) }
        ensures want { OnErr result (self.new.wants_memory ≡ true) }
        ensures rest { OnErr result (self.new ≡ record self.old {
          received = self.new.received;
          wants_memory = true;
        }) }
    {
        match self.take(alloc, router, key, home, link, clock, random, serials) {
            Ok(()) => Ok(()),
            Err(OutOfMemory) => {
                self.wants_memory = true;
                Err(OutOfMemory)
            }
        }
    }
}
