//! What a request becomes by itself: nobody else is asked.

ghost use Rattle.std.specs.Prelude.{◌≡◌, IfOk, IfSome, IsOk, OnOk, OnErr};
ghost use Rattle.std.specs.Option.{option_map};
ghost use Rattle.session_cookie.specs.Cookie.{AreHolders};
ghost use Rattle.session_way.specs.Way.{answer_held, wants};
ghost use Rattle.session_way.specs.declared.way.Wants.TheVariants as wanted;
ghost use Rattle.request_visit.specs.Advancing.{Advances, HearsReadOf, HearsWrite, IsItemOf, IsShown, after_leaving, after_read, cookie_in, decided_response, outcome_in, responded, response_in, value_of};
ghost use Rattle.request_visit.specs.Visits.{turn};

use crate::facts::VisitFacts;
use crate::ready::{Shown, shown_response};
use crate::visit::{Fate, Turn, Visit, Work};
use crash_base::{OutOfMemory, Place, ResponseBytes, SessionBytes};
use outcome_items::{Item, ItemOutcome, response_to};
use request_tries::RequestOutcome;
use session_cookie::{Cookie, encode_cookie};
use session_way::{ReadOutcome, SessionLease, SessionWay};
use site_responses::{SiteAnswer, response_of};
use ssm_stub::WriteRefusal;
use std::alloc::Global;

/// The answer of the write that is held, if one is and has it.
fn answer_held(way: &SessionWay) -> Option<&Result<Cookie, WriteRefusal>>
    ensures { option_map (λ a. a.now) result ≡ answer_held way.now }
{
    match way {
        SessionWay::Writing(write) => write.answer(),
        SessionWay::Settling(write) => write.answer(),
        SessionWay::Resting => None,
        SessionWay::Reading(_) => None,
        SessionWay::Ordered(_) => None,
        SessionWay::Holding(_) => None,
    }
}

/// The cookie of an answer, if it is one.
fn cookie_in(answer: Option<&Result<Cookie, WriteRefusal>>) -> Option<&Cookie>
    ensures { option_map (λ c. c.now) result ≡ cookie_in (option_map (λ a. a.now) answer.entry) }
{
    match answer {
        Some(Ok(cookie)) => Some(cookie),
        Some(Err(_)) => None,
        None => None,
    }
}

/// The response to a request that is committed, by the cookie that was written for it, if one was.
fn shown_with(
    alloc: Global,
    key: &[u8],
    facts: VisitFacts,
    shown: &Shown,
    cookie: Option<&Cookie>,
) -> Result<ResponseBytes, OutOfMemory>
    requires { IfSome cookie (λ c. AreHolders c.now.bricks) }
    ensures { IfOk result (λ bytes. IsShown key.now facts shown.now (option_map (λ c. c.now) cookie.entry) bytes) }
{
    match cookie {
        Some(cookie) => {
            let text = encode_cookie(alloc, key, cookie)?;
            shown_response(alloc, facts, shown, &text)
        }
        None => response_of(alloc, &SiteAnswer::TryAgain, facts.close, facts.head_only),
    }
}

/// The response to a request that shows no page of an entry.
fn decided_response(
    alloc: Global,
    facts: VisitFacts,
    outcome: &ItemOutcome,
) -> Result<ResponseBytes, OutOfMemory>
    ensures { IfOk result (λ bytes. bytes ≡ decided_response facts outcome.now) }
{
    response_to(alloc, outcome, None, None, facts.close, facts.head_only)
}

/// The value of a session, if there is one.
fn value_of(lease: Option<SessionLease>) -> Option<SessionBytes>
    ensures { result ≡ option_map value_of lease }
{
    match lease {
        Some(lease) => Some(lease.value),
        None => None,
    }
}

impl Fate {
    /// What became of a request.
    fn into_outcome(self) -> ItemOutcome
        ensures { result ≡ outcome_in self }
    {
        match self {
            Fate::Known(outcome) => outcome,
            Fate::Writing { place, again } => {
                ItemOutcome::Ended(RequestOutcome::Page { place, again })
            }
        }
    }
}

impl<P: Drop> Visit<P> {
    /// It is told what its read came to.
    fn hear(&mut self, outcome: ReadOutcome)
        requires { self.old.way ≡ SessionWay.Resting }
        ensures { self.new ≡ after_read outcome self.old }
    {
        match outcome {
            ReadOutcome::Found(lease) => {
                self.set_lease(lease);
                self.set_work(Work::Opening);
            }
            ReadOutcome::Expired { now, expiry } => {
                self.set_work(Work::Decided(ItemOutcome::Expired { now, expiry }));
            }
            ReadOutcome::Lost(causes) => self.set_work(Work::Decided(ItemOutcome::Lost(causes))),
        }
    }

    /// Nothing is read for it, and its work is to be done with this done with its session.
    fn put_back(&mut self, way: SessionWay)
        ensures { self.new ≡ record self.old { way = way; work = Work.Opening } }
    {
        self.set_way(way);
        self.set_work(Work::Opening);
    }

    /// Hears what its read came to.
    fn hear_read(&mut self)
        requires { wants self.old.way ≡ wanted.Nothing }
        ensures { HearsReadOf self.old.way self.old self.new }
    {
        match self.take_way() {
            SessionWay::Reading(read) => self.hear(read.into_outcome()),
            SessionWay::Resting => self.put_back(SessionWay::Resting),
            SessionWay::Ordered(order) => self.put_back(SessionWay::Ordered(order)),
            SessionWay::Writing(write) => self.put_back(SessionWay::Writing(write)),
            SessionWay::Settling(write) => self.put_back(SessionWay::Settling(write)),
            SessionWay::Holding(passes) => self.put_back(SessionWay::Holding(passes)),
        }
    }

    /// Its page is shown, with the cookie that was written for it; or that the client may try again, where none was.
    fn hear_write(
        &mut self,
        alloc: Global,
        key: &[u8],
        place: Place,
        again: bool,
        shown: Shown,
    ) -> Result<(), OutOfMemory>
        requires { IfSome (cookie_in (answer_held self.old.way)) (λ c. AreHolders c.bricks) }
        ensures hears { OnOk result (HearsWrite key.now self.old place again shown self.new) }
        ensures same { OnErr result (self.new ≡ self.old) }
    {
        let cookie = cookie_in(answer_held(&self.way));
        let bytes = shown_with(alloc, key, self.facts, &shown, cookie)?;
        self.set_work(Work::Answered(Fate::Writing { place, again }, bytes));
        Ok(())
    }

    /// Its response is made, where it shows no page of an entry.
    fn respond(&mut self, alloc: Global, outcome: ItemOutcome) -> Result<(), OutOfMemory>
        ensures responds { OnOk result (self.new ≡ responded outcome self.old) }
        ensures same { OnErr result (self.new ≡ self.old) }
    {
        let bytes = decided_response(alloc, self.facts, &outcome)?;
        self.set_work(Work::Answered(Fate::Known(outcome), bytes));
        Ok(())
    }

    /// It has come so far still.
    fn keep(&mut self, work: Work<P>) -> Result<(), OutOfMemory>
        ensures kept { self.new ≡ record self.old { work = work } }
        ensures none { IsOk result }
    {
        self.set_work(work);
        Ok(())
    }

    /// Takes in what was heard, or makes its response: nobody else is asked. `key` is the service's, under which
    /// cookies are written. A page of an entry without a write was made before its commit, so this makes no such one.
    ///
    /// # Errors
    /// There is no memory. The request is as it was, but its work is lost: it goes no further.
    pub fn advance(&mut self, alloc: Global, key: &[u8]) -> Result<(), OutOfMemory>
        requires turn { turn self.old ≡ Turn.Own }
        requires holders { IfSome (cookie_in (answer_held self.old.way)) (λ c. AreHolders c.bricks) }
        ensures advances { OnOk result (Advances key.now self.old self.old.work self.new) }
        ensures holds { OnErr result (self.new ≡ record self.old { work = Work.Opening }) }
    {
        match self.take_work() {
            Work::Reading => {
                self.hear_read();
                Ok(())
            }
            Work::Opening => Ok(()),
            Work::Serving(tries, program) => self.keep(Work::Serving(tries, program)),
            Work::Committed {
                place,
                again,
                shown,
            } => self.hear_write(alloc, key, place, again, shown),
            Work::Decided(outcome) => self.respond(alloc, outcome),
            Work::Answered(fate, bytes) => self.keep(Work::Answered(fate, bytes)),
            Work::Left(fate) => self.keep(Work::Left(fate)),
        }
    }

    /// Its response leaves; a write of its session is settled from now on. It takes no memory.
    pub fn leave(&mut self) -> ResponseBytes
        requires { turn self.old ≡ Turn.Output }
        ensures bytes { result ≡ response_in self.old.work }
        ensures left { self.new ≡ after_leaving self.old }
    {
        self.way.settle();
        match self.take_work() {
            Work::Answered(fate, bytes) => {
                self.set_work(Work::Left(fate));
                bytes
            }
            Work::Reading => unreachable!(),
            Work::Opening => unreachable!(),
            Work::Serving(_, _) => unreachable!(),
            Work::Committed { .. } => unreachable!(),
            Work::Decided(_) => unreachable!(),
            Work::Left(_) => unreachable!(),
        }
    }

    /// Its item, once nothing is left to be done. It takes no memory.
    pub fn into_item(self) -> Item
        requires { turn self ≡ Turn.Over }
        ensures { IsItemOf self self.work result }
    {
        let Visit {
            facts,
            holds,
            counts,
            lease,
            cookie,
            way,
            work,
        } = self;
        drop(way);
        let value = value_of(lease);
        match work {
            Work::Left(fate) => Item {
                outcome: fate.into_outcome(),
                request: facts.request,
                holds,
                counts,
                moment: facts.now,
                value,
                cookie,
            },
            Work::Reading => unreachable!(),
            Work::Opening => unreachable!(),
            Work::Serving(_, _) => unreachable!(),
            Work::Committed { .. } => unreachable!(),
            Work::Decided(_) => unreachable!(),
            Work::Answered(_, _) => unreachable!(),
        }
    }
}
