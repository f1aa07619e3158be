//! How a request begins its way.

ghost use Rattle.std.specs.Prelude.{◌≡◌, IfOk};
ghost use Rattle.ssm_stub.specs.Reads.{read_start};
ghost use Rattle.request_visit.specs.Visits.{begun, unheld};

use crate::facts::VisitFacts;
use crate::visit::{Visit, Work};
use crash_base::{OutOfMemory, Version};
use outcome_items::{Holds, ItemOutcome};
use outside::LinkCounts;
use session_cookie::Cookie;
use session_way::{SessionRead, SessionWay};
use std::alloc::Global;

/// How far the container had come for a request for which it was not held yet.
fn unheld(facts: VisitFacts) -> Holds
    ensures { result ≡ unheld facts }
{
    Holds {
        from: facts.front,
        front: facts.front,
        held: 0,
    }
}

impl<P> Visit<P> {
    /// A request that has come so far, for which nothing was done with its session.
    fn begun(facts: VisitFacts, counts: LinkCounts, way: SessionWay, work: Work<P>) -> Visit<P>
        ensures { result ≡ begun facts counts way work }
    {
        Visit {
            facts,
            holds: unheld(facts),
            counts,
            lease: None,
            cookie: None,
            way,
            work,
        }
    }

    /// A request of which this became at once: its response is to be made. It takes no memory.
    pub fn decided(facts: VisitFacts, counts: LinkCounts, outcome: ItemOutcome) -> Visit<P>
        ensures { result ≡ begun facts counts SessionWay.Resting (Work.Decided outcome) }
    {
        Visit::begun(facts, counts, SessionWay::Resting, Work::Decided(outcome))
    }

    /// A request without a session: its program is to be made. It takes no memory.
    pub fn without_session(facts: VisitFacts, counts: LinkCounts) -> Visit<P>
        ensures { result ≡ begun facts counts SessionWay.Resting Work.Opening }
    {
        Visit::begun(facts, counts, SessionWay::Resting, Work::Opening)
    }

    /// A request whose session is read by its cookie, with a nonce that was drawn for it.
    ///
    /// # Errors
    /// There is no memory.
    pub fn with_session(
        alloc: Global,
        facts: VisitFacts,
        counts: LinkCounts,
        nonce: Version,
        cookie: Cookie,
    ) -> Result<Visit<P>, OutOfMemory>
        ensures { IfOk result (λ visit. visit
            ≡ begun facts counts (SessionWay.Reading (read_start facts.now nonce cookie)) Work.Reading) }
    {
        let read = SessionRead::new(alloc, facts.now, nonce, cookie)?;
        Ok(Visit::begun(facts, counts, SessionWay::Reading(read), Work::Reading))
    }
}
