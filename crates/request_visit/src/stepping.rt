//! The steps of a request: each is one call of the link, of the windows or of the container.

ghost use Rattle.std.specs.Prelude.{◌≡◌, ◌≤◌, ◌<◌, ◌^◌, ◌++◌, IfOk, OnOk, OnErr};
ghost use Rattle.std.specs.Option.{option_map};
ghost use Rattle.container_core.specs.Container.{HasGrownBy, with_boot};
ghost use Rattle.request_tries.specs.Serving.{IsServing, TriesValue};
ghost use Rattle.request_tries.specs.Steps.{HasAtMostAdvanced, KeepsNothing};
ghost use Rattle.send_windows.specs.declared.windows.TakeRefusal.TheVariants as refusal;
ghost use Rattle.session_way.specs.Marks.{marks_by};
ghost use Rattle.session_way.specs.Way.{BreaksOffOutside, IsRefused, StepsOutside, after_give_back, answer_held, held};
ghost use Rattle.session_way.specs.Writing.{answer_of_write};
ghost use Rattle.request_visit.specs.Stepping.{IsGivenBack, OnServing, ServesWork, VisitsInside, VisitsWindows, after_closing, dropped, shown_so};
ghost use Rattle.request_visit.specs.Visits.{after_outcome, overloaded, turn};

use crate::facts::VisitFacts;
use crate::ready::Ready;
use crate::serving::{Closed, Closing, serve};
use crate::visit::{Fate, Turn, Visit, Work};
use call_ticket::Program;
use container_core::{Container, histories_grow};
use crash_base::{OutOfMemory, Place};
use outcome_items::ItemOutcome;
use outside::{Keeper, Link};
use request_tries::RequestOutcome;
use send_windows::{TakeRefusal, WindowList, Windows};
use session_way::{SessionLease, SessionWay, WriteOutcome};
use std::alloc::Global;

impl<P: Drop> Visit<P> {
    /// It is told what its write came to, if anything.
    fn hear_outcome(&mut self, outcome: Option<WriteOutcome>)
        ensures { self.new ≡ after_outcome outcome self.old }
    {
        match outcome {
            None => {}
            Some(WriteOutcome::Written(cookie)) => {
                let work = self.take_work().written();
                self.set_work(work);
                self.set_cookie(cookie);
            }
            Some(WriteOutcome::Missed(causes)) => {
                let work = self.take_work().missed(causes);
                self.set_work(work);
            }
        }
    }

    /// It is told that its session cannot be written, since these windows are full.
    fn overload(&mut self, full: WindowList)
        ensures { self.new ≡ record self.old { work = overloaded full self.old.work } }
    {
        let work = self.take_work().overloaded(full);
        self.set_work(work);
    }

    /// Makes one call of the link, a send or a receive, for the read or the write of the session, and sees what the
    /// link has counted.
    ///
    /// # Errors
    /// There is no memory. The request is as it was; the link may have made the call.
    pub fn step_outside<L: Link>(&mut self, alloc: Global, link: &mut L) -> Result<(), OutOfMemory>
        requires { turn self.old ≡ Turn.Outside }
        ensures step { OnOk result (StepsOutside L.makes self.old.way link.old self.new.way link.new) }
        ensures rest { OnOk result (self.new
            ≡ record self.old {
              way = self.new.way;
              counts = record {
                hushed = (L.tally link.new).hushed;
                got = (L.tally link.new).got;
              };
            }) }
        ensures same { OnErr result (self.new ≡ self.old) }
        ensures want { OnErr result (BreaksOffOutside L.makes self.old.way link.old link.new) }
    {
        self.way.step_outside(alloc, link)?;
        self.counts = link.counts();
        Ok(())
    }

    /// Makes one call of the windows: passes are taken for the write of the session, or those that are held are
    /// spent. Where they were refused, the request is told so, and its response is to be made.
    ///
    /// # Errors
    /// There is no memory. Passes that were taken are held then, and are given back by `drop_passes`.
    pub fn step_windows(&mut self, alloc: Global, windows: &mut Windows) -> Result<(), OutOfMemory>
        requires { turn self.old ≡ Turn.Windows }
        ensures step { OnOk result (VisitsWindows self.old windows.old self.new windows.new) }
        ensures want { OnErr result (
            IsRefused self.old.way windows.old self.new.way windows.new refusal.OutOfMemory) }
        ensures rest { OnErr result (self.new ≡ record self.old { way = self.new.way }) }
    {
        match self.way.step_windows(alloc, windows) {
            Ok(outcome) => {
                self.hear_outcome(outcome);
                Ok(())
            }
            Err(TakeRefusal::Overload(full)) => {
                self.overload(full);
                Ok(())
            }
            Err(TakeRefusal::OutOfMemory) => Err(OutOfMemory),
        }
    }

    /// Gives back the passes that it holds, at any turn: an unheard one as Silent. One call of the windows where
    /// passes are held, and none else. It takes no memory.
    pub fn drop_passes(&mut self, windows: &mut Windows)
        ensures windows { windows.new ≡ after_give_back windows.old (held self.old.way) }
        ensures marks { windows.new.history ≡ windows.old.history ++ marks_by self.old.way SessionWay.Resting }
        ensures back { IsGivenBack self.old self.new }
    {
        let outcome = self.way.give_back(windows);
        self.hear_outcome(outcome);
    }
}

impl<P: Program + Drop> Work<P> {
    /// One step of a request that is served in the container.
    fn serve<K: Keeper + Drop>(
        &mut self,
        alloc: Global,
        facts: VisitFacts,
        lease: Option<&SessionLease>,
        container: &mut Container<K>,
    ) -> Result<Option<Closing>, OutOfMemory>
        requires serving { OnServing self.old (λ tries program.
            P.accepts program container.old.boot.start.deployment
            × IsServing container.old.boot (P.asks program) tries) }
        requires moment { facts.now.0 < 2 ^ 62 }
        ensures serves { IfOk result (λ closing. ServesWork P.asks container.old facts
            (option_map (λ l. l.now) lease.entry) self.old closing container.new self.new) }
        ensures kept { OnErr result (OnServing self.old (λ tries program.
            (after : TriesValue) × (self.new ≡ Work.Serving after program))) }
        ensures nothing { OnErr result (container.new.since ≡ container.old.since) }
        ensures at_most { OnErr result (OnServing self.old (λ tries program. HasAtMostAdvanced container.old
            (P.asks program) tries.attempt (with_boot container.old container.new.boot))) }
        ensures keeper { OnErr result (KeepsNothing container.old container.new) }
        ensures count { container.old.faults ≤ container.new.faults }
        ensures grown { HasGrownBy container.old container.new }
    {
        match self {
            Work::Serving(tries, program) => serve(alloc, facts, lease, tries, program, container),
            Work::Reading => unreachable!(),
            Work::Opening => unreachable!(),
            Work::Committed { .. } => unreachable!(),
            Work::Decided(_) => unreachable!(),
            Work::Answered(_, _) => unreachable!(),
            Work::Left(_) => unreachable!(),
        }
    }

    /// Gives up the call of a request that is served in the container.
    fn drop_call<K: Keeper + Drop>(&mut self, container: &mut Container<K>)
        ensures work { self.new ≡ dropped self.old }
        ensures same { container.new ≡ container.old }
        ensures grown { HasGrownBy container.old container.new }
    {
        histories_grow();
        match self {
            Work::Serving(tries, _) => tries.abandon(container),
            Work::Reading => {}
            Work::Opening => {}
            Work::Committed { .. } => {}
            Work::Decided(_) => {}
            Work::Answered(_, _) => {}
            Work::Left(_) => {}
        }
    }
}

impl<P: Program + Drop> Visit<P> {
    /// It is committed, and this follows.
    fn show(&mut self, place: Place, again: bool, ready: Ready)
        ensures { self.new ≡ shown_so place again ready self.old }
    {
        match ready {
            Ready::Respond(bytes) => {
                let outcome = ItemOutcome::Ended(RequestOutcome::Page { place, again });
                self.set_work(Work::Answered(Fate::Known(outcome), bytes));
            }
            Ready::Write(order, shown) => {
                self.set_way(SessionWay::Ordered(order));
                self.set_work(Work::Committed {
                    place,
                    again,
                    shown,
                });
            }
        }
    }

    /// It has left the container so.
    fn close(&mut self, closing: Closing)
        ensures { self.new ≡ after_closing closing self.old }
    {
        let Closing { closed, holds } = closing;
        self.holds = holds;
        match closed {
            Closed::Page {
                place,
                again,
                ready,
            } => self.show(place, again, ready),
            Closed::Other(outcome) => self.set_work(Work::Decided(outcome)),
        }
    }

    /// Makes one step in the container: the begin of a try, the step that the program asks for, or the commit. What a
    /// page of its own needs is made before its commit.
    ///
    /// # Errors
    /// There is no memory: then nothing was added to the history, and of the boot at most the entering that was asked
    /// for was counted.
    pub fn step_inside<K: Keeper + Drop>(
        &mut self,
        alloc: Global,
        container: &mut Container<K>,
    ) -> Result<(), OutOfMemory>
        requires turn { turn self.old ≡ Turn.Inside }
        requires serving { OnServing self.old.work (λ tries program.
            P.accepts program container.old.boot.start.deployment
            × IsServing container.old.boot (P.asks program) tries) }
        requires moment { self.old.facts.now.0 < 2 ^ 62 }
        ensures step { OnOk result (VisitsInside P.asks self.old container.old self.new container.new) }
        ensures holds { OnErr result (OnServing self.old.work (λ tries program.
            (after : TriesValue) × (self.new ≡ record self.old { work = Work.Serving after program }))) }
        ensures nothing { OnErr result (container.new.since ≡ container.old.since) }
        ensures at_most { OnErr result (OnServing self.old.work (λ tries program. HasAtMostAdvanced container.old
            (P.asks program) tries.attempt (with_boot container.old container.new.boot))) }
        ensures keeper { OnErr result (KeepsNothing container.old container.new) }
        ensures count { container.old.faults ≤ container.new.faults }
        ensures grown { HasGrownBy container.old container.new }
    {
        let facts = self.facts;
        match self
            .work
            .serve(alloc, facts, self.lease.as_ref(), container)?
        {
            None => Ok(()),
            Some(closing) => {
                self.close(closing);
                Ok(())
            }
        }
    }

    /// Gives up the call that it has in the container, if it has one, at any turn. It takes no memory.
    pub fn drop_call<K: Keeper + Drop>(&mut self, container: &mut Container<K>)
        ensures work { self.new ≡ record self.old { work = dropped self.old.work } }
        ensures same { container.new ≡ container.old }
        ensures grown { HasGrownBy container.old container.new }
    {
        self.work.drop_call(container);
    }
}
