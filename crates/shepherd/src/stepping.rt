//! The steps of the request that is open: each is one call of the link, of the windows or of the container, or none.

ghost use Rattle.std.specs.Prelude.{◌≡◌, ◌≤◌, ◌<◌, ◌^◌, true, IfSome, OnErr, OnOk};
ghost use Rattle.container_core.specs.Container.{HasGrownBy, with_boot};
ghost use Rattle.request_tries.specs.Serving.{IsServing};
ghost use Rattle.request_tries.specs.Steps.{HasAtMostAdvanced, KeepsNothing};
ghost use Rattle.request_visit.specs.Advancing.{Advances, cookie_in};
ghost use Rattle.request_visit.specs.Stepping.{OnServing, VisitsInside, VisitsWindows};
ghost use Rattle.request_visit.specs.Visits.{turn as visit_turn};
ghost use Rattle.request_visit.specs.declared.visit.Turn.TheVariants as visit;
ghost use Rattle.request_visit.specs.declared.visit.Work.TheVariants.{Opening};
ghost use Rattle.session_cookie.specs.Cookie.{AreHolders};
ghost use Rattle.send_windows.specs.declared.windows.TakeRefusal.TheVariants as refusal;
ghost use Rattle.session_way.specs.Way.{BreaksOffOutside, IsRefused, answer_held};
ghost use Rattle.shepherd.specs.Shepherds.{turn};
ghost use Rattle.shepherd.specs.Steps.{IsServedStill, OnVisit, ShepherdSteps, StepsVisit, VisitsOutside, dropped_stage};

use crate::shepherd::{Shepherd, ShepherdTurn, Stage};
use call_ticket::Program;
use container_core::{Container, histories_grow};
use crash_base::OutOfMemory;
use outside::{Keeper, Link};
use send_windows::Windows;
use std::alloc::Global;

impl<P: Drop> Stage<P> {
    /// One call of the link.
    fn step_outside<L: Link>(&mut self, alloc: Global, link: &mut L) -> Result<(), OutOfMemory>
        requires { OnVisit self.old (λ v call. visit_turn v ≡ visit.Outside) }
        ensures step { OnOk result (StepsVisit (λ v after. VisitsOutside L.makes L.tally v link.old after link.new)
            self.old self.new) }
        ensures same { OnErr result (self.new ≡ self.old) }
        ensures broke { OnErr result (OnVisit self.old (λ v call. BreaksOffOutside L.makes v.way link.old link.new)) }
    {
        match self {
            Stage::Serving(visit, _) => visit.step_outside(alloc, link),
            Stage::Resting => unreachable!(),
            Stage::Refusing(_, _) => unreachable!(),
            Stage::Over(_) => unreachable!(),
        }
    }

    /// One call of the windows.
    fn step_windows(&mut self, alloc: Global, windows: &mut Windows) -> Result<(), OutOfMemory>
        requires { OnVisit self.old (λ v call. visit_turn v ≡ visit.Windows) }
        ensures step { OnOk result (StepsVisit (λ v after. VisitsWindows v windows.old after windows.new)
            self.old self.new) }
        ensures want { OnErr result (StepsVisit (λ v after.
            IsRefused v.way windows.old after.way windows.new refusal.OutOfMemory) self.old self.new) }
        ensures rest { OnErr result (StepsVisit (λ v after. after ≡ record v { way = after.way }) self.old self.new) }
    {
        match self {
            Stage::Serving(visit, _) => visit.step_windows(alloc, windows),
            Stage::Resting => unreachable!(),
            Stage::Refusing(_, _) => unreachable!(),
            Stage::Over(_) => unreachable!(),
        }
    }

    /// What it does by itself.
    fn advance(&mut self, alloc: Global, key: &[u8]) -> Result<(), OutOfMemory>
        requires turn { OnVisit self.old (λ v call. visit_turn v ≡ visit.Own) }
        requires holders { OnVisit self.old (λ v call.
            IfSome (cookie_in (answer_held v.way)) (λ c. AreHolders c.bricks)) }
        ensures step { OnOk result (StepsVisit (λ v after. Advances key.now v v.work after) self.old self.new) }
        ensures holds { OnErr result (StepsVisit (λ v after. after ≡ record v { work = Opening }) self.old self.new) }
    {
        match self {
            Stage::Serving(visit, _) => visit.advance(alloc, key),
            Stage::Resting => unreachable!(),
            Stage::Refusing(_, _) => unreachable!(),
            Stage::Over(_) => unreachable!(),
        }
    }
}

impl<P: Program + Drop> Stage<P> {
    /// One call of the container.
    fn step_inside<K: Keeper + Drop>(
        &mut self,
        alloc: Global,
        container: &mut Container<K>,
    ) -> Result<(), OutOfMemory>
        requires turn { OnVisit self.old (λ v call. visit_turn v ≡ visit.Inside) }
        requires serving { OnVisit self.old (λ v call. OnServing v.work (λ tries program.
            P.accepts program container.old.boot.start.deployment
            × IsServing container.old.boot (P.asks program) tries)) }
        requires moment { OnVisit self.old (λ v call. v.facts.now.0 < 2 ^ 62) }
        ensures step { OnOk result (StepsVisit (λ v after. VisitsInside P.asks v container.old after container.new)
            self.old self.new) }
        ensures holds { OnErr result (StepsVisit IsServedStill self.old self.new) }
        ensures nothing { OnErr result (container.new.since ≡ container.old.since) }
        ensures at_most { OnErr result (OnVisit self.old (λ v call. OnServing v.work (λ tries program.
            HasAtMostAdvanced container.old (P.asks program) tries.attempt (with_boot container.old container.new.boot)))) }
        ensures keeper { OnErr result (KeepsNothing container.old container.new) }
        ensures count { container.old.faults ≤ container.new.faults }
        ensures grown { HasGrownBy container.old container.new }
    {
        match self {
            Stage::Serving(visit, _) => visit.step_inside(alloc, container),
            Stage::Resting => unreachable!(),
            Stage::Refusing(_, _) => unreachable!(),
            Stage::Over(_) => unreachable!(),
        }
    }

    /// Gives up the call that is held in the container, if one is.
    fn drop_call<K: Keeper + Drop>(&mut self, container: &mut Container<K>)
        ensures stage { self.new ≡ dropped_stage self.old }
        ensures same { container.new ≡ container.old }
        ensures grown { HasGrownBy container.old container.new }
    {
        histories_grow();
        match self {
            Stage::Serving(visit, _) => visit.drop_call(container),
            Stage::Resting => {}
            Stage::Refusing(_, _) => {}
            Stage::Over(_) => {}
        }
    }
}

impl<P: Drop> Shepherd<P> {
    /// Where memory was wanted, the connection has ended.
    pub(crate) fn heed(&mut self, answer: Result<(), OutOfMemory>) -> Result<(), OutOfMemory>
        ensures same { result ≡ answer }
        ensures ok { OnOk answer (self.new ≡ self.old) }
        ensures want { OnErr answer (self.new ≡ record self.old { wants_memory = true }) }
    {
        match answer {
            Ok(()) => Ok(()),
            Err(OutOfMemory) => {
                self.wants_memory = true;
                Err(OutOfMemory)
            }
        }
    }

    /// Makes one call of the link, a send or a receive, for the session of the request that is open.
    ///
    /// # Errors
    /// There is no memory: the connection has ended. The link may have made the call, and made no other.
    pub fn step_outside<L: Link>(&mut self, alloc: Global, link: &mut L) -> Result<(), OutOfMemory>
        requires { turn self.old ≡ ShepherdTurn.Outside }
        ensures step { OnOk result (ShepherdSteps (λ v after. VisitsOutside L.makes L.tally v link.old after link.new)
            self.old self.new) }
        ensures want { OnErr result (self.new ≡ record self.old { wants_memory = true }) }
        ensures broke { OnErr result (OnVisit self.old.stage (λ v call.
            BreaksOffOutside L.makes v.way link.old link.new)) }
    {
        let answer = self.stage.step_outside(alloc, link);
        self.heed(answer)
    }

    /// Makes one call of the windows for the session of the request that is open: passes are taken, or spent.
    ///
    /// # Errors
    /// There is no memory: the connection has ended. All of the request that is open is as it was, but for what it
    /// does with its session: passes that were taken are given back by `drop_passes`.
    pub fn step_windows(&mut self, alloc: Global, windows: &mut Windows) -> Result<(), OutOfMemory>
        requires { turn self.old ≡ ShepherdTurn.Windows }
        ensures step { OnOk result (ShepherdSteps (λ v after. VisitsWindows v windows.old after windows.new)
            self.old self.new) }
        ensures holds { OnErr result (StepsVisit (λ v after.
            IsRefused v.way windows.old after.way windows.new refusal.OutOfMemory) self.old.stage self.new.stage) }
        ensures rest { OnErr result (StepsVisit (λ v after. after ≡ record v { way = after.way })
            self.old.stage self.new.stage) }
        ensures want { OnErr result (self.new ≡ record self.old { stage = self.new.stage; wants_memory = true }) }
    {
        let answer = self.stage.step_windows(alloc, windows);
        self.heed(answer)
    }

    /// Takes in what was heard for the request that is open, or makes its response, under the service's key: nobody
    /// else is asked.
    ///
    /// # Errors
    /// There is no memory: the connection has ended. The request that is open is as it was, but its work is lost.
    pub fn advance(&mut self, alloc: Global, key: &[u8]) -> Result<(), OutOfMemory>
        requires turn { turn self.old ≡ ShepherdTurn.Own }
        requires holders { OnVisit self.old.stage (λ v call.
            IfSome (cookie_in (answer_held v.way)) (λ c. AreHolders c.bricks)) }
        ensures step { OnOk result (ShepherdSteps (λ v after. Advances key.now v v.work after) self.old self.new) }
        ensures holds { OnErr result (StepsVisit (λ v after. after ≡ record v { work = Opening })
            self.old.stage self.new.stage) }
        ensures want { OnErr result (self.new ≡ record self.old { stage = self.new.stage; wants_memory = true }) }
    {
        let answer = self.stage.advance(alloc, key);
        self.heed(answer)
    }
}

impl<P: Program + Drop> Shepherd<P> {
    /// Makes one step of the request that is open in the container: the begin of a try, the step that its program asks
    /// for, or its commit.
    ///
    /// # Errors
    /// There is no memory: the connection has ended, nothing was added to the history, and of the boot at most the
    /// entering that was asked for was counted. All of the request that is open is as it was, but for its tries.
    pub fn step_inside<K: Keeper + Drop>(
        &mut self,
        alloc: Global,
        container: &mut Container<K>,
    ) -> Result<(), OutOfMemory>
        requires turn { turn self.old ≡ ShepherdTurn.Inside }
        requires serving { OnVisit self.old.stage (λ v call. OnServing v.work (λ tries program.
            P.accepts program container.old.boot.start.deployment
            × IsServing container.old.boot (P.asks program) tries)) }
        requires moment { OnVisit self.old.stage (λ v call. v.facts.now.0 < 2 ^ 62) }
        ensures step { OnOk result (ShepherdSteps (λ v after. VisitsInside P.asks v container.old after container.new)
            self.old self.new) }
        ensures holds { OnErr result (StepsVisit IsServedStill self.old.stage self.new.stage) }
        ensures want { OnErr result (self.new ≡ record self.old { stage = self.new.stage; wants_memory = true }) }
        ensures nothing { OnErr result (container.new.since ≡ container.old.since) }
        ensures at_most { OnErr result (OnVisit self.old.stage (λ v call. OnServing v.work (λ tries program.
            HasAtMostAdvanced container.old (P.asks program) tries.attempt (with_boot container.old container.new.boot)))) }
        ensures keeper { OnErr result (KeepsNothing container.old container.new) }
        ensures count { container.old.faults ≤ container.new.faults }
        ensures grown { HasGrownBy container.old container.new }
    {
        let answer = self.stage.step_inside(alloc, container);
        self.heed(answer)
    }

    /// Gives up the call that is held in the container, if one is, at any turn. It takes no memory.
    pub fn drop_call<K: Keeper + Drop>(&mut self, container: &mut Container<K>)
        ensures stage { self.new ≡ record self.old { stage = dropped_stage self.old.stage } }
        ensures same { container.new ≡ container.old }
        ensures grown { HasGrownBy container.old container.new }
    {
        self.stage.drop_call(container);
    }
}
