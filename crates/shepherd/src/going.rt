//! Laws of how connections go on. Each is the contract of a function that does nothing: a caller that needs the law
//! calls the function.

ghost use Rattle.std.specs.Prelude.{◌≡◌, ◌≢◌, ◌≤◌, ◌<◌, ◌^◌, ℕ, true, false, List, IfSome, None};
ghost use Rattle.auction_calls.specs.declared.action.ActionCall.{ActionCall};
ghost use Rattle.container_core.specs.Container.{ContainerValue, HasGrownBy};
ghost use Rattle.crash_base.specs.declared.numbers.WorkerNo.{WorkerNo};
ghost use Rattle.outcome_items.specs.declared.item.Item.{Item};
ghost use Rattle.outside.specs.declared.link.LinkCounts.{LinkCounts};
ghost use Rattle.request_intake.specs.declared.intake.HomeBoot.{HomeBoot};
ghost use Rattle.request_tries.specs.Serving.{IsServing};
ghost use Rattle.request_visit.specs.Advancing.{Advances, cookie_in};
ghost use Rattle.request_visit.specs.Stepping.{OnServing, VisitsInside, VisitsWindows};
ghost use Rattle.request_visit.specs.declared.visit.Fate.{Fate};
ghost use Rattle.request_visit.specs.declared.visit.Work.TheVariants.{Left};
ghost use Rattle.send_windows.specs.Windows.{WindowsValue};
ghost use Rattle.session_cookie.specs.Cookie.{AreHolders};
ghost use Rattle.session_cookie.specs.declared.cookie.TheConstants.{MAX_HOLDERS};
ghost use Rattle.session_way.specs.Way.{answer_held};
ghost use Rattle.shepherd.specs.Going.{GoesOn};
ghost use Rattle.shepherd.specs.Shepherds.{fresh, has_item, turn};
ghost use Rattle.shepherd.specs.Steps.{GivesBack, HasAnswerIfOpen, HasLeftIfOpen, OnVisit, OpensStage, PutsOut, ShepherdSteps, TakesItem, TakesRequest, VisitsOutside, dropped_stage};
ghost use Rattle.shepherd.specs.declared.shepherd.Shepherd.{Shepherd};
ghost use Rattle.shepherd.specs.declared.shepherd.Stage.{Stage};

use crate::opening::ProgramMaker;
use crate::shepherd::ShepherdTurn;
use call_ticket::Program;
use outside::{Clock, Link, Random, Serials};
use request_visit::{requests_account_for_their_sessions, requests_go_on};

/// A connection goes on in its container, at each of its steps and whatever others add meanwhile, so each call that its
/// turn asks for may be made: a step in the container (`inside_turn`), its own (`own_turn`), and the making of its
/// program (`program_turn`). It takes windows by which 1 to 16 bricks are to store a value (`MAX_HOLDERS`), and a maker
/// whose programs the deployment accepts. Where memory was wanted, nothing more is asked of it (`wants`).
pub fn connections_go_on<P: Program, L: Link, M: ProgramMaker<P>>()
    ensures begins { (container : ContainerValue) → GoesOn P.accepts P.asks L.makes container fresh }
    ensures wants { (container : ContainerValue) (s : Shepherd P) → s.wants_memory ≡ true
        → GoesOn P.accepts P.asks L.makes container s }
    ensures meanwhile { (container after : ContainerValue) (s : Shepherd P) → HasGrownBy container after
        → GoesOn P.accepts P.asks L.makes container s → GoesOn P.accepts P.asks L.makes after s }
    ensures still { (container : ContainerValue) (s new : Shepherd P) → new.stage ≡ s.stage → new.front ≡ s.front
        → new.wants_memory ≡ s.wants_memory → GoesOn P.accepts P.asks L.makes container s
        → GoesOn P.accepts P.asks L.makes container new }
    ensures outside { (container : ContainerValue) (old new : Shepherd P) (link after : L)
        → turn old ≡ ShepherdTurn.Outside
        → ShepherdSteps (λ v w. VisitsOutside L.makes L.tally v link w after) old new
        → GoesOn P.accepts P.asks L.makes container old → GoesOn P.accepts P.asks L.makes container new }
    ensures windows { (container : ContainerValue) (old new : Shepherd P) (windows after : WindowsValue)
        → 1 ≤ windows.wq → windows.wq ≤ MAX_HOLDERS
        → ShepherdSteps (λ v w. VisitsWindows v windows w after) old new
        → GoesOn P.accepts P.asks L.makes container old → GoesOn P.accepts P.asks L.makes container new }
    ensures inside { (old new : Shepherd P) (container after : ContainerValue)
        → ShepherdSteps (λ v w. VisitsInside P.asks v container w after) old new → HasGrownBy container after
        → GoesOn P.accepts P.asks L.makes container old → GoesOn P.accepts P.asks L.makes after new }
    ensures advance { (container : ContainerValue) (key : List ℕ) (old new : Shepherd P) → turn old ≡ ShepherdTurn.Own
        → ShepherdSteps (λ v w. Advances key v v.work w) old new
        → GoesOn P.accepts P.asks L.makes container old → GoesOn P.accepts P.asks L.makes container new }
    ensures open { (container : ContainerValue) (s : Shepherd P) (stage : Stage P) (maker : M) (worker : WorkerNo)
        → turn s ≡ ShepherdTurn.Program → ((call : ActionCall) (text : List ℕ) (program : P)
        → M.makes maker call text program → P.accepts program container.boot.start.deployment)
        → OpensStage M.makes maker worker s.stage stage → GoesOn P.accepts P.asks L.makes container s
        → GoesOn P.accepts P.asks L.makes container (record s { stage = stage }) }
    ensures out { (container : ContainerValue) (bytes : List ℕ) (s : Shepherd P) (stage : Stage P)
        → turn s ≡ ShepherdTurn.Output → PutsOut s.stage bytes stage → GoesOn P.accepts P.asks L.makes container s
        → GoesOn P.accepts P.asks L.makes container (record s { stage = stage }) }
    ensures item { (container : ContainerValue) (i : Item) (s : Shepherd P) (stage : Stage P)
        → TakesItem s.stage i stage → GoesOn P.accepts P.asks L.makes container s
        → GoesOn P.accepts P.asks L.makes container (record s { front = i.holds.front; stage = stage }) }
    ensures given_up { (container : ContainerValue) (s : Shepherd P) → GoesOn P.accepts P.asks L.makes container s
        → GoesOn P.accepts P.asks L.makes container (record s { stage = dropped_stage s.stage }) }
    ensures given_back { (container : ContainerValue) (s : Shepherd P) (stage : Stage P) (windows after : WindowsValue)
        → GivesBack s.stage windows stage after → HasLeftIfOpen s.stage
        → GoesOn P.accepts P.asks L.makes container s
        → GoesOn P.accepts P.asks L.makes container (record s { stage = stage }) }
    ensures inside_turn { (container : ContainerValue) (s : Shepherd P) → turn s ≡ ShepherdTurn.Inside
        → GoesOn P.accepts P.asks L.makes container s
        → OnVisit s.stage (λ v call. OnServing v.work (λ tries program.
        P.accepts program container.boot.start.deployment × IsServing container.boot (P.asks program) tries))
        × OnVisit s.stage (λ v call. v.facts.now.0 < 2 ^ 62) }
    ensures own_turn { (container : ContainerValue) (s : Shepherd P) → turn s ≡ ShepherdTurn.Own
        → GoesOn P.accepts P.asks L.makes container s
        → OnVisit s.stage (λ v call. IfSome (cookie_in (answer_held v.way)) (λ c. AreHolders c.bricks)) }
    ensures program_turn { (container : ContainerValue) (s : Shepherd P) → turn s ≡ ShepherdTurn.Program
        → GoesOn P.accepts P.asks L.makes container s → OnVisit s.stage (λ v call. call ≢ None) }
    ensures stays { (container : ContainerValue) (old new : Shepherd P) (link after : L)
        → turn old ≡ ShepherdTurn.Outside
        → ShepherdSteps (λ v w. VisitsOutside L.makes L.tally v link w after) old new
        → GoesOn P.accepts P.asks L.makes container old
        → ShepherdSteps (λ v w. VisitsOutside L.makes L.tally v link w after
        × ((fate : Fate) → v.work ≡ Left fate → cookie_in (answer_held w.way) ≡ cookie_in (answer_held v.way))) old new }
    ensures answered { (container : ContainerValue) (s : Shepherd P) → s.wants_memory ≡ false
        → GoesOn P.accepts P.asks L.makes container s → HasAnswerIfOpen s.stage }
{
    requests_go_on::<P>();
    requests_account_for_their_sessions::<P, L>();
}

/// A request that is taken off the bytes goes on, in any container in which its connection does.
pub fn taken_requests_go_on<P: Program, L: Link, C: Clock, R: Random, S: Serials>()
    ensures { (container : ContainerValue) (key : List ℕ) (home : HomeBoot) (counts : LinkCounts) (s new : Shepherd P)
        (clock clock_after : C) (random random_after : R) (serials serials_after : S)
        → TakesRequest C.told R.gives S.looks key home counts
        s clock random serials new clock_after random_after serials_after
        → GoesOn P.accepts P.asks L.makes container s → GoesOn P.accepts P.asks L.makes container new }
{
    requests_go_on::<P>();
    requests_account_for_their_sessions::<P, L>();
}
