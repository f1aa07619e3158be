//! Laws of connections. Each is the contract of a function that does nothing: a caller that needs the law calls the
//! function.

ghost use Rattle.std.specs.Prelude.{◌≡◌, ◌≢◌, ℕ, ◌<◌, ◌^◌, true, List, [], ◌∷◌, ◌++◌, None};
ghost use Rattle.container_core.specs.Container.{ContainerValue};
ghost use Rattle.crash_base.specs.declared.numbers.WorkerNo.{WorkerNo};
ghost use Rattle.http_wire.specs.Taking.{taken_of};
ghost use Rattle.http_wire.specs.Requests.{requests};
ghost use Rattle.http_wire.specs.declared.taken.Head.{Head};
ghost use Rattle.outcome_items.specs.declared.item.Item.{Item};
ghost use Rattle.outside.specs.declared.link.LinkCounts.{LinkCounts};
ghost use Rattle.request_intake.specs.declared.intake.HomeBoot.{HomeBoot};
ghost use Rattle.request_visit.specs.Advancing.{Advances};
ghost use Rattle.request_visit.specs.Stepping.{VisitsInside, VisitsWindows};
ghost use Rattle.send_windows.specs.Windows.{WindowsValue};
ghost use Rattle.site_responses.specs.Responses.{last_response};
ghost use Rattle.site_responses.specs.declared.answer.Untaken.{Untaken};
ghost use Rattle.shepherd.specs.Answering.{heads_in};
ghost use Rattle.shepherd.specs.Shepherds.{fresh, has_item, turn};
ghost use Rattle.shepherd.specs.Standing.{HasServedAll, HasServedFirst, Served, Standing, all_before, coming, items_of, responses_of};
ghost use Rattle.shepherd.specs.Steps.{GivesBack, OnVisit, OpensStage, PutsOut, ShepherdSteps, TakesItem, TakesRequest, VisitsOutside, dropped_stage};
ghost use Rattle.shepherd.specs.declared.shepherd.EndKind.{EndKind};
ghost use Rattle.shepherd.specs.declared.shepherd.EndKind.TheVariants.{OutOfMemory, Refused};
ghost use Rattle.shepherd.specs.declared.shepherd.Shepherd.{Shepherd};
ghost use Rattle.shepherd.specs.declared.shepherd.Stage.{Stage};
ghost use Rattle.shepherd.specs.declared.shepherd.Stage.TheVariants.{Over};

use crate::opening::ProgramMaker;
use crate::shepherd::ShepherdTurn;
use call_ticket::Program;
use http_wire::requests_compose;
use outside::{Clock, Link, Random, Serials};

/// A connection stands from its begin on. It stands with the bytes that are fed to it, and where no more come; a
/// request that is taken off is the next one of the bytes; what is put out joins what was; and an item is that of the
/// request that was open. It stands where its stage, its front and its bytes are as they were (`still`).
pub fn connections_stand<P, C: Clock, R: Random, S: Serials>()
    ensures begins { Standing {P = P} [] [] [] [] fresh }
    ensures still { (fed : List ℕ) (heads : List Head) (written : List ℕ) (items : List Item) (s new : Shepherd P) → new.stage ≡ s.stage
        → new.front ≡ s.front → new.received ≡ s.received → Standing fed heads written items s
        → Standing fed heads written items new }
    ensures fed { (fed more : List ℕ) (heads : List Head) (written : List ℕ) (items : List Item) (s : Shepherd P) → Standing fed heads written items s
        → Standing (fed ++ more) heads written items (record s { received = s.received ++ more }) }
    ensures ended { (fed : List ℕ) (heads : List Head) (written : List ℕ) (items : List Item) (s : Shepherd P) → Standing fed heads written items s
        → Standing fed heads written items (record s { ended = true }) }
    ensures taken { (key : List ℕ) (home : HomeBoot) (counts : LinkCounts) (fed : List ℕ) (heads : List Head) (written : List ℕ) (items : List Item)
        (s new : Shepherd P) (clock clock_after : C) (random random_after : R) (serials serials_after : S)
        → turn s ≡ ShepherdTurn.Request → TakesRequest C.told R.gives S.looks key home counts
        s clock random serials new clock_after random_after serials_after
        → Standing fed heads written items s
        → Standing fed (heads ++ heads_in (taken_of s.received)) written items new }
    ensures out { (fed : List ℕ) (heads : List Head) (written bytes : List ℕ) (items : List Item) (s : Shepherd P) (stage : Stage P)
        → turn s ≡ ShepherdTurn.Output → PutsOut s.stage bytes stage → Standing fed heads written items s
        → Standing fed heads (written ++ bytes) items (record s { stage = stage }) }
    ensures item { (fed : List ℕ) (heads : List Head) (written : List ℕ) (items : List Item) (i : Item) (s : Shepherd P) (stage : Stage P)
        → TakesItem s.stage i stage → Standing fed heads written items s
        → Standing fed heads written (items ++ i ∷ []) (record s { front = i.holds.front; stage = stage }) }
{
    requests_compose();
}

/// A connection stands with each step of the request that is open, whatever others did before it.
pub fn connections_stand_with_their_requests<P: Program, L: Link, M: ProgramMaker<P>>()
    ensures outside { (fed : List ℕ) (heads : List Head) (written : List ℕ) (items : List Item) (old new : Shepherd P) (link after : L)
        → ShepherdSteps (λ v w. VisitsOutside L.makes L.tally v link w after) old new
        → Standing fed heads written items old → Standing fed heads written items new }
    ensures windows { (fed : List ℕ) (heads : List Head) (written : List ℕ) (items : List Item) (old new : Shepherd P) (windows after : WindowsValue)
        → ShepherdSteps (λ v w. VisitsWindows v windows w after) old new
        → Standing fed heads written items old → Standing fed heads written items new }
    ensures inside { (fed : List ℕ) (heads : List Head) (written : List ℕ) (items : List Item) (old new : Shepherd P) (container after : ContainerValue)
        → ShepherdSteps (λ v w. VisitsInside P.asks v container w after) old new
        → Standing fed heads written items old → Standing fed heads written items new }
    ensures advance { (fed : List ℕ) (heads : List Head) (written key : List ℕ) (items : List Item) (old new : Shepherd P)
        → ShepherdSteps (λ v w. Advances key v v.work w) old new
        → Standing fed heads written items old → Standing fed heads written items new }
    ensures open { (fed : List ℕ) (heads : List Head) (written : List ℕ) (items : List Item) (s : Shepherd P) (stage : Stage P) (maker : M)
        (worker : WorkerNo) → turn s ≡ ShepherdTurn.Program → OpensStage M.makes maker worker s.stage stage
        → Standing fed heads written items s → Standing fed heads written items (record s { stage = stage }) }
    ensures given_back { (fed : List ℕ) (heads : List Head) (written : List ℕ) (items : List Item) (s : Shepherd P) (stage : Stage P)
        (windows after : WindowsValue) → GivesBack s.stage windows stage after → Standing fed heads written items s
        → Standing fed heads written items (record s { stage = stage }) }
    ensures given_up { (fed : List ℕ) (heads : List Head) (written : List ℕ) (items : List Item) (s : Shepherd P) → Standing fed heads written items s
        → Standing fed heads written items (record s { stage = dropped_stage s.stage }) }
{}

/// The items of a connection are for the first requests of its bytes, in order, each once, and what was put out are the
/// bytes that were put out for each, in order, whatever bytes follow and however they were cut; and where it has ended,
/// and memory was not wanted, they are for all. Where it has ended at what is refused, the last response was put out
/// behind them (`last`). All requests of the bytes begin with those that were taken off. A request whose program is to
/// be made has a call, and the moment of each is below the end of moments.
pub fn items_are_for_requests_in_order<P>()
    ensures first { (fed more : List ℕ) (heads : List Head) (written : List ℕ) (items : List Item) (s : Shepherd P) → Standing fed heads written items s
        → HasServedFirst fed written items more }
    ensures taken { (fed more : List ℕ) (heads : List Head) (written : List ℕ) (items : List Item) (s : Shepherd P)
        → Standing fed heads written items s
        → requests (fed ++ more) ≡ all_before heads (coming s.stage (s.received ++ more)) }
    ensures all { (fed : List ℕ) (heads : List Head) (written : List ℕ) (items : List Item) (s : Shepherd P) (end : EndKind)
        → turn s ≡ ShepherdTurn.Ended end → end ≢ OutOfMemory → Standing fed heads written items s
        → HasServedAll fed written items end }
    ensures last { (fed : List ℕ) (heads : List Head) (written : List ℕ) (items : List Item) (s : Shepherd P) (why : Untaken)
        → s.stage ≡ Over (Refused why) → Standing fed heads written items s
        → (served : List Served) × (items ≡ items_of served) × (written ≡ responses_of served ++ last_response why) }
    ensures asked { (fed : List ℕ) (heads : List Head) (written : List ℕ) (items : List Item) (s : Shepherd P) → turn s ≡ ShepherdTurn.Program
        → Standing fed heads written items s → OnVisit s.stage (λ v call. call ≢ None) }
    ensures item { (s : Shepherd P) → turn s ≡ ShepherdTurn.Item → has_item s.stage ≡ true }
    ensures moment { (fed : List ℕ) (heads : List Head) (written : List ℕ) (items : List Item) (s : Shepherd P) → turn s ≡ ShepherdTurn.Inside
        → Standing fed heads written items s → OnVisit s.stage (λ v call. v.facts.now.0 < 2 ^ 62) }
{
    requests_compose();
}
