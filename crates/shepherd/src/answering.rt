//! Laws of what a connection puts out. Each is the contract of a function that does nothing: a caller that needs the
//! law calls the function.

ghost use Rattle.std.specs.Prelude.{◌≡◌, ℕ, true, List, [], ◌∷◌, ◌++◌};
ghost use Rattle.container_core.specs.Container.{ContainerValue, HasGrownBy, events_of};
ghost use Rattle.container_core.specs.declared.history.Event.{Event};
ghost use Rattle.crash_base.specs.declared.numbers.WorkerNo.{WorkerNo};
ghost use Rattle.http_wire.specs.Taking.{taken_of};
ghost use Rattle.http_wire.specs.declared.taken.Head.{Head};
ghost use Rattle.outcome_items.specs.declared.item.Item.{Item};
ghost use Rattle.outside.specs.declared.link.LinkCounts.{LinkCounts};
ghost use Rattle.request_intake.specs.declared.intake.HomeBoot.{HomeBoot};
ghost use Rattle.request_visit.specs.Advancing.{Advances, cookie_in};
ghost use Rattle.request_visit.specs.Stepping.{VisitsInside, VisitsWindows};
ghost use Rattle.request_visit.specs.declared.visit.Fate.{Fate};
ghost use Rattle.request_visit.specs.declared.visit.Work.TheVariants.{Left};
ghost use Rattle.send_windows.specs.Windows.{WindowsValue};
ghost use Rattle.session_way.specs.Way.{answer_held};
ghost use Rattle.shepherd.specs.Answering.{Answering, AreResponses, StageSays, heads_in};
ghost use Rattle.shepherd.specs.Shepherds.{fresh, has_item, turn};
ghost use Rattle.shepherd.specs.Steps.{GivesBack, HasAnswerIfOpen, HasLeftIfOpen, OpensStage, PutsOut, ShepherdSteps, TakesItem, TakesRequest, VisitsOutside, dropped_stage};
ghost use Rattle.shepherd.specs.declared.shepherd.Shepherd.{Shepherd};
ghost use Rattle.shepherd.specs.declared.shepherd.Stage.{Stage};

use crate::opening::ProgramMaker;
use crate::shepherd::ShepherdTurn;
use call_ticket::Program;
use outside::{Clock, Link, Random, Serials};
use request_visit::{requests_account_for_their_marks, responses_are_of_their_items};

/// A connection answers its requests in order, at each of its steps, whatever others add meanwhile: what was put out
/// for each says what became of it. While a write is settled, the cookie of its answer has to stay, and it has to have
/// its answer where its passes are given back: so it is of connections that go on (`connections_go_on.stays` and
/// `.answered`).
pub fn connections_answer_their_requests<P: Program, L: Link, M: ProgramMaker<P>>()
    ensures begins { (key : List ℕ) (history : List Event) → Answering {P = P} key history [] [] [] fresh }
    ensures meanwhile { (key : List ℕ) (history more : List Event) (heads : List Head) (written : List ℕ)
        (items : List Item) (s : Shepherd P) → Answering key history heads written items s
        → Answering key (history ++ more) heads written items s }
    ensures still { (key : List ℕ) (history : List Event) (heads : List Head) (written : List ℕ) (items : List Item)
        (s new : Shepherd P) → new.stage ≡ s.stage → Answering key history heads written items s
        → Answering key history heads written items new }
    ensures outside { (key : List ℕ) (history : List Event) (heads : List Head) (written : List ℕ) (items : List Item)
        (old new : Shepherd P) (link after : L) → turn old ≡ ShepherdTurn.Outside
        → ShepherdSteps (λ v w. VisitsOutside L.makes L.tally v link w after
        × ((fate : Fate) → v.work ≡ Left fate → cookie_in (answer_held w.way) ≡ cookie_in (answer_held v.way))) old new
        → Answering key history heads written items old → Answering key history heads written items new }
    ensures windows { (key : List ℕ) (history : List Event) (heads : List Head) (written : List ℕ) (items : List Item)
        (old new : Shepherd P) (windows after : WindowsValue) → turn old ≡ ShepherdTurn.Windows
        → ShepherdSteps (λ v w. VisitsWindows v windows w after) old new
        → Answering key history heads written items old → Answering key history heads written items new }
    ensures inside { (key : List ℕ) (heads : List Head) (written : List ℕ) (items : List Item) (old new : Shepherd P)
        (container after : ContainerValue) → ShepherdSteps (λ v w. VisitsInside P.asks v container w after) old new
        → HasGrownBy container after → Answering key (events_of container) heads written items old
        → Answering key (events_of after) heads written items new }
    ensures advance { (key : List ℕ) (history : List Event) (heads : List Head) (written : List ℕ) (items : List Item)
        (old new : Shepherd P) → turn old ≡ ShepherdTurn.Own → ShepherdSteps (λ v w. Advances key v v.work w) old new
        → Answering key history heads written items old → Answering key history heads written items new }
    ensures open { (key : List ℕ) (history : List Event) (heads : List Head) (written : List ℕ) (items : List Item)
        (s : Shepherd P) (stage : Stage P) (maker : M) (worker : WorkerNo) → turn s ≡ ShepherdTurn.Program
        → OpensStage M.makes maker worker s.stage stage → Answering key history heads written items s
        → Answering key history heads written items (record s { stage = stage }) }
    ensures out { (key : List ℕ) (history : List Event) (heads : List Head) (written bytes : List ℕ) (items : List Item)
        (s : Shepherd P) (stage : Stage P) → turn s ≡ ShepherdTurn.Output → PutsOut s.stage bytes stage
        → Answering key history heads written items s
        → Answering key history heads (written ++ bytes) items (record s { stage = stage }) }
    ensures item { (key : List ℕ) (history : List Event) (heads : List Head) (written : List ℕ) (items : List Item)
        (i : Item) (s : Shepherd P) (stage : Stage P) → has_item s.stage ≡ true → TakesItem s.stage i stage
        → Answering key history heads written items s
        → Answering key history heads written (items ++ i ∷ []) (record s { front = i.holds.front; stage = stage }) }
    ensures given_up { (key : List ℕ) (history : List Event) (heads : List Head) (written : List ℕ) (items : List Item)
        (s : Shepherd P) → Answering key history heads written items s
        → Answering key history heads written items (record s { stage = dropped_stage s.stage }) }
    ensures given_back { (key : List ℕ) (history : List Event) (heads : List Head) (written : List ℕ) (items : List Item)
        (s : Shepherd P) (stage : Stage P) (windows after : WindowsValue) → GivesBack s.stage windows stage after
        → HasLeftIfOpen s.stage → HasAnswerIfOpen s.stage → Answering key history heads written items s
        → Answering key history heads written items (record s { stage = stage }) }
{
    requests_account_for_their_marks::<P, L>();
    responses_are_of_their_items::<P>();
}

/// A request that is taken off the bytes is the next one that is answered; and where none is, what is refused has the
/// last response.
pub fn taken_requests_are_answered<P: Program, C: Clock, R: Random, S: Serials>()
    ensures { (key : List ℕ) (home : HomeBoot) (counts : LinkCounts) (history : List Event) (heads : List Head)
        (written : List ℕ) (items : List Item) (s new : Shepherd P) (clock clock_after : C)
        (random random_after : R) (serials serials_after : S) → turn s ≡ ShepherdTurn.Request
        → TakesRequest C.told R.gives S.looks key home counts
        s clock random serials new clock_after random_after serials_after
        → Answering key history heads written items s
        → Answering key history (heads ++ heads_in (taken_of s.received)) written items new }
{
    responses_are_of_their_items::<P>();
}

/// What a connection put out are the responses to its items, in order, each to the request of its head, and then what
/// has left for the request that is open, or at last for what is refused.
pub fn responses_are_to_their_items<P: Program>()
    ensures { (key : List ℕ) (history : List Event) (heads : List Head) (written : List ℕ) (items : List Item)
        (s : Shepherd P) → Answering key history heads written items s → (opened : List Head) × (last : List ℕ)
        × AreResponses key history heads written items opened last × StageSays key history opened last s.stage }
{
    responses_are_of_their_items::<P>();
}
