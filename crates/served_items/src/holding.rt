//! The law of how far the history had come for each item. It is the contract of a function that does nothing: a caller
//! that needs the law calls the function.

ghost use Rattle.std.specs.Prelude.{◌≡◌, ◌≤◌, ℕ, List, [], ◌∷◌, ◌++◌, length};
ghost use Rattle.container_core.specs.Container.{ContainerValue, HasGrownBy, events_of};
ghost use Rattle.container_core.specs.declared.history.Event.{Event};
ghost use Rattle.crash_base.specs.declared.numbers.WorkerNo.{WorkerNo};
ghost use Rattle.outcome_items.specs.declared.item.Item.{Item};
ghost use Rattle.outside.specs.declared.link.LinkCounts.{LinkCounts};
ghost use Rattle.request_intake.specs.declared.intake.HomeBoot.{HomeBoot};
ghost use Rattle.request_visit.specs.Advancing.{Advances};
ghost use Rattle.request_visit.specs.Stepping.{VisitsInside, VisitsWindows};
ghost use Rattle.send_windows.specs.Windows.{WindowsValue};
ghost use Rattle.served_items.specs.Holding.{Holding};
ghost use Rattle.shepherd.specs.Shepherds.{fresh, turn};
ghost use Rattle.shepherd.specs.Steps.{GivesBack, OpensStage, PutsOut, ShepherdSteps, TakesItem, TakesRequest, VisitsOutside, dropped_stage};
ghost use Rattle.shepherd.specs.declared.shepherd.Shepherd.{Shepherd};
ghost use Rattle.shepherd.specs.declared.shepherd.Stage.{Stage};

use call_ticket::Program;
use outside::{Clock, Link, Random, Serials};
use shepherd::{ProgramMaker, ShepherdTurn};

/// An item is never older than what its connection has seen. Where the container was held for an item, its history had
/// at least as many events then as when the connection began (`since`), and as when it was held for each item before
/// (`later`), and no more than it has now (`within`). So it is at each step of the connection, whatever others add
/// meanwhile.
pub fn items_are_held_in_order<
    P: Program,
    L: Link,
    M: ProgramMaker<P>,
    C: Clock,
    R: Random,
    S: Serials,
>()
    ensures begins { (history : List Event) → Holding {P = P} (length history) history [] fresh }
    ensures meanwhile { (begun : ℕ) (history more : List Event) (items : List Item) (s : Shepherd P)
        → Holding begun history items s → Holding begun (history ++ more) items s }
    ensures still { (begun : ℕ) (history : List Event) (items : List Item) (s new : Shepherd P)
        → new.stage ≡ s.stage → Holding begun history items s → Holding begun history items new }
    ensures taken { (key : List ℕ) (home : HomeBoot) (counts : LinkCounts) (begun : ℕ) (history : List Event)
        (items : List Item) (s new : Shepherd P) (clock clock_after : C) (random random_after : R)
        (serials serials_after : S) → turn s ≡ ShepherdTurn.Request
        → TakesRequest C.told R.gives S.looks key home counts s clock random serials new clock_after random_after
        serials_after → Holding begun history items s → Holding begun history items new }
    ensures outside { (begun : ℕ) (history : List Event) (items : List Item) (old new : Shepherd P) (link after : L)
        → ShepherdSteps (λ v w. VisitsOutside L.makes L.tally v link w after) old new
        → Holding begun history items old → Holding begun history items new }
    ensures windows { (begun : ℕ) (history : List Event) (items : List Item) (old new : Shepherd P)
        (windows after : WindowsValue) → ShepherdSteps (λ v w. VisitsWindows v windows w after) old new
        → Holding begun history items old → Holding begun history items new }
    ensures inside { (begun : ℕ) (items : List Item) (old new : Shepherd P) (container after : ContainerValue)
        → ShepherdSteps (λ v w. VisitsInside P.asks v container w after) old new → HasGrownBy container after
        → Holding begun (events_of container) items old → Holding begun (events_of after) items new }
    ensures advance { (begun : ℕ) (history : List Event) (items : List Item) (key : List ℕ) (old new : Shepherd P)
        → ShepherdSteps (λ v w. Advances key v v.work w) old new
        → Holding begun history items old → Holding begun history items new }
    ensures open { (begun : ℕ) (history : List Event) (items : List Item) (s : Shepherd P) (stage : Stage P)
        (maker : M) (worker : WorkerNo) → OpensStage M.makes maker worker s.stage stage
        → Holding begun history items s → Holding begun history items (record s { stage = stage }) }
    ensures out { (begun : ℕ) (history : List Event) (items : List Item) (bytes : List ℕ) (s : Shepherd P)
        (stage : Stage P) → PutsOut s.stage bytes stage
        → Holding begun history items s → Holding begun history items (record s { stage = stage }) }
    ensures item { (begun : ℕ) (history : List Event) (items : List Item) (i : Item) (s : Shepherd P)
        (stage : Stage P) → TakesItem s.stage i stage → Holding begun history items s
        → Holding begun history (items ++ i ∷ []) (record s { front = i.holds.front; stage = stage }) }
    ensures given_up { (begun : ℕ) (history : List Event) (items : List Item) (s : Shepherd P)
        → Holding begun history items s
        → Holding begun history items (record s { stage = dropped_stage s.stage }) }
    ensures given_back { (begun : ℕ) (history : List Event) (items : List Item) (s : Shepherd P) (stage : Stage P)
        (windows after : WindowsValue) → GivesBack s.stage windows stage after
        → Holding begun history items s → Holding begun history items (record s { stage = stage }) }
    ensures since { (begun : ℕ) (history : List Event) (before behind : List Item) (i : Item) (s : Shepherd P)
        → Holding begun history (before ++ i ∷ behind) s → 1 ≤ i.holds.held → begun ≤ i.holds.held }
    ensures later { (begun : ℕ) (history : List Event) (before between behind : List Item) (i later : Item)
        (s : Shepherd P) → Holding begun history (before ++ i ∷ (between ++ later ∷ behind)) s
        → 1 ≤ later.holds.held → i.holds.held ≤ later.holds.held }
    ensures within { (begun : ℕ) (history : List Event) (before behind : List Item) (i : Item) (s : Shepherd P)
        → Holding begun history (before ++ i ∷ behind) s → i.holds.held ≤ length history }
{}
