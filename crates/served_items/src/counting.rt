//! The law of what a link counted from item to item. It is the contract of a function that does nothing: a caller that
//! needs the law calls the function.

ghost use Rattle.std.specs.List.{count_by};
ghost use Rattle.std.specs.Prelude.{◌≡◌, ◌≤◌, ◌+◌, ◌*◌, ◌-◌, ◌^◌, ℕ, Bool, List, [], ◌∷◌, ◌++◌, min};
ghost use Rattle.container_core.specs.Container.{ContainerValue};
ghost use Rattle.crash_base.specs.declared.numbers.Place.{Place};
ghost use Rattle.crash_base.specs.declared.numbers.WorkerNo.{WorkerNo};
ghost use Rattle.outcome_items.specs.declared.item.Item.{Item};
ghost use Rattle.outcome_items.specs.declared.outcome.ItemOutcome.TheVariants as item;
ghost use Rattle.outside.specs.declared.link.LinkCounts.{LinkCounts};
ghost use Rattle.request_intake.specs.declared.intake.HomeBoot.{HomeBoot};
ghost use Rattle.request_visit.specs.Advancing.{Advances};
ghost use Rattle.request_visit.specs.Stepping.{VisitsInside, VisitsWindows, counted};
ghost use Rattle.send_windows.specs.Windows.{WindowsValue};
ghost use Rattle.served_items.specs.Counting.{Counting};
ghost use Rattle.shepherd.specs.Shepherds.{fresh, turn};
ghost use Rattle.shepherd.specs.Steps.{GivesBack, OpensStage, PutsOut, ShepherdSteps, TakesItem, TakesRequest, VisitsOutside, dropped_stage};
ghost use Rattle.shepherd.specs.declared.shepherd.Shepherd.{Shepherd};
ghost use Rattle.shepherd.specs.declared.shepherd.Stage.{Stage};
ghost use Rattle.ssm_stub.specs.Counted.{is_silent, is_strayed};
ghost use Rattle.ssm_stub.specs.declared.cause.BrickCause.{BrickCause};

use call_ticket::Program;
use outside::{Clock, Link, Random, Serials};
use request_visit::requests_account_for_their_causes;
use shepherd::{ProgramMaker, ShepherdTurn};

/// What a link counted rises from item to item of a connection, at each of its steps, where others only raise it
/// meanwhile. What an item tells is at least what the item before tells (`rises`). Where it tells causes, it is more by
/// a silence for each brick that was silent, and by 64 frames for each that strayed, up to the last value of a count
/// (`lost`, `missed`). The first item stands so behind what the link had counted when the connection began
/// (`first_lost`, `first_missed`).
pub fn items_account_for_their_causes<
    P: Program,
    L: Link,
    M: ProgramMaker<P>,
    C: Clock,
    R: Random,
    S: Serials,
>()
    ensures begins { (now : LinkCounts) → Counting {P = P} now now [] fresh }
    ensures meanwhile { (begin now later : LinkCounts) (items : List Item) (s : Shepherd P)
        → now.hushed ≤ later.hushed → now.got ≤ later.got → Counting begin now items s → Counting begin later items s }
    ensures still { (begin now : LinkCounts) (items : List Item) (s new : Shepherd P) → new.stage ≡ s.stage
        → Counting begin now items s → Counting begin now items new }
    ensures taken { (key : List ℕ) (home : HomeBoot) (begin now counts : LinkCounts) (items : List Item)
        (s new : Shepherd P) (clock clock_after : C) (random random_after : R) (serials serials_after : S)
        → turn s ≡ ShepherdTurn.Request → now.hushed ≤ counts.hushed → now.got ≤ counts.got
        → TakesRequest C.told R.gives S.looks key home counts s clock random serials new clock_after random_after
        serials_after → Counting begin now items s → Counting begin counts items new }
    ensures outside { (begin now : LinkCounts) (items : List Item) (old new : Shepherd P) (link after : L)
        → ShepherdSteps (λ v w. VisitsOutside L.makes L.tally v link w after) old new
        → now.hushed ≤ (L.tally link).hushed → now.got ≤ (L.tally link).got
        → Counting begin now items old → Counting begin (counted (L.tally after)) items new }
    ensures windows { (begin now : LinkCounts) (items : List Item) (old new : Shepherd P)
        (windows after : WindowsValue) → ShepherdSteps (λ v w. VisitsWindows v windows w after) old new
        → Counting begin now items old → Counting begin now items new }
    ensures inside { (begin now : LinkCounts) (items : List Item) (old new : Shepherd P)
        (container after : ContainerValue) → ShepherdSteps (λ v w. VisitsInside P.asks v container w after) old new
        → Counting begin now items old → Counting begin now items new }
    ensures advance { (begin now : LinkCounts) (items : List Item) (key : List ℕ) (old new : Shepherd P)
        → ShepherdSteps (λ v w. Advances key v v.work w) old new
        → Counting begin now items old → Counting begin now items new }
    ensures open { (begin now : LinkCounts) (items : List Item) (s : Shepherd P) (stage : Stage P) (maker : M)
        (worker : WorkerNo) → OpensStage M.makes maker worker s.stage stage
        → Counting begin now items s → Counting begin now items (record s { stage = stage }) }
    ensures out { (begin now : LinkCounts) (items : List Item) (bytes : List ℕ) (s : Shepherd P) (stage : Stage P)
        → PutsOut s.stage bytes stage
        → Counting begin now items s → Counting begin now items (record s { stage = stage }) }
    ensures item { (begin now : LinkCounts) (items : List Item) (i : Item) (s : Shepherd P) (stage : Stage P)
        → TakesItem s.stage i stage → Counting begin now items s
        → Counting begin now (items ++ i ∷ []) (record s { front = i.holds.front; stage = stage }) }
    ensures given_up { (begin now : LinkCounts) (items : List Item) (s : Shepherd P)
        → Counting begin now items s → Counting begin now items (record s { stage = dropped_stage s.stage }) }
    ensures given_back { (begin now : LinkCounts) (items : List Item) (s : Shepherd P) (stage : Stage P)
        (windows after : WindowsValue) → GivesBack s.stage windows stage after
        → Counting begin now items s → Counting begin now items (record s { stage = stage }) }
    ensures rises { (begin now : LinkCounts) (before behind : List Item) (i next : Item) (s : Shepherd P)
        → Counting begin now (before ++ i ∷ next ∷ behind) s
        → (min i.counts.hushed (2 ^ 64 - 1) ≤ next.counts.hushed)
        × (min i.counts.got (2 ^ 64 - 1) ≤ next.counts.got) }
    ensures lost { (begin now : LinkCounts) (before behind : List Item) (i next : Item) (causes : List BrickCause)
        (s : Shepherd P) → Counting begin now (before ++ i ∷ next ∷ behind) s → next.outcome ≡ item.Lost causes
        → (min (i.counts.hushed + count_by is_silent causes) (2 ^ 64 - 1) ≤ next.counts.hushed)
        × (min (i.counts.got + 64 * count_by is_strayed causes) (2 ^ 64 - 1) ≤ next.counts.got) }
    ensures missed { (begin now : LinkCounts) (before behind : List Item) (i next : Item) (place : Place)
        (again : Bool) (causes : List BrickCause) (s : Shepherd P)
        → Counting begin now (before ++ i ∷ next ∷ behind) s → next.outcome ≡ item.Missed place again causes
        → (min (i.counts.hushed + count_by is_silent causes) (2 ^ 64 - 1) ≤ next.counts.hushed)
        × (min (i.counts.got + 64 * count_by is_strayed causes) (2 ^ 64 - 1) ≤ next.counts.got) }
    ensures first_lost { (begin now : LinkCounts) (i : Item) (behind : List Item) (causes : List BrickCause)
        (s : Shepherd P) → Counting begin now (i ∷ behind) s → i.outcome ≡ item.Lost causes
        → (min (begin.hushed + count_by is_silent causes) (2 ^ 64 - 1) ≤ i.counts.hushed)
        × (min (begin.got + 64 * count_by is_strayed causes) (2 ^ 64 - 1) ≤ i.counts.got) }
    ensures first_missed { (begin now : LinkCounts) (i : Item) (behind : List Item) (place : Place) (again : Bool)
        (causes : List BrickCause) (s : Shepherd P) → Counting begin now (i ∷ behind) s
        → i.outcome ≡ item.Missed place again causes
        → (min (begin.hushed + count_by is_silent causes) (2 ^ 64 - 1) ≤ i.counts.hushed)
        × (min (begin.got + 64 * count_by is_strayed causes) (2 ^ 64 - 1) ≤ i.counts.got) }
{
    requests_account_for_their_causes::<P, L>();
}
