//! Laws of what a connection adds and leaves. Each is the contract of a function that does nothing: a caller that needs
//! the law calls the function.

ghost use Rattle.std.specs.Prelude.{◌≡◌, ℕ, List, [], ◌∷◌, ◌++◌, true};
ghost use Rattle.boot_core.specs.declared.boot.Start.{Start};
ghost use Rattle.container_core.specs.Container.{ContainerValue, HasGrownBy, events_of};
ghost use Rattle.container_core.specs.History.{entries_in};
ghost use Rattle.container_core.specs.declared.history.Event.{Event};
ghost use Rattle.crash_base.specs.declared.numbers.WorkerNo.{WorkerNo};
ghost use Rattle.outcome_items.specs.declared.item.Item.{Item};
ghost use Rattle.outside.specs.declared.link.LinkCounts.{LinkCounts};
ghost use Rattle.request_intake.specs.declared.intake.HomeBoot.{HomeBoot};
ghost use Rattle.request_visit.specs.Advancing.{Advances};
ghost use Rattle.request_visit.specs.Stepping.{VisitsInside, VisitsWindows};
ghost use Rattle.request_visit.specs.Visits.{turn as visit_turn};
ghost use Rattle.request_visit.specs.declared.visit.Turn.TheVariants as visit;
ghost use Rattle.send_windows.specs.Windows.{WindowsValue};
ghost use Rattle.send_windows.specs.declared.history.WindowMark.{WindowMark};
ghost use Rattle.shepherd.specs.Accounting.{Accounting, AddsEvents, IsAccountedFor, LeavesMarks, StageTells};
ghost use Rattle.shepherd.specs.Shepherds.{fresh, has_item, turn};
ghost use Rattle.shepherd.specs.Standing.{has_left};
ghost use Rattle.shepherd.specs.Steps.{GivesBack, HasAnswerIfOpen, HasLeftIfOpen, OnVisit, OpensStage, PutsOut, ShepherdSteps, TakesItem, TakesRequest, VisitsOutside, dropped_stage};
ghost use Rattle.shepherd.specs.declared.shepherd.Shepherd.{Shepherd};
ghost use Rattle.shepherd.specs.declared.shepherd.Stage.{Stage};

use crate::opening::ProgramMaker;
use crate::shepherd::ShepherdTurn;
use call_ticket::Program;
use outside::{Clock, Link, Random, Serials};
use request_visit::{requests_account_for_their_events, requests_account_for_their_marks};

/// A connection accounts for each event that it adds to the history of the container, and for each mark that it leaves
/// in that of the windows, at each of its steps, whatever others add meanwhile. So it is where passes are given back
/// behind a response whose write has its answer (`connections_go_on.answered`); and its item is next then.
pub fn connections_account_for_what_they_add<P: Program, L: Link, M: ProgramMaker<P>>()
    ensures begins { (start : Start) (history : List Event) → Accounting P.asks start history [] [] [] fresh }
    ensures meanwhile { (start : Start) (history more own : List Event) (marks : List WindowMark) (items : List Item)
        (s : Shepherd P) → Accounting P.asks start history own marks items s
        → Accounting P.asks start (history ++ more) own marks items s }
    ensures still { (start : Start) (history own : List Event) (marks : List WindowMark) (items : List Item)
        (s new : Shepherd P) → new.stage ≡ s.stage → Accounting P.asks start history own marks items s
        → Accounting P.asks start history own marks items new }
    ensures outside { (start : Start) (history own : List Event) (marks : List WindowMark) (items : List Item)
        (old new : Shepherd P) (link after : L) → ShepherdSteps (λ v w. VisitsOutside L.makes L.tally v link w after) old new
        → Accounting P.asks start history own marks items old → Accounting P.asks start history own marks items new }
    ensures windows { (start : Start) (history own : List Event) (marks : List WindowMark) (items : List Item)
        (old new : Shepherd P) (windows after : WindowsValue) → turn old ≡ ShepherdTurn.Windows
        → ShepherdSteps (λ v w. VisitsWindows v windows w after) old new
        → Accounting P.asks start history own marks items old
        → LeavesMarks P.asks start history own marks items windows after new }
    ensures inside { (own : List Event) (marks : List WindowMark) (items : List Item) (old new : Shepherd P)
        (container after : ContainerValue) → ShepherdSteps (λ v w. VisitsInside P.asks v container w after) old new
        → entries_in container.since ≡ container.boot.entries → HasGrownBy container after
        → Accounting P.asks container.boot.start (events_of container) own marks items old
        → AddsEvents P.asks own marks items container after new }
    ensures advance { (start : Start) (history own : List Event) (marks : List WindowMark) (key : List ℕ)
        (items : List Item) (old new : Shepherd P) → turn old ≡ ShepherdTurn.Own
        → ShepherdSteps (λ v w. Advances key v v.work w) old new
        → Accounting P.asks start history own marks items old → Accounting P.asks start history own marks items new }
    ensures open { (start : Start) (history own : List Event) (marks : List WindowMark) (items : List Item)
        (s : Shepherd P) (stage : Stage P) (maker : M) (worker : WorkerNo) → turn s ≡ ShepherdTurn.Program
        → OpensStage M.makes maker worker s.stage stage → Accounting P.asks start history own marks items s
        → Accounting P.asks start history own marks items (record s { stage = stage }) }
    ensures out { (start : Start) (history own : List Event) (marks : List WindowMark) (bytes : List ℕ)
        (items : List Item) (s : Shepherd P) (stage : Stage P) → turn s ≡ ShepherdTurn.Output
        → PutsOut s.stage bytes stage → Accounting P.asks start history own marks items s
        → Accounting P.asks start history own marks items (record s { stage = stage }) }
    ensures item { (start : Start) (history own : List Event) (marks : List WindowMark) (items : List Item) (i : Item)
        (s : Shepherd P) (stage : Stage P) → has_item s.stage ≡ true → TakesItem s.stage i stage
        → Accounting P.asks start history own marks items s
        → Accounting P.asks start history own marks (items ++ i ∷ []) (record s { front = i.holds.front; stage = stage }) }
    ensures given_up { (start : Start) (history own : List Event) (marks : List WindowMark) (items : List Item)
        (s : Shepherd P) → Accounting P.asks start history own marks items s
        → Accounting P.asks start history own marks items (record s { stage = dropped_stage s.stage }) }
    ensures given_back { (start : Start) (history own : List Event) (marks : List WindowMark) (items : List Item)
        (s : Shepherd P) (stage : Stage P) (windows after : WindowsValue) → GivesBack s.stage windows stage after
        → HasLeftIfOpen s.stage → HasAnswerIfOpen s.stage → Accounting P.asks start history own marks items s
        → LeavesMarks P.asks start history own marks items windows after (record s { stage = stage }) }
    ensures item_next { (s : Shepherd P) (stage : Stage P) (windows after : WindowsValue)
        → GivesBack s.stage windows stage after → OnVisit s.stage (λ v call. has_left v.work ≡ true)
        → has_item stage ≡ true }
{
    requests_account_for_their_events::<P>();
    requests_account_for_their_marks::<P, L>();
}

/// A request that is taken off the bytes has added nothing, and left no mark.
pub fn taken_requests_add_nothing<P: Program, C: Clock, R: Random, S: Serials>()
    ensures { (key : List ℕ) (home : HomeBoot) (counts : LinkCounts) (start : Start) (history own : List Event)
        (marks : List WindowMark) (items : List Item) (s new : Shepherd P) (clock clock_after : C)
        (random random_after : R) (serials serials_after : S) → turn s ≡ ShepherdTurn.Request
        → TakesRequest C.told R.gives S.looks key home counts
        s clock random serials new clock_after random_after serials_after
        → Accounting P.asks start history own marks items s → Accounting P.asks start history own marks items new }
{
    requests_account_for_their_events::<P>();
}

/// A connection's own events are those that its items tell of, in order, over the history as it is now, and then what
/// the request that is open has added; and so are its marks. Each item stands: this became of its request, as the
/// history shows.
pub fn items_tell_what_was_added<P: Program, L: Link>()
    ensures { (start : Start) (history own : List Event) (marks : List WindowMark) (items : List Item) (s : Shepherd P)
        → Accounting P.asks start history own marks items s
        → (open_own : List Event) × (open_marks : List WindowMark)
        × IsAccountedFor start history own marks items open_own open_marks
        × StageTells P.asks start history open_own open_marks s.stage }
{
    requests_account_for_their_events::<P>();
    requests_account_for_their_marks::<P, L>();
}
