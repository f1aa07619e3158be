//! The law of connections that stopped, since memory was wanted. It is the contract of a function that does nothing: a
//! caller that needs the law calls the function.

ghost use Rattle.std.specs.Prelude.{◌≡◌, ◌≢◌, ◌⊎◌, ◌≤◌, ℕ, false, List, [], ◌∷◌, ◌++◌, length, map, None};
ghost use Rattle.boot_core.specs.declared.boot.Start.{Start};
ghost use Rattle.container_core.specs.declared.history.Event.{Event};
ghost use Rattle.outcome_items.specs.Traces.{uncounted};
ghost use Rattle.outcome_items.specs.declared.item.Item.{Item};
ghost use Rattle.request_visit.specs.declared.visit.Work.TheVariants.{Opening};
ghost use Rattle.send_windows.specs.Windows.{WindowsValue};
ghost use Rattle.send_windows.specs.declared.history.WindowMark.{WindowMark};
ghost use Rattle.send_windows.specs.declared.history.WindowMark.TheVariants as mark;
ghost use Rattle.send_windows.specs.declared.windows.TakeRefusal.TheVariants as refusal;
ghost use Rattle.session_way.specs.Way.{IsRefused};
ghost use Rattle.shepherd.specs.Accounting.{Accounting, IsAccountedFor};
ghost use Rattle.shepherd.specs.Shepherds.{has_item};
ghost use Rattle.shepherd.specs.Standing.{has_left};
ghost use Rattle.shepherd.specs.Steps.{GivesBack, IfOpen, IsServedStill, OnVisit, StepsVisit, dropped_stage};
ghost use Rattle.shepherd.specs.Stopping.{AreOfOne, StageMarks, Stopped, StopsWith};
ghost use Rattle.shepherd.specs.declared.shepherd.Shepherd.{Shepherd};
ghost use Rattle.shepherd.specs.declared.shepherd.Stage.{Stage};
ghost use Rattle.shepherd.specs.declared.shepherd.Stage.TheVariants.{Serving};

use call_ticket::Program;
use outside::Link;
use request_visit::{requests_account_for_their_events, requests_account_for_their_marks};

/// A connection that stops, since memory was wanted, accounts for what it has added and left by then, and for what is
/// given back after that: the events and marks of its items, in order, and then one event at most, and the marks of one
/// request at most (`told`). Once its passes were given back, none that it took are left unspent (`spent`).
///
/// So it is after each call that wanted memory. `feed`, `take_request` and `step_outside` leave the stage as it was
/// (`still`), `step_inside` the request served in the container (`inside`), `advance` a request whose work is lost
/// (`opening`), and `open` a request without its call (`unmade`); `step_windows` was to take passes (`refused`).
/// Where the response of the request has not left, no item comes any more (`no_item`): so it is after `advance` and
/// `step_inside` that wanted memory (`unsent`), and after each other call that did where it was so before
/// (`unsent_still`).
pub fn stopped_connections_account_for_what_they_left<P: Program, L: Link>()
    ensures stops { (start : Start) (history own : List Event) (marks : List WindowMark) (items : List Item)
        (s : Shepherd P) → Accounting P.asks start history own marks items s
        → Stopped P.asks start history own marks items s }
    ensures meanwhile { (start : Start) (history more own : List Event) (marks : List WindowMark) (items : List Item)
        (s : Shepherd P) → Stopped P.asks start history own marks items s
        → Stopped P.asks start (history ++ more) own marks items s }
    ensures still { (start : Start) (history own : List Event) (marks : List WindowMark) (items : List Item)
        (s new : Shepherd P) → new.stage ≡ s.stage → Stopped P.asks start history own marks items s
        → Stopped P.asks start history own marks items new }
    ensures kept { (start : Start) (history own : List Event) (marks : List WindowMark) (items : List Item)
        (s new : Shepherd P) → StepsVisit (λ v after. after.way ≡ v.way) s.stage new.stage
        → Stopped P.asks start history own marks items s → Stopped P.asks start history own marks items new }
    ensures inside { (start : Start) (history own : List Event) (marks : List WindowMark) (items : List Item)
        (s new : Shepherd P) → StepsVisit IsServedStill s.stage new.stage
        → Stopped P.asks start history own marks items s → Stopped P.asks start history own marks items new }
    ensures opening { (start : Start) (history own : List Event) (marks : List WindowMark) (items : List Item)
        (s new : Shepherd P) → StepsVisit (λ v after. after ≡ record v { work = Opening }) s.stage new.stage
        → Stopped P.asks start history own marks items s → Stopped P.asks start history own marks items new }
    ensures unmade { (start : Start) (history own : List Event) (marks : List WindowMark) (items : List Item)
        (s new : Shepherd P) → OnVisit s.stage (λ v call. new.stage ≡ Serving v None)
        → Stopped P.asks start history own marks items s → Stopped P.asks start history own marks items new }
    ensures refused { (start : Start) (history own : List Event) (marks : List WindowMark) (items : List Item)
        (s new : Shepherd P) (windows after : WindowsValue)
        → StepsVisit (λ v w. IsRefused v.way windows w.way after refusal.OutOfMemory) s.stage new.stage
        → Stopped P.asks start history own marks items s
        → StopsWith P.asks start history own marks items windows after new }
    ensures given_up { (start : Start) (history own : List Event) (marks : List WindowMark) (items : List Item)
        (s : Shepherd P) → Stopped P.asks start history own marks items s
        → Stopped P.asks start history own marks items (record s { stage = dropped_stage s.stage }) }
    ensures given_back { (start : Start) (history own : List Event) (marks : List WindowMark) (items : List Item)
        (s : Shepherd P) (stage : Stage P) (windows after : WindowsValue) → GivesBack s.stage windows stage after
        → Stopped P.asks start history own marks items s
        → StopsWith P.asks start history own marks items windows after (record s { stage = stage }) }
    ensures told { (start : Start) (history own : List Event) (marks : List WindowMark) (items : List Item)
        (s : Shepherd P) → Stopped P.asks start history own marks items s
        → (open_own : List Event) × (open_marks : List WindowMark)
        × IsAccountedFor start history own marks items open_own open_marks
        × (length open_own ≤ 1) × AreOfOne open_marks × StageMarks s.stage open_marks }
    ensures spent { (start : Start) (history own : List Event) (marks : List WindowMark) (items : List Item)
        (s : Shepherd P) (stage : Stage P) (windows after : WindowsValue) → GivesBack s.stage windows stage after
        → Stopped P.asks start history own marks items s
        → (added : List WindowMark) × (after.history ≡ windows.history ++ added)
        × (open_own : List Event) × (open_marks : List WindowMark)
        × IsAccountedFor start history own (marks ++ map uncounted added) items open_own open_marks
        × (length open_own ≤ 1) × AreOfOne open_marks × (open_marks ≢ mark.Taken 0 ∷ []) }
    ensures no_item { (s : Shepherd P) (stage : Stage P) (windows after : WindowsValue)
        → GivesBack s.stage windows stage after → IfOpen s.stage (λ v call. has_left v.work ≡ false)
        → has_item stage ≡ false }
    ensures unsent { (s new : Shepherd P) → StepsVisit (λ v after. after ≡ record v { work = Opening }) s.stage new.stage
        ⊎ StepsVisit IsServedStill s.stage new.stage → IfOpen new.stage (λ v call. has_left v.work ≡ false) }
    ensures unsent_still { (s new : Shepherd P) → (new.stage ≡ s.stage)
        ⊎ (StepsVisit (λ v after. after ≡ record v { way = after.way }) s.stage new.stage
        ⊎ OnVisit s.stage (λ v call. new.stage ≡ Serving v None)) → IfOpen s.stage (λ v call. has_left v.work ≡ false)
        → IfOpen new.stage (λ v call. has_left v.work ≡ false) }
{
    requests_account_for_their_events::<P>();
    requests_account_for_their_marks::<P, L>();
}
