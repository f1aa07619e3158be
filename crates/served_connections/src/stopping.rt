//! The law of connections that stop where memory is wanted. It is the contract of a function that does nothing: a
//! caller that needs the law calls the function.

ghost use Rattle.std.specs.Prelude.{◌≡◌, ◌≤◌, ℕ, true, List, [], ◌∷◌, ◌++◌, None};
ghost use mathlib.Core.List.{IsPrefix};
ghost use Rattle.boot_core.specs.declared.boot.Start.{Start};
ghost use Rattle.container_core.specs.declared.history.Event.{Event};
ghost use Rattle.outcome_items.specs.declared.item.Item.{Item};
ghost use Rattle.outside.specs.declared.link.LinkCounts.{LinkCounts};
ghost use Rattle.request_visit.specs.declared.visit.Work.TheVariants.{Opening};
ghost use Rattle.send_windows.specs.Windows.{WindowsValue};
ghost use Rattle.send_windows.specs.declared.windows.TakeRefusal.TheVariants as refusal;
ghost use Rattle.served_items.specs.Attributing.{Service};
ghost use Rattle.session_way.specs.Way.{BreaksOffOutside, IsRefused};
ghost use Rattle.shepherd.specs.Shepherds.{has_item, turn};
ghost use Rattle.shepherd.specs.Steps.{GivesBack, IsServedStill, OnVisit, StepsVisit, TakesItem, dropped_stage};
ghost use Rattle.shepherd.specs.declared.shepherd.Shepherd.{Shepherd};
ghost use Rattle.shepherd.specs.declared.shepherd.Stage.{Stage};
ghost use Rattle.shepherd.specs.declared.shepherd.Stage.TheVariants.{Serving};
ghost use Rattle.served_connections.specs.Courses.{Begun, Course};
ghost use Rattle.served_connections.specs.Serving.{Serves};
ghost use Rattle.served_connections.specs.Stopping.{HoldsNothing, ServesSoFar, StopsCalling, StopsLeaving};

use crate::beginning::connections_are_served_from_their_begin;
use call_ticket::Program;
use outside::{Clock, Link, Random, Serials};
use shepherd::{ProgramMaker, ShepherdTurn, stopped_connections_account_for_what_they_left};

/// A connection that was served has been served so far behind each call that wanted memory. `feed`, `take_request` and
/// `step_outside` leave its stage as it was, and so does who wants memory before it makes a call (`bytes`, `request`,
/// `outside`, `output`, `room`). The link may have made a call then, of which its course tells (`outside`).
/// `step_windows` was to take passes, and may hold them now (`windows`); `step_inside` has added nothing (`inside`);
/// `open` has lost the call of its request (`open`), and `advance` what it had come to (`advance`).
///
/// It stays so whatever others add meanwhile, where its call is given up, and where its passes are given back: it holds
/// none from then on (`nothing_held`). An item that is left then joins its course (`item`).
pub fn connections_stop_where_memory_is_wanted<
    P: Program,
    L: Link,
    M: ProgramMaker<P>,
    C: Clock,
    R: Random,
    S: Serials,
>()
    ensures bytes { (service : Service M) (start : Start) (begun : Begun) (history : List Event)
        (counts : LinkCounts) (now : ℕ) (c : Course) (s new : Shepherd P) → turn s ≡ ShepherdTurn.Bytes
        → new.stage ≡ s.stage
        → Serves P.accepts P.asks L.makes M.makes R.gives S.looks service start begun history counts now c s
        → ServesSoFar P.accepts P.asks L.makes M.makes R.gives S.looks service start begun history counts now c new }
    ensures request { (service : Service M) (start : Start) (begun : Begun) (history : List Event)
        (counts : LinkCounts) (now : ℕ) (c : Course) (s new : Shepherd P) → turn s ≡ ShepherdTurn.Request
        → new.stage ≡ s.stage
        → Serves P.accepts P.asks L.makes M.makes R.gives S.looks service start begun history counts now c s
        → ServesSoFar P.accepts P.asks L.makes M.makes R.gives S.looks service start begun history counts now c new }
    ensures outside { (service : Service M) (start : Start) (begun : Begun) (history : List Event)
        (counts : LinkCounts) (now : ℕ) (c : Course) (s new : Shepherd P) (link after : L)
        → turn s ≡ ShepherdTurn.Outside → new.stage ≡ s.stage
        → OnVisit s.stage (λ v call. BreaksOffOutside L.makes v.way link after)
        → Serves P.accepts P.asks L.makes M.makes R.gives S.looks service start begun history counts now c s
        → StopsCalling P.accepts P.asks L.makes M.makes R.gives S.looks service start begun history counts now c new link
        after }
    ensures output { (service : Service M) (start : Start) (begun : Begun) (history : List Event)
        (counts : LinkCounts) (now : ℕ) (c : Course) (s new : Shepherd P) → turn s ≡ ShepherdTurn.Output
        → new.stage ≡ s.stage
        → Serves P.accepts P.asks L.makes M.makes R.gives S.looks service start begun history counts now c s
        → ServesSoFar P.accepts P.asks L.makes M.makes R.gives S.looks service start begun history counts now c new }
    ensures room { (service : Service M) (start : Start) (begun : Begun) (history : List Event) (counts : LinkCounts)
        (now : ℕ) (c : Course) (s new : Shepherd P) → turn s ≡ ShepherdTurn.Item → new.stage ≡ s.stage
        → Serves P.accepts P.asks L.makes M.makes R.gives S.looks service start begun history counts now c s
        → ServesSoFar P.accepts P.asks L.makes M.makes R.gives S.looks service start begun history counts now c new }
    ensures windows { (service : Service M) (start : Start) (begun : Begun) (history : List Event)
        (counts : LinkCounts) (now : ℕ) (c : Course) (s new : Shepherd P) (windows after : WindowsValue)
        → StepsVisit (λ v w. IsRefused v.way windows w.way after refusal.OutOfMemory) s.stage new.stage
        → StepsVisit (λ v w. w ≡ record v { way = w.way }) s.stage new.stage
        → Serves P.accepts P.asks L.makes M.makes R.gives S.looks service start begun history counts now c s
        → StopsLeaving P.accepts P.asks L.makes M.makes R.gives S.looks service start begun history counts now c new windows
        after }
    ensures inside { (service : Service M) (start : Start) (begun : Begun) (history : List Event)
        (counts : LinkCounts) (now : ℕ) (c : Course) (s new : Shepherd P)
        → StepsVisit IsServedStill s.stage new.stage
        → Serves P.accepts P.asks L.makes M.makes R.gives S.looks service start begun history counts now c s
        → ServesSoFar P.accepts P.asks L.makes M.makes R.gives S.looks service start begun history counts now c new }
    ensures open { (service : Service M) (start : Start) (begun : Begun) (history : List Event) (counts : LinkCounts)
        (now : ℕ) (c : Course) (s new : Shepherd P) → turn s ≡ ShepherdTurn.Program
        → OnVisit s.stage (λ v call. new.stage ≡ Serving v None)
        → Serves P.accepts P.asks L.makes M.makes R.gives S.looks service start begun history counts now c s
        → ServesSoFar P.accepts P.asks L.makes M.makes R.gives S.looks service start begun history counts now c new }
    ensures advance { (service : Service M) (start : Start) (begun : Begun) (history : List Event)
        (counts : LinkCounts) (now : ℕ) (c : Course) (s new : Shepherd P) → turn s ≡ ShepherdTurn.Own
        → StepsVisit (λ v w. w ≡ record v { work = Opening }) s.stage new.stage
        → Serves P.accepts P.asks L.makes M.makes R.gives S.looks service start begun history counts now c s
        → ServesSoFar P.accepts P.asks L.makes M.makes R.gives S.looks service start begun history counts now c new }
    ensures meanwhile { (service : Service M) (start : Start) (begun : Begun) (history after : List Event)
        (counts : LinkCounts) (now late : ℕ) (c : Course) (s : Shepherd P) → IsPrefix history after → now ≤ late
        → ServesSoFar P.accepts P.asks L.makes M.makes R.gives S.looks service start begun history counts now c s
        → ServesSoFar P.accepts P.asks L.makes M.makes R.gives S.looks service start begun after counts late c s }
    ensures given_up { (service : Service M) (start : Start) (begun : Begun) (history : List Event)
        (counts : LinkCounts) (now : ℕ) (c : Course) (s : Shepherd P)
        → ServesSoFar P.accepts P.asks L.makes M.makes R.gives S.looks service start begun history counts now c s
        → ServesSoFar P.accepts P.asks L.makes M.makes R.gives S.looks service start begun history counts now c
        (record s { stage = dropped_stage s.stage }) }
    ensures given_back { (service : Service M) (start : Start) (begun : Begun) (history : List Event)
        (counts : LinkCounts) (now : ℕ) (c : Course) (s : Shepherd P) (stage : Stage P) (windows after : WindowsValue)
        → GivesBack s.stage windows stage after
        → ServesSoFar P.accepts P.asks L.makes M.makes R.gives S.looks service start begun history counts now c s
        → StopsLeaving P.accepts P.asks L.makes M.makes R.gives S.looks service start begun history counts now c
        (record s { stage = stage }) windows after }
    ensures nothing_held { (s : Shepherd P) (stage : Stage P) (windows after : WindowsValue)
        → GivesBack s.stage windows stage after → HoldsNothing stage }
    ensures item { (service : Service M) (start : Start) (begun : Begun) (history : List Event) (counts : LinkCounts)
        (now : ℕ) (i : Item) (c : Course) (s : Shepherd P) (stage : Stage P) → has_item s.stage ≡ true
        → TakesItem s.stage i stage
        → ServesSoFar P.accepts P.asks L.makes M.makes R.gives S.looks service start begun history counts now c s
        → ServesSoFar P.accepts P.asks L.makes M.makes R.gives S.looks service start begun history counts now
        (record c { items = c.items ++ i ∷ [] }) (record s { front = i.holds.front; stage = stage }) }
    ensures item_held { (i : Item) (stage after : Stage P) → TakesItem stage i after → HoldsNothing after }
{
    connections_are_served_from_their_begin::<P, L, M, C, R, S>();
    stopped_connections_account_for_what_they_left::<P, L>();
}
