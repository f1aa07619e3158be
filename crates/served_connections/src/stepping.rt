//! The law of the steps of a connection that is served. It is the contract of a function that does nothing: a caller
//! that needs the law calls the function.

ghost use Rattle.std.specs.Prelude.{◌≡◌, ◌≤◌, ℕ, List};
ghost use mathlib.Core.List.{IsPrefix};
ghost use Rattle.auction_calls.specs.declared.action.ActionCall.{ActionCall};
ghost use Rattle.boot_core.specs.declared.boot.Start.{Start};
ghost use Rattle.container_core.specs.Container.{ContainerValue, HasGrownBy, events_of};
ghost use Rattle.container_core.specs.History.{entries_in};
ghost use Rattle.container_core.specs.declared.history.Event.{Event};
ghost use Rattle.crash_base.specs.declared.numbers.WorkerNo.{WorkerNo};
ghost use Rattle.outside.specs.declared.link.LinkCounts.{LinkCounts};
ghost use Rattle.request_visit.specs.Advancing.{Advances};
ghost use Rattle.request_visit.specs.Stepping.{VisitsInside, VisitsWindows, counted};
ghost use Rattle.send_windows.specs.Windows.{WindowsValue};
ghost use Rattle.served_items.specs.Attributing.{Service};
ghost use Rattle.served_items.specs.Counting.{AreReached};
ghost use Rattle.session_cookie.specs.declared.cookie.TheConstants.{MAX_HOLDERS};
ghost use Rattle.shepherd.specs.Shepherds.{turn};
ghost use Rattle.shepherd.specs.Steps.{OpensStage, ShepherdSteps, VisitsOutside};
ghost use Rattle.shepherd.specs.declared.shepherd.Shepherd.{Shepherd};
ghost use Rattle.shepherd.specs.declared.shepherd.Stage.{Stage};
ghost use Rattle.served_connections.specs.Courses.{Begun, Course};
ghost use Rattle.served_connections.specs.Serving.{Serves, ServesAdding, ServesAtWindows, ServesCalling};

use call_ticket::Program;
use container_core::histories_grow;
use outside::{Clock, Link, Random, Serials};
use request_tries::ends_begin_with_the_first_try;
use request_visit::requests_account_for_their_events;
use served_items::{items_account_for_their_causes, items_are_held_in_order};
use session_way::ways_have_answers;
use shepherd::{
    ProgramMaker, ShepherdTurn, connections_account_for_what_they_add,
    connections_answer_their_requests, connections_go_on, connections_stand_with_their_requests,
};
use ssm_stub::answers_stay;

/// A connection is served behind each step of the request that is open: a call of the link, which has counted no less
/// than the connection saw last, and which its course then tells of; a call of the windows, which leaves marks; a call
/// of the container, whose history is the one that the connection saw last, or longer, and which adds events; the
/// making of its program, which the container's deployment accepts; and what it does by itself.
pub fn connections_are_served_behind_their_steps<
    P: Program,
    L: Link,
    M: ProgramMaker<P>,
    C: Clock,
    R: Random,
    S: Serials,
>()
    ensures outside { (service : Service M) (start : Start) (begun : Begun) (history : List Event)
        (counts : LinkCounts) (now : ℕ) (c : Course) (old new : Shepherd P) (link after : L)
        → turn old ≡ ShepherdTurn.Outside → AreReached counts (counted (L.tally link))
        → ShepherdSteps (λ v w. VisitsOutside L.makes L.tally v link w after) old new
        → Serves P.accepts P.asks L.makes M.makes R.gives S.looks service start begun history counts now c old
        → ServesCalling P.accepts P.asks L.makes M.makes R.gives S.looks service start begun history
        (counted (L.tally after)) now c new link after }
    ensures windows { (service : Service M) (start : Start) (begun : Begun) (history : List Event)
        (counts : LinkCounts) (now : ℕ) (c : Course) (old new : Shepherd P) (windows after : WindowsValue)
        → turn old ≡ ShepherdTurn.Windows → 1 ≤ windows.wq → windows.wq ≤ MAX_HOLDERS
        → ShepherdSteps (λ v w. VisitsWindows v windows w after) old new
        → Serves P.accepts P.asks L.makes M.makes R.gives S.looks service start begun history counts now c old
        → ServesAtWindows P.accepts P.asks L.makes M.makes R.gives S.looks service start begun history counts now c new
        windows after }
    ensures inside { (service : Service M) (start : Start) (begun : Begun) (history : List Event)
        (counts : LinkCounts) (now : ℕ) (c : Course) (old new : Shepherd P) (before after : ContainerValue)
        → IsPrefix history (events_of before) → entries_in before.since ≡ before.boot.entries
        → entries_in after.since ≡ after.boot.entries → HasGrownBy before after
        → ShepherdSteps (λ v w. VisitsInside P.asks v before w after) old new
        → Serves P.accepts P.asks L.makes M.makes R.gives S.looks service start begun history counts now c old
        → ServesAdding P.accepts P.asks L.makes M.makes R.gives S.looks service start begun before after counts now c
        new }
    ensures open { (service : Service M) (start : Start) (begun : Begun) (history : List Event) (counts : LinkCounts)
        (now : ℕ) (c : Course) (s : Shepherd P) (stage : Stage P) (worker : WorkerNo) → turn s ≡ ShepherdTurn.Program
        → ((call : ActionCall) (text : List ℕ) (program : P) → M.makes service.maker call text program
        → P.accepts program start.deployment)
        → OpensStage M.makes service.maker worker s.stage stage
        → Serves P.accepts P.asks L.makes M.makes R.gives S.looks service start begun history counts now c s
        → Serves P.accepts P.asks L.makes M.makes R.gives S.looks service start begun history counts now c
        (record s { stage = stage }) }
    ensures advance { (service : Service M) (start : Start) (begun : Begun) (history : List Event)
        (counts : LinkCounts) (now : ℕ) (c : Course) (old new : Shepherd P) → turn old ≡ ShepherdTurn.Own
        → ShepherdSteps (λ v w. Advances service.key v v.work w) old new
        → Serves P.accepts P.asks L.makes M.makes R.gives S.looks service start begun history counts now c old
        → Serves P.accepts P.asks L.makes M.makes R.gives S.looks service start begun history counts now c new }
{
    answers_stay();
    connections_account_for_what_they_add::<P, L, M>();
    connections_answer_their_requests::<P, L, M>();
    connections_go_on::<P, L, M>();
    connections_stand_with_their_requests::<P, L, M>();
    ends_begin_with_the_first_try();
    histories_grow();
    items_account_for_their_causes::<P, L, M, C, R, S>();
    items_are_held_in_order::<P, L, M, C, R, S>();
    requests_account_for_their_events::<P>();
    ways_have_answers();
}
