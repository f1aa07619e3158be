//! The law of the requests that join a connection that is served. It is the contract of a function that does nothing: a
//! caller that needs the law calls the function.

ghost use Rattle.std.specs.Prelude.{◌≡◌, ◌≤◌, ℕ, List};
ghost use Rattle.boot_core.specs.declared.boot.Start.{Start};
ghost use Rattle.container_core.specs.declared.history.Event.{Event};
ghost use Rattle.outside.specs.declared.link.LinkCounts.{LinkCounts};
ghost use Rattle.served_items.specs.Attributing.{Service};
ghost use Rattle.served_items.specs.Counting.{AreReached};
ghost use Rattle.shepherd.specs.Shepherds.{turn};
ghost use Rattle.shepherd.specs.Steps.{TakesRequest};
ghost use Rattle.shepherd.specs.declared.shepherd.Shepherd.{Shepherd};
ghost use Rattle.served_connections.specs.Courses.{Begun, Course};
ghost use Rattle.served_connections.specs.Serving.{Serves, ServesNext};

use call_ticket::Program;
use outside::{Clock, Link, Random, Serials};
use request_visit::requests_account_for_their_events;
use served_items::{items_account_for_their_causes, items_are_held_in_order};
use shepherd::{
    ProgramMaker, ShepherdTurn, connections_stand, taken_requests_add_nothing,
    taken_requests_are_answered, taken_requests_go_on,
};

/// A connection is served with the request that it takes off its bytes, and with what was drawn for that. Its moment is
/// the clock's, which has told no later one to the connection before; and the link has counted no less than the
/// connection saw last. So it is where no further request is taken, and the last response is to leave.
pub fn requests_join_their_connections<
    P: Program,
    L: Link,
    M: ProgramMaker<P>,
    C: Clock,
    R: Random,
    S: Serials,
>()
    ensures { (service : Service M) (start : Start) (begun : Begun) (history : List Event)
        (counts later : LinkCounts) (now : ℕ) (c : Course) (s new : Shepherd P) (clock clock_after : C)
        (random random_after : R) (serials serials_after : S) → turn s ≡ ShepherdTurn.Request
        → now ≤ C.told clock → AreReached counts later
        → TakesRequest C.told R.gives S.looks service.key service.home later s clock random serials new clock_after
        random_after serials_after
        → Serves P.accepts P.asks L.makes M.makes R.gives S.looks service start begun history counts now c s
        → ServesNext P.accepts P.asks L.makes M.makes R.gives S.looks service start begun history later
        (C.told clock_after) c new random random_after serials serials_after }
{
    connections_stand::<P, C, R, S>();
    items_account_for_their_causes::<P, L, M, C, R, S>();
    items_are_held_in_order::<P, L, M, C, R, S>();
    requests_account_for_their_events::<P>();
    taken_requests_add_nothing::<P, C, R, S>();
    taken_requests_are_answered::<P, C, R, S>();
    taken_requests_go_on::<P, L, C, R, S>();
}
