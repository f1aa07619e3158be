//! The law of what keeps a connection served besides the steps of its requests. It is the contract of a function that
//! does nothing: a caller that needs the law calls the function.

ghost use Rattle.std.specs.Prelude.{◌≡◌, ◌≤◌, ℕ, true, List, [], ◌∷◌, ◌++◌};
ghost use mathlib.Core.List.{IsPrefix};
ghost use Rattle.boot_core.specs.declared.boot.Start.{Start};
ghost use Rattle.container_core.specs.Container.{ContainerValue, events_of};
ghost use Rattle.container_core.specs.History.{entries_in};
ghost use Rattle.container_core.specs.declared.history.Event.{Event};
ghost use Rattle.outcome_items.specs.declared.item.Item.{Item};
ghost use Rattle.outside.specs.declared.link.LinkCounts.{LinkCounts};
ghost use Rattle.send_windows.specs.Windows.{WindowsValue};
ghost use Rattle.served_items.specs.Attributing.{Service};
ghost use Rattle.served_items.specs.Counting.{AreReached};
ghost use Rattle.shepherd.specs.Shepherds.{fresh, has_item, turn};
ghost use Rattle.shepherd.specs.Steps.{GivesBack, HasLeftIfOpen, PutsOut, TakesItem, dropped_stage};
ghost use Rattle.shepherd.specs.declared.shepherd.Shepherd.{Shepherd};
ghost use Rattle.shepherd.specs.declared.shepherd.Stage.{Stage};
ghost use Rattle.served_connections.specs.Courses.{Begun, Course, begun_behind, no_course};
ghost use Rattle.served_connections.specs.Serving.{Serves, ServesLeaving};

use call_ticket::Program;
use outside::{Clock, Link, Random, Serials};
use request_visit::requests_account_for_their_events;
use served_items::{
    items_account_for_their_causes, items_are_held_in_order, items_follow_one_another,
};
use shepherd::{
    ProgramMaker, ShepherdTurn, connections_account_for_what_they_add,
    connections_answer_their_requests, connections_go_on, connections_stand,
    connections_stand_with_their_requests,
};

/// A connection is served from its begin on, over a history that is that of a container. It is so whatever others add
/// to the history, count over the link, and however late the clock tells then (`meanwhile`); with the bytes that are
/// fed to it, and where no more come; with what it puts out, and with each item that is taken. It is so where its call
/// is given up, and where its passes are given back behind a response (`given_back`).
pub fn connections_are_served_from_their_begin<
    P: Program,
    L: Link,
    M: ProgramMaker<P>,
    C: Clock,
    R: Random,
    S: Serials,
>()
    ensures begins { (service : Service M) (history : List Event) (container : ContainerValue) (counts : LinkCounts)
        (now : ℕ) → events_of container ≡ history → entries_in container.since ≡ container.boot.entries
        → Serves P.accepts P.asks L.makes M.makes R.gives S.looks service container.boot.start
        (begun_behind history now counts) history counts now no_course fresh }
    ensures meanwhile { (service : Service M) (start : Start) (begun : Begun) (history after : List Event)
        (counts later : LinkCounts) (now late : ℕ) (c : Course) (s : Shepherd P) → IsPrefix history after
        → AreReached counts later → now ≤ late
        → Serves P.accepts P.asks L.makes M.makes R.gives S.looks service start begun history counts now c s
        → Serves P.accepts P.asks L.makes M.makes R.gives S.looks service start begun after later late c s }
    ensures fed { (service : Service M) (start : Start) (begun : Begun) (history : List Event) (counts : LinkCounts)
        (now : ℕ) (more : List ℕ) (c : Course) (s : Shepherd P)
        → Serves P.accepts P.asks L.makes M.makes R.gives S.looks service start begun history counts now c s
        → Serves P.accepts P.asks L.makes M.makes R.gives S.looks service start begun history counts now
        (record c { fed = c.fed ++ more }) (record s { received = s.received ++ more }) }
    ensures ended { (service : Service M) (start : Start) (begun : Begun) (history : List Event) (counts : LinkCounts)
        (now : ℕ) (c : Course) (s : Shepherd P)
        → Serves P.accepts P.asks L.makes M.makes R.gives S.looks service start begun history counts now c s
        → Serves P.accepts P.asks L.makes M.makes R.gives S.looks service start begun history counts now c
        (record s { ended = true }) }
    ensures out { (service : Service M) (start : Start) (begun : Begun) (history : List Event) (counts : LinkCounts)
        (now : ℕ) (bytes : List ℕ) (c : Course) (s : Shepherd P) (stage : Stage P) → turn s ≡ ShepherdTurn.Output
        → PutsOut s.stage bytes stage
        → Serves P.accepts P.asks L.makes M.makes R.gives S.looks service start begun history counts now c s
        → Serves P.accepts P.asks L.makes M.makes R.gives S.looks service start begun history counts now
        (record c { written = c.written ++ bytes }) (record s { stage = stage }) }
    ensures item { (service : Service M) (start : Start) (begun : Begun) (history : List Event) (counts : LinkCounts)
        (now : ℕ) (i : Item) (c : Course) (s : Shepherd P) (stage : Stage P) → has_item s.stage ≡ true
        → TakesItem s.stage i stage
        → Serves P.accepts P.asks L.makes M.makes R.gives S.looks service start begun history counts now c s
        → Serves P.accepts P.asks L.makes M.makes R.gives S.looks service start begun history counts now
        (record c { items = c.items ++ i ∷ [] }) (record s { front = i.holds.front; stage = stage }) }
    ensures given_up { (service : Service M) (start : Start) (begun : Begun) (history : List Event)
        (counts : LinkCounts) (now : ℕ) (c : Course) (s : Shepherd P)
        → Serves P.accepts P.asks L.makes M.makes R.gives S.looks service start begun history counts now c s
        → Serves P.accepts P.asks L.makes M.makes R.gives S.looks service start begun history counts now c
        (record s { stage = dropped_stage s.stage }) }
    ensures given_back { (service : Service M) (start : Start) (begun : Begun) (history : List Event)
        (counts : LinkCounts) (now : ℕ) (c : Course) (s : Shepherd P) (stage : Stage P) (windows after : WindowsValue)
        → GivesBack s.stage windows stage after → HasLeftIfOpen s.stage
        → Serves P.accepts P.asks L.makes M.makes R.gives S.looks service start begun history counts now c s
        → ServesLeaving P.accepts P.asks L.makes M.makes R.gives S.looks service start begun history counts now c
        (record s { stage = stage }) windows after }
{
    connections_account_for_what_they_add::<P, L, M>();
    connections_answer_their_requests::<P, L, M>();
    connections_go_on::<P, L, M>();
    connections_stand::<P, C, R, S>();
    connections_stand_with_their_requests::<P, L, M>();
    items_account_for_their_causes::<P, L, M, C, R, S>();
    items_are_held_in_order::<P, L, M, C, R, S>();
    items_follow_one_another::<P>();
    requests_account_for_their_events::<P>();
}
