//! Laws of what is told at the end of a connection. Each is the contract of a function that does nothing: a caller that
//! needs the law calls the function.

ghost use Rattle.std.specs.Prelude.{◌≡◌, ◌≢◌, ◌↔◌, ◌⊎◌, ◌≤◌, ◌<◌, false, true, ℕ, Bool, List, [], ◌∷◌, ◌++◌, All, length, take, Some};
ghost use Rattle.boot_core.specs.declared.boot.Start.{Start};
ghost use Rattle.container_core.specs.History.{entries_in};
ghost use Rattle.container_core.specs.declared.history.Event.{Event};
ghost use Rattle.crash_base.specs.declared.numbers.Place.{Place};
ghost use Rattle.http_wire.specs.declared.taken.Head.{Head};
ghost use Rattle.outcome_items.specs.Traces.{is_outside};
ghost use Rattle.outcome_items.specs.declared.item.Item.{Item};
ghost use Rattle.outcome_items.specs.declared.outcome.ItemOutcome.TheVariants as item;
ghost use Rattle.outside.specs.declared.link.LinkCounts.{LinkCounts};
ghost use Rattle.send_windows.specs.Windows.{WindowsValue};
ghost use Rattle.send_windows.specs.declared.fact.WindowFact.{WindowFact};
ghost use Rattle.send_windows.specs.declared.history.WindowMark.{WindowMark};
ghost use Rattle.served_items.specs.Attributing.{Service};
ghost use Rattle.served_items.specs.Counting.{AreReached};
ghost use Rattle.served_items.specs.Served.{committed_at};
ghost use Rattle.shepherd.specs.Shepherds.{has_item, turn};
ghost use Rattle.shepherd.specs.Steps.{GivesBack, HasLeftIfOpen, PutsOut, TakesItem, dropped_stage};
ghost use Rattle.shepherd.specs.declared.shepherd.EndKind.{EndKind};
ghost use Rattle.shepherd.specs.declared.shepherd.Shepherd.{Shepherd};
ghost use Rattle.shepherd.specs.declared.shepherd.Stage.{Stage};
ghost use Rattle.site_responses.specs.declared.answer.Untaken.{Untaken};
ghost use Rattle.served_connections.specs.Courses.{Begun, Course, begun_behind};
ghost use Rattle.served_connections.specs.Resting.{HasLeftAll, Rests, last_at};
ghost use Rattle.served_connections.specs.Serving.{Serves};
ghost use Rattle.served_connections.specs.Stopping.{HoldsNothing, ServesSoFar};
ghost use Rattle.served_connections.specs.Telling.{HasEnded, HasServed, HasServedToHere, HasServedWhole, HasStopped};

use call_ticket::Program;
use outside::{Link, Random, Serials};
use request_visit::requests_account_for_their_events;
use served_items::items_tell_what_was_served;
use shepherd::{
    ProgramMaker, ShepherdTurn, items_are_for_requests_in_order, items_tell_what_was_added,
    responses_are_to_their_items, stopped_connections_account_for_what_they_left,
};

/// What was served over a connection, at an end. Where no request is open and nothing is to leave, it has served the
/// first requests of its bytes whole (`rested`); where bytes are to come, all of those that came (`waits`); and where
/// it has ended, all of them (`ended`). So nothing stands behind its responses where it rests but the last one of what
/// is refused, where it has ended there (`behind`). Where memory was wanted, and what it held was given back, it has
/// served the first requests, and may have done something for one more, whose item is not left (`stopped`); so it has
/// where it did nothing for another one (`nothing_more`).
pub fn courses_tell_what_was_served<
    P: Program,
    L: Link,
    M: ProgramMaker<P>,
    R: Random,
    S: Serials,
>()
    ensures rested { (service : Service M) (start : Start) (begun : Begun) (history : List Event)
        (counts : LinkCounts) (now : ℕ) (c : Course) (s : Shepherd P) → Rests s.stage
        → Serves P.accepts P.asks L.makes M.makes R.gives S.looks service start begun history counts now c s
        → HasServedWhole P.asks L.makes M.makes R.gives S.looks service start begun history now c (last_at s.stage) }
    ensures ended { (service : Service M) (start : Start) (begun : Begun) (history : List Event)
        (counts : LinkCounts) (now : ℕ) (c : Course) (s : Shepherd P) (end : EndKind)
        → turn s ≡ ShepherdTurn.Ended end
        → Serves P.accepts P.asks L.makes M.makes R.gives S.looks service start begun history counts now c s
        → HasEnded P.asks L.makes M.makes R.gives S.looks service start begun history now c end }
    ensures waits { (service : Service M) (start : Start) (begun : Begun) (history : List Event) (counts : LinkCounts)
        (now : ℕ) (c : Course) (s : Shepherd P) → turn s ≡ ShepherdTurn.Bytes
        → Serves P.accepts P.asks L.makes M.makes R.gives S.looks service start begun history counts now c s
        → HasServedToHere P.asks L.makes M.makes R.gives S.looks service start begun history now c }
    ensures behind { (service : Service M) (start : Start) (begun : Begun) (history : List Event)
        (counts : LinkCounts) (now : ℕ) (c : Course) (s : Shepherd P) → Rests s.stage
        → Serves P.accepts P.asks L.makes M.makes R.gives S.looks service start begun history counts now c s
        → HasServedWhole P.asks L.makes M.makes R.gives S.looks service start begun history now c []
        ⊎ ((why : Untaken) × HasEnded P.asks L.makes M.makes R.gives S.looks service start begun history now c
        (EndKind.Refused why)) }
    ensures stopped { (service : Service M) (start : Start) (begun : Begun) (history : List Event)
        (counts : LinkCounts) (now : ℕ) (c : Course) (s : Shepherd P) → HoldsNothing s.stage
        → has_item s.stage ≡ false
        → ServesSoFar P.accepts P.asks L.makes M.makes R.gives S.looks service start begun history counts now c s
        → HasStopped P.asks L.makes M.makes R.gives S.looks service start begun history now c }
    ensures nothing_more { (service : Service M) (start : Start) (begun : Begun) (history : List Event) (now : ℕ)
        (c : Course)
        → HasServedWhole P.asks L.makes M.makes R.gives S.looks service start begun history now c []
        → HasStopped P.asks L.makes M.makes R.gives S.looks service start begun history now c }
{
    items_are_for_requests_in_order::<P>();
    items_tell_what_was_added::<P, L>();
    items_tell_what_was_served::<P, L, M, R, S>();
    requests_account_for_their_events::<P>();
    responses_are_to_their_items::<P>();
    stopped_connections_account_for_what_they_left::<P, L>();
}

/// Nothing that a connection tells is older than its begin. It begins behind all events of the history so far, all
/// their entries, the moment, and what its link has counted (`begun`); a link counts on where neither count falls
/// (`risen`). A request for which the container was held met at least the entries that there were when the connection
/// began (`seen`). It was held for exactly those that were decided in it (`held`); the journal had as many entries at
/// the last hold as the item's front says (`front`), and the entry that an item names is one of them (`named`).
pub fn items_are_no_older_than_their_connection<
    P: Program,
    L: Link,
    M: ProgramMaker<P>,
    R: Random,
    S: Serials,
>()
    ensures begun { (history : List Event) (now : ℕ) (counts : LinkCounts)
        → ((begun_behind history now counts).events ≡ length history)
        × ((begun_behind history now counts).entries ≡ length (entries_in history))
        × ((begun_behind history now counts).moment ≡ now) × ((begun_behind history now counts).counts ≡ counts) }
    ensures risen { (counts later : LinkCounts)
        → AreReached counts later ↔ ((counts.hushed ≤ later.hushed) × (counts.got ≤ later.got)) }
    ensures seen { (service : Service M) (start : Start) (begun : Begun) (history : List Event) (now : ℕ) (c : Course)
        (opened : List Head) (last : List ℕ) (own : List Event) (marks : List WindowMark)
        → HasServed P.asks L.makes M.makes R.gives S.looks service start begun history now c opened last own marks
        → All (λ (i : Item). i.holds.held ≢ 0 → begun.entries ≤ i.holds.from.0) c.items }
    ensures held { (service : Service M) (start : Start) (begun : Begun) (history : List Event) (now : ℕ) (c : Course)
        (opened : List Head) (last : List ℕ) (own : List Event) (marks : List WindowMark)
        → HasServed P.asks L.makes M.makes R.gives S.looks service start begun history now c opened last own marks
        → All (λ (i : Item). (i.holds.held ≡ 0) ↔ (is_outside i.outcome ≡ true)) c.items }
    ensures front { (service : Service M) (start : Start) (begun : Begun) (history : List Event) (now : ℕ) (c : Course)
        (opened : List Head) (last : List ℕ) (own : List Event) (marks : List WindowMark)
        → HasServed P.asks L.makes M.makes R.gives S.looks service start begun history now c opened last own marks
        → All (λ (i : Item). i.holds.held ≢ 0 → length (entries_in (take i.holds.held history)) ≡ i.holds.front.0)
        c.items }
    ensures named { (service : Service M) (start : Start) (begun : Begun) (history : List Event) (now : ℕ) (c : Course)
        (opened : List Head) (last : List ℕ) (own : List Event) (marks : List WindowMark)
        → HasServed P.asks L.makes M.makes R.gives S.looks service start begun history now c opened last own marks
        → All (λ (i : Item). (place : Place) → committed_at i.outcome ≡ Some place → place.0 < i.holds.front.0)
        c.items }
{}

/// Each serial number that an item of a connection tells of as spent was looked at for it: it is one of those that its
/// course tells of.
pub fn spent_serials_were_looked_at<
    P: Program,
    L: Link,
    M: ProgramMaker<P>,
    R: Random,
    S: Serials,
>()
    ensures { (service : Service M) (start : Start) (begun : Begun) (history : List Event) (now : ℕ) (c : Course)
        (opened : List Head) (last : List ℕ) (own : List Event) (marks : List WindowMark)
        → HasServed P.asks L.makes M.makes R.gives S.looks service start begun history now c opened last own marks
        → All (λ (i : Item). (seen : ℕ) → i.outcome ≡ item.SerialsSpent seen
        → (before : List ℕ) × (behind : List ℕ) × (c.looked ≡ before ++ seen ∷ behind)) c.items }
{}

/// Each list of full windows that an item of a connection tells of was found so where passes were refused: it is one of
/// those that its course tells of.
pub fn full_windows_were_found<P: Program, L: Link, M: ProgramMaker<P>, R: Random, S: Serials>()
    ensures { (service : Service M) (start : Start) (begun : Begun) (history : List Event) (now : ℕ) (c : Course)
        (opened : List Head) (last : List ℕ) (own : List Event) (marks : List WindowMark)
        → HasServed P.asks L.makes M.makes R.gives S.looks service start begun history now c opened last own marks
        → All (λ (i : Item). (place : Place) (again : Bool) (full : List WindowFact)
        → i.outcome ≡ item.Overload place again full
        → (before : List (List WindowFact)) × (behind : List (List WindowFact))
        × (c.full ≡ before ++ full ∷ behind)) c.items }
{}

/// A connection comes to rest. The response of its open request has left, if one is open, and nothing else is to leave:
/// where bytes are to come, where it has ended, where a response was put out, and where an item was taken; and it stays
/// so where its call is given up (`dropped`). Where its passes are given back then, its item is left, or it rests
/// (`back`); and it rests behind an item (`rests`). Where it rests, it holds neither a call nor passes (`still`,
/// `kept`).
pub fn connections_come_to_rest<P>()
    ensures bytes { (s : Shepherd P) → turn s ≡ ShepherdTurn.Bytes → HasLeftAll s.stage }
    ensures ended { (s : Shepherd P) (end : EndKind) → turn s ≡ ShepherdTurn.Ended end → s.wants_memory ≡ false
        → HasLeftAll s.stage }
    ensures out { (bytes : List ℕ) (s : Shepherd P) (after : Stage P) → turn s ≡ ShepherdTurn.Output
        → PutsOut s.stage bytes after → HasLeftAll after }
    ensures item { (i : Item) (stage after : Stage P) → TakesItem stage i after → HasLeftAll after }
    ensures dropped { (stage : Stage P) → HasLeftAll stage → HasLeftAll (dropped_stage stage) }
    ensures left { (stage : Stage P) → HasLeftAll stage → HasLeftIfOpen stage }
    ensures back { (stage behind : Stage P) (windows after : WindowsValue) → HasLeftAll stage
        → GivesBack stage windows behind after → has_item behind ≡ false → Rests behind }
    ensures rests { (i : Item) (stage after : Stage P) → TakesItem stage i after → Rests after }
    ensures rests_at_bytes { (s : Shepherd P) → turn s ≡ ShepherdTurn.Bytes → Rests s.stage }
    ensures rests_at_end { (s : Shepherd P) (end : EndKind) → turn s ≡ ShepherdTurn.Ended end
        → s.wants_memory ≡ false → Rests s.stage }
    ensures still { (stage : Stage P) → Rests stage → dropped_stage stage ≡ stage }
    ensures kept { (stage behind : Stage P) (windows after : WindowsValue) → Rests stage
        → GivesBack stage windows behind after → (behind ≡ stage) × (after ≡ windows) }
{}
