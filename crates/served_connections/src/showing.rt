//! The law of what the course of a connection shows. It is the contract of a function that does nothing: a caller that
//! needs the law calls the function.

ghost use Rattle.std.specs.Prelude.{◌≡◌, ◌⊎◌, ◌≤◌, ◌+◌, ◌*◌, ◌-◌, ◌^◌, ℕ, List, [], ◌∷◌, ◌++◌, count_by, length, min, slice_get, take, Option, Some};
ghost use Rattle.boot_core.specs.declared.boot.Start.{Start};
ghost use Rattle.container_core.specs.History.{entries_in};
ghost use Rattle.container_core.specs.declared.history.Event.{Event};
ghost use Rattle.crash_base.specs.declared.numbers.Place.{Place};
ghost use Rattle.http_wire.specs.Requests.{requests};
ghost use Rattle.http_wire.specs.declared.taken.Head.{Head};
ghost use Rattle.outcome_items.specs.Answers.{IsResponse};
ghost use Rattle.outcome_items.specs.Traces.{window_traces};
ghost use Rattle.outcome_items.specs.declared.item.Holds.{Holds};
ghost use Rattle.outcome_items.specs.declared.item.Item.{Item};
ghost use Rattle.outcome_items.specs.declared.outcome.ItemOutcome.TheVariants as item;
ghost use Rattle.outside.specs.declared.link.LinkCounts.{LinkCounts};
ghost use Rattle.outside.specs.declared.link.LinkEvent.{LinkEvent};
ghost use Rattle.request_decisions.specs.Calls.{call_by};
ghost use Rattle.request_decisions.specs.declared.draws.Draw.{Draw};
ghost use Rattle.request_intake.specs.declared.intake.Admission.{Admission};
ghost use Rattle.request_intake.specs.declared.intake.Arrival.TheVariants.{Admitted};
ghost use Rattle.request_tries.specs.declared.outcome.RequestOutcome.{RequestOutcome};
ghost use Rattle.request_visit.specs.Accounts.{EndsWith};
ghost use Rattle.send_windows.specs.declared.history.WindowMark.{WindowMark};
ghost use Rattle.send_windows.specs.declared.history.WindowMark.TheVariants as mark;
ghost use Rattle.served_items.specs.Attributing.{Service, TakenIn, WasTakenIn, facts_by};
ghost use Rattle.served_items.specs.Served.{IsServedFor, IsValueRead};
ghost use Rattle.shepherd.specs.Accounting.{traces_in};
ghost use Rattle.shepherd.specs.Standing.{ending_of};
ghost use Rattle.shepherd.specs.declared.shepherd.EndKind.{EndKind};
ghost use Rattle.ssm_stub.specs.Counted.{is_silent, is_strayed};
ghost use Rattle.ssm_stub.specs.declared.cause.BrickCause.{BrickCause};
ghost use Rattle.served_connections.specs.Courses.{Begun, Course};
ghost use Rattle.served_connections.specs.Heard.{HeardIn};
ghost use Rattle.served_connections.specs.Telling.{HasEnded, HasServed, HasStopped};

use call_ticket::Program;
use outside::{Clock, Link, Random, Serials};
use served_items::{
    items_account_for_their_causes, items_are_held_in_order, places_of_items_are_in_order,
};
use shepherd::ProgramMaker;

/// What the course of a connection shows. Each item is for the request in its place of all its bytes, whatever follows;
/// what was drawn for that stands among all that was drawn, and the response to the item among all that was put out
/// (`request`, `response`). What the item tells of its session is so over the calls of the link that the connection
/// made (`heard`): over those that stand in the list of its calls, and no others (`among`). Each of these is one that
/// the link makes (`called`). The container was held for no item when its
/// history had fewer events than at the begin (`since`), or than for the item before (`later`, `follows`); the moment
/// of each lies between the clock's last answer before the begin and its last one (`moment`); and the link's counts
/// rise by the causes that an item tells (`first`, `next`). What was added and left are the events and the marks that
/// the items tell (`told`), and where memory was wanted those of one request more at most (`stopped`): the next one of
/// its bytes, for which numbers were drawn last; what it has added is what its end adds, by its own number and a
/// program that was made of its own call, as the user of the session that was read asks for it (`more`). Where it has
/// ended, there is an item for each request (`ended`).
pub fn courses_show_what_was_served<
    P: Program,
    L: Link,
    M: ProgramMaker<P>,
    C: Clock,
    R: Random,
    S: Serials,
>()
    ensures request { (service : Service M) (start : Start) (begun : Begun) (history : List Event) (now : ℕ)
        (c : Course) (opened : List Head) (last : List ℕ) (own : List Event) (marks : List WindowMark)
        (before behind : List Item) (i : Item) (more : List ℕ)
        → HasServed P.asks L.makes M.makes R.gives S.looks service start begun history now c opened last own marks
        → c.items ≡ before ++ i ∷ behind
        → (t : TakenIn) × (slice_get (requests (c.fed ++ more)).heads (length before) ≡ Some t.head)
        × IsServedFor P.asks L.makes M.makes R.gives S.looks service start history t i
        × ((earlier : List Draw) × (later : List Draw) × (c.drawn ≡ earlier ++ (t.intake.drawn ++ later))) }
    ensures heard { (service : Service M) (start : Start) (begun : Begun) (history : List Event) (now : ℕ)
        (c : Course) (opened : List Head) (last : List ℕ) (own : List Event) (marks : List WindowMark)
        (before behind : List Item) (i : Item) (more : List ℕ)
        → HasServed P.asks L.makes M.makes R.gives S.looks service start begun history now c opened last own marks
        → c.items ≡ before ++ i ∷ behind
        → (t : TakenIn) × (slice_get (requests (c.fed ++ more)).heads (length before) ≡ Some t.head)
        × IsServedFor P.asks (HeardIn c.heard) M.makes R.gives S.looks service start history t i
        × ((earlier : List Draw) × (later : List Draw) × (c.drawn ≡ earlier ++ (t.intake.drawn ++ later))) }
    ensures among { (service : Service M) (start : Start) (begun : Begun) (history : List Event) (now : ℕ)
        (c : Course) (opened : List Head) (last : List ℕ) (own : List Event) (marks : List WindowMark)
        (before behind : List Item) (i : Item) (more : List ℕ)
        → HasServed P.asks L.makes M.makes R.gives S.looks service start begun history now c opened last own marks
        → c.items ≡ before ++ i ∷ behind
        → (t : TakenIn) × (slice_get (requests (c.fed ++ more)).heads (length before) ≡ Some t.head)
        × IsServedFor P.asks (λ (old : Unit {0}) (call : LinkEvent) (new : Unit {0}). (n : ℕ)
        × (slice_get c.heard n ≡ Some call)) M.makes R.gives S.looks service start history t i
        × ((earlier : List Draw) × (later : List Draw) × (c.drawn ≡ earlier ++ (t.intake.drawn ++ later))) }
    ensures called { (service : Service M) (start : Start) (begun : Begun) (history : List Event) (now : ℕ)
        (c : Course) (opened : List Head) (last : List ℕ) (own : List Event) (marks : List WindowMark)
        (before behind : List LinkEvent) (call : LinkEvent)
        → HasServed P.asks L.makes M.makes R.gives S.looks service start begun history now c opened last own marks
        → c.heard ≡ before ++ call ∷ behind → (link : L) × (after : L) × L.makes link call after }
    ensures response { (service : Service M) (start : Start) (begun : Begun) (history : List Event) (now : ℕ)
        (c : Course) (opened : List Head) (last : List ℕ) (own : List Event) (marks : List WindowMark)
        (before behind : List Item) (i : Item) (more : List ℕ)
        → HasServed P.asks L.makes M.makes R.gives S.looks service start begun history now c opened last own marks
        → c.items ≡ before ++ i ∷ behind
        → (head : Head) × (slice_get (requests (c.fed ++ more)).heads (length before) ≡ Some head)
        × ((first : List ℕ) × (bytes : List ℕ) × (rest : List ℕ) × (c.written ≡ first ++ (bytes ++ rest))
        × IsResponse service.key (entries_in (take i.holds.held history)) i head bytes) }
    ensures since { (service : Service M) (start : Start) (begun : Begun) (history : List Event) (now : ℕ)
        (c : Course) (opened : List Head) (last : List ℕ) (own : List Event) (marks : List WindowMark)
        (before behind : List Item) (i : Item)
        → HasServed P.asks L.makes M.makes R.gives S.looks service start begun history now c opened last own marks
        → c.items ≡ before ++ i ∷ behind → 1 ≤ i.holds.held
        → (begun.events ≤ i.holds.held) × (i.holds.held ≤ length history) }
    ensures later { (service : Service M) (start : Start) (begun : Begun) (history : List Event) (now : ℕ)
        (c : Course) (opened : List Head) (last : List ℕ) (own : List Event) (marks : List WindowMark)
        (before between behind : List Item) (i later : Item)
        → HasServed P.asks L.makes M.makes R.gives S.looks service start begun history now c opened last own marks
        → c.items ≡ before ++ i ∷ (between ++ later ∷ behind) → 1 ≤ later.holds.held
        → i.holds.held ≤ later.holds.held }
    ensures follows { (service : Service M) (start : Start) (begun : Begun) (history : List Event) (now : ℕ)
        (c : Course) (opened : List Head) (last : List ℕ) (own : List Event) (marks : List WindowMark)
        (before behind : List Item) (i next : Item)
        → HasServed P.asks L.makes M.makes R.gives S.looks service start begun history now c opened last own marks
        → c.items ≡ before ++ i ∷ next ∷ behind
        → (i.holds.front.0 ≤ next.holds.from.0)
        × (next.holds.held ≡ 0 → (next.holds.from ≡ i.holds.front) × (next.holds.front ≡ i.holds.front)) }
    ensures moment { (service : Service M) (start : Start) (begun : Begun) (history : List Event) (now : ℕ)
        (c : Course) (opened : List Head) (last : List ℕ) (own : List Event) (marks : List WindowMark)
        (before behind : List Item) (i : Item)
        → HasServed P.asks L.makes M.makes R.gives S.looks service start begun history now c opened last own marks
        → c.items ≡ before ++ i ∷ behind → (begun.moment ≤ i.moment.0) × (i.moment.0 ≤ now) }
    ensures first { (service : Service M) (start : Start) (begun : Begun) (history : List Event) (now : ℕ)
        (c : Course) (opened : List Head) (last : List ℕ) (own : List Event) (marks : List WindowMark)
        (behind : List Item) (i : Item) (causes : List BrickCause)
        → HasServed P.asks L.makes M.makes R.gives S.looks service start begun history now c opened last own marks
        → c.items ≡ i ∷ behind → i.outcome ≡ item.Lost causes
        → (min (begun.counts.hushed + count_by is_silent causes) (2 ^ 64 - 1) ≤ i.counts.hushed)
        × (min (begun.counts.got + 64 * count_by is_strayed causes) (2 ^ 64 - 1) ≤ i.counts.got) }
    ensures next { (service : Service M) (start : Start) (begun : Begun) (history : List Event) (now : ℕ)
        (c : Course) (opened : List Head) (last : List ℕ) (own : List Event) (marks : List WindowMark)
        (before behind : List Item) (i next : Item) (causes : List BrickCause)
        → HasServed P.asks L.makes M.makes R.gives S.looks service start begun history now c opened last own marks
        → c.items ≡ before ++ i ∷ next ∷ behind → next.outcome ≡ item.Lost causes
        → (min (i.counts.hushed + count_by is_silent causes) (2 ^ 64 - 1) ≤ next.counts.hushed)
        × (min (i.counts.got + 64 * count_by is_strayed causes) (2 ^ 64 - 1) ≤ next.counts.got) }
    ensures told { (service : Service M) (start : Start) (begun : Begun) (history : List Event) (now : ℕ)
        (c : Course) (opened : List Head) (last : List ℕ) (own : List Event) (marks : List WindowMark)
        → HasServed P.asks L.makes M.makes R.gives S.looks service start begun history now c opened last own marks
        → (c.own ≡ traces_in history c.items ++ own) × (c.marks ≡ window_traces c.items ++ marks) }
    ensures ended { (service : Service M) (start : Start) (begun : Begun) (history : List Event) (now : ℕ)
        (c : Course) (end : EndKind)
        → HasEnded P.asks L.makes M.makes R.gives S.looks service start begun history now c end
        → (length c.items ≡ length (requests c.fed).heads) × ((requests c.fed).ending ≡ ending_of end) }
    ensures stopped { (service : Service M) (start : Start) (begun : Begun) (history : List Event) (now : ℕ)
        (c : Course) → HasStopped P.asks L.makes M.makes R.gives S.looks service start begun history now c
        → (own : List Event) × (marks : List WindowMark) × (c.own ≡ traces_in history c.items ++ own)
        × (c.marks ≡ window_traces c.items ++ marks) × (length own ≤ 1)
        × ((marks ≡ []) ⊎ ((marks ≡ mark.Refused ∷ []) ⊎ (marks ≡ mark.Taken 0 ∷ mark.Spent ∷ []))) }
    ensures more { (service : Service M) (start : Start) (begun : Begun) (history : List Event) (now : ℕ) (c : Course)
        (more : List ℕ) → HasStopped P.asks L.makes M.makes R.gives S.looks service start begun history now c
        → (own : List Event) × (c.own ≡ traces_in history c.items ++ own)
        × ((own ≡ []) ⊎ ((t : TakenIn) × WasTakenIn R.gives S.looks service.key service.home t
        × (slice_get (requests (c.fed ++ more)).heads (length c.items) ≡ Some t.head)
        × ((earlier : List Draw) × (c.drawn ≡ earlier ++ t.intake.drawn))
        × ((a : Admission) × (t.intake.arrival ≡ Admitted a)
        × ((value : Option (List ℕ)) × IsValueRead L.makes t.intake.now a.read a.cookie value
        × ((text : List ℕ) × (program : P) × M.makes service.maker (call_by a.call value) text program
        × ((front : Place) × (holds : Holds) × (end : RequestOutcome)
        × EndsWith start history (record { request = a.request; text = text; asks = P.asks program })
        (facts_by front t.head t.intake.now t.intake.arrival) holds end own)))))) }
{
    items_account_for_their_causes::<P, L, M, C, R, S>();
    items_are_held_in_order::<P, L, M, C, R, S>();
    places_of_items_are_in_order();
}
