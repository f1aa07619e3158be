//! Laws of the numbers and the moments of items. Each is the contract of a function that does nothing: a caller that
//! needs the law calls the function.

ghost use Rattle.std.specs.Prelude.{◌≡◌, ◌≤◌, ℕ, List, [], ◌∷◌, ◌++◌, slice_get, take, Option, Some};
ghost use Rattle.boot_core.specs.declared.boot.Start.{Start};
ghost use Rattle.container_core.specs.History.{entries_in};
ghost use Rattle.container_core.specs.declared.history.Event.{Event};
ghost use Rattle.crash_base.specs.declared.numbers.Place.{Place};
ghost use Rattle.crash_base.specs.declared.numbers.RequestNo.{RequestNo};
ghost use Rattle.http_wire.specs.declared.taken.Head.{Head};
ghost use Rattle.journal_model.specs.declared.entry.CommitEntry.{CommitEntry};
ghost use Rattle.journal_model.specs.declared.entry.Entry.TheVariants.{Commit};
ghost use Rattle.outcome_items.specs.declared.item.Item.{Item};
ghost use Rattle.request_decisions.specs.declared.draws.Draw.{Draw};
ghost use Rattle.request_tries.specs.Serving.{TriesValue};
ghost use Rattle.request_visit.specs.declared.visit.Visit.{Visit};
ghost use Rattle.request_visit.specs.declared.visit.Work.TheVariants.{Serving as ServingBy};
ghost use Rattle.served_items.specs.Attributing.{Attributing, Service, TakenIn};
ghost use Rattle.served_items.specs.Served.{IsServedFor, committed_at};
ghost use Rattle.shepherd.specs.declared.shepherd.AskedCall.{AskedCall};
ghost use Rattle.shepherd.specs.declared.shepherd.Shepherd.{Shepherd};
ghost use Rattle.shepherd.specs.declared.shepherd.Stage.TheVariants.{Serving};

use call_ticket::Program;
use outside::{Link, Random, Serials};
use request_decisions::orders_are_exact;
use request_visit::{requests_account_for_their_events, requests_account_for_their_sessions};
use shepherd::ProgramMaker;

/// The number of an item, and that which the tries of the open request bear, is of the boot that takes requests in
/// (`boot`, `tries`). Where that is the boot of the container, as who drives has to keep, the entry that an item names
/// is under a number of the container's own boot (`own_boot`).
pub fn items_have_numbers_of_their_boot<
    P: Program,
    L: Link,
    M: ProgramMaker<P>,
    R: Random,
    S: Serials,
>()
    ensures boot { (service : Service M) (start : Start) (history : List Event) (t : TakenIn) (i : Item)
        (request : RequestNo) → IsServedFor P.asks L.makes M.makes R.gives S.looks service start history t i
        → i.request ≡ Some request → request.boot ≡ service.home.boot }
    ensures tries { (service : Service M) (start : Start) (history : List Event) (heads : List Head)
        (drawn : List Draw) (earliest latest : ℕ) (items : List Item) (s : Shepherd P) (v : Visit P)
        (call : Option AskedCall) (tries : TriesValue) (program : P)
        → Attributing P.asks L.makes M.makes R.gives S.looks service start history heads drawn earliest latest items s
        → s.stage ≡ Serving v call → v.work ≡ ServingBy tries program → tries.request.boot ≡ service.home.boot }
    ensures own_boot { (service : Service M) (start : Start) (history : List Event) (t : TakenIn) (i : Item)
        (place : Place) (e : CommitEntry) → service.home.boot ≡ start.boot
        → IsServedFor P.asks L.makes M.makes R.gives S.looks service start history t i
        → committed_at i.outcome ≡ Some place
        → slice_get (entries_in (take i.holds.held history)) place.0 ≡ Some (Commit e)
        → e.request.boot ≡ start.boot }
{
    orders_are_exact();
}

/// The moments of items never fall: no item's moment is less than that of the item before it, or than what the clock
/// told when the connection began, or more than the latest that the clock told.
pub fn moments_of_items_never_fall<P: Program, L: Link, M: ProgramMaker<P>, R: Random, S: Serials>()
    ensures next { (service : Service M) (start : Start) (history : List Event) (heads : List Head) (drawn : List Draw)
        (earliest latest : ℕ) (before behind : List Item) (i next : Item) (s : Shepherd P)
        → Attributing P.asks L.makes M.makes R.gives S.looks service start history heads drawn earliest latest
        (before ++ i ∷ next ∷ behind) s → i.moment.0 ≤ next.moment.0 }
    ensures first { (service : Service M) (start : Start) (history : List Event) (heads : List Head)
        (drawn : List Draw) (earliest latest : ℕ) (behind : List Item) (i : Item) (s : Shepherd P)
        → Attributing P.asks L.makes M.makes R.gives S.looks service start history heads drawn earliest latest
        (i ∷ behind) s → earliest ≤ i.moment.0 }
    ensures last { (service : Service M) (start : Start) (history : List Event) (heads : List Head) (drawn : List Draw)
        (earliest latest : ℕ) (before : List Item) (i : Item) (s : Shepherd P)
        → Attributing P.asks L.makes M.makes R.gives S.looks service start history heads drawn earliest latest
        (before ++ i ∷ []) s → i.moment.0 ≤ latest }
{
    requests_account_for_their_events::<P>();
    requests_account_for_their_sessions::<P, L>();
}
