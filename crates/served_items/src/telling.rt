//! The law of what items tell of their requests. It is the contract of a function that does nothing: a caller that
//! needs the law calls the function.

ghost use Rattle.std.specs.Prelude.{◌≡◌, ◌↔◌, ◌+◌, ℕ, true, false, List, [], slice_get, take, Option, Some, None};
ghost use Rattle.boot_core.specs.declared.boot.Start.{Start};
ghost use Rattle.container_core.specs.History.{entries_in};
ghost use Rattle.container_core.specs.declared.history.Event.{Event};
ghost use Rattle.crash_base.specs.declared.numbers.Moment.{Moment};
ghost use Rattle.crash_base.specs.declared.numbers.Place.{Place};
ghost use Rattle.crash_base.specs.declared.numbers.RequestNo.{RequestNo};
ghost use Rattle.http_wire.specs.declared.taken.Head.{Head};
ghost use Rattle.journal_model.specs.Requests.{commit_of};
ghost use Rattle.journal_model.specs.declared.entry.CommitEntry.{CommitEntry};
ghost use Rattle.journal_model.specs.declared.entry.Entry.TheVariants.{Commit};
ghost use Rattle.outcome_items.specs.Traces.{again_in, is_outside};
ghost use Rattle.outcome_items.specs.declared.item.Item.{Item};
ghost use Rattle.outcome_items.specs.declared.outcome.ItemOutcome.TheVariants as item;
ghost use Rattle.request_decisions.specs.Decisions.{IsDecided};
ghost use Rattle.request_decisions.specs.Draws.{AreDrawn};
ghost use Rattle.request_decisions.specs.declared.decision.Decision.TheVariants as decided;
ghost use Rattle.request_decisions.specs.declared.decision.Order.{Order};
ghost use Rattle.request_decisions.specs.declared.decision.Refusal.{Refusal};
ghost use Rattle.request_decisions.specs.declared.draws.Draw.{Draw};
ghost use Rattle.request_intake.specs.Intakes.{admission_of};
ghost use Rattle.request_intake.specs.declared.intake.Admission.{Admission};
ghost use Rattle.request_intake.specs.declared.intake.Arrival.TheVariants.{Refused, SerialsSpent, Admitted};
ghost use Rattle.request_tries.specs.Serving.{TriesValue};
ghost use Rattle.request_visit.specs.declared.visit.Visit.{Visit};
ghost use Rattle.request_visit.specs.declared.visit.Work.TheVariants.{Serving as ServingBy};
ghost use Rattle.served_items.specs.Attributing.{Attributing, Service, TakenIn};
ghost use Rattle.served_items.specs.Served.{AreServed, HasOwnEntry, IsOfOwnCall, IsReadGone, IsServedFor, IsValueRead, committed_at};
ghost use Rattle.session_cookie.specs.declared.cookie.Cookie.{Cookie};
ghost use Rattle.shepherd.specs.declared.shepherd.AskedCall.{AskedCall};
ghost use Rattle.shepherd.specs.declared.shepherd.Shepherd.{Shepherd};
ghost use Rattle.shepherd.specs.declared.shepherd.Stage.TheVariants.{Serving};
ghost use Rattle.ssm_stub.specs.declared.cause.BrickCause.{BrickCause};
ghost use Rattle.ssm_stub.specs.declared.read_call.ReadRefusal.TheVariants as read_refusal;

use call_ticket::Program;
use outside::{Link, Random, Serials};
use request_visit::{requests_account_for_their_events, requests_account_for_their_sessions};
use shepherd::ProgramMaker;

/// The items of a connection are for its requests, in order, each for that of its own head. A request that is refused,
/// or for which a serial number is spent, is told so; and no other is. One that is admitted has the number of its own
/// order, or one that was drawn for it, and its session is what the read of its own cookie answered. Where it came to
/// the container, its text and its program were made of its own call, of nobody where no session was read, and else of
/// the user that the value of the session names. A page that no earlier call had committed has an entry of its own,
/// under the item's number, made by that program over the rows just before it; and one that an earlier call had
/// committed has the entry of that call, under the same number: each of these names an entry of its request (`entry`).
/// The container was held for those requests alone that came to it (`unheld`). A cookie is set under its own key and
/// with its own nonce. The tries of the request that is open bear its number.
pub fn items_tell_what_was_served<P: Program, L: Link, M: ProgramMaker<P>, R: Random, S: Serials>()
    ensures served { (service : Service M) (start : Start) (history : List Event) (heads : List Head)
        (drawn : List Draw) (earliest latest : ℕ) (items : List Item) (s : Shepherd P)
        → Attributing P.asks L.makes M.makes R.gives S.looks service start history heads drawn earliest latest items s
        → AreServed P.asks L.makes M.makes R.gives S.looks service start history heads drawn earliest latest items }
    ensures tries { (service : Service M) (start : Start) (history : List Event) (heads : List Head)
        (drawn : List Draw) (earliest latest : ℕ) (items : List Item) (s : Shepherd P) (v : Visit P)
        (call : Option AskedCall) (tries : TriesValue) (program : P)
        → Attributing P.asks L.makes M.makes R.gives S.looks service start history heads drawn earliest latest items s
        → s.stage ≡ Serving v call → v.work ≡ ServingBy tries program → v.facts.request ≡ Some tries.request }
    ensures refused { (service : Service M) (start : Start) (history : List Event) (t : TakenIn) (i : Item)
        (why : Refusal) → IsServedFor P.asks L.makes M.makes R.gives S.looks service start history t i
        → (t.intake.arrival ≡ Refused why) ↔ (i.outcome ≡ item.Refused why) }
    ensures nothing { (service : Service M) (start : Start) (history : List Event) (t : TakenIn) (i : Item)
        (why : Refusal) → IsServedFor P.asks L.makes M.makes R.gives S.looks service start history t i
        → t.intake.arrival ≡ Refused why
        → (i.request ≡ None) × (i.value ≡ None) × (i.cookie ≡ None) × (t.intake.drawn ≡ []) }
    ensures spent { (service : Service M) (start : Start) (history : List Event) (t : TakenIn) (i : Item)
        (request : Option RequestNo) (seen : ℕ)
        → IsServedFor P.asks L.makes M.makes R.gives S.looks service start history t i
        → t.intake.arrival ≡ SerialsSpent request seen
        → (i.outcome ≡ item.SerialsSpent seen) × (i.request ≡ request) }
    ensures spent_so { (service : Service M) (start : Start) (history : List Event) (t : TakenIn) (i : Item)
        (seen : ℕ) → IsServedFor P.asks L.makes M.makes R.gives S.looks service start history t i
        → i.outcome ≡ item.SerialsSpent seen
        → (request : Option RequestNo) × (t.intake.arrival ≡ SerialsSpent request seen) }
    ensures admitted { (service : Service M) (start : Start) (history : List Event) (t : TakenIn) (i : Item)
        (a : Admission) → IsServedFor P.asks L.makes M.makes R.gives S.looks service start history t i
        → t.intake.arrival ≡ Admitted a
        → (i.request ≡ Some a.request) × (i.moment ≡ t.intake.now) × ((o : Order)
        × IsDecided service.key service.home.boot t.head (decided.Ordered o)
        × AreDrawn o t.intake.drawn
        × (a ≡ admission_of service.key service.home o t.intake.now t.intake.drawn)) }
    ensures read { (service : Service M) (start : Start) (history : List Event) (t : TakenIn) (i : Item)
        (a : Admission) → IsServedFor P.asks L.makes M.makes R.gives S.looks service start history t i
        → t.intake.arrival ≡ Admitted a → is_outside i.outcome ≡ false
        → IsValueRead L.makes t.intake.now a.read a.cookie i.value }
    ensures expired { (service : Service M) (start : Start) (history : List Event) (t : TakenIn) (i : Item)
        (now expiry : Moment) → IsServedFor P.asks L.makes M.makes R.gives S.looks service start history t i
        → i.outcome ≡ item.Expired now expiry
        → (a : Admission) × (t.intake.arrival ≡ Admitted a) × IsReadGone L.makes t.intake.now a.read a.cookie
        (read_refusal.Expired now expiry) }
    ensures lost { (service : Service M) (start : Start) (history : List Event) (t : TakenIn) (i : Item)
        (causes : List BrickCause) → IsServedFor P.asks L.makes M.makes R.gives S.looks service start history t i
        → i.outcome ≡ item.Lost causes
        → (a : Admission) × (t.intake.arrival ≡ Admitted a) × IsReadGone L.makes t.intake.now a.read a.cookie
        (read_refusal.Lost causes) }
    ensures call { (service : Service M) (start : Start) (history : List Event) (t : TakenIn) (i : Item)
        → IsServedFor P.asks L.makes M.makes R.gives S.looks service start history t i → is_outside i.outcome ≡ false
        → (text : List ℕ) × (program : P) × IsOfOwnCall (M.makes service.maker) t i text program }
    ensures page { (service : Service M) (start : Start) (history : List Event) (t : TakenIn) (i : Item)
        → IsServedFor P.asks L.makes M.makes R.gives S.looks service start history t i
        → again_in i.outcome ≡ Some false → HasOwnEntry P.asks (M.makes service.maker) start history t i }
    ensures again { (service : Service M) (start : Start) (history : List Event) (t : TakenIn) (i : Item)
        → IsServedFor P.asks L.makes M.makes R.gives S.looks service start history t i
        → again_in i.outcome ≡ Some true
        → (place : Place) × (request : RequestNo) × (committed_at i.outcome ≡ Some place) ×
        (i.request ≡ Some request) × (commit_of (entries_in (take i.holds.held history)) request ≡ Some place) }
    ensures entry { (service : Service M) (start : Start) (history : List Event) (t : TakenIn) (i : Item)
        (place : Place) → IsServedFor P.asks L.makes M.makes R.gives S.looks service start history t i
        → committed_at i.outcome ≡ Some place
        → (e : CommitEntry) × (slice_get (entries_in (take i.holds.held history)) place.0 ≡ Some (Commit e)) ×
        (i.request ≡ Some e.request) }
    ensures unheld { (service : Service M) (start : Start) (history : List Event) (t : TakenIn) (i : Item)
        → IsServedFor P.asks L.makes M.makes R.gives S.looks service start history t i
        → (i.holds.held ≡ 0) ↔ (is_outside i.outcome ≡ true) }
    ensures cookie { (service : Service M) (start : Start) (history : List Event) (t : TakenIn) (i : Item)
        (c : Cookie) → IsServedFor P.asks L.makes M.makes R.gives S.looks service start history t i
        → i.cookie ≡ Some c
        → (a : Admission) × (t.intake.arrival ≡ Admitted a) × (c.key ≡ a.call.key) × (c.version ≡ a.write) ×
        (c.expiry.0 ≡ t.intake.now.0 + 1800000) }
{
    requests_account_for_their_events::<P>();
    requests_account_for_their_sessions::<P, L>();
}
