//! Laws of how items go back to their requests. Each is the contract of a function that does nothing: a caller that
//! needs the law calls the function.

ghost use Rattle.std.specs.Prelude.{◌≡◌, ◌≤◌, ℕ, true, List, [], ◌∷◌, ◌++◌};
ghost use Rattle.boot_core.specs.Boot.{BootValue};
ghost use Rattle.boot_core.specs.declared.boot.Start.{Start};
ghost use Rattle.container_core.specs.Container.{ContainerValue, HasGrownBy, events_of};
ghost use Rattle.container_core.specs.History.{entries_in};
ghost use Rattle.container_core.specs.declared.history.Event.{Event};
ghost use Rattle.crash_base.specs.declared.numbers.WorkerNo.{WorkerNo};
ghost use Rattle.http_wire.specs.Taking.{taken_of};
ghost use Rattle.http_wire.specs.declared.taken.Head.{Head};
ghost use Rattle.outcome_items.specs.declared.item.Item.{Item};
ghost use Rattle.outside.specs.declared.link.LinkCounts.{LinkCounts};
ghost use Rattle.request_decisions.specs.declared.draws.Draw.{Draw};
ghost use Rattle.request_visit.specs.Advancing.{Advances};
ghost use Rattle.request_visit.specs.Going.{MayGoOn};
ghost use Rattle.request_visit.specs.Stepping.{VisitsInside, VisitsWindows};
ghost use Rattle.send_windows.specs.Windows.{WindowsValue};
ghost use Rattle.send_windows.specs.declared.history.WindowMark.{WindowMark};
ghost use Rattle.session_cookie.specs.declared.cookie.TheConstants.{MAX_HOLDERS};
ghost use Rattle.served_items.specs.Attributing.{Attributing, Service};
ghost use Rattle.served_items.specs.Following.{FollowOn, KeepFront};
ghost use Rattle.served_items.specs.Served.{AttributesNext};
ghost use Rattle.shepherd.specs.Accounting.{Accounting};
ghost use Rattle.shepherd.specs.Answering.{heads_in};
ghost use Rattle.shepherd.specs.Shepherds.{fresh, has_item, turn};
ghost use Rattle.shepherd.specs.Standing.{Standing};
ghost use Rattle.shepherd.specs.Steps.{GivesBack, HasLeftIfOpen, OnVisit, OpensStage, PutsOut, ShepherdSteps, TakesItem, TakesRequest, VisitsOutside, dropped_stage};
ghost use Rattle.shepherd.specs.declared.shepherd.Shepherd.{Shepherd};
ghost use Rattle.shepherd.specs.declared.shepherd.Stage.{Stage};

use call_ticket::Program;
use outside::{Clock, Link, Random, Serials};
use request_visit::{
    requests_account_for_their_events, requests_account_for_their_sessions, requests_go_on,
};
use shepherd::{ProgramMaker, ShepherdTurn};

/// A connection attributes each of its items to its request, at each of its steps, whatever others add meanwhile and
/// however late the clock tells then. A request that is served keeps what it was taken in with: its facts, the read of
/// its session, and its call until its program is made; and from then on what it asks of the container is made of that
/// call. Passes may be given back behind a response: before it, no item comes of the request any more, as `shepherd`
/// says.
pub fn items_go_back_to_their_requests<
    P: Program,
    L: Link,
    M: ProgramMaker<P>,
    R: Random,
    S: Serials,
>()
    ensures begins { (service : Service M) (start : Start) (history : List Event) (now : ℕ)
        → Attributing P.asks L.makes M.makes R.gives S.looks service start history [] [] now now [] fresh }
    ensures meanwhile { (service : Service M) (start : Start) (history more : List Event) (heads : List Head)
        (drawn : List Draw) (earliest latest : ℕ) (items : List Item) (later : ℕ) (s : Shepherd P) → latest ≤ later
        → Attributing P.asks L.makes M.makes R.gives S.looks service start history heads drawn earliest latest items s
        → Attributing P.asks L.makes M.makes R.gives S.looks service start
        (history ++ more) heads drawn earliest later items s }
    ensures still { (service : Service M) (start : Start) (history : List Event) (heads : List Head)
        (drawn : List Draw) (earliest latest : ℕ) (items : List Item) (s new : Shepherd P) → new.stage ≡ s.stage
        → Attributing P.asks L.makes M.makes R.gives S.looks service start history heads drawn earliest latest items s
        → Attributing P.asks L.makes M.makes R.gives S.looks service start history heads drawn earliest latest items new }
    ensures outside { (service : Service M) (start : Start) (history : List Event) (heads : List Head)
        (drawn : List Draw) (earliest latest : ℕ) (items : List Item) (old new : Shepherd P) (link after : L)
        → turn old ≡ ShepherdTurn.Outside
        → ShepherdSteps (λ v w. VisitsOutside L.makes L.tally v link w after) old new
        → Attributing P.asks L.makes M.makes R.gives S.looks service start history heads drawn earliest latest items old
        → Attributing P.asks L.makes M.makes R.gives S.looks service start history heads drawn earliest latest items new }
    ensures windows { (service : Service M) (start : Start) (history : List Event) (heads : List Head)
        (drawn : List Draw) (earliest latest : ℕ) (items : List Item) (old new : Shepherd P) (windows after : WindowsValue)
        → 1 ≤ windows.wq → windows.wq ≤ MAX_HOLDERS → ShepherdSteps (λ v w. VisitsWindows v windows w after) old new
        → Attributing P.asks L.makes M.makes R.gives S.looks service start history heads drawn earliest latest items old
        → Attributing P.asks L.makes M.makes R.gives S.looks service start history heads drawn earliest latest items new }
    ensures inside { (service : Service M) (heads : List Head) (drawn : List Draw) (earliest latest : ℕ) (items : List Item)
        (old new : Shepherd P) (container after : ContainerValue)
        → ShepherdSteps (λ v w. VisitsInside P.asks v container w after) old new
        → entries_in container.since ≡ container.boot.entries → HasGrownBy container after
        → Attributing P.asks L.makes M.makes R.gives S.looks service container.boot.start
        (events_of container) heads drawn earliest latest items old
        → Attributing P.asks L.makes M.makes R.gives S.looks service after.boot.start
        (events_of after) heads drawn earliest latest items new }
    ensures advance { (service : Service M) (start : Start) (history : List Event) (heads : List Head)
        (drawn : List Draw) (earliest latest : ℕ) (items : List Item) (key : List ℕ) (old new : Shepherd P)
        → turn old ≡ ShepherdTurn.Own → ShepherdSteps (λ v w. Advances key v v.work w) old new
        → Attributing P.asks L.makes M.makes R.gives S.looks service start history heads drawn earliest latest items old
        → Attributing P.asks L.makes M.makes R.gives S.looks service start history heads drawn earliest latest items new }
    ensures open { (service : Service M) (start : Start) (history : List Event) (heads : List Head)
        (drawn : List Draw) (earliest latest : ℕ) (items : List Item) (s : Shepherd P) (stage : Stage P) (worker : WorkerNo)
        → turn s ≡ ShepherdTurn.Program → OpensStage M.makes service.maker worker s.stage stage
        → Attributing P.asks L.makes M.makes R.gives S.looks service start history heads drawn earliest latest items s
        → Attributing P.asks L.makes M.makes R.gives S.looks service start history heads drawn earliest latest items
        (record s { stage = stage }) }
    ensures out { (service : Service M) (start : Start) (history : List Event) (heads : List Head)
        (drawn : List Draw) (earliest latest : ℕ) (items : List Item) (bytes : List ℕ) (s : Shepherd P) (stage : Stage P)
        → turn s ≡ ShepherdTurn.Output → PutsOut s.stage bytes stage
        → Attributing P.asks L.makes M.makes R.gives S.looks service start history heads drawn earliest latest items s
        → Attributing P.asks L.makes M.makes R.gives S.looks service start history heads drawn earliest latest items
        (record s { stage = stage }) }
    ensures item { (service : Service M) (start : Start) (history : List Event) (heads : List Head)
        (drawn : List Draw) (earliest latest : ℕ) (items : List Item) (i : Item) (s : Shepherd P) (stage : Stage P)
        → has_item s.stage ≡ true → TakesItem s.stage i stage
        → Attributing P.asks L.makes M.makes R.gives S.looks service start history heads drawn earliest latest items s
        → Attributing P.asks L.makes M.makes R.gives S.looks service start history heads drawn earliest latest
        (items ++ i ∷ []) (record s { front = i.holds.front; stage = stage }) }
    ensures given_up { (service : Service M) (start : Start) (history : List Event) (heads : List Head)
        (drawn : List Draw) (earliest latest : ℕ) (items : List Item) (s : Shepherd P)
        → Attributing P.asks L.makes M.makes R.gives S.looks service start history heads drawn earliest latest items s
        → Attributing P.asks L.makes M.makes R.gives S.looks service start history heads drawn earliest latest items
        (record s { stage = dropped_stage s.stage }) }
    ensures given_back { (service : Service M) (start : Start) (history : List Event) (heads : List Head)
        (drawn : List Draw) (earliest latest : ℕ) (items : List Item) (s : Shepherd P) (stage : Stage P)
        (windows after : WindowsValue) → GivesBack s.stage windows stage after → HasLeftIfOpen s.stage
        → Attributing P.asks L.makes M.makes R.gives S.looks service start history heads drawn earliest latest items s
        → Attributing P.asks L.makes M.makes R.gives S.looks service start history heads drawn earliest latest items
        (record s { stage = stage }) }
{
    requests_account_for_their_events::<P>();
    requests_account_for_their_sessions::<P, L>();
}

/// A request that is taken off the bytes is attributed with what was decided of it and drawn for it then: its moment is
/// the clock's, which is no less than the latest one before.
pub fn taken_requests_are_attributed<
    P: Program,
    L: Link,
    M: ProgramMaker<P>,
    C: Clock,
    R: Random,
    S: Serials,
>()
    ensures { (service : Service M) (counts : LinkCounts) (start : Start) (history : List Event) (heads : List Head)
        (drawn : List Draw) (earliest latest : ℕ) (items : List Item) (s new : Shepherd P) (clock clock_after : C)
        (random random_after : R) (serials serials_after : S) → turn s ≡ ShepherdTurn.Request → latest ≤ C.told clock
        → TakesRequest C.told R.gives S.looks service.key service.home counts s clock random serials new clock_after
        random_after serials_after
        → Attributing P.asks L.makes M.makes R.gives S.looks service start history heads drawn earliest latest items s
        → AttributesNext P.asks L.makes M.makes R.gives S.looks service start history (heads ++ heads_in
        (taken_of s.received)) drawn earliest (C.told clock_after) items new random random_after serials serials_after }
{
    requests_account_for_their_events::<P>();
    requests_account_for_their_sessions::<P, L>();
}

/// When the container is first held for a request, the journal is no shorter than when it was last held for a request
/// before, as its item tells: an item joins those that were taken with that, where its request may go on. Where the
/// container was not held for a request, both places of its item are the front of the item before, and 0 for the
/// first (`keeps`).
pub fn items_follow_one_another<P: Program>()
    ensures begins { FollowOn (record { 0 = 0 }) [] }
    ensures item { (boot : BootValue) (fed : List ℕ) (heads : List Head) (written : List ℕ) (items : List Item)
        (i : Item) (s : Shepherd P) (stage : Stage P) → TakesItem s.stage i stage
        → OnVisit s.stage (λ v call. MayGoOn P.accepts P.asks boot v) → Standing fed heads written items s
        → FollowOn (record { 0 = 0 }) items → FollowOn (record { 0 = 0 }) (items ++ i ∷ []) }
    ensures begins_kept { KeepFront (record { 0 = 0 }) [] }
    ensures keeps { (start : Start) (history own : List Event) (marks : List WindowMark) (fed : List ℕ)
        (heads : List Head) (written : List ℕ) (items : List Item) (i : Item) (s : Shepherd P) (stage : Stage P)
        → TakesItem s.stage i stage → Accounting P.asks start history own marks items s
        → Standing fed heads written items s
        → KeepFront (record { 0 = 0 }) items → KeepFront (record { 0 = 0 }) (items ++ i ∷ []) }
{
    requests_account_for_their_events::<P>();
    requests_go_on::<P>();
}
