//! The law of what requests of the site enter and access, in the words of their ends. It is the contract of a function
//! that does nothing: a caller that needs the law calls the function.

ghost use Rattle.std.specs.Prelude.{◌≡◌, ◌⊎◌, ◌<◌, ℕ, List, All, length};
ghost use Rattle.auction_calls.specs.declared.action.Action.TheVariants.{Buy};
ghost use Rattle.auction_calls.specs.declared.action.ActionCall.{ActionCall};
ghost use Rattle.boot_core.specs.declared.boot.Start.{Start};
ghost use Rattle.container_core.specs.declared.history.Event.{Event};
ghost use Rattle.crash_base.specs.declared.numbers.ComponentNo.{ComponentNo};
ghost use Rattle.crash_base.specs.declared.numbers.GroupNo.{GroupNo};
ghost use Rattle.crash_base.specs.declared.numbers.Place.{Place};
ghost use Rattle.reach_laws.specs.Uses.{MayEnter, MayEnterGroup};
ghost use Rattle.request_tries.specs.Ends.{EndStands, Errand};
ghost use Rattle.request_tries.specs.declared.outcome.Ended.{Ended};
ghost use Rattle.request_tries.specs.declared.outcome.RequestOutcome.TheVariants.{Conflict, Hung, Raised, Revoked, Sentinel};
ghost use Rattle.request_tries.specs.declared.outcome.Try.{Try};
ghost use Rattle.site_programs.specs.Errands.{AsksSite};
ghost use Rattle.site_programs.specs.Touched.{MayGoThrough, TryIsReached};

use reach_laws::{calls_access_reached_tables, calls_enter_owners, purchases_enter_once};
use request_tries::single_calls_alone_end_early;

/// A request that asks the site for a call is touched within the reach of its action alone. The group that was down is
/// that of Web, of the component that the action goes through, or of the owner of a table that it reaches; and the
/// component that failed is such a one, as is each on the path to it. Of each try that did not commit, whatever ended
/// the request, the group that was rebooted is such a one, and what was written is of a table that the action reaches.
/// A request that was revoked before its third try was a purchase.
pub fn requests_touch_what_their_actions_reach()
    ensures sentinel { (start : Start) (events : List Event) (errand : Errand) (call : ActionCall) (e : Ended)
        (group : GroupNo) (down : Place) → AsksSite start errand call → EndStands start events errand e
        → e.outcome ≡ Sentinel group down → MayEnterGroup call.action group }
    ensures hung { (start : Start) (events : List Event) (errand : Errand) (call : ActionCall) (e : Ended)
        (component : ComponentNo) (fault : ℕ) (path : List ComponentNo) → AsksSite start errand call
        → EndStands start events errand e → e.outcome ≡ Hung component fault path
        → (method : ℕ) × MayEnter call.action component method }
    ensures raised { (start : Start) (events : List Event) (errand : Errand) (call : ActionCall) (e : Ended)
        (component : ComponentNo) (fault : ℕ) (path : List ComponentNo) → AsksSite start errand call
        → EndStands start events errand e → e.outcome ≡ Raised component fault path
        → (method : ℕ) × MayEnter call.action component method }
    ensures path { (start : Start) (events : List Event) (errand : Errand) (call : ActionCall) (e : Ended)
        (component : ComponentNo) (fault : ℕ) (path : List ComponentNo) → AsksSite start errand call
        → EndStands start events errand e
        → (e.outcome ≡ Hung component fault path) ⊎ (e.outcome ≡ Raised component fault path)
        → All (MayGoThrough call.action) path }
    ensures revoked { (start : Start) (events : List Event) (errand : Errand) (call : ActionCall) (e : Ended)
        (tries : List Try) → AsksSite start errand call → EndStands start events errand e → e.outcome ≡ Revoked tries
        → All (TryIsReached call.action) tries }
    ensures conflict { (start : Start) (events : List Event) (errand : Errand) (call : ActionCall) (e : Ended)
        (tries : List Try) → AsksSite start errand call → EndStands start events errand e → e.outcome ≡ Conflict tries
        → All (TryIsReached call.action) tries }
    ensures early { (start : Start) (events : List Event) (errand : Errand) (call : ActionCall) (e : Ended)
        (tries : List Try) → AsksSite start errand call → EndStands start events errand e → e.outcome ≡ Revoked tries
        → length tries < 3 → (item : ℕ) × (call.action ≡ Buy item) }
{
    calls_access_reached_tables();
    calls_enter_owners();
    purchases_enter_once();
    single_calls_alone_end_early();
}
