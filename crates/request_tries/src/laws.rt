//! Laws of requests in a container, as contracts of functions that do nothing.

ghost use Rattle.std.specs.Prelude.{◌≡◌, ◌≢◌, ◌⊎◌, ◌+◌, ◌<◌, ◌≤◌, ℕ, Bool, List, ◌++◌, length, None, Some, Option, IfSome};
ghost use Rattle.crash_base.specs.declared.numbers.ComponentNo.{ComponentNo};
ghost use Rattle.crash_base.specs.declared.numbers.Place.{Place};
ghost use Rattle.crash_base.specs.declared.numbers.RequestNo.{RequestNo};
ghost use Rattle.crash_base.specs.declared.numbers.WorkerNo.{WorkerNo};
ghost use Rattle.deployment.specs.Groups.{group_of};
ghost use Rattle.journal_model.specs.declared.entry.DoneText.{DoneText};
ghost use Rattle.journal_model.specs.declared.stale.Stale.{Stale};
ghost use Rattle.journal_model.specs.Conflicts.{conflict_of};
ghost use Rattle.journal_model.specs.Legal.{IsLegal};
ghost use Rattle.journal_model.specs.Reboots.{down_of};
ghost use Rattle.journal_model.specs.Stale.{stale_in};
ghost use Rattle.outside.specs.Faults.{Rose};
ghost use Rattle.call_ticket.specs.declared.next.Answer.{Answer};
ghost use Rattle.call_ticket.specs.declared.next.Next.{Next};
ghost use Rattle.call_ticket.specs.declared.next.Next.TheVariants as next;
ghost use Rattle.boot_core.specs.Boot.{BootValue, HasGrown};
ghost use Rattle.boot_core.specs.Faults.{fault_of};
ghost use Rattle.boot_core.specs.Refusals.{HasRoomFor};
ghost use Rattle.boot_core.specs.declared.boot.Start.{Start};
ghost use Rattle.container_core.specs.Container.{ContainerValue};
ghost use Rattle.container_core.specs.History.{entries_in};
ghost use Rattle.container_core.specs.declared.history.Event.{Event};
ghost use Rattle.call_attempts.specs.Stops.{failure};
ghost use Rattle.call_attempts.specs.Attempt.{AttemptValue, EntersOnce, HasEnteredOnce, IsUnderWay, wanted};
ghost use Rattle.request_tries.specs.declared.outcome.Ended.{Ended};
ghost use Rattle.request_tries.specs.declared.outcome.Progress.{Progress};
ghost use Rattle.request_tries.specs.declared.outcome.Progress.TheVariants as progress;
ghost use Rattle.request_tries.specs.declared.outcome.RequestOutcome.TheVariants.{Page, Revoked, Conflict, KeeperFailed};
ghost use Rattle.request_tries.specs.declared.outcome.Try.{Try};
ghost use Rattle.request_tries.specs.Ends.{Errand, EndStands, done_of};
ghost use Rattle.request_tries.specs.Serving.{TriesValue, IsServing, begun_at, unbegun};
ghost use Rattle.request_tries.specs.Steps.{CommitsAs, StepsAs, action_of, end_of};

/// What was said of a request stays so, whatever others do: an end that stands in a history stands in each that begins
/// with it, with what it answers, and a request that is served in a boot is served in each that has grown from it. One
/// that was not begun is served in any boot.
pub fn ends_stay_true()
    ensures unbegun { (boot : BootValue) (asks : List Answer → Next) (request : RequestNo) (worker : WorkerNo)
        (text : List ℕ) → IsServing boot asks (unbegun request worker text) }
    ensures ends { (start : Start) (events more : List Event) (a : Errand) (e : Ended) →
        EndStands start events a e → EndStands start (events ++ more) a e }
    ensures answers { (events more : List Event) (e : Ended) → e.held ≤ length events →
        done_of (events ++ more) e ≡ done_of events e }
    ensures serving { (old new : BootValue) (asks : List Answer → Next) (s : TriesValue) →
        HasGrown old new → IsServing old asks s → IsServing new asks s }
{}

/// All pages of one request are of one entry, in a legal journal: whoever asks again is shown the first one, and no
/// second commit of it is there.
pub fn requests_commit_once()
    ensures { (start : Start) (events : List Event) (a b : Errand) (e f : Ended) (place other : Place)
        (again once_more : Bool) → IsLegal start.base (entries_in events) → EndStands start events a e →
        EndStands start events b f → a.request ≡ b.request → e.outcome ≡ Page place again →
        f.outcome ≡ Page other once_more → place ≡ other }
{}

/// A request is tried three times at most: one that is served has had two tries at most; one that ended by a revoke
/// three at most, and by a conflict three. All its attempts bear its own number: a step or a commit after which it goes
/// on leaves the number as it is, and so does each attempt that is open then.
pub fn requests_have_three_tries()
    ensures served { (boot : BootValue) (asks : List Answer → Next) (s : TriesValue) →
        IsServing boot asks s → length s.tries ≤ 2 }
    ensures revoked { (start : Start) (events : List Event) (a : Errand) (e : Ended) (tries : List Try) →
        EndStands start events a e → e.outcome ≡ Revoked tries → length tries ≤ 3 }
    ensures conflict { (start : Start) (events : List Event) (a : Errand) (e : Ended) (tries : List Try) →
        EndStands start events a e → e.outcome ≡ Conflict tries → length tries ≡ 3 }
    ensures number { (c new : ContainerValue) (asks : List Answer → Next) (s after : TriesValue) (to : Progress) →
        StepsAs c asks s s.attempt to new after → end_of to ≡ None →
        IfSome s.attempt (λ a. a.ticket.call.request ≡ s.request) →
        (after.request ≡ s.request) × IfSome after.attempt (λ a. a.ticket.call.request ≡ s.request) }
    ensures next { (old new : ContainerValue) (s after : TriesValue) (done : DoneText) →
        CommitsAs old s s.attempt done None new after → (after.request ≡ s.request) × (after.attempt ≡ None) }
{}

/// A request that ended by a revoke before its third try called what may not be called again: its program enters by
/// such a method, and the try that was revoked did.
pub fn single_calls_alone_end_early()
    ensures ended { (start : Start) (events : List Event) (a : Errand) (e : Ended) (tries : List Try) →
        EndStands start events a e → e.outcome ≡ Revoked tries → length tries < 3 →
        EntersOnce start.deployment a.asks }
    ensures stopped { (c new : ContainerValue) (asks : List Answer → Next) (s after : TriesValue) (a : AttemptValue)
        (e : Ended) (tries : List Try) → IsUnderWay c.boot asks a →
        StepsAs c asks s (Some a) (progress.Ended e) new after → e.outcome ≡ Revoked tries → length tries < 3 →
        HasEnteredOnce c.boot.start.deployment asks a.answers }
    ensures refused { (old new : ContainerValue) (asks : List Answer → Next) (s after : TriesValue) (a : AttemptValue)
        (done : DoneText) (e : Ended) (tries : List Try) → IsUnderWay old.boot asks a →
        CommitsAs old s (Some a) done (Some e) new after → e.outcome ≡ Revoked tries → length tries < 3 →
        HasEnteredOnce old.boot.start.deployment asks a.answers }
{}

/// An end tells where the first try of its request began: where the open attempt began, or the first try before it; and
/// no step and no commit after which the request goes on changes that.
pub fn ends_begin_with_the_first_try()
    ensures stopped { (c new : ContainerValue) (asks : List Answer → Next) (s after : TriesValue) (e : Ended) →
        StepsAs c asks s s.attempt (progress.Ended e) new after → e.from.0 ≡ begun_at s (length c.boot.entries) }
    ensures committed { (old new : ContainerValue) (s after : TriesValue) (done : DoneText) (e : Ended) →
        CommitsAs old s s.attempt done (Some e) new after → e.from.0 ≡ begun_at s (length old.boot.entries) }
    ensures stepped { (c new : ContainerValue) (asks : List Answer → Next) (s after : TriesValue) (to : Progress)
        (later : ℕ) → StepsAs c asks s s.attempt to new after → end_of to ≡ None →
        begun_at after later ≡ begun_at s (length c.boot.entries) }
    ensures tried { (old new : ContainerValue) (s after : TriesValue) (done : DoneText) (later : ℕ) →
        CommitsAs old s s.attempt done None new after → begun_at after later ≡ begun_at s (length old.boot.entries) }
{}

/// What may not be called again is not: where a group that the open attempt entered was rebooted, and one of its steps
/// was an enter by a method that may not be called again, the request ends with its next step; or, where its program is
/// done, with its commit.
pub fn single_calls_are_made_once()
    ensures step { (c new : ContainerValue) (asks : List Answer → Next) (s after : TriesValue) (a : AttemptValue)
        (shown : Stale) (to : Progress) → IsUnderWay c.boot asks a →
        HasEnteredOnce c.boot.start.deployment asks a.answers →
        stale_in c.boot.entries a.ticket.call.touched ≡ Some shown →
        StepsAs c asks s (Some a) to new after → to ≢ progress.Went }
    ensures commit { (old new : ContainerValue) (asks : List Answer → Next) (s after : TriesValue) (a : AttemptValue)
        (shown : Stale) (done : DoneText) (end : Option Ended) → IsUnderWay old.boot asks a →
        HasEnteredOnce old.boot.start.deployment asks a.answers →
        stale_in old.boot.entries a.ticket.call.touched ≡ Some shown →
        CommitsAs old s (Some a) done end new after → end ≢ None }
{}

/// Where nothing hinders it a request ends as a page. While no group that the open attempt entered was rebooted since,
/// none that it enters is down, and no component that it enters fails, its step is answered, or finds the program done:
/// so it is after at most 128 answers (`call_attempts::attempts_come_to_their_end`). Where it is done then, nothing
/// that it read or writes was written since it began, and the journal has room, its commit ends as a page: of its own
/// entry, or of the one that was there already. Else the keeper failed, whose count has then risen.
pub fn unhindered_requests_are_served()
    ensures step { (c new : ContainerValue) (asks : List Answer → Next) (s after : TriesValue) (a : AttemptValue)
        (to : Progress) → stale_in c.boot.entries a.ticket.call.touched ≡ None →
        ((x : ComponentNo) (m : ℕ) → wanted asks a ≡ next.Enter x m →
        (down_of c.boot.entries (group_of c.boot.start.deployment x.0) ≡ None)
        × (failure x (fault_of c.boot x) ≡ None)) → StepsAs c asks s (Some a) to new after →
        ((done : DoneText) × (to ≡ progress.Done done)) ⊎ ((to ≡ progress.Went) × (later : AttemptValue)
        × (after.attempt ≡ Some later) × (length later.answers ≡ length a.answers + 1)) }
    ensures commit { (old new : ContainerValue) (s after : TriesValue) (a : AttemptValue) (done : DoneText)
        (end : Option Ended) → stale_in old.boot.entries a.ticket.call.touched ≡ None →
        conflict_of old.boot.entries a.ticket.call ≡ None →
        HasRoomFor old.boot.start.limits old.boot.entries a.ticket.call (action_of s done) →
        CommitsAs old s (Some a) done end new after → (e : Ended) × (end ≡ Some e)
        × (((place : Place) × (again : Bool) × (e.outcome ≡ Page place again))
        ⊎ ((e.outcome ≡ KeeperFailed) × Rose old.faults new.faults)) }
{}
