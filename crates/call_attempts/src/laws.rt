//! Laws of attempts, as contracts of functions that do nothing.

ghost use Rattle.std.specs.Prelude.{◌≡◌, ◌↔◌, ◌⊎◌, ◌+◌, ◌<◌, ◌≤◌, ℕ, false, List, length, take, None, Some, IsSome};
ghost use Rattle.crash_base.specs.declared.fault_plans.FaultKind.TheVariants.{Raise, Hang};
ghost use Rattle.crash_base.specs.declared.numbers.ComponentNo.{ComponentNo};
ghost use Rattle.crash_base.specs.declared.numbers.GroupNo.{GroupNo};
ghost use Rattle.crash_base.specs.declared.numbers.Place.{Place};
ghost use Rattle.crash_base.specs.declared.numbers.RequestNo.{RequestNo};
ghost use Rattle.crash_base.specs.declared.numbers.WorkerNo.{WorkerNo};
ghost use Rattle.deployment.specs.Groups.{group_of, group_no};
ghost use Rattle.deployment.specs.Parts.{idempotent};
ghost use Rattle.journal_model.specs.declared.entry.DoneText.{DoneText};
ghost use Rattle.journal_model.specs.declared.stale.Stale.{Stale};
ghost use Rattle.journal_model.specs.Calls.{Call};
ghost use Rattle.journal_model.specs.Reboots.{down_of};
ghost use Rattle.journal_model.specs.Stale.{stale_in};
ghost use Rattle.call_ticket.specs.declared.next.Answer.{Answer};
ghost use Rattle.call_ticket.specs.declared.next.Next.{Next};
ghost use Rattle.call_ticket.specs.declared.next.Next.TheVariants as next;
ghost use Rattle.call_ticket.specs.Runs.{run_of};
ghost use Rattle.boot_core.specs.Boot.{BootValue, HasGrown};
ghost use Rattle.boot_core.specs.Faults.{fault_of};
ghost use Rattle.call_attempts.specs.Attempt.{AttemptValue, HasStepped, IsUnderWay, attempt_begun, attempt_of, boot_left, last_entered, rows_at_begin, wanted};
ghost use Rattle.call_ticket.specs.Ticket.{TicketValue};
ghost use Rattle.call_attempts.specs.Stops.{failure, stop_of};
ghost use Rattle.call_attempts.specs.declared.attempt.Stepped.{Stepped};
ghost use Rattle.call_attempts.specs.declared.attempt.Stepped.TheVariants.{Went, Done};
ghost use Rattle.call_attempts.specs.declared.stop.Stop.TheVariants.{Revoked, Sentinel, Hung, Raised};

use call_ticket::calls_follow;

/// An attempt is under way from its begin on, and stays so whatever others do: in each boot that has grown from this
/// one.
pub fn attempts_stay_under_way()
    ensures begun { (boot : BootValue) (asks : List Answer → Next) (request : RequestNo) (worker : WorkerNo) →
        IsUnderWay boot asks (attempt_begun request worker (record { 0 = length boot.entries })) }
    ensures meanwhile { (old new : BootValue) (asks : List Answer → Next) (a : AttemptValue) →
        HasGrown old new → IsUnderWay old asks a → IsUnderWay new asks a }
{}

/// A step of an attempt comes to something, and to one thing alone, with one attempt after it, and leaves one boot. So
/// a meaning of steps that nothing could meet is refused, and so is one that would let a step be left out.
pub fn steps_are_fixed()
    ensures some { (boot : BootValue) (asks : List Answer → Next) (a : AttemptValue) →
        (came : Stepped) × (after : AttemptValue) × HasStepped boot asks a came after }
    ensures one { (boot : BootValue) (asks : List Answer → Next) (a after other : AttemptValue)
        (came went : Stepped) → HasStepped boot asks a came after → HasStepped boot asks a went other →
        (came ≡ went) × (after ≡ other)
        × (boot_left boot (wanted asks a) came ≡ boot_left boot (wanted asks a) went) }
{}

/// A step is stopped only by a reboot, or by a component that fails: as revoked exactly where a group that its call
/// entered was rebooted since, which is then the first such one; by a sentinel exactly where none was, and the step
/// enters a component whose group is down; and as hung or raised exactly where neither is so, and the step enters a
/// component whose first active plan says so.
pub fn reboots_and_faults_alone_stop()
    ensures revoked { (b : BootValue) (call : Call) (x : Next) (shown : Stale) →
        (stop_of b call x ≡ Some (Revoked shown)) ↔ (stale_in b.entries call.touched ≡ Some shown) }
    ensures sentinel { (b : BootValue) (call : Call) (x : Next) (group : GroupNo) (down : Place) →
        (stop_of b call x ≡ Some (Sentinel group down)) ↔ ((stale_in b.entries call.touched ≡ None)
        × ((c : ComponentNo) × (m : ℕ) × (x ≡ next.Enter c m) × (group ≡ group_no (group_of b.start.deployment c.0))
        × (down_of b.entries (group_of b.start.deployment c.0) ≡ Some down))) }
    ensures hung { (b : BootValue) (call : Call) (x : Next) (c : ComponentNo) (fault : ℕ) →
        (stop_of b call x ≡ Some (Hung c fault)) ↔ ((stale_in b.entries call.touched ≡ None)
        × ((m : ℕ) × (x ≡ next.Enter c m) × (down_of b.entries (group_of b.start.deployment c.0) ≡ None)
        × (fault_of b c ≡ Some (fault, Hang)))) }
    ensures raised { (b : BootValue) (call : Call) (x : Next) (c : ComponentNo) (fault : ℕ) →
        (stop_of b call x ≡ Some (Raised c fault)) ↔ ((stale_in b.entries call.touched ≡ None)
        × ((m : ℕ) × (x ≡ next.Enter c m) × (down_of b.entries (group_of b.start.deployment c.0) ≡ None)
        × (fault_of b c ≡ Some (fault, Raise)))) }
{}

/// An attempt remembers what may not be made again: it may not exactly where one of its steps that were answered, at
/// whatever place among them, entered a component by a method that may not be called again.
pub fn single_calls_are_remembered()
    ensures { (boot : BootValue) (asks : List Answer → Next) (a : AttemptValue) → IsUnderWay boot asks a →
        (a.repeats ≡ false) ↔ ((before : ℕ) × (component : ComponentNo) × (method : ℕ)
        × (before < length a.answers) × (asks (take before a.answers) ≡ next.Enter component method)
        × (idempotent boot.start.deployment component.0 method ≡ false)) }
{}

/// An attempt of a program that keeps the rules of calls comes to its end, where nothing stops it: while no group that
/// it entered was rebooted since, none that it enters is down, and no component that it enters fails, each of its steps
/// is answered, until its program is done; and after 128 answers it is.
pub fn attempts_come_to_their_end()
    ensures goes_on { (boot : BootValue) (asks : List Answer → Next) (a after : AttemptValue) (came : Stepped) →
        stale_in boot.entries a.ticket.call.touched ≡ None → ((c : ComponentNo) (m : ℕ) →
        wanted asks a ≡ next.Enter c m → (down_of boot.entries (group_of boot.start.deployment c.0) ≡ None)
        × (failure c (fault_of boot c) ≡ None)) →
        HasStepped boot asks a came after →
        ((came ≡ Went) × (length after.answers ≡ length a.answers + 1)) ⊎ ((done : DoneText) × (came ≡ Done done)) }
    ensures done { (boot : BootValue) (asks : List Answer → Next) (a : AttemptValue) →
        IsSome (run_of boot.start.deployment asks (rows_at_begin boot a.ticket.call)) → IsUnderWay boot asks a →
        128 ≤ length a.answers → (done : DoneText) × (wanted asks a ≡ next.Done done) }
{
    calls_follow();
}

/// An attempt tells which component its last step entered: none where it has made no step; and after one that was
/// answered, just the component that this step was to enter. So it tells none after a step that entered none.
pub fn attempts_tell_what_they_entered_last()
    ensures begun { (ticket : TicketValue) → last_entered (attempt_of ticket) ≡ None }
    ensures stepped { (boot : BootValue) (asks : List Answer → Next) (a after : AttemptValue) (c : ComponentNo) →
        HasStepped boot asks a Went after →
        (last_entered after ≡ Some c) ↔ ((m : ℕ) × (wanted asks a ≡ next.Enter c m)) }
{}
