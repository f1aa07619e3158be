//! Laws of boots and their calls, as contracts of functions that do nothing.

ghost use Rattle.std.specs.Prelude.{◌≡◌, ◌↔◌, ◌<◌, ◌≤◌, ◌+◌, ℕ, List, [], ◌∷◌, ◌++◌, length, slice_get, true, false, None, Some, Option, All};
ghost use Rattle.crash_base.specs.declared.numbers.ComponentNo.{ComponentNo};
ghost use Rattle.crash_base.specs.declared.numbers.GroupNo.{GroupNo};
ghost use Rattle.crash_base.specs.declared.numbers.Place.{Place};
ghost use Rattle.crash_base.specs.declared.numbers.RequestNo.{RequestNo};
ghost use Rattle.crash_base.specs.declared.numbers.WorkerNo.{WorkerNo};
ghost use Rattle.crash_base.specs.declared.row_id.RowId.{RowId};
ghost use Rattle.crash_base.specs.declared.rows.RowWrite.{RowWrite};
ghost use Rattle.crash_base.specs.declared.scope.Scope.{Scope};
ghost use Rattle.crash_base.specs.Scope.{holds};
ghost use Rattle.commit_journal.specs.Journal.{IsScope};
ghost use Rattle.deployment.specs.Groups.{group_of};
ghost use Rattle.journal_model.specs.declared.entry.ActionEntry.{ActionEntry};
ghost use Rattle.journal_model.specs.declared.entry.Entry.{Entry};
ghost use Rattle.journal_model.specs.declared.entry.Entry.TheVariants.{Commit, Down, Up};
ghost use Rattle.journal_model.specs.declared.entry.Touch.{Touch};
ghost use Rattle.journal_model.specs.declared.limits.JournalLimits.{JournalLimits};
ghost use Rattle.journal_model.specs.Calls.{Call, begun, entered, left, has_read, has_listed, kept, entry_of};
ghost use Rattle.journal_model.specs.Conflicts.{conflict_of};
ghost use Rattle.journal_model.specs.Fits.{IsWrite};
ghost use Rattle.journal_model.specs.Limits.{entry_bytes, full_for};
ghost use Rattle.journal_model.specs.Reboots.{IsUndone, is_down_of, down_of};
ghost use Rattle.journal_model.specs.Legal.{AreInTurn, MayEnd};
ghost use Rattle.journal_model.specs.Requests.{commit_of};
ghost use Rattle.journal_model.specs.Snapshots.{snapshot};
ghost use Rattle.journal_model.specs.Stale.{IsTouch, stale_in};
ghost use Rattle.boot_core.specs.Boot.{BootValue, new_boot, with_entry, HasGrown};
ghost use Rattle.boot_core.specs.declared.boot.Start.{Start};
ghost use Rattle.boot_core.specs.Fits.{FitsIn};
ghost use Rattle.call_ticket.specs.Access.{is_in_owner};
ghost use Rattle.boot_core.specs.Refusals.{busy, barred, exit_refusal, read_refusal, list_refusal, put_refusal, commit_refusal, reboot_refusal, HasRoomFor, IsFirstOf, IsLeastDown};
ghost use Rattle.boot_core.specs.declared.refusals.CommitRefusal.{CommitRefusal};
ghost use Rattle.boot_core.specs.declared.refusals.RebootRefusal.TheVariants.{Busy};
ghost use Rattle.boot_core.specs.Revoked.{IsRevoked};
ghost use Rattle.boot_core.specs.Sound.{IsSound};

use call_ticket::{MAX_FRAMES, MAX_STEPS};
use crash_base::MAX_GROUPS;

/// A boot is sound from its start on: after each commit, each Down and each Up that is not refused.
pub fn boots_stay_sound()
    ensures started { (start : Start) → IsSound (new_boot start) }
    ensures commit { (c : BootValue) (call : Call) (action : Option ActionEntry) →
        IsSound c → FitsIn c call → commit_refusal c.start.limits c.entries call action ≡ None →
        IsSound (with_entry c (Commit (entry_of call action))) }
    ensures down { (c : BootValue) (s : Scope) → IsSound c → IsScope s →
        reboot_refusal c.start.limits c.entries s ≡ None → IsSound (with_entry c (Down s)) }
    ensures up { (c : BootValue) (s : Scope) (i : ℕ) → IsSound c → IsUndone c.entries i s →
        IsSound (with_entry c (Up s)) }
{}

/// A call fits its boot from its begin on: after each of its steps, and whatever anyone else does.
pub fn calls_go_on_fitting()
    ensures begun { (c : BootValue) (request : RequestNo) (worker : WorkerNo) →
        FitsIn c (begun request worker (record { 0 = length c.entries })) }
    ensures entered { (c : BootValue) (call : Call) (x : ComponentNo) → FitsIn c call →
        group_of c.start.deployment x.0 < MAX_GROUPS →
        down_of c.entries (group_of c.start.deployment x.0) ≡ None →
        FitsIn c (entered c.entries (group_of c.start.deployment x.0) x call) }
    ensures left { (c : BootValue) (call : Call) → FitsIn c call → FitsIn c (left call) }
    ensures read { (c : BootValue) (call : Call) (id : RowId) → FitsIn c call →
        FitsIn c (has_read (snapshot c.start.base c.entries call.at.0) id call) }
    ensures listed { (c : BootValue) (call : Call) (t : ℕ) → FitsIn c call →
        FitsIn c (has_listed t call) }
    ensures kept { (c : BootValue) (call : Call) (w : RowWrite) → FitsIn c call →
        IsWrite w → is_in_owner c.start.deployment call w.id.table ≡ true →
        FitsIn c (kept w call) }
    ensures meanwhile { (old new : BootValue) (call : Call) → HasGrown old new →
        FitsIn old call → FitsIn new call }
{}

/// A scope is busy exactly where a group that it holds is down, and the least such group is answered.
pub fn least_group_is_busy()
    ensures some { (es : List Entry) (s : Scope) (group : GroupNo) (place : Place) →
        busy es s ≡ Some (Busy group place) → IsLeastDown es s group place }
    ensures none { (es : List Entry) (s : Scope) → busy es s ≡ None →
        (g : ℕ) → g < MAX_GROUPS → holds s g ≡ true → down_of es g ≡ None }
    ensures found { (es : List Entry) (s : Scope) (group : GroupNo) (place : Place) →
        IsLeastDown es s group place → busy es s ≡ Some (Busy group place) }
{}

/// A call that entered a group is revoked from the next Down on whose scope holds the group, and stays so whatever
/// comes. A Down or an Up leaves a call that entered none of its groups as it was: it is revoked by neither, its exits,
/// its reads, its lists and its puts are refused exactly as before, and so is its commit where the journal has room for
/// it before and after. Its enters of groups outside the scope are barred exactly as before. After an Up each call that
/// is not revoked, and has frames and steps left, is barred from no group that the scope holds.
pub fn reboots_revoke_calls()
    ensures down { (es : List Entry) (call : Call) (t : Touch) (i : ℕ) (s : Scope) →
        slice_get call.touched i ≡ Some t → t.front.0 ≤ length es →
        holds s t.group.0 ≡ true → IsRevoked (es ++ Down s ∷ []) call }
    ensures lasting { (es more : List Entry) (call : Call) →
        IsRevoked es call → IsRevoked (es ++ more) call }
    ensures beside { (es : List Entry) (e : Entry) (call : Call) →
        All (IsTouch es) call.touched → All (λ t. is_down_of t.group.0 e ≡ false) call.touched →
        stale_in (es ++ e ∷ []) call.touched ≡ stale_in es call.touched }
    ensures exit { (es : List Entry) (e : Entry) (call : Call) →
        All (IsTouch es) call.touched → All (λ t. is_down_of t.group.0 e ≡ false) call.touched →
        exit_refusal (es ++ e ∷ []) call ≡ exit_refusal es call }
    ensures read { (es : List Entry) (e : Entry) (call : Call) (id : RowId) →
        All (IsTouch es) call.touched → All (λ t. is_down_of t.group.0 e ≡ false) call.touched →
        read_refusal (es ++ e ∷ []) call id ≡ read_refusal es call id }
    ensures list { (es : List Entry) (e : Entry) (call : Call) (t : ℕ) →
        All (IsTouch es) call.touched → All (λ t. is_down_of t.group.0 e ≡ false) call.touched →
        list_refusal (es ++ e ∷ []) call t ≡ list_refusal es call t }
    ensures put { (es : List Entry) (e : Entry) (call : Call) (id : RowId) →
        All (IsTouch es) call.touched → All (λ t. is_down_of t.group.0 e ≡ false) call.touched →
        put_refusal (es ++ e ∷ []) call id ≡ put_refusal es call id }
    ensures enter_down { (es : List Entry) (s : Scope) (call : Call) (g : ℕ) →
        All (IsTouch es) call.touched → All (λ t. holds s t.group.0 ≡ false) call.touched →
        holds s g ≡ false →
        barred (es ++ Down s ∷ []) call g ≡ barred es call g }
    ensures enter_up { (es : List Entry) (s : Scope) (call : Call) (g : ℕ) →
        All (IsTouch es) call.touched → holds s g ≡ false →
        barred (es ++ Up s ∷ []) call g ≡ barred es call g }
    ensures commit { (limits : JournalLimits) (es : List Entry) (s : Scope) (call : Call)
        (action : Option ActionEntry) →
        All (IsTouch es) call.touched → All (λ t. holds s t.group.0 ≡ false) call.touched →
        HasRoomFor limits es call action → HasRoomFor limits (es ++ Down s ∷ []) call action →
        commit_refusal limits (es ++ Down s ∷ []) call action
        ≡ commit_refusal limits es call action }
    ensures commit_up { (limits : JournalLimits) (es : List Entry) (s : Scope) (call : Call)
        (action : Option ActionEntry) → AreInTurn es → MayEnd es s → All (IsTouch es) call.touched →
        commit_refusal limits (es ++ Up s ∷ []) call action ≡ commit_refusal limits es call action }
    ensures up { (es : List Entry) (s : Scope) (g : ℕ) (call : Call) →
        AreInTurn es → MayEnd es s → holds s g ≡ true →
        All (IsTouch es) call.touched → stale_in es call.touched ≡ None →
        length call.frames < MAX_FRAMES → call.steps < MAX_STEPS →
        barred (es ++ Up s ∷ []) call g ≡ None }
{}

/// A commit is refused exactly for the first of four parts that is there: the request has committed, a group that the
/// call entered was rebooted since, what it read or writes was written since, and its entry would pass a limit of the
/// journal. Another order of these is refused, and so is a part that is left out.
pub fn commits_are_refused_in_order()
    ensures first { (limits : JournalLimits) (es : List Entry) (call : Call) (action : Option ActionEntry)
        (cause : CommitRefusal) → (commit_refusal limits es call action ≡ Some cause)
        ↔ IsFirstOf (commit_of es call.request) (stale_in es call.touched) (conflict_of es call)
        (full_for limits es 1 (entry_bytes (Commit (entry_of call action)))) cause }
    ensures none { (limits : JournalLimits) (es : List Entry) (call : Call) (action : Option ActionEntry) →
        (commit_refusal limits es call action ≡ None) ↔ ((commit_of es call.request ≡ None)
        × (stale_in es call.touched ≡ None) × (conflict_of es call ≡ None) × HasRoomFor limits es call action) }
{}
