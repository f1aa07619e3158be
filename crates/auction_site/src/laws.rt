//! Laws of the sixteen actions. Each is the contract of a function that does nothing: a caller that
//! needs the law calls the function.

ghost use Rattle.std.specs.Prelude.{◌≡◌, ◌≤◌, List, [], ◌∷◌, ◌++◌, length, Some, None, true};
ghost use Rattle.crash_base.specs.declared.rows.RowWrite.{RowWrite};
ghost use Rattle.crash_base.specs.declared.scope.Scope.{Scope};
ghost use Rattle.journal_model.specs.declared.entry.ActionEntry.{ActionEntry};
ghost use Rattle.journal_model.specs.declared.entry.CommitEntry.{CommitEntry};
ghost use Rattle.journal_model.specs.declared.entry.Entry.{Entry};
ghost use Rattle.journal_model.specs.declared.entry.Entry.TheVariants.{Commit, Down, Up};
ghost use Rattle.journal_model.specs.declared.entry.Mark.{Mark};
ghost use Rattle.journal_model.specs.Calls.{Call, entry_of};
ghost use Rattle.journal_model.specs.Legal.{IsCurrent};
ghost use Rattle.journal_model.specs.Rows.{rows_after};
ghost use Rattle.journal_model.specs.Snapshots.{snapshot};
ghost use Rattle.call_ticket.specs.declared.next.Answer.{Answer};
ghost use Rattle.call_ticket.specs.declared.next.Next.TheVariants as next;
ghost use Rattle.call_ticket.specs.Following.{Follows};
ghost use Rattle.call_ticket.specs.Runs.{run_of};
ghost use Rattle.action_plans.specs.Steps.{outcome_of};
ghost use Rattle.auction_calls.specs.declared.action.ActionCall.{ActionCall};
ghost use Rattle.auction_calls.specs.Calls.{is_call};
ghost use Rattle.auction_calls.specs.Texts.{Spells};
ghost use Rattle.auction_rows.specs.Parts.{site_parts};
ghost use Rattle.auction_site.specs.Actions.{site, plan_of, through_of, steps_of};
ghost use Rattle.auction_site.specs.Meant.{IsMade, IsMeant, AreMeant};

use call_ticket::calls_follow;
use journal_model::snapshots_stay;

/// The plan of each call comes to what the site means by the call. This holds over any rows, also over such
/// as no action writes.
pub fn plans_come_to_the_site()
    ensures { (call : ActionCall) (rows : List RowWrite) → is_call call ≡ true →
        outcome_of site_parts (through_of call.action) rows (plan_of call) ≡ Some (site call rows) }
{}

/// The run of each call over any rows keeps the rules and limits of calls in the site's deployment, and
/// writes and answers what the site means by the call.
pub fn calls_run_as_the_site()
    ensures { (call : ActionCall) (rows : List RowWrite) → is_call call ≡ true →
        (marks : List Mark) × (run_of site_parts (steps_of call) rows
        ≡ Some (record { marks = marks; writes = (site call rows).writes; done = (site call rows).done })) }
{}

/// Where the call that makes the commit follows the steps of an action over rows until they are done, its entry, with
/// the text of the action's call and the answer, is made by the action over these rows.
pub fn followed_calls_are_made()
    ensures { (call : ActionCall) (rows : List RowWrite) (answers : List Answer) (made : Call) (action : ActionEntry) →
        Spells action.text call → Follows (steps_of call) rows answers made →
        steps_of call answers ≡ next.Done action.done → IsMade rows (entry_of made (Some action)) }
{
    calls_follow();
}

/// A commit that is current, and that the call of its text made over the rows at its begin, wrote and answered what
/// the site means by that call over the rows just before its own entry: as if it had been done all at once, there.
pub fn commits_are_meant()
    ensures { (base : List RowWrite) (es : List Entry) (entry : CommitEntry) → IsCurrent base es entry →
        IsMade (snapshot base es entry.at.0) entry → IsMeant (rows_after base es) entry }
{}

/// A journal without entries is meant. It stays so by the begin and the end of a reboot, by a commit without an action,
/// and by one that is current and that its action made over the rows at its begin. So it does by the current commit of
/// a call that followed the steps of an action over these rows until they were done, also where it listed a table: the
/// mark of a table keeps no value, so that from marks alone nothing follows of what was listed. A call that follows its
/// steps over the rows at its begin still does when the journal has grown.
pub fn journals_stay_meant()
    ensures empty { (base : List RowWrite) → AreMeant base [] }
    ensures down { (base : List RowWrite) (es : List Entry) (scope : Scope) →
        AreMeant base es → AreMeant base (es ++ Down scope ∷ []) }
    ensures up { (base : List RowWrite) (es : List Entry) (scope : Scope) →
        AreMeant base es → AreMeant base (es ++ Up scope ∷ []) }
    ensures plain { (base : List RowWrite) (es : List Entry) (entry : CommitEntry) → entry.action ≡ None →
        AreMeant base es → AreMeant base (es ++ Commit entry ∷ []) }
    ensures made { (base : List RowWrite) (es : List Entry) (entry : CommitEntry) → IsCurrent base es entry →
        IsMade (snapshot base es entry.at.0) entry → AreMeant base es → AreMeant base (es ++ Commit entry ∷ []) }
    ensures followed { (base : List RowWrite) (es : List Entry) (call : ActionCall) (answers : List Answer) (making : Call)
        (action : ActionEntry) → Spells action.text call →
        Follows (steps_of call) (snapshot base es making.at.0) answers making →
        steps_of call answers ≡ next.Done action.done → IsCurrent base es (entry_of making (Some action)) →
        AreMeant base es → AreMeant base (es ++ Commit (entry_of making (Some action)) ∷ []) }
    ensures held { (base : List RowWrite) (es more : List Entry) (call : ActionCall) (answers : List Answer)
        (making : Call) → making.at.0 ≤ length es → Follows (steps_of call) (snapshot base es making.at.0) answers making →
        Follows (steps_of call) (snapshot base (es ++ more) making.at.0) answers making }
{
    calls_follow();
    snapshots_stay();
}
