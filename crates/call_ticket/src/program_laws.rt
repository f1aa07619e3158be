//! Laws of programs, as contracts of functions that do nothing.

ghost use Rattle.std.specs.Prelude.{◌≡◌, ◌↔◌, ℕ, List, false, Some, IsSome, All};
ghost use Rattle.crash_base.specs.declared.numbers.ComponentNo.{ComponentNo};
ghost use Rattle.crash_base.specs.declared.rows.RowWrite.{RowWrite};
ghost use Rattle.deployment.specs.declared.parts.Parts.{Parts};
ghost use Rattle.deployment.specs.Parts.{idempotent};
ghost use Rattle.journal_model.specs.declared.entry.CommitEntry.{CommitEntry};
ghost use Rattle.journal_model.specs.declared.entry.DoneText.{DoneText};
ghost use Rattle.journal_model.specs.declared.entry.Entry.{Entry};
ghost use Rattle.journal_model.specs.declared.entry.Mark.{Mark};
ghost use Rattle.journal_model.specs.Calls.{Call};
ghost use Rattle.journal_model.specs.Legal.{IsCurrent};
ghost use Rattle.journal_model.specs.Rows.{rows_after};
ghost use Rattle.journal_model.specs.Snapshots.{snapshot, AgreeOn};
ghost use Rattle.call_ticket.specs.declared.next.Answer.{Answer};
ghost use Rattle.call_ticket.specs.declared.next.Next.{Next};
ghost use Rattle.call_ticket.specs.declared.next.Next.TheVariants as next;
ghost use Rattle.call_ticket.specs.Following.{Follows, MayMake};
ghost use Rattle.call_ticket.specs.Repeated.{may_repeat};
ghost use Rattle.call_ticket.specs.Runs.{Ran, run_of, Makes};

/// A run depends on what it marked alone: over other rows that are the same there, the run is equal.
pub fn equal_answers()
    ensures { (parts : Parts) (asks : List Answer → Next) (rows others : List RowWrite) (ran : Ran) →
        run_of parts asks rows ≡ Some ran →
        All (λ (m : Mark). AgreeOn rows others m.read) ran.marks →
        run_of parts asks others ≡ Some ran }
{}

/// What a program did over the rows at the begin of its call, it does over the rows before the entry of the call. So
/// its commit is as if all of it had run at its own place in the journal.
pub fn serial_order()
    ensures { (parts : Parts) (asks : List Answer → Next) (base : List RowWrite) (es : List Entry)
        (e : CommitEntry) (done : DoneText) → IsCurrent base es e →
        Makes parts asks (snapshot base es e.at.0) e done →
        Makes parts asks (rows_after base es) e done }
{}

/// A call that follows a program whose run keeps the rules may make the step that is asked for next, and passes no
/// limit by it. Where the program is done, the marks and writes of the call are those of the run.
pub fn calls_follow()
    ensures step { (parts : Parts) (asks : List Answer → Next) (rows : List RowWrite)
        (answers : List Answer) (call : Call) → IsSome (run_of parts asks rows) →
        Follows asks rows answers call → MayMake parts call (asks answers) }
    ensures done { (parts : Parts) (asks : List Answer → Next) (rows : List RowWrite)
        (answers : List Answer) (call : Call) (d : DoneText) → IsSome (run_of parts asks rows) →
        Follows asks rows answers call → asks answers ≡ next.Done d →
        run_of parts asks rows
        ≡ Some (record { marks = call.marks; writes = call.writes; done = d }) }
{}

/// The only step that may not be made again is an enter by a method that may not be called again: one that kept a read,
/// a put or an exit from being made again, or let such an enter be, is refused.
pub fn steps_are_repeated()
    ensures { (parts : Parts) (step : Next) → (may_repeat parts step ≡ false)
        ↔ ((component : ComponentNo) × (method : ℕ) × (step ≡ next.Enter component method)
        × (idempotent parts component.0 method ≡ false)) }
{}
