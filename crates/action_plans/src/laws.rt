//! The laws of plans. Each is the contract of a function that does nothing: a caller that needs the law calls the
//! function.

ghost use Rattle.std.specs.Prelude.{◌≡◌, List, [], Option, Some};
ghost use Rattle.crash_base.specs.declared.rows.RowWrite.{RowWrite};
ghost use Rattle.deployment.specs.declared.parts.Parts.{Parts};
ghost use Rattle.deployment.specs.declared.parts.TablePart.{TablePart};
ghost use Rattle.journal_model.specs.declared.entry.DoneText.{DoneText};
ghost use Rattle.journal_model.specs.declared.entry.Mark.{Mark};
ghost use Rattle.call_ticket.specs.declared.next.Answer.{Answer};
ghost use Rattle.call_ticket.specs.declared.next.Next.TheVariants as next;
ghost use Rattle.call_ticket.specs.Runs.{run_of};
ghost use Rattle.action_plans.specs.declared.plan.Outcome.{Outcome};
ghost use Rattle.action_plans.specs.declared.plan.Through.{Through};
ghost use Rattle.action_plans.specs.declared.plan.TheConstants.{GATEWAY};
ghost use Rattle.action_plans.specs.Plans.{Plan};
ghost use Rattle.action_plans.specs.Steps.{enter_count, exit_count, outcome_of, program_of};

/// Where a plan comes to an outcome over some rows, the run of its program over them keeps the rules, is done within
/// the limits of a call, and writes and answers just this outcome.
pub fn plans_run()
    ensures { (parts : Parts) (through : Option Through) (plan : Plan Outcome)
        (rows : List RowWrite) (o : Outcome) → outcome_of parts through rows plan ≡ Some o →
        (marks : List Mark) × (run_of parts (program_of parts.tables through plan) rows
        ≡ Some (record { marks = marks; writes = o.writes; done = o.done })) }
{}

/// The program of a plan begins with the enter of the gateway, and is done only where it has left as many components
/// as it has entered.
pub fn programs_begin_and_end()
    ensures begin { (tables : List TablePart) (through : Option Through) (plan : Plan Outcome) →
        program_of tables through plan [] ≡ next.Enter GATEWAY 0 }
    ensures end { (tables : List TablePart) (through : Option Through) (plan : Plan Outcome)
        (answers : List Answer) (done : DoneText) → program_of tables through plan answers ≡ next.Done done →
        enter_count answers ≡ exit_count answers }
{}
