//! The steps of an action's program.

ghost use Rattle.std.specs.Prelude.{◌≡◌, List, Err, IfOk, IfErr};
ghost use Rattle.call_ticket.specs.declared.next.Answer.{Answer};
ghost use Rattle.action_plans.specs.declared.plan.Outcome.{Outcome};
ghost use Rattle.action_plans.specs.declared.plan.Stop.TheVariants as stop;
ghost use Rattle.action_plans.specs.Plans.{HasCome, Walked, wanted};
ghost use Rattle.action_plans.specs.Steps.{enter_count, exit_count, put_count, has_just_entered, is_entered, is_left, is_kept, home_depth, home_of, enter_home, is_away, is_home, access, access_in, reading, table_of, leaving, wanting, fixed_step, step_to};

use crate::plan::{GATEWAY, Outcome, Stop, Through, Want};
use call_ticket::{Answer, Next};
use crash_base::{ComponentNo, OutOfMemory, WriteList};
use deployment::{TablePart, owner_of};
use journal_model::{DoneText, ReadMark};
use std::alloc::Global;

/// Whether an answer is one to an enter.
fn is_entered(answer: &Answer) -> bool
    ensures { result ≡ is_entered answer.now }
{
    matches!(answer, Answer::Entered)
}

/// Whether an answer is one to an exit.
fn is_left(answer: &Answer) -> bool
    ensures { result ≡ is_left answer.now }
{
    matches!(answer, Answer::Left)
}

/// Whether an answer is one to a put.
fn is_kept(answer: &Answer) -> bool
    ensures { result ≡ is_kept answer.now }
{
    matches!(answer, Answer::Kept)
}

/// How many enters were answered.
#[tactic(auto, unfolding(crate::specs::Steps::enter_count))]
fn enter_count(answers: &[Answer]) -> usize
    ensures { result ≡ enter_count answers.now }
{
    answers.iter().filter(|answer| is_entered(answer)).count()
}

/// How many exits were answered.
#[tactic(auto, unfolding(crate::specs::Steps::exit_count))]
fn exit_count(answers: &[Answer]) -> usize
    ensures { result ≡ exit_count answers.now }
{
    answers.iter().filter(|answer| is_left(answer)).count()
}

/// How many puts were answered.
#[tactic(auto, unfolding(crate::specs::Steps::put_count))]
fn put_count(answers: &[Answer]) -> usize
    ensures { result ≡ put_count answers.now }
{
    answers.iter().filter(|answer| is_kept(answer)).count()
}

/// Whether the last step was an enter.
#[tactic(auto, unfolding(crate::specs::Steps::has_just_entered))]
fn has_just_entered(answers: &[Answer]) -> bool
    ensures { result ≡ has_just_entered answers.now }
{
    match answers.last() {
        None => false,
        Some(answer) => is_entered(answer),
    }
}

/// How many components are open while the action is at home.
fn home_depth(through: Option<Through>) -> usize
    ensures { result ≡ home_depth through }
{
    match through {
        None => 1,
        Some(_) => 2,
    }
}

/// Whether a component is the home of the action.
fn is_home(through: Option<Through>, c: ComponentNo) -> bool
    ensures { result ≡ is_home through c }
{
    match through {
        None => c.0 == GATEWAY.0,
        Some(through) => c.0 == through.component.0,
    }
}

/// The next step into the home, after so many enters.
fn enter_home(through: Option<Through>, enter_count: usize) -> Next
    ensures { result ≡ enter_home through enter_count }
{
    match through {
        Some(through) if enter_count != 0 => Next::Enter {
            component: through.component,
            method: through.method,
        },
        _ => Next::Enter {
            component: GATEWAY,
            method: 0,
        },
    }
}

/// Whether the action is away from home, in the owner of the table that it accesses.
fn is_away(through: Option<Through>, answers: &[Answer]) -> bool
    ensures { result ≡ is_away through answers.now }
{
    let enter_count = enter_count(answers);
    let home = home_depth(through);
    1 + home <= enter_count && enter_count - home - 1 == exit_count(answers)
}

/// The step that reads a row or lists a table.
fn reading(mark: ReadMark) -> Next
    ensures { result ≡ reading mark }
{
    match mark {
        ReadMark::Row(id) => Next::Read(id),
        ReadMark::Table(table) => Next::List(table),
    }
}

/// The table that is accessed by a read.
fn table_of(mark: ReadMark) -> u8
    ensures { result ≡ table_of mark }
{
    match mark {
        ReadMark::Row(id) => id.table,
        ReadMark::Table(table) => table,
    }
}

/// An access inside the owner of its table, or the enter of that owner before.
fn access_in(
    through: Option<Through>,
    answers: &[Answer],
    owner: Option<ComponentNo>,
    step: Next,
) -> Next
    ensures { result ≡ access_in through answers.now owner step }
{
    match owner {
        None => step,
        Some(owner) => {
            if is_away(through, answers) || is_home(through, owner) {
                step
            } else {
                Next::Enter {
                    component: owner,
                    method: 0,
                }
            }
        }
    }
}

/// The access of a table, or the enter of its owner before.
fn access(
    tables: &[TablePart],
    through: Option<Through>,
    answers: &[Answer],
    table: u8,
    step: Next,
) -> Next
    ensures { result ≡ access tables.now through answers.now table step }
{
    access_in(through, answers, owner_of(tables, table), step)
}

/// Every open component is left, and then the action is done.
fn leaving(answers: &[Answer], done: DoneText) -> Next
    ensures { result ≡ leaving answers.now done }
{
    if enter_count(answers) == exit_count(answers) {
        Next::Done(done)
    } else {
        Next::Exit
    }
}

/// The step to what the action wants.
fn wanting(
    alloc: Global,
    tables: &[TablePart],
    through: Option<Through>,
    answers: &[Answer],
    want: Want,
) -> Result<Next, OutOfMemory>
    ensures { IfOk result (λ next. next ≡ wanting tables.now through answers.now want) }
{
    match want {
        Want::Ask(mark) => Ok(access(tables, through, answers, table_of(mark), reading(mark))),
        Want::Finish(outcome) => match outcome.writes.as_slice().get(put_count(answers)) {
            None => Ok(leaving(answers, outcome.done)),
            Some(write) => {
                let write = write.copied(alloc)?;
                Ok(access(tables, through, answers, write.id.table, Next::Put(write)))
            }
        },
    }
}

/// The next step after these answers, whatever the action wants: into its home, or back from an owner. None where what
/// it wants decides. It visits each answer at most three times, and takes no memory.
pub fn fixed_step(through: Option<Through>, answers: &[Answer]) -> Option<Next>
    ensures { result ≡ fixed_step through answers.now }
{
    let enter_count = enter_count(answers);
    if enter_count < home_depth(through) {
        return Some(enter_home(through, enter_count));
    }
    if is_away(through, answers) && !has_just_entered(answers) {
        return Some(Next::Exit);
    }
    None
}

/// The next step, after these answers, of an action that wants this, in a deployment with these tables. It visits each
/// answer at most six times and each table up to that of the access, and copies the row that is put.
#[tactic(auto, using(crate::proofs::Fixing::fixed_comes))]
pub fn next_step(
    alloc: Global,
    tables: &[TablePart],
    through: Option<Through>,
    answers: &[Answer],
    want: Want,
) -> Result<Next, OutOfMemory>
    ensures { IfOk result (λ next. next ≡ step_to tables.now through answers.now want) }
{
    match fixed_step(through, answers) {
        Some(next) => Ok(next),
        None => wanting(alloc, tables, through, answers, want),
    }
}

/// What an action wants that has come so far. It takes no memory.
///
/// # Errors
/// `OutOfMemory` exactly where that stopped the action.
pub fn want_of(alloc: Global, came: Result<Outcome, Stop>) -> Result<Want, OutOfMemory>
    ensures want { IfOk result (λ want. (exit_count : List Answer) (walked : Walked Outcome) →
        HasCome came exit_count walked → want ≡ wanted walked) }
    ensures memory { IfErr result (λ _. came ≡ Err stop.OutOfMemory) }
{
    match came {
        Ok(outcome) => Ok(Want::Finish(outcome)),
        Err(Stop::Ask(mark)) => Ok(Want::Ask(mark)),
        Err(Stop::Refuse(done)) => Ok(Want::Finish(Outcome {
            writes: WriteList::new(alloc),
            done,
        })),
        Err(Stop::OutOfMemory) => Err(OutOfMemory),
    }
}
