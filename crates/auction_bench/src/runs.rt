//! Runs of actions over rows in memory.

use crate::shop_rows::ShopRows;
use auction_actions::ActionProgram;
use auction_calls::{Action, ActionCall, CheckedCall};
use call_ticket::{Answer, AnswerList, MAX_STEPS, Next, Program};
use crash_base::{Moment, OutOfMemory, RowList, SessionKey, WriteList};
use std::alloc::Global;

/// For how many answers there is room at first, which are more than those of a bid.
const FIRST_ANSWERS: usize = 16;

/// What actions came to.
#[derive(Clone, Copy)]
pub(crate) struct Tally {
    /// How many were answered with 200.
    pub(crate) answered: u64,
    /// How many steps they made.
    pub(crate) steps: u64,
}

impl Tally {
    /// No actions.
    pub(crate) fn new() -> Tally {
        Tally {
            answered: 0,
            steps: 0,
        }
    }

    /// Adds an action that ended with this status after so many steps.
    fn add(&mut self, status: u16, steps: usize) {
        if status == 200 {
            self.answered = self.answered.wrapping_add(1);
        }
        self.steps = self.steps.wrapping_add(steps as u64);
    }
}

/// The answer to a step over these rows. A row that is put is held back until the action is done. No action of this
/// program lists a table.
fn answer(
    alloc: Global,
    rows: &ShopRows,
    next: Next,
    writes: &mut WriteList,
) -> Result<Answer, OutOfMemory> {
    match next {
        Next::Enter { .. } => Ok(Answer::Entered),
        Next::Read(id) => Ok(Answer::Row(rows.copied(alloc, id)?)),
        Next::List(_) => Ok(Answer::Rows(RowList::new(alloc))),
        Next::Put(row) => {
            writes.push(row)?;
            Ok(Answer::Kept)
        }
        Next::Exit | Next::Done(_) => Ok(Answer::Left),
    }
}

/// Makes the steps of a program until it is done. The status of its answer.
fn make_steps(
    alloc: Global,
    rows: &ShopRows,
    program: &ActionProgram,
    answers: &mut AnswerList,
    writes: &mut WriteList,
) -> Result<u16, OutOfMemory> {
    for _ in 0..=MAX_STEPS {
        match program.next(alloc, answers)? {
            Next::Done(done) => return Ok(done.status),
            next => {
                let answer = answer(alloc, rows, next, writes)?;
                answers.push(answer)?;
            }
        }
    }
    Ok(0)
}

/// Runs a program, and puts what it wrote.
fn run(
    alloc: Global,
    rows: &mut ShopRows,
    program: &ActionProgram,
    tally: &mut Tally,
) -> Result<(), OutOfMemory> {
    let mut answers = AnswerList::from_vec(Vec::with_capacity(alloc, FIRST_ANSWERS)?);
    let mut writes = WriteList::new(alloc);
    let status = make_steps(alloc, rows, program, &mut answers, &mut writes)?;
    tally.add(status, answers.len());
    for row in writes.into_vec() {
        rows.put(row)?;
    }
    Ok(())
}

/// Makes an action of a user. It counts for nothing where a field is out of its range.
pub(crate) fn make(
    alloc: Global,
    rows: &mut ShopRows,
    user: u32,
    action: Action,
    tally: &mut Tally,
) -> Result<(), OutOfMemory> {
    let call = ActionCall {
        action,
        user,
        key: SessionKey([0; 16]),
        now: Moment(1),
        fresh: 1,
        form: [0; 56],
    };
    match CheckedCall::check(call) {
        Ok(call) => run(alloc, rows, &ActionProgram::new(call), tally),
        Err(_) => Ok(()),
    }
}
