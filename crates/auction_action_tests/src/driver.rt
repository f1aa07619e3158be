//! Programs that are run over rows in memory.

ghost use Rattle.auction_rows.specs.Parts.{site_parts};

use crate::words::{add_marked, add_part};
use call_ticket::{Answer, AnswerList, MAX_STEPS, Next, Program};
use crash_base::{RowBytes, RowId, RowList, RowWrite};
use journal_model::DoneText;
use std::alloc::Global;
use std::process::Abort;

/// What a program did.
#[derive(Drop)]
pub struct Driven {
    /// Its steps, each with a space before it: `e3.0` enters component 3 by method 0, `r4.1` reads row 1 of table 4,
    /// `l5` lists table 5, `p4.1` puts row 1 of table 4, `x` leaves, and `d200` is done with status 200.
    pub steps: String,
    /// The rows that it put, in order.
    pub puts: Vec<RowWrite>,
    pub done: DoneText,
}

/// Adds a name and two numbers with a dot between them.
fn add_dotted(rt: &impl Abort, steps: &mut String, name: &str, first: u64, second: u64) {
    add_marked(rt, steps, name, first);
    add_marked(rt, steps, ".", second);
}

fn add_id(rt: &impl Abort, steps: &mut String, name: &str, id: RowId) {
    add_dotted(rt, steps, name, u64::from(id.table), id.key);
}

fn add_step(rt: &impl Abort, steps: &mut String, step: &Next) {
    add_part(rt, steps, " ");
    match step {
        Next::Enter { component, method } => {
            add_dotted(rt, steps, "e", u64::from(component.0), u64::from(*method))
        }
        Next::Read(id) => add_id(rt, steps, "r", *id),
        Next::List(table) => add_marked(rt, steps, "l", u64::from(*table)),
        Next::Put(row) => add_id(rt, steps, "p", row.id),
        Next::Exit => add_part(rt, steps, "x"),
        Next::Done(done) => add_marked(rt, steps, "d", u64::from(done.status)),
    }
}

/// The row of an id.
pub fn row_at(rows: &[RowWrite], id: RowId) -> Option<&RowWrite> {
    rows.iter().find(|row| row.id.is_same(id))
}

/// A copy of a row's bytes.
fn bytes_at(rt: &impl Abort, alloc: Global, rows: &[RowWrite], id: RowId) -> Option<RowBytes> {
    match row_at(rows, id) {
        None => None,
        Some(row) => Some(RowBytes::copied(alloc, row.bytes.as_slice()).expect(rt, "a row")),
    }
}

/// Copies of the rows of a table.
fn table_at(rt: &impl Abort, alloc: Global, rows: &[RowWrite], table: u8) -> RowList {
    let mut found = RowList::new(alloc);
    for row in rows {
        if row.id.table == table {
            let copy = row.copied(alloc).expect(rt, "a row");
            found.push(copy).expect(rt, "a row");
        }
    }
    found
}

/// Puts a row among rows in order of id, in place of an earlier one of its id.
pub fn put_row(rt: &impl Abort, rows: &mut Vec<RowWrite>, row: RowWrite) {
    match rows.iter().position(|other| !other.id.is_before(row.id)) {
        None => rows.push(row).expect(rt, "a row"),
        Some(at) => {
            if rows[at].id.is_same(row.id) {
                rows[at] = row;
            } else {
                rows.insert(at, row).expect(rt, "a row");
            }
        }
    }
}

/// Lays a put over the rows, and keeps a copy of it.
fn put(
    rt: &impl Abort,
    alloc: Global,
    rows: &mut Vec<RowWrite>,
    puts: &mut Vec<RowWrite>,
    row: RowWrite,
) {
    let copy = row.copied(alloc).expect(rt, "a row");
    puts.push(copy).expect(rt, "a row");
    put_row(rt, rows, row);
}

/// What comes of a step.
#[derive(Drop)]
enum StepEnd {
    Answered(Answer),
    Done(DoneText),
}

/// What comes of a step over these rows.
fn end_of(
    rt: &impl Abort,
    alloc: Global,
    rows: &mut Vec<RowWrite>,
    puts: &mut Vec<RowWrite>,
    step: Next,
) -> StepEnd {
    match step {
        Next::Enter { .. } => StepEnd::Answered(Answer::Entered),
        Next::Read(id) => StepEnd::Answered(Answer::Row(bytes_at(rt, alloc, rows, id))),
        Next::List(table) => StepEnd::Answered(Answer::Rows(table_at(rt, alloc, rows, table))),
        Next::Put(row) => {
            put(rt, alloc, rows, puts, row);
            StepEnd::Answered(Answer::Kept)
        }
        Next::Exit => StepEnd::Answered(Answer::Left),
        Next::Done(done) => StepEnd::Done(done),
    }
}

/// Runs a program that accepts the site's deployment until it is done, over rows in order of id. Each of its puts is
/// laid over them at once.
pub fn drive<P: Program>(
    rt: &impl Abort,
    alloc: Global,
    program: &P,
    rows: &mut Vec<RowWrite>,
) -> Driven
    requires { P.accepts program.now site_parts }
{
    let mut steps = String::new(alloc);
    let mut puts = Vec::new(alloc);
    let mut answers = AnswerList::new(alloc);
    for _ in 0..=MAX_STEPS {
        let step = program.next(alloc, &answers).expect(rt, "a step");
        add_step(rt, &mut steps, &step);
        match end_of(rt, alloc, rows, &mut puts, step) {
            StepEnd::Done(done) => return Driven { steps, puts, done },
            StepEnd::Answered(answer) => answers.push(answer).expect(rt, "an answer"),
        }
    }
    panic!(rt; "no end after {steps}")
}
