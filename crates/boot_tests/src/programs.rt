//! The steps of a program, in order.

use crate::stamps::Stamp;
use crate::words::{add_dotted, add_named, add_text, add_word, expect_words};
use action_plans::Through;
use call_ticket::{Answer, AnswerList, Next, Program};
use crash_base::{ComponentNo, RowBytes, RowId, RowWrite};
use deployment::TablePart;
use std::alloc::Global;
use std::process::Abort;

/// Table 3 is owned by component 1.
const TABLES: [TablePart; 1] = [TablePart {
    table: 3,
    owner: ComponentNo(1),
}];

fn add_row_id(rt: &impl Abort, words: &mut String, name: &str, id: RowId) {
    add_dotted(rt, words, name, u64::from(id.table), id.key);
}

fn add_put(rt: &impl Abort, words: &mut String, row: &RowWrite) {
    add_row_id(rt, words, "p", row.id);
    add_text(rt, words, "=", row.bytes.as_slice());
}

/// Adds a step: `e1.0` enters component 1 by method 0, `r3.7` reads a row, `l3` lists a table, `p3.7=x` puts a row, `x`
/// leaves, and `d200` is done with a status.
fn add_step(rt: &impl Abort, words: &mut String, step: &Next) {
    match step {
        Next::Enter { component, method } => {
            add_dotted(rt, words, "e", u64::from(component.0), u64::from(*method))
        }
        Next::Read(id) => add_row_id(rt, words, "r", *id),
        Next::List(table) => add_named(rt, words, "l", u64::from(*table)),
        Next::Put(row) => add_put(rt, words, row),
        Next::Exit => add_word(rt, words, "x"),
        Next::Done(done) => add_named(rt, words, "d", u64::from(done.status)),
    }
}

/// The answer to a step, where the row has these bytes.
fn answer_to(rt: &impl Abort, alloc: Global, step: &Next, row: Option<&[u8]>) -> Answer {
    match step {
        Next::Enter { .. } => Answer::Entered,
        Next::Read(_) => Answer::Row(match row {
            None => None,
            Some(bytes) => Some(RowBytes::copied(alloc, bytes).expect(rt, "a row")),
        }),
        Next::Put(_) => Answer::Kept,
        Next::List(_) | Next::Exit | Next::Done(_) => Answer::Left,
    }
}

/// The steps that a program asks for, up to twelve, where the row that it reads has these bytes.
fn steps_of<P: Program>(rt: &impl Abort, alloc: Global, program: &P, row: Option<&[u8]>) -> String {
    let mut words = String::new(alloc);
    let mut answers = AnswerList::new(alloc);
    for _ in 0..12 {
        let step = program.next(alloc, &answers).expect(rt, "a step");
        add_step(rt, &mut words, &step);
        if let Next::Done(_) = step {
            break;
        }
        let answer = answer_to(rt, alloc, &step, row);
        answers.push(answer).expect(rt, "an answer");
    }
    words
}

fn expect_steps(
    rt: &impl Abort,
    alloc: Global,
    through: Option<Through>,
    row: Option<&[u8]>,
    want: &str,
) {
    let stamp = Stamp {
        tables: &TABLES,
        through,
        id: RowId { table: 3, key: 7 },
    };
    let steps = steps_of(rt, alloc, &stamp, row);
    expect_words(rt, &steps, want, "the steps of a program");
}

/// What an action goes through: a component, by its method 4.
fn home(component: u16) -> Option<Through> {
    Some(Through {
        component: ComponentNo(component),
        method: 4,
    })
}

/// An access is made in the owner. Where that is what the action goes through, the access enters nothing; else it is
/// made behind it.
#[test]
fn an_access_is_made_in_the_owner(rt: HostRuntime) {
    let put = "e0.0 e1.0 r3.7 x e1.0 p3.7=x x x d200";
    let found = "e0.0 e1.0 r3.7 x x d409";
    let at_home = "e0.0 e1.4 r3.7 p3.7=x x x d200";
    let behind = "e0.0 e2.4 e1.0 r3.7 x e1.0 p3.7=x x x x d200";
    expect_steps(&rt, rt.alloc(), None, None, put);
    expect_steps(&rt, rt.alloc(), None, Some(b"a"), found);
    expect_steps(&rt, rt.alloc(), home(1), None, at_home);
    expect_steps(&rt, rt.alloc(), home(2), None, behind);
}
