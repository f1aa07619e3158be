//! A program that reads a row inside its owner, and writes it.

use call_ticket::{AnswerList, Next, Program};
use crash_base::{ComponentNo, OutOfMemory, PageText, RowBytes, RowId, RowWrite};
use journal_model::{DoneText, SessionChange};
use std::alloc::Global;

/// Enters component 1 by a method, reads row 7 of table 3, puts one byte there, leaves, and is done with status 200.
#[derive(Clone, Copy)]
pub struct Note {
    pub method: u8,
}

impl Program for Note {
    ghost use Rattle.boot_tests.specs.Notes.{CanNote, note, note_is_done};

    ghost asks = { λ n. note n.method };

    ghost accepts = { λ n parts. CanNote parts };

    ghost is_done = { λ n parts rows can. note_is_done n.method parts rows can };

    fn next(&self, alloc: Global, answers: &AnswerList) -> Result<Next, OutOfMemory> {
        let id = RowId { table: 3, key: 7 };
        if answers.len() == 0 {
            let (component, method) = (ComponentNo(1), self.method);
            return Ok(Next::Enter { component, method });
        }
        if answers.len() == 1 {
            return Ok(Next::Read(id));
        }
        if answers.len() == 2 {
            let bytes = RowBytes::copied(alloc, b"x")?;
            return Ok(Next::Put(RowWrite { id, bytes }));
        }
        if answers.len() == 3 {
            return Ok(Next::Exit);
        }
        Ok(Next::Done(DoneText {
            status: 200,
            page: PageText::new(alloc),
            session: SessionChange::Keep,
        }))
    }
}
