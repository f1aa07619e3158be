//! An action that writes a row where it is not there yet.

ghost use Rattle.std.specs.Prelude.{◌≡◌, [], ◌∷◌, IfOk};
ghost use Rattle.action_plans.specs.Plans.{HasCome, walk};
ghost use Rattle.boot_tests.specs.Stamps.{plain, stamp_of, stamp_plan};

use action_plans::{Outcome, Reads, Stop, Through, next_step, want_of};
use call_ticket::{Answer, AnswerList, Next, Program};
use crash_base::{OutOfMemory, PageText, RowBytes, RowId, RowWrite, WriteList};
use deployment::TablePart;
use journal_model::{DoneText, ReadMark, SessionChange};
use std::alloc::Global;

/// Writes one byte to a row, with status 200, or refuses with status 409 where the row is there.
#[derive(Clone, Copy)]
pub struct Stamp<'a> {
    pub tables: &'a [TablePart],
    pub through: Option<Through>,
    pub id: RowId,
}

/// An answer without a page.
fn plain(alloc: Global, status: u16) -> DoneText
    ensures { result ≡ plain status }
{
    DoneText {
        status,
        page: PageText::new(alloc),
        session: SessionChange::Keep,
    }
}

/// The row with one byte, alone.
fn stamp_of(alloc: Global, id: RowId) -> Result<WriteList, OutOfMemory>
    ensures { IfOk result (λ writes. writes ≡ stamp_of id ∷ []) }
{
    let mut writes = WriteList::new(alloc);
    writes.push(RowWrite {
        id,
        bytes: RowBytes::copied(alloc, b"x")?,
    })?;
    Ok(writes)
}

/// What comes of the answers so far.
#[tactic(auto, unfolding(crate::specs::Stamps::stamp_plan, action_plans::specs::Plans::walk))]
fn stamped(alloc: Global, id: RowId, reads: &mut Reads) -> Result<Outcome, Stop>
    ensures { HasCome result reads.new (walk (stamp_plan id) reads.old) }
{
    match reads.take() {
        None => Err(Stop::Ask(ReadMark::Row(id))),
        Some(Answer::Row(None)) => Ok(Outcome {
            writes: stamp_of(alloc, id)?,
            done: plain(alloc, 200),
        }),
        Some(Answer::Row(Some(_))) => Err(Stop::Refuse(plain(alloc, 409))),
        Some(Answer::Entered | Answer::Rows(_) | Answer::Kept | Answer::Left) => {
            Err(Stop::Refuse(plain(alloc, 500)))
        }
    }
}

impl<'a> Program for Stamp<'a> {
    ghost use Rattle.action_plans.specs.Steps.{program_of};
    ghost use Rattle.boot_tests.specs.Stamps.{CanStamp, stamp_is_done, stamp_plan};

    ghost asks = { λ s. program_of s.tables.now s.through (stamp_plan s.id) };

    ghost accepts = { λ s parts. CanStamp s.tables.now s.through s.id parts };

    ghost is_done = { λ s parts rows can. stamp_is_done s.tables.now s.through s.id parts rows can };

    fn next(&self, alloc: Global, answers: &AnswerList) -> Result<Next, OutOfMemory> {
        let answers = answers.as_slice();
        let came = stamped(alloc, self.id, &mut Reads::new(answers));
        let want = want_of(alloc, came)?;
        next_step(alloc, self.tables, self.through, answers, want)
    }
}
