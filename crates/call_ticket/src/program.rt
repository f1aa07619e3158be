//! Programs of calls.

ghost use Rattle.std.specs.Prelude.{◌≡◌, List, IfOk, IsSome};

use crate::next::{AnswerList, Next};
use crash_base::OutOfMemory;
use std::alloc::Global;

/// A program of a call: the step that it asks for next depends on its value and the answers so far, and on nothing
/// else.
pub trait Program {
    ghost use Rattle.crash_base.specs.declared.rows.RowWrite.{RowWrite};
    ghost use Rattle.deployment.specs.declared.parts.Parts.{Parts};
    ghost use Rattle.call_ticket.specs.declared.next.Answer.{Answer};
    ghost use Rattle.call_ticket.specs.declared.next.Next.{Next};
    ghost use Rattle.call_ticket.specs.Runs.{run_of};

    /// The step after these answers.
    ghost asks: { Self → List Answer → Next };

    /// The deployments whose rules the program keeps.
    ghost accepts: { Self → Parts → Type 0 };

    /// The step after these answers. It takes memory for what it puts or answers.
    fn next(&self, alloc: Global, answers: &AnswerList) -> Result<Next, OutOfMemory>
        ensures { IfOk result (λ next. next ≡ asks self.now answers.now) };

    /// Over any rows, in a deployment that it accepts, the program is done within the limits of a call, and each step
    /// before keeps the rules.
    ghost is_done: { (program : Self) (parts : Parts) (rows : List RowWrite)
        → accepts program parts → IsSome (run_of parts (asks program) rows) };
}
