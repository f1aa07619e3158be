//! What an action does.

ghost use Rattle.std.specs.Prelude.{◌≡◌};

use crash_base::{ComponentNo, WriteList};
use journal_model::{DoneText, ReadMark};

/// The component that each action enters first.
pub const GATEWAY: ComponentNo = ComponentNo(0);

/// The most reads and puts of an action: each takes three steps at most, with the enter and the exit of the table's
/// owner, and four more lead into its home and out of it.
pub const MAX_ACCESSES: usize = 41;

/// The component that an action goes through behind the gateway, and the method by which it enters it.
#[derive(Clone, Copy)]
pub struct Through {
    pub component: ComponentNo,
    pub method: u8,
}

/// What an action puts, in order, and what it answers.
#[derive(Drop)]
pub struct Outcome {
    pub writes: WriteList,
    pub done: DoneText,
}

/// What an action does after the reads that it was answered.
#[derive(Drop)]
pub enum Want {
    /// It reads a row or lists a table.
    Ask(ReadMark),
    /// It puts its writes, and is done.
    Finish(Outcome),
}

/// Why an action has not come to its outcome.
#[derive(Drop)]
pub enum Stop {
    /// It wants to read this, and has no answer yet.
    Ask(ReadMark),
    /// It is refused, with this answer.
    Refuse(DoneText),
    OutOfMemory,
}

impl From<crash_base::OutOfMemory> for Stop {
    ghost use Rattle.action_plans.specs.declared.plan.Stop.TheVariants.{OutOfMemory};

    ghost from_gives = { λ _ e. e ≡ OutOfMemory };

    fn from(_error: crash_base::OutOfMemory) -> Stop {
        Stop::OutOfMemory
    }
}
