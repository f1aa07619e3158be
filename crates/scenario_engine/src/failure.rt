//! Why lines are not done.

ghost use Rattle.std.specs.Prelude.{◌≡◌};
ghost use Rattle.boot_core.specs.declared.refusals.StartRefusal.{StartRefusal};
ghost use Rattle.scenario_engine.specs.Telling.{failure_of};

use boot_core::StartRefusal;
use crash_base::RowId;

/// Why a boot was left unstarted.
#[derive(Clone, Copy)]
pub enum UnstartedCause {
    /// The keeper failed.
    KeeperFailed,
    /// The keeper gave the row of this id, which may not be loaded.
    BadRow { id: RowId },
    /// The number of the last boot is the greatest that there is.
    BootsSpent,
}

/// Why a line was not done.
#[derive(Clone, Copy)]
pub enum LineFailure {
    /// The boot that the line needs was left unstarted.
    Unstarted(UnstartedCause),
    /// Memory ran out, while a boot was started or later.
    OutOfMemory,
}

/// Why a line was not done, whose boot was refused so.
pub(crate) fn failure_of(refusal: StartRefusal) -> LineFailure
    ensures { result ≡ failure_of refusal }
{
    match refusal {
        StartRefusal::KeeperFailed => LineFailure::Unstarted(UnstartedCause::KeeperFailed),
        StartRefusal::BadRow { id } => LineFailure::Unstarted(UnstartedCause::BadRow { id }),
        StartRefusal::BootsSpent => LineFailure::Unstarted(UnstartedCause::BootsSpent),
        StartRefusal::OutOfMemory => LineFailure::OutOfMemory,
    }
}
