//! A run of the workload.

ghost use Rattle.std.specs.Prelude.{◌≡◌, ◌≤◌, [], IfOk, MatchResult, string_bytes};
ghost use Rattle.workload.specs.Parts.{work_parts};
ghost use Rattle.workload.specs.Summary.{summary_of};
ghost use Rattle.workload.specs.Working.{TakesTurns, TakesSome, Works, FailsToWork, SumsUp, work_limits};

use crate::choices::{LAST_CALLER, MAX_TURNS};
use crate::deploying::work_deployment;
use crate::summary::summary_text;
use crate::tally::Tally;
use crate::turns::turn;
use boot_core::{JournalLimits, MAX_ENTRIES, MAX_JOURNAL_BYTES, StartRefusal};
use container_core::Container;
use crash_base::{FaultList, OutOfMemory};
use line_steps::Callers;
use outside::Keeper;
use std::alloc::Global;

/// Why a workload has no summary.
#[derive(Clone, Copy)]
pub enum WorkloadFailure {
    /// Its container was not started.
    Unstarted(StartRefusal),
    /// The allocator had no memory, or the keeper had none.
    OutOfMemory,
}

/// As full as a journal may be.
fn work_limits() -> JournalLimits
    ensures { result ≡ work_limits }
{
    JournalLimits {
        entries: MAX_ENTRIES,
        bytes: MAX_JOURNAL_BYTES,
    }
}

/// No component fails by a plan. It takes no memory.
fn no_plans(alloc: Global) -> FaultList
    ensures { result ≡ [] }
{
    FaultList::from_vec(Vec::new(alloc))
}

/// Takes the turns.
fn run_turns<K: Keeper + Drop>(
    alloc: Global,
    container: &mut Container<K>,
    number: u64,
    count: u64,
) -> Result<Tally, OutOfMemory>
    requires parts { container.old.boot.start.deployment ≡ work_parts }
    requires few { count ≤ MAX_TURNS }
    ensures takes { MatchResult result
        (λ tally. TakesTurns number count container.old.boot container.new.boot tally
        container.old.faults container.new.faults)
        (λ _. TakesSome number count container.old.boot container.new.boot
        container.old.faults container.new.faults) }
    ensures count { container.old.faults ≤ container.new.faults }
{
    let mut callers = Callers::new(alloc);
    callers.pad(LAST_CALLER)?;
    let mut tally = Tally::new();
    let mut drawn = number;
    for k in 0..count {
        drawn = turn(alloc, container, &mut callers, &mut tally, k, drawn)?;
    }
    Ok(tally)
}

/// Takes the turns, and sums them up.
#[tactic(auto, using(crate::proofs::Running::some_of_all))]
fn sum_up<K: Keeper + Drop>(
    alloc: Global,
    container: &mut Container<K>,
    number: u64,
    count: u64,
) -> Result<String, OutOfMemory>
    requires parts { container.old.boot.start.deployment ≡ work_parts }
    requires few { count ≤ MAX_TURNS }
    ensures sums { MatchResult result
        (λ text. SumsUp number count (string_bytes text) container.old.boot container.new.boot
        container.old.faults container.new.faults)
        (λ _. TakesSome number count container.old.boot container.new.boot
        container.old.faults container.new.faults) }
    ensures count { container.old.faults ≤ container.new.faults }
{
    let tally = run_turns(alloc, container, number, count)?;
    let text = summary_text(alloc, tally, container.as_boot())?;
    Ok(text)
}

/// Runs the workload of a number: so many turns over the rows of a keeper, which is handed back with the rows of each
/// commit. The answer is the summary, of seven lines. A turn costs what its one call of the container does, and the
/// summary what listing all rows does.
///
/// # Errors
/// `WorkloadFailure` says why there is no summary, and `FailsToWork` what the keeper holds then.
#[tactic(auto, using(crate::proofs::Running::works, crate::proofs::Running::works_partly))]
pub fn run_workload<K: Keeper + Drop>(
    alloc: Global,
    number: u64,
    count: u64,
    keeper: K,
) -> (K, Result<String, WorkloadFailure>)
    requires { count ≤ MAX_TURNS }
    ensures answer { MatchResult result.1
        (λ text. Works number count (string_bytes text) (K.told keeper) (K.told result.0)
        (K.faults keeper) (K.faults result.0))
        (λ failure. FailsToWork failure number count (K.told keeper) (K.told result.0)
        (K.faults keeper) (K.faults result.0)) }
    ensures count { K.faults keeper ≤ K.faults result.0 }
{
    let Ok(deployment) = work_deployment(alloc) else {
        return (keeper, Err(WorkloadFailure::OutOfMemory));
    };
    match Container::start(alloc, deployment, keeper, no_plans(alloc), work_limits()) {
        Err(fail) => (fail.keeper, Err(WorkloadFailure::Unstarted(fail.refusal))),
        Ok(container) => {
            let mut container = container;
            match sum_up(alloc, &mut container, number, count) {
                Ok(text) => (container.into_keeper(), Ok(text)),
                Err(OutOfMemory) => { (container.into_keeper(), Err(WorkloadFailure::OutOfMemory)) }
            }
        }
    }
}
