//! A workload, from its numbers to its summary.

ghost use Rattle.std.specs.Prelude.{◌≡◌, ◌≢◌, ◌≤◌, ℕ, List, Option};
ghost use Rattle.outside.specs.Faults.{Rose};
ghost use Rattle.scenario_engine.specs.KeeperCalls.{seen};
ghost use Rattle.drive_engine.specs.Command.{Runs};
ghost use Rattle.drive_engine.specs.Exchange.{exchange};
ghost use Rattle.drive_engine.specs.Work.{ending_of};

use crate::ending::Ending;
use crate::words::Command;
use boot_core::StartRefusal;
use outside::{Keeper, Sink, write_all};
use std::alloc::Global;
use workload::{MAX_TURNS, WorkloadFailure, run_workload};

/// How a command ends whose workload has no summary.
fn ending_of(failure: WorkloadFailure) -> Ending
    ensures { result ≡ ending_of failure }
{
    match failure {
        WorkloadFailure::OutOfMemory => Ending::OutOfMemory,
        WorkloadFailure::Unstarted(StartRefusal::OutOfMemory) => Ending::OutOfMemory,
        WorkloadFailure::Unstarted(StartRefusal::KeeperFailed) => Ending::KeeperFailed,
        WorkloadFailure::Unstarted(StartRefusal::BadRow { id }) => Ending::BadRow(id),
        WorkloadFailure::Unstarted(StartRefusal::BootsSpent) => Ending::BootsSpent,
    }
}

/// Runs a workload over the keeper, which is handed back, and writes its summary. It reads nothing.
pub fn work<T: Sink, K: Keeper + Drop>(
    alloc: Global,
    number: u64,
    count: u64,
    out: &mut T,
    keeper: K,
) -> (Ending, K)
    requires { count ≤ MAX_TURNS }
    ensures runs { (left : Option (List ℕ)) → Runs (Command.Workload number count) result.0
        (exchange left left (T.written out.old) (T.written out.new)
        (seen (K.told keeper) (K.faults keeper)) (seen (K.told result.1) (K.faults result.1))) }
    ensures write_failed { result.0 ≡ Ending.WriteFailed
        → Rose (T.faults out.old) (T.faults out.new) }
    ensures keeper_failed { result.0 ≡ Ending.KeeperFailed
        → Rose (K.faults keeper) (K.faults result.1) }
    ensures keeper_count { K.faults keeper ≤ K.faults result.1 }
    ensures unwritten { result.0 ≢ Ending.Done → result.0 ≢ Ending.WriteFailed → out.new ≡ out.old }
{
    let (keeper, answer) = run_workload(alloc, number, count, keeper);
    match answer {
        Err(failure) => (ending_of(failure), keeper),
        Ok(text) => match write_all(out, text.as_bytes()) {
            Ok(()) => (Ending::Done, keeper),
            Err(_) => (Ending::WriteFailed, keeper),
        },
    }
}
