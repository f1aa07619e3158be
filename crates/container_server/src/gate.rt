//! What is outside of a server.

ghost use Rattle.std.specs.Prelude.{List, IfOk};
ghost use Rattle.crash_base.specs.declared.fault_plans.FaultPlan.{FaultPlan};

use connection_server::Points;
use crash_base::{FaultList, OutOfMemory, WorkerNo};
use outside::{Clock, Link, Random, Sink, Source};

/// What is outside of a server: where connections come from, and what each thread works with. All threads share it.
pub trait Gate: Points {
    /// Whether it may give these fault plans.
    ghost plans: { Self → List FaultPlan → Type 0 };

    /// What is read of a connection.
    type In: Source + Drop + Send;

    /// What is written to it.
    type Out: Sink + Drop + Send;

    /// The link of a thread to the bricks.
    type L: Link + Drop + Send;

    /// Its clock.
    type C: Clock + Drop + Send;

    /// Its source of random words.
    type R: Random + Drop + Send;

    /// That no more connections come.
    type Closed: Drop + Send;

    /// The next connection, for a worker; none, where none came for now: so the worker sees that it is to stop.
    ///
    /// # Errors
    /// That no more come.
    fn next(&self, worker: WorkerNo) -> Result<Option<(Self::In, Self::Out)>, Self::Closed>;

    /// What a thread works with. It is asked once for each number: the workers have the first ones, and then comes the
    /// thread that sweeps, and the one that decides.
    ///
    /// # Errors
    /// Out of memory alone.
    fn tools(&self, worker: WorkerNo) -> Result<(Self::L, Self::C, Self::R), OutOfMemory>;

    /// The fault plans that the first container is started with.
    ///
    /// # Errors
    /// Out of memory alone.
    fn plan(&self) -> Result<FaultList, OutOfMemory>
        ensures { IfOk result (λ given. plans self.now given) };

    /// Rests for a moment: the thread that calls it has nothing to do.
    fn rest(&self);
}
