//! Points that a call passes, at which whoever drives it may wait.

use crash_base::{ComponentNo, Level, WorkerNo};

/// What a thread has just done.
#[derive(Clone, Copy)]
pub enum Point {
    /// A request entered this component, by a step in the container.
    Entered(ComponentNo),
    /// A request made another step in the container.
    Stepped,
    /// A response was written.
    Answered,
    /// The container was rebooted at this level, or was stopped so that its process is started again.
    Rebooted(Level),
}

/// What is told of each point that a thread passes. The thread holds no lock then, and goes on when the call returns.
pub trait Points {
    fn pass(&self, worker: WorkerNo, point: Point);
}

/// Points that nobody waits at.
#[derive(Clone, Copy)]
pub struct NoPoints;

impl Points for NoPoints {
    fn pass(&self, _worker: WorkerNo, _point: Point) {}
}
