//! The queue of reports.

ghost use Rattle.std.specs.Prelude.{◌≡◌, ℕ, ◌+◌, [], ◌∷◌, length, IfOk, MatchOption, MatchResult};
ghost use Rattle.crossbeam_queue.specs.Fifo.{Admits, Held, Learns, Pops, Pushes};
ghost use Rattle.failure_scores.specs.declared.report.FailureReport.{FailureReport};
ghost use Rattle.report_queue.specs.Passes.{AreTo};

use crate::pass::{ReportPass, ReportPassList};
use crash_base::OutOfMemory;
use crossbeam_queue::RuledArrayQueue;
use crossbeam_queue::protocol::{Free, Lesson, Outcome, Protocol};
use failure_scores::FailureReport;
use std::alloc::Global;
use std::marker::Model;
use std::sync::Wait;

/// How many reports have room.
pub const REPORT_PLACES: usize = 256;

/// Reports that were put and not taken yet, in order, under a rule of those who use the queue.
#[derive(Drop)]
pub struct ReportQueue<V = (), P: Protocol<FailureReport, V> = Free> {
    inner: RuledArrayQueue<FailureReport, V, P>,
}

impl<V, P: Protocol<FailureReport, V>> Model for ReportQueue<V, P> {
    ghost use Rattle.std.specs.Prelude.{◌≡◌};
    ghost use Rattle.atomic_table.specs.Seated.{TableId};
    ghost use Rattle.crossbeam_queue.specs.Passes.{ruled_capacity};
    ghost use Rattle.report_queue.specs.declared.queue.TheConstants.{REPORT_PLACES};

    ghost Value = { TableId };

    ghost view = { λ q. q.inner.table.shared.table_id };

    ghost invariant = { λ q. ruled_capacity q.inner ≡ REPORT_PLACES };
}

/// An empty queue.
fn empty<V, P: Protocol<FailureReport, V>>(alloc: Global) -> Result<ReportQueue<V, P>, OutOfMemory>
    requires { P.holds [] (P.first ∷ []) }
{
    let (inner, _) = RuledArrayQueue::ruled(alloc, REPORT_PLACES)?;
    Ok(ReportQueue { inner })
}

impl<V, P: Protocol<FailureReport, V>> ReportQueue<V, P> {
    /// An empty queue, and so many passes to it. Its rule has to hold of an empty queue with a pass, and to go on
    /// where a pass more is made.
    pub fn new(
        alloc: Global,
        passes: u16,
    ) -> Result<(ReportQueue<V, P>, ReportPassList<V>), OutOfMemory>
        requires { P.holds [] (P.first ∷ []) × Admits P.holds P.first }
        ensures { IfOk result (λ made. (length made.1 ≡ passes) × AreTo made.0 P.first made.1) }
    {
        let queue = empty::<V, P>(alloc)?;
        let list = queue.passes(alloc, passes)?;
        Ok((queue, list))
    }

    /// A new pass.
    fn pass(&self) -> ReportPass<V>
        requires { Admits P.holds P.first }
        ensures { result ≡ record { queue = self.now; knows = P.first } }
    {
        ReportPass {
            inner: self.inner.pass(),
        }
    }

    /// So many new passes.
    #[tactic(auto, using(crate::proofs::Passing::none_are, crate::proofs::Passing::one_more))]
    fn passes(&self, alloc: Global, passes: u16) -> Result<ReportPassList<V>, OutOfMemory>
        requires { Admits P.holds P.first }
        ensures { IfOk result (λ list. (length list ≡ passes) × AreTo self.now P.first list) }
    {
        let mut list = ReportPassList::new(alloc);
        for made in 0..passes {
            list.push(self.pass())?;
        }
        Ok(list)
    }

    /// Puts a report at the end. It comes back only where 256 reports stood in the queue at a moment of this call. It
    /// takes no memory, and may wait for a call of another thread.
    ///
    /// # Errors
    /// The report.
    pub fn put<M: Outcome<FailureReport, V> + Lesson<FailureReport, V>, W: Wait>(
        &self,
        rt: &W,
        pass: &mut ReportPass<V>,
        report: FailureReport,
    ) -> Result<(), FailureReport>
        requires pass { pass.old.queue ≡ self.now }
        requires push { (by : ℕ) → Pushes P.holds 256 by pass.old.knows report (M.then pass.old.knows report) }
        requires learn { (by : ℕ) → Learns P.holds by pass.old.knows (M.fact pass.old.knows) }
        ensures pass { pass.new.queue ≡ self.now }
        ensures answer { MatchResult result (λ _. M.then pass.old.knows report pass.new.knows)
            (λ back. (back ≡ report) × (pass.new ≡ pass.old) × Held 256 (M.fact pass.old.knows)) }
    {
        self.inner.push_as::<M, W>(rt, &mut pass.inner, report)
    }

    /// Takes the report at the front. None only where no report stood in the queue at a moment of this call. It takes
    /// no memory, and may wait for a call of another thread.
    pub fn take<M: Outcome<FailureReport, V> + Lesson<FailureReport, V>, W: Wait>(
        &self,
        rt: &W,
        pass: &mut ReportPass<V>,
    ) -> Option<FailureReport>
        requires pass { pass.old.queue ≡ self.now }
        requires pop { (by : ℕ) → Pops P.holds by pass.old.knows (M.then pass.old.knows) }
        requires learn { (by : ℕ) → Learns P.holds by pass.old.knows (M.fact pass.old.knows) }
        ensures pass { pass.new.queue ≡ self.now }
        ensures answer { MatchOption result ((pass.new ≡ pass.old) × Held 0 (M.fact pass.old.knows))
            (λ report. M.then pass.old.knows report pass.new.knows) }
    {
        self.inner.pop_as::<M, W>(rt, &mut pass.inner)
    }
}
