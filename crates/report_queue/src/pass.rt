//! Passes to a queue.

ghost use Rattle.std.specs.Prelude.{◌≡◌, ◌<◌, ◌↔◌, [], ◌∷◌, ◌++◌, length, option_to_list, IfSome, IsSome, OnOk};
ghost use Rattle.atomic_table.specs.Seated.{TableId};
ghost use Rattle.report_queue.specs.Passes.{AreTo, PassValue};

use crash_base::OutOfMemory;
use crossbeam_queue::Pass;
use failure_scores::FailureReport;
use std::alloc::Global;
use std::marker::Model;

/// The right to put reports into a queue and to take them. Contracts see which queue it is to, and what it knows of it
/// under the queue's rule.
#[derive(Drop)]
pub struct ReportPass<V = ()> {
    pub(crate) inner: Pass<FailureReport, V>,
}

impl<V> Model for ReportPass<V> {
    ghost use Rattle.std.specs.Prelude.{◌≡◌, []};
    ghost use Rattle.report_queue.specs.Passes.{PassValue};

    ghost Value = { PassValue V };

    ghost view = { λ p. record { queue = p.inner.table_id; knows = p.inner.me.0.client } };

    ghost invariant = { λ p. p.inner.me.1 ≡ [] };
}

/// Passes, which contracts see as a list.
#[derive(Drop)]
pub struct ReportPassList<V = ()> {
    passes: Vec<ReportPass<V>>,
}

impl<V> Model for ReportPassList<V> {
    ghost use Rattle.std.specs.Prelude.{List};
    ghost use Rattle.report_queue.specs.Passes.{PassValue};

    ghost Value = { List (PassValue V) };

    ghost view = { λ l. l.passes.items };
}

/// The last of some passes, which is taken off.
fn take_last<V>(passes: &mut Vec<ReportPass<V>>) -> Option<ReportPass<V>>
    ensures left { passes.old.items ≡ passes.new.items ++ option_to_list result }
    ensures some { IsSome result ↔ (0 < length passes.old.items) }
    ensures queue { (queue : TableId) (knows : V) → AreTo queue knows passes.old.items →
        AreTo queue knows passes.new.items × IfSome result (λ pass. pass ≡ record { queue = queue; knows = knows }) }
{
    passes.pop()
}

impl<V> ReportPassList<V> {
    /// No passes. It takes no memory.
    pub(crate) fn new(alloc: Global) -> ReportPassList<V>
        ensures { result ≡ [] }
    {
        ReportPassList {
            passes: Vec::new(alloc),
        }
    }

    /// Adds a pass at the end.
    pub(crate) fn push(&mut self, pass: ReportPass<V>) -> Result<(), OutOfMemory>
        ensures { OnOk result (self.new ≡ self.old ++ pass ∷ []) }
    {
        self.passes.push(pass)?;
        Ok(())
    }

    /// The last pass, which is taken off. None exactly where there is none. It takes no memory.
    pub fn take(&mut self) -> Option<ReportPass<V>>
        ensures left { self.old ≡ self.new ++ option_to_list result }
        ensures some { IsSome result ↔ (0 < length self.old) }
        ensures queue { (queue : TableId) (knows : V) → AreTo queue knows self.old →
            AreTo queue knows self.new × IfSome result (λ pass. pass ≡ record { queue = queue; knows = knows }) }
    {
        take_last(&mut self.passes)
    }
}
