//! Keepers that tests begin with: the one in memory, and two that tell nothing of their rows.

ghost use Rattle.std.specs.Prelude.{None};

use crate::command_tests::running::one_call;
use crash_base::{OutOfMemory, RowList, RowWrite, WriteList, copied_rows};
use outside::{CallList, Keeper, KeeperFault, MapKeeper};
use std::alloc::Global;
use std::process::Abort;

/// What a test asks of a keeper.
pub trait TestKeeper: Keeper + Drop {
    /// A keeper of these rows, of whose calls the one of this number fails, 0 for none.
    fn made(rt: &impl Abort, alloc: Global, rows: RowList, failing: u64) -> Self;

    /// How many calls were made.
    fn calls(&self) -> u64;

    /// The rows in order of id, copied.
    fn rows(&self, rt: &impl Abort, alloc: Global) -> RowList;
}

impl TestKeeper for MapKeeper {
    fn made(rt: &impl Abort, alloc: Global, rows: RowList, failing: u64) -> MapKeeper {
        let calls = one_call(rt, alloc, failing);
        MapKeeper::new(alloc, rows, calls).expect(rt, "a keeper")
    }

    fn calls(&self) -> u64 {
        self.calls()
    }

    fn rows(&self, rt: &impl Abort, alloc: Global) -> RowList {
        self.rows(alloc).expect(rt, "rows")
    }
}

/// Keeps rows in a list, each where it first came, and gives them in this order, or else from the end to the beginning.
#[derive(Drop)]
pub struct ListKeeper<const BACKWARD: bool> {
    rows: Vec<RowWrite>,
    failing: u64,
    calls: u64,
    faults: u64,
}

/// A list that is given from its beginning.
pub type ForwardKeeper = ListKeeper<false>;

/// A list that is given from its end.
pub type BackwardKeeper = ListKeeper<true>;

/// Counts a call, and answers whether it is the one that fails.
fn count_call(calls: &mut u64, failing: u64) -> bool {
    *calls = calls.saturating_add(1);
    *calls == failing
}

/// Puts a row in the place of the one with its id, or at the end.
fn put(rows: &mut Vec<RowWrite>, row: RowWrite) -> Result<(), OutOfMemory> {
    for kept in rows.iter_mut() {
        if kept.id.is_same(row.id) {
            kept.bytes = row.bytes;
            return Ok(());
        }
    }
    Ok(rows.push(row)?)
}

/// Puts copies of rows, the first first.
fn put_copies(
    alloc: Global,
    rows: &mut Vec<RowWrite>,
    writes: &[RowWrite],
) -> Result<(), OutOfMemory> {
    for write in writes {
        put(rows, write.copied(alloc)?)?;
    }
    Ok(())
}

impl<const BACKWARD: bool> Keeper for ListKeeper<BACKWARD> {
    ghost told = { λ _. None };

    ghost faults = { λ k. k.faults };

    fn load(&mut self, alloc: Global) -> Result<RowList, KeeperFault> {
        if count_call(&mut self.calls, self.failing) {
            self.faults = self.faults.saturating_add(1);
            return Err(KeeperFault::Failed);
        }
        let mut rows = copied_rows(alloc, &self.rows)?.into_vec();
        if BACKWARD {
            rows.reverse();
        }
        Ok(RowList::from_vec(rows))
    }

    fn apply(&mut self, alloc: Global, writes: &WriteList) -> Result<(), KeeperFault> {
        if count_call(&mut self.calls, self.failing) {
            self.faults = self.faults.saturating_add(1);
            return Err(KeeperFault::Failed);
        }
        Ok(put_copies(alloc, &mut self.rows, writes.as_slice())?)
    }
}

impl<const BACKWARD: bool> TestKeeper for ListKeeper<BACKWARD> {
    fn made(_rt: &impl Abort, _alloc: Global, rows: RowList, failing: u64) -> ListKeeper<BACKWARD> {
        ListKeeper {
            rows: rows.into_vec(),
            failing,
            calls: 0,
            faults: 0,
        }
    }

    fn calls(&self) -> u64 {
        self.calls
    }

    fn rows(&self, rt: &impl Abort, alloc: Global) -> RowList {
        let copies = copied_rows(alloc, &self.rows).expect(rt, "rows");
        let ordered = MapKeeper::new(alloc, copies, CallList::new(alloc)).expect(rt, "rows");
        ordered.rows(alloc).expect(rt, "rows")
    }
}
