//! Keepers that tell nothing of their rows, and what a keeper holds at the end.

ghost use Rattle.std.specs.Prelude.{None};

use crate::kept_words::add_short_row;
use crash_base::{RowList, WriteList};
use outside::{CallList, Keeper, KeeperFault, MapKeeper};
use std::alloc::Global;
use std::process::Abort;

/// Tells nothing of another keeper.
#[derive(Drop)]
pub struct SilentKeeper<K: Keeper + Drop> {
    pub inner: K,
}

impl<K: Keeper + Drop> Keeper for SilentKeeper<K> {
    ghost told = { λ _. None };

    ghost faults = { λ k. K.faults k.inner };

    fn load(&mut self, alloc: Global) -> Result<RowList, KeeperFault> {
        self.inner.load(alloc)
    }

    fn apply(&mut self, alloc: Global, writes: &WriteList) -> Result<(), KeeperFault> {
        self.inner.apply(alloc, writes)
    }
}

/// Gives its rows in the order in which they are, and keeps no others.
#[derive(Drop)]
pub struct GivenKeeper {
    pub rows: RowList,
}

impl Keeper for GivenKeeper {
    ghost told = { λ _. None };

    ghost faults = { λ _. 0 };

    fn load(&mut self, alloc: Global) -> Result<RowList, KeeperFault> {
        let mut copies = RowList::new(alloc);
        for row in self.rows.as_slice() {
            copies.push(row.copied(alloc)?)?;
        }
        Ok(copies)
    }

    fn apply(&mut self, _alloc: Global, _writes: &WriteList) -> Result<(), KeeperFault> {
        Ok(())
    }
}

/// A keeper of these rows, of whose calls the one of this number fails.
pub fn failing_keeper(rt: &impl Abort, alloc: Global, rows: RowList, failing: u64) -> MapKeeper {
    let mut calls = CallList::new(alloc);
    calls.push(failing).expect(rt, "a number");
    MapKeeper::new(alloc, rows, calls).expect(rt, "a keeper")
}

/// Adds what a keeper holds. One call of it may fail, and none does after that.
pub fn add_kept<K: Keeper>(rt: &impl Abort, alloc: Global, words: &mut String, keeper: &mut K) {
    let rows = match keeper.load(alloc) {
        Ok(rows) => rows,
        Err(_) => keeper.load(alloc).expect(rt, "the rows of a keeper"),
    };
    for row in rows.as_slice() {
        add_short_row(rt, words, row);
    }
}
