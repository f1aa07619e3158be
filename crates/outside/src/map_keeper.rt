//! A keeper in memory, whose calls may fail.

ghost use Rattle.std.specs.Prelude.{◌≡◌, ◌≤◌, ◌↔◌, [], Some, IfOk, OnOk, IfErr, IsTrue, if◌then◌else◌};
ghost use Rattle.crash_base.specs.Rows.{put_all, AreOrdered};
ghost use Rattle.outside.specs.MapKeeper.{call_fails, after_load, after_apply, after_refusal, failed_calls};

use crate::keeper::{Keeper, KeeperFault};
use crate::lists::{CallList, is_listed};
use crate::row_map::RowMap;
use crash_base::{OutOfMemory, RowList, WriteList};
use std::alloc::Global;
use std::marker::Model;

/// Rows in memory, in order of id, with one place for each id. Calls are numbered from 1, `load` and
/// `apply` share the numbers, and the calls whose numbers are listed fail: they change no row. A
/// call past the number 2^64 - 1 has no number, and does not fail. A keeper of this kind never stops
/// telling.
#[derive(Drop)]
pub struct MapKeeper {
    rows: RowMap,
    failing: CallList,
    calls: u64,
    faults: u64,
}

impl Model for MapKeeper {
    ghost use Rattle.outside.specs.MapKeeper.{MapKeeperState, failed_calls};

    ghost Value = { MapKeeperState };

    ghost view = { λ k. record {
      told = record { rows = k.rows; calls = k.calls; failed = failed_calls k.failing k.calls };
      failing = k.failing;
      faults = k.faults;
    } };
}

impl MapKeeper {
    /// A keeper of these rows; of two with one id, of the later. The calls numbered in `failing`
    /// fail. It takes a place for each id, and moves no row's bytes.
    pub fn new(alloc: Global, rows: RowList, failing: CallList) -> Result<MapKeeper, OutOfMemory>
        ensures { IfOk result (λ keeper. keeper ≡ record {
          told = record { rows = put_all rows []; calls = 0; failed = [] };
          failing = failing;
          faults = 0;
        }) }
    {
        let mut places = RowMap::new(alloc);
        places.put_rows(rows.into_vec())?;
        Ok(MapKeeper {
            rows: places,
            failing,
            calls: 0,
            faults: 0,
        })
    }

    /// The rows in order of id, copied. It is no call of the keeper's, and never fails.
    pub fn rows(&self, alloc: Global) -> Result<RowList, OutOfMemory>
        ensures rows { IfOk result (λ rows. rows ≡ self.now.told.rows) }
        ensures ordered { AreOrdered self.now.told.rows }
    {
        self.rows.copied(alloc)
    }

    /// How many calls were made. Those of them that failed are exactly those whose numbers are listed.
    pub fn calls(&self) -> u64
        ensures calls { result ≡ self.now.told.calls }
        ensures failed { self.now.told.failed ≡ failed_calls self.now.failing self.now.told.calls }
    {
        self.calls
    }

    /// How often it has failed.
    pub fn faults(&self) -> u64
        ensures { result ≡ self.now.faults }
    {
        self.faults
    }

    /// Counts a call, and answers whether it fails.
    fn count_call(&mut self) -> bool
        ensures fails { result ≡ call_fails self.old }
        ensures after { self.new
            ≡ (if call_fails self.old then after_refusal KeeperFault.Failed self.old else after_load self.old) }
        ensures count { self.old.faults ≤ self.new.faults }
    {
        if self.calls == u64::MAX {
            return false;
        }
        self.calls += 1;
        let fails = is_listed(&self.failing, self.calls);
        if fails {
            self.faults = self.faults.saturating_add(1);
        }
        fails
    }
}

impl Keeper for MapKeeper {
    ghost told = { λ k. Some k.told };

    ghost faults = { λ k. k.faults };

    /// As of the trait. It visits each row and each byte once.
    fn load(&mut self, alloc: Global) -> Result<RowList, KeeperFault>
        ensures rows { IfOk result (λ rows. rows ≡ self.old.told.rows) }
        ensures ordered { IfOk result AreOrdered }
        ensures ok { OnOk result (self.new ≡ after_load self.old) }
        ensures err { IfErr result (λ fault. self.new ≡ after_refusal fault self.old) }
        ensures failed { (result ≡ Err KeeperFault.Failed) ↔ IsTrue (call_fails self.old) }
        ensures count { self.old.faults ≤ self.new.faults }
    {
        if self.count_call() {
            return Err(KeeperFault::Failed);
        }
        Ok(self.rows.copied(alloc)?)
    }

    /// As of the trait, all writes or none. With n rows it visits about log n of them for each
    /// write, and each byte of the writes once.
    fn apply(&mut self, alloc: Global, writes: &WriteList) -> Result<(), KeeperFault>
        ensures ok { OnOk result (self.new ≡ after_apply writes.now self.old) }
        ensures err { IfErr result (λ fault. self.new ≡ after_refusal fault self.old) }
        ensures failed { (result ≡ Err KeeperFault.Failed) ↔ IsTrue (call_fails self.old) }
        ensures count { self.old.faults ≤ self.new.faults }
    {
        if self.count_call() {
            return Err(KeeperFault::Failed);
        }
        Ok(self.rows.put_copies(alloc, writes.as_slice())?)
    }
}
