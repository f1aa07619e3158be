//! A keeper that keeps nothing.

ghost use Rattle.std.specs.Prelude.{None};

use crash_base::{RowList, WriteList};
use outside::{Keeper, KeeperFault};
use std::alloc::Global;

/// A keeper that drops what it is given and tells nothing, so that the memory of a run is that of the boot alone.
#[derive(Drop)]
pub(crate) struct NullKeeper {}

impl Keeper for NullKeeper {
    ghost told = { λ _. None };

    ghost faults = { λ _. 0 };

    fn load(&mut self, alloc: Global) -> Result<RowList, KeeperFault> {
        Ok(RowList::new(alloc))
    }

    fn apply(&mut self, _alloc: Global, _writes: &WriteList) -> Result<(), KeeperFault> {
        Ok(())
    }
}
