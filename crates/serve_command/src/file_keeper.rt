//! The keeper of the command.

ghost use Rattle.std.specs.Prelude.{◌≡◌, None, Option, box_value};
ghost use Rattle.keeper_sqlite.specs.declared.rows_fault.RowsFault.{RowsFault};

use crash_base::{RowList, WriteList};
use keeper_sqlite::{RowsFault, SqlKeeper};
use outside::{Keeper, KeeperFault};
use sqlite_std_file::File;
use sqlite_store::FileStore;
use std::alloc::Global;

/// A keeper that says why it refused a call last.
pub(crate) trait Explains {
    /// Why, if it did.
    ghost last: { Self → Option RowsFault };

    fn last_fault(&self) -> Option<RowsFault>
        ensures { result ≡ last self.now };
}

/// A keeper whose rows are in a database in a file. It is on the heap, so that who moves it moves one pointer: a
/// container has its keeper by value, and is moved at each hold of its lock.
#[derive(Drop)]
pub(crate) struct FileKeeper {
    pub inner: Box<SqlKeeper<FileStore<File>>>,
}

impl Keeper for FileKeeper {
    ghost told = { λ _. None };

    ghost faults = { λ keeper. (box_value keeper.inner).faults };

    fn load(&mut self, alloc: Global) -> Result<RowList, KeeperFault> {
        self.inner.load(alloc)
    }

    fn apply(&mut self, alloc: Global, writes: &WriteList) -> Result<(), KeeperFault> {
        self.inner.apply(alloc, writes)
    }
}

impl Explains for FileKeeper {
    ghost last = { λ keeper. (box_value keeper.inner).last };

    fn last_fault(&self) -> Option<RowsFault> {
        self.inner.last_fault()
    }
}
