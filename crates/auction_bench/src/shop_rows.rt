//! Rows in memory.

use crash_base::{OutOfMemory, RowBytes, RowId, RowWrite};
use std::alloc::Global;
use std::collections::BTreeMap;

/// Where a row is kept: by table, and within one table by key.
#[derive(Clone, Copy, PartialEq, Eq, PartialOrd, Ord)]
struct Place {
    table: u8,
    key: u64,
}

/// The current rows of the shop.
#[derive(Drop)]
pub(crate) struct ShopRows {
    places: BTreeMap<Place, RowBytes>,
}

/// The place of this id.
fn place_of(id: RowId) -> Place {
    Place {
        table: id.table,
        key: id.key,
    }
}

impl ShopRows {
    /// No rows. It takes no memory.
    pub(crate) fn new(alloc: Global) -> ShopRows {
        ShopRows {
            places: BTreeMap::new(alloc),
        }
    }

    /// A copy of a row's bytes; None where the row is not there. With n rows it visits about log n of them.
    pub(crate) fn copied(&self, alloc: Global, id: RowId) -> Result<Option<RowBytes>, OutOfMemory> {
        match self.places.get(&place_of(id)) {
            None => Ok(None),
            Some(bytes) => Ok(Some(RowBytes::copied(alloc, bytes.as_slice())?)),
        }
    }

    /// Puts a row, in place of the one of its id. With n rows it visits about log n of them.
    pub(crate) fn put(&mut self, row: RowWrite) -> Result<(), OutOfMemory> {
        self.places.insert(place_of(row.id), row.bytes)?;
        Ok(())
    }
}
