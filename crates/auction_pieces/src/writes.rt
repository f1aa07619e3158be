//! The rows that an action writes.

ghost use Rattle.std.specs.Prelude.{◌≡◌, [], ◌∷◌, ◌++◌, true, OnOk};
ghost use Rattle.auction_site.specs.Outcomes.{row, counter_row};

use auction_rows::{CounterRow, TableRow};
use crash_base::{OutOfMemory, RowId, RowWrite, WriteList};
use std::alloc::Global;

/// Adds a row to those that are written. It encodes the row once.
pub fn write_row<T: TableRow>(
    alloc: Global,
    writes: &mut WriteList,
    id: RowId,
    value: &T,
) -> Result<(), OutOfMemory>
    requires { T.is_within value.now ≡ true }
    ensures { OnOk result (writes.new ≡ writes.old ++ row id (T.spelling value.now) ∷ []) }
{
    writes.push(RowWrite {
        id,
        bytes: value.encode(alloc)?,
    })
}

/// Adds a counter's row to those that are written.
#[tactic(auto, using(auction_rows::proofs::Sizes::counter_few))]
pub fn write_counter(
    alloc: Global,
    writes: &mut WriteList,
    id: RowId,
    count: u32,
) -> Result<(), OutOfMemory>
    ensures { OnOk result (writes.new ≡ writes.old ++ counter_row id count ∷ []) }
{
    let counter = CounterRow {
        count: u64::from(count),
    };
    write_row(alloc, writes, id, &counter)
}
