//! Entries, as rows.

ghost use Rattle.std.specs.Prelude.{◌≡◌, ◌++◌, true, length, OnOk};
ghost use Rattle.byte_fields.specs.Answers.{Answers};
ghost use Rattle.auction_rows.specs.Bounds.{is_entry};
ghost use Rattle.auction_rows.specs.Reading.{entry_at, entry_of};
ghost use Rattle.auction_rows.specs.Spelling.{entry_bytes};

use crate::fields::{check_end, check_few};
use crate::laws::entries_are_exact;
use crate::ranges::entry_is_in_range;
use crate::rows::EntryRow;
use crate::table_row::TableRow;
use byte_fields::{ReadError, bytes_are_in_range, found, id_at, write_id};
use crash_base::{OutOfMemory, RowBytes};
use std::alloc::Global;

/// How many bytes an entry has.
const ENTRY_BYTES: usize = 8;

/// Whether an entry is within its bounds, which each one is. It takes no memory.
#[tactic(auto, using(crate::proofs::Sizes::entry_few))]
pub fn is_entry(_entry: &EntryRow) -> bool
    ensures { result ≡ is_entry _entry.now }
{
    true
}

#[tactic(auto, unfolding(crate::specs::Reading::entry_of, crate::specs::Reading::entry_at))]
fn read_entry(bytes: &[u8]) -> Result<EntryRow, ReadError>
    ensures { Answers (λ row. row) result (entry_of bytes.now) }
{
    check_few(bytes)?;
    let (item, rest) = id_at(bytes)?;
    check_end(rest)?;
    Ok(EntryRow { item })
}

#[tactic(auto, unfolding(crate::specs::Spelling::entry_bytes))]
fn write_entry(out: &mut Vec<u8>, entry: &EntryRow) -> Result<(), OutOfMemory>
    ensures { OnOk result (out.new.items ≡ out.old.items ++ entry_bytes entry.now) }
{
    write_id(out, entry.item)?;
    Ok(())
}

impl TableRow for EntryRow {
    ghost spelled = { entry_of };

    ghost spelling = { entry_bytes };

    ghost is_within = { is_entry };

    fn decode(_alloc: Global, bytes: &[u8]) -> Result<Option<EntryRow>, OutOfMemory> {
        bytes_are_in_range(bytes);
        let found = found(read_entry(bytes))?;
        Ok(found)
    }

    fn encode(&self, alloc: Global) -> Result<RowBytes, OutOfMemory> {
        let mut out = Vec::with_capacity(alloc, ENTRY_BYTES)?;
        write_entry(&mut out, self)?;
        entry_is_in_range(self);
        entries_are_exact();
        Ok(RowBytes::from_vec(out))
    }
}
