//! Own items, as rows.

ghost use Rattle.std.specs.Prelude.{◌≡◌, ◌++◌, true, length, OnOk};
ghost use Rattle.byte_fields.specs.Answers.{Answers};
ghost use Rattle.auction_rows.specs.Bounds.{is_own_item};
ghost use Rattle.auction_rows.specs.Reading.{own_item_at, own_item_of};
ghost use Rattle.auction_rows.specs.Spelling.{own_item_bytes};

use crate::fields::{check_end, check_few};
use crate::laws::own_items_are_exact;
use crate::ranges::own_item_is_in_range;
use crate::rows::OwnItemRow;
use crate::table_row::TableRow;
use byte_fields::{ReadError, bytes_are_in_range, found, id_at, write_id};
use crash_base::{OutOfMemory, RowBytes};
use std::alloc::Global;

/// How many bytes an own item has.
const OWN_ITEM_BYTES: usize = 8;

/// Whether an own item is within its bounds, which each one is. It takes no memory.
#[tactic(auto, using(crate::proofs::Sizes::own_item_few))]
pub fn is_own_item(_own: &OwnItemRow) -> bool
    ensures { result ≡ is_own_item _own.now }
{
    true
}

#[tactic(auto, unfolding(crate::specs::Reading::own_item_of, crate::specs::Reading::own_item_at))]
fn read_own_item(bytes: &[u8]) -> Result<OwnItemRow, ReadError>
    ensures { Answers (λ row. row) result (own_item_of bytes.now) }
{
    check_few(bytes)?;
    let (item, rest) = id_at(bytes)?;
    check_end(rest)?;
    Ok(OwnItemRow { item })
}

#[tactic(auto, unfolding(crate::specs::Spelling::own_item_bytes))]
fn write_own_item(out: &mut Vec<u8>, own: &OwnItemRow) -> Result<(), OutOfMemory>
    ensures { OnOk result (out.new.items ≡ out.old.items ++ own_item_bytes own.now) }
{
    write_id(out, own.item)?;
    Ok(())
}

impl TableRow for OwnItemRow {
    ghost spelled = { own_item_of };

    ghost spelling = { own_item_bytes };

    ghost is_within = { is_own_item };

    fn decode(_alloc: Global, bytes: &[u8]) -> Result<Option<OwnItemRow>, OutOfMemory> {
        bytes_are_in_range(bytes);
        let found = found(read_own_item(bytes))?;
        Ok(found)
    }

    fn encode(&self, alloc: Global) -> Result<RowBytes, OutOfMemory> {
        let mut out = Vec::with_capacity(alloc, OWN_ITEM_BYTES)?;
        write_own_item(&mut out, self)?;
        own_item_is_in_range(self);
        own_items_are_exact();
        Ok(RowBytes::from_vec(out))
    }
}
