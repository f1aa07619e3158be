//! Items, as rows.

ghost use Rattle.std.specs.Prelude.{◌≡◌, ◌++◌, true, length, OnOk};
ghost use Rattle.byte_fields.specs.Answers.{Answers};
ghost use Rattle.auction_rows.specs.Bounds.{is_item};
ghost use Rattle.auction_rows.specs.Reading.{item_at, item_of};
ghost use Rattle.auction_rows.specs.Spelling.{item_bytes, item_numbers, item_to_bids, item_to_category};

use crate::fields::{check_end, check_few, given_number, state_number};
use crate::item_parts::{item_amounts_at, item_end_at, item_head_at};
use crate::laws::items_are_exact;
use crate::ranges::item_is_in_range;
use crate::rows::ItemRow;
use crate::table_row::TableRow;
use byte_fields::{
    ReadError, bytes_are_in_range, found, is_utf8, text_at, write_id, write_text, write_u8,
    write_u32, write_u64,
};
use crash_base::{FieldText, MAX_ROW_BYTES, OutOfMemory, RowBytes};
use std::alloc::Global;

/// How many bytes an item has besides those of its title.
const ITEM_BYTES: usize = 72;

/// Whether an item is within its bounds: its title is UTF-8, and its bytes are at most 4,096. It takes
/// no memory, and visits each byte of its title once.
#[tactic(auto, using(crate::proofs::Sizes::item_size))]
pub fn is_item(item: &ItemRow) -> bool
    ensures { result ≡ is_item item.now }
{
    is_utf8(item.title.as_slice()) && item.title.len() <= MAX_ROW_BYTES - ITEM_BYTES
}

#[tactic(auto, unfolding(crate::specs::Reading::item_of, crate::specs::Reading::item_at))]
fn read_item(alloc: Global, bytes: &[u8]) -> Result<ItemRow, ReadError>
    ensures { Answers (λ row. row) result (item_of bytes.now) }
{
    check_few(bytes)?;
    let (head, rest) = item_head_at(bytes)?;
    let (amounts, rest) = item_amounts_at(rest)?;
    let (end, rest) = item_end_at(rest)?;
    let (title, rest) = text_at(rest)?;
    check_end(rest)?;
    Ok(ItemRow {
        state: head.state,
        seller: head.seller,
        category: head.category,
        start: amounts.start,
        buy_now: amounts.buy_now,
        best: amounts.best,
        best_bidder: amounts.best_bidder,
        bids: amounts.bids,
        ends: end.ends,
        buyer: end.buyer,
        given: end.given,
        title: FieldText::copied(alloc, title)?,
    })
}

#[tactic(auto, unfolding(crate::specs::Spelling::item_to_category))]
fn write_to_category(out: &mut Vec<u8>, item: &ItemRow) -> Result<(), OutOfMemory>
    ensures { OnOk result (out.new.items ≡ out.old.items ++ item_to_category item.now) }
{
    write_u8(out, state_number(item.state))?;
    write_id(out, item.seller)?;
    write_id(out, item.category)?;
    Ok(())
}

#[tactic(auto, unfolding(crate::specs::Spelling::item_to_bids))]
fn write_to_bids(out: &mut Vec<u8>, item: &ItemRow) -> Result<(), OutOfMemory>
    ensures { OnOk result (out.new.items ≡ out.old.items ++ item_to_bids item.now) }
{
    write_to_category(out, item)?;
    write_u64(out, item.start)?;
    write_u64(out, item.buy_now)?;
    write_u64(out, item.best)?;
    write_id(out, item.best_bidder)?;
    write_u32(out, item.bids)?;
    Ok(())
}

#[tactic(auto, unfolding(crate::specs::Spelling::item_numbers))]
fn write_numbers(out: &mut Vec<u8>, item: &ItemRow) -> Result<(), OutOfMemory>
    ensures { OnOk result (out.new.items ≡ out.old.items ++ item_numbers item.now) }
{
    write_to_bids(out, item)?;
    write_u64(out, item.ends.0)?;
    write_id(out, item.buyer)?;
    write_u8(out, given_number(item.given))?;
    Ok(())
}

#[tactic(auto, using(crate::proofs::Sizes::item_short), unfolding(crate::specs::Spelling::item_bytes))]
fn write_item(out: &mut Vec<u8>, item: &ItemRow) -> Result<(), OutOfMemory>
    requires { is_item item.now ≡ true }
    ensures { OnOk result (out.new.items ≡ out.old.items ++ item_bytes item.now) }
{
    write_numbers(out, item)?;
    write_text(out, item.title.as_slice())?;
    Ok(())
}

impl TableRow for ItemRow {
    ghost spelled = { item_of };

    ghost spelling = { item_bytes };

    ghost is_within = { is_item };

    fn decode(alloc: Global, bytes: &[u8]) -> Result<Option<ItemRow>, OutOfMemory> {
        bytes_are_in_range(bytes);
        let found = found(read_item(alloc, bytes))?;
        Ok(found)
    }

    #[tactic(auto, using(crate::proofs::Sizes::item_short))]
    fn encode(&self, alloc: Global) -> Result<RowBytes, OutOfMemory> {
        let mut out = Vec::with_capacity(alloc, ITEM_BYTES + self.title.len())?;
        write_item(&mut out, self)?;
        item_is_in_range(self);
        items_are_exact();
        Ok(RowBytes::from_vec(out))
    }
}
