//! Bids, as rows.

ghost use Rattle.std.specs.Prelude.{◌≡◌, ◌++◌, true, length, OnOk};
ghost use Rattle.byte_fields.specs.Answers.{Answers};
ghost use Rattle.auction_rows.specs.Bounds.{is_bid};
ghost use Rattle.auction_rows.specs.Reading.{bid_at, bid_of};
ghost use Rattle.auction_rows.specs.Spelling.{bid_bytes};

use crate::fields::{check_end, check_few};
use crate::laws::bids_are_exact;
use crate::ranges::bid_is_in_range;
use crate::rows::BidRow;
use crate::table_row::TableRow;
use byte_fields::{ReadError, bytes_are_in_range, found, id_at, u64_at, write_id, write_u64};
use crash_base::{Moment, OutOfMemory, RowBytes};
use std::alloc::Global;

/// How many bytes a bid has.
const BID_BYTES: usize = 24;

/// Whether a bid is within its bounds, which each one is. It takes no memory.
#[tactic(auto, using(crate::proofs::Sizes::bid_few))]
pub fn is_bid(_bid: &BidRow) -> bool
    ensures { result ≡ is_bid _bid.now }
{
    true
}

#[tactic(auto, unfolding(crate::specs::Reading::bid_of, crate::specs::Reading::bid_at))]
fn read_bid(bytes: &[u8]) -> Result<BidRow, ReadError>
    ensures { Answers (λ row. row) result (bid_of bytes.now) }
{
    check_few(bytes)?;
    let (bidder, rest) = id_at(bytes)?;
    let (amount, rest) = u64_at(rest)?;
    let (moment, rest) = u64_at(rest)?;
    check_end(rest)?;
    Ok(BidRow {
        bidder,
        amount,
        moment: Moment(moment),
    })
}

#[tactic(auto, unfolding(crate::specs::Spelling::bid_bytes))]
fn write_bid(out: &mut Vec<u8>, bid: &BidRow) -> Result<(), OutOfMemory>
    ensures { OnOk result (out.new.items ≡ out.old.items ++ bid_bytes bid.now) }
{
    write_id(out, bid.bidder)?;
    write_u64(out, bid.amount)?;
    write_u64(out, bid.moment.0)?;
    Ok(())
}

impl TableRow for BidRow {
    ghost spelled = { bid_of };

    ghost spelling = { bid_bytes };

    ghost is_within = { is_bid };

    fn decode(_alloc: Global, bytes: &[u8]) -> Result<Option<BidRow>, OutOfMemory> {
        bytes_are_in_range(bytes);
        let found = found(read_bid(bytes))?;
        Ok(found)
    }

    fn encode(&self, alloc: Global) -> Result<RowBytes, OutOfMemory> {
        let mut out = Vec::with_capacity(alloc, BID_BYTES)?;
        write_bid(&mut out, self)?;
        bid_is_in_range(self);
        bids_are_exact();
        Ok(RowBytes::from_vec(out))
    }
}
