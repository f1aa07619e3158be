//! That the numbers of a row are in their ranges, since the types of its fields keep them. The laws of
//! rows have this as their premise. Each function does nothing: a caller that needs the fact calls it.

ghost use Rattle.std.specs.Prelude.{◌≡◌, ◌^◌, ◌<◌, true, length};
ghost use Rattle.auction_rows.specs.Bounds.{is_user, is_name, is_item, is_category, is_feedback, IsUser, IsName, IsCounter, IsItem, IsCategory, IsBid, IsEntry, IsFeedback, IsOwnItem};

use crate::rows::{
    BidRow, CategoryRow, CounterRow, EntryRow, FeedbackRow, ItemRow, NameRow, OwnItemRow, UserRow,
};
use crash_base::Moment;

fn fits_four_bytes(number: u32)
    ensures { number < 2 ^ 32 }
{}

fn fits_eight_bytes(number: u64)
    ensures { number < 2 ^ 64 }
{}

fn moment_fits(moment: Moment)
    ensures { moment.0 < 2 ^ 64 }
{}

fn has_size<const N: usize>(bytes: &[u8; N])
    ensures { length bytes.now ≡ N }
{}

/// A user within its bounds has its numbers in their ranges. It does nothing.
pub fn user_is_in_range(user: &UserRow)
    requires { is_user user.now ≡ true }
    ensures { IsUser user.now }
{
    has_size(&user.salt);
    has_size(&user.digest);
    fits_four_bytes(user.good);
    fits_four_bytes(user.bad);
    fits_four_bytes(user.items)
}

/// A name within its bounds has its number in its range. It does nothing.
pub fn name_is_in_range(name: &NameRow)
    requires { is_name name.now ≡ true }
    ensures { IsName name.now }
{
    fits_four_bytes(name.user)
}

/// A counter has its number in its range. It does nothing.
pub fn counter_is_in_range(counter: &CounterRow)
    ensures { IsCounter counter.now }
{
    fits_eight_bytes(counter.count)
}

/// An item within its bounds has its numbers in their ranges. It does nothing.
pub fn item_is_in_range(item: &ItemRow)
    requires { is_item item.now ≡ true }
    ensures { IsItem item.now }
{
    fits_four_bytes(item.seller);
    fits_four_bytes(item.category);
    fits_eight_bytes(item.start);
    fits_eight_bytes(item.buy_now);
    fits_eight_bytes(item.best);
    fits_four_bytes(item.best_bidder);
    fits_four_bytes(item.bids);
    moment_fits(item.ends);
    fits_four_bytes(item.buyer)
}

/// A category has no numbers, so its bounds are all. It does nothing.
pub fn category_is_in_range(category: &CategoryRow)
    requires { is_category category.now ≡ true }
    ensures { IsCategory category.now }
{}

/// A bid has its numbers in their ranges. It does nothing.
pub fn bid_is_in_range(bid: &BidRow)
    ensures { IsBid bid.now }
{
    fits_four_bytes(bid.bidder);
    fits_eight_bytes(bid.amount);
    moment_fits(bid.moment)
}

/// An entry has its number in its range. It does nothing.
pub fn entry_is_in_range(entry: &EntryRow)
    ensures { IsEntry entry.now }
{
    fits_four_bytes(entry.item)
}

/// Feedback within its bounds has its numbers in their ranges. It does nothing.
pub fn feedback_is_in_range(feedback: &FeedbackRow)
    requires { is_feedback feedback.now ≡ true }
    ensures { IsFeedback feedback.now }
{
    fits_four_bytes(feedback.from);
    fits_four_bytes(feedback.item)
}

/// An own item has its number in its range. It does nothing.
pub fn own_item_is_in_range(own: &OwnItemRow)
    ensures { IsOwnItem own.now }
{
    fits_four_bytes(own.item)
}
