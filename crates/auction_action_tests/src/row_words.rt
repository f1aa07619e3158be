//! Rows of the auction in words.
//!
//! `user NAME SALT DIGEST GOOD BAD ITEMS`, `name NAME USER`, `counter COUNT`, `item STATE SELLER CATEGORY START BUY_NOW
//! BEST BEST_BIDDER BIDS ENDS BUYER GIVEN TITLE`, `category NAME`, `bid BIDDER AMOUNT MOMENT`, `entry ITEM`, `feedback
//! FROM ITEM good TEXT`, and `own ITEM`.

use crate::words::{add_hex, add_number, add_word, text_of};
use auction_rows::{
    AuctionRow, BidRow, FeedbackRow, GivenFeedback, ItemRow, ItemState, UserRow, decode_row,
};
use crash_base::RowWrite;
use std::alloc::Global;
use std::process::Abort;

/// Adds a text, or `-` for an empty one.
fn add_text(rt: &impl Abort, words: &mut String, bytes: &[u8]) {
    let text = if bytes.is_empty() {
        "-"
    } else {
        text_of(rt, bytes)
    };
    add_word(rt, words, text);
}

fn add_small(rt: &impl Abort, words: &mut String, number: u32) {
    add_number(rt, words, u64::from(number));
}

fn add_user(rt: &impl Abort, words: &mut String, user: &UserRow) {
    add_word(rt, words, "user");
    add_text(rt, words, user.name.as_slice());
    add_hex(rt, words, &user.salt);
    add_hex(rt, words, &user.digest);
    add_small(rt, words, user.good);
    add_small(rt, words, user.bad);
    add_small(rt, words, user.items);
}

fn state_word(state: ItemState) -> &'static str {
    match state {
        ItemState::Running => "running",
        ItemState::Closed => "closed",
        ItemState::Sold => "sold",
    }
}

fn given_word(given: GivenFeedback) -> &'static str {
    if given.by_buyer && given.by_seller {
        "both"
    } else if given.by_buyer {
        "buyer"
    } else if given.by_seller {
        "seller"
    } else {
        "none"
    }
}

fn add_item(rt: &impl Abort, words: &mut String, item: &ItemRow) {
    add_word(rt, words, "item");
    add_word(rt, words, state_word(item.state));
    add_small(rt, words, item.seller);
    add_small(rt, words, item.category);
    add_number(rt, words, item.start);
    add_number(rt, words, item.buy_now);
    add_number(rt, words, item.best);
    add_small(rt, words, item.best_bidder);
    add_small(rt, words, item.bids);
    add_number(rt, words, item.ends.0);
    add_small(rt, words, item.buyer);
    add_word(rt, words, given_word(item.given));
    add_text(rt, words, item.title.as_slice());
}

fn add_bid(rt: &impl Abort, words: &mut String, bid: &BidRow) {
    add_word(rt, words, "bid");
    add_small(rt, words, bid.bidder);
    add_number(rt, words, bid.amount);
    add_number(rt, words, bid.moment.0);
}

fn add_feedback(rt: &impl Abort, words: &mut String, feedback: &FeedbackRow) {
    add_word(rt, words, "feedback");
    add_small(rt, words, feedback.from);
    add_small(rt, words, feedback.item);
    add_word(rt, words, if feedback.good { "good" } else { "bad" });
    add_text(rt, words, feedback.text.as_slice());
}

/// Adds a word and a number.
fn add_one(rt: &impl Abort, words: &mut String, word: &str, number: u64) {
    add_word(rt, words, word);
    add_number(rt, words, number);
}

/// Adds a word and a text.
fn add_named(rt: &impl Abort, words: &mut String, word: &str, text: &[u8]) {
    add_word(rt, words, word);
    add_text(rt, words, text);
}

fn add_row(rt: &impl Abort, words: &mut String, row: &AuctionRow) {
    match row {
        AuctionRow::User(user) => add_user(rt, words, user),
        AuctionRow::Name(name) => {
            add_named(rt, words, "name", name.name.as_slice());
            add_small(rt, words, name.user);
        }
        AuctionRow::Counter(counter) => add_one(rt, words, "counter", counter.count),
        AuctionRow::Item(item) => add_item(rt, words, item),
        AuctionRow::Category(category) => {
            add_named(rt, words, "category", category.name.as_slice())
        }
        AuctionRow::Bid(bid) => add_bid(rt, words, bid),
        AuctionRow::Entry(entry) => add_one(rt, words, "entry", u64::from(entry.item)),
        AuctionRow::Feedback(feedback) => add_feedback(rt, words, feedback),
        AuctionRow::OwnItem(own) => add_one(rt, words, "own", u64::from(own.item)),
    }
}

/// Adds the row that bytes spell, or `none` where they spell none.
pub fn add_row_words(rt: &impl Abort, alloc: Global, words: &mut String, row: &RowWrite) {
    match decode_row(alloc, row.id.table, row.bytes.as_slice()).expect(rt, "a row") {
        Some(row) => add_row(rt, words, &row),
        None => add_word(rt, words, "none"),
    }
}
