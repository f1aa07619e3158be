//! Rows of the auction from their words, written by the encoders.

use crate::words::{cut, first_word, hex_bytes, number, small_number, table_number};
use auction_rows::{
    AuctionRow, BidRow, CategoryRow, CounterRow, EntryRow, FeedbackRow, GivenFeedback, ItemRow,
    ItemState, NameRow, OwnItemRow, UserRow, encode_row, is_row,
};
use crash_base::{FieldText, Moment, RowBytes, RowId, RowWrite};
use std::alloc::Global;
use std::process::Abort;

/// The bytes of a text.
pub fn field(rt: &impl Abort, alloc: Global, text: &str) -> FieldText {
    FieldText::copied(alloc, text.as_bytes()).expect(rt, text)
}

/// So many bytes that a word spells in hexadecimal.
fn bytes_of<const N: usize>(rt: &impl Abort, alloc: Global, word: &str) -> [u8; N] {
    let bytes = hex_bytes(rt, alloc, word);
    *bytes.as_slice().first_chunk::<N>().expect(rt, word)
}

fn user_of(rt: &impl Abort, alloc: Global, words: &str) -> UserRow {
    let (name, rest) = first_word(words);
    let (salt, rest) = first_word(rest);
    let (digest, rest) = first_word(rest);
    let (good, rest) = first_word(rest);
    let (bad, items) = first_word(rest);
    UserRow {
        name: field(rt, alloc, name),
        salt: bytes_of(rt, alloc, salt),
        digest: bytes_of(rt, alloc, digest),
        good: small_number(rt, good),
        bad: small_number(rt, bad),
        items: small_number(rt, items),
    }
}

fn state_of(rt: &impl Abort, word: &str) -> ItemState {
    match word {
        "running" => ItemState::Running,
        "closed" => ItemState::Closed,
        "sold" => ItemState::Sold,
        _ => None.expect(rt, word),
    }
}

fn given_of(word: &str) -> GivenFeedback {
    GivenFeedback {
        by_buyer: word == "buyer" || word == "both",
        by_seller: word == "seller" || word == "both",
    }
}

/// The end of an item: its end, its buyer, whose feedback is given, and its title.
fn item_end(rt: &impl Abort, alloc: Global, item: &mut ItemRow, words: &str) {
    let (ends, rest) = first_word(words);
    let (buyer, rest) = first_word(rest);
    let (given, title) = first_word(rest);
    item.ends = Moment(number(rt, ends));
    item.buyer = small_number(rt, buyer);
    item.given = given_of(given);
    item.title = field(rt, alloc, title);
}

/// What was bid on an item, and its end.
fn item_bids(rt: &impl Abort, alloc: Global, item: &mut ItemRow, words: &str) {
    let (best, rest) = first_word(words);
    let (bidder, rest) = first_word(rest);
    let (bids, rest) = first_word(rest);
    item.best = number(rt, best);
    item.best_bidder = small_number(rt, bidder);
    item.bids = small_number(rt, bids);
    item_end(rt, alloc, item, rest);
}

fn new_item(alloc: Global) -> ItemRow {
    ItemRow {
        state: ItemState::Running,
        seller: 0,
        category: 0,
        start: 0,
        buy_now: 0,
        best: 0,
        best_bidder: 0,
        bids: 0,
        ends: Moment(0),
        buyer: 0,
        given: given_of("none"),
        title: FieldText::new(alloc),
    }
}

fn item_of(rt: &impl Abort, alloc: Global, words: &str) -> ItemRow {
    let (state, rest) = first_word(words);
    let (seller, rest) = first_word(rest);
    let (category, rest) = first_word(rest);
    let (start, rest) = first_word(rest);
    let (buy_now, rest) = first_word(rest);
    let mut item = new_item(alloc);
    item.state = state_of(rt, state);
    item.seller = small_number(rt, seller);
    item.category = small_number(rt, category);
    item.start = number(rt, start);
    item.buy_now = number(rt, buy_now);
    item_bids(rt, alloc, &mut item, rest);
    item
}

fn bid_of(rt: &impl Abort, words: &str) -> BidRow {
    let (bidder, rest) = first_word(words);
    let (amount, moment) = first_word(rest);
    BidRow {
        bidder: small_number(rt, bidder),
        amount: number(rt, amount),
        moment: Moment(number(rt, moment)),
    }
}

fn feedback_of(rt: &impl Abort, alloc: Global, words: &str) -> FeedbackRow {
    let (from, rest) = first_word(words);
    let (item, rest) = first_word(rest);
    let (good, text) = first_word(rest);
    FeedbackRow {
        from: small_number(rt, from),
        item: small_number(rt, item),
        good: good == "good",
        text: field(rt, alloc, text),
    }
}

fn name_of(rt: &impl Abort, alloc: Global, words: &str) -> NameRow {
    let (name, user) = first_word(words);
    NameRow {
        name: field(rt, alloc, name),
        user: small_number(rt, user),
    }
}

/// The row that words spell.
fn row_of(rt: &impl Abort, alloc: Global, words: &str) -> AuctionRow {
    let (kind, rest) = first_word(words);
    match kind {
        "user" => AuctionRow::User(user_of(rt, alloc, rest)),
        "name" => AuctionRow::Name(name_of(rt, alloc, rest)),
        "counter" => AuctionRow::Counter(CounterRow {
            count: number(rt, rest),
        }),
        "item" => AuctionRow::Item(item_of(rt, alloc, rest)),
        "category" => AuctionRow::Category(CategoryRow {
            name: field(rt, alloc, rest),
        }),
        "bid" => AuctionRow::Bid(bid_of(rt, rest)),
        "entry" => AuctionRow::Entry(EntryRow {
            item: small_number(rt, rest),
        }),
        "feedback" => AuctionRow::Feedback(feedback_of(rt, alloc, rest)),
        "own" => AuctionRow::OwnItem(OwnItemRow {
            item: small_number(rt, rest),
        }),
        _ => None.expect(rt, words),
    }
}

/// The bytes of the row that words spell, or those after the word `bytes` in hexadecimal.
fn row_bytes(rt: &impl Abort, alloc: Global, words: &str) -> RowBytes {
    if let Some(hex) = words.strip_prefix("bytes ") {
        return RowBytes::from_vec(hex_bytes(rt, alloc, hex));
    }
    let row = row_of(rt, alloc, words);
    assert!(rt; is_row(&row), "{words}");
    encode_row(alloc, &row).expect(rt, words)
}

/// The id that a word spells: a table, a point and a key.
pub fn id_of(rt: &impl Abort, word: &str) -> RowId {
    let (table, key) = cut(rt, word, '.');
    RowId {
        table: table_number(rt, table),
        key: number(rt, key),
    }
}

/// The row of a line: its id, and its words.
pub fn read_row(rt: &impl Abort, alloc: Global, line: &str) -> RowWrite {
    let (id, words) = first_word(line);
    RowWrite {
        id: id_of(rt, id),
        bytes: row_bytes(rt, alloc, words),
    }
}
