//! Rules at the bounds of amounts, moments and states.

use crate::words::{add_number, add_word, cut, expect_words, first_word, number, small_number};
use auction_rows::{GivenFeedback, ItemRow, ItemState};
use auction_rules::{
    RuleRefusal, bid_refusal, buy_refusal, close_refusal, feedback_refusal, is_running, other_side,
};
use crash_base::{FieldText, Moment};
use std::alloc::Global;
use std::process::Abort;

/// An item of user 7: its state, start, price of a sale at once, best bid, end, buyer, and whose
/// feedback is given. Then what is asked of it, and what is answered.
///
/// `bid USER AMOUNT NOW`, `buy USER NOW`, `close USER`, `feedback USER`, `running NOW`, `other USER`.
const RULES: &str = "running 100 500 200 1000 0 none|bid 8 201 999|ok
running 100 500 200 1000 0 none|bid 8 200 999|BidTooLow
running 100 500 200 1000 0 none|bid 8 199 999|BidTooLow
running 100 500 0 1000 0 none|bid 8 100 999|ok
running 100 500 0 1000 0 none|bid 8 99 999|BidTooLow
running 100 500 0 1000 0 none|bid 8 0 999|BidTooLow
running 0 500 0 1000 0 none|bid 8 0 999|BidTooLow
running 100 0 18446744073709551614 1000 0 none|bid 8 18446744073709551615 0|ok
running 100 0 18446744073709551615 1000 0 none|bid 8 18446744073709551615 0|BidTooLow
running 100 500 200 1000 0 none|bid 8 201 1000|AuctionOver
running 100 500 200 1000 0 none|bid 8 201 1001|AuctionOver
running 100 500 200 0 0 none|bid 8 201 0|AuctionOver
closed 100 500 0 1000 0 none|bid 8 201 999|AuctionOver
sold 100 500 200 1000 8 none|bid 9 201 999|AuctionOver
running 100 500 200 1000 0 none|bid 7 201 999|OwnItem
running 100 500 200 1000 0 none|bid 7 200 999|OwnItem
running 100 500 200 1000 0 none|bid 7 200 1000|AuctionOver
running 100 500 200 1000 0 none|buy 8 999|ok
running 100 500 0 1000 0 none|buy 8 999|ok
running 100 500 499 1000 0 none|buy 8 999|ok
running 100 500 500 1000 0 none|buy 8 999|NotForSale
running 100 500 501 1000 0 none|buy 8 999|NotForSale
running 100 0 0 1000 0 none|buy 8 999|NotForSale
running 100 500 200 1000 0 none|buy 8 1000|AuctionOver
running 100 0 200 1000 0 none|buy 7 1000|AuctionOver
closed 100 500 200 1000 0 none|buy 8 999|AuctionOver
sold 100 500 200 1000 8 none|buy 8 999|AuctionOver
running 100 500 200 1000 0 none|buy 7 999|OwnItem
running 100 0 200 1000 0 none|buy 7 999|OwnItem
running 100 500 200 1000 0 none|close 7|ok
running 100 500 200 0 0 none|close 7|ok
running 100 500 200 1000 0 none|close 8|NotAllowed
closed 100 500 0 1000 0 none|close 8|NotAllowed
closed 100 500 0 1000 0 none|close 7|AuctionOver
sold 100 500 200 1000 8 none|close 7|AuctionOver
sold 100 500 200 1000 8 none|close 8|NotAllowed
sold 100 500 200 1000 8 none|feedback 7|ok
sold 100 500 200 1000 8 none|feedback 8|ok
sold 100 500 200 1000 8 none|feedback 9|NotAllowed
sold 100 500 200 1000 8 none|feedback 0|NotAllowed
running 100 500 200 1000 0 none|feedback 7|NotSold
running 100 500 200 1000 0 none|feedback 9|NotSold
closed 100 500 0 1000 0 both|feedback 7|NotSold
sold 100 500 200 1000 8 buyer|feedback 8|AlreadyGiven
sold 100 500 200 1000 8 buyer|feedback 7|ok
sold 100 500 200 1000 8 seller|feedback 7|AlreadyGiven
sold 100 500 200 1000 8 seller|feedback 8|ok
sold 100 500 200 1000 8 both|feedback 7|AlreadyGiven
sold 100 500 200 1000 8 both|feedback 8|AlreadyGiven
sold 100 500 200 1000 8 both|feedback 9|NotAllowed
sold 100 500 200 1000 7 buyer|feedback 7|AlreadyGiven
sold 100 500 200 1000 7 seller|feedback 7|ok
running 100 500 200 1000 0 none|running 0|yes
running 100 500 200 1000 0 none|running 999|yes
running 100 500 200 1000 0 none|running 1000|no
running 100 500 200 0 0 none|running 0|no
closed 100 500 200 1000 0 none|running 999|no
sold 100 500 200 1000 8 none|running 999|no
sold 100 500 200 1000 8 none|other 8|7
sold 100 500 200 1000 8 none|other 7|8
sold 100 500 200 1000 7 none|other 7|7";

fn state_of(rt: &impl Abort, word: &str) -> ItemState {
    match word {
        "running" => ItemState::Running,
        "closed" => ItemState::Closed,
        "sold" => ItemState::Sold,
        _ => None.expect(rt, word),
    }
}

fn given_of(word: &str) -> GivenFeedback {
    GivenFeedback {
        by_buyer: word == "buyer" || word == "both",
        by_seller: word == "seller" || word == "both",
    }
}

/// The item of a row, without its state and whose feedback is given.
fn amounts_of(rt: &impl Abort, alloc: Global, text: &str) -> ItemRow {
    let (start, rest) = first_word(text);
    let (buy_now, rest) = first_word(rest);
    let (best, rest) = first_word(rest);
    let (ends, buyer) = first_word(rest);
    ItemRow {
        state: ItemState::Running,
        seller: 7,
        category: 1,
        start: number(rt, start),
        buy_now: number(rt, buy_now),
        best: number(rt, best),
        best_bidder: 0,
        bids: 0,
        ends: Moment(number(rt, ends)),
        buyer: small_number(rt, buyer),
        given: given_of(""),
        title: FieldText::new(alloc),
    }
}

fn item_of(rt: &impl Abort, alloc: Global, text: &str) -> ItemRow {
    let (state, rest) = first_word(text);
    let (amounts, given) = rest.rsplit_once(' ').expect(rt, text);
    let mut item = amounts_of(rt, alloc, amounts);
    item.state = state_of(rt, state);
    item.given = given_of(given);
    item
}

fn add_refusal(rt: &impl Abort, words: &mut String, refusal: Option<RuleRefusal>) {
    let word = match refusal {
        None => "ok",
        Some(RuleRefusal::AuctionOver) => "AuctionOver",
        Some(RuleRefusal::OwnItem) => "OwnItem",
        Some(RuleRefusal::BidTooLow) => "BidTooLow",
        Some(RuleRefusal::NotForSale) => "NotForSale",
        Some(RuleRefusal::NotSold) => "NotSold",
        Some(RuleRefusal::NotAllowed) => "NotAllowed",
        Some(RuleRefusal::AlreadyGiven) => "AlreadyGiven",
    };
    add_word(rt, words, word);
}

fn add_bid(rt: &impl Abort, words: &mut String, item: &ItemRow, user: u32, rest: &str) {
    let (amount, now) = first_word(rest);
    let now = Moment(number(rt, now));
    add_refusal(rt, words, bid_refusal(item, user, number(rt, amount), now));
}

fn add_buy(rt: &impl Abort, words: &mut String, item: &ItemRow, user: u32, rest: &str) {
    let now = Moment(number(rt, rest));
    add_refusal(rt, words, buy_refusal(item, user, now));
}

fn add_running(rt: &impl Abort, words: &mut String, item: &ItemRow, rest: &str) {
    let now = Moment(number(rt, rest));
    add_word(rt, words, if is_running(item, now) { "yes" } else { "no" });
}

/// Adds what is answered to a user.
fn add_user_answer(rt: &impl Abort, words: &mut String, item: &ItemRow, rule: &str, rest: &str) {
    let (user, rest) = first_word(rest);
    let user = small_number(rt, user);
    match rule {
        "bid" => add_bid(rt, words, item, user, rest),
        "buy" => add_buy(rt, words, item, user, rest),
        "close" => add_refusal(rt, words, close_refusal(item, user)),
        "feedback" => add_refusal(rt, words, feedback_refusal(item, user)),
        _ => add_number(rt, words, u64::from(other_side(item, user))),
    }
}

/// Adds what is answered to what is asked of an item.
fn add_answer(rt: &impl Abort, words: &mut String, item: &ItemRow, asked: &str) {
    let (rule, rest) = first_word(asked);
    if rule == "running" {
        add_running(rt, words, item, rest);
    } else {
        add_user_answer(rt, words, item, rule, rest);
    }
}

fn expect_answer(rt: &impl Abort, alloc: Global, row: &str) {
    let (item, rest) = cut(rt, row, '|');
    let (asked, want) = cut(rt, rest, '|');
    let item = item_of(rt, alloc, item);
    let mut words = String::new(alloc);
    add_answer(rt, &mut words, &item, asked);
    expect_words(rt, &words, want, row);
}

#[test]
fn rules_answer_at_their_bounds(rt: HostRuntime) {
    for row in RULES.split('\n') {
        expect_answer(&rt, rt.alloc(), row);
    }
}
