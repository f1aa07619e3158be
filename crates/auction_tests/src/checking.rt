//! Calls that a program makes, and their check.

use crate::shown::add_call;
use crate::words::{
    add_byte, add_word, cut, expect_so, expect_words, first_word, hex_bytes, number, small_number,
};
use auction_calls::{
    Action, ActionCall, CheckedCall, FormKind, MAX_AMOUNT, MAX_CATEGORY_NAME_BYTES,
    MAX_FEEDBACK_BYTES, MAX_HOURS, MAX_PAGE, MAX_PASSWORD_BYTES, MAX_TITLE_BYTES,
    MAX_USER_NAME_BYTES, MOMENT_LIMIT, action_text, bad_field, bad_fields_are_first, ranges_are,
    texts_are_exact, texts_read_back, texts_spell_one_call, user_names_are_utf8,
    words_are_of_one_form,
};
use auction_rules::{
    bid_refusals_are_exact, buy_refusals_are_exact, close_refusals_are_exact,
    feedback_refusals_are_exact, other_sides_are_exact, running_is_exact,
};
use crash_base::{FieldText, Moment, SessionKey};
use std::alloc::Global;
use std::process::Abort;

/// A call by user 258 at a moment, whose key has bytes 1 and whose token has bytes 2.
fn a_call(action: Action, now: u64) -> ActionCall {
    ActionCall {
        action,
        user: 258,
        key: SessionKey([1; 16]),
        now: Moment(now),
        fresh: 255,
        form: [2; 56],
    }
}

fn a_bid(item: u32, amount: u64, now: u64) -> ActionCall {
    a_call(Action::Bid { item, amount }, now)
}

/// A bid in words, and whether it is checked or handed back with its first bad field.
const BIDS: &str = "1 1 0|checked Bid 1 1
4294967295 4000000000 4611686018427387903|checked Bid 4294967295 4000000000
0 1 0|back item Bid 0 1
1 0 0|back amount Bid 1 0
1 4000000001 0|back amount Bid 1 4000000001
0 0 0|back item Bid 0 0
0 0 4611686018427387904|back moment Bid 0 0
1 1 4611686018427387904|back moment Bid 1 1";

fn add_checked(rt: &impl Abort, words: &mut String, call: ActionCall) {
    match CheckedCall::check(call) {
        Ok(checked) => {
            add_word(rt, words, "checked");
            add_call(rt, words, &checked.into_call());
        }
        Err(bad) => {
            add_word(rt, words, "back");
            add_word(rt, words, bad.field.word());
            add_call(rt, words, &bad.call);
        }
    }
}

fn expect_checked(rt: &impl Abort, alloc: Global, row: &str) {
    let (text, want) = cut(rt, row, '|');
    let (item, rest) = cut(rt, text, ' ');
    let (amount, now) = cut(rt, rest, ' ');
    let call = a_bid(small_number(rt, item), number(rt, amount), number(rt, now));
    let mut words = String::new(alloc);
    add_checked(rt, &mut words, call);
    expect_words(rt, &words, want, row);
}

/// The numbers of letters of a title and the other fields of an offer, and the first that is out of its range.
const OFFERS: &str = "1 1 1 0 1|none
80 4294967295 4000000000 4000000000 720|none
0 0 0 4000000001 0|title
81 1 1 0 1|title
80 0 0 4000000001 0|category
80 1 0 4000000001 0|start
80 1 4000000001 4000000001 721|start
80 1 1 4000000001 721|buy_now
80 1 1 4000000000 721|hours
80 1 1 4000000000 0|hours";

/// The numbers of letters of a name and of a password, and the first that is out of its range.
const CREDENTIALS: &str = "1 1|none
24 72|none
0 0|name
25 0|name
24 0|password
24 73|password";

/// A text of so many letters `a`.
fn letters(rt: &impl Abort, alloc: Global, count: &str) -> FieldText {
    let mut bytes = Vec::new(alloc);
    for _ in 0..number(rt, count) {
        add_byte(rt, &mut bytes, b'a');
    }
    FieldText::from_vec(bytes)
}

fn offer_of(rt: &impl Abort, alloc: Global, text: &str) -> Action {
    let (title, rest) = first_word(text);
    let (category, rest) = first_word(rest);
    let (start, rest) = first_word(rest);
    let (buy_now, hours) = first_word(rest);
    Action::Sell {
        title: letters(rt, alloc, title),
        category: small_number(rt, category),
        start: number(rt, start),
        buy_now: number(rt, buy_now),
        hours: small_number(rt, hours),
    }
}

fn credentials_of(rt: &impl Abort, alloc: Global, text: &str) -> Action {
    let (name, password) = first_word(text);
    Action::SignIn {
        name: letters(rt, alloc, name),
        password: letters(rt, alloc, password),
    }
}

fn expect_bad(rt: &impl Abort, action: Action, want: &str, row: &str) {
    let found = match bad_field(&a_call(action, 0)) {
        None => "none",
        Some(field) => field.word(),
    };
    expect_words(rt, found, want, row);
}

fn expect_limits(rt: &impl Abort) {
    let texts = MAX_USER_NAME_BYTES == 24
        && MAX_PASSWORD_BYTES == 72
        && MAX_CATEGORY_NAME_BYTES == 40
        && MAX_TITLE_BYTES == 80
        && MAX_FEEDBACK_BYTES == 200;
    let numbers = MAX_PAGE == 9999
        && MAX_AMOUNT == 4_000_000_000
        && MAX_HOURS == 720
        && MOMENT_LIMIT == 0x4000_0000_0000_0000;
    expect_so(rt, texts && numbers, "limits");
}

#[test]
fn calls_are_checked(rt: HostRuntime) {
    for row in BIDS.split('\n') {
        expect_checked(&rt, rt.alloc(), row);
    }
    for row in OFFERS.split('\n') {
        let (text, want) = cut(&rt, row, '|');
        expect_bad(&rt, offer_of(&rt, rt.alloc(), text), want, row);
    }
    for row in CREDENTIALS.split('\n') {
        let (text, want) = cut(&rt, row, '|');
        expect_bad(&rt, credentials_of(&rt, rt.alloc(), text), want, row);
    }
    expect_limits(&rt);
}

/// The bytes of a bid of 513 cents on item 7: 0x0102 = 258, 0x0100 = 256 and 0x0201 = 513.
const BID: &str =
    "0c 0000000000000102 01010101010101010101010101010101 0000000000000100 00000000000000ff 0202020202020202020202020202020202020202020202020202020202020202020202020202020202020202020202020202020202020202 0000000000000007 0000000000000201";

/// Whether a bid is checked, and has these bytes.
fn is_written(rt: &impl Abort, alloc: Global, want: &[u8]) -> bool {
    match CheckedCall::check(a_bid(7, 513, 256)) {
        Ok(call) => action_text(alloc, &call).expect(rt, BID).as_slice() == want,
        Err(_) => false,
    }
}

fn expect_bid(rt: &impl Abort, alloc: Global) {
    let want = hex_bytes(rt, alloc, BID);
    expect_so(rt, is_written(rt, alloc, want.as_slice()), BID);
}

/// The words of the forms.
const KINDS: &str = "register signin signout category sell bid buy close feedback";

/// Words of no form.
const NO_KINDS: &str = "Register sign sign_in categories sells bi bidd  home";

fn expect_kind(rt: &impl Abort, word: &str, is_kind: bool) {
    let found = match FormKind::of(word.as_bytes()) {
        None => "none",
        Some(kind) => kind.word(),
    };
    expect_words(rt, found, if is_kind { word } else { "none" }, word);
}

/// Laws do nothing when they are called.
#[test]
fn bids_are_written_and_forms_have_words(rt: HostRuntime) {
    expect_bid(&rt, rt.alloc());
    for word in KINDS.split(' ') {
        expect_kind(&rt, word, true);
    }
    for word in NO_KINDS.split(' ') {
        expect_kind(&rt, word, false);
    }
    bad_fields_are_first();
    ranges_are();
    texts_are_exact();
    texts_read_back();
    texts_spell_one_call();
    user_names_are_utf8();
    words_are_of_one_form();
    running_is_exact();
    bid_refusals_are_exact();
    buy_refusals_are_exact();
    close_refusals_are_exact();
    feedback_refusals_are_exact();
    other_sides_are_exact();
}
