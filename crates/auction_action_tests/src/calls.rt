//! Calls from their words: the user, the moment and the action.

ghost use Rattle.std.specs.Prelude.{◌≡◌, true};
ghost use Rattle.auction_calls.specs.Calls.{is_call};

use crate::rows_read::field;
use crate::words::{first_word, number, small_number};
use auction_actions::ActionProgram;
use auction_calls::{Action, ActionCall, CheckedCall, FormKind};
use crash_base::{Moment, SessionKey};
use std::alloc::Global;
use std::process::Abort;

/// The random number of each call: the salt of a new user is 01 02 03 04 05 06 07 08.
pub const FRESH: u64 = 0x0102_0304_0506_0708;

/// `sell CATEGORY START BUY_NOW HOURS TITLE`.
fn sell_of(rt: &impl Abort, alloc: Global, words: &str) -> Action {
    let (category, rest) = first_word(words);
    let (start, rest) = first_word(rest);
    let (buy_now, rest) = first_word(rest);
    let (hours, title) = first_word(rest);
    Action::Sell {
        title: field(rt, alloc, title),
        category: small_number(rt, category),
        start: number(rt, start),
        buy_now: number(rt, buy_now),
        hours: small_number(rt, hours),
    }
}

/// `feedback ITEM good TEXT`, or `bad` in place of `good`.
fn feedback_of(rt: &impl Abort, alloc: Global, words: &str) -> Action {
    let (item, rest) = first_word(words);
    let (good, text) = first_word(rest);
    Action::Feedback {
        item: small_number(rt, item),
        good: good == "good",
        text: field(rt, alloc, text),
    }
}

/// `bid ITEM AMOUNT`.
fn bid_of(rt: &impl Abort, words: &str) -> Action {
    let (item, amount) = first_word(words);
    Action::Bid {
        item: small_number(rt, item),
        amount: number(rt, amount),
    }
}

/// `browse CATEGORY PAGE`.
fn browse_of(rt: &impl Abort, words: &str) -> Action {
    let (category, page) = first_word(words);
    Action::Browse {
        category: small_number(rt, category),
        page: small_number(rt, page),
    }
}

/// `form WORD`.
fn form_of(rt: &impl Abort, word: &str) -> Action {
    Action::Form {
        kind: FormKind::of(word.as_bytes()).expect(rt, word),
    }
}

/// An action of no fields or of one number.
fn plain_of(rt: &impl Abort, kind: &str, rest: &str) -> Action {
    match kind {
        "home" => Action::Home,
        "signout" => Action::SignOut,
        "categories" => Action::Categories,
        "about" => Action::About,
        "item" => Action::Item {
            item: small_number(rt, rest),
        },
        "user" => Action::User {
            user: small_number(rt, rest),
        },
        "buy" => Action::Buy {
            item: small_number(rt, rest),
        },
        "close" => Action::Close {
            item: small_number(rt, rest),
        },
        _ => None.expect(rt, kind),
    }
}

/// The name and the password after `register` or `signin`.
fn named_of(rt: &impl Abort, alloc: Global, kind: &str, words: &str) -> Action {
    let (name, password) = first_word(words);
    let name = field(rt, alloc, name);
    let password = field(rt, alloc, password);
    if kind == "register" {
        Action::Register { name, password }
    } else {
        Action::SignIn { name, password }
    }
}

/// The action that words spell.
fn action_of(rt: &impl Abort, alloc: Global, words: &str) -> Action {
    let (kind, rest) = first_word(words);
    match kind {
        "register" | "signin" => named_of(rt, alloc, kind, rest),
        "addcategory" => Action::AddCategory {
            name: field(rt, alloc, rest),
        },
        "browse" => browse_of(rt, rest),
        "sell" => sell_of(rt, alloc, rest),
        "bid" => bid_of(rt, rest),
        "feedback" => feedback_of(rt, alloc, rest),
        "form" => form_of(rt, rest),
        _ => plain_of(rt, kind, rest),
    }
}

/// A token of 56 bytes, no two of which are the same.
const TOKEN: &[u8; 56] = b"0123456789abcdefghijklmnopqrstuvwxyzABCDEFGHIJKLMNOPQRST";

/// The program of an action of a user at a moment. Its key has bytes 1, and its token is `TOKEN`.
pub fn program(rt: &impl Abort, user: u32, now: u64, action: Action) -> ActionProgram
    ensures { is_call result ≡ true }
{
    let call = ActionCall {
        action,
        user,
        key: SessionKey([1; 16]),
        now: Moment(now),
        fresh: FRESH,
        form: *TOKEN,
    };
    match CheckedCall::check(call) {
        Ok(call) => ActionProgram::new(call),
        Err(_) => None.expect(rt, "a call in its ranges"),
    }
}

/// The program of the call that words spell: `USER NOW ACTION ..`.
pub fn program_of(rt: &impl Abort, alloc: Global, words: &str) -> ActionProgram
    ensures { is_call result ≡ true }
{
    let (user, rest) = first_word(words);
    let (now, action) = first_word(rest);
    let action = action_of(rt, alloc, action);
    program(rt, small_number(rt, user), number(rt, now), action)
}
