//! Calls in words.

use crate::words::{add_hex, add_number, add_text, add_word};
use auction_calls::{Action, ActionCall, FormKind};
use std::process::Abort;

fn add_kind(rt: &impl Abort, words: &mut String, kind: FormKind) {
    let name = match kind {
        FormKind::Register => "Register",
        FormKind::SignIn => "SignIn",
        FormKind::SignOut => "SignOut",
        FormKind::Category => "Category",
        FormKind::Sell => "Sell",
        FormKind::Bid => "Bid",
        FormKind::Buy => "Buy",
        FormKind::Close => "Close",
        FormKind::Feedback => "Feedback",
    };
    add_word(rt, words, name);
}

/// Adds a word and two texts.
fn add_texts(rt: &impl Abort, words: &mut String, word: &str, first: &[u8], second: &[u8]) {
    add_word(rt, words, word);
    add_text(rt, words, first);
    add_text(rt, words, second);
}

/// Adds a word and a number.
fn add_one(rt: &impl Abort, words: &mut String, word: &str, number: u32) {
    add_word(rt, words, word);
    add_number(rt, words, u64::from(number));
}

/// Adds a word and two numbers.
fn add_two(rt: &impl Abort, words: &mut String, word: &str, first: u32, second: u64) {
    add_one(rt, words, word, first);
    add_number(rt, words, second);
}

fn add_action(rt: &impl Abort, words: &mut String, action: &Action) {
    match action {
        Action::Home => add_word(rt, words, "Home"),
        Action::Register { name, password } => {
            add_texts(rt, words, "Register", name.as_slice(), password.as_slice())
        }
        Action::SignIn { name, password } => {
            add_texts(rt, words, "SignIn", name.as_slice(), password.as_slice())
        }
        Action::SignOut => add_word(rt, words, "SignOut"),
        Action::Categories => add_word(rt, words, "Categories"),
        Action::AddCategory { name } => {
            add_word(rt, words, "AddCategory");
            add_text(rt, words, name.as_slice());
        }
        Action::Browse { category, page } => {
            add_two(rt, words, "Browse", *category, u64::from(*page))
        }
        Action::Item { item } => add_one(rt, words, "Item", *item),
        Action::User { user } => add_one(rt, words, "User", *user),
        Action::About => add_word(rt, words, "About"),
        Action::Sell {
            title,
            category,
            start,
            buy_now,
            hours,
        } => {
            add_two(rt, words, "Sell", *category, *start);
            add_number(rt, words, *buy_now);
            add_number(rt, words, u64::from(*hours));
            add_text(rt, words, title.as_slice());
        }
        Action::Bid { item, amount } => add_two(rt, words, "Bid", *item, *amount),
        Action::Buy { item } => add_one(rt, words, "Buy", *item),
        Action::Close { item } => add_one(rt, words, "Close", *item),
        Action::Feedback { item, good, text } => {
            add_one(rt, words, "Feedback", *item);
            add_word(rt, words, if *good { "good" } else { "bad" });
            add_text(rt, words, text.as_slice());
        }
        Action::Form { kind } => {
            add_word(rt, words, "Form");
            add_kind(rt, words, *kind);
        }
    }
}

/// Adds the action of a call.
pub fn add_call(rt: &impl Abort, words: &mut String, call: &ActionCall) {
    add_action(rt, words, &call.action);
}

/// Adds who asks, when, and what else the answer depends on.
pub fn add_head(rt: &impl Abort, words: &mut String, call: &ActionCall) {
    add_number(rt, words, u64::from(call.user));
    add_hex(rt, words, &call.key.0);
    add_number(rt, words, call.now.0);
    add_number(rt, words, call.fresh);
    add_hex(rt, words, &call.form);
}
