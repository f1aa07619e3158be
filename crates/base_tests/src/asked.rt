//! What a request asks for: the action with its fields, or the first field that is bad.

use crate::words::{add_number, add_text, add_word, cut, expect_words, number};
use action_fields::{FieldError, asked_action};
use auction_calls::{Action, FormKind};
use site_routes::SiteAction;
use std::alloc::Global;
use std::fmt::Write;
use std::process::Abort;

/// The action that a word names. A path says 7, or the form of a bid.
fn asked(word: &str) -> SiteAction {
    match word {
        "register" => SiteAction::Register,
        "signin" => SiteAction::SignIn,
        "signout" => SiteAction::SignOut,
        "categories" => SiteAction::Categories,
        "add" => SiteAction::AddCategory,
        "browse" => SiteAction::Browse { category: 7 },
        "item" => SiteAction::Item { item: 7 },
        "user" => SiteAction::User { user: 7 },
        "about" => SiteAction::About,
        "sell" => SiteAction::Sell,
        "bid" => SiteAction::Bid,
        "buy" => SiteAction::Buy,
        "close" => SiteAction::Close,
        "feedback" => SiteAction::Feedback,
        "form" => SiteAction::Form {
            kind: FormKind::Bid,
        },
        _ => SiteAction::Home,
    }
}

fn add_id(rt: &impl Abort, words: &mut String, word: &str, id: u32) {
    add_word(rt, words, word);
    add_number(rt, words, u64::from(id));
}

fn add_credentials(rt: &impl Abort, words: &mut String, word: &str, name: &[u8], password: &[u8]) {
    add_word(rt, words, word);
    add_text(rt, words, " ", name);
    add_text(rt, words, " ", password);
}

/// Adds an action and its fields.
fn add_action(rt: &impl Abort, words: &mut String, action: &Action) {
    match action {
        Action::Home => add_word(rt, words, "home"),
        Action::SignOut => add_word(rt, words, "signout"),
        Action::Categories => add_word(rt, words, "categories"),
        Action::About => add_word(rt, words, "about"),
        Action::Register { name, password } => {
            add_credentials(rt, words, "register", name.as_slice(), password.as_slice())
        }
        Action::SignIn { name, password } => {
            add_credentials(rt, words, "signin", name.as_slice(), password.as_slice())
        }
        Action::AddCategory { name } => add_text(rt, words, " add ", name.as_slice()),
        Action::Browse { category, page } => write!(words, " browse {category} {page}").expect(
            rt, "browse",
        ),
        Action::Item { item } => add_id(rt, words, "item", *item),
        Action::User { user } => add_id(rt, words, "user", *user),
        Action::Buy { item } => add_id(rt, words, "buy", *item),
        Action::Close { item } => add_id(rt, words, "close", *item),
        Action::Bid { item, amount } => write!(words, " bid {item} {amount}").expect(rt, "bid"),
        Action::Sell {
            title,
            category,
            start,
            buy_now,
            hours,
        } => {
            add_text(rt, words, " sell ", title.as_slice());
            write!(words, " {category} {start} {buy_now} {hours}").expect(rt, "sell");
        }
        Action::Feedback { item, good, text } => {
            write!(words, " feedback {item} {good}").expect(rt, "feedback");
            add_text(rt, words, " ", text.as_slice());
        }
        Action::Form { kind } => add_text(rt, words, " form ", kind.word().as_bytes()),
    }
}

/// Asserts what an action, a query and a form come to. A row has a `|` between them, and before what is wanted.
fn expect_asked(rt: &impl Abort, alloc: Global, row: &str) {
    let (word, rest) = cut(rt, row, '|');
    let (query, rest) = cut(rt, rest, '|');
    let (form, want) = cut(rt, rest, '|');
    let mut words = String::new(alloc);
    match asked_action(alloc, asked(word), query.as_bytes(), form.as_bytes()) {
        Ok(action) => add_action(rt, &mut words, &action),
        Err(FieldError::Bad(field)) => write!(words, " bad {}", field.word()).expect(rt, row),
        Err(FieldError::OutOfMemory) => add_word(rt, &mut words, "no memory"),
    }
    expect_words(rt, words.as_str(), want, row);
}

/// Adds whether an action is read of a form, or the field that is bad.
fn add_taken(rt: &impl Abort, alloc: Global, words: &mut String, word: &str, form: &str) {
    match asked_action(alloc, asked(word), b"", form.as_bytes()) {
        Ok(_) => add_word(rt, words, "taken"),
        Err(FieldError::Bad(field)) => write!(words, " bad {}", field.word()).expect(rt, word),
        Err(FieldError::OutOfMemory) => add_word(rt, words, "no memory"),
    }
}

/// Asserts what a text of so many bytes comes to, and one of a byte more. A row has the action, what stands before the
/// text in its form, how many bytes, and what is wanted.
fn expect_most(rt: &impl Abort, alloc: Global, row: &str) {
    let (word, rest) = cut(rt, row, '|');
    let (front, rest) = cut(rt, rest, '|');
    let (most, want) = cut(rt, rest, '|');
    let mut form = String::new(alloc);
    form.push_str(front).expect(rt, row);
    for _ in 0..number(rt, most) {
        form.push('a').expect(rt, row);
    }
    let mut words = String::new(alloc);
    add_taken(rt, alloc, &mut words, word, form.as_str());
    form.push('a').expect(rt, row);
    add_taken(rt, alloc, &mut words, word, form.as_str());
    expect_words(rt, words.as_str(), want, row);
}

/// What asks for an action with the fields of its form, and what has a bad field, of which the first is named.
const ASKED: &str = "home|page=x|name=|home
register||name=Ann_1&password=pw|register Ann_1 pw
signin||password=p+w&name=z|signin z p w
signout|||signout
categories|||categories
add||name=Old+%26+rare|add Old & rare
browse|||browse 7 0
browse|page=0||browse 7 0
browse|page=9999||browse 7 9999
browse|page=2&page=x|page=3|browse 7 2
item|||item 7
user|||user 7
about|||about
sell||title=Chair&category=3&start=100&buy_now=0&hours=24|sell Chair 3 100 0 24
sell||hours=720&buy_now=4000000000&start=4000000000&category=4294967295&title=T|sell T 4294967295 4000000000 4000000000 720
sell||title=T&category=1&start=1&buy_now=4000000000&hours=1|sell T 1 1 4000000000 1
bid||item=7&amount=500|bid 7 500
bid||item=4294967295&amount=4000000000|bid 4294967295 4000000000
buy||item=1|buy 1
close||item=9|close 9
feedback||item=2&good=1&text=fine|feedback 2 true fine
feedback||item=2&good=0&text=|feedback 2 false 
form|||form bid
register|||bad name
register|name=a&password=b||bad name
register||name=&password=|bad name
register||name=a+b&password=pw|bad name
register||name=%C3%A4&password=pw|bad name
register||name=abcdefghijklmnopqrstuvwxy&password=pw|bad name
register||name=abcdefghijklmnopqrstuvwx|bad password
register||name=a&password=|bad password
signin||password=pw|bad name
signin||name=a|bad password
add|||bad name
add||name=|bad name
add||name=12345678901234567890123456789012345678901|bad name
browse|page=10000||bad page
browse|page=||bad page
browse|page=01||bad page
sell||title=&category=0&start=0&buy_now=x&hours=0|bad title
sell||title=T&category=0&start=0&buy_now=x&hours=0|bad category
sell||title=T&category=1&start=0&buy_now=x&hours=0|bad start
sell||title=T&category=1&start=4000000001&buy_now=x&hours=0|bad start
sell||title=T&category=1&start=1&buy_now=x&hours=0|bad buy_now
sell||title=T&category=1&start=1&buy_now=4000000001&hours=0|bad buy_now
sell||title=T&category=1&start=1&buy_now=1&hours=0|bad hours
sell||title=T&category=1&start=1&buy_now=1&hours=721|bad hours
bid||amount=0|bad item
bid||item=4294967296&amount=1|bad item
bid||item=7|bad amount
bid||item=7&amount=4000000001|bad amount
buy||item=0|bad item
close||item=x|bad item
feedback||item=0&good=2|bad item
feedback||item=1&good=2|bad good
feedback||item=1&good=1|bad text";

/// How many bytes a text has at most.
const MOST: &str = "register|password=p&name=|24|taken bad name
register|name=a&password=|72|taken bad password
signin|name=a&password=|72|taken bad password
add|name=|40|taken bad name
sell|category=1&start=1&buy_now=0&hours=1&title=|80|taken bad title
feedback|item=1&good=0&text=|200|taken bad text";

#[test]
fn actions_have_the_fields_of_their_forms(rt: HostRuntime) {
    for row in ASKED.split('\n') {
        expect_asked(&rt, rt.alloc(), row);
    }
    for row in MOST.split('\n') {
        expect_most(&rt, rt.alloc(), row);
    }
}
