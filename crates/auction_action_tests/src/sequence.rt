//! A shop through 500 actions, from no rows on.

use crate::calls::program_of;
use crate::coherence::{are_coherent, last_item};
use crate::driver::drive;
use crate::words::{add_marked, add_part, expect_so};
use crash_base::RowWrite;
use std::alloc::Global;
use std::process::Abort;

/// A linear congruential generator.
#[derive(Drop)]
struct Chance {
    state: u64,
}

impl Chance {
    /// A number from 1 to the greatest.
    fn upto(&mut self, greatest: u64) -> u64 {
        self.state = self
            .state
            .wrapping_mul(6_364_136_223_846_793_005)
            .wrapping_add(1_442_695_040_888_963_407);
        (self.state >> 32).checked_rem(greatest).unwrap_or(0) + 1
    }
}

/// What an action may be about.
#[derive(Drop)]
struct Fields {
    /// One of the last five items, or the next.
    item: u64,
    category: u64,
    one: u64,
    other: u64,
    three: u64,
    /// Amounts that are bid grow by a cent in four seconds.
    bid: u64,
}

/// The fields of an action at a moment, where so many items were offered.
fn make_fields(chance: &mut Chance, now: u64, last: u64) -> Fields {
    Fields {
        item: last.saturating_add(2).saturating_sub(chance.upto(6)).max(1),
        category: chance.upto(2),
        one: chance.upto(100),
        other: chance.upto(300),
        three: chance.upto(3),
        bid: chance.upto(200).saturating_add(now / 4000),
    }
}

/// Adds a word, and numbers each behind a space.
fn add_words(rt: &impl Abort, words: &mut String, word: &str, numbers: &[u64]) {
    add_part(rt, words, word);
    for number in numbers {
        add_marked(rt, words, " ", *number);
    }
}

/// Adds the words of feedback.
fn add_feedback(rt: &impl Abort, words: &mut String, fields: &Fields, good: &str) {
    add_words(rt, words, "feedback", &[fields.item]);
    add_part(rt, words, good);
    add_marked(rt, words, " Said ", fields.one);
}

/// Adds the words of an action with a name.
fn add_named(rt: &impl Abort, words: &mut String, kind: &str, number: u64) {
    add_marked(rt, words, kind, number);
    add_part(rt, words, " secret");
}

/// Adds the words of an offer.
fn add_offer(rt: &impl Abort, words: &mut String, fields: &Fields) {
    let numbers = [fields.category, fields.one, fields.other, fields.three];
    add_words(rt, words, "sell", &numbers);
    add_marked(rt, words, " Item ", fields.one);
}

/// Adds the words of an action of this kind.
fn add_action(rt: &impl Abort, words: &mut String, kind: u64, fields: &Fields) {
    match kind {
        1 => add_named(rt, words, "register user", fields.one),
        2 => add_marked(rt, words, "addcategory Category ", fields.one),
        3 => add_offer(rt, words, fields),
        4 | 5 | 6 | 7 => add_words(rt, words, "bid", &[fields.item, fields.bid]),
        8 => add_marked(rt, words, "buy ", fields.item),
        9 => add_marked(rt, words, "close ", fields.item),
        10 | 11 => add_feedback(rt, words, fields, " good"),
        12 => add_feedback(rt, words, fields, " bad"),
        13 => add_words(rt, words, "browse", &[fields.category, 0]),
        14 => add_part(rt, words, "about"),
        15 => add_marked(rt, words, "item ", fields.item),
        _ => add_named(rt, words, "signin user", fields.one),
    }
}

/// The kinds of actions that write rows.
const WRITERS: [&str; 7] = [
    "register",
    "addcategory",
    "sell",
    "bid",
    "buy",
    "close",
    "feedback",
];

/// How often each of `WRITERS` was done.
#[derive(Drop)]
struct Counts {
    counts: [u64; 7],
}

impl Counts {
    /// Counts an action that was done, where it is of such a kind.
    fn add(&mut self, action: &str) {
        for (count, word) in self.counts.iter_mut().zip(WRITERS) {
            if action.starts_with(word) {
                *count = count.saturating_add(1);
            }
        }
    }
}

/// Asserts that an action that is refused puts nothing, and counts one that is done.
fn count(rt: &impl Abort, counts: &mut Counts, action: &str, status: u16, puts: usize) {
    if status == 200 {
        counts.add(action);
    } else {
        expect_so(rt, puts == 0, action);
    }
}

/// Does the next action: by one of five users.
fn act(
    rt: &impl Abort,
    alloc: Global,
    chance: &mut Chance,
    now: u64,
    rows: &mut Vec<RowWrite>,
    counts: &mut Counts,
) {
    let mut action = String::new(alloc);
    let fields = make_fields(chance, now, last_item(rt, alloc, rows));
    add_action(rt, &mut action, chance.upto(16), &fields);
    let user = chance.upto(5);
    let mut call = String::new(alloc);
    add_marked(rt, &mut call, "", user);
    add_marked(rt, &mut call, " ", now);
    add_part(rt, &mut call, " ");
    add_part(rt, &mut call, &action);
    let driven = drive(rt, alloc, &program_of(rt, alloc, &call), rows);
    count(rt, counts, &action, driven.done.status, driven.puts.len());
}

#[test]
fn a_shop_stays_coherent(rt: HostRuntime) {
    let mut chance = Chance { state: 20_111_128 };
    let mut rows = Vec::new(rt.alloc());
    let mut counts = Counts { counts: [0; 7] };
    let mut now = 0_u64;
    for number in 1..501 {
        now = now.saturating_add(chance.upto(60_000));
        act(&rt, rt.alloc(), &mut chance, now, &mut rows, &mut counts);
        let is_coherent = are_coherent(&rt, rt.alloc(), &rows);
        assert!(rt; is_coherent, "action {number}");
    }
    for (count, word) in counts.counts.into_iter().zip(WRITERS) {
        expect_so(&rt, count > 0, word);
    }
}
