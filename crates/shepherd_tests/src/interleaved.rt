//! Two requests at once, each step of the one between any two of the other.

use crate::play::{Left, answer_words};
use crate::reboots::shop_with;
use crate::words::{expect_words, first_word, number};
use std::alloc::Global;
use std::fmt::Write;
use std::process::Abort;

/// A row has five parts: what is done besides, behind `SHOP`; the one request, and at which of its steps it commits;
/// the other, likewise; what both are answered where the one commits first; and what both are where the other does.
///
/// A request is taken in by its first step, reads its session by two more, and begins by the fourth. So a bid, whose
/// action has eleven steps, commits by the 16th; a purchase, which has ten, by the 15th; and a registration, which has
/// seventeen, by the 22nd. Whoever commits last began before the other's commit, and is in conflict, and begins again;
/// or began behind it. Both come to the same. The same form sent twice is one request, of one entry. Bids are for item
/// 1, which is offered at 100, and at once at 1000.
const PAIRS: &str = "\
none || ben post /bid item=1&amount=300 || 16 || cat post /bid item=1&amount=400 || 16 || 200 Bid 1 on item 1, page 12 / 200 Bid 2 on item 1, page 13 || 409 Bid too low, page 13 / 200 Bid 1 on item 1, page 12
none || ben post /bid item=1&amount=300 || 16 || ben2 post /bid item=1&amount=300 || 16 || 200 Bid 1 on item 1, page 12 / 200 Bid 1 on item 1, again 12 || 200 Bid 1 on item 1, again 12 / 200 Bid 1 on item 1, page 12
none || ben post /bid item=1&amount=400 || 16 || cat post /bid item=1&amount=400 || 16 || 200 Bid 1 on item 1, page 12 / 409 Bid too low, page 13 || 409 Bid too low, page 13 / 200 Bid 1 on item 1, page 12
cat get /form/buy || ben post /bid item=1&amount=300 || 16 || cat post /buy item=1 || 15 || 200 Bid 1 on item 1, page 13 / 200 Bought item 1, page 14 || 409 Auction over, page 14 / 200 Bought item 1, page 13
cat get /form/buy || ben post /bid item=1&amount=1000 || 16 || cat post /buy item=1 || 15 || 200 Bid 1 on item 1, page 13 / 409 Not for sale, page 14 || 409 Auction over, page 14 / 200 Bought item 1, page 13
ben get /form/register; cat get /form/register || ben post /register name=zoe&password=pw4 || 22 || cat post /register name=zoe&password=pw5 || 22 || 200 Welcome zoe, page 14 / 409 Name taken, page 15 || 409 Name taken, page 15 / 200 Welcome zoe, page 14
ben get /form/register; cat get /form/register || ben post /register name=zoe&password=pw4 || 22 || cat post /register name=eve&password=pw5 || 22 || 200 Welcome zoe, page 14 / 200 Welcome eve, page 15 || 200 Welcome zoe, page 15 / 200 Welcome eve, page 14";

/// What became of a request, without how far the container had come.
fn became<'a>(left: &'a Left) -> &'a str {
    match left.words.split_once(" |") {
        Some((outcome, _)) => outcome,
        None => "",
    }
}

fn add_left(rt: &impl Abort, alloc: Global, words: &mut String, left: &Left) {
    let answer = answer_words(rt, alloc, &left.response);
    let outcome = became(left);
    write!(words, "{answer}, {outcome}").expect(rt, "an answer");
}

/// Two requests, and at which of its steps each commits.
#[derive(Clone, Copy)]
struct Pair<'a> {
    besides: &'a str,
    one: &'a str,
    one_commits: u64,
    other: &'a str,
    other_commits: u64,
}

/// Goes the way of both requests: so many steps of the one, so many of the other, and then both to their ends by turns
/// of so many steps. What both were answered.
fn go(
    rt: &impl Abort,
    alloc: Global,
    pair: Pair<'_>,
    one_steps: u64,
    other_steps: u64,
    turn: u64,
) -> String {
    let mut play = shop_with(rt, alloc, pair.besides);
    let (one, words) = first_word(pair.one);
    play.ask(rt, alloc, one, words);
    let (other, words) = first_word(pair.other);
    play.ask(rt, alloc, other, words);
    play.run_all(rt, alloc, one, one_steps);
    play.run(rt, alloc, other, other_steps);
    for _ in 0..100 {
        play.run(rt, alloc, one, turn);
        play.run(rt, alloc, other, turn);
    }
    let one = play.hear(rt, alloc, one);
    let other = play.hear(rt, alloc, other);
    let mut found = String::new(alloc);
    add_left(rt, alloc, &mut found, &one);
    found.push_str(" / ").expect(rt, "words");
    add_left(rt, alloc, &mut found, &other);
    found
}

fn pair_of<'a>(rt: &impl Abort, row: &'a str) -> (Pair<'a>, &'a str, &'a str) {
    let mut parts = row.split(" || ");
    let besides = parts.next().expect(rt, row);
    let one = parts.next().expect(rt, row);
    let one_commits = number(rt, parts.next().expect(rt, row));
    let other = parts.next().expect(rt, row);
    let other_commits = number(rt, parts.next().expect(rt, row));
    let first = parts.next().expect(rt, row);
    let last = parts.next().expect(rt, row);
    (
        Pair {
            besides,
            one,
            one_commits,
            other,
            other_commits,
        },
        first,
        last,
    )
}

/// Who commits first where the one has made so many steps, and then the other so many, and then both go on in turns.
fn one_is_first(
    rt: &impl Abort,
    pair: Pair<'_>,
    one_steps: u64,
    other_steps: u64,
    turn: u64,
) -> bool {
    assert!(rt; turn > 0);
    if one_steps >= pair.one_commits {
        return true;
    }
    if other_steps >= pair.other_commits {
        return false;
    }
    let one_left = (pair.one_commits - one_steps).div_ceil(turn);
    let other_left = (pair.other_commits - other_steps).div_ceil(turn);
    one_left <= other_left
}

/// Makes so many steps of the one and so many of the other, and then lets both go on in turns.
fn expect_order(
    rt: &impl Abort,
    alloc: Global,
    row: &str,
    one_steps: u64,
    other_steps: u64,
    turn: u64,
) {
    let (pair, first, last) = pair_of(rt, row);
    let found = go(rt, alloc, pair, one_steps, other_steps, turn);
    let want = if one_is_first(rt, pair, one_steps, other_steps, turn) {
        first
    } else {
        last
    };
    expect_words(rt, &found, want, row);
}

/// The other goes its whole way, or both go on by turns of one step, behind each step of the one; and the one goes its
/// whole way behind each step of the other.
fn expect_orders(rt: &impl Abort, alloc: Global, row: &str) {
    let (pair, _, _) = pair_of(rt, row);
    for steps in 1..=pair.one_commits {
        expect_order(rt, alloc, row, steps, 100, 100);
        expect_order(rt, alloc, row, steps, 1, 1);
    }
    for steps in 1..=pair.other_commits {
        expect_order(rt, alloc, row, 1, steps, 100);
    }
}

#[test]
fn two_requests_come_to_one_order(rt: HostRuntime) {
    for row in PAIRS.split('\n') {
        expect_orders(&rt, rt.alloc(), row);
    }
}

/// Of two bids so many steps of the one are made, so many of the other, and then the rest of the one and of the other.
#[test]
fn two_bids_come_to_one_order(rt: HostRuntime) {
    let row = PAIRS.split('\n').next().expect(&rt, "a row");
    for one_steps in 1..=16 {
        for other_steps in 1..=16 {
            expect_order(&rt, rt.alloc(), row, one_steps, other_steps, 100);
        }
    }
}
