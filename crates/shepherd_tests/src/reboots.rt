//! What happens between any two steps of a request: a group goes down, or is rebooted, or a brick crashes, or the
//! connection is given up.

use crate::play::{Play, SHOP, answer_words, play_line, play_lines, play_of};
use crate::scene::PLAIN;
use crate::words::{cut, expect_words, first_word, number};
use std::alloc::Global;
use std::fmt::Write;
use std::process::Abort;

/// A row has five parts: what is done besides, behind `SHOP`; the request; what happens, in each of these ways; behind
/// which of its steps, from the first to the last; and what it is answered, and its item.
///
/// A request is taken in by its first step, reads its session by two, and begins by the fourth. A bid enters Web by the
/// fifth, Bids and Items, of group 3, by the two steps behind, and commits by the 16th.
const BIDS: &str = "\
none || ben post /bid item=1&amount=300 || reboot 0, reboot 1, reboot 2, reboot 3, reboot 4, reboot app || 1-3 || 200 Bid 1 on item 1, page 14 | 1:28 14-15 16 0/28 at 0 value 00000000000000020000000000000000
none || ben post /bid item=1&amount=300 || reboot 0, reboot 1, reboot 2, reboot 3, reboot 4, reboot app || 4-15 || 200 Bid 1 on item 1, page 14 | 1:28 12-15 16 0/28 at 0 value 00000000000000020000000000000000
none || ben post /bid item=1&amount=300 || reboot 0, reboot 3, reboot app, down 0, down 3, down app || 16-16 || 200 Bid 1 on item 1, page 12 | 1:28 12-13 14 0/28 at 0 value 00000000000000020000000000000000
none || ben post /bid item=1&amount=300 || down 0, down app || 1-3 || 503 Try again, sentinel 0 12 | 1:28 13-13 14 0/28 at 0 value 00000000000000020000000000000000
none || ben post /bid item=1&amount=300 || down 0, down app || 4-15 || 503 Try again, sentinel 0 12 | 1:28 12-13 14 0/28 at 0 value 00000000000000020000000000000000
none || ben post /bid item=1&amount=300 || down 3 || 1-3 || 503 Try again, sentinel 3 12 | 1:28 13-13 14 0/28 at 0 value 00000000000000020000000000000000
none || ben post /bid item=1&amount=300 || down 3 || 4-15 || 503 Try again, sentinel 3 12 | 1:28 12-13 14 0/28 at 0 value 00000000000000020000000000000000
none || ben post /bid item=1&amount=300 || down 1, down 2, down 4 || 1-3 || 200 Bid 1 on item 1, page 13 | 1:28 13-14 15 0/28 at 0 value 00000000000000020000000000000000
none || ben post /bid item=1&amount=300 || down 1, down 2, down 4 || 4-15 || 200 Bid 1 on item 1, page 13 | 1:28 12-14 15 0/28 at 0 value 00000000000000020000000000000000
none || ben post /bid item=1&amount=300 || crash 1 || 1-1 || 200 Bid 1 on item 1, page 12 | 1:28 12-13 14 0/29 at 0 value 00000000000000020000000000000000
none || ben post /bid item=1&amount=300 || crash 1 || 2-16 || 200 Bid 1 on item 1, page 12 | 1:28 12-13 14 0/28 at 0 value 00000000000000020000000000000000";

/// Purchases. One enters Purchases, of group 3, by the sixth step, which is not done twice, and commits by the 15th.
const PURCHASES: &str = "\
cat get /form/buy || cat post /buy item=1 || reboot 0, reboot 1, reboot 2, reboot 3, reboot 4, reboot app || 1-3 || 200 Bought item 1, page 15 | 1:36 15-16 17 0/29 at 0 value 00000000000000030000000000000000
cat get /form/buy || cat post /buy item=1 || reboot 0, reboot 1, reboot 2, reboot 3, reboot 4, reboot app || 4-5 || 200 Bought item 1, page 15 | 1:36 13-16 17 0/29 at 0 value 00000000000000030000000000000000
cat get /form/buy || cat post /buy item=1 || reboot 1, reboot 2, reboot 4 || 6-14 || 200 Bought item 1, page 15 | 1:36 13-16 17 0/29 at 0 value 00000000000000030000000000000000
cat get /form/buy || cat post /buy item=1 || reboot 0, reboot app || 6-14 || 503 Try again, revoked / 13 group 0 had 0 now 1 15 | 1:36 13-15 16 0/29 at 0 value 00000000000000030000000000000000
cat get /form/buy || cat post /buy item=1 || reboot 3 || 6-14 || 503 Try again, revoked / 13 group 3 had 0 now 1 15 | 1:36 13-15 16 0/29 at 0 value 00000000000000030000000000000000
cat get /form/buy || cat post /buy item=1 || reboot 0, reboot 3, reboot app || 15-15 || 200 Bought item 1, page 13 | 1:36 13-14 15 0/29 at 0 value 00000000000000030000000000000000";

/// Registrations. One enters Users, of group 1, and Numbers, of group 2, commits by the 22nd step, and writes its
/// session by eight steps more.
const REGISTRATIONS: &str = "\
ben get /form/register || ben post /register name=zoe&password=pw4 || reboot 0, reboot 1, reboot 2, reboot 3, reboot app || 1-3 || 200 Welcome zoe, page 15 | 1:36 15-16 17 0/32 at 0 value 00000000000000020000000000000000 cookie 40 1800000 2 3
ben get /form/register || ben post /register name=zoe&password=pw4 || reboot 0, reboot 1, reboot 2, reboot 3, reboot app || 4-21 || 200 Welcome zoe, page 15 | 1:36 13-16 17 0/32 at 0 value 00000000000000020000000000000000 cookie 40 1800000 2 3
ben get /form/register || ben post /register name=zoe&password=pw4 || reboot 0, reboot 1, reboot 2, down app || 22-30 || 200 Welcome zoe, page 13 | 1:36 13-14 15 0/32 at 0 value 00000000000000020000000000000000 cookie 40 1800000 2 3";

/// Lists of categories. One enters Categories, of group 4, and commits by the tenth step.
const LISTS: &str = "\
none || ben get /categories || reboot 0, reboot 1, reboot 2, reboot 3, reboot 4, reboot app || 1-3 || 200 Categories, page 14 | 1:35 14-15 16 0/28 at 0 value 00000000000000020000000000000000
none || ben get /categories || reboot 0, reboot 1, reboot 2, reboot 3, reboot 4, reboot app || 4-9 || 200 Categories, page 14 | 1:35 12-15 16 0/28 at 0 value 00000000000000020000000000000000
none || ben get /categories || reboot 0, reboot 4, down app || 10-10 || 200 Categories, page 12 | 1:35 12-13 14 0/28 at 0 value 00000000000000020000000000000000";

/// A play in which the shop stands, and these lines were played besides.
pub fn shop_with(rt: &impl Abort, alloc: Global, lines: &str) -> Play {
    let mut play = play_of(rt, alloc, PLAIN);
    play_lines(rt, alloc, &mut play, SHOP);
    for line in lines.split("; ") {
        if line != "none" {
            play_lines(rt, alloc, &mut play, line);
        }
    }
    play
}

/// What a request is answered, and its item, where this happens behind so many steps of it.
fn found_with(
    rt: &impl Abort,
    alloc: Global,
    besides: &str,
    request: &str,
    event: &str,
    steps: u64,
) -> String {
    let mut play = shop_with(rt, alloc, besides);
    let (name, words) = first_word(request);
    play.ask(rt, alloc, name, words);
    play.run_all(rt, alloc, name, steps);
    play_line(rt, alloc, &mut play, event);
    let left = play.hear(rt, alloc, name);
    let mut found = answer_words(rt, alloc, &left.response);
    write!(found, ", {}", left.words).expect(rt, request);
    found
}

fn expect_between(rt: &impl Abort, alloc: Global, row: &str) {
    let (besides, rest) = cut(rt, row, " || ");
    let (request, rest) = cut(rt, rest, " || ");
    let (events, rest) = cut(rt, rest, " || ");
    let (range, want) = cut(rt, rest, " || ");
    let (first, last) = cut(rt, range, "-");
    for event in events.split(", ") {
        for steps in number(rt, first)..=number(rt, last) {
            let found = found_with(rt, alloc, besides, request, event, steps);
            expect_words(rt, &found, want, row);
        }
    }
}

/// Asserts each row of a table.
fn expect_table(rt: &impl Abort, alloc: Global, table: &str) {
    for row in table.split('\n') {
        expect_between(rt, alloc, row);
    }
}

#[test]
fn bids_go_on_or_are_refused(rt: HostRuntime) {
    expect_table(&rt, rt.alloc(), BIDS);
}

#[test]
fn purchases_are_made_once(rt: HostRuntime) {
    expect_table(&rt, rt.alloc(), PURCHASES);
}

#[test]
fn other_requests_go_on(rt: HostRuntime) {
    expect_table(&rt, rt.alloc(), REGISTRATIONS);
    expect_table(&rt, rt.alloc(), LISTS);
}

/// Gives a registration up behind so many steps of it, and sends it once more. It commits by its 22nd step, asks three
/// bricks by the 24th to the 26th, and has heard two by the 28th; its response leaves before the 29th. So its item is
/// told from then on, and its page is there the second time from the 22nd step on.
fn expect_given_up(rt: &impl Abort, alloc: Global, steps: u64) {
    let mut play = shop_with(rt, alloc, "ben get /form/register");
    play.ask(rt, alloc, "ben", "post /register name=zoe&password=pw4");
    play.run_all(rt, alloc, "ben", steps);
    let told = play.give_up(rt, alloc, "ben");
    assert!(rt;
        told.starts_with("page 13 | 1:36 13-14 15 ") == (steps >= 29),
        "{steps} {told}"
    );
    assert!(rt; told.is_empty() == (steps < 29), "{steps}");
    for fact in play.site.windows() {
        assert!(rt; fact.in_flight == 0, "{steps}");
    }
    let left = play.serve(rt, alloc, "ben", "post /register name=zoe&password=pw4");
    let want = if steps < 22 { "page 13 " } else { "again 13 " };
    assert!(rt; left.words.starts_with(want), "{steps}");
}

#[test]
fn connections_are_given_up_at_each_step(rt: HostRuntime) {
    for steps in 1..=30 {
        expect_given_up(&rt, rt.alloc(), steps);
    }
}
