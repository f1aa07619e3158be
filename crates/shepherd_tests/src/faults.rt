//! Components that fail by a plan, and the reboots that cure them.

use crate::cuts::{CURL, HOME};
use crate::play::{Play, SHOP, expect_lines, play_line, play_lines, play_of};
use crate::scene::{PLAIN, Setting};
use crate::words::{cut, expect_words, first_word, number, small};
use crash_base::{ComponentNo, FaultKind, FaultPlan, GroupNo, Level};
use std::alloc::Global;
use std::process::Abort;

fn kind_of(rt: &impl Abort, word: &str) -> FaultKind {
    match word {
        "raise" => FaultKind::Raise,
        "hang" => FaultKind::Hang,
        "leak" => FaultKind::Leak,
        _ => panic!(rt; "no kind: {word}"),
    }
}

fn level_of(rt: &impl Abort, word: &str) -> Level {
    match word {
        "group" => Level::Group(GroupNo(0)),
        "app" => Level::App,
        "process" => Level::Process,
        _ => panic!(rt; "no level: {word}"),
    }
}

/// The plan that words spell: the number of its component, how often that was entered before, its kind and its level.
pub fn plan_of(rt: &impl Abort, words: &str) -> FaultPlan {
    let (component, rest) = first_word(words);
    let (after, rest) = first_word(rest);
    let (kind, level) = first_word(rest);
    FaultPlan {
        component: ComponentNo(small(rt, component)),
        after: number(rt, after),
        kind: kind_of(rt, kind),
        cured_by: level_of(rt, level),
    }
}

/// A play of a site with the plan that words spell.
fn play_with(rt: &impl Abort, alloc: Global, words: &str) -> Play {
    let setting = Setting {
        fault: Some(plan_of(rt, words)),
        ..PLAIN
    };
    play_of(rt, alloc, setting)
}

/// What is answered where a component fails: a page of 54 bytes.
const FAILED: &str =
    "HTTP/1.1 500 Internal Server Error\r\nContent-Type: text/html; charset=utf-8\r\nContent-Length: 54\r\n\r\n\
<!doctype html>\n<title>Failed</title>\n<h1>Failed</h1>\n";

/// Sends the request of curl, and looks at the bytes that are answered, and at the item.
fn expect_answer(rt: &impl Abort, alloc: Global, play: &mut Play, response: &str, item: &str) {
    play.feed(rt, "ann", CURL.as_bytes());
    let left = play.hear(rt, alloc, "ann");
    assert!(rt;
        left.response.as_str() == response,
        "{}\n{item}",
        left.response
    );
    expect_words(rt, &left.words, item, CURL);
}

/// Web fails from its first entering on, until its group is rebooted: the same request is answered then.
#[test]
fn a_request_fails_until_a_reboot(rt: HostRuntime) {
    let alloc = rt.alloc();
    let mut play = play_with(&rt, alloc, "0 0 raise group");
    expect_answer(
        &rt,
        alloc,
        &mut play,
        FAILED,
        "raised 0 0 by 0 | 1:0 0-0 1 0/0 at 0",
    );
    expect_answer(
        &rt,
        alloc,
        &mut play,
        FAILED,
        "raised 0 0 by 0 | 1:2 0-0 1 0/0 at 0",
    );
    play_line(&rt, alloc, &mut play, "reboot 0");
    expect_answer(&rt, alloc, &mut play, HOME, "page 2 | 1:4 2-3 4 0/0 at 0");
    assert!(rt; play.site.container().journal().len() == 3);
}

/// A part has a plan in its first line, and then what is asked for, what happens, and what is answered. Web is of group
/// 0, and Bids, which is component 5, of group 3.
const CURES: &str = "\
0 1 raise group
ann get / > 200 Auctions, page 0 | 1:0 0-1 2 0/0 at 0
ann get / > 500 Failed, raised 0 0 by 0 | 1:2 1-1 2 0/0 at 0
reboot 3
ann get / > 500 Failed, raised 0 0 by 0 | 1:4 3-3 4 0/0 at 0
down 0
ann get / > 503 Try again, sentinel 0 3 | 1:6 4-4 5 0/0 at 0
up 3
ann get / > 200 Auctions, page 5 | 1:8 5-6 7 0/0 at 0

0 0 hang app
ann get / > 500 Failed, hung 0 0 by 0 | 1:0 0-0 1 0/0 at 0
reboot 0
ann get / > 500 Failed, hung 0 0 by 0 | 1:2 2-2 3 0/0 at 0
reboot app
ann get / > 200 Auctions, page 4 | 1:4 4-5 6 0/0 at 0

0 0 raise process
reboot app
ann get / > 500 Failed, raised 0 0 by 0 | 1:0 2-2 3 0/0 at 0

0 0 leak process
ann get / > 200 Auctions, page 0 | 1:0 0-1 2 0/0 at 0";

/// Bids fails, and a request that does not enter it is answered. A bid that failed is made by the same form, once the
/// group is rebooted.
const BIDS: &str = "\
ben post /bid item=1&amount=500 > 500 Failed, raised 5 0 by 0 5 | 1:28 12-12 13 0/28 at 0 value 00000000000000020000000000000000
cat get / > 200 Auctions, page 12 | 1:37 12-13 14 0/29 at 0 value 00000000000000030000000000000000
reboot 0
ben post /bid item=1&amount=500 > 500 Failed, raised 5 0 by 0 5 | 1:28 15-15 16 0/30 at 0 value 00000000000000020000000000000000
reboot 3
ben post /bid item=1&amount=500 > 200 Bid 1 on item 1, page 17 | 1:28 17-18 19 0/31 at 0 value 00000000000000020000000000000000";

#[test]
fn wide_reboots_cure_components(rt: HostRuntime) {
    for part in CURES.split("\n\n") {
        let (plan, lines) = cut(&rt, part, "\n");
        let mut play = play_with(&rt, rt.alloc(), plan);
        expect_lines(&rt, rt.alloc(), &mut play, lines);
    }
}

#[test]
fn one_component_fails_alone(rt: HostRuntime) {
    let mut play = play_with(&rt, rt.alloc(), "5 0 raise group");
    play_lines(&rt, rt.alloc(), &mut play, SHOP);
    expect_lines(&rt, rt.alloc(), &mut play, BIDS);
}
