//! Scores of components by reports of requests that failed.

use crate::words::{add_number, add_pair, add_word, component, cut, expect_words, number};
use crash_base::{ComponentNo, Moment, PathList};
use failure_scores::Scores;
use std::alloc::Global;
use std::process::Abort;

/// The path of the numbers in a text, with dots between them; `-` is the empty path.
pub fn path_of(rt: &impl Abort, alloc: Global, text: &str) -> PathList {
    let mut path = PathList::new(alloc);
    if text != "-" {
        for number in text.split('.') {
            path.push(component(rt, number)).expect(rt, "a path");
        }
    }
    path
}

/// Adds the component of the greatest score and its score, or `-` where each scores 0.
fn add_top(rt: &impl Abort, words: &mut String, top: Option<(ComponentNo, u64)>) {
    match top {
        Some((component, score)) => add_pair(rt, words, u64::from(component.0), "x", score),
        None => add_word(rt, words, "-"),
    }
}

/// Does what a word says. `1.2@5` is a report of a path at 5, `1?7` asks for the score of 1 at 7, `top?7` for the
/// greatest at 7, `forget?7` drops what is too old at 7, `clear?` all, and `back?` the last.
fn do_word(rt: &impl Abort, alloc: Global, scores: &mut Scores, words: &mut String, word: &str) {
    if let Some((path, moment)) = word.split_once('@') {
        let path = path_of(rt, alloc, path);
        let moment = Moment(number(rt, moment));
        scores.add(alloc, &path, moment).expect(rt, "a report");
        return;
    }
    match cut(rt, word, '?') {
        ("clear", _) => scores.clear(),
        ("back", _) => scores.take_back(),
        ("forget", now) => scores.forget(Moment(number(rt, now))),
        ("top", now) => add_top(rt, words, scores.top(Moment(number(rt, now)))),
        (c, now) => {
            let score = scores.score(component(rt, c), Moment(number(rt, now)));
            add_number(rt, words, score);
        }
    }
}

fn expect_row(rt: &impl Abort, alloc: Global, row: &str) {
    let (script, want) = cut(rt, row, '|');
    let mut scores = Scores::new(alloc);
    let mut words = String::new(alloc);
    for word in script.split(' ') {
        do_word(rt, alloc, &mut scores, &mut words, word);
    }
    expect_words(rt, &words, want, row);
}

/// A row has what is done with scores that begin empty, and after a bar what that answers.
const ROWS: &str = "top?0 7?0|- 0
1@0 1?0 1?10000 1?10001 2?0|1 1 0 0
1.1.1@0 1?0 top?0|1 1x1
1.2@0 2.3@5 2?5 top?5 top?10001 top?10005 top?10006|2 2x2 2x1 2x1 -
9.4@0 4.9@0 top?0|4x2
65535@0 top?0|65535x1
-@0 top?0|-
1@7 1@3 1?10003 1?10004|2 1
1@50 1?0|1
1@0 1@1 forget?10001 1?10001 1?0|1 1
1@0 clear? top?0 1@0 1?0|- 1
back? 1@0 2@0 back? 2?0 1?0|0 1";

#[test]
fn scores_count_recent_reports(rt: HostRuntime) {
    for row in ROWS.split('\n') {
        expect_row(&rt, rt.alloc(), row);
    }
}
