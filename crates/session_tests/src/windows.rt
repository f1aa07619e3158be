//! Windows, call by call.

use crate::stub_causes::{add_overload, add_windows};
use crate::stub_steps::{brick_at, mark_at};
use crate::words::{
    add_number, add_word, begin_line, brick, cut, expect_words, number, small, word,
};
use crash_base::BrickNo;
use send_windows::{MAX_BRICKS, Pass, PassList, PassMark, TakeRefusal, Windows};
use std::alloc::Global;
use std::process::Abort;

/// Calls of windows, and what they answer.
///
/// The first is `open BRICKS W WQ`. `take FIRST MARKS` takes passes, answers their bricks and
/// what is in flight then, and spends them by the marks, of which each brick has one: `a` for
/// Answered, `s` for Silent, `u` for Unheard, and an unheard pass is hushed. `try B` tries a pass,
/// which is kept. `answered B` and `silent B` spend a single pass. `fill B` tries passes until the
/// window is full. `windows` answers each window with what is in flight. `times N` is as in a
/// scenario.
const CALLS: &str =
    "open 5 3 2 / take 0 aaaaa / take 3 aaaaa / take 4 aaaaa / take 5 aaaaa / take 18446744073709551615 aaaaa|passes 1 2 3 in flight 1 1 1 0 0 / passes 4 5 1 in flight 1 0 0 1 1 / passes 5 1 2 in flight 1 1 0 0 1 / passes 1 2 3 in flight 1 1 1 0 0 / passes 1 2 3 in flight 1 1 1 0 0
open 7 1 1 / take 18446744073709551615 aaaaaaa / take 6 aaaaaaa|passes 2 in flight 0 1 0 0 0 0 0 / passes 7 in flight 0 0 0 0 0 0 1
open 1 1 1 / take 9 a / windows|passes 1 in flight 1 / windows 1:5/0
open 16 16 16 / take 15 aaaaaaaaaaaaaaaa|passes 16 1 2 3 4 5 6 7 8 9 10 11 12 13 14 15 in flight 1 1 1 1 1 1 1 1 1 1 1 1 1 1 1 1
open 3 3 3 / take 1 aaa / fill 2 / take 1 aaa / windows|passes 2 3 1 in flight 1 1 1 / filled 5 / overload 2:5/5 / windows 1:5/0 2:5/5 3:5/0
open 4 2 2 / fill 2 / take 0 aaaa / take 1 aaaa / take 3 aaaa|filled 4 / passes 1 3 in flight 1 4 1 0 / passes 3 4 in flight 0 4 1 1 / passes 4 1 in flight 1 4 0 1
open 3 3 2 / fill 3 / take 2 aaa / fill 1 / take 2 aaa / take 0 aaa|filled 4 / passes 1 2 in flight 1 1 4 / filled 5 / overload 1:5/5 3:4/4 / overload 1:5/5 3:4/4
open 2 1 1 / fill 1 / fill 2 / take 1 aa / silent 2 / take 1 aa / times 3 silent 2 / take 1 aa|filled 4 / filled 4 / overload 1:4/4 2:4/4 / overload 1:4/4 2:2/3 / passes 2 in flight 4 1
open 2 2 2 / times 4 try 1 / try 1 / windows / try 2 / answered 1 / windows / times 2 try 1 / try 1|pass 1 in flight 1 / pass 1 in flight 2 / pass 1 in flight 3 / pass 1 in flight 4 / closed 1 / windows 1:4/4 2:4/0 / pass 2 in flight 1 / windows 1:5/3 2:4/1 / pass 1 in flight 4 / pass 1 in flight 5 / closed 1
open 2 2 2 / times 59 answered 1 / windows / answered 1 / windows / answered 1 / windows / fill 1 / windows|windows 1:63/0 2:4/0 / windows 1:64/0 2:4/0 / windows 1:64/0 2:4/0 / filled 64 / windows 1:64/64 2:4/0
open 1 1 1 / times 60 answered 1 / silent 1 / windows / silent 1 / windows / silent 1 / windows / silent 1 / windows / silent 1 / windows / silent 1 / windows / silent 1 / windows|windows 1:32/0 / windows 1:16/0 / windows 1:8/0 / windows 1:4/0 / windows 1:2/0 / windows 1:1/0 / windows 1:1/0
open 1 1 1 / times 59 answered 1 / silent 1 / windows / silent 1 / windows / silent 1 / windows / silent 1 / windows / silent 1 / windows|windows 1:31/0 / windows 1:15/0 / windows 1:7/0 / windows 1:3/0 / windows 1:1/0
open 3 3 2 / try 1 / answered 4 / silent 4 / answered 0 / silent 0 / answered 65535 / windows|pass 1 in flight 1 / windows 1:4/1 2:4/0 3:4/0
open 2 2 2 / times 3 try 1 / silent 1 / windows / answered 1 / windows / answered 1 / answered 1 / windows|pass 1 in flight 1 / pass 1 in flight 2 / pass 1 in flight 3 / windows 1:2/2 2:4/0 / windows 1:3/1 2:4/0 / windows 1:5/0 2:4/0
open 2 2 2 / times 4 try 1 / times 2 silent 1 / windows / try 1 / silent 1 / try 1 / windows / silent 1 / try 1|pass 1 in flight 1 / pass 1 in flight 2 / pass 1 in flight 3 / pass 1 in flight 4 / windows 1:1/2 2:4/0 / closed 1 / closed 1 / windows 1:1/1 2:4/0 / pass 1 in flight 1
open 4 4 1 / take 0 asua / windows / take 2 sasa / windows|passes 1 2 3 4 in flight 1 1 1 1 / windows 1:5/0 2:2/0 3:2/0 4:5/0 / passes 3 4 1 2 in flight 1 1 1 1 / windows 1:2/0 2:3/0 3:1/0 4:6/0";

/// The mark that a letter says.
fn mark(letter: char) -> PassMark {
    match letter {
        'a' => PassMark::Answered,
        's' => PassMark::Silent,
        _ => PassMark::Unheard,
    }
}

/// Marks each pass by the letter of its brick.
fn mark_all(rt: &impl Abort, passes: &mut PassList, letters: &str) {
    for at in 0..passes.len() {
        let before = brick_at(rt, passes, at).0.saturating_sub(1);
        let letter = letters.chars().nth(before as usize).expect(rt, letters);
        mark_at(rt, passes, at, mark(letter));
    }
}

fn add_in_flight(rt: &impl Abort, words: &mut String, windows: &Windows) {
    add_word(rt, words, "in flight");
    for fact in windows.facts() {
        add_number(rt, words, fact.in_flight);
    }
}

fn take(rt: &impl Abort, alloc: Global, words: &mut String, windows: &mut Windows, call: &str) {
    match windows.take(alloc, number(rt, word(rt, call, 1))) {
        Ok(passes) => {
            let mut passes = passes;
            add_word(rt, words, "passes");
            for pass in passes.as_slice() {
                add_number(rt, words, u64::from(pass.brick.0));
            }
            add_in_flight(rt, words, windows);
            mark_all(rt, &mut passes, word(rt, call, 2));
            passes.hush();
            windows.spend(passes);
        }
        Err(TakeRefusal::Overload(full)) => add_overload(rt, words, &full),
        Err(TakeRefusal::OutOfMemory) => panic!(rt; "{call}"),
    }
}

/// Tries a pass to a brick.
fn try_pass(rt: &impl Abort, windows: &mut Windows, brick: BrickNo) -> Option<Pass> {
    assert!(rt; 1 <= brick.0 && brick.0 as usize <= windows.facts().len() && windows.holds());
    windows.try_pass(brick)
}

fn add_tried(rt: &impl Abort, words: &mut String, windows: &mut Windows, brick: BrickNo) {
    match try_pass(rt, windows, brick) {
        Some(pass) => {
            add_word(rt, words, "pass");
            add_number(rt, words, u64::from(pass.brick.0));
            add_word(rt, words, "in flight");
            assert!(rt; 1 <= brick.0 && brick.0 as usize <= windows.facts().len());
            add_number(rt, words, windows.in_flight(brick));
        }
        None => {
            add_word(rt, words, "closed");
            add_number(rt, words, u64::from(brick.0));
        }
    }
}

/// How many passes fill the window of a brick.
fn filled(rt: &impl Abort, windows: &mut Windows, brick: BrickNo) -> u64 {
    for count in 0..100 {
        if try_pass(rt, windows, brick).is_none() {
            return count;
        }
    }
    100
}

/// A pass to a brick that was taken before.
fn pass(brick: BrickNo) -> Pass {
    Pass {
        brick,
        mark: PassMark::Unheard,
    }
}

/// Makes a call of windows, and begins a line where it answers something.
fn call(rt: &impl Abort, alloc: Global, words: &mut String, windows: &mut Windows, call: &str) {
    match word(rt, call, 0) {
        "answered" => return windows.answered(pass(brick(rt, word(rt, call, 1)))),
        "silent" => return windows.silent(pass(brick(rt, word(rt, call, 1)))),
        _ => begin_line(rt, words),
    }
    match word(rt, call, 0) {
        "take" => take(rt, alloc, words, windows, call),
        "try" => add_tried(rt, words, windows, brick(rt, word(rt, call, 1))),
        "fill" => {
            add_word(rt, words, "filled");
            add_number(rt, words, filled(rt, windows, brick(rt, word(rt, call, 1))));
        }
        _ => {
            add_word(rt, words, call);
            add_windows(rt, words, windows.facts());
        }
    }
}

/// Makes a call of windows, as often as it says.
fn call_times(
    rt: &impl Abort,
    alloc: Global,
    words: &mut String,
    windows: &mut Windows,
    line: &str,
) {
    match line.strip_prefix("times ") {
        None => call(rt, alloc, words, windows, line),
        Some(rest) => {
            let (times, line) = cut(rt, rest, ' ');
            for _ in 0..number(rt, times) {
                call(rt, alloc, words, windows, line);
            }
        }
    }
}

/// The windows that a first call opens.
pub fn opened(rt: &impl Abort, alloc: Global, call: &str) -> Windows {
    let bricks = small(rt, word(rt, call, 1));
    let w = small(rt, word(rt, call, 2));
    let wq = small(rt, word(rt, call, 3));
    assert!(rt; 1 <= wq && wq <= w && w <= bricks && bricks <= MAX_BRICKS);
    let windows = Windows::new(alloc, bricks, w, wq, true).expect(rt, call);
    assert!(rt; windows.w() == w && windows.wq() == wq);
    windows
}

fn expect_calls(rt: &impl Abort, alloc: Global, row: &str) {
    let (calls, want) = cut(rt, row, '|');
    let (first, rest) = cut(rt, calls, '/');
    let mut windows = opened(rt, alloc, first);
    let mut words = String::new(alloc);
    for line in rest.split('/') {
        call_times(rt, alloc, &mut words, &mut windows, line.trim());
    }
    expect_words(rt, &words, want, row);
}

#[test]
fn windows_answer_by_the_passes(rt: HostRuntime) {
    for row in CALLS.split('\n') {
        expect_calls(&rt, rt.alloc(), row);
    }
}
