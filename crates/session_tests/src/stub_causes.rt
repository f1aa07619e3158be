//! Words for what a write or a read answers.

use crate::words::{add_number, add_value, add_word};
use crash_base::{BrickNo, Moment, SessionBytes};
use send_windows::{WindowFact, WindowList};
use session_cookie::{Cookie, HolderList};
use ssm_stub::{BrickCause, Cause, CauseList, ReadRefusal, WriteRefusal};
use std::alloc::Global;
use std::fmt::Write;
use std::process::Abort;

/// Adds a brick, a colon and a word.
fn add_mark(rt: &impl Abort, words: &mut String, brick: BrickNo, mark: &str) {
    write!(words, " {}:{mark}", brick.0).expect(rt, mark);
}

/// Adds a slash and a number to the last word.
fn add_part(rt: &impl Abort, words: &mut String, number: u64) {
    write!(words, "/{number}").expect(rt, "a number");
}

/// Adds each brick with its window and what is in flight.
pub fn add_windows(rt: &impl Abort, words: &mut String, facts: &[WindowFact]) {
    for fact in facts {
        write!(
            words,
            " {}:{}/{}",
            fact.brick.0, fact.window, fact.in_flight
        )
        .expect(rt, "windows");
    }
}

/// Adds the full bricks that a refusal lists.
pub fn add_overload(rt: &impl Abort, words: &mut String, full: &WindowList) {
    add_word(rt, words, "overload");
    add_windows(rt, words, full.as_slice());
}

fn add_cause(rt: &impl Abort, words: &mut String, cause: &BrickCause) {
    match cause.cause {
        Cause::Silent => add_mark(rt, words, cause.brick, "silent"),
        Cause::Strayed => add_mark(rt, words, cause.brick, "strayed"),
        Cause::Full { entries, bytes } => {
            add_mark(rt, words, cause.brick, "full");
            add_part(rt, words, u64::from(entries));
            add_part(rt, words, bytes);
        }
        Cause::Crashed { incarnation } => {
            add_mark(rt, words, cause.brick, "crashed");
            add_part(rt, words, incarnation);
        }
        Cause::Swept { moment } => {
            add_mark(rt, words, cause.brick, "swept");
            add_part(rt, words, moment.0);
        }
    }
}

fn add_causes(rt: &impl Abort, words: &mut String, causes: &[BrickCause]) {
    for cause in causes {
        add_cause(rt, words, cause);
    }
}

/// Adds that a write missed, and why.
pub fn add_missed(rt: &impl Abort, words: &mut String, causes: &CauseList) {
    add_word(rt, words, "missed");
    add_causes(rt, words, causes.as_slice());
}

/// Adds the serial of a cookie's version and its bricks.
pub fn add_cookie(rt: &impl Abort, words: &mut String, cookie: &Cookie) {
    add_word(rt, words, "version");
    add_number(rt, words, cookie.version.serial);
    add_word(rt, words, "bricks");
    for holder in cookie.bricks.as_slice() {
        add_number(rt, words, u64::from(holder.brick.0));
    }
}

/// A copy of a cookie.
pub fn copied(rt: &impl Abort, alloc: Global, cookie: &Cookie) -> Cookie {
    let bricks = Vec::from_slice(alloc, cookie.bricks.as_slice()).expect(rt, "a cookie");
    Cookie {
        key: cookie.key,
        version: cookie.version,
        expiry: cookie.expiry,
        bricks: HolderList::from_vec(bricks),
    }
}

/// Adds what a write answered. A copy of its cookie, where it gave one.
pub fn add_written(
    rt: &impl Abort,
    alloc: Global,
    words: &mut String,
    answer: &Result<Cookie, WriteRefusal>,
) -> Option<Cookie> {
    match answer {
        Ok(cookie) => {
            add_cookie(rt, words, cookie);
            Some(copied(rt, alloc, cookie))
        }
        Err(WriteRefusal::Missed(causes)) => {
            add_missed(rt, words, causes);
            None
        }
        Err(WriteRefusal::OutOfMemory) => panic!(rt; "a write"),
    }
}

/// Adds that a cookie had expired, and when.
pub fn add_expired(rt: &impl Abort, words: &mut String, now: Moment, expiry: Moment) {
    add_word(rt, words, "expired");
    add_number(rt, words, now.0);
    add_number(rt, words, expiry.0);
}

/// Adds that a read was lost, and why.
pub fn add_lost(rt: &impl Abort, words: &mut String, causes: &CauseList) {
    add_word(rt, words, "lost");
    add_causes(rt, words, causes.as_slice());
}

/// Adds what a read answered.
pub fn add_read(rt: &impl Abort, words: &mut String, answer: &Result<SessionBytes, ReadRefusal>) {
    match answer {
        Ok(value) => {
            add_word(rt, words, "found");
            add_value(rt, words, value.as_slice());
        }
        Err(ReadRefusal::Expired { now, expiry }) => add_expired(rt, words, *now, *expiry),
        Err(ReadRefusal::Lost(causes)) => add_lost(rt, words, causes),
        Err(ReadRefusal::OutOfMemory) => panic!(rt; "a read"),
    }
}
