//! Words for what the calls of a world answer.

use crate::words::{add_holder, add_number, add_text, add_word};
use ssm_stub::{BrickCause, Cause, CauseList, ReadRefusal, StubNext, WriteRefusal};
use ssm_world::{Packet, World};
use std::fmt::Write;
use std::process::Abort;

/// Adds a brick and a word with a colon between them.
fn add_mark(rt: &impl Abort, words: &mut String, brick: u16, word: &str) {
    write!(words, " {brick}:{word}").expect(rt, word);
}

/// Adds a number in parentheses to the last word.
fn add_in_parentheses(rt: &impl Abort, words: &mut String, number: u64) {
    write!(words, "({number})").expect(rt, "a number");
}

/// Adds two numbers in parentheses to the last word.
fn add_full(rt: &impl Abort, words: &mut String, entries: u32, bytes: u64) {
    write!(words, "({entries},{bytes})").expect(rt, "full");
}

fn add_cause(rt: &impl Abort, words: &mut String, cause: &BrickCause) {
    let brick = cause.brick.0;
    match cause.cause {
        Cause::Silent => add_mark(rt, words, brick, "silent"),
        Cause::Strayed => add_mark(rt, words, brick, "strayed"),
        Cause::Full { entries, bytes } => {
            add_mark(rt, words, brick, "full");
            add_full(rt, words, entries, bytes);
        }
        Cause::Crashed { incarnation } => {
            add_mark(rt, words, brick, "crashed");
            add_in_parentheses(rt, words, incarnation);
        }
        Cause::Swept { moment } => {
            add_mark(rt, words, brick, "swept");
            add_in_parentheses(rt, words, moment.0);
        }
    }
}

/// Adds a word and the causes of bricks.
fn add_causes(rt: &impl Abort, words: &mut String, word: &str, causes: &CauseList) {
    add_word(rt, words, word);
    for cause in causes.as_slice() {
        add_cause(rt, words, cause);
    }
}

fn add_write(rt: &impl Abort, words: &mut String, world: &World, call: u64) {
    let Some(write) = world.write_of(call) else {
        return;
    };
    match write.answer() {
        None => add_word(rt, words, "waits"),
        Some(Ok(cookie)) => {
            add_word(rt, words, "ok");
            for holder in cookie.bricks.as_slice() {
                add_holder(rt, words, holder);
            }
        }
        Some(Err(WriteRefusal::Missed(causes))) => add_causes(rt, words, "missed", causes),
        Some(Err(WriteRefusal::OutOfMemory)) => add_word(rt, words, "memory"),
    }
}

fn add_read(rt: &impl Abort, words: &mut String, world: &World, call: u64) {
    let Some(read) = world.read_of(call) else {
        return;
    };
    match read.answer() {
        None => add_word(rt, words, "waits"),
        Some(Ok(value)) => {
            add_word(rt, words, "found");
            add_text(rt, words, value.as_slice());
        }
        Some(Err(ReadRefusal::Expired { now, expiry })) => {
            add_word(rt, words, "expired");
            add_number(rt, words, now.0);
            add_number(rt, words, expiry.0);
        }
        Some(Err(ReadRefusal::Lost(causes))) => add_causes(rt, words, "lost", causes),
        Some(Err(ReadRefusal::OutOfMemory)) => add_word(rt, words, "memory"),
    }
}

/// Adds words for what a call wants next, or `none` where there is no such call.
pub fn add_next(rt: &impl Abort, words: &mut String, next: Option<StubNext>) {
    match next {
        None => add_word(rt, words, "none"),
        Some(StubNext::Send { brick }) => {
            add_word(rt, words, "send");
            add_number(rt, words, u64::from(brick.0));
        }
        Some(StubNext::Receive { brick }) => {
            add_word(rt, words, "receive");
            add_number(rt, words, u64::from(brick.0));
        }
        Some(StubNext::Ended) => add_word(rt, words, "ended"),
    }
}

/// Adds a count, or `none` where there is none.
pub fn add_count(rt: &impl Abort, words: &mut String, count: Option<u64>) {
    match count {
        None => add_word(rt, words, "none"),
        Some(count) => add_number(rt, words, count),
    }
}

/// Adds the brick of a packet, or `none` where there is no such packet.
pub fn add_brick(rt: &impl Abort, words: &mut String, packet: Option<&Packet>) {
    match packet {
        None => add_word(rt, words, "none"),
        Some(packet) => add_number(rt, words, u64::from(packet.brick.0)),
    }
}

/// Adds whether a nonce is new or used.
pub fn add_new(rt: &impl Abort, words: &mut String, is_new: bool) {
    add_word(rt, words, if is_new { "new" } else { "used" });
}

/// Adds words for what a call answers: none where there is no such call.
pub fn add_answer(rt: &impl Abort, words: &mut String, world: &World, call: u64) {
    add_write(rt, words, world, call);
    add_read(rt, words, world, call);
}
