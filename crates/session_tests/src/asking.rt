//! Requests that tests make, and words for what a brick replies.

use crate::words::{add_number, add_text, add_word, expect_so, expect_words};
use brick_store::Brick;
use crash_base::{BrickNo, MAX_SESSION_BYTES, Moment, SessionBytes, SessionKey, Version};
use ssm_frames::{Frame, is_request};
use std::alloc::Global;
use std::fmt::Write;
use std::process::Abort;

/// The nonce of each request.
const NONCE: Version = Version {
    node: 9,
    boot: 8,
    serial: 7,
};

/// Brick 3, which begins as of incarnation 7.
pub fn brick(alloc: Global) -> Brick {
    Brick::new(alloc, BrickNo(3), 7)
}

/// A key of 16 bytes, each this one.
pub fn key(byte: u8) -> SessionKey {
    SessionKey([byte; 16])
}

/// A version with this serial.
pub fn version(serial: u64) -> Version {
    Version {
        node: 1,
        boot: 2,
        serial,
    }
}

/// A value of this many bytes, each this one.
pub fn filled(rt: &impl Abort, alloc: Global, byte: u8, size: usize) -> SessionBytes {
    let bytes = Vec::from_elem(alloc, byte, size).expect(rt, "a value");
    assert!(rt; bytes.len() <= MAX_SESSION_BYTES);
    SessionBytes::from_vec(bytes)
}

/// A Put of a value.
pub fn put(key: SessionKey, version: Version, expiry: u64, value: SessionBytes) -> Frame {
    Frame::Put {
        nonce: NONCE,
        key,
        version,
        expiry: Moment(expiry),
        value,
    }
}

/// A Get of a value.
pub fn get(key: SessionKey, version: Version) -> Frame {
    Frame::Get {
        nonce: NONCE,
        key,
        version,
    }
}

/// A Sweep.
pub fn sweep(moment: u64) -> Frame {
    Frame::Sweep {
        nonce: NONCE,
        moment: Moment(moment),
    }
}

/// Crashes a brick.
pub fn crash(rt: &impl Abort, brick: &mut Brick) {
    assert!(rt; brick.incarnation() < u64::MAX);
    brick.crash();
}

pub fn add_sender(
    rt: &impl Abort,
    words: &mut String,
    word: &str,
    brick: BrickNo,
    incarnation: u64,
) {
    write!(words, " {word} {}.{incarnation}", brick.0).expect(rt, word);
}

/// Adds what a brick replies: a word, the brick with its incarnation, and what else the reply tells.
fn add_reply(rt: &impl Abort, words: &mut String, reply: &Frame) {
    match reply {
        Frame::Stored {
            brick,
            incarnation,
            ..
        } => add_sender(rt, words, "stored", *brick, *incarnation),
        Frame::Found {
            brick,
            incarnation,
            expiry,
            value,
            ..
        } => {
            add_sender(rt, words, "found", *brick, *incarnation);
            add_number(rt, words, expiry.0);
            add_text(rt, words, value.as_slice());
        }
        Frame::Absent {
            brick,
            incarnation,
            swept,
            ..
        } => {
            add_sender(rt, words, "absent", *brick, *incarnation);
            add_number(rt, words, swept.0);
        }
        Frame::BrickFull {
            brick,
            incarnation,
            entries,
            bytes,
            ..
        } => {
            add_sender(rt, words, "full", *brick, *incarnation);
            add_number(rt, words, u64::from(*entries));
            add_number(rt, words, *bytes);
        }
        Frame::Swept {
            brick,
            incarnation,
            moment,
            ..
        } => {
            add_sender(rt, words, "swept", *brick, *incarnation);
            add_number(rt, words, moment.0);
        }
        _ => add_word(rt, words, "no reply"),
    }
}

/// Whether a reply has the nonce of the requests.
fn has_nonce(reply: &Frame) -> bool {
    match reply {
        Frame::Stored { nonce, .. }
        | Frame::Found { nonce, .. }
        | Frame::Absent { nonce, .. }
        | Frame::BrickFull { nonce, .. }
        | Frame::Swept { nonce, .. } => nonce.node == 9 && nonce.boot == 8 && nonce.serial == 7,
        _ => false,
    }
}

/// Asks a brick, and puts its reply into words.
pub fn ask(rt: &impl Abort, alloc: Global, brick: &mut Brick, request: &Frame) -> String {
    assert!(rt; is_request(request));
    let reply = brick.answer(alloc, request).expect(rt, "a reply");
    expect_so(rt, has_nonce(&reply), "the nonce");
    let mut words = String::new(alloc);
    add_reply(rt, &mut words, &reply);
    words
}

/// Asserts that a brick replies these words.
pub fn expect_reply(
    rt: &impl Abort,
    alloc: Global,
    brick: &mut Brick,
    request: &Frame,
    want: &str,
) {
    let words = ask(rt, alloc, brick, request);
    expect_words(rt, &words, want, "a reply");
}

/// Asserts how many values a brick keeps, and how many bytes they have.
pub fn expect_kept(rt: &impl Abort, brick: &Brick, values: u64, bytes: u64) {
    let is_kept = brick.values() == values && brick.bytes() == bytes;
    expect_so(rt, is_kept, "what a brick keeps");
}
