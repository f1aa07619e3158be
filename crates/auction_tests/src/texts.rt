//! The text of each action, byte by byte.

use crate::shown::{add_call, add_head};
use crate::words::{add_byte, add_hex, add_hex_bytes, add_slice, add_word, cut, expect_words};
use auction_calls::{CheckedCall, action_text, read_action};
use std::alloc::Global;
use std::process::Abort;

/// Who asks, when, and the rest: the user, the key, the moment, the random number and the token.
pub const HEAD: &str =
    "0000000000000102 000102030405060708090a0b0c0d0e0f 0000018000000000 00000000fedcba98 404142434445464748494a4b4c4d4e4f505152535455565758595a5b5c5d5e5f606162636465666768696a6b6c6d6e6f7071727374757677";

/// The same in words: 0x0102 = 258, 0x18000000000 = 384 * 2^32 = 1649267441664, and 0xfedcba98 =
/// 4275878552.
const HEAD_WORDS: &str =
    "258 000102030405060708090a0b0c0d0e0f 1649267441664 4275878552 404142434445464748494a4b4c4d4e4f505152535455565758595a5b5c5d5e5f606162636465666768696a6b6c6d6e6f7071727374757677";

/// The number of an action and the bytes of its fields, in hexadecimal, and the action in words.
///
/// 0x27 = 39, 0x1388 = 5000, 0x2710 = 10000, 0xee6b2800 = 4000000000, 0xc3a9 is an e with an acute
/// accent in UTF-8, and 0x270f = 9999.
const ACTIONS: &str = "01||Home
02|0003 616e6e 0002 7077|Register ann pw
03|0005 416e6e5f31 0004 c3a9c3a9|SignIn Ann_1 éé
04||SignOut
05||Categories
06|0005 426f6f6b73|AddCategory Books
07|0000000000000027 000000000000270f|Browse 39 9999
08|00000000ffffffff|Item 4294967295
09|0000000000000001|User 1
0a||About
0b|0004 4c616d70 0000000000000027 0000000000001388 0000000000002710 0000000000000018|Sell 39 5000 10000 24 Lamp
0c|0000000000000100 00000000ee6b2800|Bid 256 4000000000
0d|0000000000010000|Buy 65536
0e|0000000001000000|Close 16777216
0f|0000000000000007 0000000000000001 0004 46696e65|Feedback 7 good Fine
0f|0000000000000007 0000000000000000 0003 426164|Feedback 7 bad Bad
10|0008 7265676973746572|Form Register
10|0006 7369676e696e|Form SignIn
10|0007 7369676e6f7574|Form SignOut
10|0008 63617465676f7279|Form Category
10|0004 73656c6c|Form Sell
10|0003 626964|Form Bid
10|0003 627579|Form Buy
10|0005 636c6f7365|Form Close
10|0008 666565646261636b|Form Feedback";

/// The bytes of a row.
fn bytes_of(rt: &impl Abort, alloc: Global, row: &str) -> Vec<u8> {
    let (number, rest) = cut(rt, row, '|');
    let (fields, _) = cut(rt, rest, '|');
    let mut bytes = Vec::new(alloc);
    for words in [number, HEAD, fields] {
        add_hex_bytes(rt, &mut bytes, words);
    }
    bytes
}

/// The call that bytes are read as.
pub fn read(rt: &impl Abort, alloc: Global, bytes: &[u8]) -> Option<CheckedCall> {
    read_action(alloc, bytes).expect(rt, "a call")
}

/// Adds the action that bytes are read as, or `none`.
fn add_action_of(rt: &impl Abort, alloc: Global, words: &mut String, bytes: &[u8]) {
    match read(rt, alloc, bytes) {
        Some(call) => add_call(rt, words, call.call()),
        None => add_word(rt, words, "none"),
    }
}

/// Asserts which action bytes are read as, or none.
fn expect_action(rt: &impl Abort, alloc: Global, bytes: &[u8], want: &str, row: &str) {
    let mut words = String::new(alloc);
    add_action_of(rt, alloc, &mut words, bytes);
    expect_words(rt, &words, want, row);
}

/// Asserts that bytes are read as no call.
fn expect_none(rt: &impl Abort, alloc: Global, bytes: &[u8], row: &str) {
    expect_action(rt, alloc, bytes, "none", row);
}

/// Adds who asks by a call, and the bytes that it is written as.
fn add_written(rt: &impl Abort, alloc: Global, words: &mut String, call: &CheckedCall) {
    add_head(rt, words, call.call());
    let text = action_text(alloc, call).expect(rt, "a text");
    add_hex(rt, words, text.as_slice());
}

/// Asserts that bytes are read as a call by who asks in the head, and that it is written as them.
fn expect_written_back(rt: &impl Abort, alloc: Global, bytes: &[u8], row: &str) {
    let mut words = String::new(alloc);
    let mut want = String::new(alloc);
    match read(rt, alloc, bytes) {
        Some(call) => add_written(rt, alloc, &mut words, &call),
        None => add_word(rt, &mut words, "none"),
    }
    add_word(rt, &mut want, HEAD_WORDS);
    add_hex(rt, &mut want, bytes);
    expect_words(rt, &words, want.trim_start(), row);
}

/// Asserts that no beginning of these bytes is read, and not one with a byte or a text more.
fn expect_exact(rt: &impl Abort, alloc: Global, bytes: &mut Vec<u8>, row: &str) {
    for size in 0..bytes.len() {
        if let Some(front) = bytes.get(..size) {
            expect_none(rt, alloc, front, row);
        }
    }
    add_byte(rt, bytes, 0);
    expect_none(rt, alloc, bytes, row);
}

/// Asserts that these bytes with another first byte, or after others, are no call.
fn expect_none_behind(rt: &impl Abort, alloc: Global, front: &[u8], bytes: &[u8], row: &str) {
    let mut other = Vec::new(alloc);
    add_slice(rt, &mut other, front);
    add_slice(rt, &mut other, bytes);
    expect_none(rt, alloc, &other, row);
}

/// Asserts that these bytes twice are no call, and none with another first byte.
fn expect_one(rt: &impl Abort, alloc: Global, bytes: &[u8], row: &str) {
    expect_none_behind(rt, alloc, bytes, bytes, row);
    if let Some((_, rest)) = bytes.split_first() {
        for number in [0, 17, 255] {
            expect_none_behind(rt, alloc, &[number], rest, row);
        }
    }
}

/// Asserts what a row's bytes are read as, and that damaged ones are no calls.
fn expect_row(rt: &impl Abort, alloc: Global, row: &str) {
    let (_, rest) = cut(rt, row, '|');
    let (_, want) = cut(rt, rest, '|');
    let mut bytes = bytes_of(rt, alloc, row);
    expect_action(rt, alloc, &bytes, want, row);
    expect_written_back(rt, alloc, &bytes, row);
    expect_one(rt, alloc, &bytes, row);
    expect_exact(rt, alloc, &mut bytes, row);
}

#[test]
fn each_action_has_its_bytes_and_no_others(rt: HostRuntime) {
    for row in ACTIONS.split('\n') {
        expect_row(&rt, rt.alloc(), row);
    }
}
