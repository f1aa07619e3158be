//! Frames and the bytes that spell them.

use crate::words::{
    add_hex, add_number, add_word, cut, expect_bytes, expect_so, expect_words, hex_byte, hex_bytes,
    number,
};
use crash_base::{BrickNo, MAX_FRAME_BYTES, SessionKey, Version};
use ssm_frames::{Frame, decode, encode, is_request};
use std::alloc::Global;
use std::fmt::Write;
use std::process::Abort;

/// Bytes in hexadecimal, and what they say: whether it is a request or a reply, which, and its
/// fields. A version is three numbers with points between them, a key stands after `k` and a value
/// after `=`, both in hexadecimal.
///
/// 0x0102 = 258, 0x18000000000 = 384 * 2^32 = 1649267441664, 0x0500 = 1280, 0x4000000 = 2^26 =
/// 67108864, and 0xea60 = 60000.
const FRAMES: &str =
    "01 0102 00000003 0000000000000100 000102030405060708090a0b0c0d0e0f 0004 00010000 0000000100000000 0000018000000000 0008 00ff1a2b3c4d5e6f|request put 258.3.256 k000102030405060708090a0b0c0d0e0f 4.65536.4294967296 1649267441664 =00ff1a2b3c4d5e6f
02 0001 00000001 0000000000000005 00000000000000000000000000000001 0001 00000001 0000000000000000|request get 1.1.5 k00000000000000000000000000000001 1.1.0
03 ffff fffffffe ffffffffffffffff 3fffffffffffffff|request sweep 65535.4294967294.18446744073709551615 4611686018427387903
81 0102 00000003 0000000000000100 f0f1f2f3f4f5f6f7f8f9fafbfcfdfeff 0004 00010000 0000000100000000 0500 0000000000000007|reply stored 258.3.256 kf0f1f2f3f4f5f6f7f8f9fafbfcfdfeff 4.65536.4294967296 1280 7
82 0102 00000003 0000000000000100 000102030405060708090a0b0c0d0e0f 0004 00010000 0000000100000000 0005 0000000000000007 0000000000000001 0002 4142|reply found 258.3.256 k000102030405060708090a0b0c0d0e0f 4.65536.4294967296 5 7 1 =4142
82 0000 00000000 0000000000000000 00000000000000000000000000000000 0000 00000000 0000000000000000 0000 0000000000000000 0000000000000000 0000|reply found 0.0.0 k00000000000000000000000000000000 0.0.0 0 0 0 =
83 0102 00000003 0000000000000100 000102030405060708090a0b0c0d0e0f 0004 00010000 0000000100000000 0005 0000000000000007 00000000000003e8|reply absent 258.3.256 k000102030405060708090a0b0c0d0e0f 4.65536.4294967296 5 7 1000
84 0102 00000003 0000000000000100 000102030405060708090a0b0c0d0e0f 0004 00010000 0000000100000000 0005 0000000000000007 00010000 0000000004000000|reply brick_full 258.3.256 k000102030405060708090a0b0c0d0e0f 4.65536.4294967296 5 7 65536 67108864
85 0102 00000003 0000000000000100 0005 8000000000000000 000000000000ea60|reply swept 258.3.256 5 9223372036854775808 60000";

/// Adds three numbers with dots between them.
fn add_three(rt: &impl Abort, words: &mut String, first: u64, second: u64, third: u64) {
    write!(words, " {first}.{second}.{third}").expect(rt, "a version");
}

fn add_version(rt: &impl Abort, words: &mut String, version: &Version) {
    let (node, boot) = (u64::from(version.node), u64::from(version.boot));
    add_three(rt, words, node, boot, version.serial);
}

/// Adds the word of a frame, and which value and call it is about.
fn add_subject(
    rt: &impl Abort,
    words: &mut String,
    frame: &str,
    nonce: &Version,
    key: &SessionKey,
    version: &Version,
) {
    add_word(rt, words, frame);
    add_version(rt, words, nonce);
    add_hex(rt, words, "k", &key.0);
    add_version(rt, words, version);
}

fn add_sender(rt: &impl Abort, words: &mut String, brick: &BrickNo, incarnation: u64) {
    add_number(rt, words, u64::from(brick.0));
    add_number(rt, words, incarnation);
}

fn add_frame(rt: &impl Abort, words: &mut String, frame: &Frame) {
    let kind = if is_request(frame) {
        "request"
    } else {
        "reply"
    };
    add_word(rt, words, kind);
    match frame {
        Frame::Put {
            nonce,
            key,
            version,
            expiry,
            value,
        } => {
            add_subject(rt, words, "put", nonce, key, version);
            add_number(rt, words, expiry.0);
            add_hex(rt, words, "=", value.as_slice());
        }
        Frame::Get {
            nonce,
            key,
            version,
        } => add_subject(rt, words, "get", nonce, key, version),
        Frame::Sweep { nonce, moment } => {
            add_word(rt, words, "sweep");
            add_version(rt, words, nonce);
            add_number(rt, words, moment.0);
        }
        Frame::Stored {
            nonce,
            key,
            version,
            brick,
            incarnation,
        } => {
            add_subject(rt, words, "stored", nonce, key, version);
            add_sender(rt, words, brick, *incarnation);
        }
        Frame::Found {
            nonce,
            key,
            version,
            brick,
            incarnation,
            expiry,
            value,
        } => {
            add_subject(rt, words, "found", nonce, key, version);
            add_sender(rt, words, brick, *incarnation);
            add_number(rt, words, expiry.0);
            add_hex(rt, words, "=", value.as_slice());
        }
        Frame::Absent {
            nonce,
            key,
            version,
            brick,
            incarnation,
            swept,
        } => {
            add_subject(rt, words, "absent", nonce, key, version);
            add_sender(rt, words, brick, *incarnation);
            add_number(rt, words, swept.0);
        }
        Frame::BrickFull {
            nonce,
            key,
            version,
            brick,
            incarnation,
            entries,
            bytes,
        } => {
            add_subject(rt, words, "brick_full", nonce, key, version);
            add_sender(rt, words, brick, *incarnation);
            add_number(rt, words, u64::from(*entries));
            add_number(rt, words, *bytes);
        }
        Frame::Swept {
            nonce,
            brick,
            incarnation,
            moment,
        } => {
            add_word(rt, words, "swept");
            add_version(rt, words, nonce);
            add_sender(rt, words, brick, *incarnation);
            add_number(rt, words, moment.0);
        }
    }
}

/// Asserts what bytes are decoded to: `none`, or a frame in words.
fn expect_decoded(rt: &impl Abort, alloc: Global, bytes: &[u8], want: &str, row: &str) {
    let mut words = String::new(alloc);
    match decode(alloc, bytes).expect(rt, row) {
        Some(frame) => add_frame(rt, &mut words, &frame),
        None => add_word(rt, &mut words, "none"),
    }
    expect_words(rt, &words, want, row);
}

/// Asserts that a frame is encoded as these bytes.
fn expect_encoded(rt: &impl Abort, alloc: Global, frame: &Frame, want: &[u8], row: &str) {
    let bytes = encode(alloc, frame).expect(rt, row);
    expect_bytes(rt, bytes.as_slice(), want, row);
}

/// Asserts that the frame that bytes are decoded to is encoded as them.
fn expect_encoded_back(rt: &impl Abort, alloc: Global, bytes: &[u8], row: &str) {
    let frame = decode(alloc, bytes).expect(rt, row).expect(rt, row);
    expect_encoded(rt, alloc, &frame, bytes, row);
}

/// A Get of key 1 and version (1, 1, 0), of the call (1, 1, 5).
fn a_get() -> Frame {
    let mut key = [0; 16];
    key[15] = 1;
    Frame::Get {
        nonce: Version {
            node: 1,
            boot: 1,
            serial: 5,
        },
        key: SessionKey(key),
        version: Version {
            node: 1,
            boot: 1,
            serial: 0,
        },
    }
}

const GET: &str =
    "02 0001 00000001 0000000000000005 00000000000000000000000000000001 0001 00000001 0000000000000000";

fn expect_get(rt: &impl Abort, alloc: Global) {
    let bytes = hex_bytes(rt, alloc, GET);
    expect_encoded(rt, alloc, &a_get(), &bytes, GET);
}

/// Asserts that no beginning of these bytes is decoded, and not one with a byte more.
fn expect_exact(rt: &impl Abort, alloc: Global, bytes: &mut Vec<u8>, row: &str) {
    for size in 0..bytes.len() {
        if let Some(front) = bytes.get(..size) {
            expect_decoded(rt, alloc, front, "none", row);
        }
    }
    bytes.push(0).expect(rt, row);
    expect_decoded(rt, alloc, bytes, "none", row);
}

fn expect_frame(rt: &impl Abort, alloc: Global, row: &str) {
    let (text, want) = cut(rt, row, '|');
    let mut bytes = hex_bytes(rt, alloc, text);
    expect_decoded(rt, alloc, &bytes, want, row);
    expect_encoded_back(rt, alloc, &bytes, row);
    expect_exact(rt, alloc, &mut bytes, row);
}

/// Each frame has its bytes, and one byte more or less is no frame.
#[test]
fn frames_have_their_bytes(rt: HostRuntime) {
    for row in FRAMES.split('\n') {
        expect_frame(&rt, rt.alloc(), row);
    }
    expect_get(&rt, rt.alloc());
}

/// The first byte of each frame, its words, and its fields: a version as `v`, a key as `k`, a value as
/// `=`, and else a number by how many bytes it has.
const LAYOUTS: &str = "01 request put v k v 8 =
02 request get v k v
03 request sweep v 8
81 reply stored v k v 2 8
82 reply found v k v 2 8 8 =
83 reply absent v k v 2 8 8
84 reply brick_full v k v 2 8 4 8
85 reply swept v 2 8 8";

fn layout_of(rt: &impl Abort, first: u8) -> Option<&'static str> {
    for layout in LAYOUTS.split('\n') {
        let (byte, fields) = cut(rt, layout, ' ');
        if hex_byte(rt, byte.as_bytes()) == first {
            return Some(fields);
        }
    }
    None
}

/// The number whose bytes these are, the highest first.
fn number_of(bytes: &[u8]) -> u64 {
    let mut number = 0;
    for byte in bytes {
        number = (number << 8) | u64::from(*byte);
    }
    number
}

/// Adds what a version says, and answers the bytes after it.
fn add_laid_version<'a>(rt: &impl Abort, words: &mut String, bytes: &'a [u8]) -> Option<&'a [u8]> {
    let (node, rest) = bytes.split_at_checked(2)?;
    let (boot, rest) = rest.split_at_checked(4)?;
    let (serial, rest) = rest.split_at_checked(8)?;
    add_three(
        rt,
        words,
        number_of(node),
        number_of(boot),
        number_of(serial),
    );
    Some(rest)
}

/// Adds what a value says, and answers the bytes after it.
fn add_laid_value<'a>(rt: &impl Abort, words: &mut String, bytes: &'a [u8]) -> Option<&'a [u8]> {
    let (size, rest) = bytes.split_at_checked(2)?;
    let size = number_of(size);
    if size > 4096 {
        return None;
    }
    let (value, rest) = rest.split_at_checked(size as usize)?;
    add_hex(rt, words, "=", value);
    Some(rest)
}

/// Adds what a number of so many bytes says, and answers the bytes after it.
fn add_laid_number<'a>(
    rt: &impl Abort,
    words: &mut String,
    size: usize,
    bytes: &'a [u8],
) -> Option<&'a [u8]> {
    let (number, rest) = bytes.split_at_checked(size)?;
    add_number(rt, words, number_of(number));
    Some(rest)
}

/// Adds what a field of a layout says, and answers the bytes after it: None where there are too few.
fn add_laid<'a>(
    rt: &impl Abort,
    words: &mut String,
    field: &str,
    bytes: &'a [u8],
) -> Option<&'a [u8]> {
    match field {
        "v" => add_laid_version(rt, words, bytes),
        "k" => {
            let (key, rest) = bytes.split_at_checked(16)?;
            add_hex(rt, words, "k", key);
            Some(rest)
        }
        "=" => add_laid_value(rt, words, bytes),
        "2" => add_laid_number(rt, words, 2, bytes),
        "4" => add_laid_number(rt, words, 4, bytes),
        "8" => add_laid_number(rt, words, 8, bytes),
        word => {
            add_word(rt, words, word);
            Some(bytes)
        }
    }
}

/// Adds what bytes say by the table of layouts, and answers whether they are just one frame.
fn add_by_layout(rt: &impl Abort, words: &mut String, bytes: &[u8]) -> bool {
    let Some((first, rest)) = bytes.split_first() else {
        return false;
    };
    let Some(layout) = layout_of(rt, *first) else {
        return false;
    };
    let mut left = Some(rest);
    for field in layout.split(' ') {
        left = match left {
            Some(rest) => add_laid(rt, words, field, rest),
            None => None,
        };
    }
    left.is_some_and(|left| left.is_empty())
}

/// Asserts that bytes are decoded to what the table of layouts says.
fn expect_by_layout(rt: &impl Abort, alloc: Global, bytes: &[u8], row: &str) {
    let mut want = String::new(alloc);
    if !add_by_layout(rt, &mut want, bytes) {
        want.clear();
        add_word(rt, &mut want, "none");
    }
    expect_decoded(rt, alloc, bytes, want.trim_start(), row);
}

/// Bytes with another one at a place.
fn changed(rt: &impl Abort, alloc: Global, bytes: &[u8], at: usize, byte: u8) -> Vec<u8> {
    let mut changed = Vec::from_slice(alloc, bytes).expect(rt, "a copy");
    if let Some(place) = changed.get_mut(at) {
        *place = byte;
    }
    changed
}

/// Asserts what bytes are decoded to where the one at a place is any.
fn expect_changes_at(rt: &impl Abort, alloc: Global, bytes: &[u8], at: usize, row: &str) {
    for byte in 0..=255 {
        let changed = changed(rt, alloc, bytes, at, byte);
        expect_by_layout(rt, alloc, &changed, row);
    }
}

/// Asserts it at each place of a row's bytes.
fn expect_changes(rt: &impl Abort, alloc: Global, row: &str) {
    let (text, _) = cut(rt, row, '|');
    let bytes = hex_bytes(rt, alloc, text);
    for at in 0..bytes.len() {
        expect_changes_at(rt, alloc, &bytes, at, row);
    }
}

#[test]
fn a_changed_byte_changes_its_field(rt: HostRuntime) {
    for row in FRAMES.split('\n') {
        expect_changes(&rt, rt.alloc(), row);
    }
}

/// The first byte of a Put with a value of 8 bytes made that of an Absent, which has as many bytes; of
/// a Found with one of 2 made that of a BrickFull; and of a Put made that of a Found, which ends in
/// too few bytes.
const OTHER_FIRST_BYTES: &str =
    "83 0102 00000003 0000000000000100 000102030405060708090a0b0c0d0e0f 0004 00010000 0000000100000000 0000018000000000 0008 00ff1a2b3c4d5e6f|reply absent 258.3.256 k000102030405060708090a0b0c0d0e0f 4.65536.4294967296 0 108086391056891912 71804892058836591
84 0102 00000003 0000000000000100 000102030405060708090a0b0c0d0e0f 0004 00010000 0000000100000000 0005 0000000000000007 0000000000000001 0002 4142|reply brick_full 258.3.256 k000102030405060708090a0b0c0d0e0f 4.65536.4294967296 5 7 0 4295115074
82 0102 00000003 0000000000000100 000102030405060708090a0b0c0d0e0f 0004 00010000 0000000100000000 0000018000000000 0008 00ff1a2b3c4d5e6f|none";

/// Another first byte makes another frame or none.
fn expect_other(rt: &impl Abort, alloc: Global, row: &str) {
    let (text, want) = cut(rt, row, '|');
    let bytes = hex_bytes(rt, alloc, text);
    expect_decoded(rt, alloc, &bytes, want, row);
}

/// A Found up to its value, which is not yet begun.
const LONG_FOUND: &str =
    "82 0102 00000003 0000000000000100 000102030405060708090a0b0c0d0e0f 0004 00010000 0000000100000000 0005 0000000000000007 0000000000000001";

/// The bytes of a Found whose value is said to have so many bytes, in hexadecimal, and has others.
fn long_found(rt: &impl Abort, alloc: Global, said: &str, size: u64) -> Vec<u8> {
    let mut bytes = hex_bytes(rt, alloc, LONG_FOUND);
    let said = hex_bytes(rt, alloc, said);
    bytes.extend_from_slice(&said).expect(rt, LONG_FOUND);
    for _ in 0..size {
        bytes.push(171).expect(rt, LONG_FOUND);
    }
    bytes
}

/// How long a value is said to be, in hexadecimal, how long it is, and how many bytes the frame has,
/// or `none` where there is none.
const LENGTHS: &str = "0000 0|65
0001 1|66
00ff 255|320
0100 256|321
0fff 4095|4160
1000 4096|4161
1000 4095|none
1000 4097|none
1001 4096|none
1001 4097|none
ffff 4096|none";

fn expect_length(rt: &impl Abort, alloc: Global, row: &str) {
    let (text, want) = cut(rt, row, '|');
    let (said, size) = cut(rt, text, ' ');
    let bytes = long_found(rt, alloc, said, number(rt, size));
    let mut words = String::new(alloc);
    match decode(alloc, &bytes).expect(rt, row) {
        Some(frame) => {
            expect_encoded(rt, alloc, &frame, &bytes, row);
            add_number(rt, &mut words, bytes.len() as u64);
        }
        None => add_word(rt, &mut words, "none"),
    }
    expect_words(rt, &words, want, row);
}

/// A value has at most 4096 bytes, and no bytes and one byte are no frame. Contracts cite the limit by its name alone,
/// so its value is tested.
#[test]
fn other_bytes_are_other_frames_or_none(rt: HostRuntime) {
    for row in OTHER_FIRST_BYTES.split('\n') {
        expect_other(&rt, rt.alloc(), row);
    }
    for row in LENGTHS.split('\n') {
        expect_length(&rt, rt.alloc(), row);
    }
    expect_decoded(&rt, rt.alloc(), &[], "none", "no bytes");
    for byte in 0..=255 {
        expect_decoded(&rt, rt.alloc(), &[byte], "none", "one byte");
    }
    expect_so(&rt, MAX_FRAME_BYTES == 4161, "the limit");
}
