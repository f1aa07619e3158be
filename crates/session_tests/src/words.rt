//! Words that a test finds, and what the parts of a row spell.
//!
//! Each crate of tests has its own, since only a test may end the process.

use crash_base::{BrickNo, MAX_SESSION_BYTES, SessionBytes, SessionKey};
use session_cookie::Holder;
use std::alloc::Global;
use std::fmt::Write;
use std::process::Abort;

/// Asserts that something is so, and shows what where it is not.
pub fn expect_so(rt: &impl Abort, is_so: bool, what: &str) {
    assert!(rt; is_so, "{what}");
}

/// Asserts that these words were found, and shows them and the row where they were not.
pub fn expect_words(rt: &impl Abort, found: &str, want: &str, row: &str) {
    assert!(rt; found.trim_start() == want, "{found}\n{row}");
}

/// Asserts that these bytes were found, and shows the row where they were not.
pub fn expect_bytes(rt: &impl Abort, found: &[u8], want: &[u8], row: &str) {
    expect_so(rt, found == want, row);
}

/// The parts of a row before a mark and after it.
pub fn cut<'a>(rt: &impl Abort, row: &'a str, mark: char) -> (&'a str, &'a str) {
    row.split_once(mark).expect(rt, row)
}

/// The word of a line at a place, counted from 0.
pub fn word<'a>(rt: &impl Abort, line: &'a str, place: usize) -> &'a str {
    line.split(' ').nth(place).expect(rt, line)
}

/// The number that a text spells.
pub fn number(rt: &impl Abort, text: &str) -> u64 {
    text.parse().ok().expect(rt, text)
}

/// The number below 2^16 that a text spells.
pub fn small(rt: &impl Abort, text: &str) -> u16 {
    let number = number(rt, text);
    assert!(rt; number < 0x1_0000);
    number as u16
}

/// The brick whose number a text spells.
pub fn brick(rt: &impl Abort, text: &str) -> BrickNo {
    BrickNo(small(rt, text))
}

/// The value of a digit in hexadecimal.
fn hex_digit(rt: &impl Abort, digit: u8) -> u8 {
    match digit {
        b'0'..=b'9' => digit - b'0',
        b'a'..=b'f' => digit - b'a' + 10,
        _ => panic!(rt; "a digit"),
    }
}

/// The byte that two digits spell in hexadecimal.
pub fn hex_byte(rt: &impl Abort, digits: &[u8]) -> u8 {
    match digits {
        [high, low] => (hex_digit(rt, *high) << 4) | hex_digit(rt, *low),
        _ => panic!(rt; "two digits"),
    }
}

fn add_hex_bytes(rt: &impl Abort, bytes: &mut Vec<u8>, word: &str) {
    for digits in word.as_bytes().chunks_exact(2) {
        bytes.push(hex_byte(rt, digits)).expect(rt, word);
    }
}

/// The bytes that words spell in hexadecimal, two digits each.
pub fn hex_bytes(rt: &impl Abort, alloc: Global, text: &str) -> Vec<u8> {
    let mut bytes = Vec::new(alloc);
    for word in text.split(' ') {
        add_hex_bytes(rt, &mut bytes, word);
    }
    bytes
}

/// The value that a text spells in hexadecimal, `-` being the empty one.
pub fn value(rt: &impl Abort, alloc: Global, text: &str) -> SessionBytes {
    let bytes = hex_bytes(rt, alloc, text);
    assert!(rt; bytes.len() <= MAX_SESSION_BYTES);
    SessionBytes::from_vec(bytes)
}

/// The key whose 16 bytes are a number below 256.
pub fn key(number: u8) -> SessionKey {
    SessionKey([0, 0, 0, 0, 0, 0, 0, 0, 0, 0, 0, 0, 0, 0, 0, number])
}

pub fn add_word(rt: &impl Abort, words: &mut String, word: &str) {
    words.push(' ').expect(rt, word);
    words.push_str(word).expect(rt, word);
}

pub fn add_number(rt: &impl Abort, words: &mut String, number: u64) {
    write!(words, " {number}").expect(rt, "a number");
}

/// Adds a name and a number.
pub fn add_named(rt: &impl Abort, words: &mut String, name: &str, number: u64) {
    write!(words, " {name}{number}").expect(rt, name);
}

/// Adds a brick and its incarnation, with a dot between them.
pub fn add_holder(rt: &impl Abort, words: &mut String, holder: &Holder) {
    write!(words, " {}.{}", holder.brick.0, holder.incarnation).expect(rt, "a holder");
}

fn add_hex_digits(rt: &impl Abort, words: &mut String, byte: u8) {
    write!(words, "{byte:02x}").expect(rt, "a byte");
}

/// Adds a mark and bytes in hexadecimal, with no space between them.
pub fn add_hex(rt: &impl Abort, words: &mut String, mark: &str, bytes: &[u8]) {
    add_word(rt, words, mark);
    for byte in bytes {
        add_hex_digits(rt, words, *byte);
    }
}

/// Adds bytes in hexadecimal as a word, which is `-` for none.
pub fn add_value(rt: &impl Abort, words: &mut String, bytes: &[u8]) {
    let mark = if bytes.is_empty() { "-" } else { "" };
    add_hex(rt, words, mark, bytes);
}

/// The key of a session that a text spells in hexadecimal.
pub fn session(rt: &impl Abort, alloc: Global, text: &str) -> SessionKey {
    let mut key = [0u8; 16];
    for (place, byte) in key.iter_mut().zip(hex_bytes(rt, alloc, text).iter()) {
        *place = *byte;
    }
    SessionKey(key)
}

/// Adds the text that bytes spell.
pub fn add_text(rt: &impl Abort, words: &mut String, bytes: &[u8]) {
    add_word(
        rt,
        words,
        std::str::from_utf8(bytes).ok().expect(rt, "a text"),
    );
}

/// Begins a line of a transcript. Lines are parted by a slash.
pub fn begin_line(rt: &impl Abort, words: &mut String) {
    if !words.is_empty() {
        words.push_str(" /").expect(rt, "a line");
    }
}
