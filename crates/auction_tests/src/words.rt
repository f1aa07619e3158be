//! Words that a test finds, and what the parts of a row spell.
//!
//! Each crate of tests has its own, since only a test may end the process.

use std::alloc::Global;
use std::fmt::Write;
use std::process::Abort;

/// Asserts that something is so, and shows the row where it is not.
pub fn expect_so(rt: &impl Abort, is_so: bool, row: &str) {
    assert!(rt; is_so, "{row}");
}

/// Asserts that these words were found, and shows them and the row where they were not.
pub fn expect_words(rt: &impl Abort, found: &str, want: &str, row: &str) {
    assert!(rt; found.trim_start() == want, "{found}\n{row}");
}

/// The parts of a row before a mark and after it.
pub fn cut<'a>(rt: &impl Abort, row: &'a str, mark: char) -> (&'a str, &'a str) {
    row.split_once(mark).expect(rt, row)
}

/// The number that a text spells.
pub fn number(rt: &impl Abort, text: &str) -> u64 {
    text.parse().ok().expect(rt, text)
}

/// The number below 2^32 that a text spells.
pub fn small_number(rt: &impl Abort, text: &str) -> u32 {
    let number = number(rt, text);
    assert!(rt; number < 0x1_0000_0000);
    number as u32
}

/// The number below 2^16 that a text spells.
pub fn short_number(rt: &impl Abort, text: &str) -> u16 {
    let number = number(rt, text);
    assert!(rt; number < 0x1_0000);
    number as u16
}

/// The number below 2^8 that a text spells.
pub fn byte_number(rt: &impl Abort, text: &str) -> u8 {
    let number = number(rt, text);
    assert!(rt; number < 0x100);
    number as u8
}

/// The first word of a row, and the words after it.
pub fn first_word(row: &str) -> (&str, &str) {
    row.split_once(' ').unwrap_or((row, ""))
}

/// The value of a digit in hexadecimal.
fn hex_digit(rt: &impl Abort, digit: u8) -> u8 {
    match digit {
        b'0'..=b'9' => digit - b'0',
        b'a'..=b'f' => digit - b'a' + 10,
        _ => panic!(rt; "a digit"),
    }
}

pub fn add_byte(rt: &impl Abort, bytes: &mut Vec<u8>, byte: u8) {
    bytes.push(byte).expect(rt, "a byte");
}

/// Adds these bytes.
pub fn add_slice(rt: &impl Abort, bytes: &mut Vec<u8>, more: &[u8]) {
    bytes.extend_from_slice(more).expect(rt, "bytes");
}

/// Adds the byte that two digits spell in hexadecimal.
fn add_hex_byte(rt: &impl Abort, bytes: &mut Vec<u8>, digits: &[u8]) {
    if let [high, low] = digits {
        let byte = (hex_digit(rt, *high) << 4) | hex_digit(rt, *low);
        add_byte(rt, bytes, byte);
    }
}

/// Adds the bytes that words spell in hexadecimal, two digits each.
pub fn add_hex_bytes(rt: &impl Abort, bytes: &mut Vec<u8>, text: &str) {
    for word in text.split(' ') {
        for digits in word.as_bytes().chunks_exact(2) {
            add_hex_byte(rt, bytes, digits);
        }
    }
}

/// The bytes that words spell in hexadecimal, two digits each.
pub fn hex_bytes(rt: &impl Abort, alloc: Global, text: &str) -> Vec<u8> {
    let mut bytes = Vec::new(alloc);
    add_hex_bytes(rt, &mut bytes, text);
    bytes
}

pub fn add_word(rt: &impl Abort, words: &mut String, word: &str) {
    words.push(' ').expect(rt, word);
    words.push_str(word).expect(rt, word);
}

pub fn add_number(rt: &impl Abort, words: &mut String, number: u64) {
    write!(words, " {number}").expect(rt, "a number");
}

/// Adds two numbers and a sign between them.
pub fn add_pair(rt: &impl Abort, words: &mut String, first: u64, sign: &str, second: u64) {
    write!(words, " {first}{sign}{second}").expect(rt, sign);
}

fn add_hex_digits(rt: &impl Abort, words: &mut String, byte: u8) {
    write!(words, "{byte:02x}").expect(rt, "a byte");
}

/// Adds bytes in hexadecimal.
pub fn add_hex(rt: &impl Abort, words: &mut String, bytes: &[u8]) {
    add_word(rt, words, "");
    for byte in bytes {
        add_hex_digits(rt, words, *byte);
    }
}

/// Adds the text that bytes spell.
pub fn add_text(rt: &impl Abort, words: &mut String, bytes: &[u8]) {
    add_word(
        rt,
        words,
        std::str::from_utf8(bytes).ok().expect(rt, "a text"),
    );
}
