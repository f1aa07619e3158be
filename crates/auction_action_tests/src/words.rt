//! What the parts of a line spell, and bytes in words.
//!
//! Each crate of tests has its own, since only a test may end the process.

use std::alloc::Global;
use std::fmt::Write;
use std::process::Abort;

/// Asserts that something is so, and shows the row where it is not.
pub fn expect_so(rt: &impl Abort, is_so: bool, row: &str) {
    assert!(rt; is_so, "{row}");
}

/// Asserts that these words were found, and shows them and the row where they were not.
pub fn expect_words(rt: &impl Abort, found: &str, want: &str, row: &str) {
    assert!(rt; found.trim() == want.trim(), "{found}\n{row}");
}

/// The parts of a text before a mark and after it.
pub fn cut<'a>(rt: &impl Abort, text: &'a str, mark: char) -> (&'a str, &'a str) {
    text.split_once(mark).expect(rt, text)
}

/// The first word of a line, and the words after it.
pub fn first_word(line: &str) -> (&str, &str) {
    line.split_once(' ').unwrap_or((line, ""))
}

/// The number that a word spells.
pub fn number(rt: &impl Abort, word: &str) -> u64 {
    word.parse().ok().expect(rt, word)
}

/// The number below 2^32 that a word spells.
pub fn small_number(rt: &impl Abort, word: &str) -> u32 {
    let number = number(rt, word);
    assert!(rt; number < 0x1_0000_0000);
    number as u32
}

/// The number below 2^16 that a word spells.
pub fn short_number(rt: &impl Abort, word: &str) -> u16 {
    let number = number(rt, word);
    assert!(rt; number < 0x1_0000);
    number as u16
}

/// The number of a table that a word spells.
pub fn table_number(rt: &impl Abort, word: &str) -> u8 {
    let number = number(rt, word);
    assert!(rt; number < 0x100);
    number as u8
}

/// The value of a digit in hexadecimal.
fn hex_digit(rt: &impl Abort, digit: u8) -> u8 {
    match digit {
        b'0'..=b'9' => digit - b'0',
        b'a'..=b'f' => digit - b'a' + 10,
        _ => panic!(rt; "a digit"),
    }
}

/// Adds the byte that two digits spell in hexadecimal.
fn add_hex_byte(rt: &impl Abort, bytes: &mut Vec<u8>, digits: &[u8]) {
    if let [high, low] = digits {
        let byte = (hex_digit(rt, *high) << 4) | hex_digit(rt, *low);
        bytes.push(byte).expect(rt, "a byte");
    }
}

/// The bytes that a word spells in hexadecimal, two digits each.
pub fn hex_bytes(rt: &impl Abort, alloc: Global, word: &str) -> Vec<u8> {
    let mut bytes = Vec::new(alloc);
    for digits in word.as_bytes().chunks_exact(2) {
        add_hex_byte(rt, &mut bytes, digits);
    }
    bytes
}

/// Adds a text to the last word.
pub fn add_part(rt: &impl Abort, words: &mut String, part: &str) {
    words.push_str(part).expect(rt, part);
}

/// Adds a mark and a number to the last word.
pub fn add_marked(rt: &impl Abort, words: &mut String, mark: &str, number: u64) {
    write!(words, "{mark}{number}").expect(rt, mark);
}

/// Adds a word, and a space after it.
pub fn add_word(rt: &impl Abort, words: &mut String, word: &str) {
    add_part(rt, words, word);
    add_part(rt, words, " ");
}

pub fn add_number(rt: &impl Abort, words: &mut String, number: u64) {
    add_marked(rt, words, "", number);
    add_part(rt, words, " ");
}

fn add_hex_digits(rt: &impl Abort, words: &mut String, byte: u8) {
    write!(words, "{byte:02x}").expect(rt, "a byte");
}

/// Adds bytes in hexadecimal.
pub fn add_hex(rt: &impl Abort, words: &mut String, bytes: &[u8]) {
    for byte in bytes {
        add_hex_digits(rt, words, *byte);
    }
    add_word(rt, words, "");
}

/// The text that bytes spell.
pub fn text_of<'a>(rt: &impl Abort, bytes: &'a [u8]) -> &'a str {
    std::str::from_utf8(bytes).ok().expect(rt, "a text")
}

/// Ends a part: the space after its last word becomes a bar.
pub fn end_part(rt: &impl Abort, words: &mut String) {
    words.pop();
    add_part(rt, words, "|");
}
