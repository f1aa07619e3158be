//! What the parts of a line spell, and bytes in words.
//!
//! Each crate of tests has its own, since only a test may end the process.

use std::fmt::Write;
use std::process::Abort;

/// Asserts that these words were found, and shows the row where they were not.
pub fn expect_words(rt: &impl Abort, found: &str, want: &str, row: &str) {
    assert_eq!(rt; found.trim(), want.trim(), "{row}");
}

/// The parts of a text before a mark and after it.
pub fn cut<'a>(rt: &impl Abort, text: &'a str, mark: &str) -> (&'a str, &'a str) {
    text.split_once(mark).expect(rt, text)
}

/// The first word of a line, and the words after it.
pub fn first_word(line: &str) -> (&str, &str) {
    line.split_once(' ').unwrap_or((line, ""))
}

/// The number that a word spells.
pub fn number(rt: &impl Abort, word: &str) -> u64 {
    word.parse().expect(rt, word)
}

/// The small number that a word spells.
pub fn small(rt: &impl Abort, word: &str) -> u16 {
    word.parse().expect(rt, word)
}

/// Adds bytes in hexadecimal.
pub fn add_hex(rt: &impl Abort, words: &mut String, bytes: &[u8]) {
    for byte in bytes {
        write!(words, "{byte:02x}").expect(rt, "a byte");
    }
}

/// The text that bytes spell.
pub fn text_of<'a>(rt: &impl Abort, bytes: &'a [u8]) -> &'a str {
    std::str::from_utf8(bytes).expect(rt, "a text")
}

/// What stands in a text between two marks; nothing, where it has not the first.
pub fn between<'a>(text: &'a str, open: &str, close: &str) -> &'a str {
    match text.split_once(open) {
        None => "",
        Some((_, rest)) => match rest.split_once(close) {
            None => "",
            Some((part, _)) => part,
        },
    }
}
