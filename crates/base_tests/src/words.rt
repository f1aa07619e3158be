//! Words that a test finds, and what the parts of a row spell.
//!
//! Each crate of tests has its own, since only a test may end the process.

use crash_base::{RowBytes, RowId, RowList, RowWrite};
use std::alloc::Global;
use std::fmt::Write;
use std::process::Abort;

/// Asserts that something is so, and shows what where it is not.
pub fn expect_so(rt: &impl Abort, is_so: bool, what: &str) {
    assert!(rt; is_so, "{what}");
}

/// Asserts that these words were found, and shows them and the row where they were not.
pub fn expect_words(rt: &impl Abort, found: &str, want: &str, row: &str) {
    assert!(rt; found.trim_start() == want, "{found}\n{row}");
}

/// Asserts that these bytes were found, and shows the row where they were not.
pub fn expect_bytes(rt: &impl Abort, found: &[u8], want: &[u8], row: &str) {
    expect_so(rt, found == want, row);
}

/// Whether a line of a table is no row, but says what the rows after it are about.
pub fn is_heading(line: &str) -> bool {
    line.starts_with("# ")
}

/// The parts of a row before a mark and after it.
pub fn cut<'a>(rt: &impl Abort, row: &'a str, mark: char) -> (&'a str, &'a str) {
    row.split_once(mark).expect(rt, row)
}

/// The number that a text spells.
pub fn number(rt: &impl Abort, text: &str) -> u64 {
    text.parse().ok().expect(rt, text)
}

/// The byte that a text spells as a number.
pub fn byte(rt: &impl Abort, text: &str) -> u8 {
    let number = number(rt, text);
    assert!(rt; number < 0x100);
    number as u8
}

/// The bytes that words spell as numbers.
pub fn bytes(rt: &impl Abort, alloc: Global, text: &str) -> Vec<u8> {
    let mut bytes = Vec::new(alloc);
    for word in text.split(' ') {
        if !word.is_empty() {
            bytes.push(byte(rt, word)).expect(rt, text);
        }
    }
    bytes
}

/// The row that a word spells: `3.7=ab` is the row of table 3 and key 7, whose bytes are the text
/// `ab`.
pub fn row(rt: &impl Abort, alloc: Global, word: &str) -> RowWrite {
    let (table, rest) = cut(rt, word, '.');
    let (key, text) = cut(rt, rest, '=');
    RowWrite {
        id: RowId {
            table: byte(rt, table),
            key: number(rt, key),
        },
        bytes: RowBytes::copied(alloc, text.as_bytes()).expect(rt, word),
    }
}

/// The rows that words spell.
pub fn rows(rt: &impl Abort, alloc: Global, text: &str) -> RowList {
    let mut rows = RowList::new(alloc);
    for word in text.split(' ') {
        rows.push(row(rt, alloc, word)).expect(rt, text);
    }
    rows
}

pub fn add_word(rt: &impl Abort, words: &mut String, word: &str) {
    words.push(' ').expect(rt, word);
    words.push_str(word).expect(rt, word);
}

pub fn add_number(rt: &impl Abort, words: &mut String, number: u64) {
    write!(words, " {number}").expect(rt, "a number");
}

/// Adds each byte as a number.
pub fn add_bytes(rt: &impl Abort, words: &mut String, bytes: &[u8]) {
    for byte in bytes {
        add_number(rt, words, u64::from(*byte));
    }
}

/// Adds a mark and the text that bytes spell, with no space between them.
pub fn add_text(rt: &impl Abort, words: &mut String, mark: &str, bytes: &[u8]) {
    words.push_str(mark).expect(rt, mark);
    words
        .push_str(std::str::from_utf8(bytes).ok().expect(rt, mark))
        .expect(rt, mark);
}

/// Adds the word that spells a row.
pub fn add_row(rt: &impl Abort, words: &mut String, row: &RowWrite) {
    write!(words, " {}.{}", row.id.table, row.id.key).expect(rt, "a row");
    add_text(rt, words, "=", row.bytes.as_slice());
}
