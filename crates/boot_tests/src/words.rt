//! Words that a test finds, and what the parts of a row spell.
//!
//! Each crate of tests has its own, since only a test may end the process.

use crash_base::{ComponentNo, RowId, RowWrite};
use std::fmt::Write;
use std::process::Abort;

/// Asserts that something is so, and shows what where it is not.
pub fn expect_so(rt: &impl Abort, is_so: bool, what: &str) {
    assert!(rt; is_so, "{what}");
}

/// Asserts that these words were found, and shows them and the row where they were not.
pub fn expect_words(rt: &impl Abort, found: &str, want: &str, row: &str) {
    assert!(rt; found.trim_start() == want, "{found}\n{row}");
}

/// Whether a line of a table is no row, but says what the rows after it are about.
pub fn is_heading(line: &str) -> bool {
    line.starts_with("# ")
}

/// The parts of a row before a mark and after it.
pub fn cut<'a>(rt: &impl Abort, row: &'a str, mark: char) -> (&'a str, &'a str) {
    row.split_once(mark).expect(rt, row)
}

/// The number that a text spells.
pub fn number(rt: &impl Abort, text: &str) -> u64 {
    text.parse().ok().expect(rt, text)
}

/// The number below 2^16 that a text spells.
pub fn short(rt: &impl Abort, text: &str) -> u16 {
    let number = number(rt, text);
    assert!(rt; number < 0x1_0000);
    number as u16
}

/// The component whose number a text spells.
pub fn component(rt: &impl Abort, text: &str) -> ComponentNo {
    ComponentNo(short(rt, text))
}

/// The byte whose number a text spells.
pub fn byte(rt: &impl Abort, text: &str) -> u8 {
    let number = number(rt, text);
    assert!(rt; number < 0x100);
    number as u8
}

/// The id that a text spells: its table and its key.
pub fn id(rt: &impl Abort, text: &str) -> RowId {
    let (table, key) = cut(rt, text, '.');
    RowId {
        table: byte(rt, table),
        key: number(rt, key),
    }
}

/// The text that bytes spell.
pub fn text<'a>(rt: &impl Abort, bytes: &'a [u8]) -> &'a str {
    std::str::from_utf8(bytes).ok().expect(rt, "a text")
}

/// Adds a text to the last word.
pub fn add_part(rt: &impl Abort, words: &mut String, part: &str) {
    words.push_str(part).expect(rt, part);
}

/// Adds a mark and a number to the last word.
pub fn add_marked(rt: &impl Abort, words: &mut String, mark: &str, number: u64) {
    write!(words, "{mark}{number}").expect(rt, mark);
}

pub fn add_word(rt: &impl Abort, words: &mut String, word: &str) {
    add_part(rt, words, " ");
    add_part(rt, words, word);
}

pub fn add_number(rt: &impl Abort, words: &mut String, number: u64) {
    add_marked(rt, words, " ", number);
}

/// Adds a name and a number.
pub fn add_named(rt: &impl Abort, words: &mut String, name: &str, number: u64) {
    add_part(rt, words, " ");
    add_marked(rt, words, name, number);
}

/// Adds a name and two numbers with a dot between them.
pub fn add_dotted(rt: &impl Abort, words: &mut String, name: &str, first: u64, second: u64) {
    add_named(rt, words, name, first);
    add_marked(rt, words, ".", second);
}

/// Adds two numbers and a sign between them.
pub fn add_pair(rt: &impl Abort, words: &mut String, first: u64, sign: &str, second: u64) {
    add_number(rt, words, first);
    add_marked(rt, words, sign, second);
}

/// Adds a mark and the text that bytes spell, with no space between them.
pub fn add_text(rt: &impl Abort, words: &mut String, mark: &str, bytes: &[u8]) {
    add_part(rt, words, mark);
    add_part(rt, words, text(rt, bytes));
}

pub fn add_id(rt: &impl Abort, words: &mut String, id: RowId) {
    add_pair(rt, words, u64::from(id.table), ".", id.key);
}

/// Adds a row: its table, its key and its bytes.
pub fn add_row(rt: &impl Abort, words: &mut String, row: &RowWrite) {
    add_id(rt, words, row.id);
    add_text(rt, words, "=", row.bytes.as_slice());
}
