//! What the parts of a row spell, and what a test compares.

use crash_base::{RowBytes, RowId, RowList, RowWrite};
use std::alloc::Global;
use std::fmt::Write;
use std::process::Abort;

/// The parts of a row before a mark and after it.
pub fn cut<'a>(rt: &impl Abort, row: &'a str, mark: char) -> (&'a str, &'a str) {
    row.split_once(mark).expect(rt, row)
}

/// The number that a text spells.
pub fn number(rt: &impl Abort, text: &str) -> u64 {
    text.parse().expect(rt, text)
}

/// The lines of a text, in which a semicolon is for a line feed.
pub fn lines(rt: &impl Abort, alloc: Global, text: &str) -> String {
    text.replace(alloc, ';', "\n").expect(rt, text)
}

/// A text so many times.
pub fn times(rt: &impl Abort, alloc: Global, text: &str, count: usize) -> String {
    text.repeat(alloc, count).expect(rt, text)
}

/// Asserts that this text was found, and shows the row where it was not.
pub fn expect_text(rt: &impl Abort, found: &str, wanted: &str, row: &str) {
    assert_eq!(rt; found, wanted, "{row}");
}

/// Asserts that this number was found.
pub fn expect_number(rt: &impl Abort, found: u64, wanted: u64, row: &str) {
    assert_eq!(rt; found, wanted, "{row}");
}

/// The bytes that pairs of hexadecimal digits spell. A `-` spells none.
fn bytes_of(rt: &impl Abort, alloc: Global, hex: &str) -> RowBytes {
    let mut bytes = RowBytes::new(alloc);
    for digits in hex.as_bytes().chunks_exact(2) {
        let digits = std::str::from_utf8(digits).expect(rt, hex);
        let byte = u8::from_str_radix(digits, 16).expect(rt, hex);
        bytes.push(byte).expect(rt, hex);
    }
    bytes
}

/// The row that `T K HEX` spells.
fn row_of(rt: &impl Abort, alloc: Global, text: &str) -> RowWrite {
    let (table, rest) = cut(rt, text, ' ');
    let (key, hex) = cut(rt, rest, ' ');
    let bytes = bytes_of(rt, alloc, hex);
    let id = RowId {
        table: table.parse().expect(rt, text),
        key: number(rt, key),
    };
    RowWrite { id, bytes }
}

/// The rows that a text spells, each with a semicolon behind it.
pub fn rows_of(rt: &impl Abort, alloc: Global, text: &str) -> RowList {
    let mut rows = RowList::new(alloc);
    for row in text.split(';') {
        if !row.is_empty() {
            rows.push(row_of(rt, alloc, row)).expect(rt, row);
        }
    }
    rows
}

/// Adds the text of a row.
fn add_row(rt: &impl Abort, text: &mut String, row: &RowWrite) {
    write!(text, "{} {} ", row.id.table, row.id.key).expect(rt, "a row");
    if row.bytes.is_empty() {
        text.push_str("-").expect(rt, "a row");
    }
    for byte in row.bytes.as_slice() {
        write!(text, "{byte:02x}").expect(rt, "a row");
    }
    text.push_str(";").expect(rt, "a row");
}

/// The text of rows.
pub fn text_of(rt: &impl Abort, alloc: Global, rows: &RowList) -> String {
    let mut text = String::new(alloc);
    for row in rows.as_slice() {
        add_row(rt, &mut text, row);
    }
    text
}
