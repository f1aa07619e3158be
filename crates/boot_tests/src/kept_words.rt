//! Rows in words, with their bytes in hexadecimal.

use crate::words::{add_id, add_marked, add_part};
use crash_base::RowWrite;
use std::fmt::Write;
use std::process::Abort;

fn add_byte(rt: &impl Abort, words: &mut String, byte: u8) {
    write!(words, "{byte:02x}").expect(rt, "a byte");
}

/// Adds a sign and bytes in hexadecimal to the last word.
pub fn add_bytes(rt: &impl Abort, words: &mut String, bytes: &[u8]) {
    add_part(rt, words, "=");
    for byte in bytes {
        add_byte(rt, words, *byte);
    }
}

/// Adds a row, with its bytes in hexadecimal, or where there are more than five of them, how many.
pub fn add_short_row(rt: &impl Abort, words: &mut String, row: &RowWrite) {
    add_id(rt, words, row.id);
    if row.bytes.len() > 5 {
        add_marked(rt, words, "#", row.bytes.len() as u64);
    } else {
        add_bytes(rt, words, row.bytes.as_slice());
    }
}
