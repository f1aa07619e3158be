//! Tables of rows, each a call and what comes of it.
//!
//! A row is `USER NOW ACTION ..`, and then has its parts after bars: first `with ID ROW ..` and `gone ID`, which say in
//! what the shop differs; a row of the shop is in words, or its bytes follow the word `bytes` in hexadecimal. The rest
//! is what is wanted: `is STATUS HEADING`, then `line HTML` for each line of the page after its heading, `put ID
//! ROW ..` for each row that is put, in order, and `session HEX` where the session is set.

use crate::calls::program_of;
use crate::driver::{Driven, drive, put_row};
use crate::row_words::add_row_words;
use crate::rows_read::{id_of, read_row};
use crate::words::{
    add_hex, add_marked, add_number, add_part, add_word, end_part, expect_so, expect_words,
    first_word, text_of,
};
use crash_base::{RowId, RowWrite};
use journal_model::SessionChange;
use std::alloc::Global;
use std::process::Abort;

/// What every page begins with.
const FIRST_LINES: &str = "<!doctype html>\n<title>";

fn remove_row(rows: &mut Vec<RowWrite>, id: RowId) {
    rows.retain(|row| !row.id.is_same(id));
}

/// The rows that lines spell, in order of id.
pub fn rows_of(rt: &impl Abort, alloc: Global, lines: &str) -> Vec<RowWrite> {
    let mut rows = Vec::new(alloc);
    for line in lines.split('\n') {
        put_row(rt, &mut rows, read_row(rt, alloc, line));
    }
    rows
}

/// Changes the rows as a part says.
pub fn change(rt: &impl Abort, alloc: Global, rows: &mut Vec<RowWrite>, part: &str) {
    match first_word(part) {
        ("with", row) => put_row(rt, rows, read_row(rt, alloc, row)),
        ("gone", id) => remove_row(rows, id_of(rt, id)),
        _ => None.expect(rt, part),
    }
}

/// What the call of a row does to the rows that lines spell and the row changes.
pub fn driven_by(rt: &impl Abort, alloc: Global, rows: &str, given: &str) -> Driven {
    let (call, changes) = given.split_once('|').unwrap_or((given, ""));
    let mut rows = rows_of(rt, alloc, rows);
    for part in changes.split('|').filter(|part| !part.is_empty()) {
        change(rt, alloc, &mut rows, part);
    }
    drive(rt, alloc, &program_of(rt, alloc, call), &mut rows)
}

fn add_line(rt: &impl Abort, words: &mut String, line: &str) {
    add_word(rt, words, line);
    end_part(rt, words);
}

/// Adds the heading of a page, which is its title too, and its other lines.
fn add_page(rt: &impl Abort, words: &mut String, page: &str) {
    let rest = page.strip_prefix(FIRST_LINES).expect(rt, page);
    let (title, rest) = rest.split_once("</title>\n<h1>").expect(rt, page);
    let (heading, lines) = rest.split_once("</h1>\n").expect(rt, page);
    expect_so(rt, title == heading, page);
    expect_so(rt, lines.is_empty() || lines.ends_with('\n'), page);
    add_line(rt, words, heading);
    for line in lines.split_terminator('\n') {
        add_word(rt, words, "line");
        add_line(rt, words, line);
    }
}

fn add_put(rt: &impl Abort, alloc: Global, words: &mut String, row: &RowWrite) {
    add_marked(rt, words, "put ", u64::from(row.id.table));
    add_marked(rt, words, ".", row.id.key);
    add_part(rt, words, " ");
    add_row_words(rt, alloc, words, row);
    end_part(rt, words);
}

fn add_session(rt: &impl Abort, words: &mut String, session: &SessionChange) {
    if let SessionChange::Set(value) = session {
        add_word(rt, words, "session");
        add_hex(rt, words, value.as_slice());
        end_part(rt, words);
    }
}

/// What a program did, in parts.
fn parts_of(rt: &impl Abort, alloc: Global, driven: &Driven) -> String {
    let mut words = String::new(alloc);
    add_number(rt, &mut words, u64::from(driven.done.status));
    add_page(rt, &mut words, text_of(rt, driven.done.page.as_slice()));
    for row in &driven.puts {
        add_put(rt, alloc, &mut words, row);
    }
    add_session(rt, &mut words, &driven.done.session);
    words.pop();
    words
}

fn expect_row(rt: &impl Abort, alloc: Global, rows: &str, row: &str) {
    let (given, want) = row.split_once("|is ").expect(rt, row);
    let driven = driven_by(rt, alloc, rows, given);
    expect_words(rt, &parts_of(rt, alloc, &driven), want, row);
}

/// Asserts what comes of the call of each row of a table, over the rows that lines spell.
pub fn expect_table(rt: &impl Abort, alloc: Global, rows: &str, table: &str) {
    for row in table.split('\n') {
        expect_row(rt, alloc, rows, row);
    }
}

/// Asserts the steps of the call of each row of a table: they are its last part.
pub fn expect_steps(rt: &impl Abort, alloc: Global, rows: &str, table: &str) {
    for row in table.split('\n') {
        let (given, want) = row.rsplit_once('|').expect(rt, row);
        let driven = driven_by(rt, alloc, rows, given);
        expect_words(rt, &driven.steps, want, row);
    }
}
