//! The rows at each place of a journal, read as texts.

ghost use Rattle.std.specs.Prelude.{ℕ, ◌+◌, ◌<◌, length, All};
ghost use Rattle.row_store.specs.declared.noted.Noted.{Noted};

use crate::boot_fixtures::write;
use crate::words::{add_number, add_row, add_text, add_word, byte, cut, expect_words, id, number};
use crash_base::{Place, RowBytes, RowList, RowWrite};
use row_store::Rows;
use std::alloc::Global;
use std::process::Abort;

/// The rows that a text spells, joined by one space.
fn list(rt: &impl Abort, alloc: Global, text: &str) -> RowList {
    let mut rows = RowList::new(alloc);
    for word in text.split(' ') {
        if !word.is_empty() {
            rows.push(write(rt, alloc, word)).expect(rt, "a row");
        }
    }
    rows
}

/// The place that a text spells.
fn place(rt: &impl Abort, text: &str) -> Place {
    Place(number(rt, text))
}

/// Notes the rows that a text spells.
fn note(rt: &impl Abort, alloc: Global, rows: &mut Rows, place: u64, text: &str)
    requires later { All (λ (n : Noted). n.place.0 < place) rows.old.noted }
    requires fits { place < 100 }
    ensures earlier { (p : ℕ) → place < p → All (λ (n : Noted). n.place.0 < p) rows.new.noted }
    ensures some { 0 < length rows.new.noted }
{
    let writes = list(rt, alloc, text);
    rows.note(alloc, writes.as_slice(), Place(place))
        .expect(rt, "a note");
}

/// The base is in no order and has a row twice. What follows is noted at 0, at 2 and at 5.
fn rows_of(rt: &impl Abort, alloc: Global) -> Rows
    ensures { 0 < length result.noted }
{
    let mut rows = Rows::new(alloc, list(rt, alloc, "3.7=z 4.1=p 3.8=b 3.7=a")).expect(
        rt, "the rows",
    );
    note(rt, alloc, &mut rows, 0, "3.7=d 4.2=q");
    note(rt, alloc, &mut rows, 2, "4.1=r 3.9=e");
    note(rt, alloc, &mut rows, 5, "3.7=f");
    rows
}

fn add_bytes(rt: &impl Abort, words: &mut String, bytes: Option<&RowBytes>) {
    match bytes {
        Some(bytes) => add_text(rt, words, " ", bytes.as_slice()),
        None => add_word(rt, words, "none"),
    }
}

pub fn add_rows(rt: &impl Abort, words: &mut String, rows: &[&RowWrite]) {
    for row in rows {
        add_row(rt, words, row);
    }
}

fn add_list(rt: &impl Abort, alloc: Global, words: &mut String, rows: &Rows, table: u8, at: Place) {
    let list = rows.list_at(alloc, table, at).expect(rt, "a list");
    add_rows(rt, words, list.as_slice());
}

fn add_all(rt: &impl Abort, alloc: Global, words: &mut String, rows: &Rows, at: Place) {
    let all = rows.all_at(alloc, at).expect(rt, "the rows");
    add_rows(rt, words, all.as_slice());
}

/// Adds what the rows answer: a row, the rows of a table or all rows at a place, or the newest place.
fn add_answer(rt: &impl Abort, alloc: Global, words: &mut String, rows: &Rows, question: &str) {
    let (asked, rest) = cut(rt, question, ' ');
    let (what, at) = rest.split_once('@').unwrap_or((rest, "0"));
    let at = place(rt, at);
    match asked {
        "row" => add_bytes(rt, words, rows.row_at(id(rt, what), at)),
        "list" => add_list(rt, alloc, words, rows, byte(rt, what), at),
        "all" => add_all(rt, alloc, words, rows, at),
        "newest" => add_number(rt, words, rows.newest(id(rt, what)).0),
        _ => add_number(rt, words, rows.table_newest(byte(rt, what)).0),
    }
}

fn expect_answer(rt: &impl Abort, alloc: Global, rows: &Rows, row: &str) {
    let (question, want) = cut(rt, row, '|');
    let mut words = String::new(alloc);
    add_answer(rt, alloc, &mut words, rows, question);
    expect_words(rt, &words, want, row);
}

/// A row of the table has a question, and after a bar the answer.
fn expect_answers(rt: &impl Abort, alloc: Global, rows: &Rows, table: &str) {
    for row in table.split('\n') {
        expect_answer(rt, alloc, rows, row);
    }
}

const ANSWERS: &str = "row 3.7@0|a
row 3.7@1|d
row 3.7@2|d
row 3.7@3|d
row 3.7@4|d
row 3.7@5|d
row 3.7@6|f
row 3.7@99|f
row 3.8@0|b
row 3.8@99|b
row 3.9@2|none
row 3.9@3|e
row 4.1@2|p
row 4.1@3|r
row 4.2@0|none
row 4.2@1|q
row 5.7@99|none
list 3@0|3.7=a 3.8=b
list 3@1|3.7=d 3.8=b
list 3@2|3.7=d 3.8=b
list 3@3|3.7=d 3.8=b 3.9=e
list 3@5|3.7=d 3.8=b 3.9=e
list 3@6|3.7=f 3.8=b 3.9=e
list 3@99|3.7=f 3.8=b 3.9=e
list 4@0|4.1=p
list 4@1|4.1=p 4.2=q
list 4@3|4.1=r 4.2=q
list 4@99|4.1=r 4.2=q
list 5@99|
all @0|3.7=a 3.8=b 4.1=p
all @3|3.7=d 3.8=b 3.9=e 4.1=r 4.2=q
newest 3.7|6
newest 3.8|0
newest 3.9|3
newest 4.1|3
newest 4.2|1
newest 5.7|0
table 3|6
table 4|3
table 5|0";

/// Of the same rows without the note at 5.
const SHORTER: &str = "row 3.7@6|d
list 3@6|3.7=d 3.8=b 3.9=e
newest 3.7|1
table 3|3
table 4|3";

const EMPTY: &str = "row 3.7@0|none
row 3.7@9|none
list 3@9|
all @9|
newest 3.7|0
table 3|0";

#[test]
fn rows_are_read_at_each_place(rt: HostRuntime) {
    let mut rows = rows_of(&rt, rt.alloc());
    expect_answers(&rt, rt.alloc(), &rows, ANSWERS);
    rows.forget_last();
    expect_answers(&rt, rt.alloc(), &rows, SHORTER);
    let none = Rows::new(rt.alloc(), RowList::new(rt.alloc())).expect(&rt, "the rows");
    expect_answers(&rt, rt.alloc(), &none, EMPTY);
    drop(rows);
    drop(none);
}
