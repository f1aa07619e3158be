//! The pieces of actions: what they answer, what they refuse, what they read, and what they write.

use crate::words::{
    add_hex, add_number, add_pair, add_text, add_word, cut, expect_so, expect_words, first_word,
    hex_bytes, number, short_number, small_number,
};
use action_plans::{Reads, Stop};
use auction_pieces::{
    answered, asks_counter, asks_no_row, asks_row, asks_row_or, asks_table, decoded,
    is_last_number, next_number, refuses_by, refuses_if, says, says_number, shows,
    shows_with_session, write_counter, write_row,
};
use auction_rows::{CATEGORY_TABLE, CategoryRow, category_id, is_category, users_counter};
use auction_rules::RuleRefusal;
use call_ticket::{Answer, AnswerList};
use crash_base::{FieldText, Moment, RowBytes, RowId, RowList, RowWrite, WriteList};
use journal_model::{DoneText, ReadMark, SessionChange};
use page_text::{PageLine, PageLineList};
use std::alloc::Global;
use std::process::Abort;

/// The piece, its status, user or number, and its heading or word. Then the status of the answer, what becomes of the
/// session, and the page, with a slash for each line feed.
const ANSWERS: &str =
    "says 404 Not there|404 keep <!doctype html>/<title>Not there</title>/<h1>Not there</h1>/
says 409 A<B|409 keep <!doctype html>/<title>A&lt;B</title>/<h1>A&lt;B</h1>/
shows 200 Cats|200 keep <!doctype html>/<title>Cats</title>/<h1>Cats</h1>/<p>1 &amp; 2</p>/
session 258 Hi|200 00000000000001020000000000000007 <!doctype html>/<title>Hi</title>/<h1>Hi</h1>/
number 4294967295 Item |200 keep <!doctype html>/<title>Item 4294967295</title>/<h1>Item 4294967295</h1>/
answered 403 No|403 keep <!doctype html>/<title>No</title>/<h1>No</h1>/";

/// The piece and what it is given: `if` a test, `rule` a refusal, `reads` a row that was decoded or none. Then the
/// status and the heading of the refusal, or `on` where nothing refuses.
const REFUSALS: &str = "if yes|403 Sign in first
if no|on
rule AuctionOver|409 Auction over
rule OwnItem|409 Own item
rule BidTooLow|409 Bid too low
rule NotForSale|409 Not for sale
rule NotSold|409 Not sold
rule NotAllowed|403 Not allowed
rule AlreadyGiven|409 Already given
rule none|on
reads none|500 Bad row 5 5
reads row|on";

/// The piece and the answer to its read: `left` where no answer is left, `none` where the row is missing or the table
/// has none, and else the bytes of the row. Then what comes of it.
///
/// `row`, `or` and `no` are `asks_row`, `asks_row_or` and `asks_no_row` of category 5, `counter` asks for the counter
/// of users, and `table` lists the categories.
const READS: &str = "row left|ask 5.5
row none|404 Not there
row 0002 6869|hi
row 0003 6869|500 Bad row 5 5
row 0002 6869 00|500 Bad row 5 5
row|500 Bad row 5 5
or left|ask 5.5
or none|409 No such category
or 0002 6869|hi
or 0002 ff69|500 Bad row 5 5
no left|ask 5.5
no none|on
no 0002 6869|409 Name taken
no 0003 6869|500 Bad row 5 5
counter left|ask 3.1
counter none|0
counter 0000000000000102|258
counter 00000000000102|500 Bad row 3 1
table left|ask 5
table none|0
table 0002 6869|1";

/// The bytes of a page, with a slash for each line feed.
fn add_page(rt: &impl Abort, words: &mut String, page: &[u8]) {
    let text = std::str::from_utf8(page).expect(rt, "a page");
    add_word(rt, words, "");
    for line in text.lines() {
        words.push_str(line).expect(rt, line);
        words.push('/').expect(rt, line);
    }
}

fn add_done(rt: &impl Abort, words: &mut String, done: &DoneText) {
    add_number(rt, words, u64::from(done.status));
    match &done.session {
        SessionChange::Keep => add_word(rt, words, "keep"),
        SessionChange::Set(value) => add_hex(rt, words, value.as_slice()),
    }
    add_page(rt, words, done.page.as_slice());
}

fn done_of(rt: &impl Abort, alloc: Global, row: &str) -> DoneText {
    let (piece, rest) = first_word(row);
    let (amount, heading) = cut(rt, rest, ' ');
    let bytes = heading.as_bytes();
    let found = match piece {
        "says" => says(alloc, short_number(rt, amount), bytes),
        "shows" => {
            let mut lines = PageLineList::new(alloc);
            let text = FieldText::copied(alloc, b"1 & 2").expect(rt, row);
            lines.push(PageLine::Para { text }).expect(rt, row);
            shows(alloc, short_number(rt, amount), bytes, &lines)
        }
        "session" => {
            let lines = PageLineList::new(alloc);
            shows_with_session(alloc, small_number(rt, amount), Moment(7), bytes, &lines)
        }
        "number" => says_number(alloc, heading, small_number(rt, amount)),
        _ => {
            let done = says(alloc, short_number(rt, amount), bytes).expect(rt, row);
            let outcome = answered(alloc, done);
            expect_so(rt, outcome.writes.as_slice().is_empty(), row);
            Ok(outcome.done)
        }
    };
    found.expect(rt, row)
}

fn expect_page(rt: &impl Abort, alloc: Global, row: &str) {
    let (asked, want) = cut(rt, row, '|');
    let done = done_of(rt, alloc, asked);
    let mut words = String::new(alloc);
    add_done(rt, &mut words, &done);
    expect_words(rt, &words, want, row);
}

/// The answer of a heading alone.
fn add_heading(rt: &impl Abort, words: &mut String, want: &str) {
    let (status, heading) = first_word(want);
    add_word(rt, words, status);
    add_word(rt, words, "keep <!doctype html>/<title>");
    for part in [heading, "</title>/<h1>", heading, "</h1>/"] {
        words.push_str(part).expect(rt, want);
    }
}

/// What is wanted, in words: a refusal has its page.
fn add_wanted(rt: &impl Abort, words: &mut String, want: &str) {
    match want.as_bytes().first() {
        Some(b'4' | b'5') if want.contains(' ') => add_heading(rt, words, want),
        _ => add_word(rt, words, want),
    }
}

/// Adds why a piece stopped.
fn add_stop(rt: &impl Abort, words: &mut String, stop: &Stop) {
    match stop {
        Stop::Ask(ReadMark::Row(id)) => {
            add_word(rt, words, "ask");
            add_pair(rt, words, u64::from(id.table), ".", id.key);
        }
        Stop::Ask(ReadMark::Table(table)) => {
            add_word(rt, words, "ask");
            add_number(rt, words, u64::from(*table));
        }
        Stop::Refuse(done) => add_done(rt, words, done),
        Stop::OutOfMemory => add_word(rt, words, "out of memory"),
    }
}

fn rule_of(rt: &impl Abort, word: &str) -> Option<RuleRefusal> {
    match word {
        "none" => None,
        "AuctionOver" => Some(RuleRefusal::AuctionOver),
        "OwnItem" => Some(RuleRefusal::OwnItem),
        "BidTooLow" => Some(RuleRefusal::BidTooLow),
        "NotForSale" => Some(RuleRefusal::NotForSale),
        "NotSold" => Some(RuleRefusal::NotSold),
        "NotAllowed" => Some(RuleRefusal::NotAllowed),
        "AlreadyGiven" => Some(RuleRefusal::AlreadyGiven),
        _ => None.expect(rt, word),
    }
}

/// A row that was decoded, or none: `decoded` gives it or refuses.
fn reads_one(alloc: Global, word: &str) -> Result<(), Stop> {
    let found = if word == "row" { Some(()) } else { None };
    decoded(alloc, category_id(5), found)
}

fn expect_refusal(rt: &impl Abort, alloc: Global, row: &str) {
    let (asked, want) = cut(rt, row, '|');
    let (piece, word) = cut(rt, asked, ' ');
    let found = match piece {
        "if" => refuses_if(alloc, word == "yes", 403, b"Sign in first"),
        "rule" => refuses_by(alloc, rule_of(rt, word)),
        _ => reads_one(alloc, word),
    };
    let mut words = String::new(alloc);
    match found {
        Ok(()) => add_word(rt, &mut words, "on"),
        Err(stop) => add_stop(rt, &mut words, &stop),
    }
    let mut wanted = String::new(alloc);
    add_wanted(rt, &mut wanted, want);
    expect_words(rt, &words, wanted.trim_start(), row);
}

/// A row with the bytes that words spell in hexadecimal.
fn row_of(rt: &impl Abort, alloc: Global, id: RowId, hex: &str) -> RowWrite {
    let bytes = hex_bytes(rt, alloc, hex);
    RowWrite {
        id,
        bytes: RowBytes::copied(alloc, &bytes).expect(rt, hex),
    }
}

/// The answer to a read of a row.
fn row_answer(rt: &impl Abort, alloc: Global, hex: &str) -> Answer {
    if hex == "none" {
        return Answer::Row(None);
    }
    Answer::Row(Some(row_of(rt, alloc, category_id(5), hex).bytes))
}

/// The answer to a list of the categories.
fn table_answer(rt: &impl Abort, alloc: Global, hex: &str) -> Answer {
    let mut rows = RowList::new(alloc);
    if hex != "none" {
        let row = row_of(rt, alloc, category_id(5), hex);
        rows.push(row).expect(rt, hex);
    }
    Answer::Rows(rows)
}

/// The answers to the enters of two components, to the read, and to one read more.
fn answers_of(rt: &impl Abort, alloc: Global, piece: &str, hex: &str) -> AnswerList {
    let mut answers = AnswerList::new(alloc);
    answers.push(Answer::Entered).expect(rt, hex);
    answers.push(Answer::Entered).expect(rt, hex);
    if hex != "left" {
        for _ in 0..2 {
            let answer = if piece == "table" {
                table_answer(rt, alloc, hex)
            } else {
                row_answer(rt, alloc, hex)
            };
            answers.push(answer).expect(rt, hex);
        }
    }
    answers
}

/// Adds the name of the category that was read.
fn add_category(rt: &impl Abort, words: &mut String, found: Result<CategoryRow, Stop>) {
    match found {
        Ok(category) => add_text(rt, words, category.name.as_slice()),
        Err(stop) => add_stop(rt, words, &stop),
    }
}

fn add_absence(rt: &impl Abort, words: &mut String, found: Result<(), Stop>) {
    match found {
        Ok(()) => add_word(rt, words, "on"),
        Err(stop) => add_stop(rt, words, &stop),
    }
}

fn add_count(rt: &impl Abort, words: &mut String, found: Result<u64, Stop>) {
    match found {
        Ok(count) => add_number(rt, words, count),
        Err(stop) => add_stop(rt, words, &stop),
    }
}

fn add_table(rt: &impl Abort, words: &mut String, found: Result<&[RowWrite], Stop>) {
    match found {
        Ok(rows) => add_number(rt, words, rows.len() as u64),
        Err(stop) => add_stop(rt, words, &stop),
    }
}

/// Adds what a piece comes to with these reads.
fn add_read(
    rt: &impl Abort,
    alloc: Global,
    words: &mut String,
    piece: &str,
    reads: &mut Reads<'_>,
) {
    let id = category_id(5);
    match piece {
        "row" => add_category(rt, words, asks_row(alloc, reads, id)),
        "or" => add_category(
            rt,
            words,
            asks_row_or(alloc, reads, id, 409, b"No such category"),
        ),
        "no" => add_absence(
            rt,
            words,
            asks_no_row::<CategoryRow>(alloc, reads, id, 409, b"Name taken"),
        ),
        "counter" => add_count(rt, words, asks_counter(alloc, reads, users_counter())),
        _ => add_table(rt, words, asks_table(reads, CATEGORY_TABLE)),
    }
}

/// Asserts that one answer is left, or none.
fn expect_rest(rt: &impl Abort, reads: &mut Reads<'_>, is_left: bool, row: &str) {
    let one = reads.take().is_some();
    let more = reads.take().is_some();
    expect_so(rt, one == is_left && !more, row);
}

fn expect_read(rt: &impl Abort, alloc: Global, row: &str) {
    let (asked, want) = cut(rt, row, '|');
    let (piece, hex) = first_word(asked);
    let answers = answers_of(rt, alloc, piece, hex);
    let mut reads = Reads::new(answers.as_slice());
    let mut words = String::new(alloc);
    add_read(rt, alloc, &mut words, piece, &mut reads);
    let mut wanted = String::new(alloc);
    add_wanted(rt, &mut wanted, want);
    expect_words(rt, &words, wanted.trim_start(), row);
    expect_rest(rt, &mut reads, hex != "left", row);
}

/// Answers and refusals have their pages, and reads take their answers.
#[test]
fn pieces_answer_refuse_and_read(rt: HostRuntime) {
    for row in ANSWERS.split('\n') {
        expect_page(&rt, rt.alloc(), row);
    }
    for row in REFUSALS.split('\n') {
        expect_refusal(&rt, rt.alloc(), row);
    }
    for row in READS.split('\n') {
        expect_read(&rt, rt.alloc(), row);
    }
}

fn add_written(rt: &impl Abort, words: &mut String, write: &RowWrite) {
    add_pair(rt, words, u64::from(write.id.table), ".", write.id.key);
    add_hex(rt, words, write.bytes.as_slice());
}

/// Writes the counter of users and category 5.
fn write_two(rt: &impl Abort, alloc: Global, writes: &mut WriteList) {
    write_counter(alloc, writes, users_counter(), 258).expect(rt, "a counter");
    let name = FieldText::copied(alloc, b"hi").expect(rt, "a name");
    let category = CategoryRow { name };
    assert!(rt; is_category(&category));
    write_row(alloc, writes, category_id(5), &category).expect(rt, "a row");
}

fn expect_written(rt: &impl Abort, alloc: Global) {
    let mut writes = WriteList::new(alloc);
    write_two(rt, alloc, &mut writes);
    let mut words = String::new(alloc);
    for write in writes.as_slice() {
        add_written(rt, &mut words, write);
    }
    expect_words(rt, &words, "3.1 0000000000000102 5.5 00026869", "writes");
}

/// A count, whether it is the last number, and the next one.
const COUNTS: &str = "0 no 1
257 no 258
4294967294 no 4294967295
4294967295 yes
4294967296 yes";

fn add_next(rt: &impl Abort, words: &mut String, count: u64) {
    if is_last_number(count) {
        add_word(rt, words, "yes");
    } else {
        add_word(rt, words, "no");
        add_number(rt, words, u64::from(next_number(count)));
    }
}

fn expect_next(rt: &impl Abort, alloc: Global, row: &str) {
    let (count, want) = cut(rt, row, ' ');
    let mut words = String::new(alloc);
    add_next(rt, &mut words, number(rt, count));
    expect_words(rt, &words, want, row);
}

/// Rows are written in order, and numbers follow each other.
#[test]
fn rows_are_written_under_new_numbers(rt: HostRuntime) {
    expect_written(&rt, rt.alloc());
    for row in COUNTS.split('\n') {
        expect_next(&rt, rt.alloc(), row);
    }
}
