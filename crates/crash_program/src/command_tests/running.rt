//! Runs a command over an outside in memory and a keeper.

use crate::command_tests::words::{cut, lines, number};
use crash_base::{InputBytes, Items, WordText};
use drive_engine::run_command;
use outside::{BytesSink, BytesSource, CallList, Keeper, SizeList};
use std::alloc::Global;
use std::process::Abort;

/// The status of a command, and what it wrote and reported.
#[derive(Drop)]
pub struct Ran {
    pub status: u8,
    pub out: BytesSink,
    pub errors: BytesSink,
}

/// An outside that never fails and is read at once.
pub const SURE: &str = "0 0 0 0";

/// A command of these words, which have spaces between them, over a text and an outside `PIECE READ WRITE REPORT`: the
/// size of the pieces that are read, 0 for all at once, and the numbers of the read, the write and the report that
/// fail, 0 for none. A failure prints the row.
#[derive(Clone, Copy)]
pub struct Case<'a> {
    pub row: &'a str,
    pub words: &'a str,
    pub text: &'a str,
    pub outside: &'a str,
}

/// A list of one call.
pub fn one_call(rt: &impl Abort, alloc: Global, call: u64) -> CallList {
    let mut calls = CallList::new(alloc);
    calls.push(call).expect(rt, "a call");
    calls
}

/// A text in memory, read in pieces of this size, of whose reads one fails.
pub fn source_of(rt: &impl Abort, alloc: Global, text: &str, piece: u64, call: u64) -> BytesSource {
    let text = lines(rt, alloc, text);
    let mut pieces = SizeList::new(alloc);
    if piece > 0 {
        for _ in text.as_bytes() {
            pieces.push(piece).expect(rt, "a piece");
        }
    }
    let bytes = InputBytes::copied(alloc, text.as_bytes()).expect(rt, "a text");
    BytesSource::new(bytes, pieces, one_call(rt, alloc, call))
}

/// Room for so many bytes, of whose writes one fails.
pub fn sink_of(rt: &impl Abort, alloc: Global, room: u64, call: u64) -> BytesSink {
    BytesSink::new(alloc, room, one_call(rt, alloc, call)).expect(rt, "room")
}

/// The words of a command line, which has one space between them. An empty line has none.
pub fn words_of(rt: &impl Abort, alloc: Global, text: &str) -> Items<WordText> {
    let mut all = Items::new(alloc);
    if !text.is_empty() {
        for word in text.split(' ') {
            let word = WordText::copied(alloc, word.as_bytes()).expect(rt, "a word");
            all.push(word).expect(rt, "a word");
        }
    }
    all
}

/// Runs a command, and hands the keeper back.
pub fn run<K: Keeper + Drop>(rt: &impl Abort, alloc: Global, case: Case, keeper: K) -> (Ran, K) {
    let (piece, rest) = cut(rt, case.outside, ' ');
    let (read, rest) = cut(rt, rest, ' ');
    let (write, report) = cut(rt, rest, ' ');
    let words = words_of(rt, alloc, case.words);
    let mut input = source_of(rt, alloc, case.text, number(rt, piece), number(rt, read));
    let mut out = sink_of(rt, alloc, 65_536, number(rt, write));
    let mut errors = sink_of(rt, alloc, 256, number(rt, report));
    let words = words.as_slice();
    let (status, keeper) = run_command(alloc, words, &mut input, &mut out, &mut errors, keeper);
    let ran = Ran {
        status,
        out,
        errors,
    };
    (ran, keeper)
}
