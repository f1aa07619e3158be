//! The command `serve`, up to where it begins to serve: its words, its key, and why it does not start.

use crate::command_tests::running::{sink_of, source_of, words_of};
use crate::command_tests::words::{cut, expect_number, expect_text, lines, number, times};
use crash_base::Items;
use outside::BytesSink;
use serve_command::{KeyFault, ServeWords, StartFault, read_key, report_fault, serve, serve_words};
use std::alloc::Global;
use std::process::Abort;

/// Words with one space between them, and what they say: as many words behind a bar, or none where they spell no
/// `serve`.
const WORDS: &str = "serve 8080 shop.db key 8|8080 shop.db key 8
serve 1 a b 1|1 a b 1
serve 65535 a b 64|65535 a b 64
serve 80 serve 1 2|80 serve 1 2
serve 80  b 2|80  b 2
serve 80 a  2|80 a  2
serve 0 a b 8|
serve 65536 a b 8|
serve 65617 a b 8|
serve 80 a b 0|
serve 80 a b 65|
serve 80 a b 257|
serve 080 a b 8|
serve 80 a b 08|
serve +80 a b 8|
serve -80 a b 8|
serve 80 a b 8.|
serve 80 a b |
serve  a b 8|
serve 18446744073709551696 a b 8|
serve 80 a b 18446744073709551624|
serve 80 a b|
serve 80 a b 8 8|
serve|
|
Serve 80 a b 8|
server 80 a b 8|
drive 80 a b 8|
80 a b 8|
workload 7 1|";

/// What words say, with one space between them.
fn text_of(rt: &impl Abort, alloc: Global, said: &ServeWords<'_>) -> String {
    let file = std::str::from_utf8(said.file).expect(rt, "a file");
    let key_file = std::str::from_utf8(said.key_file).expect(rt, "a file of the key");
    format!(in alloc; "{} {file} {key_file} {}", said.port, said.workers).expect(rt, "a text")
}

#[test]
fn words_of_serve_say_what_is_served(rt: HostRuntime) {
    let alloc = rt.alloc();
    for row in WORDS.split('\n') {
        let (words, want) = cut(&rt, row, '|');
        let words = words_of(&rt, alloc, words);
        match serve_words(words.as_slice()) {
            Some(said) => expect_text(&rt, &text_of(&rt, alloc, &said), want, row),
            None => expect_text(&rt, "", want, row),
        }
    }
}

/// How long a key is, the size of the pieces it comes in, the number of the read that fails, and what is answered.
const KEYS: &str = "0 1 0|length
15 1 0|length
16 1 0|a key
16 7 0|a key
1024 0 0|a key
1024 100 0|a key
1025 1 0|length
1025 0 0|length
5000 0 0|length
32 1 33|failed
32 1 1|failed";

/// The text of what is answered for a key of so many bytes.
fn key_answer(
    rt: &impl Abort,
    alloc: Global,
    length: u64,
    piece: u64,
    failing: u64,
) -> &'static str {
    let text = times(rt, alloc, "k", length as usize);
    match read_key(alloc, &mut source_of(rt, alloc, &text, piece, failing)) {
        Ok(key) => {
            assert!(rt; key.as_slice() == text.as_bytes());
            "a key"
        }
        Err(KeyFault::Length) => "length",
        Err(KeyFault::Failed) => "failed",
        Err(KeyFault::OutOfMemory) => "out of memory",
    }
}

#[test]
fn keys_have_16_to_1024_bytes(rt: HostRuntime) {
    for row in KEYS.split('\n') {
        let (given, want) = cut(&rt, row, '|');
        let (length, rest) = cut(&rt, given, ' ');
        let (piece, failing) = cut(&rt, rest, ' ');
        let length = number(&rt, length);
        let found = key_answer(
            &rt,
            rt.alloc(),
            length,
            number(&rt, piece),
            number(&rt, failing),
        );
        expect_text(&rt, found, want, row);
    }
}

/// Asserts that this status was answered and these lines were told.
fn expect_told(rt: &impl Abort, alloc: Global, status: u8, told: &BytesSink, want: &str) {
    let (number_wanted, lines_wanted) = cut(rt, want, '|');
    expect_number(rt, u64::from(status), number(rt, number_wanted), want);
    let told = std::str::from_utf8(told.as_slice()).expect(rt, want);
    expect_text(rt, told, &lines(rt, alloc, lines_wanted), want);
}

/// Asserts what is told of a fault, where the write of this number fails.
fn expect_report(rt: &impl Abort, alloc: Global, fault: &StartFault, failing: u64, want: &str) {
    let mut errors = sink_of(rt, alloc, 256, failing);
    let status = report_fault(&mut errors, fault);
    expect_told(rt, alloc, status, &errors, want);
}

/// A reason.
fn reason(rt: &impl Abort, alloc: Global) -> Items<u8> {
    Items::copied(alloc, b"key: short\n").expect(rt, "a reason")
}

#[test]
fn faults_have_a_reason_and_a_line(rt: HostRuntime) {
    let alloc = rt.alloc();
    let refused = StartFault::KeyRefused(reason(&rt, alloc));
    expect_report(&rt, alloc, &refused, 0, "13|key: short;key refused;");
    expect_report(&rt, alloc, &refused, 1, "13|");
    expect_report(&rt, alloc, &refused, 2, "13|key: short;");
    let failed = StartFault::StartFailed(reason(&rt, alloc));
    expect_report(&rt, alloc, &failed, 0, "14|key: short;start failed;");
    let unsaid = StartFault::StartFailed(Items::new(alloc));
    expect_report(&rt, alloc, &unsaid, 0, "14|start failed;");
    expect_report(&rt, alloc, &StartFault::OutOfMemory, 0, "9|out of memory;");
}

/// Words behind a port, with files that every Linux has, and what they end with: no file, a folder, an empty file, one
/// that does not end; and a key, but no database.
const STARTS: &str =
    "shop.db /nowhere/key 4=14|/nowhere/key: No such file or directory (os error 2);start failed;
shop.db /dev 4=14|/dev: Is a directory (os error 21);start failed;
shop.db /dev/null 4=13|/dev/null: a key has 16 to 1024 bytes;key refused;
shop.db /dev/zero 4=13|/dev/zero: a key has 16 to 1024 bytes;key refused;
/nowhere/shop.db /proc/version 4=14|/nowhere/shop.db: No such file or directory (os error 2);start failed;
:memory: /proc/version 4=14|:memory:: it is no path of a file;start failed;
 /proc/version 4=14|: No such file or directory (os error 2);start failed;";

#[test]
fn what_is_not_opened_is_told(rt: HostRuntime) {
    let alloc = rt.alloc();
    for row in STARTS.split('\n') {
        let (words, want) = cut(&rt, row, '=');
        let words = format!(in alloc; "serve 8080 {words}").expect(&rt, row);
        let words = words_of(&rt, alloc, &words);
        let said = serve_words(words.as_slice()).expect(&rt, row);
        let (status, errors) = serve(&rt, &rt, &said, sink_of(&rt, alloc, 256, 0));
        expect_told(&rt, alloc, status, &errors, want);
    }
}
