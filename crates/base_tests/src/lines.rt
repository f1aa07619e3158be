//! What is read of a line, in words.

use crate::words::{add_bytes, add_number, add_text, add_word, cut, expect_words, number};
use crash_base::{ComponentName, FaultKind};
use scenario_text::{
    BootLine, CallLine, CureLevel, Freed, HeadLine, Line, NameList, SeatLine, SessionLine,
    read_line,
};
use std::alloc::Global;
use std::process::Abort;

/// Adds the word of a line's form, and a number.
fn add_numbered(rt: &impl Abort, words: &mut String, form: &str, number: u64) {
    add_word(rt, words, form);
    add_number(rt, words, number);
}

/// Adds the word of a line's form, and a component or a text.
fn add_named(rt: &impl Abort, words: &mut String, form: &str, name: &[u8]) {
    add_word(rt, words, form);
    add_text(rt, words, " ", name);
}

/// Adds the word of a line's form, and a component and the one that it refers to.
fn add_reference(
    rt: &impl Abort,
    words: &mut String,
    form: &str,
    name: &ComponentName,
    other: &ComponentName,
) {
    add_named(rt, words, form, name.as_slice());
    add_text(rt, words, " ", other.as_slice());
}

/// Adds the word of a line's form, and two numbers.
fn add_pair(rt: &impl Abort, words: &mut String, form: &str, first: u64, second: u64) {
    add_numbered(rt, words, form, first);
    add_number(rt, words, second);
}

/// Adds the word of a line's form, and three numbers.
fn add_triple(rt: &impl Abort, words: &mut String, form: &str, numbers: (u64, u64, u64)) {
    add_pair(rt, words, form, numbers.0, numbers.1);
    add_number(rt, words, numbers.2);
}

/// The word for how a pass is spent.
fn freed_word(freed: Freed) -> &'static str {
    match freed {
        Freed::Answered => "answered",
        Freed::Silent => "silent",
    }
}

/// Adds the form of a line about sessions, and what its words say.
fn add_session_line(rt: &impl Abort, words: &mut String, line: &SessionLine) {
    match line {
        SessionLine::Now(moment) => add_numbered(rt, words, "now", *moment),
        SessionLine::Write(key, bytes) => {
            add_numbered(rt, words, "write", *key);
            add_bytes(rt, words, bytes.as_slice());
        }
        SessionLine::Fetch(key) => add_numbered(rt, words, "fetch", *key),
        SessionLine::Cookie(key) => add_numbered(rt, words, "cookie", *key),
        SessionLine::Present(text) => add_named(rt, words, "present", text.as_slice()),
        SessionLine::Lose(brick, count) => add_pair(rt, words, "lose", *brick, *count),
        SessionLine::Mute(brick, count) => add_pair(rt, words, "mute", *brick, *count),
        SessionLine::Repeat(brick, index) => add_pair(rt, words, "repeat", *brick, *index),
        SessionLine::Crash(brick) => add_numbered(rt, words, "crash", *brick),
        SessionLine::Sweep(brick, None) => add_numbered(rt, words, "sweep", *brick),
        SessionLine::Sweep(brick, Some(moment)) => add_pair(rt, words, "sweep", *brick, *moment),
        SessionLine::Values(brick) => add_numbered(rt, words, "values", *brick),
        SessionLine::Windows => add_word(rt, words, "windows"),
        SessionLine::Hold(brick) => add_numbered(rt, words, "hold", *brick),
        SessionLine::Free(brick, freed) => {
            add_numbered(rt, words, "free", *brick);
            add_word(rt, words, freed_word(*freed));
        }
    }
}

/// The word for what a component does that fails.
fn kind_word(kind: FaultKind) -> &'static str {
    match kind {
        FaultKind::Raise => "raise",
        FaultKind::Hang => "hang",
        FaultKind::Leak => "leak",
    }
}

/// The word for what cures a fault.
fn level_word(level: CureLevel) -> &'static str {
    match level {
        CureLevel::Group => "group",
        CureLevel::App => "app",
        CureLevel::Process => "process",
    }
}

/// Adds the form of a line of the head, and what its words say.
fn add_head_line(rt: &impl Abort, words: &mut String, line: &HeadLine) {
    match line {
        HeadLine::Component(name) => add_named(rt, words, "component", name.as_slice()),
        HeadLine::Hard(name, other) => add_reference(rt, words, "hard", name, other),
        HeadLine::Soft(name, other) => add_reference(rt, words, "soft", name, other),
        HeadLine::Owns(name, table) => {
            add_named(rt, words, "owns", name.as_slice());
            add_number(rt, words, *table);
        }
        HeadLine::Fault(name, after, kind, level) => {
            add_named(rt, words, "fault", name.as_slice());
            add_number(rt, words, *after);
            add_word(rt, words, kind_word(*kind));
            add_word(rt, words, level_word(*level));
        }
        HeadLine::Limit(entries, bytes) => add_pair(rt, words, "limit", *entries, *bytes),
        HeadLine::Bricks(bricks, most, least) => {
            add_triple(rt, words, "bricks", (*bricks, *most, *least))
        }
        HeadLine::Key(bytes) => {
            add_word(rt, words, "key");
            add_bytes(rt, words, bytes.as_slice());
        }
        HeadLine::Site => add_word(rt, words, "site"),
    }
}

/// Adds the form of a line of a live call, its caller, and what its further words say.
fn add_call_line(rt: &impl Abort, words: &mut String, caller: u64, line: &CallLine) {
    match line {
        CallLine::Enter(name) => {
            add_numbered(rt, words, "enter", caller);
            add_text(rt, words, " ", name.as_slice());
        }
        CallLine::Exit => add_numbered(rt, words, "exit", caller),
        CallLine::Read(table, key) => add_triple(rt, words, "read", (caller, *table, *key)),
        CallLine::List(table) => add_pair(rt, words, "list", caller, *table),
        CallLine::Put(table, key, bytes) => {
            add_triple(rt, words, "put", (caller, *table, *key));
            add_bytes(rt, words, bytes.as_slice());
        }
    }
}

/// Adds the word of a report, and each of its names.
fn add_report(rt: &impl Abort, words: &mut String, names: &NameList) {
    add_word(rt, words, "report");
    for name in names.as_slice() {
        add_text(rt, words, " ", name.as_slice());
    }
}

/// Adds the form of a line over the boot, and what its words say.
fn add_boot_line(rt: &impl Abort, words: &mut String, line: &BootLine) {
    match line {
        BootLine::Begin(caller) => add_numbered(rt, words, "begin", *caller),
        BootLine::Drop(caller) => add_numbered(rt, words, "drop", *caller),
        BootLine::Down(word) => add_named(rt, words, "down", word.as_slice()),
        BootLine::Up(word) => add_named(rt, words, "up", word.as_slice()),
        BootLine::Reboot(word) => add_named(rt, words, "reboot", word.as_slice()),
        BootLine::Table => add_word(rt, words, "table"),
        BootLine::Journal => add_word(rt, words, "journal"),
        BootLine::Report(names) => add_report(rt, words, names),
    }
}

/// Adds the form of a line about connections, and what its words say.
fn add_seat_line(rt: &impl Abort, words: &mut String, line: &SeatLine) {
    match line {
        SeatLine::Conn(seat) => add_numbered(rt, words, "conn", *seat),
        SeatLine::Bytes(seat, bytes) => {
            add_numbered(rt, words, "bytes", *seat);
            add_bytes(rt, words, bytes.as_slice());
        }
        SeatLine::End(seat) => add_numbered(rt, words, "end", *seat),
        SeatLine::Step(seat) => add_numbered(rt, words, "step", *seat),
        SeatLine::Run(seat) => add_numbered(rt, words, "run", *seat),
    }
}

/// Adds a line: `event` where it is one, its form, and what its words say.
fn add_line(rt: &impl Abort, words: &mut String, line: &Line) {
    if line.is_event() {
        add_word(rt, words, "event");
    }
    match line {
        Line::Pass => add_word(rt, words, "pass"),
        Line::Head(line) => add_head_line(rt, words, line),
        Line::Call(caller, line) => add_call_line(rt, words, *caller, line),
        Line::Commit(caller) => add_numbered(rt, words, "commit", *caller),
        Line::Boot(line) => add_boot_line(rt, words, line),
        Line::Reopen => add_word(rt, words, "reopen"),
        Line::Session(line) => add_session_line(rt, words, line),
        Line::Seat(line) => add_seat_line(rt, words, line),
    }
}

/// Asserts what is read of a line.
fn expect_line(rt: &impl Abort, alloc: Global, line: &str, want: &str) {
    let mut words = String::new(alloc);
    match read_line(alloc, line.as_bytes()).expect(rt, line) {
        Some(line) => add_line(rt, &mut words, &line),
        None => add_word(rt, &mut words, "refused"),
    }
    expect_words(rt, &words, want, line);
}

/// Asserts what is read of the lines of a table. A row has what is read, and after a bar the line.
pub fn expect_lines(rt: &impl Abort, alloc: Global, table: &str) {
    for row in table.split('\n') {
        let (want, line) = cut(rt, row, '|');
        expect_line(rt, alloc, line, want);
    }
}

/// Asserts that lines, which have slashes between them, are refused.
pub fn expect_refused(rt: &impl Abort, alloc: Global, lines: &str) {
    for line in lines.split('/') {
        expect_line(rt, alloc, line, "refused");
    }
}

/// How many bytes a line gives, or how many names a report has: 0 where it is another line.
fn given(line: &Line) -> usize {
    match line {
        Line::Boot(BootLine::Down(word) | BootLine::Up(word) | BootLine::Reboot(word)) =>
            word.len(),
        Line::Boot(BootLine::Report(names)) => names.len(),
        Line::Call(_, CallLine::Put(_, _, bytes)) => bytes.as_slice().len(),
        Line::Head(HeadLine::Key(bytes)) => bytes.as_slice().len(),
        Line::Session(SessionLine::Write(_, bytes)) => bytes.as_slice().len(),
        Line::Session(SessionLine::Present(text)) => text.len(),
        Line::Seat(SeatLine::Bytes(_, bytes)) => bytes.as_slice().len(),
        _ => 0,
    }
}

/// Adds how many bytes or names a line gives.
fn add_length(rt: &impl Abort, alloc: Global, words: &mut String, line: &str) {
    match read_line(alloc, line.as_bytes()).expect(rt, line) {
        Some(line) => add_number(rt, words, given(&line) as u64),
        None => add_word(rt, words, "refused"),
    }
}

/// A text, and then another one a number of times.
fn filled(rt: &impl Abort, alloc: Global, text: &str, fill: &str, times: u64) -> String {
    let mut line = String::from_str(alloc, text).expect(rt, text);
    for _ in 0..times {
        line.push_str(fill).expect(rt, text);
    }
    line
}

/// A row has, between bars, how a line begins, what it goes on with and how often, and how many
/// bytes or names it gives.
fn expect_length(rt: &impl Abort, alloc: Global, row: &str) {
    let (text, rest) = cut(rt, row, '|');
    let (fill, rest) = cut(rt, rest, '|');
    let (times, want) = cut(rt, rest, '|');
    let line = filled(rt, alloc, text, fill, number(rt, times));
    let mut words = String::new(alloc);
    add_length(rt, alloc, &mut words, &line);
    expect_words(rt, &words, want, row);
}

/// Asserts how many bytes or names the lines of a table's rows give.
pub fn expect_lengths(rt: &impl Abort, alloc: Global, table: &str) {
    for row in table.split('\n') {
        expect_length(rt, alloc, row);
    }
}
