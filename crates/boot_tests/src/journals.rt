//! A journal's entries, and what it answers of them.

ghost use Rattle.commit_journal.specs.Journal.{IsScope};

use crate::boot_fixtures::{LIMITS, boot_of, request};
use crate::boot_steps::call;
use crate::boots::{begin_reboot, end_reboot};
use crate::words::{
    add_number, add_pair, add_row, add_word, cut, expect_so, expect_words, number, short,
};
use boot_core::Boot;
use commit_journal::{CommitEntry, Entry, FullAt, Journal};
use crash_base::{GroupNo, MAX_GROUPS, Place, Scope};
use std::alloc::Global;
use std::process::Abort;

fn add_commit(rt: &impl Abort, words: &mut String, commit: &CommitEntry) {
    add_pair(
        rt,
        words,
        u64::from(commit.request.boot),
        ":",
        commit.request.serial,
    );
    add_pair(rt, words, u64::from(commit.worker.0), "@", commit.at.0);
    for touch in commit.touched.as_slice() {
        add_pair(rt, words, u64::from(touch.group.0), "#", touch.generation);
        add_number(rt, words, touch.front.0);
    }
    for write in commit.writes.as_slice() {
        add_row(rt, words, write);
    }
}

/// Adds an entry. A commit is its request, its worker and where it began, each group with its
/// generation and the length of the journal when the call first entered it, and the rows.
fn add_entry(rt: &impl Abort, words: &mut String, entry: &Entry) {
    match entry {
        Entry::Commit(commit) => add_commit(rt, words, commit),
        Entry::Down(_) => add_word(rt, words, "down"),
        Entry::Up(_) => add_word(rt, words, "up"),
    }
}

/// Asserts what the entries are.
pub fn expect_entries(rt: &impl Abort, alloc: Global, entries: &[Entry], want: &str) {
    let mut words = String::new(alloc);
    for entry in entries {
        add_entry(rt, &mut words, entry);
    }
    expect_words(rt, &words, want, "the journal");
}

/// Asserts that a journal has room for two entries.
fn expect_two_entries(rt: &impl Abort, alloc: Global) {
    let mut journal = Journal::new(alloc, LIMITS);
    journal.reserve(2).expect(rt, "two entries");
    assert!(rt; journal.full_for(2, 0).is_none());
    let down = journal.push(Entry::Down(Scope::App));
    let up = journal.push(Entry::Up(Scope::App));
    expect_so(rt, down.0 == 0 && up.0 == 1, "places");
    expect_entries(rt, alloc, journal.entries(), "down up");
}

/// The scope that a text spells: the number of a group, or `app`.
fn scope(rt: &impl Abort, text: &str) -> Scope
    ensures { IsScope result }
{
    if text == "app" {
        return Scope::App;
    }
    let group = short(rt, text);
    assert!(rt; group < MAX_GROUPS);
    Scope::Group(GroupNo(group))
}

/// Commits a call of a request, which does nothing.
fn commit_nothing(rt: &impl Abort, alloc: Global, boot: &mut Boot, serial: u64) {
    let mut words = String::new(alloc);
    call(rt, alloc, &mut words, boot, serial, 4, "");
}

/// Adds the entry that a word spells: `c70` is a commit of request 70, `d2` a Down of group 2, `dapp` one of the
/// application, and `u1` the Up of the Down at 1.
fn do_word(rt: &impl Abort, alloc: Global, boot: &mut Boot, word: &str) {
    if let Some(serial) = word.strip_prefix("c") {
        commit_nothing(rt, alloc, boot, number(rt, serial));
    } else if let Some(down) = word.strip_prefix("u") {
        end_reboot(rt, boot, Place(number(rt, down)));
    } else {
        begin_reboot(rt, boot, scope(rt, word.trim_start_matches('d')));
    }
}

fn add_place(rt: &impl Abort, words: &mut String, place: Option<Place>) {
    match place {
        Some(place) => add_number(rt, words, place.0),
        None => add_word(rt, words, "none"),
    }
}

fn add_line(rt: &impl Abort, alloc: Global, words: &mut String, journal: &Journal, place: Place) {
    assert!(rt; place.0 < journal.len());
    let line = journal.print_entry(alloc, place).expect(rt, "a line");
    add_word(rt, words, line.as_str());
}

fn add_found(rt: &impl Abort, words: &mut String, entry: Option<&Entry>) {
    match entry {
        Some(entry) => add_entry(rt, words, entry),
        None => add_word(rt, words, "none"),
    }
}

/// Adds how often a group was rebooted, and the Down that keeps it down.
fn add_group(rt: &impl Abort, words: &mut String, journal: &Journal, group: u16) {
    assert!(rt; group < MAX_GROUPS);
    add_number(rt, words, journal.generation(GroupNo(group)));
    add_place(rt, words, journal.down_of(GroupNo(group)));
}

fn add_full(rt: &impl Abort, words: &mut String, full: Option<FullAt>) {
    match full {
        Some(full) => add_pair(rt, words, full.entries, "/", full.bytes),
        None => add_word(rt, words, "room"),
    }
}

/// Adds whether so many entries and bytes have room.
fn add_room(rt: &impl Abort, words: &mut String, journal: &Journal, asked: &str) {
    let (entries, bytes) = cut(rt, asked, ' ');
    let full = journal.full_for(number(rt, entries), number(rt, bytes));
    add_full(rt, words, full);
}

fn add_answer(
    rt: &impl Abort,
    alloc: Global,
    words: &mut String,
    journal: &Journal,
    question: &str,
) {
    let (asked, rest) = cut(rt, question, ' ');
    match asked {
        "line" => add_line(rt, alloc, words, journal, Place(number(rt, rest))),
        "get" => add_found(rt, words, journal.get(Place(number(rt, rest)))),
        "group" => add_group(rt, words, journal, short(rt, rest)),
        "undone" => add_place(rt, words, journal.undone_of(scope(rt, rest))),
        "commit" => add_place(rt, words, journal.commit_of(request(number(rt, rest)))),
        _ => add_room(rt, words, journal, rest),
    }
}

fn expect_answer(rt: &impl Abort, alloc: Global, journal: &Journal, row: &str) {
    let (question, want) = cut(rt, row, '|');
    let mut words = String::new(alloc);
    add_answer(rt, alloc, &mut words, journal, question);
    expect_words(rt, &words, want, row);
}

/// A row has a question to the journal of these entries, and after a bar the answer.
fn expect_answers(rt: &impl Abort, alloc: Global, entries: &str, table: &str) {
    let mut boot = boot_of(rt, alloc, "+a +b +c 3=1 4=1");
    for word in entries.split(' ') {
        do_word(rt, alloc, &mut boot, word);
    }
    for row in table.split('\n') {
        expect_answer(rt, alloc, boot.journal(), row);
    }
    drop(boot);
}

/// Eight entries. The Down of group 2 and that of the application have their Ups, and that of group 1 has not.
const ENTRIES: &str = "c70 d2 c71 u1 dapp u4 d1 c72";

const ANSWERS: &str = "line 0|0 commit 1:70 writes 0
line 1|1 down group 2
line 5|5 up app
get 2|1:71 4@2
get 3|up
get 8|none
group 0|1 none
group 1|2 6
group 2|2 none
undone 1|6
undone 2|none
undone app|none
commit 70|0
commit 71|2
commit 72|7
commit 73|none
room 1 100|room
room 1 101|9/0
room 2 0|9/0";

#[test]
fn a_journal_has_room_and_answers_of_its_entries(rt: HostRuntime) {
    expect_two_entries(&rt, rt.alloc());
    expect_answers(&rt, rt.alloc(), ENTRIES, ANSWERS);
}
