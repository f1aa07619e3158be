//! Items in words.

use crate::words::add_hex;
use container_core::ReadMark;
use crash_base::{ComponentNo, PathList, Place};
use outcome_items::{Item, ItemOutcome};
use request_decisions::Refusal;
use request_tries::{RequestOutcome, Try, TryCause};
use send_windows::WindowFact;
use session_cookie::Cookie;
use ssm_stub::{BrickCause, Cause};
use std::alloc::Global;
use std::fmt::Write;
use std::process::Abort;

fn page_word(again: bool) -> &'static str {
    if again { "again" } else { "page" }
}

fn add_page(rt: &impl Abort, words: &mut String, place: Place, again: bool) {
    write!(words, "{} {}", page_word(again), place.0).expect(rt, "a page");
}

fn add_refusal(rt: &impl Abort, words: &mut String, refusal: Refusal) {
    match refusal {
        Refusal::NotThere => write!(words, "notthere").expect(rt, "a refusal"),
        Refusal::NotAllowed { allow } => write!(words, "notallowed {allow}").expect(
            rt,
            "a refusal",
        ),
        Refusal::Multipart => write!(words, "multipart").expect(rt, "a refusal"),
        Refusal::BadForm { field } => {
            write!(words, "badform {}", field.word()).expect(rt, "a refusal");
        }
        Refusal::StaleForm { token_boot, boot } => {
            write!(words, "staleform {token_boot} {boot}").expect(rt, "a refusal");
        }
    }
}

fn add_mark(rt: &impl Abort, words: &mut String, mark: ReadMark) {
    match mark {
        ReadMark::Row(id) => write!(words, "row {} {}", id.table, id.key).expect(rt, "a mark"),
        ReadMark::Table(table) => write!(words, "table {table}").expect(rt, "a mark"),
    }
}

/// Adds a try: where it began, why it did not commit, and where it ended.
fn add_try(rt: &impl Abort, words: &mut String, done: &Try) {
    write!(words, " / {} ", done.at.0).expect(rt, "a try");
    match done.cause {
        TryCause::Revoked(stale) => {
            write!(
                words,
                "group {} had {} now {}",
                stale.group.0, stale.had, stale.now
            )
            .expect(rt, "a try");
        }
        TryCause::Conflict { mark, newest } => {
            add_mark(rt, words, mark);
            write!(words, " newest {}", newest.0).expect(rt, "a try");
        }
    }
    write!(words, " {}", done.front.0).expect(rt, "a try");
}

fn add_tries(rt: &impl Abort, words: &mut String, word: &str, tries: &[Try]) {
    words.push_str(word).expect(rt, word);
    for done in tries {
        add_try(rt, words, done);
    }
}

/// Adds the component that failed and the number of its plan, and the components on the way to it.
fn add_failed(
    rt: &impl Abort,
    words: &mut String,
    word: &str,
    component: ComponentNo,
    fault: u16,
    path: &PathList,
) {
    write!(words, "{word} {} {fault} by", component.0).expect(rt, "an end");
    for entered in path.as_slice() {
        write!(words, " {}", entered.0).expect(rt, "a path");
    }
}

fn add_end(rt: &impl Abort, words: &mut String, end: &RequestOutcome) {
    match end {
        RequestOutcome::Page { place, again } => add_page(rt, words, *place, *again),
        RequestOutcome::Sentinel { group, down } => {
            write!(words, "sentinel {} {}", group.0, down.0).expect(rt, "an end");
        }
        RequestOutcome::Hung {
            component,
            fault,
            path,
        } => add_failed(rt, words, "hung", *component, *fault, path),
        RequestOutcome::Raised {
            component,
            fault,
            path,
        } => add_failed(rt, words, "raised", *component, *fault, path),
        RequestOutcome::Revoked(tries) => add_tries(rt, words, "revoked", tries.as_slice()),
        RequestOutcome::Conflict(tries) => add_tries(rt, words, "conflict", tries.as_slice()),
        RequestOutcome::JournalFull(full) => {
            write!(words, "full {} {}", full.entries, full.bytes).expect(rt, "an end");
        }
        RequestOutcome::KeeperFailed => words.push_str("keeper failed").expect(rt, "an end"),
    }
}

fn add_cause(rt: &impl Abort, words: &mut String, cause: &BrickCause) {
    let brick = cause.brick.0;
    match cause.cause {
        Cause::Silent => write!(words, " {brick}:silent").expect(rt, "a cause"),
        Cause::Strayed => write!(words, " {brick}:strayed").expect(rt, "a cause"),
        Cause::Full { entries, bytes } => {
            write!(words, " {brick}:full/{entries}/{bytes}").expect(rt, "a cause");
        }
        Cause::Crashed { incarnation } => {
            write!(words, " {brick}:crashed/{incarnation}").expect(rt, "a cause");
        }
        Cause::Swept { moment } => {
            write!(words, " {brick}:swept/{}", moment.0).expect(rt, "a cause");
        }
    }
}

fn add_causes(rt: &impl Abort, words: &mut String, causes: &[BrickCause]) {
    for cause in causes {
        add_cause(rt, words, cause);
    }
}

/// Adds each brick with its window and what is in flight.
pub fn add_windows(rt: &impl Abort, words: &mut String, facts: &[WindowFact]) {
    for fact in facts {
        write!(
            words,
            " {}:{}/{}",
            fact.brick.0, fact.window, fact.in_flight
        )
        .expect(rt, "windows");
    }
}

fn add_outcome(rt: &impl Abort, words: &mut String, outcome: &ItemOutcome) {
    match outcome {
        ItemOutcome::Refused(refusal) => add_refusal(rt, words, *refusal),
        ItemOutcome::SerialsSpent { seen } => write!(words, "spent {seen}").expect(rt, "an item"),
        ItemOutcome::Expired { now, expiry } => {
            write!(words, "expired {} {}", now.0, expiry.0).expect(rt, "an item");
        }
        ItemOutcome::Lost(causes) => {
            words.push_str("lost").expect(rt, "an item");
            add_causes(rt, words, causes.as_slice());
        }
        ItemOutcome::Ended(end) => add_end(rt, words, end),
        ItemOutcome::Overload { place, again, full } => {
            words.push_str("overload ").expect(rt, "an item");
            add_page(rt, words, *place, *again);
            add_windows(rt, words, full.as_slice());
        }
        ItemOutcome::Missed {
            place,
            again,
            causes,
        } => {
            words.push_str("missed ").expect(rt, "an item");
            add_page(rt, words, *place, *again);
            add_causes(rt, words, causes.as_slice());
        }
    }
}

fn add_cookie(rt: &impl Abort, words: &mut String, cookie: &Cookie) {
    write!(
        words,
        " cookie {} {}",
        cookie.version.serial, cookie.expiry.0
    )
    .expect(rt, "a cookie");
    for holder in cookie.bricks.as_slice() {
        write!(words, " {}", holder.brick.0).expect(rt, "a cookie");
    }
}

/// An item in words: what became of the request; behind a bar its number, `from`, `front` and `held`, the counts of the
/// link, and its moment; the value of its session, where that was read; and the serial, the expiry and the bricks of
/// the cookie that it sets, where it sets one.
pub fn item_words(rt: &impl Abort, alloc: Global, item: &Item) -> String {
    let mut words = String::new(alloc);
    add_outcome(rt, &mut words, &item.outcome);
    words.push_str(" |").expect(rt, "an item");
    match item.request {
        Some(request) => write!(words, " {}:{}", request.boot, request.serial).expect(
            rt, "an item",
        ),
        None => words.push_str(" none").expect(rt, "an item"),
    }
    write!(
        words,
        " {}-{} {} {}/{} at {}",
        item.holds.from.0,
        item.holds.front.0,
        item.holds.held,
        item.counts.hushed,
        item.counts.got,
        item.moment.0
    )
    .expect(rt, "an item");
    if let Some(value) = &item.value {
        words.push_str(" value ").expect(rt, "an item");
        add_hex(rt, &mut words, value.as_slice());
    }
    if let Some(cookie) = &item.cookie {
        add_cookie(rt, &mut words, cookie);
    }
    words
}
