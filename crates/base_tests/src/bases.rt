//! Fields, lists, rows and names.

use crate::words::{
    add_bytes, add_number, add_row, add_word, bytes, cut, expect_bytes, expect_so, expect_words,
    row, rows,
};
use crash_base::{
    ComponentNo, FaultKind, FaultList, FaultPlan, LatestRows, Level, MAX_FAULT_PLANS, MAX_GROUPS,
    MAX_NAME_BYTES, MAX_ROW_BYTES, MAX_SESSION_BYTES, PageText, PathList, RowWrite, SERVICE_TABLE,
    SessionBytes, is_component_name, is_name, take_u16, take_u32, take_u64,
};
use std::alloc::Global;
use std::process::Abort;

/// The size of a field, and bytes. Then the field's number and the bytes that are left, or `none`.
///
/// 258 = 0x0102, 16909060 = 0x01020304 = 16777216 + 2 * 65536 + 3 * 256 + 4, and in the last but one
/// the third byte of eight counts 256^5 = 1099511627776.
const FIELDS: &str = "2|1 2|258
2|255 254 7 8|65534 7 8
2|1|none
2||none
4|1 2 3 4 5|16909060 5
4|1 2 3|none
8|0 0 1 0 0 0 0 42|1099511627818
8|0 0 1 0 0 0 0|none";

fn first_two(bytes: &[u8]) -> Option<(u64, &[u8])> {
    let (number, rest) = take_u16(bytes)?;
    Some((u64::from(number), rest))
}

fn first_four(bytes: &[u8]) -> Option<(u64, &[u8])> {
    let (number, rest) = take_u32(bytes)?;
    Some((u64::from(number), rest))
}

fn take_field<'a>(size: &str, bytes: &'a [u8]) -> Option<(u64, &'a [u8])> {
    match size {
        "2" => first_two(bytes),
        "4" => first_four(bytes),
        _ => take_u64(bytes),
    }
}

fn add_field(rt: &impl Abort, words: &mut String, field: Option<(u64, &[u8])>) {
    match field {
        None => add_word(rt, words, "none"),
        Some((number, rest)) => {
            add_number(rt, words, number);
            add_bytes(rt, words, rest);
        }
    }
}

fn expect_field(rt: &impl Abort, alloc: Global, row: &str) {
    let (size, rest) = cut(rt, row, '|');
    let (text, want) = cut(rt, rest, '|');
    let bytes = bytes(rt, alloc, text);
    let mut words = String::new(alloc);
    add_field(rt, &mut words, take_field(size, &bytes));
    expect_words(rt, &words, want, row);
}

fn expect_components(rt: &impl Abort, path: &PathList, want: &[ComponentNo]) {
    let has = path.as_slice() == want && path.len() == want.len();
    expect_so(rt, has && path.is_empty() == want.is_empty(), "a list");
}

/// A list grows.
fn grow_list(rt: &impl Abort, path: &mut PathList) {
    expect_components(rt, path, &[]);
    path.push(ComponentNo(3)).expect(rt, "the first");
    path.push(ComponentNo(1)).expect(rt, "the second");
    expect_components(rt, path, &[ComponentNo(3), ComponentNo(1)]);
}

/// A list is a vector.
fn expect_text(rt: &impl Abort, alloc: Global) {
    let bytes = Vec::from_slice(alloc, b"hi").expect(rt, "two bytes");
    let mut text = PageText::from_vec(bytes);
    text.push(33).expect(rt, "one more");
    expect_bytes(rt, text.into_vec().as_slice(), b"hi!", "one more");
}

/// A bounded list of bytes is a vector.
fn expect_session(rt: &impl Abort, alloc: Global) {
    let bytes = Vec::from_slice(alloc, &[0, 255]).expect(rt, "two bytes");
    let session = SessionBytes::from_vec(bytes);
    expect_bytes(rt, session.as_slice(), &[0, 255], "lent");
    expect_bytes(rt, session.into_vec().as_slice(), &[0, 255], "moved out");
}

const PLAN: FaultPlan = FaultPlan {
    component: ComponentNo(2),
    after: 5,
    kind: FaultKind::Hang,
    cured_by: Level::App,
};

fn expect_plan(rt: &impl Abort, found: &[FaultPlan]) {
    expect_so(rt, found == [PLAN].as_slice(), "plans");
}

/// A bounded list of plans is a vector.
fn expect_faults(rt: &impl Abort, alloc: Global) {
    let plans = Vec::from_slice(alloc, &[PLAN]).expect(rt, "one plan");
    let faults = FaultList::from_vec(plans);
    expect_plan(rt, faults.as_slice());
    expect_plan(rt, faults.into_vec().as_slice());
}

fn expect_copy(rt: &impl Abort, alloc: Global) {
    let row = row(rt, alloc, "40.7=ab");
    let copy = row.copied(alloc).expect(rt, "a copy");
    let mut words = String::new(alloc);
    add_row(rt, &mut words, &copy);
    expect_words(rt, &words, "40.7=ab", "a copy");
}

/// The first row, one after it, one before it, another table with a lesser key, and two in place of
/// earlier ones.
const WRITES: &str = "2.5=a 2.9=b 2.1=c 3.0=d 2.5=e 3.0=f";

/// Asserts that the latest of those rows are there, each once.
fn expect_latest(rt: &impl Abort, alloc: Global, latest: &LatestRows, case: &str) {
    let mut words = String::new(alloc);
    add_number(rt, &mut words, latest.len() as u64);
    for row in latest.as_slice() {
        add_row(rt, &mut words, row);
    }
    expect_words(rt, &words, "4 2.1=c 2.5=e 2.9=b 3.0=f", case);
}

fn put_each<'a>(rt: &impl Abort, latest: &mut LatestRows<'a>, rows: &'a [RowWrite]) {
    for row in rows {
        latest.put(row).expect(rt, WRITES);
    }
}

/// Rows that are put one by one or at once are the latest.
fn put_rows(rt: &impl Abort, alloc: Global, writes: &[RowWrite]) {
    let mut latest = LatestRows::new(alloc);
    expect_so(rt, latest.is_empty(), "no rows");
    put_each(rt, &mut latest, writes);
    expect_latest(rt, alloc, &latest, "one by one");
    let mut latest = LatestRows::new(alloc);
    latest.put_all(writes).expect(rt, WRITES);
    expect_latest(rt, alloc, &latest, "at once");
}

#[test]
fn fields_lists_and_rows_hold_their_bytes(rt: HostRuntime) {
    for row in FIELDS.split('\n') {
        expect_field(&rt, rt.alloc(), row);
    }
    grow_list(&rt, &mut PathList::new(rt.alloc()));
    expect_text(&rt, rt.alloc());
    expect_session(&rt, rt.alloc());
    expect_faults(&rt, rt.alloc());
    expect_copy(&rt, rt.alloc());
    put_rows(&rt, rt.alloc(), rows(&rt, rt.alloc(), WRITES).as_slice());
}

/// Asserts whether a text is a name, and whether it is the name of a component.
fn expect_name(rt: &impl Abort, text: &str, name: bool, component: bool) {
    let bytes = text.as_bytes();
    expect_so(
        rt,
        is_name(bytes) == name && is_component_name(bytes) == component,
        text,
    );
}

/// 32 bytes, 1 byte, and names that are almost `app`.
const NAMES: &str = "abcdefghijklmnopqrstuvwxyz_ABZ09|_|App|ap|apps";

/// 33 bytes, none, the bytes beside each range of letters and digits, and others below 128.
const NO_NAMES: &str = "abcdefghijklmnopqrstuvwxyz_ABZ092||a/|a:|a@|a[|a^|a`|a{|a |a\0";

/// Names are letters, digits and underscores, and no component is named `app`. Contracts cite limits by their names
/// alone, so their values are tested.
#[test]
fn names_and_limits_are_exact(rt: HostRuntime) {
    for name in NAMES.split('|') {
        expect_name(&rt, name, true, true);
    }
    for name in NO_NAMES.split('|') {
        expect_name(&rt, name, false, false);
    }
    expect_name(&rt, "app", true, false);
    expect_so(&rt, !is_name(&[b'a', 200]), "another byte");
    expect_so(&rt, !is_component_name(&[b'a', 200]), "another byte");
    let counts = MAX_GROUPS == 64 && SERVICE_TABLE == 0 && MAX_FAULT_PLANS == 65_536;
    let sizes = MAX_NAME_BYTES == 32 && MAX_ROW_BYTES == 4096 && MAX_SESSION_BYTES == 4096;
    expect_so(&rt, counts && sizes, "limits");
}
