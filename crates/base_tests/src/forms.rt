//! Fields of forms, and numbers in digits.

use crate::words::{add_number, add_text, add_word, cut, expect_words};
use decimal_digits::{number_of_digits, plain_number};
use form_values::{FieldRefusal, number_field, text_field};
use std::alloc::Global;
use std::fmt::Write;
use std::process::Abort;

fn add_refusal(rt: &impl Abort, words: &mut String, refusal: FieldRefusal) {
    match refusal {
        FieldRefusal::Missing => add_word(rt, words, "missing"),
        FieldRefusal::Length { len } => write!(words, " length {len}").expect(rt, "a length"),
        FieldRefusal::NotNumber => add_word(rt, words, "no number"),
        FieldRefusal::Range { value } => write!(words, " range {value}").expect(rt, "a number"),
        FieldRefusal::OutOfMemory => add_word(rt, words, "no memory"),
    }
}

/// Asserts what the field `a` of a form is as a text of 1 to 4 bytes.
fn expect_text(rt: &impl Abort, alloc: Global, row: &str) {
    let (form, want) = cut(rt, row, '|');
    let mut words = String::new(alloc);
    match text_field(alloc, form.as_bytes(), b"a", 1, 4) {
        Ok(text) => add_text(rt, &mut words, " =", text.as_slice()),
        Err(refusal) => add_refusal(rt, &mut words, refusal),
    }
    expect_words(rt, words.as_str(), want, row);
}

/// Asserts what the field `a` of a form is as a number of 1 to 65,536.
fn expect_number(rt: &impl Abort, alloc: Global, row: &str) {
    let (form, want) = cut(rt, row, '|');
    let mut words = String::new(alloc);
    match number_field(alloc, form.as_bytes(), b"a", 1, 65_536) {
        Ok(number) => add_number(rt, &mut words, number),
        Err(refusal) => add_refusal(rt, &mut words, refusal),
    }
    expect_words(rt, words.as_str(), want, row);
}

/// Forms, and their field `a` as a text: that of the first pair of its name.
const TEXTS: &str = "a=bc|=bc
a=b&a=c|=b
b=1&a=2|=2
%61=x|=x
a=b+c|=b c
a=b%2Bc|=b+c
a=%26%3D|=&=
a=%C3%A4|=ä
a=%FF|=\u{FFFD}
a=%F|=%F
a=b=c|=b=c
&&a=1|=1
a=abcd|=abcd
a=abcde|length 5
a=%FFx%FF|length 7
a=|length 0
a|length 0
|missing
A=1|missing
aa=1&b=a|missing
=1|missing";

/// Forms, and their field `a` as a number, which has no zero before it.
const NUMBERS: &str = "a=1|1
a=65536|65536
a=7&a=x|7
a=%37|7
a=65537|range 65537
a=0|range 0
a=9999999999999999999|range 9999999999999999999
a=10000000000000000000|no number
a=01|no number
a=00|no number
a=+1|no number
a=-1|no number
a=1.0|no number
a= 1|no number
a=|no number
a=x&a=7|no number
b=1|missing";

/// Adds a number, where there is one.
fn add_found(rt: &impl Abort, words: &mut String, found: Option<u64>) {
    match found {
        Some(number) => add_number(rt, words, number),
        None => add_word(rt, words, "none"),
    }
}

/// Asserts what number digits write, of which there are ten at most, and which one where a zero may not come first.
fn expect_digits(rt: &impl Abort, alloc: Global, row: &str) {
    let (digits, want) = cut(rt, row, '|');
    let mut words = String::new(alloc);
    add_found(rt, &mut words, number_of_digits(digits.as_bytes(), 10));
    add_found(rt, &mut words, plain_number(digits.as_bytes()));
    expect_words(rt, words.as_str(), want, row);
}

/// Zeros first, a letter, nothing, eleven digits, zero and seven.
const DIGITS: &str = "007|7 none
7a|none none
|none none
12345678901|none 12345678901
0|0 0
7|7 7";

#[test]
fn fields_are_texts_and_numbers(rt: HostRuntime) {
    for row in TEXTS.split('\n') {
        expect_text(&rt, rt.alloc(), row);
    }
    for row in NUMBERS.split('\n') {
        expect_number(&rt, rt.alloc(), row);
    }
    for row in DIGITS.split('\n') {
        expect_digits(&rt, rt.alloc(), row);
    }
}
