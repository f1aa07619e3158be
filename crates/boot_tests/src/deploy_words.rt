//! Words for methods, and for why parts are no deployment.

use crate::words::{add_number, add_part, add_text, add_word};
use deployment::{DeployRefusal, MethodPart};
use std::process::Abort;

/// Adds methods, each after a dot, of which the idempotent ones have a mark after them.
pub fn add_methods(rt: &impl Abort, words: &mut String, methods: &[MethodPart]) {
    for method in methods {
        add_text(rt, words, ".", method.name.as_slice());
        add_part(rt, words, if method.idempotent { "!" } else { "" });
    }
}

/// Adds a cause and a place.
fn add_cause(rt: &impl Abort, words: &mut String, cause: &str, place: usize) {
    add_word(rt, words, cause);
    add_number(rt, words, place as u64);
}

/// Adds a cause and two places.
fn add_two(rt: &impl Abort, words: &mut String, cause: &str, first: u16, second: usize) {
    add_cause(rt, words, cause, first as usize);
    add_number(rt, words, second as u64);
}

/// Adds why parts are no deployment.
pub fn add_refusal(rt: &impl Abort, words: &mut String, refusal: DeployRefusal) {
    match refusal {
        DeployRefusal::TooMany(n) => add_cause(rt, words, "too_many", n),
        DeployRefusal::TooManyMethods(c) => add_cause(rt, words, "too_many_methods", c as usize),
        DeployRefusal::DuplicateName(a, b) => add_two(rt, words, "duplicate_name", a, b as usize),
        DeployRefusal::DuplicateMethod(c, m) => add_two(rt, words, "duplicate_method", c, m),
        DeployRefusal::UnknownReference(i) => add_cause(rt, words, "unknown_reference", i),
        DeployRefusal::UnknownOwner(i) => add_cause(rt, words, "unknown_owner", i),
        DeployRefusal::SystemTable(i) => add_cause(rt, words, "system_table", i),
        DeployRefusal::TableTwice(table) => add_cause(rt, words, "table_twice", table as usize),
        DeployRefusal::OutOfMemory => add_word(rt, words, "out_of_memory"),
    }
}
