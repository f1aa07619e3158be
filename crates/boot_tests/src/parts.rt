//! Parts of deployments as texts: words joined by one space.
//!
//! `*5` is five components without methods, named by the bytes 0 to 4. `+shop.bY` is a component
//! `shop` with methods `b` and `Y`, of which the one in upper case is idempotent. `0-1` is a hard
//! reference, `0~1` a soft one, and `40=1` says that component 1 owns table 40.

use crate::boot_fixtures::name;
use crate::words::{byte, component, cut};
use crash_base::ComponentNo;
use deployment::{ComponentPart, Deployment, MethodList, MethodPart, Parts, Reference, TablePart};
use std::alloc::Global;
use std::process::Abort;

fn add_method(rt: &impl Abort, alloc: Global, methods: &mut MethodList, letter: u8) {
    let method = MethodPart {
        name: name(rt, alloc, &[letter]),
        idempotent: letter.is_ascii_uppercase(),
    };
    methods.push(method).expect(rt, "a method");
}

/// The methods that letters name.
fn methods(rt: &impl Abort, alloc: Global, letters: &[u8]) -> MethodList {
    let mut methods = MethodList::new(alloc);
    for letter in letters {
        add_method(rt, alloc, &mut methods, *letter);
    }
    methods
}

fn add_component(rt: &impl Abort, alloc: Global, parts: &mut Parts, bytes: &[u8], letters: &[u8]) {
    let component = ComponentPart {
        name: name(rt, alloc, bytes),
        methods: methods(rt, alloc, letters),
    };
    parts.components.push(component).expect(rt, "a component");
}

/// Adds the component of a name, and methods after a dot.
fn add_named(rt: &impl Abort, alloc: Global, parts: &mut Parts, text: &str) {
    let (name, letters) = text.split_once('.').unwrap_or((text, ""));
    add_component(rt, alloc, parts, name.as_bytes(), letters.as_bytes());
}

fn add_numbered(rt: &impl Abort, alloc: Global, parts: &mut Parts, count: u8) {
    for number in 0..count {
        add_component(rt, alloc, parts, &[number], b"");
    }
}

pub fn add_reference(
    rt: &impl Abort,
    parts: &mut Parts,
    from: ComponentNo,
    to: ComponentNo,
    hard: bool,
) {
    parts
        .references
        .push(Reference { from, to, hard })
        .expect(rt, "a reference");
}

fn add_table(rt: &impl Abort, parts: &mut Parts, table: u8, owner: ComponentNo) {
    parts
        .tables
        .push(TablePart { table, owner })
        .expect(rt, "a table");
}

/// Adds what two numbers with a sign between them say.
fn add_link(rt: &impl Abort, parts: &mut Parts, word: &str) {
    if let Some((table, owner)) = word.split_once('=') {
        add_table(rt, parts, byte(rt, table), component(rt, owner));
    } else if let Some((from, to)) = word.split_once('~') {
        add_reference(rt, parts, component(rt, from), component(rt, to), false);
    } else {
        let (from, to) = cut(rt, word, '-');
        add_reference(rt, parts, component(rt, from), component(rt, to), true);
    }
}

fn add_word(rt: &impl Abort, alloc: Global, parts: &mut Parts, word: &str) {
    if let Some(count) = word.strip_prefix("*") {
        add_numbered(rt, alloc, parts, byte(rt, count));
    } else if let Some(text) = word.strip_prefix("+") {
        add_named(rt, alloc, parts, text);
    } else {
        add_link(rt, parts, word);
    }
}

/// The parts that a text spells.
pub fn parts_of(rt: &impl Abort, alloc: Global, text: &str) -> Parts {
    let mut parts = Parts::new(alloc);
    for word in text.split(' ') {
        if !word.is_empty() {
            add_word(rt, alloc, &mut parts, word);
        }
    }
    parts
}

/// The deployment of these parts, which are shown where they are refused.
pub fn checked(rt: &impl Abort, parts: Parts, shown: &str) -> Deployment {
    match Deployment::check(parts) {
        Ok(deployment) => deployment,
        Err(_) => panic!(rt; "refused: {shown}"),
    }
}

/// The deployment that a text spells.
pub fn deployment_of(rt: &impl Abort, alloc: Global, text: &str) -> Deployment {
    checked(rt, parts_of(rt, alloc, text), text)
}
