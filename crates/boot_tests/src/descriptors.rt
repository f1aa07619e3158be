//! Descriptor texts, each with what it says.
//!
//! `A#0.m!` is a component `A` of group 0 with a method `m` that is idempotent. `0-1` is a hard
//! reference, `0~1` a soft one, and `40=1` says that component 1 owns table 40.

use crate::deploy_words::{add_methods, add_refusal};
use crate::words::{
    add_marked, add_number, add_pair, add_text, add_word, expect_words, is_heading,
};
use crash_base::ComponentNo;
use deployment::{Deployment, Parts};
use descriptor_text::{FieldName, TextRefusal, read_descriptors};
use std::alloc::Global;
use std::process::Abort;

/// Adds each component with its group and its methods.
fn add_components(rt: &impl Abort, words: &mut String, deployment: &Deployment) {
    let components = deployment.parts().components.as_slice();
    for number in 0..deployment.count() {
        let c = &components[number as usize];
        let group = deployment.group_of(ComponentNo(number));
        add_text(rt, words, " ", c.name.as_slice());
        add_marked(rt, words, "#", u64::from(group.0));
        add_methods(rt, words, c.methods.as_slice());
    }
}

/// Adds references and tables.
fn add_links(rt: &impl Abort, words: &mut String, parts: &Parts) {
    for r in parts.references.as_slice() {
        let sign = if r.hard { "-" } else { "~" };
        add_pair(rt, words, u64::from(r.from.0), sign, u64::from(r.to.0));
    }
    for t in parts.tables.as_slice() {
        add_pair(rt, words, u64::from(t.table), "=", u64::from(t.owner.0));
    }
}

fn key_of(field: FieldName) -> &'static str {
    match field {
        FieldName::Component => "component",
        FieldName::Name => "name",
        FieldName::Hard => "hard",
        FieldName::Soft => "soft",
        FieldName::Tables => "tables",
        FieldName::Methods => "methods",
    }
}

/// Adds why a text is refused.
fn add_cause(rt: &impl Abort, words: &mut String, refusal: TextRefusal) {
    match refusal {
        TextRefusal::NotToml => add_word(rt, words, "not_toml"),
        TextRefusal::Field { component, field } => {
            add_word(rt, words, "wrong");
            add_number(rt, words, component as u64);
            add_word(rt, words, key_of(field));
        }
        TextRefusal::Deploy(refusal) => {
            add_word(rt, words, "deploy");
            add_refusal(rt, words, refusal);
        }
        TextRefusal::OutOfMemory => add_word(rt, words, "out_of_memory"),
    }
}

fn add_deployment(rt: &impl Abort, words: &mut String, deployment: &Deployment) {
    add_components(rt, words, deployment);
    add_links(rt, words, deployment.parts());
}

/// Adds what bytes say: the deployment, or why they are refused.
fn add_answer(rt: &impl Abort, alloc: Global, words: &mut String, bytes: &[u8]) {
    match read_descriptors(alloc, bytes) {
        Ok(deployment) => add_deployment(rt, words, &deployment),
        Err(refusal) => add_cause(rt, words, refusal),
    }
}

/// Asserts what bytes say.
fn expect_answer(rt: &impl Abort, alloc: Global, bytes: &[u8], want: &str, row: &str) {
    let mut words = String::new(alloc);
    add_answer(rt, alloc, &mut words, bytes);
    expect_words(rt, &words, want, row);
}

/// A row has on its first line what it says, and then the text.
fn expect_text(rt: &impl Abort, alloc: Global, row: &str) {
    if !is_heading(row) {
        let (want, text) = row.split_once('\n').unwrap_or((row, ""));
        expect_answer(rt, alloc, text.as_bytes(), want, row);
    }
}

/// The rows have lines of three hyphens between them.
const TEXTS: &str = "# Texts without components are deployments.
---

---

# no component
title = 'shop'
---

component = []
---
# Texts that are no documents are refused.
---
not_toml
= 1
---
not_toml
a = 1
a = 2
---
not_toml
component = [{ name = 'A' }
---
# Components are an array of tables.
---
wrong 0 component
component = 5
---
wrong 0 component
component = 'A'
---
wrong 0 component
component = [1]
---
wrong 0 component
component = [{ name = 5 }, { name = 'B' }, 'C']
---
wrong 0 component
[component]
name = 'A'
---
# Components have two forms. Keys of other names are passed over.
---
A#0.call!
[[component]]
name = 'A'
---
A#0.call!
component = [{ name = 'A' }]
---
A#0.m! B#1.call! 0~1 7=0
name = 5
tables = 'x'
component = [{ colour = 1, name = 'A', Hard = 3, soft = ['B'], tables = [7], methods = [{ name = 'm', idempotent = true, cost = [] }] }, { name = 'B' }]
[other]
hard = 1
---
# Names have up to 32 bytes, and may resemble `app`.
---
abcdefghijklmnopqrstuvwxyz_ABC09#0.call!
[[component]]
name = 'abcdefghijklmnopqrstuvwxyz_ABC09'
---
App#0.call! apps#1.call! ap#2.call!
component = [{ name = 'App' }, { name = 'apps' }, { name = 'ap' }]
---
# Other names are refused.
---
wrong 0 name
[[component]]
name = 'abcdefghijklmnopqrstuvwxyz_ABC099'
---
wrong 0 name
[[component]]
---
wrong 0 name
[[component]]
name = 5
---
wrong 0 name
[[component]]
name = ''
---
wrong 0 name
[[component]]
name = 'a-b'
---
wrong 0 name
[[component]]
name = 'ä'
---
wrong 0 name
[[component]]
name = 'app'
---
# References are arrays of texts.
---
wrong 0 hard
component = [{ name = 'A', hard = 'A' }]
---
wrong 0 hard
component = [{ name = 'A', hard = ['A', 1] }]
---
wrong 0 soft
component = [{ name = 'A', soft = { A = 1 } }]
---
wrong 0 soft
component = [{ name = 'A', soft = [['A']] }]
---
# Tables are numbered up to 255.
---
A#0.call! 255=0 1=0
component = [{ name = 'A', tables = [0xff, 1] }]
---
# Other tables are refused.
---
wrong 0 tables
component = [{ name = 'A', tables = 5 }]
---
wrong 0 tables
component = [{ name = 'A', tables = [256] }]
---
wrong 0 tables
component = [{ name = 'A', tables = [-1] }]
---
wrong 0 tables
component = [{ name = 'A', tables = [1.0] }]
---
# Methods are written in two ways.
---
A#0 B#1.get!.app
[[component]]
name = 'A'
methods = []
[[component]]
name = 'B'
[[component.methods]]
name = 'get'
idempotent = true
[[component.methods]]
name = 'app'
idempotent = false
---
# Other methods are refused.
---
wrong 0 methods
component = [{ name = 'A', methods = true }]
---
wrong 0 methods
component = [{ name = 'A', methods = ['m'] }]
---
wrong 0 methods
component = [{ name = 'A', methods = [{ name = 'm' }] }]
---
wrong 0 methods
component = [{ name = 'A', methods = [{ idempotent = true }] }]
---
wrong 0 methods
component = [{ name = 'A', methods = [{ name = 'm', idempotent = 1 }] }]
---
wrong 0 methods
component = [{ name = 'A', methods = [{ name = 'm', idempotent = true }, { name = 'a b', idempotent = true }] }]
---
# The first wrong key is reported.
---
wrong 1 hard
component = [{ name = 'A' }, { methods = 1, tables = 1, soft = 1, hard = 1, name = 'B' }, { name = 1 }]
---
wrong 1 tables
component = [{ name = 'A' }, { methods = 1, tables = 1, name = 'B' }, { name = 1 }]
---
# References and tables are in order.
---
A#0.call! B#0.call! C#2.call! 0-1 0~2 1~2 1~0 2~2 3=0 2=0 1=2
[[component]]
name = 'A'
soft = ['C']
hard = ['B']
tables = [3, 2]
[[component]]
name = 'B'
soft = ['C', 'A']
[[component]]
name = 'C'
soft = ['C']
tables = [1]
---
# Parts that are no deployment are refused.
---
deploy unknown_reference 1
component = [{ name = 'A', hard = ['A'], soft = ['B'] }]
---
deploy unknown_reference 0
component = [{ name = 'A', hard = ['a'] }]
---
deploy duplicate_name 0 2
component = [{ name = 'A' }, { name = 'B' }, { name = 'A', hard = ['A'] }]
---
deploy duplicate_method 1 1
component = [{ name = 'A' }, { name = 'B', methods = [{ name = 'm', idempotent = true }, { name = 'm', idempotent = false }] }]
---
deploy system_table 0
component = [{ name = 'A', tables = [0] }]
---
deploy table_twice 9
component = [{ name = 'A', tables = [9] }, { name = 'B', tables = [9] }]";

#[test]
fn texts_are_deployments_or_refused(rt: HostRuntime) {
    for row in TEXTS.split("\n---\n") {
        expect_text(&rt, rt.alloc(), row);
    }
    expect_answer(&rt, rt.alloc(), b"a = '\xff'", "not_toml", "a = '\\xff'");
}
