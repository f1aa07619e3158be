//! Parts that are accepted, with their groups, parts that are refused, and what a deployment answers.

ghost use Rattle.std.specs.Prelude.{◌<◌};

use crate::deploy_words::{add_methods, add_refusal};
use crate::parts::{add_reference, checked, deployment_of, parts_of};
use crate::words::{
    add_number, add_text, add_word, byte, component, cut, expect_words, is_heading, short,
};
use crash_base::{ComponentNo, GroupNo, MAX_GROUPS, Scope};
use deployment::{Deployment, Parts, one_call};
use std::alloc::Global;
use std::process::Abort;

/// Adds the group of each component.
fn add_groups(rt: &impl Abort, words: &mut String, deployment: &Deployment) {
    for c in 0..deployment.count() {
        let group = deployment.group_of(ComponentNo(c));
        add_number(rt, words, u64::from(group.0));
    }
}

/// Adds the group of each component, or why the parts are refused.
fn add_check(rt: &impl Abort, words: &mut String, parts: Parts) {
    match Deployment::check(parts) {
        Ok(deployment) => add_groups(rt, words, &deployment),
        Err(refusal) => add_refusal(rt, words, refusal),
    }
}

/// A row has parts, and after a bar the group of each component in turn, or why the parts are refused.
fn expect_check(rt: &impl Abort, alloc: Global, row: &str) {
    if is_heading(row) {
        return;
    }
    let (text, want) = cut(rt, row, '|');
    let mut words = String::new(alloc);
    add_check(rt, &mut words, parts_of(rt, alloc, text));
    expect_words(rt, &words, want, row);
}

/// Parts that are accepted, and then parts that are refused, which also have faults that are looked for later.
const CHECKS: &str = "# Components without references are their own groups.
|
*1|0
*3|0 1 2
# Chains are one group: pairs, chains forward and back, and chains that are declared from their far end.
*2 0-1|0 0
*2 1-0|0 0
*4 0-1 1-2 2-3|0 0 0 0
*4 3-2 2-1 1-0|0 0 0 0
*4 2-3 1-2 0-1|0 0 0 0
*6 4-5 3-4 2-3 1-2 0-1|0 0 0 0 0 0
# Needless references change nothing: those to itself, and the same one twice.
*3 1-1|0 1 2
*3 1-1 2-2 1-2|0 1 1
*3 1-2 1-2 2-1|0 1 1
# Soft references join nothing, alone and between groups.
*4 0~1 1~2 2~3 3~0|0 1 2 3
*4 0-1 1~2 2-3|0 0 2 2
*5 0-1 3-4 1~2|0 0 2 3 3
# Rings are one group.
*4 0-1 1-2 2-3 3-0|0 0 0 0
*6 1-3 3-5 5-1 0~1 2~3|0 1 2 1 4 1
# Stars are one group.
*7 6-5 6-4 6-3 6-2|0 1 2 2 2 2 2
*7 5-6 4-6 3-6 2-6|0 1 2 2 2 2 2
# Groups are joined in any order: groups that the last reference joins, and the highest numbers joined first.
*6 0-1 1-2 3-4 4-5 5-0|0 0 0 0 0 0
*6 2-1 1-0 5-4 4-3 2-5|0 0 0 0 0 0
*6 5-4 4-3 5-3 2-5 1~2 0~1|0 1 2 2 2 2
*8 7-0 6-1 5-2 4-3|0 1 2 3 3 2 1 0
*8 7-0 6-1 5-2 4-3 7-6 5-4|0 0 2 2 2 2 0 0
# Paths through hard references join: two paths to one component, and one through a component that is reached by soft ones too.
*5 4-1 1-3 4-2 2-3|0 1 1 1 1
*5 4-2 2~3 3-1|0 1 2 1 2
# Sixty-four components are accepted.
*64 63-62|0 1 2 3 4 5 6 7 8 9 10 11 12 13 14 15 16 17 18 19 20 21 22 23 24 25 26 27 28 29 30 31 32 33 34 35 36 37 38 39 40 41 42 43 44 45 46 47 48 49 50 51 52 53 54 55 56 57 58 59 60 61 62 62
# More than sixty-four components are refused.
*65 0-70 0=0|too_many 65
*100 +a.abcdefghijklmnopq|too_many 101
# More than sixteen methods are refused.
+a +b.abcdefghijklmnopq +a +c.abcdefghijklmnopqr|too_many_methods 1
+b.aaaaaaaaaaaaaaaaa|too_many_methods 0
# Components of one name are refused.
+a +b +c +b +a|duplicate_name 1 3
+a +b.mm +b +b|duplicate_name 1 2
+x +x|duplicate_name 0 1
# Methods of one name are refused.
+a +b.xyzyx +c.mm 0-3|duplicate_method 1 3
+a.mm|duplicate_method 0 1
+a.m +b.m +c.xyzXYZmmm 9=9|duplicate_method 2 7
# References to no component are refused.
*2 0-1 2-0 0-2 0=0|unknown_reference 1
*2 0~1 1-0 1~2 5=5|unknown_reference 2
0-0|unknown_reference 0
*64 63-64|unknown_reference 0
# Tables of no component are refused.
*2 5=1 5=2 0=0|unknown_owner 1
5=0|unknown_owner 0
# The service's own table is refused.
*1 5=0 5=0 0=0 0=0|system_table 2
*1 0=0 0=0|system_table 0
# Tables of two parts are refused.
*2 7=0 8=1 9=0 8=0 7=1|table_twice 8
*2 255=0 1=1 255=1|table_twice 255";

/// 64 components, each of which needs the one so many before it.
fn in_steps(rt: &impl Abort, alloc: Global, step: u16) -> Parts {
    let mut parts = parts_of(rt, alloc, "*64");
    for from in 0..MAX_GROUPS {
        if let Some(to) = from.checked_sub(step) {
            add_reference(rt, &mut parts, ComponentNo(from), ComponentNo(to), true);
        }
    }
    parts
}

/// 64 components, each of which is needed by one of them.
fn star(rt: &impl Abort, alloc: Global, hub: u16) -> Parts {
    let mut parts = parts_of(rt, alloc, "*64");
    for c in 0..MAX_GROUPS {
        add_reference(rt, &mut parts, ComponentNo(hub), ComponentNo(c), true);
    }
    parts
}

/// Asserts that the group of each component is its remainder by a number.
fn expect_remainders(rt: &impl Abort, alloc: Global, deployment: &Deployment, by: u16, case: &str)
    requires { 0 < by }
{
    let mut words = String::new(alloc);
    let mut want = String::new(alloc);
    add_groups(rt, &mut words, deployment);
    for c in 0..deployment.count() {
        add_number(rt, &mut want, u64::from(c % by));
    }
    expect_words(rt, &words, want.trim_start(), case);
}

/// Asserts that in steps of n a component's group is its remainder by n, and that a star is one group.
fn expect_joined(rt: &impl Abort, alloc: Global, n: u16)
    requires { 0 < n }
{
    let steps = checked(rt, in_steps(rt, alloc, n), "steps");
    expect_remainders(rt, alloc, &steps, n, "steps");
    let star = checked(rt, star(rt, alloc, n), "a star");
    expect_remainders(rt, alloc, &star, 1, "a star");
}

/// Tables of rows, and sixty-four components.
#[test]
fn parts_have_groups_or_are_refused(rt: HostRuntime) {
    for row in CHECKS.split('\n') {
        expect_check(&rt, rt.alloc(), row);
    }
    for n in 1..MAX_GROUPS {
        expect_joined(&rt, rt.alloc(), n);
    }
}

const SHOP: &str = "+shop.bY +stock +mail.X 0-1 1~0 0~2 40=1 7=0 255=0";

fn add_found(rt: &impl Abort, words: &mut String, found: Option<ComponentNo>) {
    match found {
        Some(c) => add_number(rt, words, u64::from(c.0)),
        None => add_word(rt, words, "none"),
    }
}

fn may_call(rt: &impl Abort, deployment: &Deployment, pair: &str) -> bool {
    let (from, to) = cut(rt, pair, ' ');
    deployment.may_call(component(rt, from), component(rt, to))
}

fn may_repeat(rt: &impl Abort, deployment: &Deployment, pair: &str) -> bool {
    let (c, method) = cut(rt, pair, ' ');
    deployment.idempotent(component(rt, c), byte(rt, method))
}

fn is_within(rt: &impl Abort, deployment: &Deployment, scope: Scope, group: &str) -> bool {
    deployment.in_scope(scope, GroupNo(short(rt, group)))
}

/// Whether what is asked is so.
fn is_so(rt: &impl Abort, deployment: &Deployment, asked: &str, rest: &str) -> bool {
    match asked {
        "call" => may_call(rt, deployment, rest),
        "again" => may_repeat(rt, deployment, rest),
        "app" => is_within(rt, deployment, Scope::App, rest),
        _ => is_within(rt, deployment, Scope::Group(GroupNo(2)), rest),
    }
}

fn add_answer(rt: &impl Abort, words: &mut String, deployment: &Deployment, question: &str) {
    let (asked, rest) = cut(rt, question, ' ');
    match asked {
        "named" => add_found(rt, words, deployment.named(rest.as_bytes())),
        "owner" => add_found(rt, words, deployment.owner_of(byte(rt, rest))),
        _ => {
            let so = is_so(rt, deployment, asked, rest);
            add_word(rt, words, if so { "true" } else { "false" });
        }
    }
}

fn expect_answer(rt: &impl Abort, alloc: Global, deployment: &Deployment, row: &str) {
    if is_heading(row) {
        return;
    }
    let (question, want) = cut(rt, row, '|');
    let mut words = String::new(alloc);
    add_answer(rt, &mut words, deployment, question);
    expect_words(rt, &words, want, row);
}

/// Questions to the shop, each with the answer after a bar.
const ANSWERS: &str = "# Components are found by name.
named stock|1
named sto|none
# Tables have owners.
owner 40|1
owner 7|0
owner 255|0
owner 0|none
owner 41|none
# Components call what they refer to.
call 0 1|true
call 1 0|true
call 0 2|true
call 2 0|false
call 0 0|false
# Idempotent methods are called again.
again 0 0|false
again 0 1|true
again 0 2|false
again 1 0|false
again 2 0|true
again 3 0|false
# Scopes hold groups: whether the scope of the application or of group 2 holds one.
app 63|true
app 64|false
group 2|true
group 0|false";

/// Adds the numbers of components and of references, and the name of component 2.
fn add_parts(rt: &impl Abort, words: &mut String, shop: &Deployment) {
    add_number(rt, words, u64::from(shop.count()));
    add_number(rt, words, shop.parts().references.len() as u64);
    assert!(rt; shop.parts().named(b"mail") == Some(2) && 2 < shop.count());
    add_text(rt, words, " ", shop.name(ComponentNo(2)).as_slice());
}

/// Adds the methods of a component that declares none: one call, which is idempotent.
fn add_one_call(rt: &impl Abort, alloc: Global, words: &mut String) {
    let methods = one_call(alloc).expect(rt, "one method");
    add_methods(rt, words, methods.as_slice());
}

/// Asserts what the parts of the shop are.
fn expect_parts(rt: &impl Abort, alloc: Global, shop: &Deployment) {
    let mut words = String::new(alloc);
    add_parts(rt, &mut words, shop);
    add_one_call(rt, alloc, &mut words);
    expect_words(rt, &words, "3 3 mail.call!", "the parts of the shop");
}

#[test]
fn a_deployment_answers(rt: HostRuntime) {
    let shop = deployment_of(&rt, rt.alloc(), SHOP);
    for row in ANSWERS.split('\n') {
        expect_answer(&rt, rt.alloc(), &shop, row);
    }
    expect_parts(&rt, rt.alloc(), &shop);
}
