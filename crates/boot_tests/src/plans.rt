//! Fault plans as texts.
//!
//! A plan is as `a 1 raise app`: component a raises once it was entered once, until the application is rebooted.

use crate::boot_fixtures::plan_list;
use crate::words::{cut, number};
use crash_base::{ComponentNo, FaultKind, FaultList, FaultPlan, GroupNo, Level};
use std::alloc::Global;
use std::process::Abort;

/// The component of this name.
pub fn component_of(rt: &impl Abort, name: &str) -> ComponentNo {
    match name {
        "a" => ComponentNo(0),
        "b" => ComponentNo(1),
        "c" => ComponentNo(2),
        _ => panic!(rt; "no component {name}"),
    }
}

fn kind_of(rt: &impl Abort, word: &str) -> FaultKind {
    match word {
        "raise" => FaultKind::Raise,
        "hang" => FaultKind::Hang,
        "leak" => FaultKind::Leak,
        _ => panic!(rt; "no kind {word}"),
    }
}

/// The level of this name. That of a group has a number at which no plan looks.
pub fn level_of(rt: &impl Abort, word: &str) -> Level {
    match word {
        "group" => Level::Group(GroupNo(7)),
        "app" => Level::App,
        "process" => Level::Process,
        "human" => Level::Human,
        _ => panic!(rt; "no level {word}"),
    }
}

/// The plan that a text spells.
fn plan_of(rt: &impl Abort, text: &str) -> FaultPlan {
    let (name, text) = cut(rt, text, ' ');
    let (after, text) = cut(rt, text, ' ');
    let (kind, level) = cut(rt, text, ' ');
    FaultPlan {
        component: component_of(rt, name),
        after: number(rt, after),
        kind: kind_of(rt, kind),
        cured_by: level_of(rt, level),
    }
}

/// The plans that a text spells, joined by commas; `-` is none.
pub fn plans_of(rt: &impl Abort, alloc: Global, text: &str) -> FaultList {
    let mut plans = Vec::new(alloc);
    if text != "-" {
        for part in text.split(',') {
            plans.push(plan_of(rt, part)).expect(rt, part);
        }
    }
    plan_list(rt, alloc, plans.as_slice())
}
