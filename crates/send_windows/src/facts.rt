//! Bricks with their windows, in one vector.

ghost use Rattle.std.specs.Prelude.{◌≡◌, ◌≤◌, ◌++◌, All, length, map, take, drop, IfOk, OnOk};
ghost use Rattle.send_windows.specs.Facts.{fact_of, given, spent, all_spent, full_facts, open_pass, open_passes, round_from, open_count, first_facts, IsWithinLimits};

use crate::fact::{FIRST_WINDOW, WindowFact, given, is_open, spent, unheard};
use crate::pass::Pass;
use crash_base::{BrickNo, OutOfMemory};
use std::alloc::Global;

/// Bricks 1 to so many, none of which was sent anything.
pub(crate) fn first_facts(alloc: Global, bricks: u16) -> Result<Vec<WindowFact>, OutOfMemory>
    ensures { IfOk result (λ facts. facts.items ≡ first_facts bricks) }
{
    let mut facts = Vec::new(alloc);
    for before in 0..bricks {
        facts.push(WindowFact {
            brick: BrickNo(before + 1),
            window: FIRST_WINDOW,
            in_flight: 0,
        })?;
    }
    Ok(facts)
}

/// The fact of a brick, where it is one of these.
pub(crate) fn fact_of(facts: &[WindowFact], brick: BrickNo) -> Option<WindowFact>
    ensures { result ≡ fact_of facts.now brick }
{
    facts.iter().copied().find(|fact| fact.brick.0 == brick.0)
}

/// A pass to a brick, where it is one of these and its window is open.
pub(crate) fn open_pass(facts: &[WindowFact], brick: BrickNo) -> Option<Pass>
    ensures { result ≡ open_pass brick (fact_of facts.now brick) }
{
    match fact_of(facts, brick) {
        Some(fact) => if is_open(&fact) {
            Some(unheard(brick))
        } else {
            None
        },
        None => None,
    }
}

/// Gives these passes: one more is in flight to each brick that one of them is to. No number overflows,
/// since at most 64 are in flight before.
pub(crate) fn give_all(facts: &mut Vec<WindowFact>, passes: &[Pass])
    requires { All IsWithinLimits facts.old.items }
    ensures { facts.new.items ≡ map (given passes.now) facts.old.items }
{
    for fact in facts.iter_mut() {
        *fact = given(passes, *fact);
    }
}

/// Spends a pass.
pub(crate) fn spend_one(facts: &mut Vec<WindowFact>, pass: Pass)
    ensures { facts.new.items ≡ map (spent pass) facts.old.items }
{
    for fact in facts.iter_mut() {
        *fact = spent(pass, *fact);
    }
}

/// Spends passes, the first first.
pub(crate) fn spend_all(facts: &mut Vec<WindowFact>, passes: &[Pass])
    ensures { facts.new.items ≡ all_spent facts.old.items passes.now }
{
    for pass in passes {
        spend_one(facts, *pass);
    }
}

/// Adds a pass to each of those whose windows are open.
fn add_open(passes: &mut Vec<Pass>, facts: &[WindowFact]) -> Result<(), OutOfMemory>
    ensures { OnOk result (passes.new.items ≡ passes.old.items ++ open_passes facts.now) }
{
    for fact in facts {
        if is_open(fact) {
            passes.push(unheard(fact.brick))?;
        }
    }
    Ok(())
}

/// A pass to each of those whose windows are open, gone round from a place.
fn open_from(alloc: Global, facts: &[WindowFact], at: usize) -> Result<Vec<Pass>, OutOfMemory>
    requires { at ≤ length facts.now }
    ensures passes { IfOk result (λ passes. passes.items ≡ open_passes (drop at facts.now ++ take at facts.now)) }
    ensures count { IfOk result (λ passes. length passes.items ≡ open_count facts.now) }
{
    let mut passes = Vec::new(alloc);
    add_open(&mut passes, &facts[at..])?;
    add_open(&mut passes, &facts[..at])?;
    Ok(passes)
}

/// A pass to each of those whose windows are open, gone round from a number.
pub(crate) fn open_passes(
    alloc: Global,
    facts: &[WindowFact],
    first: u64,
) -> Result<Vec<Pass>, OutOfMemory>
    requires { 1 ≤ length facts.now }
    ensures passes { IfOk result (λ passes. passes.items ≡ open_passes (round_from first facts.now)) }
    ensures count { IfOk result (λ passes. length passes.items ≡ open_count facts.now) }
{
    let at = (first % facts.len() as u64) as usize;
    let passes = open_from(alloc, facts, at)?;
    Ok(passes)
}

/// Those whose windows are full.
pub(crate) fn full_facts(
    alloc: Global,
    facts: &[WindowFact],
) -> Result<Vec<WindowFact>, OutOfMemory>
    ensures { IfOk result (λ full. full.items ≡ full_facts facts.now) }
{
    let mut full = Vec::new(alloc);
    for fact in facts {
        if !is_open(fact) {
            full.push(*fact)?;
        }
    }
    Ok(full)
}
