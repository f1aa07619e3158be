//! Which fault plans are active after reboots, and which instances a pool has.
//!
//! A row has the fault plans, what is done with a pool of the components a, b and c, of which a needs b, and after
//! another bar what that answers. `take:a` takes an instance of component a, and tells its number; `give:1` gives back
//! the second of those that are still taken, and `all` all of them; `count` asks how many instances there are, and
//! `active` which plan of component a is active. `reboot:a` reboots the group of a, `reboot:app` the application, and
//! `level:process` the group of a and b at the level of the process. Last comes how many plans the pool tells, how many
//! it hands out at its end, and how many of these a reboot of the process leaves.

ghost use Rattle.std.specs.Prelude.{◌<◌};

use crate::faults::scope_of;
use crate::parts::deployment_of;
use crate::plans::{component_of, level_of, plans_of};
use crate::words::{add_named, add_number, add_word, cut, expect_so, expect_words, number};
use component_pool::{InstanceNo, Pool, left_by_process};
use crash_base::{ComponentNo, FaultKind, GroupNo, Level, MAX_GROUPS, Scope};
use std::alloc::Global;
use std::process::Abort;

/// The most instances that are taken at once where calls go by chance.
const MOST_HELD: usize = 8;

/// A pool of the components a, b and c, of which a needs b.
fn pool_of(rt: &impl Abort, alloc: Global, plans: &str) -> Pool {
    let deployment = deployment_of(rt, alloc, "+a +b +c 0-1");
    Pool::new(alloc, &deployment, plans_of(rt, alloc, plans))
}

/// Takes an instance of a component.
pub fn take(rt: &impl Abort, pool: &mut Pool, c: ComponentNo) -> InstanceNo {
    assert!(rt; c.0 < MAX_GROUPS);
    let generation = pool.generation(c);
    pool.take(c, generation).expect(rt, "an instance")
}

/// Takes an instance of a component, and adds its number.
fn take_named(
    rt: &impl Abort,
    words: &mut String,
    pool: &mut Pool,
    taken: &mut Vec<InstanceNo>,
    c: ComponentNo,
) {
    let instance = take(rt, pool, c);
    add_number(rt, words, instance.number());
    taken.push(instance).expect(rt, "room");
}

/// Gives back the instance at a place of those that are taken.
fn give_at(rt: &impl Abort, pool: &mut Pool, taken: &mut Vec<InstanceNo>, place: usize) {
    assert!(rt; place < taken.len());
    pool.give(taken.remove(place));
}

fn give_all(rt: &impl Abort, pool: &mut Pool, taken: &mut Vec<InstanceNo>) {
    pool.give_all(taken);
    expect_so(rt, taken.is_empty(), "all are given back");
}

/// Reboots the group of a and b at a level.
fn reboot_at(rt: &impl Abort, pool: &mut Pool, level: Level) {
    assert!(rt; pool.may_reboot(Scope::Group(GroupNo(0))));
    pool.drop_group(GroupNo(0), level);
}

/// Reboots a scope.
fn reboot(rt: &impl Abort, pool: &mut Pool, scope: Scope) {
    assert!(rt; pool.may_reboot(scope));
    pool.drop_scope(scope);
}

/// Adds the active plan of component a: `raise:1` is plan 1, and `-` none.
fn add_active(rt: &impl Abort, words: &mut String, pool: &Pool) {
    match pool.active(ComponentNo(0)) {
        None => add_word(rt, words, "-"),
        Some((fault, FaultKind::Raise)) => add_named(rt, words, "raise:", u64::from(fault)),
        Some((fault, FaultKind::Hang)) => add_named(rt, words, "hang:", u64::from(fault)),
        Some((fault, FaultKind::Leak)) => add_named(rt, words, "leak:", u64::from(fault)),
    }
}

/// Does what a word says, and adds what it answers.
fn do_word(
    rt: &impl Abort,
    words: &mut String,
    pool: &mut Pool,
    taken: &mut Vec<InstanceNo>,
    word: &str,
) {
    let (what, rest) = word.split_once(':').unwrap_or((word, ""));
    match what {
        "take" => take_named(rt, words, pool, taken, component_of(rt, rest)),
        "give" => give_at(rt, pool, taken, number(rt, rest) as usize),
        "all" => give_all(rt, pool, taken),
        "count" => add_number(rt, words, pool.instances() as u64),
        "active" => add_active(rt, words, pool),
        "reboot" => reboot(rt, pool, scope_of(rest)),
        _ => reboot_at(rt, pool, level_of(rt, rest)),
    }
}

/// Adds how many plans a pool tells, how many it hands out, and how many of these a reboot of the process leaves.
fn add_plans(rt: &impl Abort, words: &mut String, pool: Pool) {
    add_number(rt, words, pool.plans().as_slice().len() as u64);
    let plans = pool.into_plans();
    add_number(rt, words, plans.as_slice().len() as u64);
    let left = left_by_process(plans);
    add_number(rt, words, left.as_slice().len() as u64);
}

fn expect_row(rt: &impl Abort, alloc: Global, row: &str) {
    let (plans, text) = cut(rt, row, '|');
    let (script, want) = cut(rt, text, '|');
    let mut words = String::new(alloc);
    let mut taken = Vec::new(alloc);
    let mut pool = pool_of(rt, alloc, plans);
    for word in script.split(' ') {
        do_word(rt, &mut words, &mut pool, &mut taken, word);
    }
    add_plans(rt, &mut words, pool);
    expect_words(rt, &words, want, row);
}

/// Plans are cured by level, each beside a first reboot at three levels. They wait, and go by number. Instances are
/// taken again where they are idle, and are stale after a reboot.
const ROWS: &str = "a 0 raise group|level:group active|- 1 1 0
a 0 raise group|level:app active|- 1 1 0
a 0 raise group|level:process active|- 1 1 0
a 0 raise app|level:group active|raise:0 1 1 0
a 0 raise app|level:app active|- 1 1 0
a 0 raise app|level:process active|- 1 1 0
a 0 raise process|level:group active|raise:0 1 1 0
a 0 raise process|level:app active|raise:0 1 1 0
a 0 raise process|level:process active|- 1 1 0
a 0 raise human|level:group active|raise:0 1 1 1
a 0 raise human|level:app active|raise:0 1 1 1
a 0 raise human|level:process active|raise:0 1 1 1
a 1 raise app|active take:a active reboot:c reboot:a active reboot:app active|- 0 raise:0 raise:0 - 1 1 0
c 0 raise group,a 0 leak group,a 0 hang app|active reboot:c active reboot:a active reboot:app active|leak:1 leak:1 hang:2 - 3 3 0
-|take:a take:b take:c count give:0 count take:a take:a give:2 reboot:a count give:0 give:0 count reboot:app count take:b all count|0 1 2 3 3 0 3 3 2 1 2 1 0 0 0";

#[test]
fn pools_have_plans_and_instances(rt: HostRuntime) {
    for row in ROWS.split('\n') {
        expect_row(&rt, rt.alloc(), row);
    }
}

/// An instance that is taken.
#[derive(Drop)]
struct Held {
    instance: InstanceNo,
    component: ComponentNo,
    generation: u64,
}

/// What is known of instances by counting them.
#[derive(Drop)]
struct Count {
    held: Vec<Held>,
    /// How many of each component are idle.
    idle: [usize; 3],
}

impl Count {
    /// How many there are, taken and idle.
    fn all(&self) -> usize {
        self.held
            .len()
            .saturating_add(self.idle[0])
            .saturating_add(self.idle[1])
            .saturating_add(self.idle[2])
    }
}

/// Takes an instance of a component, which nobody has, and counts it.
fn take_counted(rt: &impl Abort, pool: &mut Pool, count: &mut Count, c: ComponentNo)
    requires { c.0 < 3 }
{
    let instance = take(rt, pool, c);
    let number = instance.number();
    let is_held = count
        .held
        .iter()
        .any(|held| held.instance.number() == number);
    expect_so(rt, !is_held, "taken twice");
    let generation = pool.generation(c);
    let held = Held {
        instance,
        component: c,
        generation,
    };
    count.held.push(held).expect(rt, "room");
    count.idle[c.0 as usize] = count.idle[c.0 as usize].saturating_sub(1);
}

/// Gives an instance back that is taken, if there is one, and counts it.
fn give_counted(rt: &impl Abort, pool: &mut Pool, count: &mut Count, draw: usize) {
    if count.held.is_empty() {
        return;
    }
    let held = count.held.swap_remove(draw % count.held.len());
    let c = held.component;
    let generation = held.generation;
    assert!(rt; c.0 < 3);
    pool.give(held.instance);
    if pool.generation(c) == generation {
        count.idle[c.0 as usize] = count.idle[c.0 as usize].saturating_add(1);
    }
}

/// Makes one call of a pool, which a draw chooses.
fn step_counted(rt: &impl Abort, pool: &mut Pool, count: &mut Count, draw: u64) {
    let kind = (draw >> 33) % 64;
    let c = ComponentNo(((draw >> 41) % 3) as u16);
    if kind == 0 {
        reboot(rt, pool, Scope::App);
        count.idle = [0; 3];
    } else if kind == 1 {
        reboot(rt, pool, Scope::Group(GroupNo(0)));
        count.idle[0] = 0;
        count.idle[1] = 0;
    } else if kind == 2 {
        reboot(rt, pool, Scope::Group(GroupNo(2)));
        count.idle[2] = 0;
    } else if kind < 33 && count.held.len() < MOST_HELD {
        take_counted(rt, pool, count, c);
    } else {
        give_counted(rt, pool, count, (draw >> 43) as usize);
    }
}

#[test]
fn instances_are_used_again(rt: HostRuntime) {
    let mut pool = pool_of(&rt, rt.alloc(), "-");
    let mut count = Count {
        held: Vec::new(rt.alloc()),
        idle: [0; 3],
    };
    let mut draw: u64 = 7;
    for _ in 0..220_000_u32 {
        draw = draw
            .wrapping_mul(6_364_136_223_846_793_005)
            .wrapping_add(1_442_695_040_888_963_407);
        step_counted(&rt, &mut pool, &mut count, draw);
        expect_so(&rt, pool.instances() == count.all(), "as counted");
    }
}
