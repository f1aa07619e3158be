//! A brick that is full: many writes to one brick, each with a nonce that comes after those before it.

use crate::words::expect_words;
use crate::world_words::{add_answer, add_count};
use crash_base::{BrickNo, Items, Moment, SessionBytes, SessionKey, Version};
use ssm_world::{World, WorldEvent};
use std::alloc::Global;
use std::process::Abort;

/// As many values as a brick keeps.
const VALUES: u64 = 65_536;

fn write(rt: &impl Abort, alloc: Global, serial: u64) -> WorldEvent {
    let mut bricks = Items::new(alloc);
    bricks.push(BrickNo(1)).expect(rt, "a brick");
    WorldEvent::Write {
        nonce: Version {
            node: 1,
            boot: 1,
            serial,
        },
        key: SessionKey([7; 16]),
        value: SessionBytes::from_vec(Vec::from_slice(alloc, b"a").expect(rt, "a value")),
        expiry: Moment(1_800_000),
        bricks,
        least: 1,
    }
}

fn step(rt: &impl Abort, alloc: Global, world: &mut World, event: WorldEvent) {
    world.step(alloc, &event).expect(rt, "memory");
    drop(event);
}

/// A write that is sent, delivered and heard, after as many as its serial: its packets are the next two.
fn write_through(rt: &impl Abort, alloc: Global, world: &mut World, serial: u64) {
    let ask = world.packets();
    step(rt, alloc, world, write(rt, alloc, serial));
    let send = WorldEvent::Send {
        call: serial,
        silent: false,
        sent: true,
    };
    step(rt, alloc, world, send);
    step(rt, alloc, world, WorldEvent::Deliver { packet: ask });
    let hear = WorldEvent::Hear {
        call: serial,
        packet: ask.saturating_add(1),
    };
    step(rt, alloc, world, hear);
}

#[test]
fn a_full_brick_is_a_cause(rt: HostRuntime) {
    let alloc = rt.alloc();
    let mut world = World::new(alloc, 1).expect(&rt, "a world");
    for serial in 0..VALUES {
        write_through(&rt, alloc, &mut world, serial);
    }
    write_through(&rt, alloc, &mut world, VALUES);
    let mut found = String::new(alloc);
    add_answer(&rt, &mut found, &world, VALUES - 1);
    add_answer(&rt, &mut found, &world, VALUES);
    add_count(&rt, &mut found, world.values(BrickNo(1)));
    expect_words(
        &rt,
        &found,
        "ok 1.1 missed 1:full(65536,65536) 65536",
        "a full brick",
    );
    drop(world);
}
