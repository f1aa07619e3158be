//! Events in a row in a world, and what calls answer then.
//!
//! A row has the number of the world's bricks, the events and the words that are wanted, in this language:
//! `write N L B..` and `read N C` begin a call with nonce N, a write of the text `a` with least L to bricks
//! B.., and a read of the cookie that call C answered, at moment 5, or M in `read N C M`; `send C`, `lose C`
//! and `half C` are its sends that meet no silence, that meet silence and whose packet is not sent, and that
//! meet silence while the packet is sent; `deliver P`, `hear C P`, `hush C`, `crash B` and `sweep B M` are the
//! events of these names, and `hear C P N` is N of them; `tell C` adds words for the call's answer, and
//! `next C`, `packet P`, `bricks`, `calls`, `packets`, `values B`, `incarnation B` and `new N` for what the
//! world's functions of these names answer.

use crate::words::{brick, expect_words, number};
use crate::world_words::{add_answer, add_brick, add_count, add_new, add_next};
use crash_base::{Items, Moment, SessionBytes, SessionKey, Version};
use session_cookie::Cookie;
use ssm_stub::BrickList;
use ssm_world::{World, WorldEvent};
use std::alloc::Global;
use std::process::Abort;

/// Each row: the number of bricks, the events, and the words that are wanted, with `|` between them.
const ROWS: [&str; 16] = [
    "1|write 0 1 1;send 0;deliver 0;deliver 0;hear 0 1;tell 0;crash 1;read 1 0;send 1;deliver 3;hear 1 2;tell 1;hear 1 4;tell 1|ok 1.1 waits lost 1:crashed(2)",
    "1|write 0 1 1;write 0 1 1;tell 0;tell 1|waits",
    "2|write 0 3 1 2;write 1 1 1 1;write 2 0 1;tell 0|",
    "2|write 0 1 1 2;half 0;send 0;deliver 0;deliver 1;hear 0 2;tell 0;hear 0 3;tell 0|waits ok 2.1",
    "1|write 0 1 1;lose 0;tell 0;deliver 0;hear 0 0;tell 0|missed 1:silent missed 1:silent",
    "3|write 0 2 1 2 3;send 0;send 0;send 0;deliver 0;deliver 1;hear 0 3;hear 0 4;tell 0;crash 1;read 1 0;send 1;deliver 5;hear 1 6;send 1;deliver 7;hear 1 8;tell 1|ok 1.1 2.1 found a",
    "1|write 0 1 1;send 0;deliver 0;hear 0 1;sweep 1 1860000;read 1 0;send 1;deliver 2;hear 1 3;tell 1|found a",
    "1|write 0 1 1;send 0;deliver 0;hear 0 1;sweep 1 1860001;read 1 0;send 1;deliver 2;hear 1 3;tell 1|lost 1:swept(1860001)",
    "1|sweep 1 1900000;write 0 1 1;send 0;deliver 0;hear 0 1;read 1 0;send 1;deliver 2;hear 1 3;tell 1;sweep 1 1870000;read 2 0;send 2;deliver 4;hear 2 5;tell 2|found a lost 1:swept(1900000)",
    "1|write 0 1 1;send 0;deliver 0;hear 0 1;read 1 0;send 1;hush 1;tell 1|lost 1:silent",
    "1|write 0 1 1;send 0;deliver 0;hear 0 1;read 1 0 1800000;tell 1;read 2 0 1800001;tell 2;send 2;tell 2;packets|waits expired 1800001 1800000 expired 1800001 1800000 2",
    "1|write 0 1 1;send 0;deliver 0;write 1 1 1;send 1;hear 1 1 63;tell 1;hear 1 1;tell 1;deliver 2;hear 1 3;tell 1|waits missed 1:strayed missed 1:strayed",
    "1|write 0 1 1;send 0;deliver 0;hear 0 1;write 1 1 1;send 1;hear 1 1 63;deliver 2;hear 1 3;tell 1;read 2 0;send 2;hear 2 1 64;tell 2|ok 1.1 lost 1:strayed",
    "2|write 0 1 1 2;next 0;send 0;next 0;send 0;next 0;deliver 0;deliver 1;hear 0 2;tell 0;next 0;hear 0 2;next 0;hear 0 3;tell 0;next 0|send 1 send 2 receive 1 ok 1.1 receive 2 receive 2 ok 1.1 ended",
    "3|bricks;calls;packets;write 0 1 1;calls;next 1;send 0;packets;packet 0;packet 1;values 1;deliver 0;values 1;incarnation 1;crash 1;values 1;incarnation 1;values 0;incarnation 4|3 0 0 1 none 1 1 none 0 1 1 0 2 none none",
    "1|new 5;write 5 1 1;new 5;write 3 1 1;calls;new 3;new 4;new 5;new 6;write 3 1 1;write 5 1 1;calls;write 6 1 1;calls|new used 2 used new used new 2 3",
];

fn version(serial: u64) -> Version {
    Version {
        node: 1,
        boot: 1,
        serial,
    }
}

fn bricks(rt: &impl Abort, alloc: Global, texts: &[&str]) -> BrickList {
    let mut bricks = Items::new(alloc);
    for text in texts {
        bricks.push(brick(rt, text)).expect(rt, "bricks");
    }
    bricks
}

/// A copy of the cookie that a write answered.
fn cookie_of(rt: &impl Abort, alloc: Global, world: &World, call: u64) -> Cookie {
    let write = world.write_of(call).expect(rt, "a write");
    let answer = write.answer().expect(rt, "an answer");
    match answer {
        Ok(cookie) => Cookie {
            key: cookie.key,
            version: cookie.version,
            expiry: cookie.expiry,
            bricks: Items::from_vec(Vec::from_slice(alloc, cookie.bricks.as_slice()).expect(
                rt, "holders",
            )),
        },
        Err(_) => panic!(rt; "no cookie"),
    }
}

/// The event that words spell.
fn event(rt: &impl Abort, alloc: Global, world: &World, words: &[&str]) -> WorldEvent {
    match words {
        ["write", nonce, least, asked @ ..] => WorldEvent::Write {
            nonce: version(number(rt, nonce)),
            key: SessionKey([7; 16]),
            value: SessionBytes::from_vec(Vec::from_slice(alloc, b"a").expect(rt, "a value")),
            expiry: Moment(1_800_000),
            bricks: bricks(rt, alloc, asked),
            least: least.parse().expect(rt, least),
        },
        ["read", nonce, call] => read(rt, alloc, world, nonce, call, 5),
        ["read", nonce, call, moment] => { read(rt, alloc, world, nonce, call, number(rt, moment)) }
        _ => plain_event(rt, words),
    }
}

/// A read of the cookie that a write answered, at a moment.
fn read(
    rt: &impl Abort,
    alloc: Global,
    world: &World,
    nonce: &str,
    call: &str,
    moment: u64,
) -> WorldEvent {
    WorldEvent::Read {
        nonce: version(number(rt, nonce)),
        now: Moment(moment),
        cookie: cookie_of(rt, alloc, world, number(rt, call)),
    }
}

/// The event that words spell which is no call's begin.
fn plain_event(rt: &impl Abort, words: &[&str]) -> WorldEvent {
    match words {
        ["send", call] => send(number(rt, call), false, false),
        ["lose", call] => send(number(rt, call), true, false),
        ["half", call] => send(number(rt, call), true, true),
        ["deliver", packet] => WorldEvent::Deliver {
            packet: number(rt, packet),
        },
        ["hear", call, packet] => WorldEvent::Hear {
            call: number(rt, call),
            packet: number(rt, packet),
        },
        ["hush", call] => WorldEvent::Hush {
            call: number(rt, call),
        },
        ["crash", number] => WorldEvent::Crash {
            brick: brick(rt, number),
        },
        ["sweep", at, moment] => WorldEvent::Sweep {
            brick: brick(rt, at),
            moment: Moment(number(rt, moment)),
        },
        _ => panic!(rt; "no event"),
    }
}

fn send(call: u64, silent: bool, sent: bool) -> WorldEvent {
    WorldEvent::Send { call, silent, sent }
}

/// Adds words for what is asked of a world, if that is what these words spell.
fn has_told(rt: &impl Abort, world: &World, found: &mut String, words: &[&str]) -> bool {
    match words {
        ["tell", call] => add_answer(rt, found, world, number(rt, call)),
        ["next", call] => add_next(rt, found, world.next_of(number(rt, call))),
        ["packet", packet] => add_brick(rt, found, world.packet_of(number(rt, packet))),
        ["bricks"] => add_count(rt, found, Some(u64::from(world.bricks()))),
        ["calls"] => add_count(rt, found, Some(world.calls())),
        ["packets"] => add_count(rt, found, Some(world.packets())),
        ["values", at] => add_count(rt, found, world.values(brick(rt, at))),
        ["incarnation", at] => add_count(rt, found, world.incarnation(brick(rt, at))),
        ["new", nonce] => add_new(rt, found, world.is_new(version(number(rt, nonce)))),
        _ => return false,
    }
    true
}

/// Makes the event that words spell happen so many times.
fn repeat(rt: &impl Abort, alloc: Global, world: &mut World, event: &WorldEvent, times: u64) {
    for _ in 0..times {
        world.step(alloc, event).expect(rt, "memory");
    }
}

/// Adds words for what is asked of a world, or makes the event that words spell happen.
fn go_on(rt: &impl Abort, alloc: Global, world: &mut World, found: &mut String, words: &[&str]) {
    if has_told(rt, world, found, words) {
        return;
    }
    match words {
        ["hear", call, packet, times] => {
            let event = plain_event(rt, &["hear", call, packet]);
            repeat(rt, alloc, world, &event, number(rt, times));
            drop(event);
        }
        _ => {
            let event = event(rt, alloc, world, words);
            repeat(rt, alloc, world, &event, 1);
            drop(event);
        }
    }
}

fn run_row(rt: &impl Abort, alloc: Global, row: &str) {
    let (bricks, rest) = row.split_once('|').expect(rt, row);
    let (events, want) = rest.split_once('|').expect(rt, row);
    let count = bricks.parse().expect(rt, row);
    let mut world = World::new(alloc, count).expect(rt, "a world");
    let mut found = String::new(alloc);
    for line in events.split(';') {
        let mut words = Vec::new(alloc);
        for word in line.split(' ') {
            words.push(word).expect(rt, row);
        }
        go_on(rt, alloc, &mut world, &mut found, &words);
    }
    expect_words(rt, &found, want, row);
}

#[test]
fn calls_answer_by_the_events(rt: HostRuntime) {
    for row in ROWS {
        run_row(&rt, rt.alloc(), row);
    }
}
