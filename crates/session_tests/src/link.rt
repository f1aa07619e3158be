//! The link in memory, call by call.

use crate::stub_replies::{Wanted, bytes_of};
use crate::words::{
    add_number, add_word, begin_line, brick, cut, expect_words, key, number, small, word,
};
use crash_base::{BrickNo, FrameBytes, MAX_FRAME_BYTES, Moment, Version};
use link_memory::{MAX_LINK_BRICKS, ScriptLink};
use outside::{Link, Received, Sent};
use ssm_frames::{Frame, decode};
use std::alloc::Global;
use std::fmt::Write;
use std::process::Abort;

/// How many bricks a link has, the calls of it, and what they answer.
///
/// `send B FRAME SERIAL` sends brick B a frame whose nonce and version have that serial, or bytes that
/// spell none. `hear B` receives from it: a reply is shown with the brick, its incarnation and the
/// serial of the nonce. `counts` gives how often bricks were silent and how many frames came. The
/// other lines are calls of that name, `mute` being `drop_asks`.
const CALLS: &str =
    "2|send 1 put 5 / made 1 / hear 1 / hear 1 / counts|done / 1 / stored 1.1#5 / silent / hushed 1 got 1
2|send 1 put 5 / send 1 put 6 / send 1 get 7 / made 1 / hear 1 / hear 1 / hear 1 / hear 1|done / done / done / 3 / stored 1.1#5 / stored 1.1#6 / absent 1.1#7 / silent
2|send 1 put 5 / send 1 get 5 / hear 1 / hear 1 / values 1|done / done / stored 1.1#5 / found 1.1#5 / 1
2|send 1 put 5 / hear 2 / made 2 / values 2 / hear 1 / counts|done / silent / 0 / 0 / stored 1.1#5 / hushed 1 got 1
1|lose 1 1 / send 1 put 5 / made 1 / values 1 / hear 1 / repeat 1 1 / hear 1 / made 1|done / 1 / 1 / silent / stored 1.1#5 / 1
1|lose 1 1 / lose 1 1 / send 1 put 5 / send 1 put 6 / send 1 put 7 / hear 1 / repeat 1 2 / repeat 1 1 / hear 1 / hear 1|done / done / done / stored 1.1#7 / stored 1.1#6 / stored 1.1#5
1|send 1 put 5 / send 1 put 6 / repeat 1 1 / hear 1 / hear 1 / hear 1 / hear 1|done / done / stored 1.1#5 / stored 1.1#6 / stored 1.1#5 / silent
1|send 1 put 5 / hear 1 / lose 1 1 / repeat 1 1 / hear 1 / send 1 put 6 / hear 1|done / stored 1.1#5 / stored 1.1#5 / done / silent
1|mute 1 1 / send 1 put 5 / made 1 / values 1 / send 1 put 6 / made 1 / hear 1 / hear 1|done / 0 / 0 / done / 1 / stored 1.1#6 / silent
1|mute 1 1 / lose 1 1 / send 1 put 5 / send 1 put 6 / send 1 put 7 / made 1 / hear 1 / hear 1|done / done / done / 2 / stored 1.1#7 / silent
1|mute 1 1 / send 1 junk 5 / send 1 put 6 / hear 1|done / done / stored 1.1#6
1|lose 1 1 / send 1 junk 5 / send 1 put 6 / send 1 put 7 / hear 1 / hear 1|done / done / done / stored 1.1#7 / silent
2|lose 2 1 / mute 2 1 / send 1 put 5 / hear 1|done / stored 1.1#5
1|lose 1 18446744073709551615 / lose 1 2 / send 1 put 5 / send 1 put 6 / made 1 / hear 1|done / done / 2 / silent
1|mute 1 18446744073709551615 / mute 1 2 / send 1 put 5 / send 1 put 6 / made 1 / hear 1|done / done / 0 / silent
2|send 3 put 5 / hear 3 / send 0 put 5 / hear 0 / hear 65535 / counts / made 1 / made 2|silent / silent / silent / silent / silent / hushed 5 got 0 / 0 / 0
1|send 1 junk 5 / send 1 stored.1.1 5 / send 1 swept.1.1.9 5 / send 1 long 5 / made 1 / hear 1 / counts|done / done / done / done / 0 / silent / hushed 1 got 0
1|send 1 put 5 / send 1 sweep.0.0.65000 6 / values 1 / send 1 sweep.0.0.65001 7 / values 1 / send 1 get 5 / hear 1 / hear 1 / hear 1 / hear 1|done / done / 1 / done / 0 / done / stored 1.1#5 / swept 1.1#6 / swept 1.1#7 / absent 1.1#5
1|send 1 put 5 / incarnation 1 / crash 1 / incarnation 1 / values 1 / made 1 / send 1 get 5 / hear 1 / hear 1|done / 1 / 2 / 0 / 1 / done / stored 1.1#5 / absent 1.2#5
1|send 1 put 5 / sweep 1 65000 / values 1 / sweep 1 65001 / values 1 / made 1 / hear 1|done / 1 / 0 / 1 / stored 1.1#5
16|send 16 put 5 / hear 16 / send 17 put 5 / hear 17 / incarnation 16 / counts|done / stored 16.1#5 / silent / silent / 1 / hushed 2 got 1";

/// The bytes that a word of a line spells.
fn frame(rt: &impl Abort, alloc: Global, name: &str, serial: u64) -> FrameBytes {
    if name == "long" {
        let bytes = Vec::from_elem(alloc, 0x55u8, MAX_FRAME_BYTES).expect(rt, name);
        return FrameBytes::from_vec(bytes);
    }
    let version = Version {
        node: 1,
        boot: 1,
        serial,
    };
    let wanted = Wanted {
        nonce: version,
        key: key(7),
        version,
    };
    bytes_of(rt, alloc, wanted, name)
}

/// Sends bytes over any link.
fn send<L: Link>(
    rt: &impl Abort,
    alloc: Global,
    words: &mut String,
    link: &mut L,
    to: BrickNo,
    bytes: &[u8],
) {
    assert!(rt; !bytes.is_empty() && bytes.len() <= MAX_FRAME_BYTES);
    match link.send(alloc, to, bytes) {
        Sent::Done => add_word(rt, words, "done"),
        Sent::Silent => add_word(rt, words, "silent"),
        Sent::OutOfMemory => panic!(rt; "a send"),
    }
}

fn add_from(
    rt: &impl Abort,
    words: &mut String,
    name: &str,
    nonce: Version,
    brick: BrickNo,
    incarnation: u64,
) {
    write!(words, " {name} {}.{incarnation}#{}", brick.0, nonce.serial).expect(rt, name);
}

/// Adds a reply.
fn add_reply(rt: &impl Abort, words: &mut String, reply: &Frame) {
    match reply {
        Frame::Stored {
            nonce,
            brick,
            incarnation,
            ..
        } => add_from(rt, words, "stored", *nonce, *brick, *incarnation),
        Frame::Found {
            nonce,
            brick,
            incarnation,
            ..
        } => add_from(rt, words, "found", *nonce, *brick, *incarnation),
        Frame::Absent {
            nonce,
            brick,
            incarnation,
            ..
        } => add_from(rt, words, "absent", *nonce, *brick, *incarnation),
        Frame::Swept {
            nonce,
            brick,
            incarnation,
            ..
        } => add_from(rt, words, "swept", *nonce, *brick, *incarnation),
        _ => add_word(rt, words, "no such reply"),
    }
}

/// Receives a reply over any link.
fn hear<L: Link>(rt: &impl Abort, alloc: Global, words: &mut String, link: &mut L, from: BrickNo) {
    let mut bytes = FrameBytes::new(alloc);
    match link.receive(alloc, from, &mut bytes) {
        Received::Got => match decode(alloc, bytes.as_slice()).expect(rt, "a reply") {
            Some(reply) => add_reply(rt, words, &reply),
            None => add_word(rt, words, "no frame"),
        },
        Received::Silent => add_word(rt, words, "silent"),
        Received::OutOfMemory => panic!(rt; "a receive"),
    }
}

/// Adds what any link has counted.
fn add_counts<L: Link>(rt: &impl Abort, words: &mut String, link: &L) {
    let counts = link.counts();
    add_word(rt, words, "hushed");
    add_number(rt, words, counts.hushed);
    add_word(rt, words, "got");
    add_number(rt, words, counts.got);
}

/// Adds a number of a brick of the link.
fn add_brick_number(rt: &impl Abort, words: &mut String, link: &ScriptLink, line: &str) {
    let brick = brick(rt, word(rt, line, 1));
    assert!(rt; 1 <= brick.0 && brick.0 as usize <= link.bricks());
    match word(rt, line, 0) {
        "values" => add_number(rt, words, link.values(brick)),
        "incarnation" => add_number(rt, words, link.incarnation(brick)),
        _ => add_number(rt, words, link.made(brick)),
    }
}

/// A line that makes something happen to a brick of the link.
pub fn strike(rt: &impl Abort, link: &mut ScriptLink, line: &str, name: &str) {
    let brick = brick(rt, word(rt, line, 1));
    assert!(rt; 1 <= brick.0 && brick.0 as usize <= link.bricks());
    match name {
        "lose" => link.lose(brick, number(rt, word(rt, line, 2))),
        "mute" => link.drop_asks(brick, number(rt, word(rt, line, 2))),
        "sweep" => link.sweep(brick, Moment(number(rt, word(rt, line, 2)))),
        "repeat" => {
            let reply = number(rt, word(rt, line, 2));
            assert!(rt; 1 <= reply && reply <= link.made(brick));
            link.repeat(brick, reply).expect(rt, line);
        }
        "crash" => {
            assert!(rt; link.incarnation(brick) < u64::MAX);
            link.crash(brick);
        }
        _ => panic!(rt; "{line}"),
    }
}

/// Makes a call of the link, and begins a line where it answers something.
fn call(rt: &impl Abort, alloc: Global, words: &mut String, link: &mut ScriptLink, line: &str) {
    let name = word(rt, line, 0);
    if let "lose" | "mute" | "repeat" | "crash" | "sweep" = name {
        strike(rt, link, line, name);
        return;
    }
    begin_line(rt, words);
    match name {
        "send" => {
            let serial = number(rt, word(rt, line, 3));
            let bytes = frame(rt, alloc, word(rt, line, 2), serial);
            let to = brick(rt, word(rt, line, 1));
            send(rt, alloc, words, link, to, bytes.as_slice());
        }
        "hear" => hear(rt, alloc, words, link, brick(rt, word(rt, line, 1))),
        "counts" => add_counts(rt, words, link),
        _ => add_brick_number(rt, words, link, line),
    }
}

fn expect_calls(rt: &impl Abort, alloc: Global, row: &str) {
    let (bricks, rest) = cut(rt, row, '|');
    let (calls, want) = cut(rt, rest, '|');
    let bricks = small(rt, bricks);
    assert!(rt; 1 <= bricks && bricks <= MAX_LINK_BRICKS);
    let mut link = ScriptLink::new(alloc, bricks).expect(rt, row);
    assert!(rt; link.bricks() == bricks as usize);
    let mut words = String::new(alloc);
    for line in calls.split('/') {
        call(rt, alloc, &mut words, &mut link, line.trim());
    }
    expect_words(rt, &words, want, row);
}

#[test]
fn links_in_memory_answer_by_their_lanes(rt: HostRuntime) {
    for row in CALLS.split('\n') {
        expect_calls(&rt, rt.alloc(), row);
    }
}
