//! The step machines, told events by hand.

use crate::stub_causes::{add_missed, add_read};
use crate::stub_replies::{Wanted, event_of};
use crate::words::{
    add_holder, add_named, add_word, brick, cut, expect_so, expect_words, key, number, small, value,
};
use crash_base::{BrickNo, Moment, Version, is_same_key, is_same_version};
use send_windows::PassMark;
use session_cookie::{Cookie, Holder, HolderList};
use ssm_stub::{BrickList, ReadCall, StubNext, WriteCall, WriteRefusal};
use std::alloc::Global;
use std::process::Abort;

/// The nonce of each call.
const NONCE: Version = Version {
    node: 1,
    boot: 2,
    serial: 5,
};

/// The version that each read asks for.
const VERSION: Version = Version {
    node: 1,
    boot: 1,
    serial: 3,
};

/// The last moment of each lease.
const EXPIRY: Moment = Moment(5000);

/// The bricks of a write, and how many are to store the value; the events that it is told, `N*` before
/// one that is told N times; and what it wants at first and after each event, `sB` to send to a brick
/// and `rB` to receive from it, with its answer where it comes. Behind `at last` stand its answer once
/// more and the marks of its bricks.
const WRITES: &str =
    "1 2 3;1|3*sent stored.1.7 stored.2.8 stored.3.9|s1 r1 ok 1.7 r2 r3 end at last ok 1.7 marks a a a
1 2 3;2|3*sent stored.1.7 stored.2.8 stored.3.9|s1 r1 r2 ok 1.7 2.8 r3 end at last ok 1.7 2.8 marks a a a
1 2 3;3|3*sent stored.1.7 stored.2.8 stored.3.9|s1 r1 r2 r3 ok 1.7 2.8 3.9 end at last ok 1.7 2.8 3.9 marks a a a
3 1 2;2|sent sent sent stored.3.9 stored.1.7 stored.2.8|s3 s1 s2 r3 r1 ok 3.9 1.7 r2 end at last ok 3.9 1.7 marks a a a
4;1|sent stored.4.1|s4 r4 ok 4.1 end at last ok 4.1 marks a
1 2 3 4 5 6 7 8 9 10 11 12 13 14 15 16;16|16*sent stored.1.1 stored.2.2 stored.3.3 stored.4.4 stored.5.5 stored.6.6 stored.7.7 stored.8.8 stored.9.9 stored.10.1 stored.11.2 stored.12.3 stored.13.4 stored.14.5 stored.15.6 stored.16.7|s1 r1 r2 r3 r4 r5 r6 r7 r8 r9 r10 r11 r12 r13 r14 r15 r16 ok 1.1 2.2 3.3 4.4 5.5 6.6 7.7 8.8 9.9 10.1 11.2 12.3 13.4 14.5 15.6 16.7 end at last ok 1.1 2.2 3.3 4.4 5.5 6.6 7.7 8.8 9.9 10.1 11.2 12.3 13.4 14.5 15.6 16.7 marks a a a a a a a a a a a a a a a a
1 2 3;2|3*sent silent stored.2.8 stored.3.9|s1 r1 r2 r3 ok 2.8 3.9 end at last ok 2.8 3.9 marks s a a
1 2 3;2|sent silent sent stored.1.7 stored.3.9|s1 s2 s3 r1 r3 ok 1.7 3.9 end at last ok 1.7 3.9 marks a s a
1 2;1|silent silent|s1 s2 missed 1:silent 2:silent end at last missed 1:silent 2:silent marks s s
1 2;2|2*sent full.1.65536.300 stored.2.8|s1 r1 r2 missed 1:full/65536/300 end at last missed 1:full/65536/300 marks a a
1 2;1|2*sent full.1.65536.300 stored.2.8|s1 r1 r2 ok 2.8 end at last ok 2.8 marks a a
3 1 2;3|3*sent full.3.5.6 silent 64*stored.2.8.0.serial|s3 r3 r1 r2 missed 3:full/5/6 1:silent 2:strayed end at last missed 3:full/5/6 1:silent 2:strayed marks a s s
1 2;2|2*sent stored.1.7 silent|s1 r1 r2 missed 2:silent end at last missed 2:silent marks a s
1;1|sent stored.1.7.0.node stored.1.7.0.boot stored.1.7.0.serial stored.1.7.0.key stored.1.7.0.version stored.2.7 full.1.5.6.serial full.2.5.6 found.1.7 absent.1.7 swept.1.7.9 put get sweep junk empty stored.1.9|s1 r1 r1 r1 r1 r1 r1 r1 r1 r1 r1 r1 r1 r1 r1 r1 r1 r1 ok 1.9 end at last ok 1.9 marks a
1;1|sent 63*junk stored.1.7|s1 r1 r1 ok 1.7 end at last ok 1.7 marks a
1;1|sent 63*empty silent|s1 r1 r1 missed 1:silent end at last missed 1:silent marks s
1;1|sent 64*junk stored.1.7|s1 r1 missed 1:strayed end end at last missed 1:strayed marks s
1 2;1|2*sent 63*stored.2.7 stored.1.7 63*stored.1.7 stored.2.8|s1 r1 r1 ok 1.7 r2 r2 end at last ok 1.7 marks a a
1 2 3;1|3*sent stored.1.7 silent full.3.5.6|s1 r1 ok 1.7 r2 r3 end at last ok 1.7 marks a s a
1 2;1|2*sent stored.1.7 64*junk|s1 r1 ok 1.7 r2 end at last ok 1.7 marks a s
1 2 3;1|sent sent|s1 s2 s3 at last marks u u u
1 2 3;1|3*sent stored.1.7|s1 r1 ok 1.7 r2 at last ok 1.7 marks a u u
1 2;1|stored.1.7 sent stored.1.7 sent sent stored.1.7 silent|s1 s1 s2 s2 r1 r1 ok 1.7 r2 end at last ok 1.7 marks a s
1;1|sent stored.1.7 silent stored.1.8 sent|s1 r1 ok 1.7 end end end end at last ok 1.7 marks a";

/// The holders of a cookie, each a brick with its incarnation, and the moment of a read by it; the
/// events that it is told; and what it wants at first and after each event, with its answer where it
/// comes.
const READS: &str = "1.7;0|sent found.1.7|s1 r1 found 61 end
1.7 2.8 3.9;0|sent found.1.7|s1 r1 found 61 end
2.8 1.7;0|sent silent sent found.1.7|s2 r2 s1 r1 found 61 end
1.7 2.8;0|silent sent found.2.8|s1 s2 r2 found 61 end
1.7 2.8;0|sent absent.1.8 sent found.2.8|s1 r1 s2 r2 found 61 end
1.7;0|sent found.1.9|s1 r1 found 61 end
1.7;5000|sent found.1.7|s1 r1 found 61 end
1.7;5001||expired 5001 5000 end
1.7;18446744073709551615||expired 18446744073709551615 5000 end
1.7;0|sent found.1.7.0.version found.1.7.0.node found.1.7.0.boot found.1.7.0.serial found.1.7.0.key found.2.7 stored.1.7 full.1.5.6 swept.1.7.9 put get sweep junk empty found.1.7|s1 r1 r1 r1 r1 r1 r1 r1 r1 r1 r1 r1 r1 r1 r1 r1 found 61 end
1.7;0|sent absent.1.8.0.version absent.1.8.0.node absent.1.8.0.boot absent.1.8.0.serial absent.1.8.0.key absent.2.8 absent.1.9|s1 r1 r1 r1 r1 r1 r1 r1 lost 1:crashed/9 end
1.7;0|sent absent.1.7 found.1.7|s1 r1 r1 found 61 end
1.7;0|sent absent.1.7.5001 absent.1.7.65000 found.1.7|s1 r1 r1 r1 found 61 end
1.7;0|sent absent.1.7.65001|s1 r1 lost 1:swept/65001 end
1.7;0|sent absent.1.7.18446744073709551615|s1 r1 lost 1:swept/18446744073709551615 end
1.7;0|sent absent.1.8.65001|s1 r1 lost 1:crashed/8 end
1.7;0|sent absent.1.6|s1 r1 lost 1:crashed/6 end
3.9 1.7 2.8 4.1;0|sent absent.3.10 sent silent sent 64*junk sent absent.4.1.70000|s3 r3 s1 r1 s2 r2 s4 r4 lost 3:crashed/10 1:silent 2:strayed 4:swept/70000 end
1.7;0|sent 63*absent.1.7 found.1.7|s1 r1 r1 found 61 end
1.7;0|sent 63*junk silent|s1 r1 r1 lost 1:silent end
1.7;0|sent 64*absent.1.7 found.1.7|s1 r1 lost 1:strayed end end
1.1 2.1 3.1 4.1 5.1 6.1 7.1 8.1 9.1 10.1 11.1 12.1 13.1 14.1 15.1 16.1;0|15*silent sent found.16.1|s1 s16 r16 found 61 end
1.7 2.8;0|found.1.7 sent sent found.1.7 silent|s1 s1 r1 r1 found 61 end end";

fn add_next(rt: &impl Abort, words: &mut String, next: StubNext) {
    match next {
        StubNext::Send { brick } => add_named(rt, words, "s", u64::from(brick.0)),
        StubNext::Receive { brick } => add_named(rt, words, "r", u64::from(brick.0)),
        StubNext::Ended => add_word(rt, words, "end"),
    }
}

/// Adds the holders of a cookie, which has the version, the key and the expiry of the write.
fn add_holders(rt: &impl Abort, words: &mut String, cookie: &Cookie) {
    let is_same = is_same_version(cookie.version, NONCE)
        && is_same_key(cookie.key, key(7))
        && cookie.expiry.0 == EXPIRY.0;
    expect_so(rt, is_same, "the cookie of a write");
    add_word(rt, words, "ok");
    for holder in cookie.bricks.as_slice() {
        add_holder(rt, words, holder);
    }
}

/// Adds the answer of a write, if it has one.
fn add_write_answer(rt: &impl Abort, words: &mut String, call: &WriteCall) {
    match call.answer() {
        None => {}
        Some(Ok(cookie)) => add_holders(rt, words, cookie),
        Some(Err(WriteRefusal::Missed(causes))) => add_missed(rt, words, causes),
        Some(Err(WriteRefusal::OutOfMemory)) => panic!(rt; "a write"),
    }
}

fn add_read_answer(rt: &impl Abort, words: &mut String, call: &ReadCall) {
    if let Some(answer) = call.answer() {
        add_read(rt, words, answer);
    }
}

fn add_marks(rt: &impl Abort, words: &mut String, call: &WriteCall, bricks: &str) {
    add_word(rt, words, "marks");
    for name in bricks.split(' ') {
        match call.mark(brick(rt, name)) {
            PassMark::Unheard => add_word(rt, words, "u"),
            PassMark::Answered => add_word(rt, words, "a"),
            PassMark::Silent => add_word(rt, words, "s"),
        }
    }
}

/// How often a call is told an event, and the event.
fn repeated<'a>(rt: &impl Abort, event: &'a str) -> (u64, &'a str) {
    match event.split_once('*') {
        Some((times, event)) => (number(rt, times), event),
        None => (1, event),
    }
}

/// Tells a write an event as often as the word says. Adds its answer where it came, and what the
/// write wants then.
fn tell_write(
    rt: &impl Abort,
    alloc: Global,
    words: &mut String,
    call: &mut WriteCall,
    word: &str,
) {
    let wanted = Wanted {
        nonce: NONCE,
        key: key(7),
        version: NONCE,
    };
    let (times, event) = repeated(rt, word);
    let had = call.answer().is_some();
    for _ in 0..times {
        call.hear(alloc, event_of(rt, alloc, wanted, event))
            .expect(rt, word);
    }
    if !had {
        add_write_answer(rt, words, call);
    }
    add_next(rt, words, call.next());
}

/// A write to the bricks that a text names, of which this many are to store the value.
fn write_call(rt: &impl Abort, alloc: Global, bricks: &str, least: u16) -> WriteCall {
    let mut list = BrickList::new(alloc);
    for name in bricks.split(' ') {
        list.push(brick(rt, name)).expect(rt, bricks);
    }
    let value = value(rt, alloc, "61");
    WriteCall::new(alloc, list, least, NONCE, key(7), value, EXPIRY).expect(rt, bricks)
}

fn expect_write(rt: &impl Abort, alloc: Global, row: &str) {
    let (order, rest) = cut(rt, row, '|');
    let (bricks, least) = cut(rt, order, ';');
    let (events, want) = cut(rt, rest, '|');
    let mut call = write_call(rt, alloc, bricks, small(rt, least));
    let mut words = String::new(alloc);
    add_next(rt, &mut words, call.next());
    for word in events.split(' ') {
        tell_write(rt, alloc, &mut words, &mut call, word);
    }
    add_word(rt, &mut words, "at last");
    add_write_answer(rt, &mut words, &call);
    add_marks(rt, &mut words, &call, bricks);
    expect_words(rt, &words, want, row);
}

/// Tells a read an event as often as the word says. Adds its answer where it came, and what the
/// read wants then.
fn tell_read(rt: &impl Abort, alloc: Global, words: &mut String, call: &mut ReadCall, word: &str) {
    let wanted = Wanted {
        nonce: NONCE,
        key: key(7),
        version: VERSION,
    };
    let (times, event) = repeated(rt, word);
    let had = call.answer().is_some();
    for _ in 0..times {
        call.hear(alloc, event_of(rt, alloc, wanted, event))
            .expect(rt, word);
    }
    if !had {
        add_read_answer(rt, words, call);
    }
    add_next(rt, words, call.next());
}

/// A read at a moment by a cookie of the holders that a text names.
fn read_call(rt: &impl Abort, alloc: Global, holders: &str, now: u64) -> ReadCall {
    let mut bricks = HolderList::new(alloc);
    for name in holders.split(' ') {
        let (at, incarnation) = cut(rt, name, '.');
        let holder = Holder {
            brick: brick(rt, at),
            incarnation: number(rt, incarnation),
        };
        bricks.push(holder).expect(rt, holders);
    }
    let cookie = Cookie {
        key: key(7),
        version: VERSION,
        expiry: EXPIRY,
        bricks,
    };
    ReadCall::new(alloc, Moment(now), NONCE, cookie).expect(rt, holders)
}

fn expect_read(rt: &impl Abort, alloc: Global, row: &str) {
    let (order, rest) = cut(rt, row, '|');
    let (holders, now) = cut(rt, order, ';');
    let (events, want) = cut(rt, rest, '|');
    let mut call = read_call(rt, alloc, holders, number(rt, now));
    let mut words = String::new(alloc);
    add_read_answer(rt, &mut words, &call);
    add_next(rt, &mut words, call.next());
    for word in events.split(' ') {
        if !word.is_empty() {
            tell_read(rt, alloc, &mut words, &mut call, word);
        }
    }
    expect_words(rt, &words, want, row);
}

#[test]
fn writes_and_reads_answer_by_the_events(rt: HostRuntime) {
    for row in WRITES.split('\n') {
        expect_write(&rt, rt.alloc(), row);
    }
    for row in READS.split('\n') {
        expect_read(&rt, rt.alloc(), row);
    }
}
