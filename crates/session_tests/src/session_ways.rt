//! What a request does with its session, step by step, over the link in memory.

use crate::link::strike;
use crate::stub_causes::{
    add_cookie, add_expired, add_lost, add_missed, add_overload, add_windows, add_written, copied,
};
use crate::windows::opened;
use crate::words::{
    add_number, add_value, add_word, begin_line, cut, expect_words, key, number, small, value, word,
};
use crash_base::{Moment, SessionBytes, Version};
use link_memory::{MAX_LINK_BRICKS, ScriptLink};
use outside::Link;
use send_windows::{TakeRefusal, Windows};
use session_cookie::Cookie;
use session_way::{
    ReadOutcome, SessionLease, SessionRead, SessionWay, Wants, WriteOrder, WriteOutcome,
    WriteParts, expiry_at, value_to_write,
};
use ssm_stub::StubNext;
use std::alloc::Global;
use std::fmt::Write;
use std::mem;
use std::process::Abort;

/// How many bricks there are, the windows and what happens, and what is told.
///
/// `now N` sets the moment. `order HEX` makes a way that is to write a value, and `cookie` one that reads by the cookie
/// that was written last. `windows` makes one step of the windows, and tells what came of it. `outside N` makes at most
/// so many steps outside while the way wants them, and tells how many it made and what is wanted then. `told` tells the
/// answer of the read or the write. `settle` says that the response has left, `part` takes the write apart, so that its
/// passes alone are held, and `back` gives back what is held. `facts` tells each window with what is in flight, and
/// `counts` what the link has counted. `lose`, `mute`, `repeat`, `crash` and `sweep` are of the link. All writes have
/// the key 7; nonces are numbered from 0.
const WAYS: &str =
    "open 3 3 2|order 61 / windows / facts / outside 9 / told / facts / settle / outside 9 / windows / facts|given / 1:4/1 2:4/1 3:4/1 / made 5 nothing / version 0 bricks 1 2 / 1:4/1 2:4/1 3:4/1 / made 1 windows / rests version 0 bricks 1 2 / 1:5/0 2:5/0 3:5/0
open 3 3 2|lose 1 1 / order 61 / windows / outside 9 / told / settle / outside 9 / windows / facts / cookie / outside 1 / outside 9 / told|given / made 6 nothing / version 0 bricks 2 3 / made 0 windows / rests version 0 bricks 2 3 / 1:2/0 2:5/0 3:5/0 / made 1 outside / made 1 nothing / found 7 1800000 61
open 3 2 2|order 61 / windows / outside 9 / told / settle / outside 9 / windows / order 62 / windows / outside 9 / told / back / facts|given / made 4 nothing / version 0 bricks 1 2 / made 0 windows / rests version 0 bricks 1 2 / given / made 4 nothing / version 1 bricks 2 3 / back version 1 bricks 2 3 / 1:5/0 2:6/0 3:5/0
open 3 3 2|lose 2 1 / lose 3 1 / order 61 / windows / outside 9 / told / counts / settle / outside 9 / windows / facts|given / made 6 nothing / missed 2:silent 3:silent / hushed 2 got 1 / made 0 windows / rests missed 2:silent 3:silent / 1:5/0 2:2/0 3:2/0
open 3 3 2|lose 2 1 / lose 3 1 / order 61 / windows / outside 9 / part / windows / facts|given / made 6 nothing / parted missed 2:silent 3:silent / rests / 1:5/0 2:2/0 3:2/0
open 3 3 2|order 61 / windows / part / facts / outside 9 / windows / facts|given / parted / 1:4/1 2:4/1 3:4/1 / made 0 windows / rests / 1:2/0 2:2/0 3:2/0
open 3 3 2|order 61 / windows / part / settle / back / facts / back / facts|given / parted / back / 1:2/0 2:2/0 3:2/0 / back / 1:2/0 2:2/0 3:2/0
open 2 2 2|order 61 / windows / order 61 / windows / order 61 / windows / order 61 / windows / order 61 / windows / facts|given / given / given / given / overload 1:4/4 2:4/4 / 1:4/4 2:4/4
open 3 3 2|order 61 / windows / back / facts|given / back / 1:2/0 2:2/0 3:2/0
open 3 3 2|order 61 / windows / outside 2 / back / facts|given / made 2 outside / back / 1:2/0 2:2/0 3:2/0
open 3 3 2|order 61 / windows / outside 4 / back / facts|given / made 4 outside / back / 1:5/0 2:2/0 3:2/0
open 3 3 2|order 61 / windows / outside 9 / back / facts|given / made 5 nothing / back version 0 bricks 1 2 / 1:5/0 2:5/0 3:2/0
open 3 3 2|lose 3 1 / order 61 / windows / outside 9 / settle / back / facts|given / made 5 nothing / back version 0 bricks 1 2 / 1:5/0 2:5/0 3:2/0
open 3 3 2|order 61 / back / facts / windows|back / 1:4/0 2:4/0 3:4/0 / unwanted
open 3 3 2|order 61 / windows / outside 9 / back / now 1800000 / cookie / outside 9 / told / now 1800001 / cookie / outside 9 / told / counts|given / made 5 nothing / back version 0 bricks 1 2 / made 2 nothing / found 7 1800000 61 / made 0 nothing / expired 1800001 1800000 / hushed 0 got 3
open 3 3 2|order 61 / windows / outside 9 / back / crash 1 / cookie / outside 9 / told / sweep 2 1860001 / cookie / outside 2 / back / cookie / outside 9 / told|given / made 5 nothing / back version 0 bricks 1 2 / made 4 nothing / found 7 1800000 61 / made 2 outside / back / made 4 nothing / lost 1:crashed/2 2:swept/1860001
open 1 1 1|order 61 / windows / outside 9 / settle / outside 9 / windows / times 64 repeat 1 1 / cookie / outside 99 / told / counts|given / made 2 nothing / made 0 windows / rests version 0 bricks 1 / made 65 nothing / lost 1:strayed / hushed 0 got 65
open 2 2 2|order 61 / windows / outside 9 / back / times 64 repeat 1 1 / order 62 / windows / outside 99 / told / settle / outside 9 / windows / facts|given / made 4 nothing / back version 0 bricks 1 2 / given / made 67 nothing / missed 1:strayed / made 0 windows / rests missed 1:strayed / 1:2/0 2:6/0
open 2 2 1|order 61 / windows / outside 9 / back / order 62 / windows / outside 2 / back / facts / cookie / mute 1 1 / outside 9 / told|given / made 3 nothing / back version 0 bricks 1 / given / made 2 outside / back / 1:2/0 2:1/0 / made 3 nothing / lost 1:silent";

/// The value that an action sets, `-` for none; the moment of its request; the expiry and the value of the session that
/// was read, `-` for none; and the value that is written, `none` where nothing is.
const VALUES: &str = "61|0|-|61
61|0|5000000 62|61
-|0|-|none
-|0|899999 62|62
-|0|900000 62|none
-|1000000|1899999 62|62
-|1000000|1900000 62|none
-|1800001|1800000 62|62
-|0|1800000 62|none";

/// A link, windows, and a way over both; the moment, the number of the next nonce, and the cookie that was written
/// last.
#[derive(Drop)]
struct Scene {
    link: ScriptLink,
    windows: Windows,
    way: SessionWay,
    moment: u64,
    serial: u64,
    cookie: Option<Cookie>,
}

/// The nonce of a number.
fn nonce(serial: u64) -> Version {
    Version {
        node: 1,
        boot: 1,
        serial,
    }
}

/// An order to write a value at a moment.
fn order(rt: &impl Abort, alloc: Global, serial: u64, moment: u64, hex: &str) -> WriteOrder {
    assert!(rt; moment < 4_611_686_018_427_387_904);
    WriteOrder {
        nonce: nonce(serial),
        key: key(7),
        value: value(rt, alloc, hex),
        expiry: expiry_at(Moment(moment)),
    }
}

/// A read by the cookie that was written last.
fn reading(
    rt: &impl Abort,
    alloc: Global,
    serial: u64,
    moment: u64,
    cookie: &Option<Cookie>,
) -> SessionRead {
    let cookie = copied(rt, alloc, cookie.as_ref().expect(rt, "a cookie"));
    SessionRead::new(alloc, Moment(moment), nonce(serial), cookie).expect(rt, "a read")
}

fn wants_word(wants: Wants) -> &'static str {
    match wants {
        Wants::Nothing => "nothing",
        Wants::Outside => "outside",
        Wants::Windows => "windows",
    }
}

/// Makes one step outside, where the way wants one.
fn step<L: Link>(rt: &impl Abort, alloc: Global, way: &mut SessionWay, link: &mut L) -> bool {
    match way.wants() {
        Wants::Outside => {
            way.step_outside(alloc, link).expect(rt, "a step");
            true
        }
        Wants::Nothing => false,
        Wants::Windows => false,
    }
}

/// Makes at most so many steps outside.
fn go_outside<L: Link>(
    rt: &impl Abort,
    alloc: Global,
    words: &mut String,
    way: &mut SessionWay,
    link: &mut L,
    most: u64,
) {
    let mut made = 0u64;
    for _ in 0..most {
        if !step(rt, alloc, way, link) {
            break;
        }
        made = made.saturating_add(1);
    }
    add_word(rt, words, "made");
    add_number(rt, words, made);
    add_word(rt, words, wants_word(way.wants()));
}

/// Adds what a write came to, if it came to something. The cookie that it gave.
fn add_outcome(
    rt: &impl Abort,
    words: &mut String,
    outcome: Option<WriteOutcome>,
) -> Option<Cookie> {
    match outcome? {
        WriteOutcome::Written(cookie) => {
            add_cookie(rt, words, &cookie);
            Some(cookie)
        }
        WriteOutcome::Missed(causes) => {
            add_missed(rt, words, &causes);
            None
        }
    }
}

fn stage_word(way: &SessionWay) -> &'static str {
    match way {
        SessionWay::Writing(_) => "given",
        SessionWay::Resting => "rests",
        _ => "elsewhere",
    }
}

/// Makes one step of the windows, where the way wants one. The cookie that its write gave.
fn go_inside(
    rt: &impl Abort,
    alloc: Global,
    words: &mut String,
    way: &mut SessionWay,
    windows: &mut Windows,
) -> Option<Cookie> {
    match way.wants() {
        Wants::Windows => match way.step_windows(alloc, windows) {
            Ok(outcome) => {
                add_word(rt, words, stage_word(way));
                add_outcome(rt, words, outcome)
            }
            Err(TakeRefusal::Overload(full)) => {
                add_overload(rt, words, &full);
                None
            }
            Err(TakeRefusal::OutOfMemory) => panic!(rt; "a take"),
        },
        _ => {
            add_word(rt, words, "unwanted");
            None
        }
    }
}

/// Takes the write of a way apart, and holds its passes alone. The cookie that it gave.
fn part(rt: &impl Abort, words: &mut String, way: &mut SessionWay) -> Option<Cookie> {
    match mem::replace(way, SessionWay::Resting) {
        SessionWay::Writing(write) => {
            let WriteParts { outcome, passes } = write.into_parts();
            drop(mem::replace(way, SessionWay::Holding(passes)));
            add_outcome(rt, words, outcome)
        }
        _ => panic!(rt; "a write"),
    }
}

/// Adds what a read came to.
fn add_read(rt: &impl Abort, words: &mut String, read: SessionRead) {
    match read.next() {
        StubNext::Ended => {}
        _ => panic!(rt; "a read"),
    }
    match read.into_outcome() {
        ReadOutcome::Found(lease) => {
            let key = lease.key.0[15];
            write!(words, " found {key} {}", lease.expiry.0).expect(rt, "found");
            add_value(rt, words, lease.value.as_slice());
        }
        ReadOutcome::Expired { now, expiry } => add_expired(rt, words, now, expiry),
        ReadOutcome::Lost(causes) => add_lost(rt, words, &causes),
    }
}

/// Tells the answer of a read, which is over then, or of a write.
fn tell(rt: &impl Abort, alloc: Global, words: &mut String, way: &mut SessionWay) {
    if let SessionWay::Writing(write) = &*way {
        add_written(rt, alloc, words, write.answer().expect(rt, "an answer"));
        return;
    }
    match mem::replace(way, SessionWay::Resting) {
        SessionWay::Reading(read) => add_read(rt, words, read),
        _ => panic!(rt; "an answer"),
    }
}

fn add_counts<L: Link>(rt: &impl Abort, words: &mut String, link: &L) {
    let counts = link.counts();
    write!(words, " hushed {} got {}", counts.hushed, counts.got).expect(rt, "counts");
}

/// A line by which a way goes on. The cookie that its write gave.
fn go(
    rt: &impl Abort,
    alloc: Global,
    words: &mut String,
    scene: &mut Scene,
    line: &str,
) -> Option<Cookie> {
    match word(rt, line, 0) {
        "windows" => go_inside(rt, alloc, words, &mut scene.way, &mut scene.windows),
        "back" => {
            add_word(rt, words, "back");
            add_outcome(rt, words, scene.way.give_back(&mut scene.windows))
        }
        "part" => {
            add_word(rt, words, "parted");
            part(rt, words, &mut scene.way)
        }
        _ => {
            let most = number(rt, word(rt, line, 1));
            go_outside(rt, alloc, words, &mut scene.way, &mut scene.link, most);
            None
        }
    }
}

/// A line that tells something.
fn told(rt: &impl Abort, alloc: Global, words: &mut String, scene: &mut Scene, line: &str) {
    begin_line(rt, words);
    match word(rt, line, 0) {
        "told" => tell(rt, alloc, words, &mut scene.way),
        "facts" => add_windows(rt, words, scene.windows.facts()),
        "counts" => add_counts(rt, words, &scene.link),
        _ => {
            if let Some(cookie) = go(rt, alloc, words, scene, line) {
                scene.cookie = Some(cookie);
            }
        }
    }
}

/// A way that begins. The serial of the next nonce.
fn begin(rt: &impl Abort, alloc: Global, scene: &Scene, line: &str) -> SessionWay {
    match word(rt, line, 0) {
        "order" => SessionWay::Ordered(order(
            rt,
            alloc,
            scene.serial,
            scene.moment,
            word(rt, line, 1),
        )),
        _ => SessionWay::Reading(reading(rt, alloc, scene.serial, scene.moment, &scene.cookie)),
    }
}

/// A line of a way.
fn happen(rt: &impl Abort, alloc: Global, words: &mut String, scene: &mut Scene, line: &str) {
    let name = word(rt, line, 0);
    match name {
        "now" => scene.moment = number(rt, word(rt, line, 1)),
        "order" | "cookie" => {
            let next = begin(rt, alloc, scene, line);
            drop(mem::replace(&mut scene.way, next));
            scene.serial = scene.serial.saturating_add(1);
        }
        "settle" => scene.way.settle(),
        "lose" | "mute" | "repeat" | "crash" | "sweep" => {
            strike(rt, &mut scene.link, line, name);
        }
        _ => told(rt, alloc, words, scene, line),
    }
}

/// A line, as often as it says.
fn happen_times(rt: &impl Abort, alloc: Global, words: &mut String, scene: &mut Scene, line: &str) {
    match line.strip_prefix("times ") {
        None => happen(rt, alloc, words, scene, line),
        Some(rest) => {
            let (times, line) = cut(rt, rest, ' ');
            for _ in 0..number(rt, times) {
                happen(rt, alloc, words, scene, line);
            }
        }
    }
}

/// A way over so many bricks, with which nothing is done yet.
fn new_scene(rt: &impl Abort, alloc: Global, open: &str) -> Scene {
    let bricks = small(rt, word(rt, open, 1));
    assert!(rt; 1 <= bricks && bricks <= MAX_LINK_BRICKS);
    let link = ScriptLink::new(alloc, bricks).expect(rt, open);
    let windows = opened(rt, alloc, open);
    Scene {
        link,
        windows,
        way: SessionWay::Resting,
        moment: 0,
        serial: 0,
        cookie: None,
    }
}

fn expect_way(rt: &impl Abort, alloc: Global, row: &str) {
    let (open, rest) = cut(rt, row, '|');
    let (lines, want) = cut(rt, rest, '|');
    let mut words = String::new(alloc);
    let mut scene = new_scene(rt, alloc, open);
    for line in lines.split('/') {
        happen_times(rt, alloc, &mut words, &mut scene, line.trim());
    }
    drop(scene);
    expect_words(rt, &words, want, row);
}

/// The session that a text spells, `-` being none.
fn lease(rt: &impl Abort, alloc: Global, text: &str) -> Option<SessionLease> {
    if text == "-" {
        return None;
    }
    Some(SessionLease {
        key: key(7),
        value: value(rt, alloc, word(rt, text, 1)),
        expiry: Moment(number(rt, word(rt, text, 0))),
    })
}

/// The value that a text spells, `-` being none.
fn set(rt: &impl Abort, alloc: Global, text: &str) -> Option<SessionBytes> {
    if text == "-" {
        return None;
    }
    Some(value(rt, alloc, text))
}

fn expect_value(rt: &impl Abort, alloc: Global, row: &str) {
    let (text, rest) = cut(rt, row, '|');
    let (now, rest) = cut(rt, rest, '|');
    let (read, want) = cut(rt, rest, '|');
    let now = Moment(number(rt, now));
    let mut words = String::new(alloc);
    let set = set(rt, alloc, text);
    let read = lease(rt, alloc, read);
    match value_to_write(alloc, set.as_ref(), now, read.as_ref()).expect(rt, row) {
        Some(found) => add_value(rt, &mut words, found.as_slice()),
        None => add_word(rt, &mut words, "none"),
    }
    expect_words(rt, &words, want, row);
}

#[test]
fn ways_go_step_by_step(rt: HostRuntime) {
    for row in WAYS.split('\n') {
        expect_way(&rt, rt.alloc(), row);
    }
    for row in VALUES.split('\n') {
        expect_value(&rt, rt.alloc(), row);
    }
}
