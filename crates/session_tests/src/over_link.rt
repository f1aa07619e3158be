//! A write and a read over the link in memory, by `write`, `settle` and `read`, and by the step machines.
//!
//! The many scenarios of both stand in `checks/scenarios`, where runs of `drive` play them. This value is longer than
//! one that a line holds.

ghost use Rattle.send_windows.specs.Passes.{AreUnheard};

use crate::stub_causes::{add_read, add_windows, add_written};
use crate::stub_steps::{bricks_of, step_out, step_read, step_to_answer};
use crate::windows::opened;
use crate::words::{expect_words, key};
use crash_base::{BrickNo, MAX_SESSION_BYTES, Moment, SessionBytes, Version};
use link_memory::{MAX_LINK_BRICKS, ScriptLink};
use send_windows::{PassList, PassMark, Windows};
use session_cookie::Cookie;
use ssm_stub::{ReadCall, WriteCall, read, settle, write};
use std::alloc::Global;
use std::process::Abort;

/// The nonce of the write.
const WRITE: Version = Version {
    node: 1,
    boot: 1,
    serial: 0,
};

/// The nonce of the read.
const READ: Version = Version {
    node: 1,
    boot: 1,
    serial: 1,
};

/// The last moment of the lease.
const EXPIRY: Moment = Moment(5000);

/// The longest value that a session has.
fn largest(rt: &impl Abort, alloc: Global) -> SessionBytes {
    let bytes = Vec::from_elem(alloc, 0xabu8, MAX_SESSION_BYTES).expect(rt, "a value");
    assert!(rt; bytes.len() <= MAX_SESSION_BYTES);
    SessionBytes::from_vec(bytes)
}

/// Makes the write by `write` and `settle`, and adds its answer.
fn write_by_calls(
    rt: &impl Abort,
    alloc: Global,
    words: &mut String,
    link: &mut ScriptLink,
    passes: &mut PassList,
) -> Option<Cookie>
    requires { AreUnheard passes.old }
{
    let value = largest(rt, alloc);
    let answer = write(alloc, link, passes, 2, WRITE, key(7), &value, EXPIRY);
    settle(alloc, link, passes, WRITE, key(7));
    add_written(rt, alloc, words, &answer)
}

/// Makes the write by its machine, and adds its answer.
fn write_by_steps(
    rt: &impl Abort,
    alloc: Global,
    words: &mut String,
    link: &mut ScriptLink,
    passes: &mut PassList,
) -> Option<Cookie> {
    let bricks = bricks_of(rt, alloc, passes.as_slice());
    let value = largest(rt, alloc);
    let mut call = WriteCall::new(alloc, bricks, 2, WRITE, key(7), value, EXPIRY).expect(
        rt, "a write",
    );
    step_to_answer(rt, alloc, link, &mut call);
    let kept = match call.answer() {
        Some(answer) => add_written(rt, alloc, words, answer),
        None => panic!(rt; "a write that has no answer"),
    };
    step_out(rt, alloc, link, &mut call, passes);
    kept
}

/// Makes the read by its machine, and adds its answer.
fn read_by_steps(
    rt: &impl Abort,
    alloc: Global,
    words: &mut String,
    link: &mut ScriptLink,
    cookie: Cookie,
) {
    let mut call = ReadCall::new(alloc, EXPIRY, READ, cookie).expect(rt, "a read");
    step_read(rt, alloc, link, &mut call);
    match call.answer() {
        Some(answer) => add_read(rt, words, answer),
        None => panic!(rt; "a read that has no answer"),
    }
}

/// Whether nothing is known of one of these passes.
fn has_unheard(passes: &PassList) -> bool {
    for pass in passes.as_slice() {
        if let PassMark::Unheard = pass.mark {
            return true;
        }
    }
    false
}

/// Spends passes, all of which were heard.
fn spend(rt: &impl Abort, windows: &mut Windows, passes: PassList) {
    let mut passes = passes;
    assert!(rt; !has_unheard(&passes));
    passes.hush();
    windows.spend(passes);
}

/// Takes passes, writes in one of the two ways, and spends the passes.
fn write_one(
    rt: &impl Abort,
    alloc: Global,
    words: &mut String,
    link: &mut ScriptLink,
    windows: &mut Windows,
    by_calls: bool,
) -> Option<Cookie> {
    match windows.take(alloc, 0) {
        Ok(passes) => {
            let mut passes = passes;
            let kept = if by_calls {
                write_by_calls(rt, alloc, words, link, &mut passes)
            } else {
                write_by_steps(rt, alloc, words, link, &mut passes)
            };
            spend(rt, windows, passes);
            kept
        }
        Err(_) => panic!(rt; "passes"),
    }
}

/// A link of so many bricks, the first of which loses its first reply.
fn losing_link(rt: &impl Abort, alloc: Global, bricks: u16) -> ScriptLink {
    assert!(rt; 1 <= bricks && bricks <= MAX_LINK_BRICKS);
    let mut link = ScriptLink::new(alloc, bricks).expect(rt, "a link");
    let first = BrickNo(1);
    assert!(rt; 1 <= first.0 && first.0 as usize <= link.bricks());
    link.lose(first, 1);
    link
}

/// Writes and reads in one of the two ways over three bricks.
fn play(rt: &impl Abort, alloc: Global, by_calls: bool) -> String {
    let mut words = String::new(alloc);
    let mut link = losing_link(rt, alloc, 3);
    let mut windows = opened(rt, alloc, "open 3 3 2");
    let kept = write_one(rt, alloc, &mut words, &mut link, &mut windows, by_calls);
    add_windows(rt, &mut words, windows.facts());
    let cookie = kept.expect(rt, "a cookie");
    if by_calls {
        let answer = read(alloc, &mut link, EXPIRY, READ, &cookie);
        add_read(rt, &mut words, &answer);
    } else {
        read_by_steps(rt, alloc, &mut words, &mut link, cookie);
    }
    words
}

#[test]
fn the_largest_value_is_written_and_found(rt: HostRuntime) {
    let digits = "ab"
        .repeat(rt.alloc(), MAX_SESSION_BYTES)
        .expect(&rt, "digits");
    let want = format!(in rt.alloc();
        "version 0 bricks 2 3 1:2/0 2:5/0 3:5/0 found {digits}"
    ).expect(&rt, "words");
    let by_calls = play(&rt, rt.alloc(), true);
    expect_words(&rt, &by_calls, &want, "by calls");
    let by_steps = play(&rt, rt.alloc(), false);
    expect_words(&rt, &by_steps, &want, "by steps");
}
