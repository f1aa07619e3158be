//! Writes and reads by their step machines, over any link.

use crash_base::{BrickNo, FrameBytes, MAX_FRAME_BYTES};
use outside::{Link, Received, Sent};
use send_windows::{Pass, PassList, PassMark};
use ssm_stub::{BrickList, ReadCall, StubEvent, StubNext, WriteCall};
use std::alloc::Global;
use std::process::Abort;

/// The bricks of passes.
pub fn bricks_of(rt: &impl Abort, alloc: Global, passes: &[Pass]) -> BrickList {
    let mut bricks = BrickList::new(alloc);
    for pass in passes {
        bricks.push(pass.brick).expect(rt, "a brick");
    }
    bricks
}

/// The brick of the pass at a place.
pub fn brick_at(rt: &impl Abort, passes: &PassList, at: usize) -> BrickNo {
    let pass = passes.as_slice().get(at).expect(rt, "a pass");
    pass.brick
}

/// Marks the pass at a place.
pub fn mark_at(rt: &impl Abort, passes: &mut PassList, at: usize, mark: PassMark) {
    assert!(rt; at < passes.len());
    passes.mark(at, mark);
}

fn sent(rt: &impl Abort, answer: Sent) -> StubEvent {
    match answer {
        Sent::Done => StubEvent::Sent,
        Sent::Silent => StubEvent::Silent,
        Sent::OutOfMemory => panic!(rt; "a send"),
    }
}

fn received(rt: &impl Abort, answer: Received, bytes: FrameBytes) -> StubEvent {
    match answer {
        Received::Got => StubEvent::Frame(bytes),
        Received::Silent => StubEvent::Silent,
        Received::OutOfMemory => panic!(rt; "a receive"),
    }
}

/// Makes the step that a call wants over a link. None where it wants none.
fn step<L: Link>(
    rt: &impl Abort,
    alloc: Global,
    link: &mut L,
    next: StubNext,
    ask: &[u8],
) -> Option<StubEvent> {
    assert!(rt; 0 < ask.len() && ask.len() <= MAX_FRAME_BYTES);
    match next {
        StubNext::Send { brick } => Some(sent(rt, link.send(alloc, brick, ask))),
        StubNext::Receive { brick } => {
            let mut bytes = FrameBytes::new(alloc);
            let answer = link.receive(alloc, brick, &mut bytes);
            Some(received(rt, answer, bytes))
        }
        StubNext::Ended => None,
    }
}

/// Steps a write once over a link. Whether it wanted a step.
pub fn step_write<L: Link>(
    rt: &impl Abort,
    alloc: Global,
    link: &mut L,
    call: &mut WriteCall,
) -> bool {
    let ask = call.frame(alloc).expect(rt, "an ask");
    match step(rt, alloc, link, call.next(), ask.as_slice()) {
        Some(event) => {
            call.hear(alloc, event).expect(rt, "an event");
            true
        }
        None => false,
    }
}

/// Steps a read to its end.
pub fn step_read<L: Link>(rt: &impl Abort, alloc: Global, link: &mut L, call: &mut ReadCall) {
    let ask = call.frame(alloc).expect(rt, "an ask");
    for _ in 0..2000 {
        match step(rt, alloc, link, call.next(), ask.as_slice()) {
            Some(event) => call.hear(alloc, event).expect(rt, "an event"),
            None => return,
        }
    }
}

/// Steps a write until it has an answer.
pub fn step_to_answer<L: Link>(rt: &impl Abort, alloc: Global, link: &mut L, call: &mut WriteCall) {
    for _ in 0..2000 {
        if call.answer().is_some() {
            return;
        }
        step_write(rt, alloc, link, call);
    }
}

/// Steps a write to its end, and marks the passes as it says.
pub fn step_out<L: Link>(
    rt: &impl Abort,
    alloc: Global,
    link: &mut L,
    call: &mut WriteCall,
    passes: &mut PassList,
) {
    for _ in 0..2000 {
        if !step_write(rt, alloc, link, call) {
            break;
        }
    }
    for at in 0..passes.len() {
        let mark = call.mark(brick_at(rt, passes, at));
        mark_at(rt, passes, at, mark);
    }
}
