//! Steps of a call over a link.

ghost use Rattle.std.specs.Prelude.{◌≡◌, ◌≢◌, ℕ, ◌≤◌, List, IsTrue, IfOk, OnOk, OnErr, length};
ghost use Rattle.crash_base.specs.declared.items.TheConstants.{MAX_FRAME_BYTES};
ghost use Rattle.outside.specs.Link.{Made};
ghost use Rattle.ssm_stub.specs.declared.event.StubEvent.{StubEvent};
ghost use Rattle.ssm_stub.specs.Runs.{told_of, fits, call_of, BreaksOff, Ran, ReceiveFails, Stopped};
ghost use Rattle.ssm_stub.specs.Writes.{write_until};
ghost use Rattle.ssm_stub.specs.Reads.{read_machine};

use crate::event::{StubNext, Told};
use crate::read_call::ReadCall;
use crate::write_call::WriteCall;
use crash_base::{BrickNo, FrameBytes, OutOfMemory};
use outside::{Link, Received, Sent};
use ssm_frames::decode;
use std::alloc::Global;

/// Sends the ask to a brick.
fn send_ask<L: Link>(
    alloc: Global,
    link: &mut L,
    brick: BrickNo,
    ask: &[u8],
) -> Result<Told, OutOfMemory>
    requires some { 1 ≤ length ask.now }
    requires few { length ask.now ≤ MAX_FRAME_BYTES }
    ensures told { IfOk result (λ told. (event : StubEvent) × (told ≡ told_of event)
        × IsTrue (fits (StubNext.Send brick) told)
        × Made L.makes link.old (call_of ask.now (StubNext.Send brick) event) link.new) }
    ensures want { OnErr result (BreaksOff L.makes ask.now (StubNext.Send brick) link.old link.new) }
{
    match link.send(alloc, brick, ask) {
        Sent::Done => Ok(Told::Sent),
        Sent::Silent => Ok(Told::Silent),
        Sent::OutOfMemory => Err(OutOfMemory),
    }
}

/// Receives a frame from a brick, and reads it. The bytes stand in `into` then.
pub(crate) fn receive_from<L: Link>(
    alloc: Global,
    link: &mut L,
    brick: BrickNo,
    into: &mut FrameBytes,
) -> Result<Told, OutOfMemory>
    ensures told { IfOk result (λ told. (event : StubEvent) × (told ≡ told_of event)
        × IsTrue (fits (StubNext.Receive brick) told)
        × ((ask : List ℕ) → Made L.makes link.old (call_of ask (StubNext.Receive brick) event) link.new)) }
    ensures want { OnErr result (ReceiveFails L.makes brick link.old link.new) }
{
    match link.receive(alloc, brick, into) {
        Received::Got => match decode(alloc, into.as_slice()) {
            Ok(frame) => Ok(Told::Came(frame)),
            Err(OutOfMemory) => Err(OutOfMemory),
        },
        Received::Silent => Ok(Told::Silent),
        Received::OutOfMemory => Err(OutOfMemory),
    }
}

/// Makes the step that a call wants. Bytes that come are put into `into`.
fn exchange<L: Link>(
    alloc: Global,
    link: &mut L,
    next: StubNext,
    ask: &[u8],
    into: &mut FrameBytes,
) -> Result<Told, OutOfMemory>
    requires wanted { next ≢ StubNext.Ended }
    requires some { 1 ≤ length ask.now }
    requires few { length ask.now ≤ MAX_FRAME_BYTES }
    ensures told { IfOk result (λ told. (event : StubEvent) × (told ≡ told_of event)
        × IsTrue (fits next told) × Made L.makes link.old (call_of ask.now next event) link.new) }
    ensures want { OnErr result (BreaksOff L.makes ask.now next link.old link.new) }
{
    match next {
        StubNext::Send { brick } => send_ask(alloc, link, brick, ask),
        StubNext::Receive { brick } => receive_from(alloc, link, brick, into),
        StubNext::Ended => unreachable!(),
    }
}

/// Makes this step, which a write wants, and tells it what came of it.
pub(crate) fn write_once<L: Link>(
    alloc: Global,
    link: &mut L,
    call: &mut WriteCall,
    next: StubNext,
    ask: &[u8],
    into: &mut FrameBytes,
) -> Result<(), OutOfMemory>
    requires wanted { next ≢ StubNext.Ended }
    requires some { 1 ≤ length ask.now }
    requires few { length ask.now ≤ MAX_FRAME_BYTES }
    ensures ok { OnOk result ((event : StubEvent) × IsTrue (fits next (told_of event))
        × (call.new ≡ write_until.hear call.old (told_of event))
        × Made L.makes link.old (call_of ask.now next event) link.new) }
    ensures same { OnErr result (call.new ≡ call.old) }
    ensures want { OnErr result (BreaksOff L.makes ask.now next link.old link.new) }
{
    let told = exchange(alloc, link, next, ask, into)?;
    call.hear_told(alloc, &told)
}

/// Goes on with a write until it has its answer.
pub(crate) fn write_out<L: Link>(
    alloc: Global,
    link: &mut L,
    call: &mut WriteCall,
    ask: &[u8],
) -> Result<(), OutOfMemory>
    requires some { 1 ≤ length ask.now }
    requires few { length ask.now ≤ MAX_FRAME_BYTES }
    ensures ok { OnOk result ((events : List StubEvent)
        × Ran write_until L.makes ask.now call.old link.old events call.new link.new) }
    ensures ended { OnOk result (write_until.next call.new ≡ StubNext.Ended) }
    ensures err { OnErr result (Stopped write_until L.makes ask.now call.old link.old call.new link.new) }
{
    let mut frame = FrameBytes::new(alloc);
    'steps: loop {
        let next = call.next_until_answer();
        if let StubNext::Ended = next {
            return Ok(());
        }
        write_once(alloc, link, call, next, ask, &mut frame)?;
    }
}

/// Makes this step, which a read wants, and tells it what came of it.
pub(crate) fn read_once<L: Link>(
    alloc: Global,
    link: &mut L,
    call: &mut ReadCall,
    next: StubNext,
    ask: &[u8],
    into: &mut FrameBytes,
) -> Result<(), OutOfMemory>
    requires wanted { next ≢ StubNext.Ended }
    requires some { 1 ≤ length ask.now }
    requires few { length ask.now ≤ MAX_FRAME_BYTES }
    ensures ok { OnOk result ((event : StubEvent) × IsTrue (fits next (told_of event))
        × (call.new ≡ read_machine.hear call.old (told_of event))
        × Made L.makes link.old (call_of ask.now next event) link.new) }
    ensures same { OnErr result (call.new ≡ call.old) }
    ensures want { OnErr result (BreaksOff L.makes ask.now next link.old link.new) }
{
    let told = exchange(alloc, link, next, ask, into)?;
    call.hear_told(alloc, told)
}

/// Goes on with a read until it has its answer.
pub(crate) fn read_out<L: Link>(
    alloc: Global,
    link: &mut L,
    call: &mut ReadCall,
    ask: &[u8],
) -> Result<(), OutOfMemory>
    requires some { 1 ≤ length ask.now }
    requires few { length ask.now ≤ MAX_FRAME_BYTES }
    ensures ok { OnOk result ((events : List StubEvent)
        × Ran read_machine L.makes ask.now call.old link.old events call.new link.new) }
    ensures ended { OnOk result (read_machine.next call.new ≡ StubNext.Ended) }
    ensures err { OnErr result (Stopped read_machine L.makes ask.now call.old link.old call.new link.new) }
{
    let mut frame = FrameBytes::new(alloc);
    'steps: loop {
        let next = call.next();
        if let StubNext::Ended = next {
            return Ok(());
        }
        read_once(alloc, link, call, next, ask, &mut frame)?;
    }
}
