//! Hearing the bricks that a write left unheard at its answer.

ghost use Rattle.std.specs.Prelude.{◌≡◌, ℕ, List, [], IsTrue, IfOk, OnErr};
ghost use Rattle.outside.specs.Link.{Made};
ghost use Rattle.send_windows.specs.Passes.{AreHeard};
ghost use Rattle.ssm_stub.specs.declared.ear.Ear.{Ear};
ghost use Rattle.ssm_stub.specs.declared.event.StubEvent.{StubEvent};
ghost use Rattle.ssm_stub.specs.declared.reply.WriteReply.{WriteReply};
ghost use Rattle.ssm_stub.specs.Ears.{heard};
ghost use Rattle.ssm_stub.specs.Hearing.{ear_machine};
ghost use Rattle.ssm_stub.specs.Runs.{told_of, fits, call_of, Ran, ReceiveFails};
ghost use Rattle.ssm_stub.specs.Writes.{put_lawful, mark_by};
ghost use Rattle.ssm_stub.specs.Ends.{bricks_of, marks_of, StopsHearing, SettledAs, Settled};

use crate::ear::{Ear, Outcome, Stage};
use crate::event::StubNext;
use crate::exchange::receive_from;
use crate::reply::WriteReply;
use crate::write_call::put_heard;
use crash_base::{BrickNo, FrameBytes, OutOfMemory, SessionKey, Version};
use outside::Link;
use send_windows::{Pass, PassList, PassMark};
use std::alloc::Global;

/// Hears what comes next from a brick that was asked and from which so many strays came.
fn hear_next<L: Link>(
    alloc: Global,
    link: &mut L,
    brick: BrickNo,
    nonce: Version,
    key: SessionKey,
    strays: u8,
    into: &mut FrameBytes,
) -> Result<Ear<WriteReply>, OutOfMemory>
    ensures ok { IfOk result (λ ear. (event : StubEvent)
        × IsTrue (fits (StubNext.Receive brick) (told_of event))
        × (ear ≡ heard (put_lawful nonce key brick) (Stage.Asked strays) (told_of event))
        × Made L.makes link.old (call_of [] (StubNext.Receive brick) event) link.new) }
    ensures want { OnErr result (ReceiveFails L.makes brick link.old link.new) }
{
    let told = receive_from(alloc, link, brick, into)?;
    Ok(put_heard(nonce, key, brick, Stage::Asked(strays), &told))
}

/// Hears a brick that was asked to its outcome. Bytes that come are put into `into`.
fn hear_out<L: Link>(
    alloc: Global,
    link: &mut L,
    brick: BrickNo,
    nonce: Version,
    key: SessionKey,
    into: &mut FrameBytes,
) -> Result<Outcome<WriteReply>, OutOfMemory>
    ensures ok { IfOk result (λ outcome. (events : List StubEvent)
        × Ran (ear_machine brick (put_lawful nonce key brick)) L.makes []
        (Ear.Open (Stage.Asked 0)) link.old events (Ear.Heard outcome) link.new) }
    ensures err { OnErr result (StopsHearing L.makes (put_lawful nonce key brick) brick link.old link.new) }
{
    let mut strays = 0u8;
    'frames: loop {
        match hear_next(alloc, link, brick, nonce, key, strays, into)? {
            Ear::Heard(outcome) => return Ok(outcome),
            Ear::Open(Stage::Asked(more)) => strays = more,
            Ear::Open(Stage::Unasked) => unreachable!(),
        }
    }
}

/// The mark of a pass by the outcome of its brick.
fn mark_of(outcome: Outcome<WriteReply>) -> PassMark
    ensures { result ≡ mark_by (Ear.Heard outcome) }
{
    match outcome {
        Outcome::Answered(_) => PassMark::Answered,
        Outcome::Silent => PassMark::Silent,
        Outcome::Strayed => PassMark::Silent,
    }
}

/// Hears the brick of a pass where it is unheard, and gives its mark.
fn settle_one<L: Link>(
    alloc: Global,
    link: &mut L,
    pass: Pass,
    nonce: Version,
    key: SessionKey,
    into: &mut FrameBytes,
) -> PassMark
    ensures { SettledAs L.makes (put_lawful nonce key) pass.brick pass.mark link.old link.new result }
{
    match pass.mark {
        PassMark::Answered => PassMark::Answered,
        PassMark::Silent => PassMark::Silent,
        PassMark::Unheard => match hear_out(alloc, link, pass.brick, nonce, key, into) {
            Ok(outcome) => mark_of(outcome),
            Err(OutOfMemory) => PassMark::Silent,
        },
    }
}

/// Hears the brick of each unheard pass, in order, for the Put of this nonce and key, and marks the pass: Answered by a
/// lawful reply, and Silent where the brick was silent or strayed, or where memory ran out. It sends nothing.
pub fn settle<L: Link>(
    alloc: Global,
    link: &mut L,
    passes: &mut PassList,
    nonce: Version,
    key: SessionKey,
)
    ensures settled { Settled L.makes (put_lawful nonce key) link.old passes.old (marks_of passes.new) link.new }
    ensures bricks { bricks_of passes.new ≡ bricks_of passes.old }
    ensures heard { AreHeard passes.new }
{
    let mut frame = FrameBytes::new(alloc);
    for at in 0..passes.len() {
        let pass = passes.as_slice()[at];
        let mark = settle_one(alloc, link, pass, nonce, key, &mut frame);
        passes.mark(at, mark);
    }
}
