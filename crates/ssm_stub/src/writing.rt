//! A write over a link.

ghost use Rattle.std.specs.Prelude.{◌≡◌, ◌≢◌, ◌≤◌, Some, Err, map, length, IfOk};
ghost use Rattle.crash_base.specs.declared.items.TheConstants.{MAX_FRAME_BYTES};
ghost use Rattle.ssm_frames.specs.Spelling.{encode_of};
ghost use Rattle.send_windows.specs.Passes.{AreUnheard, hushed};
ghost use Rattle.ssm_stub.specs.Ends.{bricks_of, WriteEnds, WriteStops};
ghost use Rattle.ssm_stub.specs.Writes.{heard_passes, mark_by, pass_of, write_start, write_answer, write_until};

use crate::ask::Ask;
use crate::event::{BrickList, StubNext};
use crate::exchange::write_out;
use crate::reply::WriteReply;
use crate::write_call::{WriteCall, WriteRefusal, mark_by};
use crash_base::{BrickNo, FrameBytes, Moment, OutOfMemory, SessionBytes, SessionKey, Version};
use outside::Link;
use send_windows::{Pass, PassList};
use session_cookie::Cookie;
use std::alloc::{AllocFailed, Global};

/// The bricks of passes, in order.
///
/// # Errors
/// There is no memory.
pub fn bricks_of(alloc: Global, passes: &[Pass]) -> Result<BrickList, OutOfMemory>
    ensures { IfOk result (λ bricks. bricks ≡ bricks_of passes.now) }
{
    let mut bricks = Vec::with_capacity(alloc, passes.len())?;
    for pass in passes {
        bricks.push(pass.brick)?;
    }
    Ok(BrickList::from_vec(bricks))
}

/// Marks each pass by what a write heard of its brick: Unheard where that has no outcome, or is none of the
/// write's. It visits each brick for each pass, and takes no memory.
pub fn mark_passes(passes: &mut PassList, write: &WriteCall)
    ensures { passes.new ≡ heard_passes write.now passes.old }
{
    for at in 0..passes.len() {
        let brick = passes.as_slice()[at].brick;
        passes.mark(at, write.mark(brick));
    }
}

/// Marks each pass by what was heard of its brick, which stands at the same place.
fn mark_each(passes: &mut PassList, asks: &[Ask<BrickNo, WriteReply>])
    requires { bricks_of passes.old ≡ map (λ ask. ask.who) asks.now }
    ensures { passes.new ≡ map pass_of asks.now }
{
    for (at, ask) in asks.iter().enumerate() {
        passes.mark(at, mark_by(&ask.ear));
    }
}

/// A write of which nothing was sent, and the bytes of its ask.
#[derive(Drop)]
struct BegunWrite {
    call: WriteCall,
    ask: FrameBytes,
}

fn begin_write(
    alloc: Global,
    passes: &[Pass],
    least: u16,
    nonce: Version,
    key: SessionKey,
    value: &SessionBytes,
    expiry: Moment,
) -> Result<BegunWrite, OutOfMemory>
    ensures call { IfOk result (λ begun. begun.call
        ≡ write_start (bricks_of passes.now) least nonce key value.now expiry) }
    ensures ask { IfOk result (λ begun. begun.ask
        ≡ encode_of (write_start (bricks_of passes.now) least nonce key value.now expiry).ask) }
    ensures some { IfOk result (λ begun. 1 ≤ length begun.ask) }
    ensures few { IfOk result (λ begun. length begun.ask ≤ MAX_FRAME_BYTES) }
{
    let bricks = bricks_of(alloc, passes)?;
    let copy = SessionBytes::from_vec(Vec::from_slice(alloc, value.as_slice())?);
    let call = WriteCall::new(alloc, bricks, least, nonce, key, copy, expiry)?;
    let ask = call.frame(alloc)?;
    Ok(BegunWrite { call, ask })
}

/// The answer of a write that wants nothing more for it.
fn conclude_write(call: WriteCall) -> Result<Cookie, WriteRefusal>
    requires { write_until.next call ≡ StubNext.Ended }
    ensures { write_answer call ≡ Some result }
{
    match call.into_answer() {
        Some(answer) => answer,
        None => unreachable!(),
    }
}

/// Marks each unheard pass Silent, and answers that memory ran out.
fn stop(passes: &mut PassList) -> Result<Cookie, WriteRefusal>
    ensures marks { passes.new ≡ map hushed passes.old }
    ensures want { result ≡ Err WriteRefusal.OutOfMemory }
{
    passes.hush();
    Err(WriteRefusal::OutOfMemory)
}

/// Puts a value to the brick of each pass, in order, and then hears them, in order, until `least` have
/// stored it. The version of the value is the nonce. The cookie names these bricks, in that order, with
/// the incarnations that they told. Each pass is marked by what was heard of its brick: Answered by a
/// lawful reply, Silent where the brick was silent or strayed; what was not heard stays Unheard, and is
/// for `settle`. It copies the value twice.
///
/// # Errors
/// `Missed` where all bricks were heard and fewer than `least` stored the value: each other one has its
/// cause. `OutOfMemory`, after which each unheard pass is marked Silent.
pub fn write<L: Link>(
    alloc: Global,
    link: &mut L,
    passes: &mut PassList,
    least: u16,
    nonce: Version,
    key: SessionKey,
    value: &SessionBytes,
    expiry: Moment,
) -> Result<Cookie, WriteRefusal>
    requires unheard { AreUnheard passes.old }
    ensures ends { result ≢ Err WriteRefusal.OutOfMemory
        → WriteEnds L.makes (write_start (bricks_of passes.old) least nonce key value.now expiry)
        link.old link.new passes.new result }
    ensures stops { result ≡ Err WriteRefusal.OutOfMemory
        → WriteStops L.makes (write_start (bricks_of passes.old) least nonce key value.now expiry)
        link.old link.new passes.new }
{
    let mut begun = match begin_write(alloc, passes.as_slice(), least, nonce, key, value, expiry) {
        Ok(begun) => begun,
        Err(OutOfMemory) => return stop(passes),
    };
    match write_out(alloc, link, &mut begun.call, begun.ask.as_slice()) {
        Ok(()) => {
            mark_each(passes, begun.call.asks());
            conclude_write(begun.call)
        }
        Err(OutOfMemory) => {
            mark_each(passes, begun.call.asks());
            stop(passes)
        }
    }
}
