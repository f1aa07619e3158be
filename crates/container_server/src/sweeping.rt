//! What the thread does that sweeps the bricks.

ghost use Rattle.std.specs.Prelude.{◌≡◌, ◌<◌, ◌≤◌, ◌^◌, length, IfOk};
ghost use Rattle.crash_base.specs.declared.items.TheConstants.{MAX_FRAME_BYTES};

use crate::gate::Gate;
use crate::pace::is_due;
use crate::signals::Signals;
use crate::tools::ToolBox;
use crash_base::{BrickNo, FrameBytes, Moment, OutOfMemory, Version};
use outside::{Clock, Link, Sent};
use request_intake::HomeBoot;
use ssm_frames::{Frame, encode};
use std::alloc::Global;
use std::sync::Wait;

/// How many milliseconds pass from one sweep to the next.
const SWEPT_MILLISECONDS: u64 = 1000;

/// The serial number of each sweep's nonce. No call draws it.
const SWEEP_SERIAL: u64 = 0x8000_0000_0000_0000;

/// The frame of a sweep at a moment.
fn sweep_frame(alloc: Global, home: HomeBoot, moment: Moment) -> Result<FrameBytes, OutOfMemory>
    ensures { IfOk result (λ frame. (0 < length frame) × (length frame ≤ MAX_FRAME_BYTES)) }
{
    let nonce = Version {
        node: home.node,
        boot: home.boot,
        serial: SWEEP_SERIAL,
    };
    let frame = encode(alloc, &Frame::Sweep { nonce, moment })?;
    Ok(frame)
}

/// Sends a frame to each brick, and hears its reply, which is thrown away.
fn ask_each<L: Link>(alloc: Global, link: &mut L, bricks: u16, frame: &[u8])
    requires { (0 < length frame.now) × (length frame.now ≤ MAX_FRAME_BYTES) }
{
    for at in 0..bricks {
        let brick = BrickNo(at + 1);
        if let Sent::Done = link.send(alloc, brick, frame) {
            let mut reply = FrameBytes::new(alloc);
            let _ = link.receive(alloc, brick, &mut reply);
        }
    }
}

/// Sweeps each brick once. Nothing is done where there is no memory for the frame.
fn sweep_once<L: Link>(alloc: Global, link: &mut L, bricks: u16, home: HomeBoot, moment: Moment)
    requires { bricks ≤ 16 }
{
    if let Ok(frame) = sweep_frame(alloc, home, moment) {
        ask_each(alloc, link, bricks, frame.as_slice());
    }
}

/// Sweeps bricks 1 to `bricks` again and again, until all workers have ended.
pub(crate) fn sweep<G: Gate, W: Wait>(
    rt: &W,
    alloc: Global,
    gate: &G,
    signals: &Signals,
    tools: &ToolBox<G>,
    bricks: u16,
    home: HomeBoot,
)
    requires { bricks ≤ 16 }
{
    let mut tools = tools.lock(rt);
    let mut last: Option<Moment> = None;
    for _ in rt.forever() {
        if signals.have_ended() {
            return;
        }
        let now = tools.clock.now();
        if is_due(last, SWEPT_MILLISECONDS, now) {
            sweep_once(alloc, &mut tools.link, bricks, home, now);
            last = Some(now);
        }
        gate.rest();
    }
    unreachable!()
}
