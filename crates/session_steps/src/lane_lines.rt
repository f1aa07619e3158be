//! What a line about bricks does to their lanes, and writes.

ghost use Rattle.std.specs.Prelude.{◌≡◌, ◌-◌, nat_lt, not, [], length, IfOk};
ghost use Rattle.brick_store.specs.History.{all_held};
ghost use Rattle.scenario_text.specs.Answer.{Done, KeepsRefused, answer_of, refused_if, or_refused};
ghost use Rattle.send_windows.specs.Windows.{pass_tried, after_pass};
ghost use Rattle.ssm_world.specs.declared.event.WorldEvent.TheVariants.{Crash, Sweep};
ghost use Rattle.ssm_world.specs.Worlds.{history, may_happen};
ghost use Rattle.session_lanes.specs.Lane.{brick_no, losing, dropping, waiting, reply_made, lane_at};
ghost use Rattle.session_lanes.specs.Lanes.{after_event, with_lane};
ghost use Rattle.session_steps.specs.Sessions.{done_or_refused, freed_pass, holds, mark_of};
ghost use Rattle.session_steps.specs.Texts.{values_text, windows_text};

use crate::sessions::MAX_MOMENT;
use crate::texts::{hold_text, values_text, windows_text};
use crash_base::{Moment, OutOfMemory};
use scenario_text::{Freed, LineAnswer};
use send_windows::PassMark;
use session_lanes::Lanes;
use std::alloc::Global;

/// The answer of a line that writes nothing: whether it was done.
fn done_or_refused(done: bool) -> LineAnswer
    ensures { result ≡ done_or_refused done }
{
    if done {
        LineAnswer::Done
    } else {
        LineAnswer::Refused
    }
}

/// The mark with which a held pass is spent.
fn mark_of(how: Freed) -> PassMark
    ensures { result ≡ mark_of how }
{
    match how {
        Freed::Answered => PassMark::Answered,
        Freed::Silent => PassMark::Silent,
    }
}

/// More of a brick's next replies are to be lost.
#[tactic(auto, using(crate::proofs::LaneLines::lost, crate::proofs::LaneLines::keeps))]
pub(crate) fn lose(lanes: &mut Lanes, brick: u64, more: u64) -> LineAnswer
    ensures answer { answer_of result lanes.new ≡ or_refused (lane_at lanes.old.lanes brick) (λ lane.
        Done (with_lane lanes.old brick (losing more lane)) []) }
    ensures refused { KeepsRefused result lanes.old lanes.new }
{
    done_or_refused(lanes.lose(brick, more))
}

/// More of the next asks to a brick are to be dropped.
#[tactic(auto, using(crate::proofs::LaneLines::muted, crate::proofs::LaneLines::keeps))]
pub(crate) fn mute(lanes: &mut Lanes, brick: u64, more: u64) -> LineAnswer
    ensures answer { answer_of result lanes.new ≡ or_refused (lane_at lanes.old.lanes brick) (λ lane.
        Done (with_lane lanes.old brick (dropping more lane)) []) }
    ensures refused { KeepsRefused result lanes.old lanes.new }
{
    done_or_refused(lanes.drop_asks(brick, more))
}

/// A reply of a brick waits once more.
#[tactic(auto, using(crate::proofs::LaneLines::repeats, crate::proofs::LaneLines::keeps))]
pub(crate) fn repeat(lanes: &mut Lanes, brick: u64, number: u64) -> Result<LineAnswer, OutOfMemory>
    ensures answer { IfOk result (λ a. answer_of a lanes.new ≡ or_refused (lane_at lanes.old.lanes brick) (λ lane.
        or_refused (reply_made lane number) (λ packet.
        Done (with_lane lanes.old brick (waiting packet lane)) []))) }
    ensures refused { IfOk result (λ a. KeepsRefused a lanes.old lanes.new) }
{
    let done = lanes.repeat(brick, number)?;
    Ok(done_or_refused(done))
}

/// A brick crashes. It visits each value that the brick keeps.
#[tactic(auto, using(crate::proofs::LaneLines::crashes, crate::proofs::LaneLines::keeps))]
pub(crate) fn crash(lanes: &mut Lanes, alloc: Global, brick: u64) -> Result<LineAnswer, OutOfMemory>
    ensures answer { IfOk result (λ a. answer_of a lanes.new ≡ or_refused (lane_at lanes.old.lanes brick) (λ lane.
        refused_if (not (may_happen lanes.old.world (Crash (brick_no brick))))
        (Done (after_event lanes.old (Crash (brick_no brick))) []))) }
    ensures refused { IfOk result (λ a. KeepsRefused a lanes.old lanes.new) }
{
    let done = lanes.crash(alloc, brick)?;
    Ok(done_or_refused(done))
}

/// A brick is swept at a moment. It visits each value that the brick keeps.
#[tactic(auto, using(crate::proofs::LaneLines::sweeps, crate::proofs::LaneLines::too_late, crate::proofs::LaneLines::keeps))]
pub(crate) fn sweep(
    lanes: &mut Lanes,
    alloc: Global,
    brick: u64,
    moment: u64,
) -> Result<LineAnswer, OutOfMemory>
    ensures answer { IfOk result (λ a. answer_of a lanes.new ≡ or_refused (lane_at lanes.old.lanes brick) (λ lane.
        refused_if (nat_lt MAX_MOMENT moment)
        (Done (after_event lanes.old (Sweep (brick_no brick) (record { 0 = moment }))) []))) }
    ensures refused { IfOk result (λ a. KeepsRefused a lanes.old lanes.new) }
{
    if moment > MAX_MOMENT {
        return Ok(LineAnswer::Refused);
    }
    let done = lanes.sweep(alloc, brick, Moment(moment))?;
    Ok(done_or_refused(done))
}

/// How many values a brick keeps is told.
#[tactic(auto, using(crate::proofs::LaneLines::values_none, crate::proofs::LaneLines::values_some))]
pub(crate) fn tell_values(
    lanes: &Lanes,
    alloc: Global,
    brick: u64,
) -> Result<LineAnswer, OutOfMemory>
    ensures { IfOk result (λ a. answer_of a lanes.now ≡ or_refused (lane_at lanes.now.lanes brick) (λ lane.
        or_refused (history lanes.now.world (brick_no brick)) (λ h.
        Done lanes.now (values_text brick (length (all_held h)))))) }
{
    let Some(count) = lanes.values(brick) else {
        return Ok(LineAnswer::Refused);
    };
    let text = values_text(alloc, brick, count)?;
    Ok(LineAnswer::Wrote(text))
}

/// The windows are told. It visits each brick.
pub(crate) fn tell_windows(lanes: &Lanes, alloc: Global) -> Result<LineAnswer, OutOfMemory>
    ensures { IfOk result (λ a. answer_of a lanes.now ≡ Done lanes.now (windows_text lanes.now.windows.facts)) }
{
    let text = windows_text(alloc, lanes.facts())?;
    Ok(LineAnswer::Wrote(text))
}

/// A pass to a brick is held, where the brick's window is open. It visits each brick a few times.
#[tactic(auto, using(crate::proofs::LaneLines::held_none, crate::proofs::LaneLines::held_some, crate::proofs::LaneLines::kept_none))]
pub(crate) fn hold(lanes: &mut Lanes, alloc: Global, brick: u64) -> Result<LineAnswer, OutOfMemory>
    ensures answer { IfOk result (λ a. answer_of a lanes.new ≡ or_refused (lane_at lanes.old.lanes brick) (λ lane.
        holds lanes.old brick lane (pass_tried lanes.old.windows (brick_no brick)))) }
    ensures refused { IfOk result (λ a. KeepsRefused a lanes.old lanes.new) }
{
    let Some(held) = lanes.hold(brick) else {
        return Ok(LineAnswer::Refused);
    };
    let text = hold_text(alloc, brick, held)?;
    Ok(LineAnswer::Wrote(text))
}

/// The last pass that is held of a brick is spent. It visits each brick.
#[tactic(auto, using(crate::proofs::LaneLines::frees, crate::proofs::LaneLines::keeps))]
pub(crate) fn free(lanes: &mut Lanes, brick: u64, how: Freed) -> LineAnswer
    ensures answer { answer_of result lanes.new ≡ or_refused (lane_at lanes.old.lanes brick) (λ lane.
        refused_if (not (nat_lt 0 lane.held))
        (Done (with_lane (record (lanes.old) { windows = after_pass lanes.old.windows (freed_pass brick how) }) brick
        (record lane { held = lane.held - 1 })) [])) }
    ensures refused { KeepsRefused result lanes.old lanes.new }
{
    done_or_refused(lanes.free(brick, mark_of(how)))
}
