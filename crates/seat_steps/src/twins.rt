//! The twin of what a way holds.

ghost use Rattle.std.specs.Prelude.{◌≡◌, Option, Some, None, is_some, IfOk, OnOk};
ghost use Rattle.auction_calls.specs.declared.action.ActionCall.{ActionCall};
ghost use Rattle.lane_link.specs.Twins.{call_held};
ghost use Rattle.seat_steps.specs.Twinned.{Twinned, begun_there, twinned, way_in, write_there};

use auction_actions::ActionProgram;
use crash_base::OutOfMemory;
use session_lanes::{Lanes, WriteOrder};
use session_way::{SessionWay, SessionWrite};
use shepherd::Stage;
use std::alloc::Global;

/// Whether a way holds a read or a write.
fn holds_call(way: &SessionWay) -> bool
    ensures { result ≡ is_some (call_held way.now) }
{
    match way {
        SessionWay::Reading(_) => true,
        SessionWay::Writing(_) => true,
        SessionWay::Settling(_) => true,
        SessionWay::Resting => false,
        SessionWay::Ordered(_) => false,
        SessionWay::Holding(_) => false,
    }
}

/// A write begins in the world as this one began.
fn begin_write(alloc: Global, write: &SessionWrite, lanes: &mut Lanes) -> Result<(), OutOfMemory>
    ensures { OnOk result (lanes.new ≡ write_there lanes.old write.now) }
{
    let session_way::WriteOrder {
        nonce,
        key,
        value,
        expiry,
    } = write.copy_order(alloc)?;
    let order = WriteOrder {
        nonce,
        key,
        value,
        expiry,
    };
    lanes.begin_write(alloc, order, write.passes())?;
    Ok(())
}

/// The read or the write that a way holds, if one, begins in the world as it began.
fn begin_there(alloc: Global, way: &SessionWay, lanes: &mut Lanes) -> Result<(), OutOfMemory>
    ensures { OnOk result (lanes.new ≡ begun_there lanes.old way.now) }
{
    match way {
        SessionWay::Reading(read) => {
            let cookie = read.copy_cookie(alloc)?;
            lanes.begin_read(alloc, read.nonce(), read.moment(), cookie)?;
            Ok(())
        }
        SessionWay::Writing(write) => begin_write(alloc, write, lanes),
        SessionWay::Settling(write) => begin_write(alloc, write, lanes),
        SessionWay::Resting => Ok(()),
        SessionWay::Ordered(_) => Ok(()),
        SessionWay::Holding(_) => Ok(()),
    }
}

/// What a way holds has a twin from now on, if it holds something: one that begins, where it has none yet.
fn twin_of(
    alloc: Global,
    way: &SessionWay,
    twin: Option<u64>,
    lanes: &mut Lanes,
) -> Result<Option<u64>, OutOfMemory>
    ensures { IfOk result (λ now. (let t : Twinned = record { twin = now; store = lanes.new } in t)
        ≡ twinned way.now twin lanes.old) }
{
    if !holds_call(way) {
        return Ok(None);
    }
    match twin {
        Some(number) => Ok(Some(number)),
        None => {
            let number = lanes.calls();
            begin_there(alloc, way, lanes)?;
            Ok(Some(number))
        }
    }
}

/// The same of the request that is open, if one is.
pub(crate) fn look_after_twin(
    alloc: Global,
    stage: &Stage<ActionProgram>,
    twin: Option<u64>,
    lanes: &mut Lanes,
) -> Result<Option<u64>, OutOfMemory>
    ensures { IfOk result (λ now. (let t : Twinned = record { twin = now; store = lanes.new } in t)
        ≡ twinned (way_in stage.now) twin lanes.old) }
{
    match stage {
        Stage::Serving(visit, _) => twin_of(alloc, &visit.way, twin, lanes),
        Stage::Resting => Ok(None),
        Stage::Refusing(_, _) => Ok(None),
        Stage::Over(_) => Ok(None),
    }
}
