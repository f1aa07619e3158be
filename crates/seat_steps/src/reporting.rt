//! What a connection reports right behind the event of its step.

ghost use Rattle.std.specs.Prelude.{◌≡◌, true, IfOk, OnErr, OnOk};
ghost use Rattle.seat_steps.specs.Going.{GoesOnAtSeat};
ghost use Rattle.seat_steps.specs.Seats.{report_at};

use crate::seat::SeatShepherd;
use auction_actions::ActionProgram;
use container_core::Container;
use crash_base::OutOfMemory;
use failure_scores::FailureReport;
use lane_link::LaneLink;
use outside::Keeper;
use shepherd::{ShepherdTurn, connections_go_on};
use site_programs::SiteMaker;
use std::alloc::Global;

/// What a connection reports behind the event at a turn: nothing, but behind a step in the container.
fn report_at(
    alloc: Global,
    turn: ShepherdTurn,
    connection: &SeatShepherd,
) -> Result<Option<FailureReport>, OutOfMemory>
    ensures { IfOk result (λ report. report ≡ report_at turn connection.now.stage) }
{
    match turn {
        ShepherdTurn::Inside => connection.report(alloc),
        ShepherdTurn::Bytes => Ok(None),
        ShepherdTurn::Request => Ok(None),
        ShepherdTurn::Outside => Ok(None),
        ShepherdTurn::Windows => Ok(None),
        ShepherdTurn::Program => Ok(None),
        ShepherdTurn::Own => Ok(None),
        ShepherdTurn::Output => Ok(None),
        ShepherdTurn::Item => Ok(None),
        ShepherdTurn::Ended(_) => Ok(None),
    }
}

/// The same, of a connection that goes on in a container.
///
/// # Errors
/// There is no memory: the connection has ended.
pub(crate) fn report_behind<K: Keeper + Drop>(
    alloc: Global,
    turn: ShepherdTurn,
    connection: &mut SeatShepherd,
    _container: &Container<K>,
) -> Result<Option<FailureReport>, OutOfMemory>
    requires goes { GoesOnAtSeat _container.now connection.old }
    ensures goes { GoesOnAtSeat _container.now connection.new }
    ensures reported { IfOk result (λ report. report ≡ report_at turn connection.old.stage) }
    ensures same { OnOk result (connection.new ≡ connection.old) }
    ensures want { OnErr result (connection.new.wants_memory ≡ true) }
{
    connections_go_on::<ActionProgram, LaneLink, SiteMaker>();
    match report_at(alloc, turn, connection) {
        Ok(report) => Ok(report),
        Err(OutOfMemory) => {
            connection.wants_memory = true;
            Err(OutOfMemory)
        }
    }
}
