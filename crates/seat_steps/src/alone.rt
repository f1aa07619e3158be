//! What a connection does by itself, until others are to step.

ghost use Rattle.std.specs.Prelude.{◌≡◌, ◌++◌, [], true, List, IfOk, OnErr, OnOk};
ghost use Rattle.auction_rows.specs.Parts.{site_parts};
ghost use Rattle.outcome_items.specs.declared.item.Item.{Item};
ghost use Rattle.shepherd.specs.Shepherds.{turn};
ghost use Rattle.seat_steps.specs.Going.{GoesOnAtSeat};
ghost use Rattle.seat_steps.specs.Stepped.{AloneAt, GoesAloneTwice};

use crate::seat::SeatShepherd;
use auction_actions::ActionProgram;
use container_core::Container;
use crash_base::{OutOfMemory, WorkerNo};
use lane_link::LaneLink;
use outcome_items::ItemList;
use outside::Keeper;
use shepherd::{ShepherdTurn, connections_go_on, items_are_for_requests_in_order};
use site_programs::{SiteMaker, site_programs_are_accepted};
use std::alloc::Global;

/// Makes the program of the request that is open.
fn make_program<K: Keeper + Drop>(
    alloc: Global,
    key: &[u8],
    worker: WorkerNo,
    connection: &mut SeatShepherd,
    _container: &Container<K>,
) -> Result<(), OutOfMemory>
    requires turn { turn connection.old ≡ ShepherdTurn.Program }
    requires site { _container.now.boot.start.deployment ≡ site_parts }
    requires goes { GoesOnAtSeat _container.now connection.old }
    ensures goes { GoesOnAtSeat _container.now connection.new }
    ensures alone { OnOk result (AloneAt key.now worker (turn connection.old) connection.old connection.new []) }
    ensures want { OnErr result (connection.new.wants_memory ≡ true) }
{
    connections_go_on::<ActionProgram, LaneLink, SiteMaker>();
    site_programs_are_accepted();
    let _ = key;
    match connection.open(alloc, worker, &SiteMaker) {
        Ok(()) => Ok(()),
        Err(OutOfMemory) => Err(OutOfMemory),
    }
}

/// Takes in what was heard for the request that is open, or makes its response.
fn advance<K: Keeper + Drop>(
    alloc: Global,
    key: &[u8],
    worker: WorkerNo,
    connection: &mut SeatShepherd,
    _container: &Container<K>,
) -> Result<(), OutOfMemory>
    requires turn { turn connection.old ≡ ShepherdTurn.Own }
    requires goes { GoesOnAtSeat _container.now connection.old }
    ensures goes { GoesOnAtSeat _container.now connection.new }
    ensures alone { OnOk result (AloneAt key.now worker (turn connection.old) connection.old connection.new []) }
    ensures want { OnErr result (connection.new.wants_memory ≡ true) }
{
    connections_go_on::<ActionProgram, LaneLink, SiteMaker>();
    let _ = worker;
    match connection.advance(alloc, key) {
        Ok(()) => Ok(()),
        Err(OutOfMemory) => Err(OutOfMemory),
    }
}

/// Takes the item of the request that is open.
fn take_item<K: Keeper + Drop>(
    key: &[u8],
    worker: WorkerNo,
    connection: &mut SeatShepherd,
    _container: &Container<K>,
    items: &mut ItemList,
) -> Result<(), OutOfMemory>
    requires turn { turn connection.old ≡ ShepherdTurn.Item }
    requires goes { GoesOnAtSeat _container.now connection.old }
    ensures goes { GoesOnAtSeat _container.now connection.new }
    ensures alone { OnOk result ((given : List Item)
        × AloneAt key.now worker (turn connection.old) connection.old connection.new given
        × (items.new ≡ items.old ++ given)) }
    ensures want { OnErr result (connection.new.wants_memory ≡ true) }
{
    connections_go_on::<ActionProgram, LaneLink, SiteMaker>();
    items_are_for_requests_in_order::<ActionProgram>();
    let _ = key;
    let _ = worker;
    let item = connection.take_item();
    match items.push(item) {
        Ok(()) => Ok(()),
        Err(OutOfMemory) => {
            connection.wants_memory = true;
            Err(OutOfMemory)
        }
    }
}

/// Makes the call by which a connection goes on by itself, if it does, and adds the item that it gives.
fn go_once<K: Keeper + Drop>(
    alloc: Global,
    key: &[u8],
    worker: WorkerNo,
    connection: &mut SeatShepherd,
    container: &Container<K>,
    items: &mut ItemList,
) -> Result<(), OutOfMemory>
    requires site { container.now.boot.start.deployment ≡ site_parts }
    requires goes { GoesOnAtSeat container.now connection.old }
    ensures goes { GoesOnAtSeat container.now connection.new }
    ensures alone { OnOk result ((given : List Item)
        × AloneAt key.now worker (turn connection.old) connection.old connection.new given
        × (items.new ≡ items.old ++ given)) }
    ensures want { OnErr result (connection.new.wants_memory ≡ true) }
{
    match connection.turn() {
        ShepherdTurn::Program => make_program(alloc, key, worker, connection, container),
        ShepherdTurn::Own => advance(alloc, key, worker, connection, container),
        ShepherdTurn::Item => take_item(key, worker, connection, container, items),
        ShepherdTurn::Bytes => Ok(()),
        ShepherdTurn::Request => Ok(()),
        ShepherdTurn::Outside => Ok(()),
        ShepherdTurn::Windows => Ok(()),
        ShepherdTurn::Inside => Ok(()),
        ShepherdTurn::Output => Ok(()),
        ShepherdTurn::Ended(_) => Ok(()),
    }
}

/// A connection goes on by itself until others are to step: by two calls at most. The items that it gave.
pub(crate) fn go_alone<K: Keeper + Drop>(
    alloc: Global,
    key: &[u8],
    worker: WorkerNo,
    connection: &mut SeatShepherd,
    container: &Container<K>,
) -> Result<ItemList, OutOfMemory>
    requires site { container.now.boot.start.deployment ≡ site_parts }
    requires goes { GoesOnAtSeat container.now connection.old }
    ensures goes { GoesOnAtSeat container.now connection.new }
    ensures alone { IfOk result (GoesAloneTwice key.now worker connection.old connection.new) }
    ensures want { OnErr result (connection.new.wants_memory ≡ true) }
{
    let mut items = ItemList::new(alloc);
    go_once(alloc, key, worker, connection, container, &mut items)?;
    go_once(alloc, key, worker, connection, container, &mut items)?;
    Ok(items)
}
