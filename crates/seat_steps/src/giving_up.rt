//! How a seat is given up.

ghost use Rattle.std.specs.Prelude.{◌≡◌};
ghost use Rattle.seat_steps.specs.Gone.{IsItemLeft, SeatGone, seat_gone, stage_gone};

use crate::seat::{Seat, SeatShepherd};
use container_core::Container;
use lane_link::lent_windows_fit;
use outcome_items::Item;
use outside::Keeper;
use session_lanes::Lanes;

/// The item of a connection, where nothing is left to be done for its request.
fn item_of(connection: &mut SeatShepherd) -> Option<Item>
    ensures { IsItemLeft connection.old.stage result }
{
    if connection.has_item() {
        Some(connection.take_item())
    } else {
        None
    }
}

/// Gives up the call and the passes of a connection. Its item, where its response has left.
fn let_go<K: Keeper + Drop>(
    connection: &mut SeatShepherd,
    container: &mut Container<K>,
    lanes: Lanes,
) -> (Lanes, Option<Item>)
    ensures same { container.new ≡ container.old }
    ensures gone { (let left : SeatGone = record { store = result.0; item = result.1 } in left)
        ≡ stage_gone connection.old.stage lanes }
{
    lent_windows_fit();
    connection.drop_call(container);
    let (lent, mut windows) = lanes.lend_windows();
    connection.drop_passes(&mut windows);
    let lanes = lent.with_windows(windows);
    (lanes, item_of(connection))
}

impl Seat {
    /// Gives up the call and the passes of a connection, whatever its turn, and drops it. Its item, where its response
    /// has left. Its twin, if it has one, stays in the world, and goes no further. It takes no memory.
    pub fn give_up<K: Keeper + Drop>(
        self,
        container: &mut Container<K>,
        lanes: Lanes,
    ) -> (Lanes, Option<Item>)
        ensures same { container.new ≡ container.old }
        ensures gone { (let left : SeatGone = record { store = result.0; item = result.1 } in left)
            ≡ seat_gone self lanes }
    {
        let mut seat = self;
        let left = let_go(&mut seat.connection, container, lanes);
        drop(seat);
        left
    }
}
