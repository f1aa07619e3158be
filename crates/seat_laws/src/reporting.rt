//! The law of what seats report: the contract of a function that does nothing. A caller that needs the law calls the
//! function.

ghost use Rattle.std.specs.Prelude.{◌≡◌, ◌≢◌, ◌++◌, [], Some};
ghost use Rattle.std.specs.Option.{option_to_list};
ghost use Rattle.outcome_items.specs.declared.item.Item.{Item};
ghost use Rattle.session_lanes.specs.Lanes.{LanesState};
ghost use Rattle.shepherd.specs.Shepherds.{fresh, turn};
ghost use Rattle.shepherd.specs.declared.shepherd.EndKind.{EndKind};
ghost use Rattle.shepherd.specs.declared.shepherd.EndKind.TheVariants as ends;
ghost use Rattle.shepherd.specs.declared.shepherd.ShepherdTurn.TheVariants as turns;
ghost use Rattle.seat_steps.specs.Gone.{seat_gone};
ghost use Rattle.seat_steps.specs.Seats.{SeatGivens, SeatWorld, seat_step};
ghost use Rattle.seat_steps.specs.declared.seat.Seat.{Seat};
ghost use Rattle.seat_laws.specs.Reporting.{item_reports, items_reports, open_reports};

/// A seat reports each of its requests that failed, once. What had been reported of the request that is open and what a
/// step reports is what the items of the step tell, and then what has been reported of the request that is open behind
/// it, whatever the seat hears and whatever the keeper replies (`step`). As soon as it is there nothing has been
/// reported (`begins`), and where it has ended nothing is left to be told, unless memory was wanted (`ends`). Where it
/// is given up, the item that is left tells what has been reported of its request (`gone`). It refuses a request that
/// is reported twice, or not at all, or that did not fail, and a report with another moment or path than the item has.
pub fn seats_report_each_failure_once()
    ensures begins { open_reports fresh.stage ≡ [] }
    ensures step { (g : SeatGivens) (seat : Seat) (w : SeatWorld)
        → open_reports seat.connection.stage ++ option_to_list (seat_step g seat w).report
        ≡ items_reports (seat_step g seat w).items ++ open_reports (seat_step g seat w).seat.connection.stage }
    ensures ends { (seat : Seat) (end : EndKind) → turn seat.connection ≡ turns.Ended end → end ≢ ends.OutOfMemory
        → open_reports seat.connection.stage ≡ [] }
    ensures gone { (seat : Seat) (st : LanesState) (i : Item) → (seat_gone seat st).item ≡ Some i
        → item_reports i ≡ open_reports seat.connection.stage }
{}
