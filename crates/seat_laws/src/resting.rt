//! The law by which seats come to rest: the contract of a function that does nothing. A caller that needs the law calls
//! the function.

ghost use Rattle.std.specs.Prelude.{◌≡◌, ◌≢◌, ◌<◌, ◌≤◌, ◌+◌, ◌*◌, ℕ, false, length, None};
ghost use Rattle.auction_rows.specs.Parts.{site_parts};
ghost use Rattle.boot_core.specs.Boot.{BootValue, HasGrown};
ghost use Rattle.container_core.specs.Container.{ContainerValue};
ghost use Rattle.send_windows.specs.declared.fact.TheConstants.{MAX_BRICKS};
ghost use Rattle.shepherd.specs.Shepherds.{fresh, turn};
ghost use Rattle.shepherd.specs.declared.shepherd.EndKind.{EndKind};
ghost use Rattle.shepherd.specs.declared.shepherd.ShepherdTurn.TheVariants as turns;
ghost use Rattle.shepherd.specs.declared.shepherd.Stage.TheVariants.{Resting};
ghost use Rattle.seat_steps.specs.Going.{GoesOnAtSeat};
ghost use Rattle.seat_steps.specs.Seats.{SeatGivens, SeatWorld, seat_step};
ghost use Rattle.seat_steps.specs.declared.seat.Seat.{Seat};
ghost use Rattle.seat_laws.specs.Fitting.{SeatFits};
ghost use Rattle.seat_laws.specs.StepsLeft.{IsCounted, seat_left};

use auction_actions::ActionProgram;
use call_attempts::attempts_come_to_their_end;
use call_ticket::calls_follow;
use http_wire::requests_have_bytes;
use lane_link::LaneLink;
use request_decisions::{cookies_are_of_the_key, orders_are_exact, orders_are_in_range};
use shepherd_steps::{going_alone_ends, requests_are_decided_as_read, steps_are_one_event};
use text_readings::{cookies_are_accepted_of_their_texts, tokens_are_read_once};

/// A seat comes to rest: each of its steps leaves fewer (`seat_left`), unless it waits for bytes or has ended, whatever
/// it hears and whatever the keeper replies. So it makes no more than so many, until it waits for bytes or is gone: one
/// that goes on for ever is refused. Where no request is open there are 2,478 for each byte, and three. Its steps are
/// counted as soon as it is there, behind each step of its own and of others, wherever the boot has grown, and when
/// bytes come or end; and so they are of a seat with memory that fits the boot of a container in which its connection
/// goes on, as the code keeps it. No step changes to how many bricks a take of the windows gives passes.
pub fn seats_come_to_rest()
    ensures begins { (boot : BootValue) → boot.start.deployment ≡ site_parts
        → IsCounted boot (record { connection = fresh; twin = None }) }
    ensures step { (g : SeatGivens) (seat : Seat) (w : SeatWorld) → IsCounted w.boot seat
        → IsCounted (seat_step g seat w).world.boot (seat_step g seat w).seat }
    ensures meanwhile { (old new : BootValue) (seat : Seat) → HasGrown old new → IsCounted old seat
        → IsCounted new seat }
    ensures others { (g : SeatGivens) (seat other : Seat) (w : SeatWorld) → IsCounted w.boot seat
        → IsCounted w.boot other → IsCounted (seat_step g seat w).world.boot other }
    ensures still { (boot : BootValue) (seat new : Seat) → new.connection.stage ≡ seat.connection.stage
        → IsCounted boot seat → IsCounted boot new }
    ensures goes { (container : ContainerValue) (seat : Seat) → seat.connection.wants_memory ≡ false
        → GoesOnAtSeat container seat.connection → SeatFits container.boot seat → IsCounted container.boot seat }
    ensures fewer { (g : SeatGivens) (seat : Seat) (w : SeatWorld) → IsCounted w.boot seat
        → w.store.windows.w ≤ MAX_BRICKS → turn seat.connection ≢ turns.Bytes
        → ((end : EndKind) → turn seat.connection ≢ turns.Ended end)
        → seat_left (seat_step g seat w).seat < seat_left seat }
    ensures windows { (g : SeatGivens) (seat : Seat) (w : SeatWorld)
        → (seat_step g seat w).world.store.windows.w ≡ w.store.windows.w }
    ensures idle { (seat : Seat) → seat.connection.stage ≡ Resting
        → seat_left seat ≡ length seat.connection.received * 2478 + 3 }
{
    attempts_come_to_their_end();
    calls_follow();
    requests_have_bytes();
    cookies_are_of_the_key();
    going_alone_ends::<ActionProgram>();
    steps_are_one_event::<ActionProgram, LaneLink>();
    requests_are_decided_as_read();
    cookies_are_accepted_of_their_texts();
    tokens_are_read_once();
    orders_are_in_range();
    orders_are_exact();
}
