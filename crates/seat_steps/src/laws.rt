//! A law of the steps of seats: the contract of a function that does nothing. A caller that needs the law calls the
//! function.

ghost use Rattle.std.specs.Prelude.{Some};
ghost use Rattle.session_lanes.specs.Lanes.{LanesState};
ghost use Rattle.session_steps.specs.Kept.{HasSoundStore};
ghost use Rattle.seat_steps.specs.Gone.{seat_gone};
ghost use Rattle.seat_steps.specs.Seats.{SeatGivens, SeatWorld, seat_step};
ghost use Rattle.seat_steps.specs.declared.seat.Seat.{Seat};

use session_steps::lent_bricks_stay_sound;

/// Bricks that are as events and lanes made them are so behind a step of any seat, whatever it hears and whatever the
/// keeper replies, and where a seat is given up.
pub fn bricks_stay_sound()
    ensures step { (g : SeatGivens) (seat : Seat) (w : SeatWorld) → HasSoundStore (Some w.store)
        → HasSoundStore (Some (seat_step g seat w).world.store) }
    ensures gone { (seat : Seat) (st : LanesState) → HasSoundStore (Some st)
        → HasSoundStore (Some (seat_gone seat st).store) }
{
    lent_bricks_stay_sound();
}
