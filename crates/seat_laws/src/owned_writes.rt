//! Laws of the writes that the requests of seats order. Each is the contract of a function that does nothing: a caller
//! that needs the law calls the function.

ghost use Rattle.std.specs.Prelude.{◌≡◌, ◌≢◌, All, None, Some};
ghost use Rattle.crash_base.specs.declared.numbers.Version.{Version};
ghost use Rattle.lane_link.specs.Twins.{call_held};
ghost use Rattle.seat_steps.specs.Seats.{SeatGivens, SeatWorld, seat_step};
ghost use Rattle.seat_steps.specs.Twinned.{way_in};
ghost use Rattle.seat_steps.specs.declared.seat.Seat.{Seat};
ghost use Rattle.session_steps.specs.Lent.{BeginsSo};
ghost use Rattle.ssm_world.specs.Worlds.{nonce_of};
ghost use Rattle.ssm_world.specs.declared.call.Call.{Call};
ghost use Rattle.seat_laws.specs.LentSteps.{lent_steps};
ghost use Rattle.seat_laws.specs.Ordering.{OrdersOwn};
ghost use Rattle.seat_laws.specs.Owing.{BeginsWith};
ghost use Rattle.seat_laws.specs.Standing.{SeatStands};

/// The request that is open at a seat has ordered only its own write, behind each of its steps, whatever the seat hears
/// and whatever the keeper replies. So a call of a seat that stands begins in a step with a nonce that was owed, or was
/// drawn in that step, and that is not owed any more then; `owed_writes_were_drawn`
/// asks for a container in which the connection goes on, and this for none.
/// And a step begins no other call: none has a nonce that is not of what the connection then holds without a twin.
pub fn requests_order_their_own_writes()
    ensures step { (g : SeatGivens) (seat : Seat) (w : SeatWorld) → OrdersOwn seat.connection.stage
        → OrdersOwn (seat_step g seat w).seat.connection.stage }
    ensures begins { (g : SeatGivens) (seat : Seat) (w : SeatWorld) (held : Call) → SeatStands seat w.store
        → OrdersOwn seat.connection.stage → seat.twin ≡ None
        → call_held (way_in (seat_step g seat w).seat.connection.stage) ≡ Some held → BeginsWith g seat w (nonce_of held) }
    ensures alone { (g : SeatGivens) (seat : Seat) (w : SeatWorld) (other : Version)
        → ((held : Call) → seat.twin ≡ None
        → call_held (way_in (seat_step g seat w).seat.connection.stage) ≡ Some held → nonce_of held ≢ other)
        → All (BeginsSo (λ (nonce : Version). nonce ≢ other)) (lent_steps g seat w) }
{}
