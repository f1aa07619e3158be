//! Laws of what any step of a seat does with the bricks and the serials that are lent to it, by the function alone.
//! Each is the contract of a function that does nothing: a caller that needs the law calls the function.

ghost use Rattle.std.specs.Prelude.{◌≡◌, ◌≤◌, ℕ, All, List, None};
ghost use Rattle.outside.specs.declared.serials.TheConstants.{SERIALS_END};
ghost use Rattle.shepherd.specs.Shepherds.{fresh};
ghost use Rattle.seat_steps.specs.Seats.{SeatGivens, SeatWorld, seat_step};
ghost use Rattle.seat_steps.specs.declared.seat.Seat.{Seat};
ghost use Rattle.session_steps.specs.Lent.{BeginsSo, LentStep, WasDrawn, after_lent};
ghost use Rattle.seat_laws.specs.Drawing.{SeatHasDrawn};
ghost use Rattle.seat_laws.specs.LentSteps.{lent_steps};

/// What any step of a seat leaves of the bricks is what lent bricks are after its steps of them (`lent_steps`),
/// whatever it hears and whatever the keeper replies; the next serial never falls, nor passes a limit that is not
/// before the end of serials; and the boot stays the one that began.
pub fn bricks_go_by_lent_steps()
    ensures store { (g : SeatGivens) (seat : Seat) (w : SeatWorld)
        → (seat_step g seat w).world.store ≡ after_lent w.store (lent_steps g seat w) }
    ensures serials { (g : SeatGivens) (seat : Seat) (w : SeatWorld) → w.serial ≤ (seat_step g seat w).world.serial }
    ensures boot { (g : SeatGivens) (seat : Seat) (w : SeatWorld)
        → (seat_step g seat w).world.boot.start ≡ w.boot.start }
    ensures end { (limit : ℕ) (g : SeatGivens) (seat : Seat) (w : SeatWorld) → SERIALS_END ≤ limit
        → w.serial ≤ limit → (seat_step g seat w).world.serial ≤ limit }
{}

/// The nonces that a seat still needs were drawn as soon as it is there, behind each step of its own, wherever more
/// serials were drawn meanwhile, and when bytes come or end. So each read or write that begins in a step has a nonce
/// that was drawn; and that stays so where more are drawn.
pub fn seats_begin_with_drawn_nonces()
    ensures begins { (boot serial : ℕ) → SeatHasDrawn boot serial (record { connection = fresh; twin = None }) }
    ensures step { (g : SeatGivens) (seat : Seat) (w : SeatWorld) → SeatHasDrawn w.boot.start.boot w.serial seat
        → SeatHasDrawn w.boot.start.boot (seat_step g seat w).world.serial (seat_step g seat w).seat }
    ensures meanwhile { (boot old new : ℕ) (seat : Seat) → old ≤ new → SeatHasDrawn boot old seat
        → SeatHasDrawn boot new seat }
    ensures still { (boot serial : ℕ) (seat new : Seat) → new.connection.stage ≡ seat.connection.stage
        → SeatHasDrawn boot serial seat → SeatHasDrawn boot serial new }
    ensures begun { (g : SeatGivens) (seat : Seat) (w : SeatWorld) → SeatHasDrawn w.boot.start.boot w.serial seat
        → All (BeginsSo (WasDrawn w.boot.start.boot (seat_step g seat w).world.serial)) (lent_steps g seat w) }
    ensures later { (boot old new : ℕ) (steps : List LentStep) → old ≤ new
        → All (BeginsSo (WasDrawn boot old)) steps → All (BeginsSo (WasDrawn boot new)) steps }
{}
