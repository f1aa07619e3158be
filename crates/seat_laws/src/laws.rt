//! Laws of the steps of seats. Each is the contract of a function that does nothing: a caller that needs the law calls
//! the function.

ghost use Rattle.std.specs.Prelude.{◌≡◌, ◌⊎◌, ◌+◌, ℕ, List, None, Some, slice_get};
ghost use Rattle.container_core.specs.Container.{ContainerValue, HasGrownBy};
ghost use Rattle.crash_base.specs.declared.numbers.Version.{Version};
ghost use Rattle.lane_link.specs.Twins.{ByEvents, NoneTurns, call_held};
ghost use Rattle.request_decisions.specs.declared.draws.DrawKind.{DrawKind};
ghost use Rattle.send_windows.specs.Windows.{KeepLimits};
ghost use Rattle.session_lanes.specs.Lanes.{LanesState};
ghost use Rattle.session_lanes.specs.Sound.{LanesAreSound};
ghost use Rattle.session_lanes.specs.Steps.{LanesStep, after_steps};
ghost use Rattle.shepherd.specs.Shepherds.{fresh};
ghost use Rattle.shepherd_steps.specs.Taking.{Counts, draws};
ghost use Rattle.ssm_world.specs.Worlds.{nonce_of};
ghost use Rattle.ssm_world.specs.declared.call.Call.{Call};
ghost use Rattle.seat_steps.specs.Gone.{seat_gone};
ghost use Rattle.seat_steps.specs.Going.{GoesOnAtSeat};
ghost use Rattle.seat_steps.specs.Replies.{SeatHears};
ghost use Rattle.seat_steps.specs.Seats.{SeatGivens, SeatWorld, numbers_from, seat_step};
ghost use Rattle.seat_steps.specs.Twinned.{way_in};
ghost use Rattle.seat_steps.specs.declared.seat.Seat.{Seat};
ghost use Rattle.session_steps.specs.Lent.{after_lent};
ghost use Rattle.seat_laws.specs.Lending.{seat_lends};
ghost use Rattle.seat_laws.specs.Owing.{BeginsWith, IsDrawnIn, RiseFrom, write_owed};
ghost use Rattle.seat_laws.specs.Standing.{AreApart, HoldsNew, SeatStands};

use auction_actions::ActionProgram;
use lane_link::{LaneLink, lanes_go_by_events, steps_are_turns_of_twins, twins_begin, twins_stay};
use request_decisions::cookies_are_of_the_key;
use seat_steps::SiteMaker;
use send_windows::{taken_passes_are_lawful, windows_keep_their_limits};
use session_lanes::lanes_stay_sound;
use session_way::ways_tell_how_they_began;
use shepherd::connections_go_on;
use shepherd_steps::requests_are_decided_as_read;
use text_readings::{cookies_are_accepted_of_their_texts, tokens_are_read_once};

/// A seat stands behind each of its steps, whatever the keeper replies: its lanes are sound, and its twin is that of
/// what it does with its session; and events of their world made the lanes. What it hears is to be spelled by its
/// bytes; and where a call begins, its nonce is to be new.
pub fn seats_stand()
    ensures stands { (g : SeatGivens) (seat : Seat) (w : SeatWorld) → SeatStands seat w.store
        → SeatHears seat w.store
        → (seat.twin ≡ None → HoldsNew w.store (way_in (seat_step g seat w).seat.connection.stage))
        → SeatStands (seat_step g seat w).seat (seat_step g seat w).world.store }
    ensures events { (g : SeatGivens) (seat : Seat) (w : SeatWorld) → SeatStands seat w.store
        → SeatHears seat w.store → ByEvents w.store (seat_step g seat w).world.store }
{
    steps_are_turns_of_twins();
    twins_begin();
    twins_stay();
    lanes_stay_sound();
    lanes_go_by_events();
    taken_passes_are_lawful();
    windows_keep_their_limits();
    requests_are_decided_as_read();
    cookies_are_accepted_of_their_texts();
    tokens_are_read_once();
    cookies_are_of_the_key();
    ways_tell_how_they_began();
}

/// Each other seat stands behind a step of one, where they have no twin in common, and they have none then: a twin that
/// begins is the last call. And its connection goes on behind whatever is added to the container.
pub fn others_stand()
    ensures stands { (g : SeatGivens) (seat other : Seat) (w : SeatWorld) → SeatStands seat w.store
        → SeatHears seat w.store
        → SeatStands other w.store → AreApart seat.twin other.twin
        → SeatStands other (seat_step g seat w).world.store }
    ensures apart { (g : SeatGivens) (seat other : Seat) (w : SeatWorld) → SeatStands seat w.store
        → SeatHears seat w.store → SeatStands other w.store → AreApart seat.twin other.twin
        → AreApart (seat_step g seat w).seat.twin other.twin }
    ensures goes { (container after : ContainerValue) (other : Seat) → HasGrownBy container after
        → GoesOnAtSeat container other.connection → GoesOnAtSeat after other.connection }
{
    connections_go_on::<ActionProgram, LaneLink, SiteMaker>();
    steps_are_turns_of_twins();
    twins_stay();
    lanes_stay_sound();
    lanes_go_by_events();
    windows_keep_their_limits();
    requests_are_decided_as_read();
    twins_begin();
    taken_passes_are_lawful();
    cookies_are_accepted_of_their_texts();
    tokens_are_read_once();
    cookies_are_of_the_key();
    ways_tell_how_they_began();
}

/// A seat stands as soon as it is there, and still when bytes come or end; over calls of the lanes of which none is a
/// turn of its twin; over whatever leaves its call as it was, as lines do; and where another seat is given up.
pub fn seats_stand_meanwhile()
    ensures begins { (st : LanesState) → LanesAreSound st → KeepLimits st.windows
        → SeatStands (record { connection = fresh; twin = None }) st }
    ensures still { (seat new : Seat) (st : LanesState) → new.connection.stage ≡ seat.connection.stage
        → new.twin ≡ seat.twin → SeatStands seat st → SeatStands new st }
    ensures lanes { (seat : Seat) (st : LanesState) (steps : List LanesStep) → SeatStands seat st
        → KeepLimits (after_steps st steps).windows
        → ((number : ℕ) → seat.twin ≡ Some number → NoneTurns number steps)
        → SeatStands seat (after_steps st steps) }
    ensures calls { (seat : Seat) (st later : LanesState) → SeatStands seat st → LanesAreSound later
        → KeepLimits later.windows
        → ((number : ℕ) (call : Call) → seat.twin ≡ Some number → slice_get st.world.calls number ≡ Some call
        → slice_get later.world.calls number ≡ Some call)
        → SeatStands seat later }
    ensures gone { (seat other : Seat) (st : LanesState) → SeatStands other st
        → SeatStands other (seat_gone seat st).store }
{
    twins_stay();
    lanes_stay_sound();
    lanes_go_by_events();
    windows_keep_their_limits();
}

/// What a step of a seat leaves of the bricks is what lent bricks are after its steps of them (`seat_lends`): the turn
/// of its twin, or the call of the windows, where it is the turn of those; and then the begin of a twin, where what the
/// connection holds has none yet.
pub fn seats_lend()
    ensures { (g : SeatGivens) (seat : Seat) (w : SeatWorld) → SeatStands seat w.store → SeatHears seat w.store
        → (seat_step g seat w).world.store ≡ after_lent w.store (seat_lends g seat w) }
{
    steps_are_turns_of_twins();
}

/// What is drawn of serial numbers lies from the one that is next up to the one that is next then, each above those
/// before it.
pub fn drawn_serials_rise()
    ensures { (word serial : ℕ) (kinds : List DrawKind) (counts : Counts)
        → RiseFrom (serial + counts.serials)
        (serial + (draws (numbers_from word serial) kinds counts).counts.serials)
        (draws (numbers_from word serial) kinds counts).drawn }
{}

/// The write that a seat owes behind a step, if it owes one, was owed before it, or its nonce was drawn in it. A call
/// of a seat that stands, and goes on, begins in a step with such a nonce, and that is not owed any more then.
pub fn owed_writes_were_drawn()
    ensures owed { (g : SeatGivens) (seat : Seat) (w : SeatWorld) (nonce : Version)
        → write_owed (seat_step g seat w).seat.connection.stage ≡ Some nonce
        → (write_owed seat.connection.stage ≡ Some nonce)
        ⊎ IsDrawnIn w (seat_step g seat w).world.serial nonce }
    ensures begins { (g : SeatGivens) (seat : Seat) (w : SeatWorld) (container : ContainerValue) (held : Call)
        → SeatStands seat w.store → GoesOnAtSeat container seat.connection → seat.twin ≡ None
        → call_held (way_in (seat_step g seat w).seat.connection.stage) ≡ Some held
        → BeginsWith g seat w (nonce_of held) }
{}
