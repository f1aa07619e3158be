//! Laws of what seats read of their sessions, and of what they write. Each is the contract of a function that does
//! nothing: a caller that needs the law calls the function.

ghost use Rattle.std.specs.Prelude.{◌≡◌, ◌<◌, ◌≤◌, ℕ, All, List, [], length, false, None, Some, Ok, Err};
ghost use Rattle.session_cookie.specs.declared.cookie.Cookie.{Cookie};
ghost use Rattle.http_wire.specs.declared.taken.Head.{Head};
ghost use Rattle.lane_link.specs.Twins.{ByEvents};
ghost use Rattle.outcome_items.specs.declared.outcome.ItemOutcome.TheVariants.{SerialsSpent};
ghost use Rattle.session_lanes.specs.Lanes.{LanesState};
ghost use Rattle.session_lanes.specs.Sound.{LanesAreSound};
ghost use Rattle.session_way.specs.Reading.{cookie_asked};
ghost use Rattle.session_way.specs.declared.session_read.ReadOutcome.{ReadOutcome};
ghost use Rattle.session_way.specs.declared.session_read.ReadOutcome.TheVariants.{Expired};
ghost use Rattle.shepherd.specs.declared.shepherd.Stage.TheVariants.{Resting};
ghost use Rattle.shepherd_steps.specs.Deciding.{decided_by};
ghost use Rattle.session_way.specs.Way.{answer_held};
ghost use Rattle.ssm_stub.specs.Reads.{ReadState};
ghost use Rattle.ssm_stub.specs.declared.cause.BrickCause.{BrickCause};
ghost use Rattle.ssm_stub.specs.declared.write_call.WriteRefusal.TheVariants.{Missed};
ghost use Rattle.ssm_world.specs.Claims.{IsAcknowledged};
ghost use Rattle.seat_steps.specs.Replies.{SeatHears};
ghost use Rattle.seat_steps.specs.Seats.{SeatGivens, SeatWorld, readings_under, seat_step};
ghost use Rattle.seat_steps.specs.Twinned.{way_in};
ghost use Rattle.seat_steps.specs.declared.seat.Seat.{Seat};
ghost use Rattle.seat_laws.specs.Reads.{BearsCookie, IsFoundOrLost, IsTakenBy, IsTakenLate, MissedFor, ReadsRightly, ReadsSince, TellsWhatWasHeard, known_outcome, order_of, read_heard, read_under_way, value_written};
ghost use Rattle.seat_laws.specs.Standing.{SeatStands};

use lane_link::{lanes_go_by_events, steps_are_turns_of_twins, twins_begin, twins_stay};
use request_decisions::cookies_are_of_the_key;
use send_windows::{taken_passes_are_lawful, windows_keep_their_limits};
use session_lanes::lanes_stay_sound;
use session_way::ways_tell_how_they_began;
use shepherd_steps::requests_are_decided_as_read;
use ssm_world::{
    acknowledged_cookies_stay_acknowledged, missed_writes_have_causes,
    reads_answer_what_was_written, worlds_are_sound,
};
use text_readings::{cookies_are_accepted_of_their_texts, tokens_are_read_once};

/// What a seat reads of its session was written. Its read is by a cookie that was acknowledged with a value in earlier
/// lanes of the bricks, from which events lead to the present, and in which the read had not begun yet. Where it hears
/// in a step what the read came to, that is right: it found just this value, at a moment that is not past the cookie's
/// expiry, and a brick of the cookie gave it; or it tells that the cookie has expired, where the moment is past that;
/// or that the session is lost, where it is not, with the cause of each brick of the cookie, in its order, which the
/// brick or this read met, whatever else happened between its turns. So within the lease it found the value, or lost it
/// at each brick. In the step in which a request is taken nothing is heard but that the cookie that it bears has
/// expired. Where that has not, a seat with memory refuses the request as it is decided; or the request waits for a
/// read by this very cookie at the present moment, unless no serial number is left. A request that waits no longer for
/// its read has heard what the read came to. The call of a read that begins in a step is the last one then, and stays
/// the seat's until the read has ended. So another value is refused, and a cause that no brick met.
pub fn seats_read_what_was_written()
    ensures right { (earlier : LanesState) (g : SeatGivens) (seat : Seat) (w : SeatWorld) (r : ReadState)
        (value : List ℕ) (outcome : ReadOutcome) → SeatStands seat w.store → SeatHears seat w.store
        → ReadsSince earlier seat w.store r → IsAcknowledged earlier.world (cookie_asked r) value
        → read_heard (seat_step g seat w).seat.connection.stage ≡ Some outcome
        → ReadsRightly earlier (seat_step g seat w).world.store (order_of r) value outcome }
    ensures in_time { (earlier : LanesState) (g : SeatGivens) (seat : Seat) (w : SeatWorld) (r : ReadState)
        (value : List ℕ) (outcome : ReadOutcome) → SeatStands seat w.store → SeatHears seat w.store
        → ReadsSince earlier seat w.store r → IsAcknowledged earlier.world (cookie_asked r) value
        → read_heard (seat_step g seat w).seat.connection.stage ≡ Some outcome
        → r.moment.0 ≤ r.expiry.0 → IsFoundOrLost value (cookie_asked r).bricks outcome }
    ensures at_once { (g : SeatGivens) (seat : Seat) (w : SeatWorld) (outcome : ReadOutcome)
        → seat.connection.stage ≡ Resting
        → read_heard (seat_step g seat w).seat.connection.stage ≡ Some outcome
        → (head : Head) × (cookie : Cookie) × BearsCookie g.key seat.connection.received head cookie
        × (outcome ≡ Expired g.now cookie.expiry) × (cookie.expiry.0 < g.now.0) }
    ensures asked { (g : SeatGivens) (seat : Seat) (w : SeatWorld) (head : Head) (cookie : Cookie)
        → seat.connection.stage ≡ Resting → seat.connection.wants_memory ≡ false
        → BearsCookie g.key seat.connection.received head cookie → g.now.0 ≤ cookie.expiry.0
        → IsTakenBy g.now cookie (decided_by (readings_under g.key) w.boot.start.boot head)
        (seat_step g seat w).seat.connection.stage }
    ensures hears { (g : SeatGivens) (seat : Seat) (w : SeatWorld) (r : ReadState)
        → read_under_way seat.connection.stage ≡ Some r
        → read_under_way (seat_step g seat w).seat.connection.stage ≡ None
        → (outcome : ReadOutcome) × (read_heard (seat_step g seat w).seat.connection.stage ≡ Some outcome) }
    ensures begins { (g : SeatGivens) (seat : Seat) (w : SeatWorld) (number : ℕ) → SeatStands seat w.store
        → SeatHears seat w.store → seat.twin ≡ None → (seat_step g seat w).seat.twin ≡ Some number
        → number ≡ length w.store.world.calls }
    ensures stays { (g : SeatGivens) (seat : Seat) (w : SeatWorld) (number other : ℕ) → seat.twin ≡ Some number
        → (seat_step g seat w).seat.twin ≡ Some other → other ≡ number }
{
    acknowledged_cookies_stay_acknowledged();
    reads_answer_what_was_written();
    steps_are_turns_of_twins();
    twins_stay();
    lanes_stay_sound();
    lanes_go_by_events();
    taken_passes_are_lawful();
    windows_keep_their_limits();
    requests_are_decided_as_read();
    cookies_are_accepted_of_their_texts();
    tokens_are_read_once();
    cookies_are_of_the_key();
}

/// A seat reads its session by the cookie of its own request, and by none other. Where a step begins to wait for a
/// read, it took a request that bears the cookie by which the read asks, at the present moment, and this has not
/// expired; and while the seat waits it is this read, as it was asked for. A seat with memory tells a request whose
/// cookie has expired just that, where it does not refuse the request as it is decided, unless no serial number is
/// left. What a seat heard stays until the item of its request is taken, and this item tells just that: the value of
/// the session that was found, or that it had expired or was lost. And the serial number by which a request hears, as
/// it is taken, that they are spent is the one that is next then. So another value is refused, and an item that tells
/// of a session that is lost where one was found.
pub fn seats_read_their_own_sessions()
    ensures borne { (g : SeatGivens) (seat : Seat) (w : SeatWorld) (r : ReadState)
        → read_under_way seat.connection.stage ≡ None
        → read_under_way (seat_step g seat w).seat.connection.stage ≡ Some r
        → (head : Head) × (cookie : Cookie) × BearsCookie g.key seat.connection.received head cookie
        × (cookie_asked r ≡ cookie) × (r.moment ≡ g.now) × (g.now.0 ≤ cookie.expiry.0) }
    ensures same { (g : SeatGivens) (seat : Seat) (w : SeatWorld) (r after : ReadState)
        → read_under_way seat.connection.stage ≡ Some r
        → read_under_way (seat_step g seat w).seat.connection.stage ≡ Some after → order_of after ≡ order_of r }
    ensures late { (g : SeatGivens) (seat : Seat) (w : SeatWorld) (head : Head) (cookie : Cookie)
        → seat.connection.stage ≡ Resting → seat.connection.wants_memory ≡ false
        → BearsCookie g.key seat.connection.received head cookie → cookie.expiry.0 < g.now.0
        → IsTakenLate g.now cookie (decided_by (readings_under g.key) w.boot.start.boot head)
        (seat_step g seat w).seat.connection.stage }
    ensures held { (g : SeatGivens) (seat : Seat) (w : SeatWorld) (outcome : ReadOutcome)
        → read_heard seat.connection.stage ≡ Some outcome → (seat_step g seat w).items ≡ []
        → read_heard (seat_step g seat w).seat.connection.stage ≡ Some outcome }
    ensures told { (g : SeatGivens) (seat : Seat) (w : SeatWorld)
        → All (TellsWhatWasHeard seat.connection.stage) (seat_step g seat w).items }
    ensures spent { (g : SeatGivens) (seat : Seat) (w : SeatWorld) (seen : ℕ) → seat.connection.stage ≡ Resting
        → known_outcome (seat_step g seat w).seat.connection.stage ≡ Some (SerialsSpent seen)
        → seen ≡ (seat_step g seat w).world.serial }
{
    requests_are_decided_as_read();
    cookies_are_accepted_of_their_texts();
    tokens_are_read_once();
    cookies_are_of_the_key();
}

/// A seat that begins to wait for a read in a step waits for one that had not begun in any lanes before that step, from
/// which events led to it. So it does behind each later step of its own, as long as it waits, and whatever else
/// happens, as by other seats and by lines. So a cookie that was acknowledged at any time before the seat took its
/// request is one of which `seats_read_what_was_written` speaks.
pub fn reads_begin_behind_earlier_lanes()
    ensures begun { (earlier : LanesState) (g : SeatGivens) (seat : Seat) (w : SeatWorld) (r : ReadState)
        → SeatStands seat w.store → SeatHears seat w.store → LanesAreSound earlier → ByEvents earlier w.store
        → seat.twin ≡ None → read_under_way (seat_step g seat w).seat.connection.stage ≡ Some r
        → ReadsSince earlier (seat_step g seat w).seat (seat_step g seat w).world.store r }
    ensures step { (earlier : LanesState) (g : SeatGivens) (seat : Seat) (w : SeatWorld) (r after : ReadState)
        → SeatStands seat w.store → SeatHears seat w.store → ReadsSince earlier seat w.store r
        → read_under_way (seat_step g seat w).seat.connection.stage ≡ Some after
        → ReadsSince earlier (seat_step g seat w).seat (seat_step g seat w).world.store after }
    ensures meanwhile { (earlier st later : LanesState) (seat : Seat) (r : ReadState) → ByEvents st later
        → ReadsSince earlier seat st r → ReadsSince earlier seat later r }
{
    steps_are_turns_of_twins();
    twins_begin();
    twins_stay();
    lanes_stay_sound();
    lanes_go_by_events();
    taken_passes_are_lawful();
    windows_keep_their_limits();
    requests_are_decided_as_read();
    cookies_are_accepted_of_their_texts();
    tokens_are_read_once();
    cookies_are_of_the_key();
    ways_tell_how_they_began();
}

/// Where a seat stands, a cookie that its write answers is acknowledged in the world of the bricks with the value that
/// the write asked them to keep. The cookie of a response is one (`IsShown` of `request_visit/specs/Advancing.antt`);
/// and it stays so (`ssm_world::acknowledged_cookies_stay_acknowledged`), so that reads of it are right from then on.
pub fn seats_acknowledge_what_they_wrote()
    ensures { (seat : Seat) (st : LanesState) (cookie : Cookie) → SeatStands seat st
        → answer_held (way_in seat.connection.stage) ≡ Some (Ok cookie)
        → IsAcknowledged st.world cookie (value_written (way_in seat.connection.stage)) }
{
    worlds_are_sound();
}

/// Where a seat stands, a write of it that was missed has its causes: fewer than the bricks that had to store it told
/// the write so, and each other brick has its cause, in the order in which they were asked, which the brick or this
/// write met (`ssm_world::missed_writes_have_causes`). So a response that tells of causes tells of those.
pub fn seats_miss_for_causes()
    ensures { (seat : Seat) (st : LanesState) (causes : List BrickCause) → SeatStands seat st
        → answer_held (way_in seat.connection.stage) ≡ Some (Err (Missed causes))
        → MissedFor (way_in seat.connection.stage) st.world causes }
{
    missed_writes_have_causes();
}
