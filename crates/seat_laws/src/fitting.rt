//! Laws of what the steps of seats do with the boot. Each is the contract of a function that does nothing: a caller
//! that needs the law calls the function.

ghost use Rattle.std.specs.Prelude.{◌≡◌, ◌<◌, ◌≤◌, ◌^◌, ℕ, Bool, List, [], None, IfSome};
ghost use Rattle.auction_rows.specs.Parts.{site_parts};
ghost use Rattle.auction_site.specs.Meant.{AreMeant};
ghost use Rattle.boot_core.specs.Boot.{BootValue, HasGrown};
ghost use Rattle.boot_core.specs.Sound.{IsSound};
ghost use Rattle.scenario_text.specs.Answer.{Done};
ghost use Rattle.scenario_text.specs.declared.session_line.SessionLine.{SessionLine};
ghost use Rattle.session_steps.specs.Sessions.{SessionsState, session_line};
ghost use Rattle.session_steps.specs.declared.sessions.TheConstants.{MAX_MOMENT};
ghost use Rattle.shepherd.specs.Shepherds.{fresh};
ghost use Rattle.seat_steps.specs.Seats.{SeatGivens, SeatWorld, seat_step};
ghost use Rattle.seat_steps.specs.Stepped.{seat_writes};
ghost use Rattle.seat_steps.specs.declared.seat.Seat.{Seat};
ghost use Rattle.seat_laws.specs.Fitting.{CommitsAreOwn, CommitsAtMost, IsOwnCall, SeatFits, attempt_open};
ghost use Rattle.seat_laws.specs.Spelling.{SeatSpells};

use auction_site::journals_stay_meant;
use boot_core::boots_stay_sound;
use call_ticket::calls_follow;
use request_decisions::{orders_are_exact, orders_are_in_range};
use shepherd_steps::requests_are_decided_as_read;
use text_readings::{cookies_are_accepted_of_their_texts, tokens_are_read_once};

/// A seat fits a boot of the site as soon as it is there, behind each step of its own, whatever it hears and whatever
/// the keeper replies, behind each step of another seat that fits, and wherever the boot has grown, as by lines. So it
/// does when bytes come or end. The call of its open attempt, if one is open, fits the boot then, and is of a request
/// of the boot.
pub fn attempts_fit()
    ensures begins { (boot : BootValue) → boot.start.deployment ≡ site_parts
        → SeatFits boot (record { connection = fresh; twin = None }) }
    ensures step { (g : SeatGivens) (seat : Seat) (w : SeatWorld) → SeatFits w.boot seat
        → SeatFits (seat_step g seat w).world.boot (seat_step g seat w).seat }
    ensures others { (g : SeatGivens) (seat other : Seat) (w : SeatWorld) → SeatFits w.boot seat → SeatFits w.boot other
        → SeatFits (seat_step g seat w).world.boot other }
    ensures meanwhile { (old new : BootValue) (seat : Seat) → HasGrown old new → SeatFits old seat → SeatFits new seat }
    ensures still { (boot : BootValue) (seat new : Seat) → new.connection.stage ≡ seat.connection.stage
        → SeatFits boot seat → SeatFits boot new }
    ensures attempt { (boot : BootValue) (seat : Seat) → SeatFits boot seat
        → IfSome (attempt_open seat.connection.stage) (λ a. IsOwnCall boot a.ticket.call) }
{
    calls_follow();
    cookies_are_accepted_of_their_texts();
    tokens_are_read_once();
    requests_are_decided_as_read();
    orders_are_in_range();
    orders_are_exact();
}

/// What a seat asks for is a call in its ranges, and the text that its request would commit spells the call of its
/// program: as soon as the seat is there, behind each step of its own at a moment before 2^62, whatever it hears and
/// whatever the keeper replies, and when bytes come or end. Nothing else than its own steps touches either.
pub fn seats_spell_their_calls()
    ensures begins { SeatSpells (record { connection = fresh; twin = None }) }
    ensures step { (g : SeatGivens) (seat : Seat) (w : SeatWorld) → g.now.0 < 2 ^ 62 → SeatSpells seat
        → SeatSpells (seat_step g seat w).seat }
    ensures still { (seat new : Seat) → new.connection.stage ≡ seat.connection.stage → SeatSpells seat
        → SeatSpells new }
{
    cookies_are_accepted_of_their_texts();
    tokens_are_read_once();
    requests_are_decided_as_read();
    orders_are_in_range();
    orders_are_exact();
}

/// No line about sessions sets the present moment past the last one, which is below 2^62. So each step of a seat in a
/// scenario is at a moment before that, as `seats_spell_their_calls` asks.
pub fn moments_stay_in_time()
    ensures last { MAX_MOMENT < 2 ^ 62 }
    ensures lines { (s t : SessionsState) (line : SessionLine) (text : List ℕ) → s.moment.0 ≤ MAX_MOMENT
        → session_line s line ≡ Done t text → t.moment.0 ≤ MAX_MOMENT }
{}

/// A step of a seat that fits leaves the boot as it was, or counts one entering of a component, or adds the one commit
/// of a call that fits it, and that is of a request of it. So the boot has grown, a sound one stays sound, and each
/// commit stays of a request of its own boot. And where the seat spells its calls, what it commits is what the site
/// means by the call of its text over the rows at its own place: a journal that is meant stays so.
/// `journals_stay_meant` says the same of an empty journal, of the begin and the end of a reboot, and of a caller's
/// commit, which has no action.
pub fn boots_stay_sound_at_seats()
    ensures commits { (g : SeatGivens) (seat : Seat) (w : SeatWorld) → SeatFits w.boot seat
        → CommitsAtMost w.boot (seat_step g seat w).world.boot }
    ensures grown { (g : SeatGivens) (seat : Seat) (w : SeatWorld) → SeatFits w.boot seat
        → HasGrown w.boot (seat_step g seat w).world.boot }
    ensures sound { (g : SeatGivens) (seat : Seat) (w : SeatWorld) → SeatFits w.boot seat → IsSound w.boot
        → IsSound (seat_step g seat w).world.boot }
    ensures own { (g : SeatGivens) (seat : Seat) (w : SeatWorld) → SeatFits w.boot seat → CommitsAreOwn w.boot
        → CommitsAreOwn (seat_step g seat w).world.boot }
    ensures meant { (g : SeatGivens) (seat : Seat) (w : SeatWorld) → SeatFits w.boot seat → SeatSpells seat
        → AreMeant w.boot.start.base w.boot.entries
        → AreMeant (seat_step g seat w).world.boot.start.base (seat_step g seat w).world.boot.entries }
{
    boots_stay_sound();
    journals_stay_meant();
    calls_follow();
    cookies_are_accepted_of_their_texts();
    tokens_are_read_once();
    requests_are_decided_as_read();
    orders_are_in_range();
    orders_are_exact();
}

/// Where a step of a seat hands nothing to the keeper, its reply changes nothing of what the step leaves.
pub fn replies_matter_where_handed()
    ensures { (g : SeatGivens) (keeps other : Bool) (seat : Seat) (w : SeatWorld) → seat_writes seat.connection w.boot ≡ []
        → seat_step (record g { keeps = keeps }) seat w ≡ seat_step (record g { keeps = other }) seat w }
{}
