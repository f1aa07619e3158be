//! Laws of the runs of connections. Each is the contract of a function that does nothing: a caller that needs the law
//! calls the function.

ghost use Rattle.std.specs.Prelude.{◌≡◌, ◌≢◌, ◌≤◌, ◌+◌, ℕ, Bool, true, false, List, length, None, Some};
ghost use Rattle.auction_rows.specs.Parts.{site_parts};
ghost use Rattle.scenario_text.specs.Answer.{Done};
ghost use Rattle.scenario_text.specs.declared.seat_line.SeatLine.{SeatLine};
ghost use Rattle.scenario_text.specs.declared.seat_line.SeatLine.TheVariants as lines;
ghost use Rattle.seat_lines.specs.Changing.{makes_steps};
ghost use Rattle.seat_lines.specs.Lines.{step_line};
ghost use Rattle.seat_lines.specs.Runs.{can_run, seat_line, steps_from};
ghost use Rattle.seat_lines.specs.Site.{SiteState};
ghost use Rattle.scenario_engine.specs.RunsLeft.{RunIsCounted, run_left};
ghost use Rattle.scenario_engine.specs.State.{RunningState, Running, site_of};
ghost use Rattle.scenario_engine.specs.Transcript.{Turn, first, end_from, last_state};

use crate::laws::scenarios_have_sessions;
use seat_laws::seats_come_to_rest;
use seat_lines::{lines_are_taken, lines_change_one_connection, steps_are_those_of_seats};
use send_windows::windows_keep_their_limits;

/// A run whose steps are counted (`RunIsCounted`) comes to rest, whatever the keeper replies: with as many replies as
/// it has steps left (`run_left`) it has an answer; and where it can begin, it is done. It makes no more steps than so
/// many: behind each of its steps there is at least one fewer left. The steps of each run that were counted before a
/// step are so behind it, of the connection that made it and of every other; and where those of all runs are, they are
/// behind a line by which a connection opens, or bytes come or end.
pub fn runs_come_to_rest()
    ensures done { (s : SiteState) (n : ℕ) (replies : List Bool) → RunIsCounted s n → can_run s n ≡ true
        → run_left s n ≤ length replies
        → (t : SiteState) × (text : List ℕ) × (seat_line s (lines.Run n) replies ≡ Some (Done t text)) }
    ensures answered { (s : SiteState) (n : ℕ) (replies : List Bool) → RunIsCounted s n
        → run_left s n ≤ length replies → seat_line s (lines.Run n) replies ≢ None }
    ensures fewer { (s t : SiteState) (n : ℕ) (replies : List Bool) → RunIsCounted s n
        → steps_from s n replies ≡ Some t → length replies + run_left t n ≤ run_left s n }
    ensures step { (s t : SiteState) (n : ℕ) (keeps : Bool) (text : List ℕ) → RunIsCounted s n
        → step_line s n keeps ≡ Done t text → RunIsCounted t n }
    ensures others { (s t : SiteState) (n m : ℕ) (keeps : Bool) (text : List ℕ) → RunIsCounted s n → RunIsCounted s m
        → step_line s n keeps ≡ Done t text → RunIsCounted t m }
    ensures lines { (s t : SiteState) (line : SeatLine) (replies : List Bool) (text : List ℕ) (m : ℕ)
        → s.boot.start.deployment ≡ site_parts → ((n : ℕ) → RunIsCounted s n) → makes_steps line ≡ false
        → seat_line s line replies ≡ Some (Done t text) → RunIsCounted t m }
{
    lines_are_taken();
    lines_change_one_connection();
    steps_are_those_of_seats();
    seats_come_to_rest();
}

/// Whatever the turns, and whatever the keeper replies, the steps of each run are counted in the boot of the site that
/// the turns leave running, also where they stop at a line: so each `run` comes to rest (`runs_come_to_rest`).
pub fn runs_of_scenarios_come_to_rest()
    ensures { (turns : List Turn) (r : RunningState) (n : ℕ) → r.site ≡ true
        → last_state (end_from first 1 turns) ≡ Running r → RunIsCounted (site_of r) n }
{
    lines_are_taken();
    lines_change_one_connection();
    steps_are_those_of_seats();
    seats_come_to_rest();
    scenarios_have_sessions();
    windows_keep_their_limits();
}

/// A boot of the site has the site's parts, whatever the turns, also where they stop at a line: so what
/// `seat_laws::pages_of_seats_are_meant` asks of the boot of a connection is so.
pub fn boots_of_the_site_have_its_parts()
    ensures { (turns : List Turn) (r : RunningState) → r.site ≡ true
        → last_state (end_from first 1 turns) ≡ Running r → r.boot.start.deployment ≡ site_parts }
{
    lines_are_taken();
    lines_change_one_connection();
    steps_are_those_of_seats();
    seats_come_to_rest();
}
