//! Laws of what connections do in scenarios. Each is the contract of a function that does nothing: a caller that needs
//! the law calls the function.

ghost use Rattle.std.specs.Prelude.{◌≡◌, ◌<◌, ◌≤◌, ◌-◌, ◌^◌, ◌++◌, ◌∷◌, [], ℕ, All, Bool, List, length, Some, true};
ghost use Rattle.outside.specs.Keeper.{KeeperTold};
ghost use Rattle.scenario_text.specs.Reading.{line_of};
ghost use Rattle.scenario_text.specs.declared.line.Line.TheVariants as lines;
ghost use Rattle.scenario_text.specs.declared.line.TheConstants.{MAX_LINE_BYTES};
ghost use Rattle.scenario_text.specs.declared.seat_line.SeatLine.{SeatLine};
ghost use Rattle.seat_laws.specs.Reads.{IsFoundOrLost, ReadsRightly, ReadsSince, order_of, read_heard, read_under_way};
ghost use Rattle.seat_laws.specs.Standing.{SeatStands};
ghost use Rattle.seat_lines.specs.Lines.{givens_of, world_of};
ghost use Rattle.seat_lines.specs.Making.{line_makes};
ghost use Rattle.seat_lines.specs.Site.{seat_at};
ghost use Rattle.seat_steps.specs.Replies.{SeatHears};
ghost use Rattle.seat_steps.specs.Seats.{seat_step};
ghost use Rattle.seat_steps.specs.declared.seat.Seat.{Seat};
ghost use Rattle.session_lanes.specs.Lanes.{LanesState};
ghost use Rattle.session_way.specs.Reading.{cookie_asked};
ghost use Rattle.session_way.specs.declared.session_read.ReadOutcome.{ReadOutcome};
ghost use Rattle.ssm_stub.specs.Reads.{ReadState};
ghost use Rattle.ssm_world.specs.Claims.{IsAcknowledged};
ghost use Rattle.scenario_engine.specs.Connections.{HasBrowsers, IsIdle, Pause, StepAmong, StepStands, Wrote, made_from, steps_before, steps_behind, turn_makes};
ghost use Rattle.scenario_engine.specs.Hearing.{AllHeardSpelled};
ghost use Rattle.scenario_engine.specs.KeeperCalls.{TellsCalls};
ghost use Rattle.scenario_engine.specs.Sound.{CommitsAsMeant};
ghost use Rattle.scenario_engine.specs.State.{RunningState, State, Running, site_of};
ghost use Rattle.scenario_engine.specs.Transcript.{Turn, Ended, first, boots_from, calls_from, end_from, last_state};

use crate::laws::boots_rise;
use auction_site::journals_stay_meant;
use lane_link::lanes_go_by_events;
use seat_laws::{
    attempts_fit, boots_stay_sound_at_seats, bricks_go_by_lent_steps, moments_stay_in_time,
    others_stand, owed_writes_were_drawn, requests_order_their_own_writes,
    seats_acknowledge_what_they_wrote, seats_begin_with_drawn_nonces, seats_read_what_was_written,
    seats_spell_their_calls, seats_stand, seats_stand_meanwhile,
};
use send_windows::windows_keep_their_limits;
use session_steps::{
    lent_steps_leave_others, lines_leave_calls, nonces_stay_new, other_nonces_stay_new,
    turns_go_by_events, writes_with_new_nonces_are_done,
};
use ssm_world::{acknowledged_cookies_stay_acknowledged, worlds_only_grow};

/// Whatever the turns, each commit of an action wrote and answered what the site means by the action, over the rows
/// just before it, also where they stop at a line. The commits of callers have no action.
pub fn journals_are_meant()
    ensures { (turns : List Turn) → All CommitsAsMeant (boots_from first turns) }
{
    journals_stay_meant();
    attempts_fit();
    boots_stay_sound_at_seats();
    seats_spell_their_calls();
    moments_stay_in_time();
}

/// Over a keeper that tells, each connection that is there stands over the bricks while serials are left, whatever the
/// turns: so the laws of `lane_link` say of its session that it reads what was written, and that `Lost` is answered
/// only with a cause for each brick. And a connection that was idle at the end of the first turns, or was not there,
/// waits behind further ones only for a read that began since. So it is of each step that connections make behind a
/// pause, or from any step on, also of one line; and what a write had answered to one before the pause, or when that
/// step begins, is acknowledged then. It asks that what the steps of connections heard is spelled by its bytes
/// (`AllHeardSpelled`), as each frame of the code is.
pub fn connections_stand_over_bricks()
    ensures stands { (turns : List Turn) (t u : KeeperTold) (r : RunningState) (st : LanesState) (n : ℕ)
        (seat : Seat) →
        TellsCalls (calls_from first turns) (Some t) (Some u) → AllHeardSpelled first turns →
        last_state (end_from first 1 turns) ≡ Running r → r.sessions.store ≡ Some st →
        r.sessions.serial < 2 ^ 64 - 1 → seat_at r.seats.seats n ≡ Some seat → SeatStands seat st }
    ensures since { (turns more : List Turn) (t u : KeeperTold) (r q : RunningState) (st now : LanesState) (n : ℕ)
        (seat : Seat) (read : ReadState) →
        TellsCalls (calls_from first (turns ++ more)) (Some t) (Some u) → AllHeardSpelled first (turns ++ more) →
        end_from first 1 turns ≡ Ended (Running r) → r.sessions.store ≡ Some st → IsIdle r.seats n →
        last_state (end_from first 1 (turns ++ more)) ≡ Running q → q.sessions.store ≡ Some now →
        q.sessions.serial < 2 ^ 64 - 1 → seat_at q.seats.seats n ≡ Some seat →
        read_under_way seat.connection.stage ≡ Some read → ReadsSince st seat now read }
    ensures steps { (turns : List Turn) (t u : KeeperTold) (pause : Pause turns) →
        TellsCalls (calls_from first turns) (Some t) (Some u) → AllHeardSpelled first turns →
        All (StepStands pause.running.seats pause.bricks) (steps_behind pause) }
    ensures wrote { (turns : List Turn) (t u : KeeperTold) (pause : Pause turns) →
        TellsCalls (calls_from first turns) (Some t) (Some u) → AllHeardSpelled first turns →
        All (Wrote pause.bricks) (steps_before pause) }
    ensures since_step { (turns : List Turn) (t u : KeeperTold) (at : StepAmong turns) →
        TellsCalls (calls_from first turns) (Some t) (Some u) → AllHeardSpelled first turns →
        All (StepStands at.step.site.seats at.bricks) (at.step ∷ at.behind) }
    ensures wrote_by_step { (turns : List Turn) (t u : KeeperTold) (at : StepAmong turns) →
        TellsCalls (calls_from first turns) (Some t) (Some u) → AllHeardSpelled first turns →
        All (Wrote at.bricks) (at.before ++ at.step ∷ []) }
{
    boots_rise();
    seats_stand();
    others_stand();
    seats_stand_meanwhile();
    owed_writes_were_drawn();
    requests_order_their_own_writes();
    bricks_go_by_lent_steps();
    seats_begin_with_drawn_nonces();
    seats_read_what_was_written();
    seats_acknowledge_what_they_wrote();
    acknowledged_cookies_stay_acknowledged();
    nonces_stay_new();
    other_nonces_stay_new();
    lines_leave_calls();
    turns_go_by_events();
    lent_steps_leave_others();
    writes_with_new_nonces_are_done();
    windows_keep_their_limits();
    worlds_only_grow();
    lanes_go_by_events();
}

/// Over a keeper that tells, what a connection reads of its session was written, whatever the turns, while serials are
/// left: also in a run that is under way, which stops where its replies do. Where its step hears what a read came to,
/// by a cookie that was acknowledged with a value in earlier lanes, before the read began, it is this value, within
/// the lease; or that the cookie has expired, where it has; or that the session is lost, with the cause of each brick
/// of the cookie. So within the lease it is this value, or the session is lost at each brick of the cookie. What the
/// steps before heard, and what this one hears, is spelled by its bytes.
pub fn connections_read_what_was_written()
    ensures right { (turns : List Turn) (t u : KeeperTold) (r : RunningState) (st earlier : LanesState) (n : ℕ)
        (keeps : Bool) (seat : Seat) (read : ReadState) (value : List ℕ) (outcome : ReadOutcome) →
        TellsCalls (calls_from first turns) (Some t) (Some u) → AllHeardSpelled first turns →
        last_state (end_from first 1 turns) ≡ Running r → r.sessions.store ≡ Some st →
        r.sessions.serial < 2 ^ 64 - 1 → seat_at r.seats.seats n ≡ Some seat → SeatHears seat st →
        ReadsSince earlier seat st read → IsAcknowledged earlier.world (cookie_asked read) value →
        read_heard (seat_step (givens_of (site_of r) n keeps) seat (world_of (site_of r) st)).seat.connection.stage
        ≡ Some outcome →
        ReadsRightly earlier (seat_step (givens_of (site_of r) n keeps) seat (world_of (site_of r) st)).world.store
        (order_of read) value outcome }
    ensures in_time { (turns : List Turn) (t u : KeeperTold) (r : RunningState) (st earlier : LanesState) (n : ℕ)
        (keeps : Bool) (seat : Seat) (read : ReadState) (value : List ℕ) (outcome : ReadOutcome) →
        TellsCalls (calls_from first turns) (Some t) (Some u) → AllHeardSpelled first turns →
        last_state (end_from first 1 turns) ≡ Running r → r.sessions.store ≡ Some st →
        r.sessions.serial < 2 ^ 64 - 1 → seat_at r.seats.seats n ≡ Some seat → SeatHears seat st →
        ReadsSince earlier seat st read → IsAcknowledged earlier.world (cookie_asked read) value →
        read_heard (seat_step (givens_of (site_of r) n keeps) seat (world_of (site_of r) st)).seat.connection.stage
        ≡ Some outcome →
        read.moment.0 ≤ read.expiry.0 → IsFoundOrLost value (cookie_asked read).bricks outcome }
{
    connections_stand_over_bricks();
    seats_read_what_was_written();
}

/// Over a keeper that tells, a cookie that was acknowledged with a value at the end of some turns reads back rightly
/// behind further ones, while serials are left, at a connection that was idle then, or was not there. Where its next
/// step hears what its read came to, it is this value, within the lease; or that the cookie has expired, where it has;
/// or that the session is lost, with the cause of each brick of the cookie.
pub fn connections_read_back()
    ensures right { (turns more : List Turn) (t u : KeeperTold) (r q : RunningState) (st now : LanesState) (n : ℕ)
        (keeps : Bool) (seat : Seat) (read : ReadState) (value : List ℕ) (outcome : ReadOutcome) →
        TellsCalls (calls_from first (turns ++ more)) (Some t) (Some u) → AllHeardSpelled first (turns ++ more) →
        end_from first 1 turns ≡ Ended (Running r) → r.sessions.store ≡ Some st → IsIdle r.seats n →
        last_state (end_from first 1 (turns ++ more)) ≡ Running q → q.sessions.store ≡ Some now →
        q.sessions.serial < 2 ^ 64 - 1 → seat_at q.seats.seats n ≡ Some seat → SeatHears seat now →
        read_under_way seat.connection.stage ≡ Some read → IsAcknowledged st.world (cookie_asked read) value →
        read_heard (seat_step (givens_of (site_of q) n keeps) seat (world_of (site_of q) now)).seat.connection.stage
        ≡ Some outcome →
        ReadsRightly st (seat_step (givens_of (site_of q) n keeps) seat (world_of (site_of q) now)).world.store
        (order_of read) value outcome }
    ensures in_time { (turns more : List Turn) (t u : KeeperTold) (r q : RunningState) (st now : LanesState) (n : ℕ)
        (keeps : Bool) (seat : Seat) (read : ReadState) (value : List ℕ) (outcome : ReadOutcome) →
        TellsCalls (calls_from first (turns ++ more)) (Some t) (Some u) → AllHeardSpelled first (turns ++ more) →
        end_from first 1 turns ≡ Ended (Running r) → r.sessions.store ≡ Some st → IsIdle r.seats n →
        last_state (end_from first 1 (turns ++ more)) ≡ Running q → q.sessions.store ≡ Some now →
        q.sessions.serial < 2 ^ 64 - 1 → seat_at q.seats.seats n ≡ Some seat → SeatHears seat now →
        read_under_way seat.connection.stage ≡ Some read → IsAcknowledged st.world (cookie_asked read) value →
        read_heard (seat_step (givens_of (site_of q) n keeps) seat (world_of (site_of q) now)).seat.connection.stage
        ≡ Some outcome →
        read.moment.0 ≤ read.expiry.0 → IsFoundOrLost value (cookie_asked read).bricks outcome }
{
    connections_stand_over_bricks();
    connections_read_what_was_written();
}

/// Over a keeper that tells, what browsers read of their sessions was written, and what they wrote is acknowledged,
/// whatever the turns, by each pause between two turns and by the begin of each step, where what their steps heard is
/// spelled by its bytes.
pub fn scenarios_have_browsers()
    ensures { (turns : List Turn) (t u : KeeperTold) → TellsCalls (calls_from first turns) (Some t) (Some u) →
        AllHeardSpelled first turns → HasBrowsers turns }
{
    connections_stand_over_bricks();
    seats_read_what_was_written();
}

/// The steps that connections make (`made_from`) are those of their lines, one after the other: a turn over a boot of
/// the site makes the steps of its line (`seat_lines::steps_made_are_those_of_a_line` says which these are), and turns
/// that were done and one more behind them make the steps of those, and then its own.
pub fn steps_made_are_those_of_lines()
    ensures line { (r : RunningState) (turn : Turn) (line : SeatLine) → line_of turn.line ≡ Some (lines.Seat line) →
        r.site ≡ true → turn_makes (Running r) turn ≡ line_makes (site_of r) line turn.replies.keeps }
    ensures turns { (turns : List Turn) (turn : Turn) (s : State) → end_from first 1 turns ≡ Ended s →
        length turn.line ≤ MAX_LINE_BYTES →
        made_from first (turns ++ turn ∷ []) ≡ made_from first turns ++ turn_makes s turn }
{}
