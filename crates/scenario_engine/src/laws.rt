//! Laws of scenarios. Each is the contract of a function that does nothing: a caller that needs the law calls the
//! function.

ghost use Rattle.std.specs.Prelude.{◌≡◌, ◌≢◌, ◌<◌, ◌-◌, ◌^◌, ◌++◌, ◌∷◌, ◌⊎◌, [], ℕ, Bool, List, Option, Some, None, All, true, false};
ghost use Rattle.boot_core.specs.Sound.{IsSound};
ghost use Rattle.boot_core.specs.declared.refusals.CommitRefusal.TheVariants as commits;
ghost use Rattle.call_ticket.specs.Ticket.{TicketValue};
ghost use Rattle.line_steps.specs.Callers.{caller_at};
ghost use Rattle.line_steps.specs.declared.callers.Caller.TheVariants.{Live};
ghost use Rattle.outside.specs.Keeper.{KeeperTold};
ghost use Rattle.scenario_engine.specs.Engine.{Replies, next_calls, with_reply};
ghost use Rattle.scenario_engine.specs.KeeperCalls.{KeeperCall, Failed, KeeperSeen, AreMade, AreSomeAsked, TellsCalls, has_failed};
ghost use Rattle.scenario_engine.specs.Running.{with_keeper, boot_refusal, commit_calls};
ghost use Rattle.scenario_engine.specs.Sound.{CommitsUnrebooted, RunsSerially, CommitsOwnRequests};
ghost use Rattle.scenario_text.specs.Answer.{Done, Refused};
ghost use Rattle.scenario_text.specs.declared.line.Line.{Line};
ghost use Rattle.scenario_text.specs.declared.session_line.SessionLine.TheVariants as lines;
ghost use Rattle.session_cookie.specs.declared.cookie.Cookie.{Cookie};
ghost use Rattle.scenario_engine.specs.Sessions.{HasSessions, session_turns};
ghost use Rattle.scenario_engine.specs.Seats.{next_calls_over, seat_over};
ghost use Rattle.scenario_engine.specs.State.{State, RunningState, Running, RefusedIn, DoneTo, UnderWayIn, site_of, with_site};
ghost use Rattle.session_steps.specs.Promise.{BootsRise};
ghost use Rattle.session_steps.specs.Sessions.{nonce, cookie_of, session_line};
ghost use Rattle.session_lanes.specs.Lanes.{LanesState};
ghost use Rattle.ssm_world.specs.Worlds.{is_new};
ghost use Rattle.scenario_engine.specs.Telling.{DoesPartly, HoldsRowsButNumber};
ghost use Rattle.scenario_engine.specs.Told.{Tells};
ghost use Rattle.scenario_engine.specs.Transcript.{Turn, lines_in, first, answer_to, calls_to, turn_outcome, transcript, end_from, last_state, IsAnswered, calls_from, boots_in, boots_from};
ghost use Rattle.scenario_engine.specs.UnderWay.{MakesOneMore};
ghost use Rattle.scenario_text.specs.declared.seat_line.SeatLine.{SeatLine};
ghost use Rattle.scenario_text.specs.declared.seat_line.SeatLine.TheVariants as seats;
ghost use Rattle.seat_lines.specs.Lines.{step_line};
ghost use Rattle.seat_lines.specs.Runs.{seat_line};
ghost use Rattle.seat_lines.specs.Site.{SiteState};
ghost use Rattle.seat_steps.specs.declared.seat.TheConstants.{NODE as SEATS_NODE};
ghost use Rattle.session_steps.specs.declared.sessions.TheConstants.{NODE as SESSIONS_NODE};

use boot_core::boots_stay_sound;
use journal_model::{legal_journals_are_serial, no_commit_after_a_reboot};
use seat_laws::{
    attempts_fit, boots_stay_sound_at_seats, bricks_go_by_lent_steps, replies_matter_where_handed,
    seats_begin_with_drawn_nonces,
};
use session_steps::{
    fetches_with_new_nonces_are_done, nonces_stay_new, sessions_stand,
    writes_with_new_nonces_are_done,
};

/// Whatever the turns, each boot is sound, and so is the one at the end, also where they stop at a line: its journal is
/// legal and within its limits, and each commit wrote only rows of tables whose owners' groups it entered.
pub fn boots_are_sound()
    ensures boots { (turns : List Turn) → All IsSound (boots_from first turns) }
    ensures state { (turns : List Turn) →
        All IsSound (boots_in (last_state (end_from first 1 turns))) }
{
    boots_stay_sound();
    attempts_fit();
    boots_stay_sound_at_seats();
}

/// Whatever the turns, no commit of the journal of a boot comes after a reboot of a group that its call entered, also
/// where they stop at a line.
pub fn no_turns_commit_after_a_reboot()
    ensures { (turns : List Turn) → All CommitsUnrebooted (boots_from first turns) }
{
    boots_are_sound();
    no_commit_after_a_reboot();
}

/// Whatever the turns, the journal of each boot is a serial execution of its calls, in its order, also where they stop
/// at a line.
pub fn no_turns_break_the_order()
    ensures { (turns : List Turn) → All RunsSerially (boots_from first turns) }
{
    boots_are_sound();
    legal_journals_are_serial();
}

/// Whatever the turns, each commit of a boot is of a request of this boot, also where they stop at a line. A boot
/// commits a request once at most, since its journal is legal, and the boots of a keeper that tells have numbers of
/// their own: so over all boots of such a keeper a request commits once at most.
pub fn commits_are_of_their_boot()
    ensures { (turns : List Turn) → All CommitsOwnRequests (boots_from first turns) }
{
    attempts_fit();
    boots_stay_sound_at_seats();
}

/// Whatever the turns, their sessions stand: the bricks, packets and calls are a world's, and each fetch answers what
/// was written, or says why it does not.
pub fn scenarios_have_sessions()
    ensures { (turns : List Turn) → HasSessions turns }
{
    sessions_stand();
    writes_with_new_nonces_are_done();
    bricks_go_by_lent_steps();
    seats_begin_with_drawn_nonces();
}

/// Over a keeper that tells, boots rise: each boot that turns start has a greater number than those before. So while
/// serials are left, no call to a brick has had the nonce that the next `write` or `fetch` draws: a `write` is not
/// refused where there are bricks, and neither is a `fetch` of a key with a cookie. A start that takes a number twice
/// would break it.
pub fn boots_rise()
    ensures rise { (turns : List Turn) (t u : KeeperTold) →
        TellsCalls (calls_from first turns) (Some t) (Some u) → BootsRise 0 (session_turns first turns) }
    ensures new { (turns : List Turn) (t u : KeeperTold) (r : RunningState) (st : LanesState) →
        TellsCalls (calls_from first turns) (Some t) (Some u) →
        last_state (end_from first 1 turns) ≡ Running r → r.sessions.store ≡ Some st →
        r.sessions.serial < 2 ^ 64 - 1 → is_new st.world (nonce r.sessions) ≡ true }
    ensures writes { (turns : List Turn) (t u : KeeperTold) (r : RunningState) (st : LanesState)
        (key : ℕ) (value : List ℕ) →
        TellsCalls (calls_from first turns) (Some t) (Some u) →
        last_state (end_from first 1 turns) ≡ Running r → r.sessions.store ≡ Some st →
        r.sessions.serial < 2 ^ 64 - 1 → session_line r.sessions (lines.Write key value) ≢ Refused }
    ensures fetches { (turns : List Turn) (t u : KeeperTold) (r : RunningState) (key : ℕ) (cookie : Cookie) →
        TellsCalls (calls_from first turns) (Some t) (Some u) →
        last_state (end_from first 1 turns) ≡ Running r → cookie_of r.sessions key ≡ Some cookie →
        r.sessions.serial < 2 ^ 64 - 1 → session_line r.sessions (lines.Fetch key) ≢ Refused }
{
    keepers_tell();
    scenarios_have_sessions();
    nonces_stay_new();
    writes_with_new_nonces_are_done();
    fetches_with_new_nonces_are_done();
}

/// Whatever the turns, a keeper that was called as they say, and that tells, holds just the rows that the journal of
/// the last boot leaves, or those that it held first where no boot is started; and each boot was started over the rows
/// that the one before left, with its deployment, its limits, those of its fault plans that a reboot of the process
/// leaves, and the next number. So what was answered as committed stays, over all boots, and nothing else comes.
pub fn keepers_tell()
    ensures { (turns : List Turn) (old new : Option KeeperTold) →
        TellsCalls (calls_from first turns) old new → Tells turns old new }
{
    boots_are_sound();
}

/// The lines of a scenario, the rows that its keeper holds and which of its calls fail decide all that it does: two
/// lists of turns with the same lines write the same and end the same, where the keepers tell the same before and the
/// same failed calls after; and then the keepers tell the same after. A call is known by its number, so the count of
/// calls must not have come to its last value. The keepers are to have replied to as many steps of connections as the
/// lines make: no line is under way.
pub fn keepers_decide()
    ensures { (turns others : List Turn) (t a b : KeeperTold) → lines_in turns ≡ lines_in others →
        IsAnswered (end_from first 1 turns) → IsAnswered (end_from first 1 others) →
        TellsCalls (calls_from first turns) (Some t) (Some a) →
        TellsCalls (calls_from first others) (Some t) (Some b) →
        a.failed ≡ b.failed → a.calls < 2 ^ 64 - 1 →
        (transcript first turns ≡ transcript first others)
        × (end_from first 1 turns ≡ end_from first 1 others)
        × (a ≡ b) }
{
    replies_matter_where_handed();
}

/// What is written by turns that stop inside a run, where the keeper has replied to no more of its steps, begins what
/// answered turns with the same lines write: where the keepers tell the same before; and the keeper of the answered
/// ones failed at the calls at which the other did, and else only at later ones, which the other has not made.
pub fn transcripts_begin_alike()
    ensures { (turns others : List Turn) (t a b : KeeperTold) (later : List ℕ) → lines_in turns ≡ lines_in others →
        IsAnswered (end_from first 1 turns) →
        TellsCalls (calls_from first turns) (Some t) (Some a) →
        TellsCalls (calls_from first others) (Some t) (Some b) →
        a.failed ≡ b.failed ++ later → All (λ (call : ℕ). b.calls < call) later → a.calls < 2 ^ 64 - 1 →
        (rest : List ℕ) × (transcript first turns ≡ transcript first others ++ rest) }
{
    replies_matter_where_handed();
}

/// Where memory runs out while a line is done, but for a step of a connection, no commit was kept: of the rows that a
/// telling keeper held, at most that of the boot's number is another.
pub fn no_commit_is_kept_partly()
    ensures { (s : State) (line : Option Line) (old new : KeeperSeen) →
        DoesPartly s line old new → HoldsRowsButNumber old.told new.told }
{}

/// A line is under way only as a step of a connection for which the keeper has not replied, or as a run that is not at
/// its end after the steps to which it has replied. So each other line is answered, whatever the replies.
pub fn lines_are_answered()
    ensures { (s mid : State) (turn : Turn) → turn_outcome s turn ≡ UnderWayIn mid → MakesOneMore turn mid }
{}

/// A line about a connection is taken over a boot of the site: it is refused only where it is refused of the
/// connections themselves, and where it is done there, the boot has just what it left. The boot is of the site behind
/// such a line as it was before. Over any other deployment each of these lines is refused.
pub fn lines_about_connections_are_taken()
    ensures taken { (r : RunningState) (line : SeatLine) (replies : List Bool) → r.site ≡ true →
        seat_line (site_of r) line replies ≢ Some Refused → seat_over r line replies ≢ RefusedIn (Running r) }
    ensures done { (r : RunningState) (line : SeatLine) (replies : List Bool) (t : SiteState) (text : List ℕ) →
        r.site ≡ true → seat_line (site_of r) line replies ≡ Some (Done t text) →
        seat_over r line replies ≡ DoneTo (Running (with_site r t)) text }
    ensures stays { (r q : RunningState) (line : SeatLine) (replies : List Bool) (text : List ℕ) →
        seat_over r line replies ≡ DoneTo (Running q) text → q.site ≡ r.site }
    ensures bare { (r : RunningState) (line : SeatLine) (replies : List Bool) → r.site ≡ false →
        seat_over r line replies ≡ RefusedIn (Running r) }
{}

/// Where a line is under way, one reply of the keeper more adds to its calls those of its next step. The calls of one
/// step were all made where memory ran out in it, or none was.
pub fn lines_go_on_by_steps()
    ensures calls { (s mid : State) (line : Option Line) (replies : Replies) (keeps : Bool) →
        answer_to s line replies ≡ UnderWayIn mid →
        calls_to s line (with_reply replies keeps) ≡ calls_to s line replies ++ next_calls mid line keeps }
    ensures whole { (s : State) (line : Option Line) (keeps : Bool) (old new : KeeperSeen) →
        AreSomeAsked (next_calls s line keeps) old new →
        AreSomeAsked [] old new ⊎ AreMade (next_calls s line keeps) old new }
{}

/// A commit that its boot does not refuse is told that the keeper failed only where its one call of the keeper failed;
/// and a keeper has failed at calls among which is a failed one. So over any keeper the count of faults rose where a
/// commit was told `keeper failed`. The same holds of a step of a connection: where it hands nothing to the keeper, it
/// is the same whether the keeper would fail or not; and where it hands something to a keeper that does not keep it,
/// its one call of the keeper failed.
pub fn failures_are_of_calls()
    ensures commits { (r : RunningState) (caller : ℕ) (ticket : TicketValue) (keeps : Bool) →
        caller_at r.callers caller ≡ Live ticket → boot_refusal r ticket ≡ None →
        with_keeper None ticket.call.writes keeps ≡ Some commits.KeeperFailed →
        commit_calls r caller keeps ≡ Failed ∷ [] }
    ensures calls { (calls before after : List KeeperCall) → calls ≡ before ++ Failed ∷ after →
        has_failed calls ≡ true }
    ensures steps { (r : RunningState) (n : ℕ) → next_calls_over r (seats.Step n) false ≡ [] →
        step_line (site_of r) n true ≡ step_line (site_of r) n false }
    ensures handed { (r : RunningState) (n : ℕ) → next_calls_over r (seats.Step n) false ≢ [] →
        next_calls_over r (seats.Step n) false ≡ Failed ∷ [] }
{
    replies_matter_where_handed();
}

/// Lines about sessions draw their nonces at the node at which steps of connections draw theirs.
pub fn nonces_are_of_one_node()
    ensures { SESSIONS_NODE ≡ SEATS_NODE }
{}
