//! Laws of what connections serve in scenarios. Each is the contract of a function that does nothing: a caller that
//! needs the law calls the function.

ghost use Rattle.std.specs.Prelude.{◌≡◌, ◌≢◌, ◌⊎◌, ◌+◌, ◌%◌, ◌^◌, ◌<◌, ◌++◌, ◌∷◌, [], ℕ, Bool, List, length, Some, None, true, false};
ghost use Rattle.auction_calls.specs.declared.action.ActionCall.{ActionCall};
ghost use Rattle.outcome_items.specs.declared.item.Item.{Item};
ghost use Rattle.request_decisions.specs.Draws.{is_serial};
ghost use Rattle.request_decisions.specs.declared.draws.Draw.{Draw};
ghost use Rattle.scenario_text.specs.Answer.{Done};
ghost use Rattle.scenario_text.specs.Reading.{line_of};
ghost use Rattle.scenario_text.specs.declared.line.Line.TheVariants as lines;
ghost use Rattle.scenario_text.specs.declared.seat_line.SeatLine.{SeatLine};
ghost use Rattle.scenario_text.specs.declared.seat_line.SeatLine.TheVariants as seats;
ghost use Rattle.seat_laws.specs.Reporting.{HasReported};
ghost use Rattle.seat_laws.specs.Serving.{SeatServes, history_in, opening, serials_among, words_among};
ghost use Rattle.seat_lines.specs.Changing.{number_in};
ghost use Rattle.seat_lines.specs.Items.{line_items, line_outs, line_reports};
ghost use Rattle.seat_lines.specs.Making.{line_makes};
ghost use Rattle.seat_lines.specs.Responding.{bytes_by, in_row};
ghost use Rattle.seat_lines.specs.Runs.{seat_line};
ghost use Rattle.seat_lines.specs.Site.{SiteState, seat_at};
ghost use Rattle.seat_steps.specs.Gone.{seat_gone};
ghost use Rattle.seat_steps.specs.declared.seat.Seat.{Seat};
ghost use Rattle.session_lanes.specs.Lanes.{LanesState};
ghost use Rattle.shepherd.specs.Shepherds.{turn as turn_of};
ghost use Rattle.shepherd.specs.declared.shepherd.EndKind.{EndKind};
ghost use Rattle.shepherd.specs.declared.shepherd.Shepherd.{Shepherd};
ghost use Rattle.shepherd.specs.declared.shepherd.ShepherdTurn.TheVariants as at_turn;
ghost use Rattle.scenario_engine.specs.Connections.{turn_makes};
ghost use Rattle.scenario_engine.specs.Hearing.{AllMade};
ghost use Rattle.scenario_engine.specs.Serving.{AllServed, Connection, DrewInStep, IsServed, StepDraws, bytes_fed, bytes_of, course_of, items_by, its_steps, reported_by, steps_of, written_by};
ghost use Rattle.scenario_engine.specs.State.{RunningState, Running, site_of};
ghost use Rattle.scenario_engine.specs.Transcript.{Turn, Ended, UnderWay, first, end_from};

use seat_laws::{
    drawn_numbers_come_next, items_of_seats_follow_one_another, seats_serve_their_requests,
};
use seat_lines::{lines_change_one_connection, steps_are_those_of_seats};
use seat_steps::seats_answer_their_requests;

/// Each connection of a scenario serves its requests, from the line on by which it opened and up to each turn, as long
/// as its boot runs: whatever other lines come between, also in a run that is under way, and where the connection is
/// gone. What was drawn for its requests are the numbers that its steps drew, each as it was next; what it put out, its
/// items and its reports are what its steps put out, gave and reported; so all that
/// `seat_laws::seats_serve_their_requests` says of these holds of it, and its items follow on one another in the
/// journal (`items_of_seats_follow_one_another`). So the manager hears of each of its requests that failed once, in
/// their order: what its steps reported are the reports of its items, and then that of the request that is open, if
/// that has failed (`reported`). The steps were made by their calls (`AllMade`), as the contract of each line tells it.
/// Where it is given up, as before the next boot, the item that is left joins its items, and tells what had been
/// reported of it.
pub fn connections_serve_their_requests()
    ensures served { (turns : List Turn) → AllMade first turns → AllServed turns }
    ensures reported { (turns : List Turn) (c : Connection turns) (it : IsServed c)
        → HasReported (reported_by (its_steps c)) (items_by (its_steps c)) it.connection.stage }
    ensures given_up { (turns : List Turn) (c : Connection turns) (it : IsServed c) (seat : Seat) (st : LanesState)
        (i : Item) → seat_at c.last.seats.seats c.number ≡ Some seat → (seat_gone seat st).item ≡ Some i
        → (let course = course_of (site_of c.opened) (bytes_fed c) it.draws in (after : Shepherd ActionCall)
        × SeatServes c.last.sessions.key c.last.boot c.last.since c.last.sessions.moment
        (record course { items = course.items ++ i ∷ [] }) after) }
{
    seats_answer_their_requests();
    seats_serve_their_requests();
    items_of_seats_follow_one_another();
    lines_change_one_connection();
    steps_are_those_of_seats();
}

/// A connection can be followed from each line by which one opens: it has no bytes and no steps there; and behind turns
/// that were done, one more turn of the same boot, which is done or under way, adds what it brings. A line about this
/// connection brings it all its bytes, and all the steps that the line makes; any other line brings nothing. Whatever
/// turns follow, also those of the next boot, it stays a connection of the scenario as far as it had come (`stays`).
/// How far one has come begins with the moment and the history of the boot in which it opened (`course`). Which one has
/// served is the connection that is there (`whose`), or one that had ended, where none is (`gone`). The numbers that it
/// drew in a step are those that were next over the site of the step (`serial`, `word`). What the steps of a line put
/// out, give and report is what the line puts out, yields and reports.
pub fn connections_go_by_their_lines()
    ensures opens { (before : List Turn) (opening : Turn) (n : ℕ) (r : RunningState)
        → line_of opening.line ≡ Some (lines.Seat (seats.Conn n))
        → end_from first 1 (before ++ opening ∷ []) ≡ Ended (Running r)
        → (c : Connection (before ++ opening ∷ [])) × (c.number ≡ n) × (c.opened ≡ r) × (c.last ≡ r)
        × (bytes_fed c ≡ []) × (its_steps c ≡ []) }
    ensures follows { (turns : List Turn) (turn : Turn) (c : Connection turns) (r q : RunningState)
        → c.rest ≡ [] → end_from first 1 turns ≡ Ended (Running r) → line_of turn.line ≢ Some lines.Reopen
        → line_of turn.line ≢ Some (lines.Seat (seats.Conn c.number))
        → (end_from first 1 (turns ++ turn ∷ []) ≡ Ended (Running q))
        ⊎ (end_from first 1 (turns ++ turn ∷ []) ≡ UnderWay (Running q) (length turns + 1))
        → (d : Connection (turns ++ turn ∷ [])) × (d.number ≡ c.number) × (d.opened ≡ c.opened) × (d.last ≡ q)
        × (bytes_fed d ≡ bytes_fed c ++ bytes_of c.number (line_of turn.line))
        × (its_steps d ≡ its_steps c ++ steps_of c.number (turn_makes (Running r) turn)) }
    ensures stays { (turns more : List Turn) (c : Connection turns) → (d : Connection (turns ++ more))
        × (d.number ≡ c.number) × (d.opened ≡ c.opened) × (d.last ≡ c.last) × (bytes_fed d ≡ bytes_fed c)
        × (its_steps d ≡ its_steps c) }
    ensures course { (s : SiteState)
        → course_of s [] [] ≡ opening s.sessions.moment (length (history_in s.boot s.since)) }
    ensures whose { (turns : List Turn) (c : Connection turns) (it : IsServed c) (seat : Seat)
        → seat_at c.last.seats.seats c.number ≡ Some seat → it.connection ≡ seat.connection }
    ensures gone { (turns : List Turn) (c : Connection turns) (it : IsServed c)
        → seat_at c.last.seats.seats c.number ≡ None
        → (end : EndKind) × (turn_of it.connection ≡ at_turn.Ended end) }
    ensures serial { (d : StepDraws) (before behind : List Draw) (x : Draw) → DrewInStep d
        → d.drawn ≡ before ++ x ∷ behind → is_serial x.kind ≡ true
        → x.number ≡ d.step.site.sessions.serial + serials_among before }
    ensures word { (d : StepDraws) (before behind : List Draw) (x : Draw) → d.step.site.seats.word < 2 ^ 64
        → DrewInStep d → d.drawn ≡ before ++ x ∷ behind → is_serial x.kind ≡ false
        → x.number ≡ (d.step.site.seats.word + words_among before) % (2 ^ 64) }
    ensures own { (r : RunningState) (turn : Turn) (line : SeatLine) → line_of turn.line ≡ Some (lines.Seat line)
        → r.site ≡ true → (bytes_of (number_in line) (line_of turn.line) ≡ bytes_by line)
        × (steps_of (number_in line) (turn_makes (Running r) turn) ≡ line_makes (site_of r) line turn.replies.keeps) }
    ensures others { (r : RunningState) (turn : Turn) (n : ℕ)
        → ((line : SeatLine) → line_of turn.line ≡ Some (lines.Seat line) → n ≢ number_in line)
        → (bytes_of n (line_of turn.line) ≡ []) × (steps_of n (turn_makes (Running r) turn) ≡ []) }
    ensures yields { (s t : SiteState) (line : SeatLine) (replies : List Bool) (text : List ℕ)
        → seat_line s line replies ≡ Some (Done t text)
        → (written_by (line_makes s line replies) ≡ in_row (line_outs s line replies))
        × (items_by (line_makes s line replies) ≡ line_items s line replies)
        × (reported_by (line_makes s line replies) ≡ line_reports s line replies) }
{
    drawn_numbers_come_next();
}
