//! Laws of what is reported in scenarios of requests that failed, and of what is decided on it. Each is the contract of
//! a function that does nothing: a caller that needs the law calls the function.

ghost use Rattle.std.specs.Prelude.{◌≡◌, ◌≢◌, ◌<◌, ◌≤◌, ◌++◌, ◌∷◌, [], ℕ, List, length, map, Some, true};
ghost use Rattle.std.specs.List.{flat_map};
ghost use Rattle.crash_base.specs.declared.numbers.ComponentNo.{ComponentNo};
ghost use Rattle.crash_base.specs.declared.numbers.Moment.{Moment};
ghost use Rattle.deployment.specs.Parts.{named};
ghost use Rattle.deployment.specs.declared.parts.Parts.{Parts};
ghost use Rattle.failure_scores.specs.Scores.{report_of};
ghost use Rattle.failure_scores.specs.declared.report.FailureReport.{FailureReport};
ghost use Rattle.failure_scores.specs.declared.report.FailureReport.TheVariants.{Path, JournalFull};
ghost use Rattle.recovery_manager.specs.Events.{no_earlier};
ghost use Rattle.recovery_manager.specs.Telling.{handed_on, told};
ghost use Rattle.scenario_text.specs.Answer.{Done};
ghost use Rattle.scenario_text.specs.Reading.{line_of};
ghost use Rattle.scenario_text.specs.declared.boot_line.BootLine.TheVariants as boots;
ghost use Rattle.scenario_text.specs.declared.line.Line.TheVariants as lines;
ghost use Rattle.scenario_text.specs.declared.line.TheConstants.{MAX_LINE_BYTES};
ghost use Rattle.scenario_text.specs.declared.seat_line.SeatLine.{SeatLine};
ghost use Rattle.seat_lines.specs.Hearing.{path_of, report_said};
ghost use Rattle.seat_lines.specs.Items.{reports_if};
ghost use Rattle.seat_lines.specs.Lines.{givens_of, moves, step_line, step_text, world_of};
ghost use Rattle.seat_lines.specs.Making.{StepMade, line_makes};
ghost use Rattle.seat_lines.specs.Site.{SiteState, seat_at};
ghost use Rattle.seat_lines.specs.Texts.{decide_text};
ghost use Rattle.seat_steps.specs.Seats.{behind_event};
ghost use Rattle.seat_steps.specs.declared.seat.Seat.{Seat};
ghost use Rattle.session_lanes.specs.Lanes.{LanesState};
ghost use Rattle.shepherd.specs.Reports.{report_in};
ghost use Rattle.shepherd.specs.Shepherds.{turn as turn_of};
ghost use Rattle.shepherd.specs.declared.shepherd.ShepherdTurn.TheVariants as at_turn;
ghost use Rattle.scenario_engine.specs.Connections.{step_leaves};
ghost use Rattle.scenario_engine.specs.Reports.{HasDecided, ReportMade, decided_on, decisions_text, reports_by, reports_from, step_reports, turn_reports};
ghost use Rattle.scenario_engine.specs.State.{RunningState, State, Running, DoneTo, site_of};
ghost use Rattle.scenario_engine.specs.Transcript.{Turn, Ended, end_from, first, turn_outcome};

use recovery_manager::{managers_decide_by_all_reports, new_managers_were_told_nothing};
use seat_lines::{lines_change_one_connection, steps_are_those_of_seats};

/// Whatever the turns, also where they stop at a line, the manager of each state that they lead to has heard just what
/// was reported by then, over all boots; and on each report it decides from scratch by all those before it and itself.
/// A report of an earlier moment than the one before is taken as of that one's (`moments`). Which reports these are,
/// and that each `decide` line tells such a decision, is in `reports_are_those_of_lines`.
pub fn decisions_are_by_all_reports()
    ensures decided { (turns : List Turn) → HasDecided turns }
    ensures moments { (before at : Moment) (path : List ComponentNo)
        → (before.0 ≤ at.0 → (no_earlier before (Path (report_of path at)) ≡ Path (report_of path at))
        × (no_earlier before (JournalFull at) ≡ JournalFull at))
        × (at.0 < before.0 → (no_earlier before (Path (report_of path at)) ≡ Path (report_of path before))
        × (no_earlier before (JournalFull at) ≡ JournalFull before)) }
{
    managers_decide_by_all_reports();
    new_managers_were_told_nothing();
    steps_are_those_of_seats();
    lines_change_one_connection();
}

/// The reports of turns (`reports_from`) are those of their lines, one after the other. A line `report` that is done
/// makes the one that it says, and writes its decision. A line about connections makes those of its steps, over a boot
/// of the site: a step that is made writes what it puts out, and behind it the decision on its report, if it makes one.
/// A step in the container reports the request of its connection, if that has just failed
/// (`shepherd::failed_requests_are_reported`); no other step reports anything. A line `report` over a boot is done
/// wherever it says a report, and changes the manager alone; the path of its report are the components of its names.
/// Turns that were done and one more behind them make the reports of those, and then its own.
pub fn reports_are_those_of_lines()
    ensures line { (s t : State) (turn : Turn) (names : List (List ℕ)) (text : List ℕ)
        → line_of turn.line ≡ Some (lines.Boot (boots.Report names)) → turn_outcome s turn ≡ DoneTo t text
        → (made : ReportMade) × (turn_reports s turn ≡ made ∷ [])
        × (report_said made.site.boot.start.deployment names made.site.sessions.moment ≡ Some made.report)
        × (text ≡ decide_text (decided_on made)) }
    ensures steps { (r : RunningState) (turn : Turn) (line : SeatLine) → line_of turn.line ≡ Some (lines.Seat line)
        → r.site ≡ true
        → turn_reports (Running r) turn ≡ flat_map step_reports (line_makes (site_of r) line turn.replies.keeps) }
    ensures step { (step : StepMade) (t : SiteState) (text : List ℕ) (seat : Seat) (st : LanesState)
        → seat_at step.site.seats.seats step.number ≡ Some seat → step.site.sessions.store ≡ Some st
        → moves (turn_of seat.connection) ≡ true → step_line step.site step.number step.keeps ≡ Done t text
        → text ≡ step_text (turn_of seat.connection) step.number (step_leaves step seat st).bytes
        ++ decisions_text (step_reports step) }
    ensures failed { (step : StepMade) (t : SiteState) (text : List ℕ) (seat : Seat) (st : LanesState)
        → seat_at step.site.seats.seats step.number ≡ Some seat → step.site.sessions.store ≡ Some st
        → step_line step.site step.number step.keeps ≡ Done t text → turn_of seat.connection ≡ at_turn.Inside
        → reports_by (step_reports step) ≡ reports_if (report_in
        (behind_event (givens_of step.site step.number step.keeps) seat (world_of step.site st)).stage) }
    ensures elsewhere { (step : StepMade) (seat : Seat) → seat_at step.site.seats.seats step.number ≡ Some seat
        → turn_of seat.connection ≢ at_turn.Inside → step_reports step ≡ [] }
    ensures names { (parts : Parts) (names : List (List ℕ)) (path : List ComponentNo) → path_of parts names ≡ Some path
        → map (λ (c : ComponentNo). Some c.0) path ≡ map (λ (name : List ℕ). named parts.components name) names }
    ensures done { (r : RunningState) (turn : Turn) (names : List (List ℕ)) (report : FailureReport)
        → line_of turn.line ≡ Some (lines.Boot (boots.Report names))
        → report_said r.boot.start.deployment names r.sessions.moment ≡ Some report
        → (let t = told r.seats.manager (handed_on r.seats.manager report) in turn_outcome (Running r) turn
        ≡ DoneTo (Running (record r { seats = record (r.seats) { manager = t.manager } })) (decide_text t.decision)) }
    ensures turns { (turns : List Turn) (turn : Turn) (s : State) → end_from first 1 turns ≡ Ended s
        → length turn.line ≤ MAX_LINE_BYTES
        → reports_from first (turns ++ turn ∷ []) ≡ reports_from first turns ++ turn_reports s turn }
{
    steps_are_those_of_seats();
}
