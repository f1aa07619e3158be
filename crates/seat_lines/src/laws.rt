//! Laws of the definitions of lines about connections. Their functions do nothing.

ghost use Rattle.std.specs.Prelude.{◌≡◌, ◌≢◌, ◌⊎◌, ◌+◌, ◌<◌, ◌≤◌, ◌++◌, ◌∷◌, ℕ, All, Bool, true, false, Contains, List, [], length, Option, Some, None, IfSome};
ghost use Rattle.std.specs.List.{flat_map};
ghost use Rattle.crash_base.specs.declared.numbers.ComponentNo.{ComponentNo};
ghost use Rattle.crash_base.specs.declared.numbers.Moment.{Moment};
ghost use Rattle.deployment.specs.Parts.{named};
ghost use Rattle.deployment.specs.declared.parts.Parts.{Parts};
ghost use Rattle.failure_scores.specs.declared.report.FailureReport.TheVariants.{Path};
ghost use Rattle.outcome_items.specs.declared.item.Item.{Item};
ghost use Rattle.recovery_manager.specs.Telling.{handed_on, new_manager, told};
ghost use Rattle.scenario_text.specs.Answer.{Answer, Done, Refused};
ghost use Rattle.scenario_text.specs.declared.seat_line.SeatLine.{SeatLine};
ghost use Rattle.scenario_text.specs.declared.seat_line.SeatLine.TheVariants as lines;
ghost use Rattle.scenario_text.specs.declared.seat_line.TheConstants.{MAX_SEAT};
ghost use Rattle.seat_steps.specs.Gone.{seat_gone};
ghost use Rattle.seat_steps.specs.Seats.{SeatGivens, SeatWorld, seat_step};
ghost use Rattle.seat_steps.specs.declared.seat.Seat.{Seat};
ghost use Rattle.session_lanes.specs.Lanes.{LanesState};
ghost use Rattle.shepherd.specs.Shepherds.{fresh, turn};
ghost use Rattle.shepherd.specs.declared.shepherd.EndKind.{EndKind};
ghost use Rattle.shepherd.specs.declared.shepherd.ShepherdTurn.{ShepherdTurn};
ghost use Rattle.shepherd.specs.declared.shepherd.ShepherdTurn.TheVariants as turns;
ghost use Rattle.seat_lines.specs.Changing.{ChangesSeatsAlone, IsLeftBySeat, SeatBecomes, makes_steps, number_in};
ghost use Rattle.seat_lines.specs.Giving.{items_at_giving_up, items_if, left_by, without_seats};
ghost use Rattle.seat_lines.specs.Hearing.{manager_by, path_of, report_line};
ghost use Rattle.seat_lines.specs.Items.{line_items, line_outs, line_reports, line_says, outs_in, reports_in};
ghost use Rattle.seat_lines.specs.Lines.{givens_of, moves, step_line, step_text, world_of};
ghost use Rattle.seat_lines.specs.Making.{StepMade, line_makes, reports_made};
ghost use Rattle.seat_lines.specs.Runs.{can_run, rests, seat_line, steps_from};
ghost use Rattle.seat_lines.specs.Site.{SeatsState, SiteState, no_seats, seat_at, with_seat};
ghost use Rattle.seat_lines.specs.PuttingOut.{HasAccounted, HasPutOut, PutsOutMore};
ghost use Rattle.seat_lines.specs.Texts.{decide_text, gone_text, out_text};
ghost use Rattle.seat_lines.specs.declared.seats.TheConstants.{FIRST_WORD, FIRST_WORKER};

/// Where a line comes to an answer by some replies of the keeper, more replies behind them change nothing: so of two
/// lists of replies, one of which begins with the other, a line comes to one answer.
pub fn lines_come_to_one_answer()
    ensures { (s : SiteState) (line : SeatLine) (replies more : List Bool) (a : Answer SiteState)
        → seat_line s line replies ≡ Some a → seat_line s line (replies ++ more) ≡ Some a }
{}

/// A step of a connection is that of its seat, over the site as it is: what it leaves of the seat and of the site, and
/// what is drawn next. It writes what is put out at the turn of output, and nothing at another one; and where it
/// reports that its request failed, the manager hears it, and its decision is written. One that waits for bytes does
/// nothing, and one that has ended goes; and it is refused where the connection is not there, where none has its
/// number, and where there are no bricks. Its worker is 65,536 and its number, and its moment and its key are those of
/// the sessions. The first random word of a scenario is 1, and those that follow go on over its boots, as the manager
/// does.
pub fn steps_are_those_of_seats()
    ensures step { (s t : SiteState) (n : ℕ) (keeps : Bool) (text : List ℕ) (seat : Seat) (st : LanesState)
        → seat_at s.seats.seats n ≡ Some seat → s.sessions.store ≡ Some st → moves (turn seat.connection) ≡ true
        → step_line s n keeps ≡ Done t text
        → IsLeftBySeat s n (turn seat.connection) (seat_step (givens_of s n keeps) seat (world_of s st)) t text }
    ensures waits { (s t : SiteState) (n : ℕ) (keeps : Bool) (text : List ℕ) (seat : Seat)
        → seat_at s.seats.seats n ≡ Some seat → turn seat.connection ≡ turns.Bytes
        → step_line s n keeps ≡ Done t text → (t ≡ s) × (text ≡ []) }
    ensures ended { (s t : SiteState) (n : ℕ) (keeps : Bool) (text : List ℕ) (seat : Seat) (end : EndKind)
        → seat_at s.seats.seats n ≡ Some seat → turn seat.connection ≡ turns.Ended end
        → step_line s n keeps ≡ Done t text → (t ≡ with_seat s n None) × (text ≡ gone_text n end) }
    ensures moving { (t : ShepherdTurn) → moves t ≡ false
        → (t ≡ turns.Bytes) ⊎ ((end : EndKind) × (t ≡ turns.Ended end)) }
    ensures none { (s : SiteState) (n : ℕ) (keeps : Bool) → seat_at s.seats.seats n ≡ None
        → step_line s n keeps ≡ Refused }
    ensures beyond { (s : SiteState) (n : ℕ) (keeps : Bool) → MAX_SEAT < n → step_line s n keeps ≡ Refused }
    ensures bare { (s : SiteState) (n : ℕ) (keeps : Bool) → s.sessions.store ≡ None → step_line s n keeps ≡ Refused }
    ensures settings { (s : SiteState) (n : ℕ) (keeps : Bool) → givens_of s n keeps ≡ record {
      key = s.sessions.key;
      worker = record { 0 = 65536 + n };
      now = s.sessions.moment;
      keeps = keeps;
    } }
    ensures world { (s : SiteState) (st : LanesState) → world_of s st ≡ record {
      boot = s.boot;
      since = s.since;
      store = st;
      word = s.seats.word;
      serial = s.sessions.serial;
    } }
    ensures output { (n : ℕ) (bytes : List ℕ) → step_text turns.Output n bytes ≡ out_text n bytes }
    ensures silent { (t : ShepherdTurn) (n : ℕ) (bytes : List ℕ) → t ≢ turns.Output → step_text t n bytes ≡ [] }
    ensures first { (parts : Parts) → no_seats parts ≡ record { seats = []; word = 1; manager = new_manager parts } }
    ensures boots { (s : SeatsState) → without_seats s ≡ record { seats = []; word = s.word; manager = s.manager } }
    ensures numbers { (FIRST_WORKER ≡ 65536) × (FIRST_WORD ≡ 1) }
{}

/// A line about a connection leaves all others as they are. Where it makes no step, it changes connections alone: one
/// that opens was not there, has a number up to `MAX_SEAT` and has done nothing yet, and bytes and the end of the input
/// come to one that is there and whose input has not ended. A run is refused that cannot begin (`can_run`): where the
/// connection is not there, where none has its number, and where there are no bricks. Behind a run that is done, the
/// connection waits for bytes or is gone.
pub fn lines_change_one_connection()
    ensures others { (s t : SiteState) (line : SeatLine) (replies : List Bool) (text : List ℕ) (m : ℕ)
        → seat_line s line replies ≡ Some (Done t text) → m ≢ number_in line
        → seat_at t.seats.seats m ≡ seat_at s.seats.seats m }
    ensures still { (s t : SiteState) (line : SeatLine) (replies : List Bool) (text : List ℕ)
        → seat_line s line replies ≡ Some (Done t text) → makes_steps line ≡ false → ChangesSeatsAlone s t text }
    ensures there { (s : SiteState) (n : ℕ) (replies : List Bool) (seat : Seat) → seat_at s.seats.seats n ≡ Some seat
        → seat_line s (lines.Conn n) replies ≡ Some Refused }
    ensures beyond { (s : SiteState) (n : ℕ) (replies : List Bool) → MAX_SEAT < n
        → seat_line s (lines.Conn n) replies ≡ Some Refused }
    ensures unable { (s : SiteState) (n : ℕ) (replies : List Bool) → can_run s n ≡ false
        → seat_line s (lines.Run n) replies ≡ Some Refused }
    ensures absent { (s : SiteState) (n : ℕ) (replies : List Bool) → seat_at s.seats.seats n ≡ None
        → seat_line s (lines.Run n) replies ≡ Some Refused }
    ensures past { (s : SiteState) (n : ℕ) (replies : List Bool) → MAX_SEAT < n
        → seat_line s (lines.Run n) replies ≡ Some Refused }
    ensures bare { (s : SiteState) (n : ℕ) (replies : List Bool) → s.sessions.store ≡ None
        → seat_line s (lines.Run n) replies ≡ Some Refused }
    ensures opens { (s t : SiteState) (n : ℕ) (replies : List Bool) (text : List ℕ)
        → seat_line s (lines.Conn n) replies ≡ Some (Done t text)
        → seat_at t.seats.seats n ≡ Some (record { connection = fresh; twin = None }) }
    ensures fed { (s t : SiteState) (n : ℕ) (bytes : List ℕ) (replies : List Bool) (text : List ℕ)
        → seat_line s (lines.Bytes n bytes) replies ≡ Some (Done t text)
        → SeatBecomes n s (λ seat. record seat {
          connection = record (seat.connection) { received = seat.connection.received ++ bytes };
        }) t }
    ensures ended { (s t : SiteState) (n : ℕ) (replies : List Bool) (text : List ℕ)
        → seat_line s (lines.End n) replies ≡ Some (Done t text)
        → SeatBecomes n s (λ seat. record seat { connection = record (seat.connection) { ended = true } }) t }
    ensures rests { (s t : SiteState) (n : ℕ) (replies : List Bool) (text : List ℕ)
        → seat_line s (lines.Run n) replies ≡ Some (Done t text)
        → IfSome (seat_at t.seats.seats n) (λ seat. turn seat.connection ≡ turns.Bytes) }
{}

/// The steps that a line makes (`line_makes`) are its own, one after the other, each of its connection. A `step` that
/// is done makes one, over the site as it is. A run makes, behind the steps that led to a site, one more there, where
/// it is not at its end. No other line makes any.
pub fn steps_made_are_those_of_a_line()
    ensures step { (s t : SiteState) (n : ℕ) (keeps : Bool) (more : List Bool) (out : List ℕ)
        → step_line s n keeps ≡ Done t out
        → line_makes s (lines.Step n) (keeps ∷ more) ≡ record { site = s; number = n; keeps = keeps } ∷ [] }
    ensures run { (s mid t : SiteState) (n : ℕ) (before : List Bool) (keeps : Bool) (out : List ℕ)
        → steps_from s n before ≡ Some mid → rests (seat_at mid.seats.seats n) ≡ false
        → step_line mid n keeps ≡ Done t out
        → line_makes s (lines.Run n) (before ++ keeps ∷ [])
        ≡ line_makes s (lines.Run n) before ++ record { site = mid; number = n; keeps = keeps } ∷ [] }
    ensures still { (s : SiteState) (line : SeatLine) (replies : List Bool) → makes_steps line ≡ false
        → line_makes s line replies ≡ [] }
    ensures own { (s : SiteState) (line : SeatLine) (replies : List Bool)
        → All (λ (step : StepMade). step.number ≡ number_in line) (line_makes s line replies) }
{}

/// A line about a connection is refused for no other cause: a connection of a number up to `MAX_SEAT` opens that is not
/// there; bytes and the end of the input come to one whose input has not ended; and one that is there makes its step
/// wherever there are bricks. So a run of it is not refused, at its begin or behind any of its steps.
pub fn lines_are_taken()
    ensures opens { (s : SiteState) (n : ℕ) (replies : List Bool) → n ≤ MAX_SEAT → seat_at s.seats.seats n ≡ None
        → seat_line s (lines.Conn n) replies ≢ Some Refused }
    ensures fed { (s : SiteState) (n : ℕ) (bytes : List ℕ) (replies : List Bool) (seat : Seat)
        → seat_at s.seats.seats n ≡ Some seat → seat.connection.ended ≡ false
        → seat_line s (lines.Bytes n bytes) replies ≢ Some Refused }
    ensures ended { (s : SiteState) (n : ℕ) (replies : List Bool) (seat : Seat) → seat_at s.seats.seats n ≡ Some seat
        → seat.connection.ended ≡ false → seat_line s (lines.End n) replies ≢ Some Refused }
    ensures made { (s : SiteState) (n : ℕ) (keeps : Bool) (seat : Seat) (st : LanesState) → n ≤ MAX_SEAT
        → seat_at s.seats.seats n ≡ Some seat → s.sessions.store ≡ Some st → step_line s n keeps ≢ Refused }
    ensures ran { (s : SiteState) (n : ℕ) (replies : List Bool) (seat : Seat) (st : LanesState) → n ≤ MAX_SEAT
        → seat_at s.seats.seats n ≡ Some seat → s.sessions.store ≡ Some st
        → seat_line s (lines.Run n) replies ≢ Some Refused }
{}

/// What a line writes is what its connection puts out by it and what the manager decides on its reports, in order, and
/// how it ended, if it goes. Over all lines a connection puts out as many responses as it gives items, each before its
/// item; behind them stands at most the response of the request that is open, which has left, or at last the one to
/// what is refused. Where it is given up, each response that has left has its item.
pub fn responses_are_put_out_in_order()
    ensures begins { (n : ℕ) → HasPutOut n [] [] (Some (record { connection = fresh; twin = None })) [] }
    ensures line { (s t : SiteState) (line : SeatLine) (replies : List Bool) (text : List ℕ) (outs : List (List ℕ)) (items : List Item) (seat : Seat)
        → seat_line s line replies ≡ Some (Done t text) → seat_at s.seats.seats (number_in line) ≡ Some seat
        → HasPutOut (number_in line) outs items (Some seat) []
        → PutsOutMore (number_in line) outs items s.seats.manager (line_says s line replies) (line_items s line replies)
        (seat_at t.seats.seats (number_in line)) text }
    ensures outs { (s : SiteState) (line : SeatLine) (replies : List Bool)
        → outs_in (line_says s line replies) ≡ line_outs s line replies }
    ensures gone { (n : ℕ) (outs : List (List ℕ)) (items : List Item) (seat : Seat) (st : LanesState) → HasPutOut n outs items (Some seat) []
        → HasAccounted outs (items ++ items_if (seat_gone seat st).item) }
    ensures given_up { (seats : List (Option Seat)) (st : LanesState) → items_at_giving_up seats st ≡ flat_map left_by seats }
{}

/// The manager hears the reports that the steps of connections make, in order, and what the lines `report` say; no line
/// changes it otherwise. A line `report` says a report where each of its names is a component's, and where they are no
/// more than 16; else it is refused. Its decision is written, and nothing else changes.
pub fn managers_hear_of_failures()
    ensures line { (s t : SiteState) (line : SeatLine) (replies : List Bool) (text : List ℕ)
        → seat_line s line replies ≡ Some (Done t text)
        → t.seats.manager ≡ manager_by s.seats.manager (line_reports s line replies) }
    ensures steps { (s t : SiteState) (line : SeatLine) (replies : List Bool) (text : List ℕ)
        → seat_line s line replies ≡ Some (Done t text)
        → line_reports s line replies ≡ reports_made (line_makes s line replies) }
    ensures said { (s : SiteState) (line : SeatLine) (replies : List Bool)
        → reports_in (line_says s line replies) ≡ line_reports s line replies }
    ensures reported { (parts : Parts) (s : SeatsState) (names : List (List ℕ)) (now : Moment) (path : List ComponentNo)
        → length names ≤ 16 → path_of parts names ≡ Some path
        → (let report = Path (record { path = path; moment = now }) in
        let t = told s.manager (handed_on s.manager report) in
        report_line parts s names now ≡ Done (record s { manager = t.manager }) (decide_text t.decision)) }
    ensures unknown { (parts : Parts) (s : SeatsState) (names : List (List ℕ)) (now : Moment) (name : List ℕ)
        → Contains names name → named parts.components name ≡ None → report_line parts s names now ≡ Refused }
    ensures long { (parts : Parts) (s : SeatsState) (names : List (List ℕ)) (now : Moment) → 16 < length names
        → report_line parts s names now ≡ Refused }
{}
