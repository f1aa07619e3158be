//! A law of what connections put out over lines: the contract of a function that does nothing. A caller that needs the
//! law calls the function.

ghost use Rattle.std.specs.Prelude.{◌≡◌, ◌≢◌, ◌<◌, ◌++◌, ℕ, Bool, [], List, Some};
ghost use Rattle.auction_calls.specs.declared.action.ActionCall.{ActionCall};
ghost use Rattle.container_core.specs.declared.history.Event.{Event};
ghost use Rattle.http_wire.specs.declared.taken.Head.{Head};
ghost use Rattle.outcome_items.specs.declared.item.Item.{Item};
ghost use Rattle.scenario_text.specs.Answer.{Done};
ghost use Rattle.scenario_text.specs.declared.seat_line.SeatLine.{SeatLine};
ghost use Rattle.scenario_text.specs.declared.seat_line.SeatLine.TheVariants as lines;
ghost use Rattle.seat_steps.specs.Answering.{SeatAnswers};
ghost use Rattle.seat_steps.specs.Gone.{seat_gone};
ghost use Rattle.seat_steps.specs.declared.seat.Seat.{Seat};
ghost use Rattle.session_lanes.specs.Lanes.{LanesState};
ghost use Rattle.shepherd.specs.declared.shepherd.Shepherd.{Shepherd};
ghost use Rattle.seat_lines.specs.Changing.{number_in};
ghost use Rattle.seat_lines.specs.Giving.{items_if};
ghost use Rattle.seat_lines.specs.Items.{line_items, line_outs};
ghost use Rattle.seat_lines.specs.Making.{LineWasMade};
ghost use Rattle.seat_lines.specs.Responding.{AnswersMore, PlaceAnswers, bytes_by, history_of, in_row};
ghost use Rattle.seat_lines.specs.Runs.{seat_line};
ghost use Rattle.seat_lines.specs.Site.{SiteState, seat_at};

use seat_steps::{made_steps_show_texts, seats_answer_their_requests};

/// Over all lines a connection answers its requests, from where it opens until it is gone or given up: its lines give
/// an item for each of the requests of the bytes that came by its lines, in order, each once, as far as they are
/// served; and what its lines put out are the responses to these items, in order, as the history shows
/// (`seat_steps::seats_answer_their_requests.means`). Lines about others change nothing of it. Where it is given up,
/// the item that it gives then is that of the response that left last. The steps of the line were made by their calls,
/// as its contract tells it (`LineWasMade`).
pub fn responses_are_those_of_their_items()
    ensures opens { (s t : SiteState) (n : ℕ) (replies : List Bool) (text : List ℕ)
        → seat_line s (lines.Conn n) replies ≡ Some (Done t text)
        → PlaceAnswers t.sessions.key (history_of t) [] [] [] [] (seat_at t.seats.seats n) }
    ensures line { (s t : SiteState) (line : SeatLine) (replies : List Bool) (text fed : List ℕ) (heads : List Head)
        (written : List ℕ) (items : List Item) (seat : Seat) → seat_line s line replies ≡ Some (Done t text)
        → LineWasMade s line replies
        → seat_at s.seats.seats (number_in line) ≡ Some seat
        → SeatAnswers s.sessions.key (history_of s) fed heads written items seat.connection
        → AnswersMore t.sessions.key (history_of t) (fed ++ bytes_by line) heads
        (written ++ in_row (line_outs s line replies)) (items ++ line_items s line replies)
        (seat_at t.seats.seats (number_in line)) }
    ensures others { (s t : SiteState) (line : SeatLine) (replies : List Bool) (text fed : List ℕ) (heads : List Head)
        (written : List ℕ) (items : List Item) (m : ℕ) → seat_line s line replies ≡ Some (Done t text)
        → m ≢ number_in line
        → PlaceAnswers s.sessions.key (history_of s) fed heads written items (seat_at s.seats.seats m)
        → PlaceAnswers t.sessions.key (history_of t) fed heads written items (seat_at t.seats.seats m) }
    ensures gone { (key : List ℕ) (history : List Event) (fed : List ℕ) (heads : List Head) (written : List ℕ)
        (items : List Item) (seat : Seat) (st : LanesState)
        → SeatAnswers key history fed heads written items seat.connection → (after : Shepherd ActionCall)
        × SeatAnswers key history fed heads written (items ++ items_if (seat_gone seat st).item) after }
{
    seats_answer_their_requests();
    made_steps_show_texts();
}
