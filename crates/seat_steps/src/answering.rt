//! Laws of what the connections of a scenario put out. Each is the contract of a function that does nothing: a caller
//! that needs the law calls the function.

ghost use Rattle.std.specs.Prelude.{◌≡◌, ◌<◌, ◌^◌, ◌++◌, ℕ, true, [], ◌∷◌, List, Some};
ghost use Rattle.auction_calls.specs.declared.action.ActionCall.{ActionCall};
ghost use Rattle.container_core.specs.Container.{ContainerValue};
ghost use Rattle.container_core.specs.declared.history.Event.{Event};
ghost use Rattle.crash_base.specs.declared.numbers.Moment.{Moment};
ghost use Rattle.crash_base.specs.declared.numbers.WorkerNo.{WorkerNo};
ghost use Rattle.http_wire.specs.Requests.{requests};
ghost use Rattle.http_wire.specs.declared.taken.Head.{Head};
ghost use Rattle.outcome_items.specs.declared.item.Item.{Item};
ghost use Rattle.outside.specs.declared.clock.TheConstants.{MOMENTS_END};
ghost use Rattle.shepherd.specs.Answering.{AreResponses, StageSays};
ghost use Rattle.shepherd.specs.Shepherds.{fresh};
ghost use Rattle.shepherd.specs.Standing.{all_before, coming};
ghost use Rattle.shepherd.specs.declared.shepherd.Shepherd.{Shepherd};
ghost use Rattle.seat_steps.specs.Answering.{SeatAnswers, ShowsTexts, events_in, heads_taken};
ghost use Rattle.session_lanes.specs.Lanes.{LanesState};
ghost use Rattle.seat_steps.specs.Gone.{seat_gone};
ghost use Rattle.seat_steps.specs.Seats.{SeatGivens, SeatOutcome, SeatWorld, seat_step};
ghost use Rattle.seat_steps.specs.Stepped.{HasStepped, world_from};
ghost use Rattle.seat_steps.specs.declared.seat.NextDraws.{NextDraws};
ghost use Rattle.seat_steps.specs.declared.seat.Seat.{Seat};

use auction_actions::ActionProgram;
use http_wire::requests_compose;
use lane_link::LaneLink;
use outside::{PlainClock, PlainRandom, PlainSerials};
use session_way::ways_have_answers;
use shepherd::{
    connections_answer_their_requests, connections_stand, items_are_for_requests_in_order,
    responses_are_to_their_items,
};
use shepherd_steps::{
    counted_numbers_come_in_turn, events_are_fixed, going_alone_ends, items_are_fixed,
    opened_requests_are_fixed, own_steps_are_fixed, requests_are_decided_as_read,
};
use site_programs::SiteMaker;
use ssm_stub::answers_stay;
use text_readings::{cookies_are_accepted_of_their_texts, tokens_are_read_once};

/// A connection of a scenario answers its requests: it has an item for each of the requests of the bytes that were fed
/// to it, in order, each once, as far as they are served; and what it put out are the responses to its items, in order,
/// as the history shows, each to the request in its place, of which it heeds whether the connection closes and whether
/// the page is left out (`means`). It does so from its begin on, when bytes come or end, whatever others add to the
/// history, and behind each of its steps, whatever it hears and whatever the keeper replies: what the step took off the
/// bytes, put out and gave joins what was before. Where a cookie is shown in the step, its numbers are to be in their
/// ranges (`ShowsTexts`), as they are in each step that is made (`made_steps_show_texts`). Where it is given up, the
/// item that is left is that of the response that left last.
pub fn seats_answer_their_requests()
    ensures begins { (key : List ℕ) (history : List Event) → SeatAnswers key history [] [] [] [] fresh }
    ensures fed { (key : List ℕ) (history : List Event) (fed more : List ℕ) (heads : List Head) (written : List ℕ)
        (items : List Item) (s : Shepherd ActionCall) → SeatAnswers key history fed heads written items s
        → SeatAnswers key history (fed ++ more) heads written items (record s { received = s.received ++ more }) }
    ensures ended { (key : List ℕ) (history : List Event) (fed : List ℕ) (heads : List Head) (written : List ℕ)
        (items : List Item) (s : Shepherd ActionCall) → SeatAnswers key history fed heads written items s
        → SeatAnswers key history fed heads written items (record s { ended = true }) }
    ensures meanwhile { (key : List ℕ) (history more : List Event) (fed : List ℕ) (heads : List Head)
        (written : List ℕ) (items : List Item) (s : Shepherd ActionCall)
        → SeatAnswers key history fed heads written items s
        → SeatAnswers key (history ++ more) fed heads written items s }
    ensures step { (g : SeatGivens) (seat : Seat) (w : SeatWorld) (fed : List ℕ) (heads : List Head)
        (written : List ℕ) (items : List Item) → g.now.0 < MOMENTS_END
        → SeatAnswers g.key (events_in w) fed heads written items seat.connection
        → ShowsTexts g seat w
        → SeatAnswers g.key (events_in (seat_step g seat w).world) fed (heads ++ heads_taken seat.connection)
        (written ++ (seat_step g seat w).bytes) (items ++ (seat_step g seat w).items)
        (seat_step g seat w).seat.connection }
    ensures grows { (g : SeatGivens) (seat : Seat) (w : SeatWorld)
        → (more : List Event) × (events_in (seat_step g seat w).world ≡ events_in w ++ more) }
    ensures gone { (key : List ℕ) (history : List Event) (fed : List ℕ) (heads : List Head) (written : List ℕ)
        (items : List Item) (seat : Seat) (st : LanesState) (i : Item) → (seat_gone seat st).item ≡ Some i
        → SeatAnswers key history fed heads written items seat.connection
        → (after : Shepherd ActionCall) × SeatAnswers key history fed heads written (items ++ i ∷ []) after }
    ensures means { (key : List ℕ) (history : List Event) (fed more : List ℕ) (heads : List Head) (written : List ℕ)
        (items : List Item) (s : Shepherd ActionCall) → SeatAnswers key history fed heads written items s
        → (requests (fed ++ more) ≡ all_before heads (coming s.stage (s.received ++ more)))
        × ((opened : List Head) × (last : List ℕ) × AreResponses key history heads written items opened last
        × StageSays key history opened last s.stage) }
{
    connections_stand::<ActionProgram, PlainClock, PlainRandom, PlainSerials>();
    connections_answer_their_requests::<ActionProgram, LaneLink, SiteMaker>();
    items_are_for_requests_in_order::<ActionProgram>();
    responses_are_to_their_items::<ActionProgram>();
    requests_compose();
    ways_have_answers();
    answers_stay();
}

/// Each cookie that is shown in a step that is made has a text under the key of the service: its numbers are in their
/// ranges.
pub fn made_steps_show_texts()
    ensures { (key : List ℕ) (worker : WorkerNo) (now : Moment) (seat : Seat) (old new : ContainerValue)
        (lanes : LanesState) (next : NextDraws) (o : SeatOutcome) → next.word < 2 ^ 64
        → (stepped : HasStepped key worker now seat old (world_from old lanes next) new o)
        → ShowsTexts (record { key = key; worker = worker; now = now; keeps = stepped.keeps }) seat
        (world_from old lanes next) }
{
    events_are_fixed::<ActionProgram, LaneLink, SiteMaker, PlainClock, PlainRandom, PlainSerials>();
    own_steps_are_fixed::<ActionProgram>();
    opened_requests_are_fixed::<ActionProgram, SiteMaker>();
    items_are_fixed::<ActionProgram>();
    going_alone_ends::<ActionProgram>();
    counted_numbers_come_in_turn();
    requests_are_decided_as_read();
    cookies_are_accepted_of_their_texts();
    tokens_are_read_once();
}
