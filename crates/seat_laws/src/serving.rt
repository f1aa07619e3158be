//! Laws of what a connection of a scenario serves. Each is the contract of a function that does nothing: a caller that
//! needs the law calls the function.

ghost use Rattle.std.specs.Prelude.{◌≡◌, ◌≤◌, ◌<◌, ◌+◌, ◌%◌, ◌^◌, ℕ, All, true, false, List, [], ◌∷◌, ◌++◌, length, Option, Some, Ok};
ghost use Rattle.auction_calls.specs.declared.action.ActionCall.{ActionCall};
ghost use Rattle.auction_rows.specs.Parts.{site_parts};
ghost use Rattle.boot_core.specs.Boot.{BootValue};
ghost use Rattle.container_core.specs.Container.{ContainerValue, HasGrownBy};
ghost use Rattle.container_core.specs.History.{entries_in};
ghost use Rattle.container_core.specs.declared.history.Event.{Event};
ghost use Rattle.crash_base.specs.declared.numbers.Moment.{Moment};
ghost use Rattle.crash_base.specs.declared.numbers.RequestNo.{RequestNo};
ghost use Rattle.http_wire.specs.Requests.{requests};
ghost use Rattle.http_wire.specs.declared.taken.Head.{Head};
ghost use Rattle.outcome_items.specs.declared.item.Item.{Item};
ghost use Rattle.outside.specs.declared.clock.TheConstants.{MOMENTS_END};
ghost use Rattle.request_decisions.specs.Draws.{is_serial};
ghost use Rattle.request_decisions.specs.declared.draws.Draw.{Draw};
ghost use Rattle.request_visit.specs.declared.visit.Visit.{Visit};
ghost use Rattle.session_cookie.specs.declared.cookie.Cookie.{Cookie};
ghost use Rattle.session_cookie.specs.declared.cookie.TheConstants.{MAX_HOLDERS};
ghost use Rattle.session_lanes.specs.Lanes.{LanesState};
ghost use Rattle.session_way.specs.Way.{answer_held};
ghost use Rattle.shepherd.specs.Answering.{AreResponses, StageSays};
ghost use Rattle.shepherd.specs.Shepherds.{fresh};
ghost use Rattle.shepherd.specs.Standing.{all_before, coming, has_left};
ghost use Rattle.shepherd.specs.declared.shepherd.AskedCall.{AskedCall};
ghost use Rattle.shepherd.specs.declared.shepherd.Shepherd.{Shepherd};
ghost use Rattle.shepherd.specs.declared.shepherd.Stage.TheVariants.{Serving};
ghost use Rattle.ssm_world.specs.Claims.{IsAcknowledged};
ghost use Rattle.seat_steps.specs.Going.{GoesOnAtSeat};
ghost use Rattle.seat_steps.specs.Gone.{seat_gone};
ghost use Rattle.seat_steps.specs.Seats.{SeatGivens, SeatWorld, seat_step};
ghost use Rattle.seat_steps.specs.Stepped.{HasStepped};
ghost use Rattle.seat_steps.specs.Twinned.{way_in};
ghost use Rattle.seat_steps.specs.declared.seat.Seat.{Seat};
ghost use Rattle.seat_laws.specs.Reporting.{HasReported};
ghost use Rattle.seat_laws.specs.Serving.{Course, DrewNext, ItemsAreServed, ItemsFollow, PageIsMeant, SeatServes, WritesPage, course_behind, history_in, opening, serials_among, words_among};
ghost use Rattle.seat_laws.specs.Standing.{SeatStands};

use crate::reading::seats_acknowledge_what_they_wrote;
use auction_actions::ActionProgram;
use lane_link::LaneLink;
use outside::{PlainClock, PlainRandom, PlainSerials};
use seat_steps::{SiteMaker, made_steps_show_texts, seats_answer_their_requests};
use served_items::{
    items_are_held_in_order, items_go_back_to_their_requests, items_have_numbers_of_their_boot,
    items_tell_what_was_served, moments_of_items_never_fall, taken_requests_are_attributed,
};
use session_way::{ways_have_answers, writes_follow_their_orders};
use shepherd::{
    connections_answer_their_requests, connections_stand, connections_stand_with_their_requests,
    items_are_for_requests_in_order,
};
use shepherd_steps::{
    counted_numbers_come_in_turn, events_are_fixed, requests_are_decided_as_read,
};
use site_programs::items_are_what_the_site_means;
use text_readings::{cookies_are_accepted_of_their_texts, tokens_are_read_once};

/// A connection of a scenario serves its requests from its begin on, when bytes come or end, whatever others add to the
/// history meanwhile and however late it is then; and behind each of its steps that is made by its calls, where the
/// journal is that of the history, and a write of a session wants a brick at least and no more than a cookie may name.
/// What the step drew was next in the world, and is for the request that it took; what it put out and gave joins what
/// was before. Where it is given up, the item that is left is that of its last request (`gone`); and one is left where
/// a response has left whose item was not taken yet (`left`).
///
/// So what it put out are the responses to its items, in order, and the heads of its items, each once and in order, are
/// those of the requests of its bytes, as far as they are served. Each item has the number and the moment of its own
/// request, and what it tells of its session and of its page is that of its request's own cookie and call: what was
/// decided of its head, and drawn for it, in order (`means`). It refuses an item that is made of another request's
/// fields, or told twice, and a number that was drawn for one request and is borne by another. And what it reported are
/// the reports of its items, in order, each once, and then that of the request that is open, if that has failed.
pub fn seats_serve_their_requests()
    ensures begins { (key : List ℕ) (boot : BootValue) (since : List Event) (now : Moment)
        → SeatServes key boot since now (opening now (length (history_in boot since))) fresh }
    ensures fed { (key : List ℕ) (boot : BootValue) (since : List Event) (now : Moment) (c : Course)
        (s : Shepherd ActionCall) (more : List ℕ) → SeatServes key boot since now c s
        → SeatServes key boot since now (record c { fed = c.fed ++ more })
        (record s { received = s.received ++ more }) }
    ensures ended { (key : List ℕ) (boot : BootValue) (since : List Event) (now : Moment) (c : Course)
        (s : Shepherd ActionCall) → SeatServes key boot since now c s
        → SeatServes key boot since now c (record s { ended = true }) }
    ensures meanwhile { (key : List ℕ) (boot after : BootValue) (since more : List Event) (now later : Moment)
        (c : Course) (s : Shepherd ActionCall) → after.start ≡ boot.start → now.0 ≤ later.0
        → SeatServes key boot since now c s → SeatServes key after (since ++ more) later c s }
    ensures step { (g : SeatGivens) (seat : Seat) (w : SeatWorld) (old new : ContainerValue) (c : Course)
        → old.boot ≡ w.boot → old.since ≡ w.since → entries_in w.since ≡ w.boot.entries
        → g.now.0 < MOMENTS_END → w.word < 2 ^ 64 → HasGrownBy old new
        → 1 ≤ w.store.windows.wq → w.store.windows.wq ≤ MAX_HOLDERS
        → HasStepped g.key g.worker g.now seat old w new (seat_step g seat w)
        → SeatServes g.key w.boot w.since g.now c seat.connection
        → (drawn : List Draw) × DrewNext w drawn (seat_step g seat w).world
        × SeatServes g.key (seat_step g seat w).world.boot (seat_step g seat w).world.since g.now
        (course_behind c drawn (seat_step g seat w)) (seat_step g seat w).seat.connection }
    ensures gone { (key : List ℕ) (boot : BootValue) (since : List Event) (now : Moment) (c : Course) (seat : Seat)
        (st : LanesState) (i : Item) → (seat_gone seat st).item ≡ Some i
        → SeatServes key boot since now c seat.connection
        → (after : Shepherd ActionCall)
        × SeatServes key boot since now (record c { items = c.items ++ i ∷ [] }) after }
    ensures left { (seat : Seat) (st : LanesState) (v : Visit ActionCall) (call : Option AskedCall)
        → seat.connection.stage ≡ Serving v call → has_left v.work ≡ true
        → (i : Item) × ((seat_gone seat st).item ≡ Some i) }
    ensures means { (key : List ℕ) (boot : BootValue) (since : List Event) (now : Moment) (c : Course)
        (s : Shepherd ActionCall) → SeatServes key boot since now c s → (heads : List Head)
        × ((more : List ℕ) → requests (c.fed ++ more) ≡ all_before heads (coming s.stage (s.received ++ more)))
        × ((opened : List Head) × (last : List ℕ)
        × AreResponses key (history_in boot since) heads c.written c.items opened last
        × StageSays key (history_in boot since) opened last s.stage)
        × ItemsAreServed key boot since now c heads × HasReported c.reports c.items s.stage }
{
    connections_answer_their_requests::<ActionProgram, LaneLink, SiteMaker>();
    connections_stand::<ActionProgram, PlainClock, PlainRandom, PlainSerials>();
    connections_stand_with_their_requests::<ActionProgram, LaneLink, SiteMaker>();
    cookies_are_accepted_of_their_texts();
    counted_numbers_come_in_turn();
    events_are_fixed::<ActionProgram, LaneLink, SiteMaker, PlainClock, PlainRandom, PlainSerials>();
    items_are_for_requests_in_order::<ActionProgram>();
    items_are_held_in_order::<
        ActionProgram,
        LaneLink,
        SiteMaker,
        PlainClock,
        PlainRandom,
        PlainSerials,
    >();
    items_go_back_to_their_requests::<
        ActionProgram,
        LaneLink,
        SiteMaker,
        PlainRandom,
        PlainSerials,
    >();
    items_tell_what_was_served::<ActionProgram, LaneLink, SiteMaker, PlainRandom, PlainSerials>();
    made_steps_show_texts();
    requests_are_decided_as_read();
    seats_answer_their_requests();
    taken_requests_are_attributed::<
        ActionProgram,
        LaneLink,
        SiteMaker,
        PlainClock,
        PlainRandom,
        PlainSerials,
    >();
    tokens_are_read_once();
    ways_have_answers();
}

/// What a step of a connection drew are the numbers that come next in its world, each once. A serial number is as far
/// behind the first as serial numbers were drawn before it (`serial`); a random word likewise, and 0 follows the
/// greatest (`word`); and the next ones behind the step are those behind all that were drawn (`next`). It refuses a
/// number that is drawn twice, and one that is passed over.
pub fn drawn_numbers_come_next()
    ensures serial { (w after : SeatWorld) (before behind : List Draw) (d : Draw)
        → DrewNext w (before ++ d ∷ behind) after → is_serial d.kind ≡ true
        → d.number ≡ w.serial + serials_among before }
    ensures word { (w after : SeatWorld) (before behind : List Draw) (d : Draw) → w.word < 2 ^ 64
        → DrewNext w (before ++ d ∷ behind) after → is_serial d.kind ≡ false
        → d.number ≡ (w.word + words_among before) % (2 ^ 64) }
    ensures next { (w after : SeatWorld) (drawn : List Draw) → w.word < 2 ^ 64 → DrewNext w drawn after
        → (after.serial ≡ w.serial + serials_among drawn)
        × (after.word ≡ (w.word + words_among drawn) % (2 ^ 64)) }
{}

/// The items of a connection that serves its requests come in order. No item's moment is before the connection opened
/// (`first`), or before that of the item before it (`next`), or past the present one (`last`). Where the container was
/// held for an item, its history had at least as many events as when the connection opened (`since`), and as for each
/// item before (`later`), and no more than it has now (`within`). And each is under a number of the boot (`boot`). It
/// refuses an item that is older than the one before it.
pub fn items_of_seats_come_in_order()
    ensures first { (key : List ℕ) (boot : BootValue) (since : List Event) (now : Moment) (c : Course)
        (s : Shepherd ActionCall) (behind : List Item) (i : Item) → SeatServes key boot since now c s
        → c.items ≡ i ∷ behind → c.opened.0 ≤ i.moment.0 }
    ensures next { (key : List ℕ) (boot : BootValue) (since : List Event) (now : Moment) (c : Course)
        (s : Shepherd ActionCall) (before behind : List Item) (i next : Item) → SeatServes key boot since now c s
        → c.items ≡ before ++ i ∷ next ∷ behind → i.moment.0 ≤ next.moment.0 }
    ensures last { (key : List ℕ) (boot : BootValue) (since : List Event) (now : Moment) (c : Course)
        (s : Shepherd ActionCall) (before : List Item) (i : Item) → SeatServes key boot since now c s
        → c.items ≡ before ++ i ∷ [] → i.moment.0 ≤ now.0 }
    ensures since { (key : List ℕ) (boot : BootValue) (since : List Event) (now : Moment) (c : Course)
        (s : Shepherd ActionCall) (before behind : List Item) (i : Item) → SeatServes key boot since now c s
        → c.items ≡ before ++ i ∷ behind → 1 ≤ i.holds.held → c.behind ≤ i.holds.held }
    ensures later { (key : List ℕ) (boot : BootValue) (since : List Event) (now : Moment) (c : Course)
        (s : Shepherd ActionCall) (before between behind : List Item) (i next : Item)
        → SeatServes key boot since now c s → c.items ≡ before ++ i ∷ (between ++ next ∷ behind)
        → 1 ≤ next.holds.held → i.holds.held ≤ next.holds.held }
    ensures within { (key : List ℕ) (boot : BootValue) (since : List Event) (now : Moment) (c : Course)
        (s : Shepherd ActionCall) (before behind : List Item) (i : Item) → SeatServes key boot since now c s
        → c.items ≡ before ++ i ∷ behind → i.holds.held ≤ length (history_in boot since) }
    ensures boot { (key : List ℕ) (boot : BootValue) (since : List Event) (now : Moment) (c : Course)
        (s : Shepherd ActionCall) → SeatServes key boot since now c s
        → All (λ (i : Item). (request : RequestNo) → i.request ≡ Some request → request.boot ≡ boot.start.boot) c.items }
{
    items_are_held_in_order::<
        ActionProgram,
        LaneLink,
        SiteMaker,
        PlainClock,
        PlainRandom,
        PlainSerials,
    >();
    items_have_numbers_of_their_boot::<
        ActionProgram,
        LaneLink,
        SiteMaker,
        PlainRandom,
        PlainSerials,
    >();
    items_tell_what_was_served::<ActionProgram, LaneLink, SiteMaker, PlainRandom, PlainSerials>();
    moments_of_items_never_fall::<ActionProgram, LaneLink, SiteMaker, PlainRandom, PlainSerials>();
}

/// The items of a connection follow on one another: the journal was no shorter when the container was first held for
/// each than when it was last held for the one before (`next`), and no shorter at its last hold than at its first. That
/// is so from the begin of a connection on, and behind each of its steps, where it serves its requests and goes on in
/// its container. It refuses an item whose tries began before the container was last held for the item before.
pub fn items_of_seats_follow_one_another()
    ensures begins { (now : Moment) (behind : ℕ) → ItemsFollow (opening now behind) }
    ensures step { (g : SeatGivens) (seat : Seat) (w : SeatWorld) (old : ContainerValue) (c : Course)
        (drawn : List Draw) → GoesOnAtSeat old seat.connection
        → SeatServes g.key w.boot w.since g.now c seat.connection → ItemsFollow c
        → ItemsFollow (course_behind c drawn (seat_step g seat w)) }
    ensures next { (c : Course) (before behind : List Item) (i next : Item) → ItemsFollow c
        → c.items ≡ before ++ i ∷ next ∷ behind → i.holds.front.0 ≤ next.holds.from.0 }
{}

/// A page of its own that a connection serves is what the site means by its own request's call, in a boot of the site:
/// the entry at the page's place wrote and answers what the site means by it over the rows just before, and bears the
/// request's number and the text of its call, which is that of the request's head, made by the user of the session that
/// was read.
pub fn pages_of_seats_are_meant()
    ensures { (key : List ℕ) (boot : BootValue) (since : List Event) (now : Moment) (c : Course) (heads : List Head)
        → boot.start.deployment ≡ site_parts → (told : ItemsAreServed key boot since now c heads)
        → All (PageIsMeant boot.start (history_in boot since)) told.served }
{
    items_are_what_the_site_means::<LaneLink, PlainRandom, PlainSerials>();
}

/// What a connection that serves its requests writes of a session is what its page sets. Where its write has answered a
/// cookie, and the connection stands over the bricks, these acknowledge the cookie with the value that the entry of the
/// page sets or, where that sets none, with the one that was read. It refuses a write of another browser's value.
pub fn seats_write_what_their_pages_set()
    ensures { (key : List ℕ) (boot : BootValue) (since : List Event) (now : Moment) (course : Course) (seat : Seat)
        (st : LanesState) (cookie : Cookie) → SeatServes key boot since now course seat.connection
        → SeatStands seat st → answer_held (way_in seat.connection.stage) ≡ Some (Ok cookie)
        → (v : Visit ActionCall) × (call : Option AskedCall) × (seat.connection.stage ≡ Serving v call)
        × (page : WritesPage (history_in boot since) v) × IsAcknowledged st.world cookie page.order.value }
{
    seats_acknowledge_what_they_wrote();
    writes_follow_their_orders();
}
