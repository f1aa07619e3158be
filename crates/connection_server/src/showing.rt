//! The law of what a call that served a connection tells of its end. It is the contract of a function that does
//! nothing: a caller that needs the law calls the function.

ghost use Rattle.std.specs.Prelude.{◌≡◌, ◌⊎◌, ◌+◌, ◌<◌, ◌≤◌, ℕ, All, Bool, List, [], ◌∷◌, ◌++◌, Some, false, filter, length, map, nat_lt, not, slice_get, take, true};
ghost use Rattle.std.specs.List.{flat_map, range_with_len};
ghost use Rattle.auction_rows.specs.Parts.{site_parts};
ghost use Rattle.auction_site.specs.Actions.{steps_of};
ghost use Rattle.boot_core.specs.declared.boot.Start.{Start};
ghost use Rattle.container_core.specs.History.{entries_in, is_stopped};
ghost use Rattle.container_core.specs.declared.history.Event.{Event};
ghost use Rattle.container_core.specs.declared.history.Event.TheVariants.{Started};
ghost use Rattle.crash_base.specs.declared.numbers.Place.{Place};
ghost use Rattle.http_wire.specs.Requests.{requests};
ghost use Rattle.http_wire.specs.declared.taken.Head.{Head};
ghost use Rattle.outcome_items.specs.Answers.{IsResponse};
ghost use Rattle.outcome_items.specs.Traces.{window_traces};
ghost use Rattle.outcome_items.specs.declared.item.Item.{Item};
ghost use Rattle.outcome_items.specs.declared.outcome.ItemOutcome.TheVariants as item;
ghost use Rattle.outside.specs.Faults.{Rose};
ghost use Rattle.outside.specs.Link.{Made};
ghost use Rattle.outside.specs.Sink.{appended, AppendsPrefix};
ghost use Rattle.outside.specs.Source.{HasEnded, prepended};
ghost use Rattle.outside.specs.declared.link.LinkEvent.{LinkEvent};
ghost use Rattle.request_decisions.specs.Draws.{is_serial};
ghost use Rattle.request_decisions.specs.declared.draws.Draw.{Draw};
ghost use Rattle.request_intake.specs.Intakes.{serials_in};
ghost use Rattle.seat_serials.specs.Drawing.{SeatLooks};
ghost use Rattle.send_windows.specs.declared.fact.TheConstants.{LARGEST_WINDOW, LEAST_WINDOW, MAX_BRICKS};
ghost use Rattle.send_windows.specs.declared.fact.WindowFact.{WindowFact};
ghost use Rattle.send_windows.specs.declared.history.WindowMark.{WindowMark};
ghost use Rattle.send_windows.specs.declared.history.WindowMark.TheVariants as mark;
ghost use Rattle.served_items.specs.Attributing.{Service, TakenIn, drawn_for_all, taken_heads};
ghost use Rattle.served_items.specs.Served.{IsServedFor};
ghost use Rattle.shepherd.specs.Accounting.{traces_in};
ghost use Rattle.shepherd.specs.Standing.{ending_of};
ghost use Rattle.shepherd.specs.declared.shepherd.EndKind.TheVariants as ends;
ghost use Rattle.site_programs.specs.Errands.{IsMadeOf};
ghost use Rattle.site_programs.specs.declared.maker.SiteMaker.{SiteMaker};
ghost use Rattle.site_responses.specs.Responses.{last_response};
ghost use Rattle.site_responses.specs.declared.answer.Untaken.{Untaken};
ghost use Rattle.connection_server.specs.Ending.{HasServedConnection};
ghost use Rattle.connection_server.specs.Stands.{Stand};
ghost use Rattle.connection_server.specs.declared.served.Served.{Served as ServedValue};

use crate::served::ServedEnd;
use auction_actions::ActionProgram;
use outside::{Clock, Link, Random};
use seat_serials::SeatSerials;
use served_connections::courses_show_what_was_served;
use site_programs::SiteMaker;
use std::marker::Brand;

/// What a call that served a connection tells of its end. Where the source ended inside a request, all requests of the
/// bytes that were read have an item, nothing is left of the source, the container was not stopped for any of them, and
/// all was written (`cut`). Where the connection closed, nothing is left of the source either, and the container was
/// not stopped for any item; or no more requests come, whatever bytes follow (`closed`). Where the container was
/// stopped, it was so in the last hold for the last item and for no other, and the request of that one does not close
/// the connection (`stopped`). Where the source failed, its count rose, and all requests have an item (`read_fault`);
/// where the sink did, its count rose (`write_fault`). However the call ended, the container was stopped for no item
/// before the last (`heeded`). The front that is told is that of the last item, and 0 where there is none (`front`).
///
/// What was written are the responses to the items, in order, each to the request in its place of the bytes that were
/// read, and then, where the call ended with a refusal, the response to that. Where the sink failed, a part of this was
/// written, and the call may have come to a refusal too (`responses`).
///
/// Of all items at once (`items`): the history begins with a start of the site in the service's boot. Requests were
/// taken in, whose heads are the first ones of the bytes that were read, in order, and each item is for the one in its
/// place. Calls of the link lead from where it was to where it is, and what an item tells of its session is so over
/// these and no others. The random source gave words from where it was on, one after another, and the seat drew serial
/// numbers: just those that were drawn for these requests, in order, each once. Where memory was wanted, one more
/// request may have been taken in, and bytes, words and serial numbers behind may be lost; else none are, and the words
/// lead to where the source is.
///
/// However the call ended, also where memory was wanted: its seat of the container is of the lock that it was of, with
/// its parts, and at home, and has seen what it had seen, and more behind it if there is more. It added events at
/// places that rise, behind what it had seen: those that the items tell of, in order, and where memory was wanted one
/// more at most (`added`). Its seat of the windows likewise left marks: those that the items tell of, which leave out
/// how many passes were taken, and where memory was wanted those of one more request at most. Behind passes that it
/// took, its next mark is that it spent them (`marked`). The last moment of its clock did not fall, nor did the counts
/// of faults of its source and of its sink (`onward`). Its seat of words is the one that it began with, but for the
/// numbers that it drew and for what it saw of serial words, which did not fall (`words`). A serial number that an item
/// tells of as spent was seen by that seat (`spent`). Full windows that an item tells of were so where passes were
/// refused in the history of the windows: fewer were open then than a write needs, and these are all others (`full`).
/// The link has counted at least what the last item tells; or, where there is none, what it had when the call began
/// (`counted`).
pub fn served_connections_tell_how_they_ended<L: Link, C: Clock, R: Random>()
    ensures cut { (from to : L) (random random_after : R) (service : Service SiteMaker)
        (begun now : Stand) (told : ServedValue)
        → HasServedConnection L.makes from to R.gives random random_after service begun now told
        → told.ended ≡ ServedEnd.Cut
        → (fed : List ℕ) × (begun.left ≡ prepended fed now.left) × HasEnded now.left
        × (length told.items ≡ length (requests fed).heads) × ((requests fed).ending ≡ ending_of ends.Cut)
        × ((bytes : List ℕ) × (now.written ≡ appended begun.written bytes))
        × All (λ (i : Item). is_stopped (take i.holds.held now.container.seen) ≡ false) told.items }
    ensures closed { (from to : L) (random random_after : R) (service : Service SiteMaker)
        (begun now : Stand) (told : ServedValue)
        → HasServedConnection L.makes from to R.gives random random_after service begun now told
        → told.ended ≡ ServedEnd.Closed
        → (fed : List ℕ) × (begun.left ≡ prepended fed now.left)
        × (length told.items ≡ length (requests fed).heads) × ((requests fed).ending ≡ ending_of ends.Closed)
        × ((HasEnded now.left
        × All (λ (i : Item). is_stopped (take i.holds.held now.container.seen) ≡ false) told.items)
        ⊎ ((more : List ℕ) → requests (fed ++ more) ≡ requests fed)) }
    ensures refused { (from to : L) (random random_after : R) (service : Service SiteMaker)
        (begun now : Stand) (told : ServedValue)
        (why : Untaken) → HasServedConnection L.makes from to R.gives random random_after service begun now told
        → told.ended ≡ ServedEnd.Refused why
        → (fed : List ℕ) × (begun.left ≡ prepended fed now.left)
        × (length told.items ≡ length (requests fed).heads)
        × ((requests fed).ending ≡ ending_of (ends.Refused why))
        × All (λ (i : Item). is_stopped (take i.holds.held now.container.seen) ≡ false) told.items }
    ensures responses { (from to : L) (random random_after : R) (service : Service SiteMaker)
        (begun now : Stand) (told : ServedValue)
        → HasServedConnection L.makes from to R.gives random random_after service begun now told
        → (fed : List ℕ) × (lost : List ℕ) × (begun.left ≡ prepended (fed ++ lost) now.left)
        × ((told.ended ≡ ServedEnd.OutOfMemory → ⊥) → lost ≡ [])
        × ((parts : List (List ℕ)) × (last : List ℕ) × (length parts ≡ length told.items)
        × ((n : ℕ) (i : Item) (bytes : List ℕ) → slice_get told.items n ≡ Some i → slice_get parts n ≡ Some bytes
        → (head : Head) × (slice_get (requests fed).heads n ≡ Some head)
        × IsResponse service.key (entries_in (take i.holds.held now.container.seen)) i head bytes)
        × ((told.ended ≡ ServedEnd.WriteFault → ⊥)
        → now.written ≡ appended begun.written (flat_map (λ (bytes : List ℕ). bytes) parts ++ last))
        × (told.ended ≡ ServedEnd.WriteFault
        → AppendsPrefix begun.written now.written (flat_map (λ (bytes : List ℕ). bytes) parts ++ last))
        × ((why : Untaken) → told.ended ≡ ServedEnd.Refused why → last ≡ last_response why)
        × ((last ≡ []) ⊎ ((why : Untaken) × (last ≡ last_response why)
        × ((told.ended ≡ ServedEnd.Refused why) ⊎ (told.ended ≡ ServedEnd.WriteFault))))) }
    ensures heeded { (from to : L) (random random_after : R) (service : Service SiteMaker)
        (begun now : Stand) (told : ServedValue)
        → HasServedConnection L.makes from to R.gives random random_after service begun now told
        → (before : List Item) (last : Item) → told.items ≡ before ++ last ∷ []
        → All (λ (i : Item). is_stopped (take i.holds.held now.container.seen) ≡ false) before }
    ensures stopped { (from to : L) (random random_after : R) (service : Service SiteMaker)
        (begun now : Stand) (told : ServedValue)
        → HasServedConnection L.makes from to R.gives random random_after service begun now told
        → told.ended ≡ ServedEnd.Stopped
        → (before : List Item) × (last : Item) × (told.items ≡ before ++ last ∷ [])
        × (is_stopped (take last.holds.held now.container.seen) ≡ true)
        × All (λ (i : Item). is_stopped (take i.holds.held now.container.seen) ≡ false) before
        × ((fed : List ℕ) × (begun.left ≡ prepended fed now.left)
        × ((first : List Head) × (head : Head) × (behind : List Head)
        × ((requests fed).heads ≡ first ++ head ∷ behind) × (length told.items ≡ length first + 1)
        × (head.close ≡ false))) }
    ensures read_fault { (from to : L) (random random_after : R) (service : Service SiteMaker)
        (begun now : Stand) (told : ServedValue)
        → HasServedConnection L.makes from to R.gives random random_after service begun now told
        → told.ended ≡ ServedEnd.ReadFault
        → Rose begun.read_faults now.read_faults
        × All (λ (i : Item). is_stopped (take i.holds.held now.container.seen) ≡ false) told.items
        × ((fed : List ℕ) × (begun.left ≡ prepended fed now.left)
        × (length told.items ≡ length (requests fed).heads)) }
    ensures write_fault { (from to : L) (random random_after : R) (service : Service SiteMaker)
        (begun now : Stand) (told : ServedValue)
        → HasServedConnection L.makes from to R.gives random random_after service begun now told
        → told.ended ≡ ServedEnd.WriteFault
        → Rose begun.write_faults now.write_faults
        × ((bytes : List ℕ) × AppendsPrefix begun.written now.written bytes) }
    ensures front { (from to : L) (random random_after : R) (service : Service SiteMaker)
        (begun now : Stand) (told : ServedValue)
        → HasServedConnection L.makes from to R.gives random random_after service begun now told
        → (told.items ≡ [] → told.front.0 ≡ 0)
        × ((before : List Item) (last : Item) → told.items ≡ before ++ last ∷ [] → told.front ≡ last.holds.front) }
    ensures items { (from to : L) (random random_after : R) (service : Service SiteMaker)
        (begun now : Stand) (told : ServedValue)
        → HasServedConnection L.makes from to R.gives random random_after service begun now told
        → (start : Start) × (since : List Event) × (now.container.seen ≡ Started start ∷ since)
        × (start.deployment ≡ site_parts) × (start.boot ≡ service.home.boot)
        × ((fed : List ℕ) × (lost : List ℕ) × (begun.left ≡ prepended (fed ++ lost) now.left)
        × ((heard : List LinkEvent) × Made L.makes from heard to
        × ((given : List ℕ) × (state : ℕ → R) × (state 0 ≡ random)
        × ((n word : ℕ) → slice_get given n ≡ Some word → R.gives (state n) word (state (n + 1)))
        × ((taken : List TakenIn) × (opened : List TakenIn) × (length taken ≡ length told.items)
        × (length opened ≤ 1)
        × ((behind : List Head) × ((requests fed).heads ≡ taken_heads (taken ++ opened) ++ behind)
        × ((drawn : List Draw) × (drawn ≡ drawn_for_all (taken ++ opened))
        × (given ≡ begun.given ++ map (λ (d : Draw). d.number) (filter (λ (d : Draw). not (is_serial d.kind)) drawn))
        × ((more : List ℕ) × (now.words.drawn ≡ begun.words.drawn ++ (serials_in drawn ++ more))
        × ((told.ended ≡ ServedEnd.OutOfMemory → ⊥)
        → (opened ≡ []) × (lost ≡ []) × (more ≡ []) × (state (length given) ≡ random_after))
        × ((n : ℕ) (i : Item) (t : TakenIn) → slice_get told.items n ≡ Some i → slice_get taken n ≡ Some t
        → IsServedFor steps_of (λ (old : Unit {0}) (call : LinkEvent) (new : Unit {0}). (m : ℕ)
        × (slice_get heard m ≡ Some call)) (λ (maker : SiteMaker). IsMadeOf) R.gives SeatLooks service start
        now.container.seen t i)))))))) }
    ensures added { (from to : L) (random random_after : R) (service : Service SiteMaker)
        (begun now : Stand) (told : ServedValue)
        → HasServedConnection L.makes from to R.gives random random_after service begun now told
        → (now.container.lock ≡ begun.container.lock) × (now.container.parts ≡ begun.container.parts)
        × (now.container.holds ≡ false)
        × ((since : List Event) × (now.container.seen ≡ begun.container.seen ++ since))
        × ((places : List ℕ) × (now.container.own ≡ begun.container.own ++ places)
        × ((before behind : List ℕ) (place : ℕ) → places ≡ before ++ place ∷ behind
        → (length begun.container.seen ≤ place) × (place < length now.container.seen))
        × ((before behind : List ℕ) (place next : ℕ) → places ≡ before ++ place ∷ next ∷ behind → place < next)
        × ((more : List Event) × (length more ≤ 1) × ((told.ended ≡ ServedEnd.OutOfMemory → ⊥) → more ≡ [])
        × (map (λ (place : ℕ). slice_get now.container.seen place) places
        ≡ map (λ (event : Event). Some event) (traces_in now.container.seen told.items ++ more)))) }
    ensures marked { (from to : L) (random random_after : R) (service : Service SiteMaker)
        (begun now : Stand) (told : ServedValue)
        → HasServedConnection L.makes from to R.gives random random_after service begun now told
        → (now.windows.lock ≡ begun.windows.lock) × (now.windows.parts ≡ begun.windows.parts)
        × (now.windows.holds ≡ false)
        × ((since : List WindowMark) × (now.windows.seen ≡ begun.windows.seen ++ since))
        × ((places : List ℕ) × (now.windows.own ≡ begun.windows.own ++ places)
        × ((before behind : List ℕ) (place : ℕ) → places ≡ before ++ place ∷ behind
        → (length begun.windows.seen ≤ place) × (place < length now.windows.seen))
        × ((before behind : List ℕ) (place next : ℕ) → places ≡ before ++ place ∷ next ∷ behind → place < next)
        × ((marks : List WindowMark)
        × (map (λ (place : ℕ). slice_get now.windows.seen place) places ≡ map (λ (m : WindowMark). Some m) marks)
        × ((first behind : List WindowMark) (passes : ℕ) → marks ≡ first ++ mark.Taken passes ∷ behind
        → (rest : List WindowMark) × (behind ≡ mark.Spent ∷ rest))
        × ((more : List WindowMark) × ((told.ended ≡ ServedEnd.OutOfMemory → ⊥) → more ≡ [])
        × ((more ≡ []) ⊎ ((more ≡ mark.Refused ∷ []) ⊎ (more ≡ mark.Taken 0 ∷ mark.Spent ∷ [])))
        × (length marks ≡ length (window_traces told.items ++ more))
        × ((n : ℕ) (m t : WindowMark) → slice_get marks n ≡ Some m
        → slice_get (window_traces told.items ++ more) n ≡ Some t
        → (t ≡ m) ⊎ ((passes : ℕ) × (m ≡ mark.Taken passes) × (t ≡ mark.Taken 0)))))) }
    ensures onward { (from to : L) (random random_after : R) (service : Service SiteMaker)
        (begun now : Stand) (told : ServedValue)
        → HasServedConnection L.makes from to R.gives random random_after service begun now told
        → (begun.moment ≤ now.moment) × (begun.read_faults ≤ now.read_faults)
        × (begun.write_faults ≤ now.write_faults) }
    ensures words { (from to : L) (random random_after : R) (service : Service SiteMaker)
        (begun now : Stand) (told : ServedValue)
        → HasServedConnection L.makes from to R.gives random random_after service begun now told
        → (now.words.words ≡ begun.words.words) × (now.words.parts ≡ begun.words.parts)
        × (now.words.sights ≡ begun.words.sights) × (begun.words.seen ≤ now.words.seen) }
    ensures spent { (from to : L) (random random_after : R) (service : Service SiteMaker)
        (begun now : Stand) (told : ServedValue)
        → HasServedConnection L.makes from to R.gives random random_after service begun now told
        → All (λ (i : Item). (serial : ℕ) → i.outcome ≡ item.SerialsSpent serial → serial ≤ now.words.seen)
        told.items }
    ensures full { (from to : L) (random random_after : R) (service : Service SiteMaker)
        (begun now : Stand) (told : ServedValue)
        → HasServedConnection L.makes from to R.gives random random_after service begun now told
        → All (λ (i : Item). (place : Place) (again : Bool) (full : List WindowFact)
        → i.outcome ≡ item.Overload place again full
        → (before : List WindowMark) × (since : List WindowMark)
        × (now.windows.seen ≡ before ++ mark.Refused ∷ since)
        × ((facts : List WindowFact) × (w : ℕ) × (wq : ℕ) × (holds : Bool)
        × (slice_get before 0 ≡ Some (mark.Opened (length facts) w wq holds))
        × (1 ≤ wq) × (wq ≤ w) × (w ≤ length facts) × (length facts ≤ MAX_BRICKS)
        × (map (λ (fact : WindowFact). fact.brick.0) facts ≡ range_with_len 1 (length facts))
        × All (λ (fact : WindowFact). (LEAST_WINDOW ≤ fact.window) × (fact.window ≤ LARGEST_WINDOW)
        × (fact.in_flight ≤ LARGEST_WINDOW)) facts
        × (length (filter (λ (fact : WindowFact). nat_lt fact.in_flight fact.window) facts) < wq)
        × (full ≡ filter (λ (fact : WindowFact). not (nat_lt fact.in_flight fact.window)) facts))) told.items }
    ensures counted { (from to : L) (random random_after : R) (service : Service SiteMaker)
        (begun now : Stand) (told : ServedValue)
        → HasServedConnection L.makes from to R.gives random random_after service begun now told
        → (told.items ≡ [] → (begun.counts.hushed ≤ now.counts.hushed) × (begun.counts.got ≤ now.counts.got))
        × ((before : List Item) (last : Item) → told.items ≡ before ++ last ∷ []
        → (last.counts.hushed ≤ now.counts.hushed) × (last.counts.got ≤ now.counts.got)) }
{
    courses_show_what_was_served::<
        ActionProgram,
        L,
        SiteMaker,
        C,
        R,
        SeatSerials<'static, Brand>,
    >();
}
