//! Laws of a request on its way. Each is the contract of a function that does nothing: a caller that needs the law
//! calls the function.

ghost use Rattle.send_windows.specs.Facts.{full_facts, open_count};
ghost use Rattle.send_windows.specs.declared.fact.WindowFact.{WindowFact};
ghost use Rattle.request_tries.specs.declared.outcome.RequestOutcome.TheVariants.{Page};
ghost use Rattle.ssm_stub.specs.Counted.{is_silent, is_strayed};
ghost use Rattle.std.specs.List.{count_by};
ghost use Rattle.std.specs.Prelude.{◌≡◌, ◌≢◌, ◌⊎◌, ◌≤◌, ◌<◌, ◌^◌, ◌+◌, ◌++◌, ℕ, Bool, List, [], Option, None, Some, Ok, Err, IfSome, length, map, min, option_map, take, ◌*◌, ◌-◌};
ghost use Rattle.boot_core.specs.Boot.{BootValue, HasGrown};
ghost use Rattle.boot_core.specs.declared.boot.Start.{Start};
ghost use Rattle.container_core.specs.Container.{ContainerValue, HasGrownBy, events_of};
ghost use Rattle.journal_model.specs.declared.entry.DoneText.{DoneText};
ghost use Rattle.journal_model.specs.declared.entry.SessionChange.TheVariants.{Keep, Set};
ghost use Rattle.outcome_items.specs.Answers.{IsResponse, answer_of_page, is_head_only};
ghost use Rattle.http_wire.specs.declared.taken.Head.{Head};
ghost use Rattle.session_way.specs.Lease.{value_to_write};
ghost use Rattle.session_way.specs.declared.lease.SessionLease.{SessionLease};
ghost use Rattle.session_way.specs.declared.session_write.WriteOrder.{WriteOrder};
ghost use Rattle.site_responses.specs.Responses.{response};
ghost use Rattle.request_visit.specs.Ready.{ready_of, set_in, shown_response};
ghost use Rattle.request_visit.specs.declared.ready.Ready.TheVariants.{Respond, Write};
ghost use Rattle.request_visit.specs.declared.ready.Shown.{Shown};
ghost use Rattle.container_core.specs.History.{entries_in};
ghost use Rattle.container_core.specs.declared.history.Event.{Event};
ghost use Rattle.outcome_items.specs.Traces.{event_trace, uncounted, window_trace};
ghost use Rattle.outside.specs.declared.link.LinkCounts.{LinkCounts};
ghost use Rattle.outcome_items.specs.declared.item.Item.{Item};
ghost use Rattle.outcome_items.specs.declared.outcome.ItemOutcome.TheVariants as item;
ghost use Rattle.request_decisions.specs.declared.decision.Refusal.{Refusal};
ghost use Rattle.request_tries.specs.Ends.{done_at, Errand};
ghost use Rattle.request_tries.specs.Serving.{IsServing, TriesValue, errand_of, unbegun};
ghost use Rattle.send_windows.specs.Windows.{WindowsValue};
ghost use Rattle.send_windows.specs.declared.history.WindowMark.{WindowMark};
ghost use Rattle.session_way.specs.Way.{StepsOutside, answer_held};
ghost use Rattle.session_way.specs.declared.way.SessionWay.{SessionWay};
ghost use Rattle.request_visit.specs.Accounts.{Accounts, AddsOwn, Became};
ghost use Rattle.request_visit.specs.Advancing.{Advances, IsItemOf, after_leaving, cookie_in, response_in};
ghost use Rattle.request_visit.specs.Says.{Says};
ghost use Rattle.request_visit.specs.Counts.{CountsStand, HasCounted, causes_of, noted_by};
ghost use Rattle.request_visit.specs.Going.{MayGoOn};
ghost use Rattle.request_visit.specs.Marks.{AddsMarks, Marks};
ghost use Rattle.request_visit.specs.Stepping.{IsGivenBack, OnServing, VisitsInside, VisitsWindows, counted, dropped};
ghost use Rattle.request_visit.specs.Visits.{begun, turn};
ghost use Rattle.request_visit.specs.declared.facts.VisitFacts.{VisitFacts};
ghost use Rattle.request_visit.specs.declared.visit.Fate.{Fate};
ghost use Rattle.request_visit.specs.declared.visit.Fate.TheVariants.{Writing};
ghost use Rattle.request_visit.specs.declared.visit.Work.TheVariants.{Reading, Opening, Serving, Committed, Decided, Left};
ghost use Rattle.request_visit.specs.declared.visit.Visit.{Visit};
ghost use Rattle.crash_base.specs.declared.numbers.Moment.{Moment};
ghost use Rattle.crash_base.specs.declared.numbers.Place.{Place};
ghost use Rattle.crash_base.specs.declared.numbers.RequestNo.{RequestNo};
ghost use Rattle.crash_base.specs.declared.numbers.Version.{Version};
ghost use Rattle.crash_base.specs.declared.numbers.WorkerNo.{WorkerNo};
ghost use Rattle.journal_model.specs.declared.entry.Entry.{Entry};
ghost use Rattle.session_cookie.specs.Cookie.{AreHolders};
ghost use Rattle.session_cookie.specs.declared.cookie.Cookie.{Cookie};
ghost use Rattle.session_cookie.specs.declared.cookie.TheConstants.{MAX_HOLDERS};
ghost use Rattle.ssm_stub.specs.Ends.{bricks_of};
ghost use Rattle.ssm_stub.specs.Outcomes.{IsLost, IsMissed, IsRead, IsWritten};
ghost use Rattle.ssm_stub.specs.Reads.{ReadState, read_start};
ghost use Rattle.ssm_stub.specs.declared.cause.BrickCause.{BrickCause};
ghost use Rattle.ssm_stub.specs.declared.read_call.ReadRefusal.TheVariants as read_refusal;
ghost use Rattle.ssm_stub.specs.declared.write_call.WriteRefusal.TheVariants as write_refusal;
ghost use Rattle.session_way.specs.Marks.{marks_by};
ghost use Rattle.session_way.specs.Way.{passes_for};
ghost use Rattle.session_way.specs.declared.way.SessionWay.TheVariants as way_is;
ghost use Rattle.request_visit.specs.Sessions.{MakesAmong, ReadsTo, SessionStands, TellsSession, WritesTo};

use crate::visit::Turn;
use call_ticket::Program;
use outside::Link;
use request_tries::{ends_begin_with_the_first_try, ends_stay_true};
use session_way::ways_have_answers;
use ssm_stub::answers_stay;

/// A request accounts for each event that it adds to the history of the container, at each step, whatever others add
/// meanwhile: it adds nothing before it has ended there, and then just what its end tells, which stands in the
/// history. So what its item tells is what it added.
pub fn requests_account_for_their_events<P: Program>()
    ensures meanwhile { (start : Start) (history more : List Event) (errand : Errand) (own : List Event) (v : Visit P)
        → Accounts P.asks start history errand own v → Accounts P.asks start (history ++ more) errand own v }
    ensures inside { (start : Start) (errand : Errand) (own : List Event) (old new : Visit P)
        (container after : ContainerValue) → VisitsInside P.asks old container new after
        → Accounts P.asks start (events_of container) errand own old
        → entries_in container.since ≡ container.boot.entries
        → AddsOwn P.asks errand own container after new }
    ensures windows { (start : Start) (history : List Event) (errand : Errand) (own : List Event) (old new : Visit P)
        (windows after : WindowsValue) → VisitsWindows old windows new after
        → Accounts P.asks start history errand own old → Accounts P.asks start history errand own new }
    ensures advance { (start : Start) (history : List Event) (errand : Errand) (own : List Event) (old new : Visit P)
        (key : List ℕ) → Advances key old old.work new
        → Accounts P.asks start history errand own old → Accounts P.asks start history errand own new }
    ensures leave { (start : Start) (history : List Event) (errand : Errand) (own : List Event) (v : Visit P)
        → Accounts P.asks start history errand own v → Accounts P.asks start history errand own (after_leaving v) }
    ensures begins { (start : Start) (history : List Event) (errand : Errand) (facts : VisitFacts) (counts : LinkCounts)
        (way : SessionWay) (why : Refusal) (seen : ℕ)
        → Accounts P.asks start history errand [] (begun facts counts way Reading)
        × Accounts P.asks start history errand [] (begun facts counts way Opening)
        × Accounts P.asks start history errand [] (begun facts counts way (Decided (item.Refused why)))
        × Accounts P.asks start history errand [] (begun facts counts way (Decided (item.SerialsSpent seen))) }
    ensures opens { (start : Start) (history : List Event) (errand : Errand) (own : List Event) (v : Visit P)
        (tries : TriesValue) (program : P) → v.work ≡ Opening → v.facts.request ≡ Some tries.request
        → Accounts P.asks start history errand own v
        → Accounts P.asks start history (errand_of tries (P.asks program)) own
        (record v { work = Serving tries program }) }
    ensures outside { (start : Start) (history : List Event) (errand : Errand) (own : List Event) (v : Visit P)
        (way : SessionWay) (counts : LinkCounts) → Accounts P.asks start history errand own v
        → Accounts P.asks start history errand own (record v { way = way; counts = counts }) }
    ensures back { (start : Start) (history : List Event) (errand : Errand) (own : List Event) (old new : Visit P)
        → IsGivenBack old new → Accounts P.asks start history errand own old
        → Accounts P.asks start history errand own new }
    ensures over { (old new : Visit P) (fate : Fate) → IsGivenBack old new → old.work ≡ Left fate
        → turn new ≡ Turn.Over }
    ensures dropped { (start : Start) (history : List Event) (errand : Errand) (own : List Event) (v : Visit P)
        → Accounts P.asks start history errand own v
        → Accounts P.asks start history errand own (record v { work = dropped v.work }) }
    ensures item { (start : Start) (history : List Event) (errand : Errand) (own : List Event) (v : Visit P) (i : Item)
        → IsItemOf v v.work i → Accounts P.asks start history errand own v
        → Became start history errand v.facts v.holds own i.outcome
        × (own ≡ event_trace (entries_in (take i.holds.held history)) i) }
{
    ends_stay_true();
}

/// A request tells each mark that it leaves in the history of the windows: no step of the link, of the container, or
/// by itself leaves one; and a step of the windows just those that are told: a take, a spend, or that passes were
/// refused; and where passes are given back behind its response, a spend. So what its item tells is what it left, and
/// each pass that was taken was spent.
pub fn requests_account_for_their_marks<P: Program, L: Link>()
    ensures windows { (marks : List WindowMark) (old new : Visit P) (windows after : WindowsValue)
        → turn old ≡ Turn.Windows → VisitsWindows old windows new after → Marks marks old
        → AddsMarks marks windows after new }
    ensures inside { (marks : List WindowMark) (old new : Visit P) (container after : ContainerValue)
        → VisitsInside P.asks old container new after → Marks marks old → Marks marks new }
    ensures outside { (marks : List WindowMark) (v : Visit P) (way : SessionWay) (counts : LinkCounts) (link after : L)
        → StepsOutside L.makes v.way link way after → Marks marks v
        → Marks marks (record v { way = way; counts = counts }) }
    ensures advance { (marks : List WindowMark) (key : List ℕ) (old new : Visit P)
        → turn old ≡ Turn.Own → Advances key old old.work new → Marks marks old → Marks marks new }
    ensures leave { (marks : List WindowMark) (v : Visit P)
        → turn v ≡ Turn.Output → Marks marks v → Marks marks (after_leaving v) }
    ensures begins { (facts : VisitFacts) (counts : LinkCounts) (read : ReadState) (v : Visit P)
        → (v ≡ begun facts counts (way_is.Reading read) Reading) ⊎ (v ≡ begun facts counts way_is.Resting Opening)
        → Marks [] v }
    ensures refused { (facts : VisitFacts) (counts : LinkCounts) (why : Refusal) (v : Visit P)
        → v ≡ begun facts counts way_is.Resting (Decided (item.Refused why)) → Marks [] v }
    ensures spent { (facts : VisitFacts) (counts : LinkCounts) (seen : ℕ) (v : Visit P)
        → v ≡ begun facts counts way_is.Resting (Decided (item.SerialsSpent seen)) → Marks [] v }
    ensures opens { (marks : List WindowMark) (v : Visit P) (tries : TriesValue) (program : P)
        → v.work ≡ Opening → Marks marks v → Marks marks (record v { work = Serving tries program }) }
    ensures dropped { (marks : List WindowMark) (v : Visit P)
        → Marks marks v → Marks marks (record v { work = dropped v.work }) }
    ensures back { (marks : List WindowMark) (old new : Visit P) (fate : Fate)
        → IsGivenBack old new → old.work ≡ Left fate
        → ((place : Place) (again : Bool) → fate ≡ Writing place again → answer_held old.way ≢ None)
        → Marks marks old → Marks (marks ++ map uncounted (marks_by old.way way_is.Resting)) new }
    ensures item { (marks : List WindowMark) (v : Visit P) (i : Item)
        → turn v ≡ Turn.Over → IsItemOf v v.work i → Marks marks v → marks ≡ window_trace i }
{
    ways_have_answers();
}

/// What follows a commit is what its entry says. The session is written exactly where the action sets it, or keeps it
/// and it was read and its lease is due; then the order of the write has that value, under the session's key, with
/// the request's nonce, for half an hour; and the page that waits for it is the entry's. Else the response is the
/// entry's page, without a cookie.
pub fn pages_follow_their_entries()
    ensures shown { (facts : VisitFacts) (lease : Option SessionLease) (what : Option DoneText) (bytes : List ℕ)
        → ready_of facts lease what ≡ Respond bytes
        → (value_to_write (set_in what) facts.now lease ≡ None)
        × (bytes ≡ response (answer_of_page what None) facts.close facts.head_only) }
    ensures written { (facts : VisitFacts) (lease : Option SessionLease) (what : Option DoneText) (order : WriteOrder)
        (shown : Shown) → ready_of facts lease what ≡ Write order shown
        → (value_to_write (set_in what) facts.now lease ≡ Some order.value) × (order.key ≡ facts.key)
        × (order.nonce ≡ facts.write) × (order.expiry.0 ≡ facts.now.0 + 1800000) }
    ensures page { (facts : VisitFacts) (lease : Option SessionLease) (what : Option DoneText) (order : WriteOrder)
        (shown : Shown) (text : List ℕ) → ready_of facts lease what ≡ Write order shown
        → shown_response facts shown text
        ≡ response (answer_of_page what (Some text)) facts.close facts.head_only }
    ensures sets { (d : DoneText) (value : List ℕ) → d.session ≡ Set value → set_in (Some d) ≡ Some value }
    ensures keeps { (d : DoneText) → d.session ≡ Keep → set_in (Some d) ≡ None }
    ensures nobody { set_in None ≡ None }
{}

/// The response of a request says what became of it, as the history shows, whatever others add meanwhile: what is
/// made at once, what is made before a commit, and what is made once its session is written. So the bytes that leave
/// are the response to its item. While its write is settled, the cookie of its answer has to stay, and there is one
/// answer where passes are given back: so `requests_account_for_their_sessions` says.
pub fn responses_are_of_their_items<P: Program>()
    ensures begins { (key : List ℕ) (history : List Event) (facts : VisitFacts) (counts : LinkCounts) (way : SessionWay)
        (v : Visit P) → (v ≡ begun facts counts way Reading) ⊎ (v ≡ begun facts counts way Opening)
        → Says key history [] v }
    ensures refused { (key : List ℕ) (history : List Event) (facts : VisitFacts) (counts : LinkCounts) (way : SessionWay)
        (why : Refusal) (v : Visit P) → v ≡ begun facts counts way (Decided (item.Refused why)) → Says key history [] v }
    ensures spent { (key : List ℕ) (history : List Event) (facts : VisitFacts) (counts : LinkCounts) (way : SessionWay)
        (seen : ℕ) (v : Visit P) → v ≡ begun facts counts way (Decided (item.SerialsSpent seen))
        → Says key history [] v }
    ensures opens { (key : List ℕ) (history : List Event) (out : List ℕ) (v : Visit P) (tries : TriesValue) (program : P)
        → v.work ≡ Opening → Says key history out v
        → Says key history out (record v { work = Serving tries program }) }
    ensures meanwhile { (key : List ℕ) (history more : List Event) (out : List ℕ) (v : Visit P)
        → Says key history out v → Says key (history ++ more) out v }
    ensures inside { (key : List ℕ) (out : List ℕ) (old new : Visit P) (container after : ContainerValue)
        → VisitsInside P.asks old container new after → length (events_of container) ≤ length (events_of after)
        → Says key (events_of container) out old → Says key (events_of after) out new }
    ensures windows { (key : List ℕ) (history : List Event) (out : List ℕ) (marks : List WindowMark) (old new : Visit P)
        (windows after : WindowsValue) → turn old ≡ Turn.Windows → VisitsWindows old windows new after
        → Marks marks old → Says key history out old → Says key history out new }
    ensures outside { (key : List ℕ) (history : List Event) (out : List ℕ) (v : Visit P) (way : SessionWay)
        (counts : LinkCounts) → turn v ≡ Turn.Outside
        → ((fate : Fate) → v.work ≡ Left fate → cookie_in (answer_held way) ≡ cookie_in (answer_held v.way))
        → Says key history out v → Says key history out (record v { way = way; counts = counts }) }
    ensures advance { (key : List ℕ) (history : List Event) (out : List ℕ) (old new : Visit P)
        → Advances key old old.work new → Says key history out old → Says key history out new }
    ensures leave { (key : List ℕ) (history : List Event) (out : List ℕ) (v : Visit P)
        → turn v ≡ Turn.Output → Says key history out v
        → Says key history (response_in v.work) (after_leaving v) }
    ensures dropped { (key : List ℕ) (history : List Event) (out : List ℕ) (v : Visit P)
        → Says key history out v → Says key history out (record v { work = dropped v.work }) }
    ensures back { (key : List ℕ) (history : List Event) (out : List ℕ) (marks : List WindowMark) (old new : Visit P)
        (fate : Fate) → IsGivenBack old new → old.work ≡ Left fate
        → ((place : Place) (again : Bool) → fate ≡ Writing place again → answer_held old.way ≢ None)
        → Marks marks old → Says key history out old → Says key history out new }
    ensures item { (key : List ℕ) (history : List Event) (out : List ℕ) (marks : List WindowMark) (v : Visit P) (i : Item)
        (head : Head) → turn v ≡ Turn.Over → IsItemOf v v.work i → Marks marks v
        → v.facts.close ≡ head.close → v.facts.head_only ≡ is_head_only head.method → Says key history out v
        → IsResponse key (entries_in (take i.holds.held history)) i head out }
{
    ways_have_answers();
}

/// A request accounts for its session at each step, whatever others do between two of them, with the link too: what it
/// knows of it is what the read of its cookie answered; it is written exactly where the entry of its page sets it, or
/// keeps it and it was read and its lease is due; by an order of the request's own key and nonce, with passes that
/// were taken for that; and its cookie, or the causes for which there is none, are what that write came to. A cookie
/// that is held while a response is made may be read, and stays until the passes are spent. So what its item says of
/// its session is what came of it. That passes were refused is told only where fewer windows are open than are to store
/// the value, with all that are full; and that a session has expired only past the expiry of its cookie.
pub fn requests_account_for_their_sessions<P: Program, L: Link>()
    ensures begins { (history : List Event) (facts : VisitFacts) (counts : LinkCounts) (nonce : Version)
        (cookie : Cookie) (v : Visit P)
        → v ≡ begun facts counts (way_is.Reading (read_start facts.now nonce cookie)) Reading
        → SessionStands L.makes (Some (read_start facts.now nonce cookie)) history v }
    ensures unread { (history : List Event) (facts : VisitFacts) (counts : LinkCounts) (v : Visit P)
        → v ≡ begun facts counts way_is.Resting Opening → SessionStands L.makes None history v }
    ensures refused { (history : List Event) (facts : VisitFacts) (counts : LinkCounts) (why : Refusal) (v : Visit P)
        → v ≡ begun facts counts way_is.Resting (Decided (item.Refused why)) → SessionStands L.makes None history v }
    ensures spent { (history : List Event) (facts : VisitFacts) (counts : LinkCounts) (seen : ℕ) (v : Visit P)
        → v ≡ begun facts counts way_is.Resting (Decided (item.SerialsSpent seen))
        → SessionStands L.makes None history v }
    ensures opens { (begin : Option ReadState) (history : List Event) (v : Visit P) (tries : TriesValue) (program : P)
        → v.work ≡ Opening → SessionStands L.makes begin history v
        → SessionStands L.makes begin history (record v { work = Serving tries program }) }
    ensures dropped { (begin : Option ReadState) (history : List Event) (v : Visit P)
        → SessionStands L.makes begin history v
        → SessionStands L.makes begin history (record v { work = dropped v.work }) }
    ensures meanwhile { (begin : Option ReadState) (history more : List Event) (v : Visit P)
        → SessionStands L.makes begin history v → SessionStands L.makes begin (history ++ more) v }
    ensures inside { (begin : Option ReadState) (old new : Visit P) (container after : ContainerValue)
        → VisitsInside P.asks old container new after → length (events_of container) ≤ length (events_of after)
        → SessionStands L.makes begin (events_of container) old
        → SessionStands L.makes begin (events_of after) new }
    ensures outside { (begin : Option ReadState) (history : List Event) (v : Visit P) (way : SessionWay)
        (counts : LinkCounts) (link after : L)
        → turn v ≡ Turn.Outside → StepsOutside L.makes v.way link way after → SessionStands L.makes begin history v
        → SessionStands L.makes begin history (record v { way = way; counts = counts }) }
    ensures stays { (begin : Option ReadState) (history : List Event) (v : Visit P) (way : SessionWay) (link after : L)
        → StepsOutside L.makes v.way link way after → SessionStands L.makes begin history v
        → (fate : Fate) → v.work ≡ Left fate → cookie_in (answer_held way) ≡ cookie_in (answer_held v.way) }
    ensures answered { (begin : Option ReadState) (history : List Event) (v : Visit P) (place : Place) (again : Bool)
        → SessionStands L.makes begin history v → v.work ≡ Left (Writing place again) → answer_held v.way ≢ None }
    ensures windows { (begin : Option ReadState) (history : List Event) (old new : Visit P)
        (windows after : WindowsValue) → 1 ≤ windows.wq → windows.wq ≤ MAX_HOLDERS
        → VisitsWindows old windows new after → SessionStands L.makes begin history old
        → SessionStands L.makes begin history new }
    ensures holders { (begin : Option ReadState) (history : List Event) (v : Visit P)
        → turn v ≡ Turn.Own → SessionStands L.makes begin history v
        → IfSome (cookie_in (answer_held v.way)) (λ c. AreHolders c.bricks) }
    ensures advance { (begin : Option ReadState) (key : List ℕ) (history : List Event) (old new : Visit P)
        → turn old ≡ Turn.Own → Advances key old old.work new → SessionStands L.makes begin history old
        → SessionStands L.makes begin history new }
    ensures leave { (begin : Option ReadState) (history : List Event) (v : Visit P)
        → turn v ≡ Turn.Output → SessionStands L.makes begin history v
        → SessionStands L.makes begin history (after_leaving v) }
    ensures back { (begin : Option ReadState) (history : List Event) (old new : Visit P) (fate : Fate)
        → IsGivenBack old new → old.work ≡ Left fate → SessionStands L.makes begin history old
        → SessionStands L.makes begin history new }
    ensures item { (begin : Option ReadState) (history : List Event) (v : Visit P) (i : Item)
        → turn v ≡ Turn.Over → IsItemOf v v.work i → SessionStands L.makes begin history v
        → TellsSession L.makes begin v.facts (entries_in (take i.holds.held history)) i }
    ensures cookie { (begin : Option ReadState) (facts : VisitFacts) (es : List Entry) (i : Item) (c : Cookie)
        → TellsSession L.makes begin facts es i → i.cookie ≡ Some c
        → (c.key ≡ facts.key) × (c.version ≡ facts.write) × (c.expiry.0 ≡ facts.now.0 + 1800000)
        × AreHolders c.bricks }
    ensures unset { (begin : Option ReadState) (facts : VisitFacts) (es : List Entry) (i : Item) (place : Place)
        (again : Bool) → TellsSession L.makes begin facts es i → i.outcome ≡ item.Ended (Page place again)
        → i.cookie ≡ None → (set_in (done_at es place) ≡ None)
        × ((start : ReadState) → begin ≡ Some start → facts.now.0 + 900000 ≤ start.expiry.0) }
    ensures set { (begin : Option ReadState) (facts : VisitFacts) (es : List Entry) (i : Item) (place : Place)
        (again : Bool) (c : Cookie) → TellsSession L.makes begin facts es i → i.outcome ≡ item.Ended (Page place again)
        → i.cookie ≡ Some c → (order : WriteOrder) × WritesTo L.makes order (Ok c)
        × ((value : List ℕ) → set_in (done_at es place) ≡ Some value → order.value ≡ value)
        × (set_in (done_at es place) ≡ None → (start : ReadState) × (begin ≡ Some start)
        × (start.expiry.0 ≤ facts.now.0 + 899999) × (i.value ≡ Some order.value)) }
    ensures full { (begin : Option ReadState) (facts : VisitFacts) (es : List Entry) (i : Item) (place : Place)
        (again : Bool) (full : List WindowFact) → TellsSession L.makes begin facts es i
        → i.outcome ≡ item.Overload place again full → (windows : WindowsValue)
        × (open_count windows.facts < windows.wq) × (full ≡ full_facts windows.facts) }
    ensures overload { (old new : Visit P) (windows after : WindowsValue) (place told : Place) (again once : Bool)
        (shown : Shown) (full : List WindowFact) → VisitsWindows old windows new after
        → old.work ≡ Committed place again shown → new.work ≡ Decided (item.Overload told once full)
        → (told ≡ place) × (once ≡ again) × (open_count windows.facts < windows.wq)
        × (full ≡ full_facts windows.facts) }
    ensures expired { (now at expiry : Moment) (nonce : Version) (cookie : Cookie)
        → ReadsTo L.makes (read_start now nonce cookie) (Err (read_refusal.Expired at expiry))
        → (at ≡ now) × (expiry ≡ cookie.expiry) × (cookie.expiry.0 < now.0) }
    ensures found { (now : Moment) (nonce : Version) (cookie : Cookie) (value : List ℕ) → AreHolders cookie.bricks
        → ReadsTo L.makes (read_start now nonce cookie) (Ok value)
        → IsRead (MakesAmong L.makes) nonce cookie tt tt value }
    ensures lost { (now : Moment) (nonce : Version) (cookie : Cookie) (causes : List BrickCause)
        → AreHolders cookie.bricks → ReadsTo L.makes (read_start now nonce cookie) (Err (read_refusal.Lost causes))
        → IsLost (MakesAmong L.makes) nonce cookie tt tt causes }
    ensures written { (order : WriteOrder) (cookie : Cookie) → WritesTo L.makes order (Ok cookie)
        → (windows : WindowsValue) × IsWritten (MakesAmong L.makes) (bricks_of (passes_for order windows)) windows.wq
        order.nonce order.key order.expiry tt tt cookie }
    ensures missed { (order : WriteOrder) (causes : List BrickCause)
        → WritesTo L.makes order (Err (write_refusal.Missed causes))
        → (windows : WindowsValue) × IsMissed (MakesAmong L.makes) (bricks_of (passes_for order windows)) windows.wq
        order.nonce order.key tt tt causes }
{
    ways_have_answers();
    answers_stay();
}

/// The causes that a request is told came with what the link counted while the request was on its way, whatever others
/// do between two of its steps, with the link too: a silence for each brick that was silent, and 64 frames for each
/// that strayed, up to the last value of a count. Others may only raise what the link counted: before a call it is at
/// least what the request saw last (`outside`).
pub fn requests_account_for_their_causes<P: Program, L: Link>()
    ensures begins { (facts : VisitFacts) (counts : LinkCounts) (nonce : Version) (cookie : Cookie) (v : Visit P)
        → (v ≡ begun facts counts (way_is.Reading (read_start facts.now nonce cookie)) Reading)
        ⊎ (v ≡ begun facts counts way_is.Resting Opening) → CountsStand counts v }
    ensures refused { (facts : VisitFacts) (counts : LinkCounts) (why : Refusal) (v : Visit P)
        → v ≡ begun facts counts way_is.Resting (Decided (item.Refused why)) → CountsStand counts v }
    ensures spent { (facts : VisitFacts) (counts : LinkCounts) (seen : ℕ) (v : Visit P)
        → v ≡ begun facts counts way_is.Resting (Decided (item.SerialsSpent seen)) → CountsStand counts v }
    ensures opens { (begin : LinkCounts) (v : Visit P) (tries : TriesValue) (program : P)
        → CountsStand begin v → CountsStand begin (record v { work = Serving tries program }) }
    ensures outside { (begin : LinkCounts) (v : Visit P) (way : SessionWay) (link after : L)
        → StepsOutside L.makes v.way link way after
        → v.counts.hushed ≤ (L.tally link).hushed → v.counts.got ≤ (L.tally link).got
        → CountsStand begin v → CountsStand begin (record v { way = way; counts = counted (L.tally after) }) }
    ensures windows { (begin : LinkCounts) (old new : Visit P) (windows after : WindowsValue)
        → VisitsWindows old windows new after → CountsStand begin old → CountsStand begin new }
    ensures inside { (begin : LinkCounts) (old new : Visit P) (container after : ContainerValue)
        → VisitsInside P.asks old container new after → CountsStand begin old → CountsStand begin new }
    ensures advance { (begin : LinkCounts) (key : List ℕ) (old new : Visit P)
        → Advances key old old.work new → CountsStand begin old → CountsStand begin new }
    ensures leave { (begin : LinkCounts) (v : Visit P) → CountsStand begin v → CountsStand begin (after_leaving v) }
    ensures dropped { (begin : LinkCounts) (v : Visit P)
        → CountsStand begin v → CountsStand begin (record v { work = dropped v.work }) }
    ensures back { (begin : LinkCounts) (old new : Visit P)
        → IsGivenBack old new → CountsStand begin old → CountsStand begin new }
    ensures item { (begin : LinkCounts) (v : Visit P) (i : Item) → IsItemOf v v.work i → CountsStand begin v
        → HasCounted (noted_by (causes_of i.outcome)) begin i.counts }
    ensures lost { (begin : LinkCounts) (v : Visit P) (i : Item) (causes : List BrickCause) → IsItemOf v v.work i
        → CountsStand begin v → i.outcome ≡ item.Lost causes
        → (min (begin.hushed + count_by is_silent causes) (2 ^ 64 - 1) ≤ i.counts.hushed)
        × (min (begin.got + 64 * count_by is_strayed causes) (2 ^ 64 - 1) ≤ i.counts.got) }
    ensures missed { (begin : LinkCounts) (v : Visit P) (i : Item) (place : Place) (again : Bool)
        (causes : List BrickCause) → IsItemOf v v.work i → CountsStand begin v
        → i.outcome ≡ item.Missed place again causes
        → (min (begin.hushed + count_by is_silent causes) (2 ^ 64 - 1) ≤ i.counts.hushed)
        × (min (begin.got + 64 * count_by is_strayed causes) (2 ^ 64 - 1) ≤ i.counts.got) }
{}

/// A request that may go on in a boot may go on after each of its steps, whatever others do between two of them: in
/// the boot as it has grown meanwhile. It may begin where the journal is no shorter than its front, and come to the
/// container with a program that the deployment accepts, and with tries that have not begun.
/// So its caller may let it step in the container, at each turn of the container's; and the places of its item are in
/// order, from that length on.
pub fn requests_go_on<P: Program>()
    ensures begins { (boot : BootValue) (facts : VisitFacts) (counts : LinkCounts) (way : SessionWay) (why : Refusal)
        (seen : ℕ) → facts.front.0 ≤ length boot.entries → facts.now.0 < 2 ^ 62
        → MayGoOn P.accepts P.asks boot (begun facts counts way Reading)
        × MayGoOn P.accepts P.asks boot (begun facts counts way Opening)
        × MayGoOn P.accepts P.asks boot (begun facts counts way (Decided (item.Refused why)))
        × MayGoOn P.accepts P.asks boot (begun facts counts way (Decided (item.SerialsSpent seen))) }
    ensures opens { (boot : BootValue) (v : Visit P) (request : RequestNo) (worker : WorkerNo) (text : List ℕ)
        (program : P) → v.work ≡ Opening → P.accepts program boot.start.deployment
        → MayGoOn P.accepts P.asks boot v
        → MayGoOn P.accepts P.asks boot (record v { work = Serving (unbegun request worker text) program }) }
    ensures grows { (old new : BootValue) (v : Visit P) → HasGrown old new
        → MayGoOn P.accepts P.asks old v → MayGoOn P.accepts P.asks new v }
    ensures inside { (old new : Visit P) (container after : ContainerValue) → VisitsInside P.asks old container new after
        → HasGrownBy container after → MayGoOn P.accepts P.asks container.boot old
        → MayGoOn P.accepts P.asks after.boot new }
    ensures windows { (boot : BootValue) (old new : Visit P) (windows after : WindowsValue)
        → VisitsWindows old windows new after → MayGoOn P.accepts P.asks boot old → MayGoOn P.accepts P.asks boot new }
    ensures outside { (boot : BootValue) (v : Visit P) (way : SessionWay) (counts : LinkCounts)
        → MayGoOn P.accepts P.asks boot v → MayGoOn P.accepts P.asks boot (record v { way = way; counts = counts }) }
    ensures advance { (boot : BootValue) (key : List ℕ) (old new : Visit P) → Advances key old old.work new
        → MayGoOn P.accepts P.asks boot old → MayGoOn P.accepts P.asks boot new }
    ensures leave { (boot : BootValue) (v : Visit P)
        → MayGoOn P.accepts P.asks boot v → MayGoOn P.accepts P.asks boot (after_leaving v) }
    ensures dropped { (boot : BootValue) (v : Visit P)
        → MayGoOn P.accepts P.asks boot v → MayGoOn P.accepts P.asks boot (record v { work = dropped v.work }) }
    ensures back { (boot : BootValue) (old new : Visit P) → IsGivenBack old new
        → MayGoOn P.accepts P.asks boot old → MayGoOn P.accepts P.asks boot new }
    ensures inside_turn { (boot : BootValue) (v : Visit P) → turn v ≡ Turn.Inside → MayGoOn P.accepts P.asks boot v
        → OnServing v.work (λ tries program. P.accepts program boot.start.deployment
        × IsServing boot (P.asks program) tries) }
    ensures item { (boot : BootValue) (v : Visit P) (i : Item) → IsItemOf v v.work i
        → MayGoOn P.accepts P.asks boot v → (v.facts.front.0 ≤ i.holds.from.0)
        × (i.holds.from.0 ≤ i.holds.front.0) × (i.holds.front.0 ≤ length boot.entries) }
{
    ends_stay_true();
    ends_begin_with_the_first_try();
}
