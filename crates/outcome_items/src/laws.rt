//! Laws of items. Each is the contract of a function that does nothing: a caller that needs the law calls the function.

ghost use Rattle.std.specs.Prelude.{◌≡◌, ◌↔◌, ◌⊎◌, ◌≤◌, ℕ, Bool, true, false, List, [], ◌∷◌, ◌++◌, length, Option, Some, None, IfSome, count_by, Result, Ok};
ghost use Rattle.crash_base.specs.declared.numbers.ComponentNo.{ComponentNo};
ghost use Rattle.crash_base.specs.declared.numbers.Place.{Place};
ghost use Rattle.crash_base.specs.declared.numbers.RequestNo.{RequestNo};
ghost use Rattle.boot_core.specs.declared.refusals.Refused.{Refused};
ghost use Rattle.journal_model.specs.declared.entry.DoneText.{DoneText};
ghost use Rattle.journal_model.specs.declared.entry.Entry.{Entry};
ghost use Rattle.container_core.specs.declared.history.Event.TheVariants.{Added, KeeperFailed as FailedMark};
ghost use Rattle.http_wire.specs.declared.response.CookieField.TheVariants.{Set, Clear};
ghost use Rattle.http_wire.specs.declared.taken.Head.{Head};
ghost use Rattle.action_fields.specs.declared.form_field.FormField.{FormField};
ghost use Rattle.crash_base.specs.declared.numbers.Moment.{Moment};
ghost use Rattle.request_decisions.specs.declared.decision.Refusal.{Refusal};
ghost use Rattle.request_decisions.specs.declared.decision.Refusal.TheVariants as refusal;
ghost use Rattle.site_responses.specs.declared.answer.SiteAnswer.TheVariants as answer;
ghost use Rattle.ssm_stub.specs.declared.cause.BrickCause.{BrickCause};
ghost use Rattle.request_tries.specs.Serving.{TriesValue};
ghost use Rattle.request_tries.specs.Steps.{HearsCommit};
ghost use Rattle.request_tries.specs.declared.outcome.Ended.{Ended};
ghost use Rattle.request_tries.specs.declared.outcome.HistoryFront.{HistoryFront};
ghost use Rattle.request_tries.specs.declared.outcome.RequestOutcome.TheVariants.{Hung, KeeperFailed, Raised};
ghost use Rattle.site_responses.specs.Responses.{left_alone, response, said};
ghost use Rattle.outcome_items.specs.Answers.{HasNoSession, IsFault, IsPage, IsResponse, answer_of};
ghost use Rattle.outcome_items.specs.Traces.{IsAlready, again_in, again_in_end, event_trace, is_outside, is_spent, is_taken, window_trace, window_traces};
ghost use Rattle.outcome_items.specs.declared.item.Item.{Item};
ghost use Rattle.outcome_items.specs.declared.outcome.ItemOutcome.{ItemOutcome};
ghost use Rattle.outcome_items.specs.declared.outcome.ItemOutcome.TheVariants as item;

use site_responses::heads_are_answered_as_gets;

/// 500 is answered to no request but one that a component has failed, and one that is committed: by an entry without an
/// action, or by one whose action says 500 itself. It refuses that a client is told of a failure that a new try may
/// mend. Each request that a component has failed is answered so, whether the component failed or did not come back.
pub fn failures_are_of_faults_and_pages()
    ensures failed { (what : Option DoneText) (cookie : Option (List ℕ)) (outcome : ItemOutcome)
        → (said (answer_of what cookie outcome)).status ≡ 500
        → IsFault outcome ⊎ (IsPage outcome × IfSome what (λ d. d.status ≡ 500)) }
    ensures hung { (what : Option DoneText) (cookie : Option (List ℕ)) (component : ComponentNo) (fault : ℕ)
        (path : List ComponentNo) → answer_of what cookie (item.Ended (Hung component fault path)) ≡ answer.Failed }
    ensures raised { (what : Option DoneText) (cookie : Option (List ℕ)) (component : ComponentNo) (fault : ℕ)
        (path : List ComponentNo) → answer_of what cookie (item.Ended (Raised component fault path)) ≡ answer.Failed }
{}

/// Each refusal has its own status, and a session that is gone its own heading: 404 where nothing is at the path, 405
/// where something is there by another method, 415 for a form in parts, 400 for a bad field, 409 for an old form.
pub fn refusals_are_told_apart()
    ensures refused { (what : Option DoneText) (cookie : Option (List ℕ)) (allow : ℕ) (field : FormField)
        (token_boot boot : ℕ)
        → ((said (answer_of what cookie (item.Refused refusal.NotThere))).status ≡ 404)
        × ((said (answer_of what cookie (item.Refused (refusal.NotAllowed allow)))).status ≡ 405)
        × ((said (answer_of what cookie (item.Refused refusal.Multipart))).status ≡ 415)
        × ((said (answer_of what cookie (item.Refused (refusal.BadForm field)))).status ≡ 400)
        × ((said (answer_of what cookie (item.Refused (refusal.StaleForm token_boot boot)))).status ≡ 409) }
    ensures expired { (what : Option DoneText) (cookie : Option (List ℕ)) (now expiry : Moment)
        → answer_of what cookie (item.Expired now expiry) ≡ answer.Expired }
    ensures lost { (what : Option DoneText) (cookie : Option (List ℕ)) (causes : List BrickCause)
        → answer_of what cookie (item.Lost causes) ≡ answer.Lost }
{}

/// A response sets a cookie exactly where it is the page of a request whose session was written, and that one; and it
/// clears the client's exactly where the session is gone.
pub fn cookies_are_of_pages()
    ensures set { (what : Option DoneText) (cookie : Option (List ℕ)) (outcome : ItemOutcome) (text : List ℕ)
        → ((said (answer_of what cookie outcome)).cookie ≡ Set text) ↔ (IsPage outcome × (cookie ≡ Some text)) }
    ensures clear { (what : Option DoneText) (cookie : Option (List ℕ)) (outcome : ItemOutcome)
        → ((said (answer_of what cookie outcome)).cookie ≡ Clear) ↔ HasNoSession outcome }
{}

/// Whoever is told to try again keeps the cookie, and the status is 503. Everybody is told so but who is refused at
/// once, who has no session any more, whom a component has failed, and who is shown a page.
pub fn tries_again_keep_cookies()
    ensures kept { (what : Option DoneText) (cookie : Option (List ℕ)) (outcome : ItemOutcome)
        → (said (answer_of what cookie outcome)).retry ≡ true
        → ((said (answer_of what cookie outcome)).status ≡ 503)
        × ((said (answer_of what cookie outcome)).cookie ≡ left_alone) }
    ensures else_told { (what : Option DoneText) (cookie : Option (List ℕ)) (outcome : ItemOutcome)
        → (said (answer_of what cookie outcome)).retry ≡ false
        → ((why : Refusal) × (outcome ≡ item.Refused why))
        ⊎ (HasNoSession outcome ⊎ (IsFault outcome ⊎ IsPage outcome)) }
{}

/// The response to HEAD is that to GET up to its page, whatever became of the request.
pub fn heads_are_answered_as_gets_are()
    ensures { (what : Option DoneText) (cookie : Option (List ℕ)) (outcome : ItemOutcome) (close : Bool)
        → response (answer_of what cookie outcome) close false
        ≡ response (answer_of what cookie outcome) close true ++ (said (answer_of what cookie outcome)).page }
{
    heads_are_answered_as_gets();
}

/// An item has one response to a request: nothing else decides a byte of it.
pub fn responses_are_one()
    ensures { (key : List ℕ) (es : List Entry) (i : Item) (head : Head) (bytes other : List ℕ)
        → IsResponse key es i head bytes → IsResponse key es i head other → bytes ≡ other }
{}

/// A request adds one event to the history of the container at most. It is an entry only where no earlier call of it
/// had committed it; and the mark of a keeper that failed, with its own number, only where that is its end. One that
/// never came to the container adds none.
pub fn requests_add_one_event()
    ensures one { (es : List Entry) (i : Item) → length (event_trace es i) ≤ 1 }
    ensures again { (es : List Entry) (i : Item)
        → again_in i.outcome ≡ Some true → event_trace es i ≡ [] }
    ensures own { (es : List Entry) (i : Item) (e : Entry)
        → event_trace es i ≡ Added e ∷ [] → again_in i.outcome ≡ Some false }
    ensures mark { (es : List Entry) (i : Item) (request : RequestNo)
        → event_trace es i ≡ FailedMark request ∷ []
        → (i.outcome ≡ item.Ended KeeperFailed) × (i.request ≡ Some request) }
    ensures outside { (es : List Entry) (i : Item)
        → is_outside i.outcome ≡ true → event_trace es i ≡ [] }
{}

/// A page is told as one that was there already exactly where the commit answered so, and as a new one exactly where
/// the commit was answered with its place. It refuses that a form which is sent twice is told as two commits.
pub fn again_is_already()
    ensures again { (now : HistoryFront) (es : List Entry) (s after : TriesValue) (at : Place) (repeats : Bool)
        (told : Result Place Refused) (e : Ended) → HearsCommit now es s at repeats told (Some e) after
        → (again_in_end e.outcome ≡ Some true) ↔ IsAlready told }
    ensures own { (now : HistoryFront) (es : List Entry) (s after : TriesValue) (at : Place) (repeats : Bool)
        (told : Result Place Refused) (e : Ended) → HearsCommit now es s at repeats told (Some e) after
        → (again_in_end e.outcome ≡ Some false) ↔ ((place : Place) × (told ≡ Ok place)) }
{}

/// Passes are spent as often as they are taken. A request that is not committed, and that sets no cookie, left the
/// windows as they were.
pub fn no_pass_stays_out()
    ensures spent { (items : List Item)
        → count_by is_taken (window_traces items) ≡ count_by is_spent (window_traces items) }
    ensures nothing { (i : Item)
        → again_in i.outcome ≡ None → i.cookie ≡ None → window_trace i ≡ [] }
{}
