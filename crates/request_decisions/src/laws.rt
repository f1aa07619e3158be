//! Laws of what is decided of a request and drawn for it. Each is the contract of a function that does nothing: a
//! caller that needs the law calls the function.

ghost use Rattle.std.specs.Prelude.{◌≡◌, ◌≢◌, ◌↔◌, ◌&&◌, ℕ, ◌<◌, ◌^◌, List, [], ◌∷◌, ◌++◌, is_none, is_some, if◌then◌else◌, length, map, replicate, true, false, Option, Some, None, Err};
ghost use Rattle.std.specs.Int.{to_be_bytes, w64};
ghost use Rattle.crash_base.specs.declared.numbers.Moment.{Moment};
ghost use Rattle.crash_base.specs.declared.numbers.RequestNo.{RequestNo};
ghost use Rattle.crash_base.specs.declared.numbers.SessionKey.{SessionKey};
ghost use Rattle.auction_calls.specs.Calls.{is_action};
ghost use Rattle.auction_calls.specs.declared.action.Action.{Action};
ghost use Rattle.auction_calls.specs.declared.action.Action.TheVariants.{Form};
ghost use Rattle.auction_calls.specs.declared.action.FormKind.{FormKind};
ghost use Rattle.auction_rows.specs.Session.{session_bytes};
ghost use Rattle.http_wire.specs.declared.taken.Head.{Head};
ghost use Rattle.http_wire.specs.declared.taken.MethodKind.TheVariants.{Post};
ghost use Rattle.session_cookie.specs.Text.{IsTextOf};
ghost use Rattle.session_cookie.specs.Token.{IsReadAs};
ghost use Rattle.session_cookie.specs.declared.cookie.Cookie.{Cookie};
ghost use Rattle.site_routes.specs.PathActions.{routed};
ghost use Rattle.site_routes.specs.declared.path_actions.SiteAction.{SiteAction};
ghost use Rattle.site_routes.specs.declared.routed.Routed.TheVariants as lead;
ghost use Rattle.action_fields.specs.Asked.{asked_action};
ghost use Rattle.action_fields.specs.declared.form_field.FormField.{FormField};
ghost use Rattle.action_fields.specs.declared.form_field.FormField.TheVariants as form_field;
ghost use Rattle.request_decisions.specs.Calls.{call_of, number_for, numbers_for};
ghost use Rattle.request_decisions.specs.Counts.{ascends, count_of, kind_number};
ghost use Rattle.request_decisions.specs.Decisions.{AsksFor, HasTokenOfSession, IsDecided, IsOrdered, IsTokenOf, target_path, target_query};
ghost use Rattle.request_decisions.specs.Draws.{AreDrawn, drawn_for, is_serial, shows_form};
ghost use Rattle.request_decisions.specs.declared.decision.Decision.{Decision};
ghost use Rattle.request_decisions.specs.declared.decision.Decision.TheVariants.{Refused, Ordered};
ghost use Rattle.request_decisions.specs.declared.decision.Order.{Order};
ghost use Rattle.request_decisions.specs.declared.decision.Refusal.TheVariants as refusal;
ghost use Rattle.request_decisions.specs.declared.draws.Draw.{Draw};
ghost use Rattle.request_decisions.specs.declared.draws.DrawKind.{DrawKind};
ghost use Rattle.request_decisions.specs.declared.draws.DrawKind.TheVariants.{Request, Token, KeyWord, Fresh, Read, Write};

use action_fields::actions_are_read_exactly;
use auction_rows::sessions_read_back;
use session_cookie::{cookies_decode_back, tokens_are_of_one_request};
use site_routes::actions_are_at_their_paths;

/// A request has one decision under a key and in a boot. So a refusal and an order come exactly where the request calls
/// for them.
pub fn decisions_are_one()
    ensures { (key : List ℕ) (boot : ℕ) (head : Head) (decision other : Decision)
        → IsDecided key boot head decision → IsDecided key boot head other → decision ≡ other }
{
    cookies_decode_back();
    tokens_are_of_one_request();
}

/// Each refusal is told where it is so and nothing before it is: nothing is at the path; something is, and not by this
/// method; the form is in parts, whatever the method; then the first field that is bad; and of a POST the token, where
/// it is none of the session of its cookie, or was written in another boot.
pub fn refusals_come_in_order()
    ensures path { (key : List ℕ) (boot : ℕ) (head : Head) → IsDecided key boot head (Refused refusal.NotThere)
        ↔ (routed (target_path head.target) head.method ≡ lead.NotThere) }
    ensures method { (key : List ℕ) (boot : ℕ) (head : Head) (allow : ℕ)
        → IsDecided key boot head (Refused (refusal.NotAllowed allow))
        ↔ (routed (target_path head.target) head.method ≡ lead.NotAllowed allow) }
    ensures parts { (key : List ℕ) (boot : ℕ) (head : Head) → IsDecided key boot head (Refused refusal.Multipart)
        ↔ ((asked : SiteAction) × (routed (target_path head.target) head.method ≡ lead.Action asked)
        × (head.multipart ≡ true)) }
    ensures fields { (key : List ℕ) (boot : ℕ) (head : Head) (asked : SiteAction) (field : FormField)
        → routed (target_path head.target) head.method ≡ lead.Action asked → head.multipart ≡ false
        → asked_action asked (target_query head.target) head.body ≡ Err field
        → IsDecided key boot head (Refused (refusal.BadForm field)) }
    ensures token { (key : List ℕ) (boot : ℕ) (head : Head) (action : Action) (cookie : Option Cookie)
        → AsksFor key head action cookie → head.method ≡ Post → IsTokenOf key cookie head.body None
        → IsDecided key boot head (Refused (refusal.BadForm form_field.Token)) }
    ensures old { (key : List ℕ) (boot : ℕ) (head : Head) (action : Action) (cookie : Option Cookie)
        (request : RequestNo) → AsksFor key head action cookie → head.method ≡ Post
        → IsTokenOf key cookie head.body (Some request) → request.boot ≢ boot
        → IsDecided key boot head (Refused (refusal.StaleForm request.boot boot)) }
{}

/// A request is ordered exactly where it leads to an action whose fields are good, in a form that is understood; with
/// the cookie that its own cookie text is under the service's key, and none where it is none's; and a POST with the
/// number of its token, which was written for this session in this boot, while each other has no number.
pub fn orders_are_exact()
    ensures { (key : List ℕ) (boot : ℕ) (head : Head) (o : Order)
        → IsDecided key boot head (Ordered o) ↔ IsOrdered key boot head o }
{}

/// The cookie of an order is the one whose text under the service's key the request bears: none is accepted that
/// another key has tagged, and none that the service has tagged is passed over.
pub fn cookies_are_of_the_key()
    ensures accepted { (key : List ℕ) (boot : ℕ) (head : Head) (o : Order) (cookie : Cookie)
        → IsDecided key boot head (Ordered o) → o.cookie ≡ Some cookie
        → (text : List ℕ) × (head.cookie ≡ Some text) × IsTextOf key cookie text }
    ensures taken { (key : List ℕ) (boot : ℕ) (head : Head) (o : Order) (cookie : Cookie) (text : List ℕ)
        → IsDecided key boot head (Ordered o) → head.cookie ≡ Some text → IsTextOf key cookie text
        → o.cookie ≡ Some cookie }
{
    cookies_decode_back();
}

/// The action of an order is in its ranges. So its call is one that the auction takes, where its moment is.
pub fn orders_are_in_range()
    ensures { (key : List ℕ) (boot : ℕ) (head : Head) (o : Order)
        → IsDecided key boot head (Ordered o) → is_action o.action ≡ true }
{
    actions_are_at_their_paths();
    actions_are_read_exactly();
}

/// A POST that is ordered bears the cookie of a session, and its form the token that was written for a request of this
/// session and of this boot, whose number is that of the order. So the token of no other session is taken.
pub fn posts_have_tokens_of_their_session()
    ensures { (key : List ℕ) (boot : ℕ) (head : Head) (o : Order)
        → IsDecided key boot head (Ordered o) → head.method ≡ Post → HasTokenOfSession key boot head.body o }
{}

/// Each draw comes as often as there is cause for it: the number of a request where its token has none, that of a token
/// where a form is shown, two words of a key where a form is shown and there is no cookie, and the nonce of a read
/// where there is one. The action `Form` alone shows a form. The draws come in this order: request, token, key, fresh
/// word, read, write. Those of a key and the fresh one are random words, and each other one is a serial number. Where
/// all are drawn, there are as many numbers of each kind.
pub fn each_draw_has_its_cause()
    ensures request { (o : Order) → count_of Request (drawn_for o) ≡ (if is_none o.number then 1 else 0) }
    ensures token { (o : Order) → count_of Token (drawn_for o) ≡ (if shows_form o.action then 1 else 0) }
    ensures key { (o : Order) → count_of KeyWord (drawn_for o)
        ≡ (if shows_form o.action && is_none o.cookie then 2 else 0) }
    ensures forms { (action : Action) → (shows_form action ≡ true) ↔ ((kind : FormKind) × (action ≡ Form kind)) }
    ensures read { (o : Order) → count_of Read (drawn_for o) ≡ (if is_some o.cookie then 1 else 0) }
    ensures others { (o : Order) → (count_of Fresh (drawn_for o) ≡ 1) × (count_of Write (drawn_for o) ≡ 1) }
    ensures order { (o : Order) → ascends (map kind_number (drawn_for o)) ≡ true }
    ensures serials { (is_serial Request ≡ true) × (is_serial Token ≡ true) × (is_serial Read ≡ true)
        × (is_serial Write ≡ true) }
    ensures words { (is_serial KeyWord ≡ false) × (is_serial Fresh ≡ false) }
    ensures drawn { (o : Order) (drawn : List Draw) (kind : DrawKind) → AreDrawn o drawn
        → length (numbers_for kind drawn) ≡ count_of kind (drawn_for o) }
{}

/// The token that a form shows is read, in the session of its call, as the number that was drawn for it in this boot.
/// What stands in its place where no form is shown is the token of no session.
pub fn forms_have_tokens_of_their_session()
    ensures shown { (key : List ℕ) (boot : ℕ) (o : Order) (moment : Moment) (drawn : List Draw)
        (value : Option (List ℕ)) → shows_form o.action ≡ true → boot < 2 ^ 32 → number_for Token drawn < 2 ^ 64
        → IsReadAs key (call_of key boot o moment drawn value).key (call_of key boot o moment drawn value).form
        (Some (record { boot = boot; serial = number_for Token drawn })) }
    ensures none { (key : List ℕ) (boot : ℕ) (o : Order) (moment : Moment) (drawn : List Draw)
        (value : Option (List ℕ)) (session : SessionKey) → shows_form o.action ≡ false
        → IsReadAs key session (call_of key boot o moment drawn value).form None }
{}

/// The call of an order is of the user whose session was read, and of nobody without one. Its key is that of the cookie
/// that names the session; the two words that were drawn, where a form begins one; and else 16 zero bytes. Its action
/// is that of the order, its moment that of the request, and its fresh word the one that was drawn.
pub fn calls_are_of_their_session()
    ensures user { (key : List ℕ) (boot : ℕ) (o : Order) (moment : Moment) (drawn : List Draw) (user began : ℕ)
        → user < 2 ^ 32 → (call_of key boot o moment drawn (Some (session_bytes user began))).user ≡ user }
    ensures nobody { (key : List ℕ) (boot : ℕ) (o : Order) (moment : Moment) (drawn : List Draw)
        → (call_of key boot o moment drawn None).user ≡ 0 }
    ensures key { (key : List ℕ) (boot : ℕ) (o : Order) (moment : Moment) (drawn : List Draw)
        (value : Option (List ℕ)) (cookie : Cookie) → o.cookie ≡ Some cookie
        → (call_of key boot o moment drawn value).key ≡ cookie.key }
    ensures none { (key : List ℕ) (boot : ℕ) (o : Order) (moment : Moment) (drawn : List Draw)
        (value : Option (List ℕ)) → AreDrawn o drawn → o.cookie ≡ None → shows_form o.action ≡ false
        → (call_of key boot o moment drawn value).key ≡ record { 0 = replicate 16 0 } }
    ensures new { (key : List ℕ) (boot : ℕ) (o : Order) (moment : Moment) (drawn : List Draw)
        (value : Option (List ℕ)) → AreDrawn o drawn → o.cookie ≡ None → shows_form o.action ≡ true
        → (a b : ℕ) × (numbers_for KeyWord drawn ≡ a ∷ b ∷ [])
        × ((call_of key boot o moment drawn value).key ≡ record { 0 = to_be_bytes w64 a ++ to_be_bytes w64 b }) }
    ensures asked { (key : List ℕ) (boot : ℕ) (o : Order) (moment : Moment) (drawn : List Draw)
        (value : Option (List ℕ)) → AreDrawn o drawn
        → ((call_of key boot o moment drawn value).action ≡ o.action)
        × ((call_of key boot o moment drawn value).now ≡ moment)
        × (numbers_for Fresh drawn ≡ (call_of key boot o moment drawn value).fresh ∷ []) }
{
    sessions_read_back();
}
