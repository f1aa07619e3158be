//! Laws of responses. Each is the contract of a function that does nothing: a caller that needs the law calls the
//! function.

ghost use Rattle.std.specs.Prelude.{◌≡◌, ◌↔◌, ℕ, ◌<◌, List, Bool, Option, true, false, ◌++◌};
ghost use Rattle.http_wire.specs.Response.{response_bytes};
ghost use Rattle.http_wire.specs.declared.response.CookieField.TheVariants.{Set, Clear};
ghost use Rattle.site_responses.specs.Responses.{IsNoPage, IsSessionGone, IsWritten, failed_page, last_response, left_alone, response, said, said_untaken, set_where};
ghost use Rattle.site_responses.specs.declared.answer.SiteAnswer.{SiteAnswer};
ghost use Rattle.site_responses.specs.declared.answer.SiteAnswer.TheVariants.{Failed, NotAllowed, Page, TryAgain};
ghost use Rattle.site_responses.specs.declared.answer.Untaken.{Untaken};

use http_wire::heads_come_before_pages;

/// A response sets a cookie exactly where its session was written, and that one; and it clears the client's exactly
/// where the session is gone.
pub fn cookies_change_with_sessions()
    ensures set { (answer : SiteAnswer) (text : List ℕ)
        → ((said answer).cookie ≡ Set text) ↔ IsWritten answer text }
    ensures clear { (answer : SiteAnswer) → ((said answer).cookie ≡ Clear) ↔ IsSessionGone answer }
{}

/// A response says when to try again exactly where the answer is to try again; then its status is 503, and it leaves
/// the client's cookie as it is.
pub fn retries_keep_cookies()
    ensures when { (answer : SiteAnswer) → ((said answer).retry ≡ true) ↔ (answer ≡ TryAgain) }
    ensures status { (said TryAgain).status ≡ 503 }
    ensures kept { (said TryAgain).cookie ≡ left_alone }
{}

/// `Allow` is there exactly where something is at the path by other methods, and names these. Of all answers that are
/// no pages of actions, 403 is that of a session that is gone. The bytes have each field that is said, and say that the
/// connection ends where it does; and the last response of a connection says so, and has its page.
pub fn fields_come_with_their_answers()
    ensures allow { (answer : SiteAnswer) (allow : ℕ) → 0 < allow
        → ((said answer).allow ≡ allow) ↔ (answer ≡ NotAllowed allow) }
    ensures forbidden { (answer : SiteAnswer) → IsNoPage answer
        → ((said answer).status ≡ 403) ↔ IsSessionGone answer }
    ensures bytes { (answer : SiteAnswer) (close head_only : Bool) → response answer close head_only
        ≡ response_bytes (said answer).status (record {
          cookie = (said answer).cookie;
          retry = (said answer).retry;
          allow = (said answer).allow;
          close = close;
        }) (said answer).page head_only }
    ensures last { (why : Untaken) → last_response why
        ≡ response_bytes (said_untaken why).status (record {
          cookie = left_alone;
          retry = false;
          allow = 0;
          close = true;
        }) (said_untaken why).page false }
{}

/// The page of an entry without an action, with status 500, says what `Failed` says, but for the cookie of its session,
/// which is set where it was renewed.
pub fn failed_pages_say_what_failed_says()
    ensures { (cookie : Option (List ℕ))
        → said (Page 500 failed_page cookie) ≡ record (said Failed) { cookie = set_where cookie } }
{}

/// The response to HEAD is that to GET up to its page: the same status and fields, with the length of the page that is
/// left out.
pub fn heads_are_answered_as_gets()
    ensures { (answer : SiteAnswer) (close : Bool)
        → response answer close false ≡ response answer close true ++ (said answer).page }
{
    heads_come_before_pages();
}
