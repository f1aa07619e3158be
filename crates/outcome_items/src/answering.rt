//! The response to a request, by what became of it.

ghost use Rattle.std.specs.Prelude.{◌≡◌, IfOk};
ghost use Rattle.std.specs.Option.{option_copied, option_map};
ghost use Rattle.site_responses.specs.Responses.{response};
ghost use Rattle.outcome_items.specs.Answers.{answer_of, answer_of_end, answer_of_page, answer_of_refusal};

use crate::outcome::ItemOutcome;
use container_core::DoneText;
use crash_base::{CookieText, OutOfMemory, ResponseBytes};
use request_decisions::Refusal;
use request_tries::RequestOutcome;
use site_responses::{SiteAnswer, failed_page, page_response, response_of};
use std::alloc::Global;

/// The answer to a request that is refused. It takes no memory.
fn answer_of_refusal(refusal: Refusal) -> SiteAnswer
    ensures { result ≡ answer_of_refusal refusal }
{
    match refusal {
        Refusal::NotThere => SiteAnswer::NotThere,
        Refusal::NotAllowed { allow } => SiteAnswer::NotAllowed { allow },
        Refusal::Multipart => SiteAnswer::Multipart,
        Refusal::BadForm { field } => SiteAnswer::BadForm { field },
        Refusal::StaleForm { .. } => SiteAnswer::StaleForm,
    }
}

/// The response that tells the client to try again.
fn try_again(alloc: Global, close: bool, head_only: bool) -> Result<ResponseBytes, OutOfMemory>
    ensures { IfOk result (λ bytes. bytes ≡ response SiteAnswer.TryAgain close head_only) }
{
    response_of(alloc, &SiteAnswer::TryAgain, close, head_only)
}

/// The response to a request that is committed: what its entry answers, where it made an action, and else that it
/// failed; with the text of the cookie that was written for it, if one was. It fails only where memory ran out.
pub fn entry_response(
    alloc: Global,
    done: Option<&DoneText>,
    cookie: Option<&CookieText>,
    close: bool,
    head_only: bool,
) -> Result<ResponseBytes, OutOfMemory>
    ensures { IfOk result (λ bytes. bytes ≡ response
        (answer_of_page (option_map (λ d. d.now) done.entry) (option_copied cookie.entry)) close head_only) }
{
    match done {
        Some(done) => page_response(alloc, done.status, &done.page, cookie, close, head_only),
        None => {
            let text = failed_page(alloc)?;
            page_response(alloc, 500, &text, cookie, close, head_only)
        }
    }
}

/// The response to a request that came to an end in the container.
fn end_response(
    alloc: Global,
    end: &RequestOutcome,
    done: Option<&DoneText>,
    cookie: Option<&CookieText>,
    close: bool,
    head_only: bool,
) -> Result<ResponseBytes, OutOfMemory>
    ensures { IfOk result (λ bytes. bytes ≡ response
        (answer_of_end (option_map (λ d. d.now) done.entry) (option_copied cookie.entry) end.now) close head_only) }
{
    match end {
        RequestOutcome::Page { .. } => entry_response(alloc, done, cookie, close, head_only),
        RequestOutcome::Hung { .. } | RequestOutcome::Raised { .. } => {
            response_of(alloc, &SiteAnswer::Failed, close, head_only)
        }
        RequestOutcome::Sentinel { .. }
        | RequestOutcome::Revoked(_)
        | RequestOutcome::Conflict(_)
        | RequestOutcome::JournalFull(_)
        | RequestOutcome::KeeperFailed => try_again(alloc, close, head_only),
    }
}

/// The response to a request, by what became of it. For a page `done` is what its entry answers, and None where that
/// entry made no action; `cookie` is the text of the cookie that it sets. `close` says whether the connection ends
/// behind it, and `head_only` leaves the page out.
///
/// It fails only where memory ran out.
pub fn response_to(
    alloc: Global,
    outcome: &ItemOutcome,
    done: Option<&DoneText>,
    cookie: Option<&CookieText>,
    close: bool,
    head_only: bool,
) -> Result<ResponseBytes, OutOfMemory>
    ensures { IfOk result (λ bytes. bytes ≡ response
        (answer_of (option_map (λ d. d.now) done.entry) (option_copied cookie.entry) outcome.now) close head_only) }
{
    match outcome {
        ItemOutcome::Refused(refusal) => {
            response_of(alloc, &answer_of_refusal(*refusal), close, head_only)
        }
        ItemOutcome::SerialsSpent { .. } => try_again(alloc, close, head_only),
        ItemOutcome::Expired { .. } => {
            response_of(alloc, &SiteAnswer::Expired, close, head_only)
        }
        ItemOutcome::Lost(_) => response_of(alloc, &SiteAnswer::Lost, close, head_only),
        ItemOutcome::Ended(end) => end_response(alloc, end, done, cookie, close, head_only),
        ItemOutcome::Overload { .. } | ItemOutcome::Missed { .. } => try_again(
            alloc, close, head_only,
        ),
    }
}
