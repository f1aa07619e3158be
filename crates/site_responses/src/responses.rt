//! The bytes of responses.

ghost use Rattle.std.specs.Prelude.{◌≡◌, false, [], IfOk};
ghost use Rattle.std.specs.Option.{option_copied};
ghost use Rattle.http_wire.specs.Response.{response_bytes};
ghost use Rattle.page_text.specs.Pages.{page_bytes};
ghost use Rattle.site_responses.specs.Responses.{allowed, bad_field, bytes_of, failed_page, gone, heading_alone, last_response, left_alone, page_said, response, set_where, try_again};

use crate::answer::{SiteAnswer, Untaken};
use crash_base::{CookieText, OutOfMemory, PageText, ResponseBytes};
use http_wire::{CookieField, ExtraFields, response_bytes};
use page_text::{PageLineList, page};
use std::alloc::Global;

/// The cookie of a session, copied, where it was written.
fn set_where(alloc: Global, cookie: Option<&CookieText>) -> Result<CookieField, OutOfMemory>
    ensures { IfOk result (λ field. field ≡ set_where (option_copied cookie.entry)) }
{
    match cookie {
        None => Ok(CookieField::None),
        Some(text) => Ok(CookieField::Set(CookieText::copied(alloc, text.as_slice())?)),
    }
}

/// The page of an entry of the journal that has no action, as another client of the boot may commit one under the
/// number of a request: its answer is a page of status 500, and its session may be renewed as behind each page.
///
/// It fails only where memory ran out.
pub fn failed_page(alloc: Global) -> Result<PageText, OutOfMemory>
    ensures { IfOk result (λ page. page ≡ failed_page) }
{
    page(alloc, b"Failed", &PageLineList::new(alloc))
}

/// The response of a page, as to `SiteAnswer::Page`: its status, and the cookie of the session where that was written.
/// `close` says whether the connection ends, and `head_only` leaves the page out.
///
/// It fails only where memory ran out.
#[tactic(auto, unfolding(crate::specs::Responses::bytes_of))]
pub fn page_response(
    alloc: Global,
    status: u16,
    page: &PageText,
    cookie: Option<&CookieText>,
    close: bool,
    head_only: bool,
) -> Result<ResponseBytes, OutOfMemory>
    ensures { IfOk result (λ bytes. bytes
        ≡ bytes_of (page_said status page.now (option_copied cookie.entry)) close head_only) }
{
    let extra = ExtraFields {
        cookie: set_where(alloc, cookie)?,
        retry: false,
        allow: 0,
        close,
    };
    response_bytes(alloc, status, &extra, page, head_only)
}

/// A response of this status whose page is a heading.
fn refusal(
    alloc: Global,
    status: u16,
    heading: &[u8],
    extra: &ExtraFields,
    head_only: bool,
) -> Result<ResponseBytes, OutOfMemory>
    ensures { IfOk result (λ bytes. bytes
        ≡ response_bytes status extra.now (page_bytes heading.now []) head_only) }
{
    let text = page(alloc, heading, &PageLineList::new(alloc))?;
    response_bytes(alloc, status, extra, &text, head_only)
}

/// No field but whether the connection ends.
fn plain(close: bool) -> ExtraFields
    ensures { result ≡ record { cookie = left_alone; retry = false; allow = 0; close = close } }
{
    ExtraFields {
        cookie: CookieField::None,
        retry: false,
        allow: 0,
        close,
    }
}

/// The heading that names a field.
#[tactic(auto, unfolding(crate::specs::Responses::bad_field))]
fn bad_field(alloc: Global, name: &[u8]) -> Result<Vec<u8>, OutOfMemory>
    ensures { IfOk result (λ heading. heading.items ≡ bad_field name.now) }
{
    let mut heading = Vec::new(alloc);
    heading.extend_from_slice(b"Bad field ")?;
    heading.extend_from_slice(name)?;
    Ok(heading)
}

/// The response that names the first field that is bad.
#[tactic(auto, unfolding(crate::specs::Responses::bytes_of))]
fn bad_form(
    alloc: Global,
    name: &[u8],
    close: bool,
    head_only: bool,
) -> Result<ResponseBytes, OutOfMemory>
    ensures { IfOk result (λ bytes. bytes ≡ bytes_of (heading_alone 400 (bad_field name.now)) close head_only) }
{
    let heading = bad_field(alloc, name)?;
    refusal(alloc, 400, heading.as_slice(), &plain(close), head_only)
}

/// The response that clears the cookie, of a session that is gone.
#[tactic(auto, unfolding(crate::specs::Responses::bytes_of))]
fn session_gone(
    alloc: Global,
    heading: &[u8],
    close: bool,
    head_only: bool,
) -> Result<ResponseBytes, OutOfMemory>
    ensures { IfOk result (λ bytes. bytes ≡ bytes_of (gone heading.now) close head_only) }
{
    let extra = ExtraFields {
        cookie: CookieField::Clear,
        retry: false,
        allow: 0,
        close,
    };
    refusal(alloc, 403, heading, &extra, head_only)
}

/// The response that says by which methods something is at the path.
#[tactic(auto, unfolding(crate::specs::Responses::bytes_of))]
fn not_allowed(
    alloc: Global,
    allow: u8,
    close: bool,
    head_only: bool,
) -> Result<ResponseBytes, OutOfMemory>
    ensures { IfOk result (λ bytes. bytes ≡ bytes_of (allowed allow) close head_only) }
{
    let extra = ExtraFields {
        cookie: CookieField::None,
        retry: false,
        allow,
        close,
    };
    refusal(alloc, 405, b"Method not allowed", &extra, head_only)
}

/// The response that says to try again.
#[tactic(auto, unfolding(crate::specs::Responses::bytes_of))]
fn try_again(alloc: Global, close: bool, head_only: bool) -> Result<ResponseBytes, OutOfMemory>
    ensures { IfOk result (λ bytes. bytes ≡ bytes_of try_again close head_only) }
{
    let extra = ExtraFields {
        cookie: CookieField::None,
        retry: true,
        allow: 0,
        close,
    };
    refusal(alloc, 503, b"Try again", &extra, head_only)
}

/// The response of this status and heading that has no further field.
#[tactic(auto, unfolding(crate::specs::Responses::bytes_of))]
fn plain_refusal(
    alloc: Global,
    status: u16,
    heading: &[u8],
    close: bool,
    head_only: bool,
) -> Result<ResponseBytes, OutOfMemory>
    ensures { IfOk result (λ bytes. bytes ≡ bytes_of (heading_alone status heading.now) close head_only) }
{
    refusal(alloc, status, heading, &plain(close), head_only)
}

/// The response to a request. `close` says whether the connection ends behind it, and `head_only` whether HEAD asked:
/// it leaves the page out, and no field. A cookie is set exactly where the session was written, and cleared exactly
/// where the session is gone (RFC 6265, section 4.1).
///
/// It fails only where memory ran out.
pub fn response_of(
    alloc: Global,
    answer: &SiteAnswer,
    close: bool,
    head_only: bool,
) -> Result<ResponseBytes, OutOfMemory>
    ensures { IfOk result (λ bytes. bytes ≡ response answer.now close head_only) }
{
    match answer {
        SiteAnswer::Page {
            status,
            page,
            cookie,
        } => page_response(alloc, *status, page, cookie.as_ref(), close, head_only),
        SiteAnswer::NotThere => plain_refusal(alloc, 404, b"Not there", close, head_only),
        SiteAnswer::NotAllowed { allow } => not_allowed(alloc, *allow, close, head_only),
        SiteAnswer::Multipart => plain_refusal(
            alloc,
            415,
            b"Form not understood",
            close,
            head_only,
        ),
        SiteAnswer::BadForm { field } => bad_form(alloc, field.word().as_bytes(), close, head_only),
        SiteAnswer::StaleForm => plain_refusal(alloc, 409, b"Form is old", close, head_only),
        SiteAnswer::Expired => session_gone(alloc, b"Session expired", close, head_only),
        SiteAnswer::Lost => session_gone(alloc, b"Session lost", close, head_only),
        SiteAnswer::TryAgain => try_again(alloc, close, head_only),
        SiteAnswer::Failed => plain_refusal(alloc, 500, b"Failed", close, head_only),
    }
}

/// The last response of a connection, off whose bytes no further request is taken. It says that the connection ends,
/// and has its page whatever the method was.
///
/// It fails only where memory ran out.
pub fn untaken_response(alloc: Global, why: Untaken) -> Result<ResponseBytes, OutOfMemory>
    ensures { IfOk result (λ bytes. bytes ≡ last_response why) }
{
    match why {
        Untaken::Bad => plain_refusal(alloc, 400, b"Bad request", true, false),
        Untaken::TooLong => plain_refusal(alloc, 431, b"Head too long", true, false),
        Untaken::BodyTooLong => plain_refusal(alloc, 413, b"Body too long", true, false),
        Untaken::NoCoding => plain_refusal(alloc, 501, b"Coding not supported", true, false),
    }
}
