//! What follows a commit, made before it.

ghost use Rattle.std.specs.Prelude.{◌≡◌, ◌<◌, ◌^◌, IfOk};
ghost use Rattle.std.specs.Option.{option_map};
ghost use Rattle.site_responses.specs.Responses.{response};
ghost use Rattle.outcome_items.specs.Answers.{answer_of_page};
ghost use Rattle.request_visit.specs.Ready.{order_of, ready_of, set_by, set_in, shown_by, shown_response};

use crate::facts::VisitFacts;
use container_core::{DoneText, SessionChange};
use crash_base::{CookieText, OutOfMemory, PageText, ResponseBytes, SessionBytes};
use outcome_items::entry_response;
use session_way::{SessionLease, WriteOrder, expiry_at, value_to_write};
use site_responses::{failed_page, page_response};
use std::alloc::Global;

/// What is shown of an entry.
#[derive(Drop)]
pub struct Shown {
    pub status: u16,
    pub page: PageText,
}

/// What follows the commit of a request.
#[derive(Drop)]
pub enum Ready {
    /// Its session is not written: this is its response.
    Respond(ResponseBytes),
    /// Its session is written by this order, and then this is shown.
    Write(WriteOrder, Shown),
}

/// The value that an action sets the session to, if it sets one.
fn set_by(change: &SessionChange) -> Option<&SessionBytes>
    ensures { option_map (λ v. v.now) result ≡ set_by change.now }
{
    match change {
        SessionChange::Keep => None,
        SessionChange::Set(value) => Some(value),
    }
}

/// The value that an entry sets the session to, if it sets one.
fn set_in(done: Option<&DoneText>) -> Option<&SessionBytes>
    ensures { option_map (λ v. v.now) result ≡ set_in (option_map (λ d. d.now) done.entry) }
{
    match done {
        Some(done) => set_by(&done.session),
        None => None,
    }
}

/// A copy of what an entry shows; of one without an action that it failed.
fn copied_shown(alloc: Global, done: Option<&DoneText>) -> Result<Shown, OutOfMemory>
    ensures { IfOk result (λ shown. shown ≡ shown_by (option_map (λ d. d.now) done.entry)) }
{
    match done {
        Some(done) => {
            let page = PageText::copied(alloc, done.page.as_slice())?;
            Ok(Shown {
                status: done.status,
                page,
            })
        }
        None => {
            let page = failed_page(alloc)?;
            Ok(Shown { status: 500, page })
        }
    }
}

/// The order by which a value is written for a request. It takes no memory.
fn order_of(facts: VisitFacts, value: SessionBytes) -> WriteOrder
    requires { facts.now.0 < 2 ^ 62 }
    ensures { result ≡ order_of facts value }
{
    WriteOrder {
        nonce: facts.write,
        key: facts.key,
        value,
        expiry: expiry_at(facts.now),
    }
}

/// What follows the commit of an entry that answers this, or that has no action, at the moment of its request and
/// with the session that was read for it: its response, where the session is not written; or else the order of the
/// write, and a copy of what is shown. So nothing of it is wanted once the entry is there.
///
/// It fails only where memory ran out.
pub fn ready_of(
    alloc: Global,
    facts: VisitFacts,
    lease: Option<&SessionLease>,
    done: Option<&DoneText>,
) -> Result<Ready, OutOfMemory>
    requires { facts.now.0 < 2 ^ 62 }
    ensures { IfOk result (λ ready. ready ≡ ready_of facts (option_map (λ l. l.now) lease.entry)
        (option_map (λ d. d.now) done.entry)) }
{
    match value_to_write(alloc, set_in(done), facts.now, lease)? {
        None => {
            let bytes = entry_response(alloc, done, None, facts.close, facts.head_only)?;
            Ok(Ready::Respond(bytes))
        }
        Some(value) => {
            let shown = copied_shown(alloc, done)?;
            Ok(Ready::Write(order_of(facts, value), shown))
        }
    }
}

/// The response that shows a page, and sets the cookie of this text.
pub(crate) fn shown_response(
    alloc: Global,
    facts: VisitFacts,
    shown: &Shown,
    cookie: &CookieText,
) -> Result<ResponseBytes, OutOfMemory>
    ensures { IfOk result (λ bytes. bytes ≡ shown_response facts shown.now cookie.now) }
{
    page_response(
        alloc,
        shown.status,
        &shown.page,
        Some(cookie),
        facts.close,
        facts.head_only,
    )
}
