//! Copies of what actions answer.

ghost use Rattle.std.specs.Prelude.{◌≡◌, option_map, Some, IfOk};
ghost use Rattle.request_tries.specs.Ends.{done_at, done_by};

use container_core::{DoneText, Entry, Journal, SessionChange};
use crash_base::{OutOfMemory, PageText, Place, SessionBytes};
use std::alloc::Global;

/// A copy of what becomes of a session.
fn copied_session(alloc: Global, change: &SessionChange) -> Result<SessionChange, OutOfMemory>
    ensures { IfOk result (λ copy. copy ≡ change.now) }
{
    match change {
        SessionChange::Keep => Ok(SessionChange::Keep),
        SessionChange::Set(bytes) => {
            let copy = Vec::from_slice(alloc, bytes.as_slice())?;
            Ok(SessionChange::Set(SessionBytes::from_vec(copy)))
        }
    }
}

/// A copy of what an action answers.
fn copied_done(alloc: Global, done: &DoneText) -> Result<DoneText, OutOfMemory>
    ensures { IfOk result (λ copy. copy ≡ done.now) }
{
    let page = PageText::copied(alloc, done.page.as_slice())?;
    let session = copied_session(alloc, &done.session)?;
    Ok(DoneText {
        status: done.status,
        page,
        session,
    })
}

/// What an entry answers, where its call made an action.
fn done_by(entry: &Entry) -> Option<&DoneText>
    ensures { option_map (λ d. d.now) result ≡ done_by entry.now }
{
    match entry {
        Entry::Commit(commit) => match &commit.action {
            Some(action) => Some(&action.done),
            None => None,
        },
        Entry::Down(_) | Entry::Up(_) => None,
    }
}

/// A copy, where there is something to copy.
fn copied_if(alloc: Global, done: Option<&DoneText>) -> Result<Option<DoneText>, OutOfMemory>
    ensures { IfOk result (λ copy. copy ≡ option_map (λ d. d.now) done.entry) }
{
    match done {
        Some(some) => {
            let copy = copied_done(alloc, some)?;
            Ok(Some(copy))
        }
        None => Ok(None),
    }
}

/// A copy of what the entry at a place answers.
pub(crate) fn copied_done_at(
    alloc: Global,
    journal: &Journal,
    place: Place,
) -> Result<Option<DoneText>, OutOfMemory>
    ensures { IfOk result (λ copy. copy ≡ done_at journal.now.entries place) }
{
    match journal.entries().get(place.0 as usize) {
        Some(entry) => {
            let copy = copied_if(alloc, done_by(entry))?;
            Ok(copy)
        }
        None => Ok(None),
    }
}
