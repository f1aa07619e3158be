//! What actions answer.

ghost use Rattle.std.specs.Prelude.{◌≡◌, [], ◌++◌, IfOk};
ghost use Rattle.std.specs.Fmt.{decimal};
ghost use Rattle.auction_site.specs.Answers.{answered, shows, shows_with_session};

use action_plans::Outcome;
use auction_rows::encode_session;
use crash_base::{FieldText, Moment, OutOfMemory, WriteList};
use journal_model::{DoneText, SessionChange};
use page_text::{PageLineList, page};
use std::alloc::Global;
use std::fmt::Write;

/// An answer that leaves the session as it is.
pub fn shows(
    alloc: Global,
    status: u16,
    heading: &[u8],
    lines: &PageLineList,
) -> Result<DoneText, OutOfMemory>
    ensures { IfOk result (λ done. done ≡ shows status heading.now lines.now) }
{
    Ok(DoneText {
        status,
        page: page(alloc, heading, lines)?,
        session: SessionChange::Keep,
    })
}

/// An answer after which the session is that of a user.
pub fn shows_with_session(
    alloc: Global,
    user: u32,
    now: Moment,
    heading: &[u8],
    lines: &PageLineList,
) -> Result<DoneText, OutOfMemory>
    ensures { IfOk result (λ done. done ≡ shows_with_session user now.0 heading.now lines.now) }
{
    Ok(DoneText {
        status: 200,
        page: page(alloc, heading, lines)?,
        session: SessionChange::Set(encode_session(alloc, user, now)?),
    })
}

/// An answer of a heading alone.
pub fn says(alloc: Global, status: u16, heading: &[u8]) -> Result<DoneText, OutOfMemory>
    ensures { IfOk result (λ done. done ≡ shows status heading.now []) }
{
    shows(alloc, status, heading, &PageLineList::new(alloc))
}

/// A number behind a word.
pub fn numbered_text(alloc: Global, word: &str, number: u64) -> Result<FieldText, OutOfMemory>
    ensures { IfOk result (λ text. text ≡ word.now ++ decimal number) }
{
    let mut text = String::new(alloc);
    write!(text, "{word}{number}")?;
    Ok(FieldText::from_vec(text.into_bytes()))
}

/// An answer that tells a number behind a word, and leaves the session as it is.
pub fn says_number(alloc: Global, word: &str, number: u32) -> Result<DoneText, OutOfMemory>
    ensures { IfOk result (λ done. done ≡ shows 200 (word.now ++ decimal number) []) }
{
    let heading = numbered_text(alloc, word, u64::from(number))?;
    says(alloc, 200, heading.as_slice())
}

/// An answer and nothing written.
pub fn answered(alloc: Global, done: DoneText) -> Outcome
    ensures { result ≡ answered done }
{
    Outcome {
        writes: WriteList::new(alloc),
        done,
    }
}
