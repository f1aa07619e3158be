//! Feedback, as rows.

ghost use Rattle.std.specs.Prelude.{◌≡◌, ◌++◌, true, length, OnOk};
ghost use Rattle.byte_fields.specs.Answers.{Answers};
ghost use Rattle.auction_rows.specs.Bounds.{is_feedback};
ghost use Rattle.auction_rows.specs.Reading.{feedback_at, feedback_of};
ghost use Rattle.auction_rows.specs.Spelling.{feedback_bytes};

use crate::fields::{check_end, check_few};
use crate::laws::feedback_is_exact;
use crate::ranges::feedback_is_in_range;
use crate::rows::FeedbackRow;
use crate::table_row::TableRow;
use byte_fields::{
    ReadError, bytes_are_in_range, flag_at, flag_number, found, id_at, is_utf8, text_at, write_id,
    write_text, write_u8,
};
use crash_base::{FieldText, MAX_ROW_BYTES, OutOfMemory, RowBytes};
use std::alloc::Global;

/// How many bytes feedback has besides those of its text.
const FEEDBACK_BYTES: usize = 19;

/// Whether feedback is within its bounds: its text is UTF-8, and its bytes are at most 4,096. It takes
/// no memory, and visits each byte of its text once.
#[tactic(auto, using(crate::proofs::Sizes::feedback_size))]
pub fn is_feedback(feedback: &FeedbackRow) -> bool
    ensures { result ≡ is_feedback feedback.now }
{
    is_utf8(feedback.text.as_slice()) && feedback.text.len() <= MAX_ROW_BYTES - FEEDBACK_BYTES
}

#[tactic(auto, unfolding(crate::specs::Reading::feedback_of, crate::specs::Reading::feedback_at))]
fn read_feedback(alloc: Global, bytes: &[u8]) -> Result<FeedbackRow, ReadError>
    ensures { Answers (λ row. row) result (feedback_of bytes.now) }
{
    check_few(bytes)?;
    let (from, rest) = id_at(bytes)?;
    let (item, rest) = id_at(rest)?;
    let (good, rest) = flag_at(rest)?;
    let (text, rest) = text_at(rest)?;
    check_end(rest)?;
    Ok(FeedbackRow {
        from,
        item,
        good,
        text: FieldText::copied(alloc, text)?,
    })
}

#[tactic(auto, using(crate::proofs::Sizes::feedback_short), unfolding(crate::specs::Spelling::feedback_bytes))]
fn write_feedback(out: &mut Vec<u8>, feedback: &FeedbackRow) -> Result<(), OutOfMemory>
    requires { is_feedback feedback.now ≡ true }
    ensures { OnOk result (out.new.items ≡ out.old.items ++ feedback_bytes feedback.now) }
{
    write_id(out, feedback.from)?;
    write_id(out, feedback.item)?;
    write_u8(out, flag_number(feedback.good))?;
    write_text(out, feedback.text.as_slice())?;
    Ok(())
}

impl TableRow for FeedbackRow {
    ghost spelled = { feedback_of };

    ghost spelling = { feedback_bytes };

    ghost is_within = { is_feedback };

    fn decode(alloc: Global, bytes: &[u8]) -> Result<Option<FeedbackRow>, OutOfMemory> {
        bytes_are_in_range(bytes);
        let found = found(read_feedback(alloc, bytes))?;
        Ok(found)
    }

    #[tactic(auto, using(crate::proofs::Sizes::feedback_short))]
    fn encode(&self, alloc: Global) -> Result<RowBytes, OutOfMemory> {
        let mut out = Vec::with_capacity(alloc, FEEDBACK_BYTES + self.text.len())?;
        write_feedback(&mut out, self)?;
        feedback_is_in_range(self);
        feedback_is_exact();
        Ok(RowBytes::from_vec(out))
    }
}
