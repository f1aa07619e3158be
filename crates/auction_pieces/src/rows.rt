//! The rows that an action reads: each is taken off the answers, and decoded.

ghost use Rattle.std.specs.Prelude.{◌≡◌, [], true, option_map, IfOk};
ghost use Rattle.std.specs.Result.{result_map_both};
ghost use Rattle.action_plans.specs.Plans.{Has, HasCome, walk};
ghost use Rattle.auction_site.specs.Answers.{shows};
ghost use Rattle.auction_site.specs.Pieces.{row_answer, table_answer, decoded_or, asks_row_or, asks_row, none_decoded, asks_no_row, count_decoded, asks_counter, asks_table};

use crate::answers::says;
use crate::refusals::decoded;
use action_plans::{Reads, Stop};
use auction_rows::{CounterRow, TableRow};
use call_ticket::Answer;
use crash_base::{RowBytes, RowId, RowWrite};
use journal_model::ReadMark;
use std::alloc::Global;

/// The bytes that the answer to a read of a row tells.
fn row_answer(answer: &Answer) -> Option<&RowBytes>
    ensures { option_map (λ bytes. bytes.now) result ≡ row_answer answer.now }
{
    match answer {
        Answer::Row(Some(bytes)) => Some(bytes),
        Answer::Row(None) | Answer::Rows(_) | Answer::Entered | Answer::Kept | Answer::Left => None,
    }
}

/// The row that these bytes spell, if there are any; refused with this answer where there are none.
#[tactic(auto, unfolding(auction_site::specs::Pieces::decoded_or))]
fn decoded_or<T: TableRow>(
    alloc: Global,
    id: RowId,
    bytes: Option<&RowBytes>,
    status: u16,
    heading: &[u8],
) -> Result<T, Stop>
    ensures has { Has result
        (decoded_or T.spelled id (shows status heading.now []) (option_map (λ bytes. bytes.now) bytes.entry)) }
    ensures within { IfOk result (λ row. T.is_within row ≡ true) }
{
    match bytes {
        None => {
            let done = says(alloc, status, heading)?;
            Err(Stop::Refuse(done))
        }
        Some(bytes) => {
            let found = T::decode(alloc, bytes.as_slice())?;
            decoded(alloc, id, found)
        }
    }
}

/// The row of an id; refused with this answer where it is missing. It takes one answer, and decodes its bytes.
#[tactic(auto, unfolding(auction_site::specs::Pieces::asks_row_or, action_plans::specs::Plans::walk))]
pub fn asks_row_or<T: TableRow>(
    alloc: Global,
    reads: &mut Reads<'_>,
    id: RowId,
    status: u16,
    heading: &[u8],
) -> Result<T, Stop>
    ensures come { HasCome result reads.new
        (walk (asks_row_or T.spelled id (shows status heading.now [])) reads.old) }
    ensures within { IfOk result (λ row. T.is_within row ≡ true) }
{
    match reads.take() {
        None => Err(Stop::Ask(ReadMark::Row(id))),
        Some(answer) => decoded_or(alloc, id, row_answer(answer), status, heading),
    }
}

/// The row of an id; refused where it is missing. It takes one answer, and decodes its bytes.
pub fn asks_row<T: TableRow>(alloc: Global, reads: &mut Reads<'_>, id: RowId) -> Result<T, Stop>
    ensures come { HasCome result reads.new (walk (asks_row T.spelled id) reads.old) }
    ensures within { IfOk result (λ row. T.is_within row ≡ true) }
{
    asks_row_or(alloc, reads, id, 404, b"Not there")
}

/// No bytes; refused with this answer where they spell a row, and else as a bad row.
#[tactic(auto, using(crate::proofs::Found::none_refuses, crate::proofs::Found::none_stops), unfolding(auction_site::specs::Pieces::none_decoded))]
fn none_decoded<T: TableRow>(
    alloc: Global,
    id: RowId,
    bytes: Option<&RowBytes>,
    status: u16,
    heading: &[u8],
) -> Result<(), Stop>
    ensures { Has result
        (none_decoded T.spelled id (shows status heading.now []) (option_map (λ bytes. bytes.now) bytes.entry)) }
{
    match bytes {
        None => Ok(()),
        Some(bytes) => {
            let found = T::decode(alloc, bytes.as_slice())?;
            decoded(alloc, id, found)?;
            let done = says(alloc, status, heading)?;
            Err(Stop::Refuse(done))
        }
    }
}

/// No row of an id; refused with this answer where it is there. It takes one answer, and decodes its bytes.
#[tactic(auto, unfolding(auction_site::specs::Pieces::asks_no_row, action_plans::specs::Plans::walk))]
pub fn asks_no_row<T: TableRow>(
    alloc: Global,
    reads: &mut Reads<'_>,
    id: RowId,
    status: u16,
    heading: &[u8],
) -> Result<(), Stop>
    ensures { HasCome result reads.new
        (walk (asks_no_row T.spelled id (shows status heading.now [])) reads.old) }
{
    match reads.take() {
        None => Err(Stop::Ask(ReadMark::Row(id))),
        Some(answer) => none_decoded::<T>(alloc, id, row_answer(answer), status, heading),
    }
}

/// The count that these bytes spell, if there are any, and else 0.
#[tactic(auto, using(crate::proofs::Found::count_gives, crate::proofs::Found::count_stops), unfolding(auction_site::specs::Pieces::count_decoded))]
fn count_decoded(alloc: Global, id: RowId, bytes: Option<&RowBytes>) -> Result<u64, Stop>
    ensures { Has result (count_decoded id (option_map (λ bytes. bytes.now) bytes.entry)) }
{
    match bytes {
        None => Ok(0),
        Some(bytes) => {
            let found = CounterRow::decode(alloc, bytes.as_slice())?;
            let counter = decoded(alloc, id, found)?;
            Ok(counter.count)
        }
    }
}

/// A counter, which is 0 where its row is missing. It takes one answer, and decodes its bytes.
#[tactic(auto, unfolding(auction_site::specs::Pieces::asks_counter, action_plans::specs::Plans::walk))]
pub fn asks_counter(alloc: Global, reads: &mut Reads<'_>, id: RowId) -> Result<u64, Stop>
    ensures { HasCome result reads.new (walk (asks_counter id) reads.old) }
{
    match reads.take() {
        None => Err(Stop::Ask(ReadMark::Row(id))),
        Some(answer) => count_decoded(alloc, id, row_answer(answer)),
    }
}

/// The rows that the answer to a list of a table tells.
fn table_answer(answer: &Answer) -> &[RowWrite]
    ensures { result.now ≡ table_answer answer.now }
{
    match answer {
        Answer::Rows(rows) => rows.as_slice(),
        Answer::Row(_) | Answer::Entered | Answer::Kept | Answer::Left => &[],
    }
}

/// The rows of a table. It takes one answer, and copies nothing.
#[tactic(auto, unfolding(auction_site::specs::Pieces::asks_table, action_plans::specs::Plans::walk))]
pub fn asks_table<'a>(reads: &mut Reads<'a>, table: u8) -> Result<&'a [RowWrite], Stop>
    ensures { HasCome (result_map_both (λ rows. rows.now) (λ e. e) result) reads.new
        (walk (asks_table table) reads.old) }
{
    match reads.take() {
        None => Err(Stop::Ask(ReadMark::Table(table))),
        Some(answer) => Ok(table_answer(answer)),
    }
}
