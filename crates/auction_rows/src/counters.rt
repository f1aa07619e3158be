//! Counters, as rows.

ghost use Rattle.std.specs.Prelude.{◌≡◌, ◌++◌, true, length, OnOk};
ghost use Rattle.byte_fields.specs.Answers.{Answers};
ghost use Rattle.auction_rows.specs.Bounds.{is_counter};
ghost use Rattle.auction_rows.specs.Reading.{counter_at, counter_of};
ghost use Rattle.auction_rows.specs.Spelling.{counter_bytes};

use crate::fields::{check_end, check_few};
use crate::laws::counters_are_exact;
use crate::ranges::counter_is_in_range;
use crate::rows::CounterRow;
use crate::table_row::TableRow;
use byte_fields::{ReadError, bytes_are_in_range, found, u64_at, write_u64};
use crash_base::{OutOfMemory, RowBytes};
use std::alloc::Global;

/// How many bytes a counter has.
const COUNTER_BYTES: usize = 8;

/// Whether a counter is within its bounds, which each one is. It takes no memory.
#[tactic(auto, using(crate::proofs::Sizes::counter_few))]
pub fn is_counter(_counter: &CounterRow) -> bool
    ensures { result ≡ is_counter _counter.now }
{
    true
}

#[tactic(auto, unfolding(crate::specs::Reading::counter_of, crate::specs::Reading::counter_at))]
fn read_counter(bytes: &[u8]) -> Result<CounterRow, ReadError>
    ensures { Answers (λ row. row) result (counter_of bytes.now) }
{
    check_few(bytes)?;
    let (count, rest) = u64_at(bytes)?;
    check_end(rest)?;
    Ok(CounterRow { count })
}

#[tactic(auto, unfolding(crate::specs::Spelling::counter_bytes))]
fn write_counter(out: &mut Vec<u8>, counter: &CounterRow) -> Result<(), OutOfMemory>
    ensures { OnOk result (out.new.items ≡ out.old.items ++ counter_bytes counter.now) }
{
    write_u64(out, counter.count)?;
    Ok(())
}

impl TableRow for CounterRow {
    ghost spelled = { counter_of };

    ghost spelling = { counter_bytes };

    ghost is_within = { is_counter };

    fn decode(_alloc: Global, bytes: &[u8]) -> Result<Option<CounterRow>, OutOfMemory> {
        bytes_are_in_range(bytes);
        let found = found(read_counter(bytes))?;
        Ok(found)
    }

    fn encode(&self, alloc: Global) -> Result<RowBytes, OutOfMemory> {
        let mut out = Vec::with_capacity(alloc, COUNTER_BYTES)?;
        write_counter(&mut out, self)?;
        counter_is_in_range(self);
        counters_are_exact();
        Ok(RowBytes::from_vec(out))
    }
}
