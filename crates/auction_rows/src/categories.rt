//! Categories, as rows.

ghost use Rattle.std.specs.Prelude.{◌≡◌, ◌++◌, true, length, OnOk};
ghost use Rattle.byte_fields.specs.Answers.{Answers};
ghost use Rattle.auction_rows.specs.Bounds.{is_category};
ghost use Rattle.auction_rows.specs.Reading.{category_at, category_of};
ghost use Rattle.auction_rows.specs.Spelling.{category_bytes};

use crate::fields::{check_end, check_few};
use crate::laws::categories_are_exact;
use crate::ranges::category_is_in_range;
use crate::rows::CategoryRow;
use crate::table_row::TableRow;
use byte_fields::{ReadError, bytes_are_in_range, found, is_utf8, text_at, write_text};
use crash_base::{FieldText, MAX_ROW_BYTES, OutOfMemory, RowBytes};
use std::alloc::Global;

/// How many bytes a category has besides those of its name.
const CATEGORY_BYTES: usize = 2;

/// Whether a category is within its bounds: its name is UTF-8, and its bytes are at most 4,096. It takes
/// no memory, and visits each byte of its name once.
#[tactic(auto, using(crate::proofs::Sizes::category_size))]
pub fn is_category(category: &CategoryRow) -> bool
    ensures { result ≡ is_category category.now }
{
    is_utf8(category.name.as_slice()) && category.name.len() <= MAX_ROW_BYTES - CATEGORY_BYTES
}

#[tactic(auto, unfolding(crate::specs::Reading::category_of, crate::specs::Reading::category_at))]
fn read_category(alloc: Global, bytes: &[u8]) -> Result<CategoryRow, ReadError>
    ensures { Answers (λ row. row) result (category_of bytes.now) }
{
    check_few(bytes)?;
    let (name, rest) = text_at(bytes)?;
    check_end(rest)?;
    Ok(CategoryRow {
        name: FieldText::copied(alloc, name)?,
    })
}

#[tactic(auto, using(crate::proofs::Sizes::category_short), unfolding(crate::specs::Spelling::category_bytes))]
fn write_category(out: &mut Vec<u8>, category: &CategoryRow) -> Result<(), OutOfMemory>
    requires { is_category category.now ≡ true }
    ensures { OnOk result (out.new.items ≡ out.old.items ++ category_bytes category.now) }
{
    write_text(out, category.name.as_slice())?;
    Ok(())
}

impl TableRow for CategoryRow {
    ghost spelled = { category_of };

    ghost spelling = { category_bytes };

    ghost is_within = { is_category };

    fn decode(alloc: Global, bytes: &[u8]) -> Result<Option<CategoryRow>, OutOfMemory> {
        bytes_are_in_range(bytes);
        let found = found(read_category(alloc, bytes))?;
        Ok(found)
    }

    #[tactic(auto, using(crate::proofs::Sizes::category_short))]
    fn encode(&self, alloc: Global) -> Result<RowBytes, OutOfMemory> {
        let mut out = Vec::with_capacity(alloc, CATEGORY_BYTES + self.name.len())?;
        write_category(&mut out, self)?;
        category_is_in_range(self);
        categories_are_exact();
        Ok(RowBytes::from_vec(out))
    }
}
