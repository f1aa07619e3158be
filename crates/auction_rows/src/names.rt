//! Names, as rows.

ghost use Rattle.std.specs.Prelude.{◌≡◌, ◌++◌, true, length, OnOk};
ghost use Rattle.byte_fields.specs.Answers.{Answers};
ghost use Rattle.auction_rows.specs.Bounds.{is_name};
ghost use Rattle.auction_rows.specs.Reading.{name_at, name_of};
ghost use Rattle.auction_rows.specs.Spelling.{name_bytes};

use crate::fields::{check_end, check_few};
use crate::laws::names_are_exact;
use crate::ranges::name_is_in_range;
use crate::rows::NameRow;
use crate::table_row::TableRow;
use byte_fields::{
    ReadError, bytes_are_in_range, found, id_at, is_utf8, text_at, write_id, write_text,
};
use crash_base::{FieldText, MAX_ROW_BYTES, OutOfMemory, RowBytes};
use std::alloc::Global;

/// How many bytes a name has besides those of its name.
const NAME_BYTES: usize = 10;

/// Whether a name is within its bounds: its name is UTF-8, and its bytes are at most 4,096. It takes
/// no memory, and visits each byte of its name once.
#[tactic(auto, using(crate::proofs::Sizes::name_size))]
pub fn is_name(name: &NameRow) -> bool
    ensures { result ≡ is_name name.now }
{
    is_utf8(name.name.as_slice()) && name.name.len() <= MAX_ROW_BYTES - NAME_BYTES
}

#[tactic(auto, unfolding(crate::specs::Reading::name_of, crate::specs::Reading::name_at))]
fn read_name(alloc: Global, bytes: &[u8]) -> Result<NameRow, ReadError>
    ensures { Answers (λ row. row) result (name_of bytes.now) }
{
    check_few(bytes)?;
    let (name, rest) = text_at(bytes)?;
    let (user, rest) = id_at(rest)?;
    check_end(rest)?;
    Ok(NameRow {
        name: FieldText::copied(alloc, name)?,
        user,
    })
}

#[tactic(auto, using(crate::proofs::Sizes::name_short), unfolding(crate::specs::Spelling::name_bytes))]
fn write_name(out: &mut Vec<u8>, name: &NameRow) -> Result<(), OutOfMemory>
    requires { is_name name.now ≡ true }
    ensures { OnOk result (out.new.items ≡ out.old.items ++ name_bytes name.now) }
{
    write_text(out, name.name.as_slice())?;
    write_id(out, name.user)?;
    Ok(())
}

impl TableRow for NameRow {
    ghost spelled = { name_of };

    ghost spelling = { name_bytes };

    ghost is_within = { is_name };

    fn decode(alloc: Global, bytes: &[u8]) -> Result<Option<NameRow>, OutOfMemory> {
        bytes_are_in_range(bytes);
        let found = found(read_name(alloc, bytes))?;
        Ok(found)
    }

    #[tactic(auto, using(crate::proofs::Sizes::name_short))]
    fn encode(&self, alloc: Global) -> Result<RowBytes, OutOfMemory> {
        let mut out = Vec::with_capacity(alloc, NAME_BYTES + self.name.len())?;
        write_name(&mut out, self)?;
        name_is_in_range(self);
        names_are_exact();
        Ok(RowBytes::from_vec(out))
    }
}
