//! Users, as rows.

ghost use Rattle.std.specs.Prelude.{◌≡◌, ◌++◌, true, length, OnOk};
ghost use Rattle.byte_fields.specs.Answers.{Answers, Reads};
ghost use Rattle.auction_rows.specs.Bounds.{is_user};
ghost use Rattle.auction_rows.specs.Reading.{user_at, user_of, user_tail_at};
ghost use Rattle.auction_rows.specs.Spelling.{user_bytes};

use crate::fields::{check_end, check_few};
use crate::laws::users_are_exact;
use crate::ranges::user_is_in_range;
use crate::rows::UserRow;
use crate::table_row::TableRow;
use byte_fields::{
    NoField, ReadError, array_at, bytes_are_in_range, found, is_utf8, text_at, u32_at, write_text,
    write_u32,
};
use crash_base::{FieldText, MAX_ROW_BYTES, OutOfMemory, RowBytes};
use std::alloc::Global;

/// How many bytes a user has besides those of its name.
const USER_BYTES: usize = 54;

/// Whether a user is within its bounds: its name is UTF-8, and its bytes are at most 4,096. It takes
/// no memory, and visits each byte of its name once.
#[tactic(auto, using(crate::proofs::Sizes::user_size))]
pub fn is_user(user: &UserRow) -> bool
    ensures { result ≡ is_user user.now }
{
    is_utf8(user.name.as_slice()) && user.name.len() <= MAX_ROW_BYTES - USER_BYTES
}

/// What a user has behind its name.
#[derive(Clone, Copy)]
pub struct UserTail {
    pub salt: [u8; 8],
    pub digest: [u8; 32],
    pub good: u32,
    pub bad: u32,
    pub items: u32,
}

/// What a user has behind its name.
#[tactic(auto, unfolding(crate::specs::Reading::user_tail_at))]
fn user_tail_at(bytes: &[u8]) -> Result<(UserTail, &[u8]), NoField>
    ensures { Reads (λ f. (f.0, f.1.now)) result (user_tail_at bytes.now) }
{
    let (salt, rest) = array_at(bytes)?;
    let (digest, rest) = array_at(rest)?;
    let (good, rest) = u32_at(rest)?;
    let (bad, rest) = u32_at(rest)?;
    let (items, rest) = u32_at(rest)?;
    let tail = UserTail {
        salt,
        digest,
        good,
        bad,
        items,
    };
    Ok((tail, rest))
}

#[tactic(auto, unfolding(crate::specs::Reading::user_of, crate::specs::Reading::user_at))]
fn read_user(alloc: Global, bytes: &[u8]) -> Result<UserRow, ReadError>
    ensures { Answers (λ row. row) result (user_of bytes.now) }
{
    check_few(bytes)?;
    let (name, rest) = text_at(bytes)?;
    let (tail, rest) = user_tail_at(rest)?;
    check_end(rest)?;
    Ok(UserRow {
        name: FieldText::copied(alloc, name)?,
        salt: tail.salt,
        digest: tail.digest,
        good: tail.good,
        bad: tail.bad,
        items: tail.items,
    })
}

#[tactic(auto, using(crate::proofs::Sizes::user_short), unfolding(crate::specs::Spelling::user_bytes))]
fn write_user(out: &mut Vec<u8>, user: &UserRow) -> Result<(), OutOfMemory>
    requires { is_user user.now ≡ true }
    ensures { OnOk result (out.new.items ≡ out.old.items ++ user_bytes user.now) }
{
    write_text(out, user.name.as_slice())?;
    out.extend_from_slice(&user.salt)?;
    out.extend_from_slice(&user.digest)?;
    write_u32(out, user.good)?;
    write_u32(out, user.bad)?;
    write_u32(out, user.items)?;
    Ok(())
}

impl TableRow for UserRow {
    ghost spelled = { user_of };

    ghost spelling = { user_bytes };

    ghost is_within = { is_user };

    fn decode(alloc: Global, bytes: &[u8]) -> Result<Option<UserRow>, OutOfMemory> {
        bytes_are_in_range(bytes);
        let found = found(read_user(alloc, bytes))?;
        Ok(found)
    }

    #[tactic(auto, using(crate::proofs::Sizes::user_short))]
    fn encode(&self, alloc: Global) -> Result<RowBytes, OutOfMemory> {
        let mut out = Vec::with_capacity(alloc, USER_BYTES + self.name.len())?;
        write_user(&mut out, self)?;
        user_is_in_range(self);
        users_are_exact();
        Ok(RowBytes::from_vec(out))
    }
}
