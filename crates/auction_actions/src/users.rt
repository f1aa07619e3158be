//! Users: registering, signing in, and the page of a user.

ghost use Rattle.std.specs.Prelude.{◌≡◌, [], ◌∷◌, ◌++◌, true, codes, bytes_eq, not, nat_le, IfOk, OnOk};
ghost use Rattle.action_plans.specs.Plans.{HasCome, walk};
ghost use Rattle.auction_calls.specs.Calls.{is_user_name};
ghost use Rattle.auction_rows.specs.Ids.{name_id, user_id};
ghost use Rattle.auction_rows.specs.Reading.{name_of};
ghost use Rattle.auction_rows.specs.Spelling.{name_bytes, u64_bytes, user_bytes};
ghost use Rattle.auction_site.specs.Answers.{name_taken, shows_with_session};
ghost use Rattle.auction_site.specs.Outcomes.{digest_of, new_user, registered, row, signed_in, user_shown};
ghost use Rattle.auction_site.specs.Pieces.{asks_no_row};
ghost use Rattle.auction_site.specs.Planned.{register_plan, show_user_plan, sign_in_plan};

use action_plans::{Outcome, Reads, Stop};
use auction_pieces::{
    answered, asks_counter, asks_no_row, asks_row, asks_row_or, is_last_number, numbered_text,
    refuses_if, shows, shows_with_session, write_counter, write_row,
};
use auction_rows::{NameRow, UserRow, name_id, user_id, users_counter};
use crash_base::{FieldText, Moment, OutOfMemory, WriteList};
use journal_model::DoneText;
use page_text::{PageLine, PageLineList};
use sha2::{Digest, Sha256};
use std::alloc::Global;

/// The SHA-256 of a salt and a password.
fn digest_of(salt: &[u8], password: &[u8]) -> [u8; 32]
    ensures { result ≡ digest_of salt.now password.now }
{
    let mut digest = Sha256::new();
    digest.update(salt);
    digest.update(password);
    digest.finalize()
}

/// Whether a row is of another name.
fn has_other_name(found: &NameRow, name: &[u8]) -> bool
    ensures { result ≡ not (bytes_eq found.now.name name.now) }
{
    found.name.as_slice() != name
}

/// Whether a user has another password.
fn has_other_password(user: &UserRow, password: &[u8]) -> bool
    ensures { result ≡ not (bytes_eq (digest_of user.now.salt password.now) user.now.digest) }
{
    let digest = digest_of(user.salt.as_slice(), password);
    digest.as_slice() != user.digest.as_slice()
}

/// An answer that welcomes a user, whose session it becomes.
fn welcomes(alloc: Global, name: &[u8], now: Moment, user: u32) -> Result<DoneText, OutOfMemory>
    ensures { IfOk result (λ done. done ≡ shows_with_session user now.0 (codes "Welcome " ++ name.now) []) }
{
    let mut heading = Vec::new(alloc);
    heading.extend_from_slice(b"Welcome ")?;
    heading.extend_from_slice(name)?;
    shows_with_session(
        alloc,
        user,
        now,
        heading.as_slice(),
        &PageLineList::new(alloc),
    )
}

/// A user with no items, and no feedback yet.
#[tactic(auto, unfolding(auction_rows::specs::Spelling::u64_bytes))]
fn new_user(alloc: Global, name: &[u8], password: &[u8], fresh: u64) -> Result<UserRow, OutOfMemory>
    ensures { IfOk result (λ user. user ≡ new_user name.now password.now (u64_bytes fresh)) }
{
    let salt = fresh.to_be_bytes();
    Ok(UserRow {
        name: FieldText::copied(alloc, name)?,
        salt,
        digest: digest_of(salt.as_slice(), password),
        good: 0,
        bad: 0,
        items: 0,
    })
}

/// Adds a new user of this number to the rows that are written.
#[tactic(auto, using(auction_site::proofs::Bounds::new_user_is))]
fn write_new_user(
    alloc: Global,
    writes: &mut WriteList,
    number: u32,
    name: &[u8],
    password: &[u8],
    fresh: u64,
) -> Result<(), OutOfMemory>
    requires { is_user_name name.now ≡ true }
    ensures { OnOk result (writes.new ≡ writes.old
        ++ row (user_id number) (user_bytes (new_user name.now password.now (u64_bytes fresh))) ∷ []) }
{
    let user = new_user(alloc, name, password, fresh)?;
    write_row(alloc, writes, user_id(number), &user)
}

/// Adds the name of the user of this number to the rows that are written.
#[tactic(auto, using(auction_site::proofs::Bounds::name_is))]
fn write_name(
    alloc: Global,
    writes: &mut WriteList,
    number: u32,
    name: &[u8],
) -> Result<(), OutOfMemory>
    requires { is_user_name name.now ≡ true }
    ensures { OnOk result (writes.new ≡ writes.old
        ++ row (name_id name.now) (name_bytes (record { name = name.now; user = number })) ∷ []) }
{
    let named = NameRow {
        name: FieldText::copied(alloc, name)?,
        user: number,
    };
    write_row(alloc, writes, name_id(name), &named)
}

/// A user of this number, and the name of the user.
#[tactic(auto, unfolding(auction_site::specs::Outcomes::registered))]
fn registered(
    alloc: Global,
    name: &[u8],
    password: &[u8],
    fresh: u64,
    now: Moment,
    number: u32,
) -> Result<Outcome, OutOfMemory>
    requires { is_user_name name.now ≡ true }
    ensures { IfOk result (λ outcome. outcome ≡ registered name.now password.now fresh now.0 number) }
{
    let mut writes = WriteList::new(alloc);
    write_counter(alloc, &mut writes, users_counter(), number)?;
    write_new_user(alloc, &mut writes, number, name, password, fresh)?;
    write_name(alloc, &mut writes, number, name)?;
    let done = welcomes(alloc, name, now, number)?;
    Ok(Outcome { writes, done })
}

/// No row has the key of a name; refused where one has, also where it is of another name.
fn asks_free_name(alloc: Global, name: &[u8], reads: &mut Reads<'_>) -> Result<(), Stop>
    ensures { HasCome result reads.new
        (walk (asks_no_row name_of (name_id name.now) name_taken) reads.old) }
{
    asks_no_row::<NameRow>(alloc, reads, name_id(name), 409, b"Name taken")
}

/// A new user: as far as these reads bring it. It reads two rows, and writes three. The name is hashed, and after
/// the last read once more, and the password with its salt.
pub fn register(
    alloc: Global,
    name: &[u8],
    password: &[u8],
    fresh: u64,
    now: Moment,
    reads: &mut Reads<'_>,
) -> Result<Outcome, Stop>
    requires { is_user_name name.now ≡ true }
    ensures { HasCome result reads.new (walk (register_plan name.now password.now fresh now.0) reads.old) }
{
    asks_free_name(alloc, name, reads)?;
    let users = asks_counter(alloc, reads, users_counter())?;
    refuses_if(alloc, is_last_number(users), 409, b"No more numbers")?;
    let outcome = registered(alloc, name, password, fresh, now, users as u32 + 1)?;
    Ok(outcome)
}

/// The session of the user.
fn signed_in(alloc: Global, name: &[u8], now: Moment, user: u32) -> Result<Outcome, OutOfMemory>
    ensures { IfOk result (λ outcome. outcome ≡ signed_in name.now now.0 user) }
{
    let done = welcomes(alloc, name, now, user)?;
    Ok(answered(alloc, done))
}

/// The session of the user who has the name and the password: as far as these reads bring it. It reads
/// two rows, and writes none. The name is hashed, and after the last read the password with its salt.
pub fn sign_in(
    alloc: Global,
    name: &[u8],
    password: &[u8],
    now: Moment,
    reads: &mut Reads<'_>,
) -> Result<Outcome, Stop>
    ensures { HasCome result reads.new (walk (sign_in_plan name.now password.now now.0) reads.old) }
{
    let wrong = b"Wrong name or password";
    let found = asks_row_or::<NameRow>(alloc, reads, name_id(name), 403, wrong)?;
    refuses_if(alloc, has_other_name(&found, name), 403, wrong)?;
    let user = asks_row_or::<UserRow>(alloc, reads, user_id(found.user), 403, wrong)?;
    refuses_if(alloc, has_other_password(&user, password), 403, wrong)?;
    let outcome = signed_in(alloc, name, now, found.user)?;
    Ok(outcome)
}

/// The page of a user.
fn user_shown(alloc: Global, user: &UserRow) -> Result<Outcome, OutOfMemory>
    ensures { IfOk result (λ outcome. outcome ≡ user_shown user.now) }
{
    let mut lines = PageLineList::new(alloc);
    lines.push(PageLine::Para {
        text: numbered_text(alloc, "Good ", u64::from(user.good))?,
    })?;
    lines.push(PageLine::Para {
        text: numbered_text(alloc, "Bad ", u64::from(user.bad))?,
    })?;
    let done = shows(alloc, 200, user.name.as_slice(), &lines)?;
    Ok(answered(alloc, done))
}

/// The page of a user: as far as these reads bring it. It reads one row, and writes none.
pub fn show_user(alloc: Global, number: u32, reads: &mut Reads<'_>) -> Result<Outcome, Stop>
    ensures { HasCome result reads.new (walk (show_user_plan number) reads.old) }
{
    let user = asks_row::<UserRow>(alloc, reads, user_id(number))?;
    let outcome = user_shown(alloc, &user)?;
    Ok(outcome)
}
