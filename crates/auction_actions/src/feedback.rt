//! Feedback on sales.

ghost use Rattle.std.specs.Prelude.{◌≡◌, ◌<◌, ◌+◌, nat_le, [], ◌∷◌, ◌++◌, true, IfOk, OnOk};
ghost use Rattle.action_plans.specs.Plans.{HasCome, walk};
ghost use Rattle.auction_calls.specs.Calls.{is_text};
ghost use Rattle.auction_rows.specs.Bounds.{is_item, is_user};
ghost use Rattle.auction_rows.specs.Ids.{feedback_id, item_id, user_id};
ghost use Rattle.auction_rows.specs.Spelling.{feedback_bytes, item_bytes, user_bytes};
ghost use Rattle.auction_site.specs.Outcomes.{row, feedback_given, with_feedback, with_given};
ghost use Rattle.auction_site.specs.Planned.{give_feedback_plan};
ghost use Rattle.auction_site.specs.declared.limits.TheConstants.{LAST_FEEDBACK};

use action_plans::{Outcome, Reads, Stop};
use auction_pieces::{asks_row, refuses_by, refuses_if, says, write_row};
use auction_rows::{FeedbackRow, ItemRow, UserRow, feedback_id, item_id, user_id};
use auction_rules::{feedback_refusal, other_side};
use auction_site::LAST_FEEDBACK;
use crash_base::{FieldText, OutOfMemory, WriteList};
use std::alloc::Global;

/// The user with one feedback more.
fn with_feedback(mut user: UserRow, good: bool) -> UserRow
    requires { user.good + user.bad < LAST_FEEDBACK }
    ensures { result ≡ with_feedback user good }
{
    if good {
        user.good += 1;
    } else {
        user.bad += 1;
    }
    user
}

/// The item after feedback of a user.
fn with_given(mut item: ItemRow, user: u32) -> ItemRow
    ensures { result ≡ with_given item user }
{
    if item.buyer == user {
        item.given.by_buyer = true;
    } else {
        item.given.by_seller = true;
    }
    item
}

/// Whether a user has had the last feedback.
fn has_last_feedback(user: &UserRow) -> bool
    ensures { result ≡ nat_le LAST_FEEDBACK (user.now.good + user.now.bad) }
{
    u64::from(user.good) + u64::from(user.bad) >= LAST_FEEDBACK
}

/// Adds the next feedback about a user to the rows that are written.
#[tactic(auto, using(auction_site::proofs::Bounds::feedback_is))]
fn write_feedback(
    alloc: Global,
    writes: &mut WriteList,
    about: u32,
    n: u32,
    from: u32,
    item: u32,
    good: bool,
    text: &FieldText,
) -> Result<(), OutOfMemory>
    requires { is_text 0 200 text.now ≡ true }
    ensures { OnOk result (writes.new ≡ writes.old ++ row (feedback_id about n)
        (feedback_bytes (record { from = from; item = item; good = good; text = text.now })) ∷ []) }
{
    let text = FieldText::copied(alloc, text.as_slice())?;
    let feedback = FeedbackRow {
        from,
        item,
        good,
        text,
    };
    write_row(alloc, writes, feedback_id(about, n), &feedback)
}

/// Adds the user whom feedback is about to the rows that are written.
#[tactic(auto, using(auction_site::proofs::Bounds::with_feedback_is))]
fn write_about(
    alloc: Global,
    writes: &mut WriteList,
    number: u32,
    good: bool,
    about: UserRow,
) -> Result<(), OutOfMemory>
    requires about { is_user about ≡ true }
    requires room { about.good + about.bad < LAST_FEEDBACK }
    ensures { OnOk result (writes.new ≡ writes.old
        ++ row (user_id number) (user_bytes (with_feedback about good)) ∷ []) }
{
    let about = with_feedback(about, good);
    write_row(alloc, writes, user_id(number), &about)
}

/// Adds the item that feedback was given on to the rows that are written.
#[tactic(auto, using(auction_site::proofs::Bounds::with_given_is))]
fn write_given(
    alloc: Global,
    writes: &mut WriteList,
    number: u32,
    from: u32,
    item: ItemRow,
) -> Result<(), OutOfMemory>
    requires { is_item item ≡ true }
    ensures { OnOk result (writes.new ≡ writes.old
        ++ row (item_id number) (item_bytes (with_given item from)) ∷ []) }
{
    let item = with_given(item, from);
    write_row(alloc, writes, item_id(number), &item)
}

/// Feedback about the other side of the sale.
#[tactic(auto, unfolding(auction_site::specs::Outcomes::feedback_given))]
fn feedback_given(
    alloc: Global,
    from: u32,
    number: u32,
    good: bool,
    text: &FieldText,
    item: ItemRow,
    about: UserRow,
) -> Result<Outcome, OutOfMemory>
    requires text { is_text 0 200 text.now ≡ true }
    requires item { is_item item ≡ true }
    requires about { is_user about ≡ true }
    requires room { about.good + about.bad < LAST_FEEDBACK }
    ensures { IfOk result (λ outcome. outcome ≡ feedback_given from number good text.now item about) }
{
    let other = other_side(&item, from);
    let n = about.good + about.bad + 1;
    let mut writes = WriteList::new(alloc);
    write_feedback(alloc, &mut writes, other, n, from, number, good, text)?;
    write_about(alloc, &mut writes, other, good, about)?;
    write_given(alloc, &mut writes, number, from, item)?;
    let done = says(alloc, 200, b"Thanks")?;
    Ok(Outcome { writes, done })
}

/// Feedback on a sale: as far as these reads bring it. It reads two rows, and writes three. The text
/// is copied once.
#[tactic(auto, unfolding(auction_site::specs::Planned::give_feedback_plan))]
pub fn give_feedback(
    alloc: Global,
    user: u32,
    number: u32,
    good: bool,
    text: &FieldText,
    reads: &mut Reads<'_>,
) -> Result<Outcome, Stop>
    requires { is_text 0 200 text.now ≡ true }
    ensures { HasCome result reads.new (walk (give_feedback_plan user number good text.now) reads.old) }
{
    refuses_if(alloc, user == 0, 403, b"Sign in first")?;
    let item = asks_row::<ItemRow>(alloc, reads, item_id(number))?;
    refuses_by(alloc, feedback_refusal(&item, user))?;
    let about = asks_row::<UserRow>(alloc, reads, user_id(other_side(&item, user)))?;
    refuses_if(alloc, has_last_feedback(&about), 409, b"No more numbers")?;
    let outcome = feedback_given(alloc, user, number, good, text, item, about)?;
    Ok(outcome)
}
