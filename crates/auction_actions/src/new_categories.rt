//! New categories.

ghost use Rattle.std.specs.Prelude.{◌≡◌, true, not, ◌==◌, IfOk};
ghost use Rattle.action_plans.specs.Plans.{HasCome, walk};
ghost use Rattle.auction_calls.specs.Calls.{is_text};
ghost use Rattle.auction_site.specs.Outcomes.{category_added};
ghost use Rattle.auction_site.specs.Planned.{add_category_plan};
ghost use Rattle.auction_site.specs.declared.limits.TheConstants.{CATEGORY_EDITOR};

use action_plans::{Outcome, Reads, Stop};
use auction_pieces::{
    asks_counter, is_last_number, refuses_if, says_number, write_counter, write_row,
};
use auction_rows::{CategoryRow, categories_counter, category_id};
use auction_site::CATEGORY_EDITOR;
use crash_base::{FieldText, OutOfMemory, WriteList};
use std::alloc::Global;

/// Whether a user is not the one who may add categories.
fn is_no_editor(user: u32) -> bool
    ensures { result ≡ not (user == CATEGORY_EDITOR) }
{
    user != CATEGORY_EDITOR
}

/// A category of this number.
#[tactic(auto, using(auction_site::proofs::Bounds::category_is), unfolding(auction_site::specs::Outcomes::category_added))]
fn category_added(alloc: Global, name: &[u8], number: u32) -> Result<Outcome, OutOfMemory>
    requires { is_text 1 40 name.now ≡ true }
    ensures { IfOk result (λ outcome. outcome ≡ category_added name.now number) }
{
    let category = CategoryRow {
        name: FieldText::copied(alloc, name)?,
    };
    let mut writes = WriteList::new(alloc);
    write_counter(alloc, &mut writes, categories_counter(), number)?;
    write_row(alloc, &mut writes, category_id(number), &category)?;
    let done = says_number(alloc, "Category ", number)?;
    Ok(Outcome { writes, done })
}

/// A category more: as far as these reads bring it. It reads one row, and writes two.
pub fn add_category(
    alloc: Global,
    user: u32,
    name: &[u8],
    reads: &mut Reads<'_>,
) -> Result<Outcome, Stop>
    requires { is_text 1 40 name.now ≡ true }
    ensures { HasCome result reads.new (walk (add_category_plan user name.now) reads.old) }
{
    refuses_if(alloc, user == 0, 403, b"Sign in first")?;
    refuses_if(alloc, is_no_editor(user), 403, b"Not allowed")?;
    let categories = asks_counter(alloc, reads, categories_counter())?;
    refuses_if(alloc, is_last_number(categories), 409, b"No more numbers")?;
    let outcome = category_added(alloc, name, categories as u32 + 1)?;
    Ok(outcome)
}
