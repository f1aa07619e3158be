//! The page of an item.

ghost use Rattle.std.specs.Prelude.{◌≡◌, [], ◌∷◌, ◌++◌, codes, IfOk};
ghost use Rattle.std.specs.Fmt.{decimal};
ghost use Rattle.action_plans.specs.Plans.{HasCome, walk};
ghost use Rattle.auction_site.specs.Outcomes.{item_shown, price, state_text};
ghost use Rattle.auction_site.specs.Planned.{show_item_plan};

use action_plans::{Outcome, Reads, Stop};
use auction_pieces::{answered, asks_row, numbered_text, price, shows};
use auction_rows::{ItemRow, ItemState, UserRow, item_id, user_id};
use crash_base::{FieldText, OutOfMemory};
use page_text::{PageLine, PageLineList};
use std::alloc::Global;

/// The price of an item, behind its word.
fn price_text(alloc: Global, item: &ItemRow) -> Result<FieldText, OutOfMemory>
    ensures { IfOk result (λ text. text ≡ codes "Price " ++ decimal (price item.now)) }
{
    numbered_text(alloc, "Price ", price(item))
}

/// What has become of an item.
fn state_text(alloc: Global, item: &ItemRow) -> Result<FieldText, OutOfMemory>
    ensures { IfOk result (λ text. text ≡ state_text item.now) }
{
    match item.state {
        ItemState::Running => numbered_text(alloc, "Running until ", item.ends.0),
        ItemState::Closed => FieldText::copied(alloc, b"Closed"),
        ItemState::Sold => numbered_text(alloc, "Sold to user ", u64::from(item.buyer)),
    }
}

/// The name of a seller, behind its word.
fn seller_text(alloc: Global, seller: &UserRow) -> Result<FieldText, OutOfMemory>
    ensures { IfOk result (λ text. text ≡ codes "Seller " ++ seller.now.name) }
{
    let mut text = Vec::new(alloc);
    text.extend_from_slice(b"Seller ")?;
    text.extend_from_slice(seller.name.as_slice())?;
    Ok(FieldText::from_vec(text))
}

/// An item: its seller, its price, and what has become of it.
fn item_shown(alloc: Global, item: &ItemRow, seller: &UserRow) -> Result<Outcome, OutOfMemory>
    ensures { IfOk result (λ outcome. outcome ≡ item_shown item.now seller.now) }
{
    let mut lines = PageLineList::new(alloc);
    lines.push(PageLine::Para {
        text: seller_text(alloc, seller)?,
    })?;
    lines.push(PageLine::Para {
        text: price_text(alloc, item)?,
    })?;
    lines.push(PageLine::Para {
        text: state_text(alloc, item)?,
    })?;
    let done = shows(alloc, 200, item.title.as_slice(), &lines)?;
    Ok(answered(alloc, done))
}

/// The page of an item: as far as these reads bring it. It reads two rows, and writes none.
pub fn show_item(alloc: Global, number: u32, reads: &mut Reads<'_>) -> Result<Outcome, Stop>
    ensures { HasCome result reads.new (walk (show_item_plan number) reads.old) }
{
    let item = asks_row::<ItemRow>(alloc, reads, item_id(number))?;
    let seller = asks_row::<UserRow>(alloc, reads, user_id(item.seller))?;
    let outcome = item_shown(alloc, &item, &seller)?;
    Ok(outcome)
}
