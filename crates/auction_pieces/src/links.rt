//! Links to categories and items, and the price of an item.

ghost use Rattle.std.specs.Prelude.{◌≡◌, ◌++◌, codes, IfOk};
ghost use Rattle.std.specs.Fmt.{decimal};
ghost use Rattle.auction_site.specs.Outcomes.{category_link, item_link, price, priced_link};

use crate::answers::numbered_text;
use auction_rows::{CategoryRow, ItemRow};
use crash_base::{FieldText, OutOfMemory};
use page_text::PageLine;
use std::alloc::Global;

/// What was bid most, or the least bid where nothing was bid.
pub fn price(item: &ItemRow) -> u64
    ensures { result ≡ price item.now }
{
    if item.best == 0 {
        item.start
    } else {
        item.best
    }
}

/// A link to a category.
pub fn category_link(
    alloc: Global,
    category: u64,
    found: CategoryRow,
) -> Result<PageLine, OutOfMemory>
    ensures { IfOk result (λ link. link ≡ category_link category found) }
{
    Ok(PageLine::Link {
        address: numbered_text(alloc, "/category/", category)?,
        text: found.name,
    })
}

/// Where an item is shown.
fn item_address(alloc: Global, number: u32) -> Result<FieldText, OutOfMemory>
    ensures { IfOk result (λ address. address ≡ codes "/item/" ++ decimal number) }
{
    numbered_text(alloc, "/item/", u64::from(number))
}

/// A link to an item.
pub fn item_link(alloc: Global, number: u32, item: ItemRow) -> Result<PageLine, OutOfMemory>
    ensures { IfOk result (λ link. link ≡ item_link number item) }
{
    let address = item_address(alloc, number)?;
    Ok(PageLine::Link {
        address,
        text: item.title,
    })
}

/// A title and a price.
fn priced_title(alloc: Global, title: FieldText, price: u64) -> Result<FieldText, OutOfMemory>
    ensures { IfOk result (λ text. text ≡ title ++ codes ", " ++ decimal price) }
{
    let after = numbered_text(alloc, ", ", price)?;
    let mut text = title.into_vec();
    text.extend_from_slice(after.as_slice())?;
    Ok(FieldText::from_vec(text))
}

/// A link to an item, with its price.
pub fn priced_link(alloc: Global, number: u32, item: ItemRow) -> Result<PageLine, OutOfMemory>
    ensures { IfOk result (λ link. link ≡ priced_link number item) }
{
    let price = price(&item);
    let address = item_address(alloc, number)?;
    let text = priced_title(alloc, item.title, price)?;
    Ok(PageLine::Link { address, text })
}
