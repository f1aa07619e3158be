//! The list of categories.

ghost use Rattle.std.specs.Prelude.{◌≡◌, IfOk};
ghost use Rattle.action_plans.specs.Plans.{Has, HasCome, walk};
ghost use Rattle.auction_site.specs.Outcomes.{categories_shown};
ghost use Rattle.auction_site.specs.Pieces.{asks_each};
ghost use Rattle.auction_site.specs.Planned.{categories_plan, category_link_plan};

use action_plans::{Outcome, Reads, Stop};
use auction_pieces::{answered, asks_table, category_link, decoded, shows};
use auction_rows::{CATEGORY_TABLE, CategoryRow, TableRow};
use crash_base::{OutOfMemory, RowWrite};
use page_text::{PageLine, PageLineList};
use std::alloc::Global;

/// The link of a row of a category.
fn row_link(alloc: Global, row: &RowWrite) -> Result<PageLine, Stop>
    ensures { Has result (category_link_plan row.now) }
{
    let found = CategoryRow::decode(alloc, row.bytes.as_slice())?;
    let category = decoded(alloc, row.id, found)?;
    let link = category_link(alloc, row.id.key, category)?;
    Ok(link)
}

/// The links of rows of categories.
fn row_links(alloc: Global, rows: &[RowWrite]) -> Result<PageLineList, Stop>
    ensures { Has result (asks_each category_link_plan rows.now) }
{
    let mut links = PageLineList::new(alloc);
    for row in rows {
        let link = row_link(alloc, row)?;
        links.push(link)?;
    }
    Ok(links)
}

/// The page of these links.
fn categories_shown(alloc: Global, links: &PageLineList) -> Result<Outcome, OutOfMemory>
    ensures { IfOk result (λ outcome. outcome ≡ categories_shown links.now) }
{
    let done = shows(alloc, 200, b"Categories", links)?;
    Ok(answered(alloc, done))
}

/// A link to each category: as far as these reads bring it. It lists one table, decodes each of its rows, and
/// writes none.
pub fn categories(alloc: Global, reads: &mut Reads<'_>) -> Result<Outcome, Stop>
    ensures { HasCome result reads.new (walk categories_plan reads.old) }
{
    let rows = asks_table(reads, CATEGORY_TABLE)?;
    let links = row_links(alloc, rows)?;
    let outcome = categories_shown(alloc, &links)?;
    Ok(outcome)
}
