//! The items of a category, by pages.

ghost use Rattle.std.specs.Prelude.{◌≡◌, ◌≤◌, ◌+◌, ◌-◌, ◌*◌, min, IfOk};
ghost use Rattle.action_plans.specs.Plans.{HasCome, walk};
ghost use Rattle.auction_site.specs.declared.limits.TheConstants.{LAST_NUMBER, PAGE_ITEMS};
ghost use Rattle.auction_site.specs.Numbers.{count_up};
ghost use Rattle.auction_site.specs.Outcomes.{category_shown};
ghost use Rattle.auction_site.specs.Pieces.{asks_each};
ghost use Rattle.auction_site.specs.Planned.{browse_plan, entry_link_plan};

use action_plans::{Outcome, Reads, Stop};
use auction_pieces::{answered, asks_counter, asks_row, priced_link, shows};
use auction_rows::{
    CategoryRow, EntryRow, ItemRow, category_counter, category_id, entry_id, item_id,
};
use auction_site::PAGE_ITEMS;
use crash_base::OutOfMemory;
use page_text::{PageLine, PageLineList};
use std::alloc::Global;

/// The number of the first entry on a page.
fn first_entry(page: u32) -> u32
    requires { page ≤ 9999 }
    ensures { result ≡ PAGE_ITEMS * page + 1 }
{
    (PAGE_ITEMS * u64::from(page) + 1) as u32
}

/// How many of so many entries are on a page.
fn entries_on(page: u32, entries: u64) -> u32
    ensures { result ≡ min PAGE_ITEMS (entries - PAGE_ITEMS * page) }
{
    let before = PAGE_ITEMS * u64::from(page);
    entries.saturating_sub(before).min(PAGE_ITEMS) as u32
}

/// The link of an entry of a category. It reads two rows.
fn entry_link(
    alloc: Global,
    category: u32,
    number: u32,
    reads: &mut Reads<'_>,
) -> Result<PageLine, Stop>
    ensures { HasCome result reads.new (walk (entry_link_plan category number) reads.old) }
{
    let entry = asks_row::<EntryRow>(alloc, reads, entry_id(category, number))?;
    let item = asks_row::<ItemRow>(alloc, reads, item_id(entry.item))?;
    let link = priced_link(alloc, entry.item, item)?;
    Ok(link)
}

/// The links of so many entries of a category, from the first up. It reads two rows for each.
fn entry_links(
    alloc: Global,
    category: u32,
    first: u32,
    count: u32,
    reads: &mut Reads<'_>,
) -> Result<PageLineList, Stop>
    requires { first + count ≤ LAST_NUMBER }
    ensures { HasCome result reads.new
        (walk (asks_each (entry_link_plan category) (count_up first count)) reads.old) }
{
    let mut links = PageLineList::new(alloc);
    for number in first..first + count {
        let link = entry_link(alloc, category, number, reads)?;
        links.push(link)?;
    }
    Ok(links)
}

/// The page of these links.
fn category_shown(
    alloc: Global,
    category: &CategoryRow,
    links: &PageLineList,
) -> Result<Outcome, OutOfMemory>
    ensures { IfOk result (λ outcome. outcome ≡ category_shown category.now links.now) }
{
    let done = shows(alloc, 200, category.name.as_slice(), links)?;
    Ok(answered(alloc, done))
}

/// The items of a category that are on a page: as far as these reads bring it. It reads at most 34 rows: the
/// category, its counter, and two for each of 16 entries. It writes none.
pub fn browse(
    alloc: Global,
    category: u32,
    page: u32,
    reads: &mut Reads<'_>,
) -> Result<Outcome, Stop>
    requires { page ≤ 9999 }
    ensures { HasCome result reads.new (walk (browse_plan category page) reads.old) }
{
    let found = asks_row::<CategoryRow>(alloc, reads, category_id(category))?;
    let entries = asks_counter(alloc, reads, category_counter(category))?;
    let first = first_entry(page);
    let links = entry_links(alloc, category, first, entries_on(page, entries), reads)?;
    let outcome = category_shown(alloc, &found, &links)?;
    Ok(outcome)
}
