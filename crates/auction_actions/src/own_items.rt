//! The items that a user offers.

ghost use Rattle.std.specs.Prelude.{◌≡◌, ◌≤◌, min, IfOk};
ghost use Rattle.action_plans.specs.Plans.{HasCome, walk};
ghost use Rattle.auction_site.specs.declared.limits.TheConstants.{PAGE_ITEMS};
ghost use Rattle.auction_site.specs.Numbers.{count_down};
ghost use Rattle.auction_site.specs.Outcomes.{user_items_shown};
ghost use Rattle.auction_site.specs.Pieces.{asks_each};
ghost use Rattle.auction_site.specs.Planned.{own_item_link_plan, show_own_items_plan};

use action_plans::{Outcome, Reads, Stop};
use auction_pieces::{answered, asks_row, item_link, price, refuses_if, shows};
use auction_rows::{ItemRow, OwnItemRow, UserRow, item_id, own_item_id, user_id};
use auction_site::PAGE_ITEMS;
use crash_base::OutOfMemory;
use page_text::{PageLine, PageLineList};
use std::alloc::Global;

/// How many of so many own items are shown.
fn shown_items(items: u32) -> u32
    ensures { result ≡ min PAGE_ITEMS items }
{
    u64::from(items).min(PAGE_ITEMS) as u32
}

/// The link of an own item of a user. It reads two rows.
fn own_item_link(
    alloc: Global,
    user: u32,
    number: u32,
    reads: &mut Reads<'_>,
) -> Result<PageLine, Stop>
    ensures { HasCome result reads.new (walk (own_item_link_plan user number) reads.old) }
{
    let own = asks_row::<OwnItemRow>(alloc, reads, own_item_id(user, number))?;
    let item = asks_row::<ItemRow>(alloc, reads, item_id(own.item))?;
    let link = item_link(alloc, own.item, item)?;
    Ok(link)
}

/// The links of so many own items of a user, from the last down. It reads two rows for each.
fn own_item_links(
    alloc: Global,
    user: u32,
    last: u32,
    count: u32,
    reads: &mut Reads<'_>,
) -> Result<PageLineList, Stop>
    requires { count ≤ last }
    ensures { HasCome result reads.new
        (walk (asks_each (own_item_link_plan user) (count_down last count)) reads.old) }
{
    let mut links = PageLineList::new(alloc);
    for before in 0..count {
        let link = own_item_link(alloc, user, last - before, reads)?;
        links.push(link)?;
    }
    Ok(links)
}

/// The page of these links.
fn user_items_shown(
    alloc: Global,
    user: &UserRow,
    links: &PageLineList,
) -> Result<Outcome, OutOfMemory>
    ensures { IfOk result (λ outcome. outcome ≡ user_items_shown user.now links.now) }
{
    let done = shows(alloc, 200, user.name.as_slice(), links)?;
    Ok(answered(alloc, done))
}

/// The last 16 items that the user offered, the newest first: as far as these reads bring it. It reads at
/// most 33 rows: the user, and two for each of 16 items. It writes none.
pub fn show_own_items(alloc: Global, number: u32, reads: &mut Reads<'_>) -> Result<Outcome, Stop>
    ensures { HasCome result reads.new (walk (show_own_items_plan number) reads.old) }
{
    refuses_if(alloc, number == 0, 403, b"Sign in first")?;
    let user = asks_row::<UserRow>(alloc, reads, user_id(number))?;
    let count = shown_items(user.items);
    let links = own_item_links(alloc, number, user.items, count, reads)?;
    let outcome = user_items_shown(alloc, &user, &links)?;
    Ok(outcome)
}
