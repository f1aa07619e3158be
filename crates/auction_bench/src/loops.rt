//! The loops, and the shop that they go over.

ghost use Rattle.std.specs.Prelude.{◌<◌};

use crate::runs::{Tally, make};
use crate::shop_rows::ShopRows;
use auction_calls::Action;
use crash_base::{FieldText, OutOfMemory};
use std::alloc::Global;

/// How many users sell.
const SELLERS: u32 = 100;

/// How many categories there are.
const CATEGORIES: u32 = 20;

/// How many items there are, as many in each category.
const ITEMS: u32 = 10_000;

/// How many pages of 16 items a category fills.
const FULL_PAGES: u32 = 31;

/// The user who bids, who sells nothing.
const BIDDER: u32 = SELLERS + 1;

/// The least amount of the first bid, in cents.
const START: u64 = 100;

/// The text of a word and a number.
fn numbered(alloc: Global, word: &str, number: u32) -> Result<FieldText, OutOfMemory> {
    Ok(FieldText::from_vec(format!(in alloc; "{word}{number}")?.into_bytes()))
}

/// A seller who registers.
fn register(alloc: Global, number: u32) -> Result<Action, OutOfMemory> {
    Ok(Action::Register {
        name: numbered(alloc, "seller", number)?,
        password: numbered(alloc, "secret", number)?,
    })
}

/// A category more.
fn add_category(alloc: Global, number: u32) -> Result<Action, OutOfMemory> {
    Ok(Action::AddCategory {
        name: numbered(alloc, "Category ", number)?,
    })
}

/// An item that is offered.
fn sell(alloc: Global, number: u32) -> Result<Action, OutOfMemory> {
    Ok(Action::Sell {
        title: numbered(alloc, "Item of the shop, number ", number)?,
        category: number % CATEGORIES + 1,
        start: START,
        buy_now: 0,
        hours: 720,
    })
}

/// A shop with its sellers, categories and items, made by the actions that make them.
fn filled_shop(alloc: Global) -> Result<ShopRows, OutOfMemory> {
    let mut rows = ShopRows::new(alloc);
    let mut tally = Tally::new();
    for number in 0..SELLERS {
        make(alloc, &mut rows, 0, register(alloc, number)?, &mut tally)?;
    }
    for number in 0..CATEGORIES {
        make(
            alloc,
            &mut rows,
            1,
            add_category(alloc, number)?,
            &mut tally,
        )?;
    }
    for number in 0..ITEMS {
        let seller = number % SELLERS + 1;
        make(alloc, &mut rows, seller, sell(alloc, number)?, &mut tally)?;
    }
    Ok(rows)
}

/// The number after this one of those that look random.
fn next(state: u64) -> u64 {
    state
        .wrapping_mul(6_364_136_223_846_793_005)
        .wrapping_add(1_442_695_040_888_963_407)
}

/// A number below a bound, by a number that looks random.
fn below(state: u64, bound: u32) -> u32
    requires { 0 < bound }
    ensures { result < bound }
{
    ((state >> 33) % u64::from(bound)) as u32
}

/// Makes `count` bids, each above all that were made before.
pub(crate) fn bids(alloc: Global, count: u64) -> Result<Tally, OutOfMemory> {
    let mut rows = filled_shop(alloc)?;
    let mut tally = Tally::new();
    let mut state: u64 = 1;
    for round in 0..count {
        state = next(state);
        let bid = Action::Bid {
            item: below(state, ITEMS) + 1,
            amount: START.wrapping_add(round),
        };
        make(alloc, &mut rows, BIDDER, bid, &mut tally)?;
    }
    Ok(tally)
}

/// Browses full pages `count` times.
pub(crate) fn browses(alloc: Global, count: u64) -> Result<Tally, OutOfMemory> {
    let mut rows = filled_shop(alloc)?;
    let mut tally = Tally::new();
    let mut state: u64 = 1;
    for _ in 0..count {
        state = next(state);
        let page = below(state, FULL_PAGES);
        state = next(state);
        let browse = Action::Browse {
            category: below(state, CATEGORIES) + 1,
            page,
        };
        make(alloc, &mut rows, BIDDER, browse, &mut tally)?;
    }
    Ok(tally)
}
