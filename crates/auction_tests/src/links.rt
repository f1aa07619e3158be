//! Lines of pages that lead to categories and items.

use crate::words::{add_number, add_text, cut, expect_words, first_word, number};
use auction_pieces::{category_link, item_link, numbered_text, price, priced_link};
use auction_rows::{CategoryRow, GivenFeedback, ItemRow, ItemState};
use crash_base::{FieldText, Moment};
use page_text::PageLine;
use std::alloc::Global;
use std::process::Abort;

/// The piece, the start and the best bid of an item with the title `Lamp`, and the link. The first number is that of
/// the category `Lamps` for `category`, and the number of the text for `text`. A best bid is the price also where it is
/// below the start.
const LINKS: &str = "item 100 0|/item/4294967295 Lamp
priced 100 0|/item/4294967295 Lamp, 100
priced 100 250|/item/4294967295 Lamp, 250
priced 100 99|/item/4294967295 Lamp, 99
price 100 0|100
price 100 250|250
price 100 99|99
price 100 1|1
category 258 0|/category/258 Lamps
text 258 0|Bid 258";

fn item(rt: &impl Abort, alloc: Global, start: u64, best: u64) -> ItemRow {
    ItemRow {
        state: ItemState::Running,
        seller: 7,
        category: 1,
        start,
        buy_now: 0,
        best,
        best_bidder: 0,
        bids: 0,
        ends: Moment(1000),
        buyer: 0,
        given: GivenFeedback {
            by_buyer: false,
            by_seller: false,
        },
        title: FieldText::copied(alloc, b"Lamp").expect(rt, "a title"),
    }
}

fn add_link(rt: &impl Abort, words: &mut String, link: &PageLine) {
    if let PageLine::Link { address, text } = link {
        add_text(rt, words, address.as_slice());
        add_text(rt, words, text.as_slice());
    }
}

fn add_line(
    rt: &impl Abort,
    alloc: Global,
    words: &mut String,
    piece: &str,
    start: u64,
    best: u64,
) {
    let item = item(rt, alloc, start, best);
    let number = u32::MAX;
    match piece {
        "item" => add_link(rt, words, &item_link(alloc, number, item).expect(rt, piece)),
        "priced" => add_link(
            rt,
            words,
            &priced_link(alloc, number, item).expect(rt, piece),
        ),
        "price" => add_number(rt, words, price(&item)),
        "category" => {
            let name = FieldText::copied(alloc, b"Lamps").expect(rt, piece);
            let link = category_link(alloc, start, CategoryRow { name }).expect(rt, piece);
            add_link(rt, words, &link);
        }
        _ => {
            let text = numbered_text(alloc, "Bid ", start).expect(rt, piece);
            add_text(rt, words, text.as_slice());
        }
    }
}

fn expect_line(rt: &impl Abort, alloc: Global, row: &str) {
    let (asked, want) = cut(rt, row, '|');
    let (piece, rest) = first_word(asked);
    let (start, best) = cut(rt, rest, ' ');
    let mut words = String::new(alloc);
    add_line(
        rt,
        alloc,
        &mut words,
        piece,
        number(rt, start),
        number(rt, best),
    );
    expect_words(rt, &words, want, row);
}

#[test]
fn links_lead_to_categories_and_items(rt: HostRuntime) {
    for row in LINKS.split('\n') {
        expect_line(&rt, rt.alloc(), row);
    }
}
