//! What a seller offers.

use std::marker::Model;

/// An item as its seller offers it. Amounts are in cents.
#[derive(Drop)]
pub struct Offer<'a> {
    /// In UTF-8.
    pub title: &'a [u8],
    /// The number of its category.
    pub category: u32,
    /// The least amount that may be bid.
    pub start: u64,
    /// For what it is sold at once, or 0 where it is not.
    pub buy_now: u64,
    /// How many hours its auction runs.
    pub hours: u32,
}

impl<'a> Model for Offer<'a> {
    ghost use Rattle.auction_site.specs.Outcomes.{Offer};

    ghost Value = { Rattle.auction_site.specs.Outcomes.Offer };

    ghost view = { λ o. record {
      title = o.title.now;
      category = o.category;
      start = o.start;
      buy_now = o.buy_now;
      hours = o.hours;
    } };
}
