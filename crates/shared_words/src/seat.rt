//! A seat of some words.

use crate::steps::TableSeat;
use std::marker::Model;

/// The right to draw serial numbers and to look at generations. It has some of the words' parts, at least one.
#[derive(Drop)]
pub struct WordSeat {
    pub(crate) inner: TableSeat,
}

impl Model for WordSeat {
    ghost use Rattle.std.specs.Prelude.{◌≡◌, ◌<◌, [], false};
    ghost use Rattle.outside.specs.Serials.{AllDiffer};
    ghost use Rattle.shared_words.specs.Words.{WordSeatValue};

    ghost Value = { WordSeatValue };

    ghost view = { λ s. record { words = s.inner.table_id; parts = s.inner.me.0.parts; drawn = s.inner.me.0.drawn; seen = s.inner.me.0.seen; sights = s.inner.me.0.sights } };

    ghost invariant = { λ s. (0 < s.inner.me.0.parts) × (s.inner.me.0.flying ≡ false) × (s.inner.me.1 ≡ []) × AllDiffer s.inner.me.0.drawn };
}
