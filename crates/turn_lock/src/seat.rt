//! A seat of a lock.

use crate::chronicle::Chronicle;
use crate::steps::TurnSeat;
use std::marker::Model;

/// The right to take the value of a lock. It has some of the lock's parts, at least one.
#[derive(Drop)]
pub struct Seat<T: Chronicle> {
    pub(crate) inner: TurnSeat<T>,
}

impl<T: Chronicle> Model for Seat<T> {
    ghost use Rattle.std.specs.Prelude.{◌≡◌, ◌<◌, [], ◌∷◌, None};
    ghost use Rattle.turn_lock.specs.Seats.{SeatValue};
    ghost use Rattle.turn_lock.specs.Turns.{is_out, IsSettled};

    ghost Value = { SeatValue T.Event };

    ghost view = { λ s. record { lock = s.inner.table_id; parts = s.inner.me.0.parts; holds = is_out s.inner.me.0.stage; seen = s.inner.me.0.seen; own = s.inner.me.0.own } };

    ghost invariant = { λ s. IsSettled s.inner.me };
}
