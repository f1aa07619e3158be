//! What each kind of step tells.

ghost use Rattle.std.specs.Prelude.{ℕ, ◌+◌, ◌-◌, [], ◌++◌};
ghost use Rattle.turn_lock.specs.Turns.{Draws, Looks, Compares, Goes, longer, shorter};

use crate::chronicle::Chronicle;
use crate::view::View;
use atomic_table::{Join, Play, Split};
use std::marker::{Brand, PhantomData};

/// A ticket is drawn.
pub struct Drawing<T: Chronicle>(PhantomData<T>);

impl<T: Chronicle> Play<Option<T>, View<T::Event>> for Drawing<T> {
    ghost then = { λ st m r n. Draws T.events st m r n };
}

/// The served ticket is looked at, by a seat that waits for its turn.
pub struct Looking<T: Chronicle>(PhantomData<T>);

impl<T: Chronicle> Play<Option<T>, View<T::Event>> for Looking<T> {
    ghost then = { λ st m r n. Looks T.events st m r n };
}

/// The served ticket is looked at without a ticket, to learn that what was seen begins with what is beside it.
pub struct Comparing<T: Chronicle>(PhantomData<T>);

impl<T: Chronicle> Play<Option<T>, View<T::Event>> for Comparing<T> {
    ghost then = { λ st m r n. Compares T.events st m r n };
}

/// The value goes home, with a history that has grown.
pub struct Giving<T: Chronicle>(PhantomData<T>);

impl<T: Chronicle> Play<Option<T>, View<T::Event>> for Giving<T> {
    ghost then = { λ st m r n. Goes T.events st m r n };
}

/// How many parts are cut off.
pub trait Count {
    ghost count: { ℕ };
}

impl Count for Brand {
    ghost count = { 1 };
}

/// Parts are cut off. The new seat has seen as much, and has added nothing.
pub struct Cut<C: Count>(PhantomData<C>);

impl<E, C: Count> Split<View<E>> for Cut<C> {
    ghost left = { λ v. record v { parts = v.parts - C.count } };

    ghost right = { λ v. record v { parts = C.count; own = [] } };
}

/// The parts of another seat are added, with what it has seen and added.
pub struct Sum;

impl<E> Join<View<E>> for Sum {
    ghost use Rattle.turn_lock.specs.declared.view.Stage.{Stage};

    ghost both = { λ v w. record v { parts = v.parts + w.parts; seen = longer v.seen w.seen; beside = shorter v.seen w.seen; own = v.own ++ w.own } };

    ghost spent = { record { parts = 0; stage = Stage.Idle; ticket = 0; seen = []; beside = []; own = [] } };
}
