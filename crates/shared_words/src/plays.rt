//! What each kind of step tells.

ghost use Rattle.std.specs.Prelude.{ℕ, ◌+◌, ◌-◌, [], ◌++◌, max, false};
ghost use Rattle.shared_words.specs.Rule.{Sees, Draws, Looks, Raises, Compares};

use crate::view::View;
use atomic_table::{Join, Play, Split};
use std::marker::{Brand, PhantomData};

/// How many parts are cut off, or how many there are.
pub trait Count {
    ghost count: { ℕ };
}

impl Count for Brand {
    ghost count = { 1 };
}

/// The serial word is looked at, of words with that many parts.
pub struct Seeing<C: Count>(PhantomData<C>);

impl<C: Count> Play<(), View> for Seeing<C> {
    ghost then = { λ st m r n. Sees C.count st m r n };
}

/// A serial number is drawn.
pub struct Drawing<C: Count>(PhantomData<C>);

impl<C: Count> Play<(), View> for Drawing<C> {
    ghost then = { λ st m r n. Draws C.count st m r n };
}

/// A generation is looked at.
pub struct Looking<C: Count>(PhantomData<C>);

impl<C: Count> Play<(), View> for Looking<C> {
    ghost then = { λ st m r n. Looks C.count st m r n };
}

/// A generation is raised.
pub struct Raising<C: Count>(PhantomData<C>);

impl<C: Count> Play<(), View> for Raising<C> {
    ghost then = { λ st m r n. Raises C.count st m r n };
}

/// The serial word is looked at by a seat that draws nothing, to learn that its numbers differ.
pub struct Comparing;

impl Play<(), View> for Comparing {
    ghost then = { Compares };
}

/// Parts are cut off. The new seat has seen as much, and has drawn nothing.
pub struct Cut<C: Count>(PhantomData<C>);

impl<C: Count> Split<View> for Cut<C> {
    ghost left = { λ v. record v { parts = v.parts - C.count } };

    ghost right = { λ v. record v { parts = C.count; drawn = [] } };
}

/// The parts of another seat are added, with what it has drawn and seen.
pub struct Sum;

impl Join<View> for Sum {
    ghost both = { λ v w. record v { parts = v.parts + w.parts; drawn = v.drawn ++ w.drawn; seen = max v.seen w.seen; sights = v.sights ++ w.sights } };

    ghost spent = { record { parts = 0; flying = false; drawn = []; seen = 0; sights = [] } };
}
