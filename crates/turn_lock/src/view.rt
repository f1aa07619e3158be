//! What the rule of a lock's table knows of each seat. No value of a view is made.

ghost use Rattle.std.specs.Prelude.{ℕ, []};
ghost use Rattle.turn_lock.specs.Turns.{Kept};

use crate::chronicle::Chronicle;
use atomic_table::TableRule;
use std::collections::LinkedList;
use std::marker::PhantomData;
use std::snapshot::Snapshot;

/// Where a seat is.
#[derive(Clone, Copy)]
pub enum Stage {
    /// It has no ticket.
    Idle,
    /// It has a ticket, and its turn has not come as far as it knows.
    Waiting,
    /// It is its turn, and the value is out with it.
    Holding,
}

/// What a seat knows.
pub struct View<E> {
    /// How many of the lock's parts it has.
    pub parts: u64,
    pub stage: Stage,
    /// The ticket that it drew last.
    pub ticket: u64,
    /// The history that the value had when the seat last held it.
    pub seen: LinkedList<E>,
    /// Another beginning of the history, which a seat that was joined to this one had seen.
    pub beside: LinkedList<E>,
    /// The places in the history of the events that the seat added.
    pub own: LinkedList<u64>,
}

/// What a lock is made with.
pub struct About<T> {
    pub parts: u32,
    /// The value that it begins with.
    pub start: Snapshot<T>,
}

/// The rule.
pub struct TurnRule<T: Chronicle>(PhantomData<T>);

impl<T: Chronicle> TableRule<Option<T>, View<T::Event>, About<T>> for TurnRule<T> {
    ghost use Rattle.turn_lock.specs.declared.view.Stage.{Stage};

    ghost holds = { λ about s. Kept T.events about.parts s };

    ghost first = { λ about. record { parts = about.parts; stage = Stage.Idle; ticket = 0; seen = T.events about.start.value; beside = []; own = [] } };
}
