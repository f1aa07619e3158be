//! A connection that is served, with the items of its requests so far.

ghost use Rattle.std.specs.Prelude.{◌≡◌, ◌+◌, ◌<◌, ◌≤◌, ◌++◌, ◌∷◌, [], false, true, vec_len, vec_capacity, IfOk, OnErr, OnOk};
ghost use Rattle.auction_calls.specs.declared.action.ActionCall.{ActionCall};
ghost use Rattle.outcome_items.specs.declared.item.Item.{Item as ItemValue};
ghost use Rattle.shepherd.specs.Shepherds.{fresh, has_item, turn};
ghost use Rattle.shepherd.specs.Steps.{TakesItem};
ghost use Rattle.shepherd.specs.declared.shepherd.Stage.{Stage as StageValue};
ghost use Rattle.connection_server.specs.Turning.{heeded, is_inside};

use auction_actions::ActionProgram;
use crash_base::{Items, OutOfMemory};
use outcome_items::{Item, ItemList};
use shepherd::{Shepherd, ShepherdTurn};
use std::alloc::Global;

/// A connection that is served.
#[derive(Drop)]
pub(crate) struct Connection {
    /// There is room for one more at all times.
    pub items: Vec<Item>,
    /// Whether the container was found stopped when it was last held for the request that is open.
    pub stopped: bool,
    pub shepherd: Shepherd<ActionProgram>,
    ghost room: { vec_len items < vec_capacity items },
}

/// Whether the container is to be held next.
fn is_inside(turn: ShepherdTurn) -> bool
    ensures { result ≡ is_inside turn }
{
    match turn {
        ShepherdTurn::Inside => true,
        ShepherdTurn::Bytes
        | ShepherdTurn::Request
        | ShepherdTurn::Outside
        | ShepherdTurn::Windows
        | ShepherdTurn::Program
        | ShepherdTurn::Own
        | ShepherdTurn::Output
        | ShepherdTurn::Item
        | ShepherdTurn::Ended(_) => false,
    }
}

/// Adds the item of the request that is open into room that there is, where nothing is left to be done for it.
fn add_left(items: &mut Vec<Item>, shepherd: &mut Shepherd<ActionProgram>)
    requires { vec_len items.old < vec_capacity items.old }
    ensures none { has_item shepherd.old.stage ≡ false → items.new.items ≡ items.old.items }
    ensures left { has_item shepherd.old.stage ≡ true → (i : ItemValue) × (stage : StageValue ActionCall)
        × TakesItem shepherd.old.stage i stage × (items.new.items ≡ items.old.items ++ i ∷ []) }
{
    if shepherd.has_item() {
        items.push_reserved(shepherd.take_item());
    }
}

impl Connection {
    /// A connection of which nothing came yet.
    pub fn new(alloc: Global) -> Result<Connection, OutOfMemory>
        ensures { IfOk result (λ made. (made.shepherd ≡ fresh) × (made.items.items ≡ []) × (made.stopped ≡ false)) }
    {
        let items = Vec::with_capacity(alloc, 1)?;
        Ok(Connection {
            items,
            stopped: false,
            shepherd: Shepherd::new(alloc),
        })
    }

    /// Heeds whether the container was found stopped by a step of the request that is open, where that has left it.
    pub fn heed(&mut self, stopped: bool)
        ensures stopped { self.new.stopped ≡ heeded (turn self.old.shepherd) self.old.stopped stopped }
        ensures rest { (self.new.items.items ≡ self.old.items.items) × (self.new.shepherd ≡ self.old.shepherd) }
    {
        if !is_inside(self.shepherd.turn()) {
            self.stopped = stopped;
        }
    }

    /// Takes memory for two more items.
    pub fn reserve(&mut self) -> Result<(), OutOfMemory>
        ensures items { self.new.items.items ≡ self.old.items.items }
        ensures rest { (self.new.stopped ≡ self.old.stopped) × (self.new.shepherd ≡ self.old.shepherd) }
        ensures room { OnOk result (vec_len self.new.items + 2 ≤ vec_capacity self.new.items) }
    {
        self.items.reserve(2)?;
        Ok(())
    }

    /// Takes the item of the request that is open into room that there is.
    pub fn add_item(&mut self)
        requires item { has_item self.old.shepherd.stage ≡ true }
        requires room { vec_len self.old.items + 2 ≤ vec_capacity self.old.items }
        ensures stopped { self.new.stopped ≡ self.old.stopped }
        ensures item { (i : ItemValue) × TakesItem self.old.shepherd.stage i self.new.shepherd.stage
            × (self.new.items.items ≡ self.old.items.items ++ i ∷ [])
            × (self.new.shepherd ≡ record self.old.shepherd {
              front = i.holds.front;
              stage = self.new.shepherd.stage;
            }) }
    {
        let item = self.shepherd.take_item();
        self.items.push_reserved(item);
    }

    /// The items, with that of the request that is open, where nothing is left to be done for it.
    pub fn into_items(self) -> ItemList
        ensures none { has_item self.shepherd.stage ≡ false → result ≡ self.items.items }
        ensures left { has_item self.shepherd.stage ≡ true → (i : ItemValue) × (stage : StageValue ActionCall)
            × TakesItem self.shepherd.stage i stage × (result ≡ self.items.items ++ i ∷ []) }
    {
        let Connection {
            mut items,
            stopped: _,
            mut shepherd,
        } = self;
        add_left(&mut items, &mut shepherd);
        drop(shepherd);
        Items::from_vec(items)
    }
}
