//! The wheel.

ghost use Rattle.std.specs.Prelude.{◌≡◌, [], ◌∷◌, true, false, IfOk, OnErr, MatchOption, All};
ghost use Rattle.lease_wheel.specs.Leased.{Leased};
ghost use Rattle.lease_wheel.specs.Wheels.{named, with_leased, Stands, Leaves, is_due, AreInOrder};

use crate::lists::{Lists, first_due, pop_at, push_at, unlink_at};
use crash_base::{Moment, OutOfMemory, SessionKey, Version};
use lease_list::Node;
use std::alloc::Global;
use std::collections::BTreeMap;
use std::marker::Model;

/// What has a lease: a value of a session.
#[derive(Clone, Copy)]
pub struct WheelItem {
    /// Of which session it is.
    pub key: SessionKey,
    /// Which version of the session's value it is.
    pub version: Version,
}

/// The name of an item's node in a wheel. It owns nothing: the wheel has the item.
#[derive(Drop)]
pub struct WheelNode {
    expiry: Moment,
    node: Node<WheelItem>,
}

impl WheelNode {
    /// When the item's lease ends. It takes no memory.
    pub fn expiry(&self) -> Moment
        ensures { result ≡ self.now.expiry }
    {
        self.expiry
    }
}

/// Items in order of their expiry.
#[derive(Drop)]
pub struct LeaseWheel {
    lists: Lists,
    alloc: Global,
}

impl Model for LeaseWheel {
    ghost use Rattle.std.specs.Prelude.{List};
    ghost use Rattle.lease_wheel.specs.Leased.{Leased};

    ghost Value = { List Leased };

    ghost use Rattle.lease_wheel.specs.Lists.{leased_in, AreSound};

    ghost view = { λ w. leased_in w.lists.entries };

    ghost invariant = { λ w. AreSound w.lists.entries };
}

impl LeaseWheel {
    /// No items. It takes no memory.
    pub fn new(alloc: Global) -> LeaseWheel
        ensures { result ≡ [] }
    {
        LeaseWheel {
            lists: BTreeMap::new(alloc),
            alloc,
        }
    }

    /// One item more, behind those that end no later. Where memory runs out, the wheel is as it was.
    pub fn add(&mut self, expiry: Moment, item: WheelItem) -> Result<WheelNode, OutOfMemory>
        ensures ok { IfOk result (λ node. self.new ≡ with_leased (named node item) self.old) }
        ensures expiry { IfOk result (λ node. node.expiry ≡ expiry) }
        ensures ordered { AreInOrder self.new }
        ensures err { OnErr result (self.new ≡ self.old) }
    {
        let node = push_at(&mut self.lists, self.alloc, expiry.0, item)?;
        Ok(WheelNode { expiry, node })
    }

    /// Takes an item out by its name. It takes no memory.
    pub fn remove(&mut self, node: WheelNode) -> WheelItem
        requires { Stands self.old node }
        ensures item { Leaves self.old node result self.new }
        ensures ordered { AreInOrder self.old }
    {
        let WheelNode { expiry, node } = node;
        unlink_at(&mut self.lists, expiry.0, node)
    }

    /// Takes the first item out that is due at a moment: its expiry and 60,000 ms more (`SWEEP_GRACE`) are before it.
    /// None exactly where none is due. It takes no memory.
    pub fn pop_due(&mut self, moment: Moment) -> Option<WheelItem>
        ensures item { MatchOption result
            (All (λ d. is_due moment d ≡ false) self.old × (self.new ≡ self.old))
            (λ item. (d : Leased) × (self.old ≡ d ∷ self.new) × (d.item ≡ item) × (is_due moment d ≡ true)) }
        ensures ordered { AreInOrder self.old }
    {
        match first_due(&self.lists, moment) {
            Some(expiry) => Some(pop_at(&mut self.lists, expiry)),
            None => None,
        }
    }

    /// Takes all items out. It takes no memory.
    pub fn clear(&mut self)
        ensures { self.new ≡ [] }
    {
        self.lists.clear();
    }
}
