//! The list, which frees its nodes.

ghost use Rattle.std.specs.Prelude.{◌≡◌, ℕ, ◌+◌, List as Seq, [], ◌∷◌, ◌++◌, MatchOption, MatchResult, IsTrue, ◌↔◌};
ghost use denote.RawPtr.{Ptr};
ghost use Rattle.lease_list.specs.Leases.{Lease, lease, Stands, Leaves, HasValue, rises};

use crate::links::{Links, Node};
use std::alloc::Global;
use std::marker::Model;
use std_alloc::room::Vacant;

/// A doubly linked list of values, each in a node of its own. It takes memory at each push alone.
pub struct LeaseList<T> {
    links: Links<T>,
    alloc: Global,
}

impl<T> Model for LeaseList<T> {
    ghost use Rattle.lease_list.specs.Leases.{LeaseListValue};

    ghost Value = { LeaseListValue T };

    ghost use Rattle.std.specs.Prelude.{IsTrue};
    ghost use Rattle.lease_list.specs.Leases.{list_value, rises};

    ghost view = { λ l. list_value l.links.nodes l.links.next };

    ghost invariant = { λ l. IsTrue (rises l.links.next l.links.nodes) };
}

impl<T> LeaseList<T> {
    /// The empty list. It takes no memory.
    pub fn new(alloc: Global) -> LeaseList<T>
        ensures nodes { result.nodes ≡ [] }
        ensures next { result.next ≡ 0 }
    {
        LeaseList {
            links: Links::new(),
            alloc,
        }
    }

    /// One value more, in a node at the end, by whose name it is found and taken out. Err is want of
    /// memory: the value comes back, and the list is as it was.
    pub fn push_back(&mut self, value: T) -> Result<Node<T>, T>
        ensures node { MatchResult result
            (λ node. (node.number ≡ self.old.next)
            × (self.new.next ≡ self.old.next + 1)
            × (self.new.nodes ≡ self.old.nodes ++ lease node.number node.at value ∷ []))
            (λ back. (back ≡ value) × (self.new ≡ self.old)) }
        ensures rising { IsTrue (rises self.new.next self.new.nodes) }
    {
        match Vacant::take(self.alloc) {
            Ok(room) => Ok(self.links.push_back(room, value)),
            Err(_) => Err(value),
        }
    }

    /// Takes a node out, wherever it stands. It visits no other node than the two beside it, and takes
    /// no memory.
    pub fn unlink(&mut self, node: Node<T>) -> T
        requires { Stands self.old.nodes node.number node.at }
        ensures next { self.new.next ≡ self.old.next }
        ensures nodes { Leaves self.old.nodes node.number node.at result self.new.nodes }
        ensures rising { IsTrue (rises self.new.next self.new.nodes) }
    {
        let (value, room) = self.links.unlink(node, self.alloc);
        room.free();
        value
    }

    /// Takes the first node out; None exactly where there is none. It takes no memory.
    pub fn pop_front(&mut self) -> Option<T>
        ensures next { self.new.next ≡ self.old.next }
        ensures nodes { MatchOption result
            ((self.old.nodes ≡ []) × (self.new ≡ self.old))
            (λ v. (k : ℕ) × (p : Ptr) × (self.old.nodes ≡ lease k p v ∷ self.new.nodes)) }
        ensures rising { IsTrue (rises self.new.next self.new.nodes) }
    {
        match self.links.first() {
            Some(node) => Some(self.unlink(node)),
            None => None,
        }
    }

    /// Whether there is no node. It takes no memory.
    pub fn is_empty(&mut self) -> bool
        ensures same { self.new ≡ self.old }
        ensures empty { IsTrue result ↔ (self.old.nodes ≡ []) }
    {
        self.links.first().is_none()
    }

    /// The value of a node.
    pub fn value(&self, node: &Node<T>) -> &T
        requires { Stands self.now.nodes node.now.number node.now.at }
        ensures { HasValue self.now.nodes node.now.number node.now.at result.now }
    {
        self.links.value(node)
    }
}

impl<T: Drop> Drop for LeaseList<T> {
    fn drop(mut self) {
        while let Some(value) = self.pop_front() {
            drop(value);
        }
        let LeaseList { links, alloc: _ } = self;
        drop(links);
    }
}
