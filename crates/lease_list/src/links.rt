//! The nodes of a list and the pointers between them: the only file with raw pointers.

ghost use Rattle.std.specs.Prelude.{◌≡◌, ℕ, ◌+◌, IsTrue, List as Seq, [], ◌∷◌, ◌++◌, MatchOption};
ghost use base.Fml.{ftrue};
ghost use denote.RawPtr.{null_ptr};
ghost use Rattle.lease_list.specs.Leases.{Lease, lease, places, first_place, last_place, all_start, rises, Stands, Leaves, HasValue};
ghost use Rattle.lease_list.specs.Ownership.{list_owns, values_lent};

use std::alloc::Global;
use std::marker::Model;
use std::ptr::null_mut;
use std_alloc::room::Vacant;

/// A node: the pointers to the nodes before and after it, null where there is none, and its value.
pub(crate) struct LeaseNode<T> {
    prev: *mut LeaseNode<T>,
    next: *mut LeaseNode<T>,
    value: T,
}

/// The name of a node of one list. It owns nothing: the list has the node, and the value in it.
#[derive(Drop)]
pub struct Node<T> {
    at: *mut LeaseNode<T>,
    ghost number: { ℕ },
}

impl<T> Model for Node<T> {
    ghost also_owns = { λ _. ftrue };

    ghost also_shares = { λ _ _ _. ftrue };
}

unsafe impl<T> Send for Node<T> {}

unsafe impl<T> Sync for Node<T> {}

/// The nodes, which it owns: the pointers to the first and the last one, null where there is none.
pub(crate) struct Links<T> {
    head: *mut LeaseNode<T>,
    tail: *mut LeaseNode<T>,
    ghost nodes: { Seq (Lease T) },
    ghost next: { ℕ },
    ghost ends: { (head ≡ first_place (places nodes)) × (tail ≡ last_place null_ptr (places nodes)) },
    ghost starts: { IsTrue (all_start nodes) },
    ghost rising: { IsTrue (rises next nodes) },
}

impl<T> Model for Links<T> {
    ghost also_owns = { λ l. list_owns T.row l.tail l.nodes };

    ghost also_shares = { λ l _ κ. values_lent T.row l.nodes κ };
}

unsafe impl<T: Send> Send for Links<T> {}

unsafe impl<T: Sync> Sync for Links<T> {}

impl<T> Links<T> {
    /// No nodes.
    pub(crate) fn new() -> Links<T>
        ensures { (result.nodes ≡ []) × (result.next ≡ 0) }
    {
        Links {
            head: null_mut(),
            tail: null_mut(),
        }
    }

    /// One node more at the end, in this room.
    pub(crate) fn push_back(&mut self, room: Vacant<LeaseNode<T>, Global>, value: T) -> Node<T>
        ensures number { (result.number ≡ self.old.next) × (self.new.next ≡ self.old.next + 1) }
        ensures nodes { self.new.nodes ≡ self.old.nodes ++ lease result.number result.at value ∷ [] }
    {
        let Vacant { ptr, alloc: _ } = room;
        let tail = self.tail;
        unsafe {
            ptr.write(LeaseNode {
                prev: tail,
                next: null_mut(),
                value,
            });
            if tail.is_null() {
                self.head = ptr;
            } else {
                (*tail).next = ptr;
            }
        }
        self.tail = ptr;
        Node { at: ptr }
    }

    /// Takes a node out. Its room comes back with its value.
    pub(crate) fn unlink(
        &mut self,
        node: Node<T>,
        alloc: Global,
    ) -> (T, Vacant<LeaseNode<T>, Global>)
        requires { Stands self.old.nodes node.number node.at }
        ensures next { self.new.next ≡ self.old.next }
        ensures nodes { Leaves self.old.nodes node.number node.at result.0 self.new.nodes }
    {
        let ptr = node.at;
        unsafe {
            let prev = (*ptr).prev;
            let next = (*ptr).next;
            if prev.is_null() {
                self.head = next;
            } else {
                (*prev).next = next;
            }
            if next.is_null() {
                self.tail = prev;
            } else {
                (*next).prev = prev;
            }
            let value = (&raw const (*ptr).value).read();
            (value, Vacant { ptr, alloc })
        }
    }

    /// The name of the first node; None exactly where there is none. It changes nothing, and takes a `&mut` since a
    /// pointer may be compared with null where its block is owned.
    pub(crate) fn first(&mut self) -> Option<Node<T>>
        ensures same { self.new ≡ self.old }
        ensures node { MatchOption result (self.old.nodes ≡ []) (λ n. (v : T) × (rest : Seq (Lease T)) × (self.old.nodes ≡ lease n.number n.at v ∷ rest)) }
    {
        let head = self.head;
        if head.is_null() {
            None
        } else {
            Some(Node { at: head })
        }
    }

    /// The value of a node.
    pub(crate) fn value(&self, node: &Node<T>) -> &T
        requires { Stands self.now.nodes node.now.number node.now.at }
        ensures { HasValue self.now.nodes node.now.number node.now.at result.now }
    {
        unsafe { &(*node.at).value }
    }
}

impl<T> Drop for Links<T> {
    fn drop(self) {
        let Links { head: _, tail: _ } = self;
    }
}
