//! Idle instances in chains, one for each component.

ghost use Rattle.std.specs.Prelude.{◌≡◌, ◌≢◌, ◌<◌, ℕ, ◌+◌, ◌==◌, true, Some, None, IfSome, IfNone, length, slice_index_or};
ghost use Rattle.slab.specs.Slab.{get, slab_len, Updates};
ghost use Rattle.component_pool.specs.Chains.{AreChained, IsIdleAt, NoneIdle, IsDropped, linked_taken, linked_idle};

use crate::instance::Instance;
use crash_base::MAX_GROUPS;
use slab::Slab;

/// An instance, and the idle one of its component that is taken after it.
#[derive(Clone, Copy)]
pub(crate) struct Linked {
    pub(crate) instance: Instance,
    /// The key of an idle instance. None where there is none, and in an instance that is taken.
    pub(crate) next: Option<usize>,
}

impl Linked {
    /// An instance that is taken.
    pub(crate) fn taken(instance: Instance) -> Linked
        ensures { result ≡ linked_taken instance }
    {
        Linked {
            instance: Instance {
                is_taken: true,
                ..instance
            },
            next: None,
        }
    }

    /// An instance that is idle, with the one that is taken after it.
    pub(crate) fn idle(instance: Instance, next: Option<usize>) -> Linked
        ensures { result ≡ linked_idle instance next }
    {
        Linked {
            instance: Instance {
                is_taken: false,
                ..instance
            },
            next,
        }
    }
}

/// Takes the idle instance of a component that was given back last. The answer is its key, and None exactly where none
/// of the component is idle.
pub(crate) fn take_idle(
    slab: &mut Slab<Linked>,
    firsts: &mut [Option<usize>],
    c: u16,
) -> Option<usize>
    requires own { c < MAX_GROUPS }
    requires chained { AreChained slab.old.slots firsts.old }
    ensures taken { IfSome result (λ key. (l : Linked) × IsIdleAt slab.old.slots c key l
        × Updates slab.old slab.new key (Some (linked_taken l.instance))) }
    ensures none { IfNone result (NoneIdle slab.old.slots c × (slab.new ≡ slab.old)) }
    ensures chained { AreChained slab.new.slots firsts.new }
{
    match firsts[c as usize] {
        None => None,
        Some(key) => match slab.get_mut(key) {
            Some(linked) => {
                firsts[c as usize] = linked.next;
                *linked = Linked::taken(linked.instance);
                Some(key)
            }
            None => None,
        },
    }
}

/// Puts an instance that is taken back among the idle ones of its component.
pub(crate) fn put_back(
    slab: &mut Slab<Linked>,
    firsts: &mut [Option<usize>],
    key: usize,
    instance: Instance,
)
    requires own { instance.component.0 < MAX_GROUPS }
    requires found { (l : Linked) × (get slab.old key ≡ Some l) × (l.instance ≡ instance) }
    requires taken { instance.is_taken ≡ true }
    requires chained { AreChained slab.old.slots firsts.old }
    ensures idle { Updates slab.old slab.new key
        (Some (linked_idle instance (slice_index_or firsts.old instance.component.0 None))) }
    ensures chained { AreChained slab.new.slots firsts.new }
{
    let c = instance.component.0 as usize;
    match slab.get_mut(key) {
        Some(linked) => {
            *linked = Linked::idle(instance, firsts[c]);
            firsts[c] = Some(key);
        }
        None => {}
    }
}

/// Removes the idle instance of a component that was given back last. The answer is its key, and None exactly where
/// none of the component is idle.
fn remove_first(slab: &mut Slab<Linked>, firsts: &mut [Option<usize>], c: u16) -> Option<usize>
    requires own { c < MAX_GROUPS }
    requires chained { AreChained slab.old.slots firsts.old }
    ensures removed { IfSome result (λ key. (l : Linked) × IsIdleAt slab.old.slots c key l
        × Updates slab.old slab.new key None) }
    ensures fewer { IfSome result (λ _. slab_len slab.new + 1 ≡ slab_len slab.old) }
    ensures none { IfNone result (NoneIdle slab.old.slots c × (slab.new ≡ slab.old)) }
    ensures chained { AreChained slab.new.slots firsts.new }
{
    match firsts[c as usize] {
        None => None,
        Some(key) => match slab.try_remove(key) {
            Some(linked) => {
                firsts[c as usize] = linked.next;
                Some(key)
            }
            None => None,
        },
    }
}

/// Removes each idle instance of a component.
pub(crate) fn remove_idle(slab: &mut Slab<Linked>, firsts: &mut [Option<usize>], c: u16)
    requires own { c < MAX_GROUPS }
    requires chained { AreChained slab.old.slots firsts.old }
    ensures removed { (n : ℕ) → IsDropped slab.old.slots slab.new.slots c n }
    ensures none { NoneIdle slab.new.slots c }
    ensures chained { AreChained slab.new.slots firsts.new }
{
    'idle: while let Some(_key) = remove_first(slab, firsts, c) {}
}
