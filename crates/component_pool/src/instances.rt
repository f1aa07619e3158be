//! The instances of a pool, taken and idle.

ghost use Rattle.std.specs.Prelude.{◌≡◌, ◌≢◌, ◌<◌, ℕ, ◌+◌, ◌==◌, ◌&&◌, List, [], Bool, true, false, Some, None, IfOk, OnOk, OnErr, is_some, count_by};
ghost use Rattle.slab.specs.Slab.{get, slab_len, Updates};
ghost use Rattle.component_pool.specs.Chains.{AreChained, no_firsts, shown};
ghost use Rattle.component_pool.specs.Instances.{HasTaken, has_taken, idle_of, instance_in, left_idle};

use crate::chains::{Linked, put_back, remove_idle, take_idle};
use crate::instance::Instance;
use crash_base::{ComponentNo, MAX_GROUPS, OutOfMemory};
use slab::Slab;
use std::alloc::Global;
use std::marker::Model;

/// Instances, each under a key that is its number.
#[derive(Drop)]
pub(crate) struct Instances {
    slab: Slab<Linked>,
    /// By the numbers of components, the key of the idle instance that is taken next.
    firsts: [Option<usize>; MAX_GROUPS as usize],
}

impl Model for Instances {
    ghost use Rattle.std.specs.Prelude.{List, Option};
    ghost use Rattle.component_pool.specs.declared.instance.Instance.{Instance};
    ghost use Rattle.component_pool.specs.Chains.{AreChained, shown};

    ghost Value = { List (Option Instance) };

    ghost view = { λ s. shown s.slab.slots };

    ghost invariant = { λ s. AreChained s.slab.slots s.firsts };
}

/// The chains of components without instances.
#[tactic(auto, unfolding(crate::specs::Chains::no_firsts))]
fn no_firsts() -> [Option<usize>; MAX_GROUPS as usize]
    ensures { result ≡ no_firsts }
{
    [None; MAX_GROUPS as usize]
}

/// Takes an idle instance of a component, or a new one of this generation where there is none.
fn take(
    slab: &mut Slab<Linked>,
    firsts: &mut [Option<usize>],
    c: ComponentNo,
    generation: u64,
) -> Result<usize, OutOfMemory>
    requires own { c.0 < MAX_GROUPS }
    requires present { (n : ℕ) (i : Instance) → instance_in (shown slab.old.slots) n ≡ Some i →
        i.is_taken ≡ false → i.component.0 ≡ c.0 → i.generation ≡ generation }
    requires chained { AreChained slab.old.slots firsts.old }
    ensures taken { IfOk result (λ n. HasTaken
        (shown slab.old.slots) (shown slab.new.slots) c generation n) }
    ensures refused { OnErr result (slab.new.slots ≡ slab.old.slots) }
    ensures wanted { OnErr result ((m : ℕ) →
        instance_in (shown slab.old.slots) m ≢ Some (idle_of c generation)) }
    ensures chained { AreChained slab.new.slots firsts.new }
{
    match take_idle(slab, firsts, c.0) {
        Some(key) => Ok(key),
        None => {
            let key = slab.insert(Linked::taken(Instance {
                component: c,
                generation,
                is_taken: true,
            }))?;
            Ok(key)
        }
    }
}

impl Instances {
    /// No instances. It takes no memory.
    pub(crate) fn new(alloc: Global) -> Instances
        ensures { result ≡ [] }
    {
        let slab = Slab::new(alloc);
        let firsts = no_firsts();
        Instances { slab, firsts }
    }

    /// How many there are, taken and idle.
    pub(crate) fn len(&self) -> usize
        ensures { result ≡ count_by is_some self.now }
    {
        self.slab.len()
    }

    /// The instance of a number. None exactly where there is none.
    pub(crate) fn get(&self, n: u64) -> Option<Instance>
        ensures { result ≡ instance_in self.now n }
    {
        self.slab.get(n as usize).map(|linked| linked.instance)
    }

    /// Takes an idle instance of a component, the one that was given back last, or a new one of this generation where
    /// there is none. It takes memory only for a new one.
    pub(crate) fn take(&mut self, c: ComponentNo, generation: u64) -> Result<usize, OutOfMemory>
        requires own { c.0 < MAX_GROUPS }
        requires present { (n : ℕ) (i : Instance) → instance_in self.old n ≡ Some i →
            i.is_taken ≡ false → i.component.0 ≡ c.0 → i.generation ≡ generation }
        ensures taken { IfOk result (λ n. HasTaken self.old self.new c generation n) }
        ensures refused { OnErr result (self.new ≡ self.old) }
        ensures wanted { OnErr result ((m : ℕ) →
            instance_in self.old m ≢ Some (idle_of c generation)) }
    {
        let key = take(&mut self.slab, &mut self.firsts, c, generation)?;
        Ok(key)
    }

    /// Puts an instance that is taken back among the idle ones of its component. It takes no memory.
    pub(crate) fn put_back(&mut self, n: u64, instance: Instance)
        requires own { instance.component.0 < MAX_GROUPS }
        requires found { instance_in self.old n ≡ Some instance }
        requires taken { instance.is_taken ≡ true }
        ensures idle { instance_in self.new n ≡ Some (idle_of instance.component instance.generation) }
        ensures others { (m : ℕ) → m ≢ n → instance_in self.new m ≡ instance_in self.old m }
    {
        put_back(&mut self.slab, &mut self.firsts, n as usize, instance);
    }

    /// Removes an instance that is taken. It takes no memory.
    pub(crate) fn remove(&mut self, n: u64)
        requires { has_taken (instance_in self.old n) ≡ true }
        ensures gone { instance_in self.new n ≡ None }
        ensures others { (m : ℕ) → m ≢ n → instance_in self.new m ≡ instance_in self.old m }
    {
        let _gone = self.slab.try_remove(n as usize);
    }

    /// Removes each idle instance of a component, where that is asked. It takes no memory, and visits each of them.
    pub(crate) fn remove_idle(&mut self, c: u16, is_asked: bool)
        requires { c < MAX_GROUPS }
        ensures { (n : ℕ) → instance_in self.new n
            ≡ left_idle (λ d. (d == c) && is_asked) (instance_in self.old n) }
    {
        if is_asked {
            remove_idle(&mut self.slab, &mut self.firsts, c);
        }
    }
}
