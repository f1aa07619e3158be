//! The lists of a wheel, by their expiry. Each takes the map, so that it may have an empty list on the way.

ghost use Rattle.std.specs.Prelude.{◌≡◌, [], ◌∷◌, ◌++◌, ◌+◌, ◌↔◌, ℕ, List as Seq, true, false, nat_lt, IfOk, OnErr, IsTrue, MatchOption, All};
ghost use Rattle.std.specs.Ordering.{nat_cmp};
ghost use Rattle.std.specs.BTreeMap.{IsOrdered};
ghost use denote.RawPtr.{Ptr};
ghost use Rattle.ssm_frames.specs.declared.frame.TheConstants.{SWEEP_GRACE};
ghost use Rattle.lease_list.specs.Leases.{LeaseListValue, lease, Stands, Leaves, rises};
ghost use Rattle.lease_wheel.specs.declared.wheel.WheelItem.{WheelItem};
ghost use Rattle.lease_wheel.specs.Leased.{Leased};
ghost use Rattle.lease_wheel.specs.Lists.{leased_at, leased_in, AreSound, is_filled};
ghost use Rattle.lease_wheel.specs.Wheels.{with_leased, is_due, HasPlace, LeavesPlace};

use crate::wheel::WheelItem;
use crash_base::{Moment, OutOfMemory};
use lease_list::{LeaseList, Node};
use ssm_frames::SWEEP_GRACE;
use std::alloc::Global;
use std::collections::BTreeMap;
use std::collections::btree_map::Entry;

/// The items of each expiry.
pub(crate) type Lists = BTreeMap<u64, LeaseList<WheelItem>>;

/// One item more in a list.
fn push_on(list: &mut LeaseList<WheelItem>, item: WheelItem) -> Result<Node<WheelItem>, OutOfMemory>
    ensures ok { IfOk result (λ n. list.new.nodes ≡ list.old.nodes ++ lease n.number n.at item ∷ []) }
    ensures rising { IsTrue (rises list.new.next list.new.nodes) }
    ensures filled { is_filled list.old.nodes ≡ true → is_filled list.new.nodes ≡ true }
    ensures err { OnErr result (list.new ≡ list.old) }
{
    match list.push_back(item) {
        Ok(node) => Ok(node),
        Err(_) => Err(OutOfMemory),
    }
}

/// A list of one item.
fn list_of(
    alloc: Global,
    item: WheelItem,
) -> Result<(LeaseList<WheelItem>, Node<WheelItem>), OutOfMemory>
    ensures nodes { IfOk result (λ r. r.0.nodes ≡ lease r.1.number r.1.at item ∷ []) }
    ensures rising { IfOk result (λ r. IsTrue (rises r.0.next r.0.nodes)) }
{
    let mut list = LeaseList::new(alloc);
    let node = push_on(&mut list, item)?;
    Ok((list, node))
}

/// One item more of an expiry.
pub(crate) fn push_at(
    lists: &mut Lists,
    alloc: Global,
    expiry: u64,
    item: WheelItem,
) -> Result<Node<WheelItem>, OutOfMemory>
    ensures ok { IfOk result (λ n. leased_in lists.new.entries
        ≡ with_leased (leased_at expiry (lease n.number n.at item)) (leased_in lists.old.entries)) }
    ensures err { OnErr result (lists.new.entries ≡ lists.old.entries) }
    ensures sound { AreSound lists.old.entries → AreSound lists.new.entries }
    ensures ordered { IsOrdered nat_cmp lists.new }
{
    match lists.entry(expiry)? {
        Entry::Occupied(entry) => push_on(entry.into_mut(), item),
        Entry::Vacant(entry) => {
            let (list, node) = list_of(alloc, item)?;
            entry.insert(list);
            Ok(node)
        }
    }
}

/// Takes a node out of a list, and says whether it was the last one.
fn unlink_from(list: &mut LeaseList<WheelItem>, node: Node<WheelItem>) -> (WheelItem, bool)
    requires { Stands list.old.nodes node.number node.at }
    ensures nodes { Leaves list.old.nodes node.number node.at result.0 list.new.nodes }
    ensures rising { IsTrue (rises list.new.next list.new.nodes) }
    ensures empty { IsTrue result.1 ↔ (list.new.nodes ≡ []) }
{
    let item = list.unlink(node);
    (item, list.is_empty())
}

/// Takes the first node out of a list, and says whether it was the last one.
fn pop_from(list: &mut LeaseList<WheelItem>) -> (WheelItem, bool)
    requires { is_filled list.old.nodes ≡ true }
    ensures nodes { (k : ℕ) × (p : Ptr) × (list.old.nodes ≡ lease k p result.0 ∷ list.new.nodes) }
    ensures rising { IsTrue (rises list.new.next list.new.nodes) }
    ensures empty { IsTrue result.1 ↔ (list.new.nodes ≡ []) }
{
    match list.pop_front() {
        Some(item) => (item, list.is_empty()),
        None => unreachable!(),
    }
}

/// Takes an item of an expiry out, and its list where it has no other.
pub(crate) fn unlink_at(lists: &mut Lists, expiry: u64, node: Node<WheelItem>) -> WheelItem
    requires { HasPlace (leased_in lists.old.entries) expiry node.number node.at }
    ensures item { LeavesPlace (leased_in lists.old.entries) expiry node.number node.at result (leased_in lists.new.entries) }
    ensures sound { AreSound lists.old.entries → AreSound lists.new.entries }
    ensures ordered { IsOrdered nat_cmp lists.old }
{
    match lists.entry(expiry) {
        Ok(Entry::Occupied(entry)) => {
            let mut entry = entry;
            let (item, is_empty) = unlink_from(entry.get_mut(), node);
            if is_empty {
                entry.remove();
            }
            item
        }
        Ok(Entry::Vacant(_)) => unreachable!(),
        Err(_) => unreachable!(),
    }
}

/// Whether what ends at an expiry is due at a moment.
fn is_due(moment: Moment, expiry: u64) -> bool
    ensures { result ≡ nat_lt (expiry + SWEEP_GRACE) moment.0 }
{
    expiry < moment.0.saturating_sub(SWEEP_GRACE)
}

/// The first expiry, where it is due.
pub(crate) fn first_due(lists: &Lists, moment: Moment) -> Option<u64>
    ensures ordered { IsOrdered nat_cmp lists.now }
    ensures first { MatchOption result
        (All (λ d. is_due moment d ≡ false) (leased_in lists.now.entries))
        (λ e. (l : LeaseListValue WheelItem) × (rest : Seq (ℕ × LeaseListValue WheelItem))
        × (lists.now.entries ≡ (e, l) ∷ rest) × (nat_lt (e + SWEEP_GRACE) moment.0 ≡ true)) }
{
    if lists.len() == 0 {
        return None;
    }
    match lists.first_key_value() {
        Some((expiry, _)) if is_due(moment, *expiry) => Some(*expiry),
        _ => None,
    }
}

/// Takes the first item of the first expiry out, and its list where it has no other.
pub(crate) fn pop_at(lists: &mut Lists, expiry: u64) -> WheelItem
    requires sound { AreSound lists.old.entries }
    requires first { (l : LeaseListValue WheelItem) × (rest : Seq (ℕ × LeaseListValue WheelItem))
        × (lists.old.entries ≡ (expiry, l) ∷ rest) }
    ensures item { (d : Leased) × (leased_in lists.old.entries ≡ d ∷ leased_in lists.new.entries)
        × (d.item ≡ result) × (d.expiry.0 ≡ expiry) }
    ensures sound { AreSound lists.new.entries }
{
    let (item, is_empty) = match lists.get_mut(&expiry) {
        Some(list) => pop_from(list),
        None => unreachable!(),
    };
    if is_empty {
        lists.remove(&expiry);
    }
    item
}
