//! Kept values in an ordered map, and the names of their nodes in a wheel, which finds what a sweep takes.

ghost use Rattle.std.specs.Prelude.{◌≡◌, ◌≤◌, ◌^◌, ◌<◌, ◌||◌, nat_lt, nat_le, false, not, [], length, filter, option_map, IsSome, IfOk, OnOk, OnErr, Some, None, if◌then◌else◌};
ghost use Rattle.std.specs.BTreeMap as tree;
ghost use Rattle.std.specs.Map.{remove_entry};
ghost use Rattle.crash_base.specs.declared.bounded.TheConstants.{MAX_SESSION_BYTES};
ghost use Rattle.lease_wheel.specs.declared.wheel.WheelItem.{WheelItem};
ghost use Rattle.lease_wheel.specs.Wheels.{named, with_leased, Stands, Leaves, AreInOrder as AreInTurn};
ghost use Rattle.brick_store.specs.declared.kept.TheConstants.{MAX_BRICK_BYTES, MAX_BRICK_VALUES};
ghost use Rattle.brick_store.specs.Bricks.{put_value};
ghost use Rattle.brick_store.specs.Kept.{with_kept, kept_under, bytes_of, is_full, outlives, AreInOrder};
ghost use Rattle.brick_store.specs.Pairs.{pair_of, kept_at, kept_in};
ghost use Rattle.brick_store.specs.declared.kept_map.Pair.{Pair};
ghost use Rattle.brick_store.specs.Tied.{pair_order, is_pair, value_at, Has, AreTied};
ghost use Rattle.brick_store.specs.Puts.{CanPut, PutEnds, RenewEnds};

use crate::kept::{MAX_BRICK_BYTES, MAX_BRICK_VALUES, copied_value};
use crash_base::{Moment, OutOfMemory, SessionBytes, SessionKey, Version};
use lease_wheel::{LeaseWheel, WheelItem, WheelNode};
use std::alloc::Global;
use std::collections::BTreeMap;
use std::collections::btree_map::Entry;
use std::marker::Model;
use std::mem::replace;

/// Where a value is kept: by key, and of one key by version.
#[derive(Clone, Copy, PartialEq, Eq, PartialOrd, Ord)]
pub(crate) struct Pair {
    key: [u8; 16],
    node: u16,
    boot: u32,
    serial: u64,
}

/// A value, and the name of its node in the wheel, which says until when it is asked for.
#[derive(Drop)]
pub(crate) struct Lease {
    pub(crate) node: WheelNode,
    pub(crate) value: SessionBytes,
}

/// The lease at each pair.
type Leases = BTreeMap<Pair, Lease>;

/// Kept values in order of key and version, the wheel of their leases, and how many bytes they have.
#[derive(Drop)]
pub(crate) struct KeptMap {
    leases: Leases,
    wheel: LeaseWheel,
    bytes: u64,
}

impl Model for KeptMap {
    ghost use Rattle.std.specs.Prelude.{List};
    ghost use Rattle.brick_store.specs.declared.kept.Kept.{Kept};

    ghost Value = { List Kept };

    ghost use Rattle.std.specs.Prelude.{◌≡◌, ◌≤◌};
    ghost use Rattle.brick_store.specs.declared.kept.TheConstants.{MAX_BRICK_BYTES};
    ghost use Rattle.brick_store.specs.Kept.{AreInOrder, bytes_of};
    ghost use Rattle.brick_store.specs.Pairs.{kept_in};
    ghost use Rattle.brick_store.specs.Tied.{AreTied};

    ghost view = { λ m. kept_in m.leases.entries };

    ghost invariant = { λ m. AreInOrder (kept_in m.leases.entries)
        × (m.bytes ≡ bytes_of (kept_in m.leases.entries))
        × (bytes_of (kept_in m.leases.entries) ≤ MAX_BRICK_BYTES)
        × AreTied m.leases.entries m.wheel };
}

/// The pair of a key and a version.
fn pair_of(key: SessionKey, version: Version) -> Pair
    ensures { result ≡ pair_of key version }
{
    let bytes = key.0;
    Pair {
        key: bytes,
        node: version.node,
        boot: version.boot,
        serial: version.serial,
    }
}

/// Takes a lease off the wheel, and says how many bytes its value has.
fn let_go(wheel: &mut LeaseWheel, lease: Lease) -> u64
    requires { Stands wheel.old lease.node }
    ensures size { result ≡ length lease.value }
    ensures small { result ≤ MAX_SESSION_BYTES }
    ensures left { (item : WheelItem) × Leaves wheel.old lease.node item wheel.new }
    ensures ordered { AreInTurn wheel.old }
{
    let Lease { node, value } = lease;
    let size = value.as_slice().len() as u64;
    let _item = wheel.remove(node);
    size
}

/// A lease of a copy of a value, which is on the wheel. Where memory runs out, the wheel is as it was.
fn lease_of(
    wheel: &mut LeaseWheel,
    alloc: Global,
    item: WheelItem,
    expiry: Moment,
    value: &SessionBytes,
) -> Result<Lease, OutOfMemory>
    ensures wheel { IfOk result (λ lease. wheel.new ≡ with_leased (named lease.node item) wheel.old) }
    ensures lease { IfOk result (λ lease. (lease.node.expiry ≡ expiry) × (lease.value ≡ value.now)) }
    ensures ordered { OnOk result (AreInTurn wheel.new) }
    ensures err { OnErr result (wheel.new ≡ wheel.old) }
{
    let value = copied_value(alloc, value)?;
    let node = wheel.add(expiry, item)?;
    Ok(Lease { node, value })
}

/// Puts a copy of a value in place of the one of a lease, and says how many bytes are kept then; None exactly where
/// these would be too many. The new node is on the wheel before the old one leaves it.
fn renew(
    lease: &mut Lease,
    wheel: &mut LeaseWheel,
    bytes: u64,
    alloc: Global,
    item: WheelItem,
    expiry: Moment,
    value: &SessionBytes,
) -> Result<Option<u64>, OutOfMemory>
    requires stands { Has wheel.old (named lease.old.node item) }
    requires less { length lease.old.value ≤ bytes }
    requires few { bytes ≤ MAX_BRICK_BYTES }
    ensures { RenewEnds lease.old lease.new wheel.old wheel.new bytes item expiry value.now result }
{
    let size = value.as_slice().len() as u64;
    let less = lease.value.as_slice().len() as u64;
    if bytes + size > MAX_BRICK_BYTES + less {
        return Ok(None);
    }
    let renewed = lease_of(wheel, alloc, item, expiry, value)?;
    let old = replace(lease, renewed);
    let _size = let_go(wheel, old);
    Ok(Some(bytes + size - less))
}

/// Whether so many values leave no room for one more, with which they have so many bytes.
fn is_full_with(values: u64, bytes: u64) -> bool
    ensures { result ≡ (nat_le MAX_BRICK_VALUES values || nat_lt MAX_BRICK_BYTES bytes) }
{
    values >= MAX_BRICK_VALUES || bytes > MAX_BRICK_BYTES
}

/// Keeps a copy of a value, in place of one under its key and version, and says how many bytes are kept then; None
/// exactly where there is no room. It searches the pairs once, and the map makes room only for a pair that it gets.
fn put_in(
    leases: &mut Leases,
    wheel: &mut LeaseWheel,
    bytes: u64,
    alloc: Global,
    item: WheelItem,
    expiry: Moment,
    value: &SessionBytes,
) -> Result<Option<u64>, OutOfMemory>
    requires { CanPut leases.old.entries wheel.old bytes }
    ensures tied { AreTied leases.new.entries wheel.new }
    ensures ok { IfOk result (PutEnds (put_value item.key item.version expiry value.now)
        (kept_in leases.old.entries) (kept_in leases.new.entries)) }
    ensures err { OnErr result (leases.new.entries ≡ leases.old.entries) }
    ensures memory { OnErr result (is_full (kept_in leases.old.entries)
        (put_value item.key item.version expiry value.now) ≡ false) }
{
    let size = value.as_slice().len() as u64;
    let pair = pair_of(item.key, item.version);
    if is_full_with(leases.len() as u64, bytes + size) {
        return match leases.get_mut(&pair) {
            Some(lease) => renew(lease, wheel, bytes, alloc, item, expiry, value),
            None => Ok(None),
        };
    }
    match leases.entry(pair)? {
        Entry::Occupied(entry) => {
            renew(entry.into_mut(), wheel, bytes, alloc, item, expiry, value)
        }
        Entry::Vacant(entry) => {
            let lease = lease_of(wheel, alloc, item, expiry, value)?;
            entry.insert(lease);
            Ok(Some(bytes + size))
        }
    }
}

/// The value under a key and version.
fn lease_under(leases: &Leases, key: SessionKey, version: Version) -> Option<&Lease>
    ensures { option_map (λ lease. kept_at (pair_of key version, lease.now)) result
        ≡ kept_under key version (kept_in leases.now.entries) }
{
    leases.get(&pair_of(key, version))
}

/// Removes what the wheel gave out, and says how many bytes its value has.
fn take_out(leases: &mut Leases, item: WheelItem) -> u64
    requires { IsSome (value_at (pair_of item.key item.version) leases.old.entries) }
    ensures size { option_map (λ lease. length lease.value) (value_at (pair_of item.key item.version) leases.old.entries)
        ≡ Some result }
    ensures entries { leases.new.entries ≡ remove_entry (is_pair (pair_of item.key item.version)) leases.old.entries }
    ensures others { (q : Pair) → value_at q leases.new.entries
        ≡ (if is_pair (pair_of item.key item.version) q then None else value_at q leases.old.entries) }
    ensures ordered { tree.IsOrdered pair_order leases.new }
{
    match leases.remove(&pair_of(item.key, item.version)) {
        Some(lease) => lease.value.as_slice().len() as u64,
        None => unreachable!(),
    }
}

/// Removes the values that a sweep takes, and says how many bytes the others have.
fn sweep_in(leases: &mut Leases, wheel: &mut LeaseWheel, bytes: u64, moment: Moment) -> u64
    requires tied { AreTied leases.old.entries wheel.old }
    requires bytes { bytes ≡ bytes_of (kept_in leases.old.entries) }
    ensures tied { AreTied leases.new.entries wheel.new }
    ensures left { kept_in leases.new.entries ≡ filter (outlives moment) (kept_in leases.old.entries) }
    ensures bytes { result ≡ bytes_of (kept_in leases.new.entries) }
{
    let mut left = bytes;
    if leases.len() == 0 {
        return left;
    }
    while let Some(item) = wheel.pop_due(moment) {
        left -= take_out(leases, item);
    }
    left
}

impl KeptMap {
    /// No values. It takes no memory.
    pub(crate) fn new(alloc: Global) -> KeptMap
        ensures { result ≡ [] }
    {
        KeptMap {
            leases: BTreeMap::new(alloc),
            wheel: LeaseWheel::new(alloc),
            bytes: 0,
        }
    }

    /// How many values there are.
    pub(crate) fn len(&self) -> u64
        ensures { result ≡ length self.now }
    {
        self.leases.len() as u64
    }

    /// How many bytes the values have.
    pub(crate) fn bytes(&self) -> u64
        ensures bytes { result ≡ bytes_of self.now }
        ensures few { result ≤ MAX_BRICK_BYTES }
    {
        self.bytes
    }

    /// The value under a key and version. It visits about log n of n values.
    pub(crate) fn get(&self, key: SessionKey, version: Version) -> Option<&Lease>
        ensures kept { option_map (λ lease. kept_at (pair_of key version, lease.now)) result
            ≡ kept_under key version self.now }
        ensures in_order { AreInOrder self.now }
    {
        lease_under(&self.leases, key, version)
    }

    /// Keeps a copy of a value, in place of one under its key and version; false exactly where there is no room. It
    /// visits about log n of n values.
    pub(crate) fn put(
        &mut self,
        alloc: Global,
        key: SessionKey,
        version: Version,
        expiry: Moment,
        value: &SessionBytes,
    ) -> Result<bool, OutOfMemory>
        requires { length self.old ≤ MAX_BRICK_VALUES }
        ensures room { IfOk result (λ room. room ≡ not (is_full self.old (put_value key version expiry value.now))) }
        ensures new { IfOk result (λ room. self.new
            ≡ (if room then with_kept (put_value key version expiry value.now) self.old else self.old)) }
        ensures err { OnErr result (self.new ≡ self.old) }
        ensures memory { OnErr result (is_full self.old (put_value key version expiry value.now) ≡ false) }
    {
        let item = WheelItem { key, version };
        let (leases, wheel) = (&mut self.leases, &mut self.wheel);
        match put_in(leases, wheel, self.bytes, alloc, item, expiry, value)? {
            Some(bytes) => {
                self.bytes = bytes;
                Ok(true)
            }
            None => Ok(false),
        }
    }

    /// Removes the values that a sweep takes. It visits no others, and takes no memory.
    pub(crate) fn sweep(&mut self, moment: Moment)
        ensures { self.new ≡ filter (outlives moment) self.old }
    {
        self.bytes = sweep_in(&mut self.leases, &mut self.wheel, self.bytes, moment);
    }

    /// Removes all values. It takes no memory.
    pub(crate) fn clear(&mut self)
        ensures { self.new ≡ [] }
    {
        self.leases.clear();
        self.wheel.clear();
        self.bytes = 0;
    }
}
