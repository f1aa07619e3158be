//! Containers that tests begin with.

use crate::boot_fixtures::plan_list;
use crate::keepers::failing_keeper;
use crate::parts::deployment_of;
use container_core::{Container, JournalLimits};
use crash_base::{FaultList, RowList};
use outside::{Keeper, MapKeeper};
use std::alloc::Global;
use std::process::Abort;

/// A cart and a stock. Component 1, the stock, owns table 3.
pub const SHOP: &str = "+cart +stock 3=1";

/// A container of the parts that a text spells, over this keeper, whose start is not refused.
pub fn started<K: Keeper + Drop>(
    rt: &impl Abort,
    alloc: Global,
    parts: &str,
    keeper: K,
    plans: FaultList,
    limits: JournalLimits,
) -> Container<K> {
    let deployment = deployment_of(rt, alloc, parts);
    match Container::start(alloc, deployment, keeper, plans, limits) {
        Ok(container) => container,
        Err(_) => panic!(rt; "the start is refused"),
    }
}

/// A container of the parts that a text spells, over a keeper that holds no rows and of whose calls the one of this
/// number fails.
pub fn over_failing(
    rt: &impl Abort,
    alloc: Global,
    parts: &str,
    failing: u64,
    plans: FaultList,
    limits: JournalLimits,
) -> Container<MapKeeper> {
    let keeper = failing_keeper(rt, alloc, RowList::new(alloc), failing);
    started(rt, alloc, parts, keeper, plans, limits)
}
