//! Fault plans, rows and boots that tests begin with, and the numbers of requests.

ghost use Rattle.std.specs.Prelude.{◌≡◌, ◌≤◌, All, length};
ghost use Rattle.crash_base.specs.declared.rows.RowWrite.{RowWrite};
ghost use Rattle.call_ticket.specs.Within.{IsShortWrite};

use crate::parts::deployment_of;
use crate::words::{cut, id};
use boot_core::{Boot, JournalLimits, Start};
use crash_base::{
    ComponentName, FaultList, FaultPlan, MAX_FAULT_PLANS, MAX_ROW_BYTES, RequestNo, RowBytes,
    RowList, RowWrite,
};
use std::alloc::Global;
use std::process::Abort;

/// Ten entries of a hundred bytes.
pub const LIMITS: JournalLimits = JournalLimits {
    entries: 10,
    bytes: 100,
};

/// The number of a request of boot 1.
pub fn request(serial: u64) -> RequestNo {
    RequestNo { boot: 1, serial }
}

/// The name that is these bytes.
pub fn name(rt: &impl Abort, alloc: Global, bytes: &[u8]) -> ComponentName {
    ComponentName::copied(alloc, bytes).expect(rt, "a name")
}

/// The list of these fault plans.
pub fn plan_list(rt: &impl Abort, alloc: Global, plans: &[FaultPlan]) -> FaultList {
    let list = Vec::from_slice(alloc, plans).expect(rt, "plans");
    assert!(rt; list.len() <= MAX_FAULT_PLANS);
    FaultList::from_vec(list)
}

/// The row that a text spells: its table, its key, and after a sign its bytes.
pub fn write(rt: &impl Abort, alloc: Global, text: &str) -> RowWrite
    ensures { IsShortWrite result }
{
    let (row, bytes) = cut(rt, text, '=');
    let id = id(rt, row);
    let bytes = RowBytes::copied(alloc, bytes.as_bytes()).expect(rt, text);
    assert!(rt; bytes.len() <= MAX_ROW_BYTES);
    RowWrite { id, bytes }
}

/// A boot of the parts that a text spells, over these rows.
fn boot_over(rt: &impl Abort, alloc: Global, parts: &str, base: RowList) -> Boot
    requires { All IsShortWrite base }
{
    let start = Start {
        boot: 1,
        base,
        deployment: deployment_of(rt, alloc, parts),
        plans: plan_list(rt, alloc, &[]),
        limits: LIMITS,
    };
    Boot::start(alloc, start).expect(rt, "a boot")
}

/// A boot of the parts that a text spells, over no rows.
pub fn boot_of(rt: &impl Abort, alloc: Global, parts: &str) -> Boot {
    boot_over(rt, alloc, parts, RowList::new(alloc))
}

/// A boot of a cart and a stock over three rows, which are not in order.
pub fn boot_over_rows(rt: &impl Abort, alloc: Global) -> Boot {
    let mut base = RowList::new(alloc);
    base.push(write(rt, alloc, "3.7=a")).expect(rt, "a row");
    base.push(write(rt, alloc, "3.2=b")).expect(rt, "a row");
    base.push(write(rt, alloc, "4.1=z")).expect(rt, "a row");
    boot_over(rt, alloc, "+cart +stock 3=1 4=1", base)
}
