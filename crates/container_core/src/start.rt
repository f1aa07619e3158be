//! How a container is started from the rows of its keeper.

ghost use Rattle.std.specs.Prelude.{◌≡◌, ◌≤◌, ◌+◌, ◌<◌, [], ◌∷◌, ◌++◌, All, None, Err, IfOk, OnOk, MatchResult};
ghost use Rattle.call_ticket.specs.Within.{IsShortWrite};
ghost use Rattle.outside.specs.Faults.{Rose};
ghost use Rattle.boot_core.specs.Boot.{new_boot};
ghost use Rattle.container_core.specs.Start.{boot_row, first_bad, last_boot, greatest_boot, start_over, refusal_of, IsUnfit, IsRefusedStart, IsOpened};

use crate::history::History;
use crate::judging::{BOOT_ID, first_bad, last_boot};
use boot_core::{Boot, JournalLimits, Start, StartRefusal};
use crash_base::{FaultList, OutOfMemory, RowBytes, RowList, RowWrite, WriteList};
use deployment::Deployment;
use outside::{Keeper, KeeperFault};
use std::alloc::Global;

/// A container that was not started: why, and its keeper.
#[derive(Drop)]
pub struct StartFail<K: Keeper + Drop> {
    pub refusal: StartRefusal,
    pub keeper: K,
}

/// Why a start is refused where the keeper refused a call.
fn refusal_of(fault: KeeperFault) -> StartRefusal
    ensures { result ≡ refusal_of fault }
{
    match fault {
        KeeperFault::OutOfMemory => StartRefusal::OutOfMemory,
        KeeperFault::Failed => StartRefusal::KeeperFailed,
    }
}

/// The number of the boot after the last one, where all rows may be loaded.
fn next_boot(rows: &[RowWrite]) -> Result<u32, StartRefusal>
    ensures { MatchResult result
        (λ number. (first_bad rows.now ≡ None) × (last_boot rows.now < greatest_boot)
        × (number ≡ last_boot rows.now + 1))
        (λ refusal. IsUnfit refusal rows.now) }
{
    if let Some(id) = first_bad(rows) {
        return Err(StartRefusal::BadRow { id });
    }
    match last_boot(rows).checked_add(1) {
        Some(number) => Ok(number),
        None => Err(StartRefusal::BootsSpent),
    }
}

/// The row of a boot's number.
fn boot_row(alloc: Global, number: u32) -> Result<RowWrite, OutOfMemory>
    ensures { IfOk result (λ row. row ≡ boot_row number) }
{
    Ok(RowWrite {
        id: BOOT_ID,
        bytes: RowBytes::copied(alloc, number.to_be_bytes().as_slice())?,
    })
}

/// The parts of a container that is opened, but for its keeper.
#[derive(Drop)]
pub(crate) struct Opened {
    pub(crate) boot: Box<Boot>,
    pub(crate) history: History,
}

/// A boot over rows that were loaded, and the write that raises the number of the boot. Once these are made, a start
/// takes no more memory of its own.
#[derive(Drop)]
struct Prepared {
    opened: Opened,
    writes: WriteList,
}

/// Puts the row of a boot's number over these rows.
fn put_number(alloc: Global, rows: &mut RowList, number: u32) -> Result<(), OutOfMemory>
    ensures { OnOk result (rows.new ≡ rows.old ++ boot_row number ∷ []) }
{
    let row = boot_row(alloc, number)?;
    rows.push(row)
}

/// Puts the row of the next boot's number over these rows, where all may be loaded. The answer is the number.
fn raise(alloc: Global, rows: &mut RowList) -> Result<u32, StartRefusal>
    ensures { MatchResult result
        (λ number. (first_bad rows.old ≡ None) × (last_boot rows.old < greatest_boot)
        × (number ≡ last_boot rows.old + 1) × (rows.new ≡ rows.old ++ boot_row number ∷ []))
        (λ refusal. IsUnfit refusal rows.old) }
{
    let number = next_boot(rows.as_slice())?;
    put_number(alloc, rows, number)?;
    Ok(number)
}

/// The write of the row of a boot's number, as a list.
fn raising(alloc: Global, number: u32) -> Result<WriteList, OutOfMemory>
    ensures { IfOk result (λ writes. writes ≡ boot_row number ∷ []) }
{
    let mut writes = WriteList::new(alloc);
    writes.push(boot_row(alloc, number)?)?;
    Ok(writes)
}

/// A boot without history.
fn begin(alloc: Global, start: Start) -> Result<Opened, OutOfMemory>
    requires { All IsShortWrite start.base }
    ensures { IfOk result (λ o. (o.boot.value ≡ new_boot start) × (o.history.marks ≡ [])) }
{
    let history = History::new(alloc)?;
    let boot = Box::new(alloc, Boot::start(alloc, start)?)?;
    Ok(Opened { boot, history })
}

/// Makes a boot over these rows.
fn prepare(
    alloc: Global,
    deployment: Deployment,
    plans: FaultList,
    limits: JournalLimits,
    rows: RowList,
) -> Result<Prepared, StartRefusal>
    ensures { MatchResult result
        (λ p. (first_bad rows ≡ None) × (last_boot rows < greatest_boot)
        × (p.opened.boot.value ≡ new_boot (start_over deployment plans limits rows))
        × (p.opened.history.marks ≡ [])
        × (p.writes ≡ boot_row (last_boot rows + 1) ∷ []))
        (λ refusal. IsUnfit refusal rows) }
{
    let mut base = rows;
    let number = raise(alloc, &mut base)?;
    let writes = raising(alloc, number)?;
    let start = Start {
        boot: number,
        base,
        deployment,
        plans,
        limits,
    };
    let opened = begin(alloc, start)?;
    Ok(Prepared { opened, writes })
}

/// Loads the rows of a keeper, makes a boot over them, and hands the number of the boot to the keeper.
pub(crate) fn open<K: Keeper>(
    alloc: Global,
    deployment: Deployment,
    plans: FaultList,
    limits: JournalLimits,
    keeper: &mut K,
) -> Result<Opened, StartRefusal>
    ensures opens { MatchResult result
        (λ o. IsOpened deployment plans limits (K.told keeper.old) o.boot.value (K.told keeper.new)
        × (o.history.marks ≡ []))
        (λ refusal. IsRefusedStart refusal (K.told keeper.old) (K.told keeper.new)) }
    ensures failed { result ≡ Err StartRefusal.KeeperFailed
        → Rose (K.faults keeper.old) (K.faults keeper.new) }
    ensures count { K.faults keeper.old ≤ K.faults keeper.new }
{
    let rows = match keeper.load(alloc) {
        Ok(rows) => rows,
        Err(fault) => return Err(refusal_of(fault)),
    };
    let prepared = prepare(alloc, deployment, plans, limits, rows)?;
    match keeper.apply(alloc, &prepared.writes) {
        Ok(()) => Ok(prepared.opened),
        Err(fault) => Err(refusal_of(fault)),
    }
}
