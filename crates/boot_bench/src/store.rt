//! A boot of two components over a keeper that keeps nothing, and whole calls of it.

ghost use Rattle.std.specs.Prelude.{◌<◌, IfOk};
ghost use Rattle.boot_core.specs.Fits.{FitsIn};
ghost use Rattle.journal_model.specs.Fits.{IsWrite};

use crate::null_keeper::NullKeeper;
use boot_core::{
    Boot, CallRefusal, CommitRefusal, JournalLimits, MAX_ENTRIES, MAX_JOURNAL_BYTES, MAX_STEPS,
    Start, Ticket,
};
use crash_base::{
    ComponentName, ComponentNo, FaultList, OutOfMemory, Place, RequestNo, RowBytes, RowId, RowList,
    RowWrite, WorkerNo,
};
use deployment::{ComponentPart, Deployment, MethodList, Parts, TablePart};
use std::alloc::Global;

/// The component that owns both tables.
pub(crate) const STOCK: ComponentNo = ComponentNo(1);

/// The table whose rows are put and looked at, or listed.
pub(crate) const TABLE: u8 = 1;

/// The other table.
pub(crate) const OTHER: u8 = 2;

/// The number of the boot.
pub(crate) const BOOT: u32 = 1;

/// As much as a boot may hold.
pub(crate) const LIMITS: JournalLimits = JournalLimits {
    entries: MAX_ENTRIES,
    bytes: MAX_JOURNAL_BYTES,
};

/// A boot, and its keeper.
#[derive(Drop)]
pub(crate) struct Store {
    boot: Boot,
    keeper: NullKeeper,
}

fn add_component(alloc: Global, parts: &mut Parts, name: &[u8]) -> Result<(), OutOfMemory> {
    parts.components.push(ComponentPart {
        name: ComponentName::copied(alloc, name)?,
        methods: MethodList::new(alloc),
    })
}

/// A cart and a stock, which owns both tables.
fn parts(alloc: Global) -> Result<Parts, OutOfMemory> {
    let mut parts = Parts::new(alloc);
    add_component(alloc, &mut parts, b"cart")?;
    add_component(alloc, &mut parts, b"stock")?;
    for table in [TABLE, OTHER] {
        parts.tables.push(TablePart {
            table,
            owner: STOCK,
        })?;
    }
    Ok(parts)
}

/// The deployment of these parts. None where it is refused.
pub(crate) fn deployment(alloc: Global) -> Result<Option<Deployment>, OutOfMemory> {
    Ok(Deployment::check(parts(alloc)?).ok())
}

/// No fault plans: no component fails.
pub(crate) fn no_plans(alloc: Global) -> FaultList {
    FaultList::from_vec(Vec::new(alloc))
}

/// A row of eight bytes, which spell a number.
pub(crate) fn row(alloc: Global, id: RowId, number: u64) -> Result<RowWrite, OutOfMemory>
    requires { 0 < id.table }
    ensures { IfOk result IsWrite }
{
    Ok(RowWrite {
        id,
        bytes: RowBytes::copied(alloc, &number.to_be_bytes())?,
    })
}

/// Enters the stock. Whether it was not refused; where memory ran out, that is answered.
fn enter(boot: &mut Boot, ticket: &mut Ticket) -> Result<bool, OutOfMemory>
    requires { FitsIn boot.old ticket.old.call }
    ensures { FitsIn boot.new ticket.new.call }
{
    if STOCK.0 >= boot.deployment().count() || !boot.may_enter(ticket, STOCK) {
        return Ok(false);
    }
    match boot.enter(ticket, STOCK, 0) {
        Ok(()) => Ok(true),
        Err(CallRefusal::OutOfMemory) => Err(OutOfMemory),
        Err(_) => Ok(false),
    }
}

/// Puts a row. Whether it was not refused.
fn put(boot: &Boot, ticket: &mut Ticket, row: RowWrite) -> bool
    requires row { IsWrite row }
    requires fits { FitsIn boot.now ticket.old.call }
    ensures { FitsIn boot.now ticket.new.call }
{
    if !boot.is_in_owner(ticket, row.id.table) {
        return false;
    }
    boot.put(ticket, row).is_ok()
}

/// Leaves the component that was entered last. Whether it was not refused.
fn exit(boot: &mut Boot, ticket: &mut Ticket) -> bool
    requires { FitsIn boot.old ticket.old.call }
    ensures { FitsIn boot.new ticket.new.call }
{
    if ticket.depth() == 0 || ticket.steps() >= MAX_STEPS {
        return false;
    }
    boot.exit(ticket).is_ok()
}

/// Enters the stock, puts a row and leaves. Whether nothing was refused.
fn makes_steps(boot: &mut Boot, ticket: &mut Ticket, row: RowWrite) -> Result<bool, OutOfMemory>
    requires row { IsWrite row }
    requires fits { FitsIn boot.old ticket.old.call }
    ensures { FitsIn boot.new ticket.new.call }
{
    if !enter(boot, ticket)? || !put(boot, ticket, row) {
        return Ok(false);
    }
    Ok(exit(boot, ticket))
}

/// Enters the stock and lists a table. How many rows it listed, and 0 where anything was refused.
fn list(
    alloc: Global,
    boot: &mut Boot,
    ticket: &mut Ticket,
    table: u8,
) -> Result<usize, OutOfMemory>
    requires { FitsIn boot.old ticket.old.call }
{
    if !enter(boot, ticket)? || !boot.is_in_owner(ticket, table) {
        return Ok(0);
    }
    match boot.list(alloc, ticket, table) {
        Ok(rows) => Ok(rows.len()),
        Err(_) => Ok(0),
    }
}

impl Store {
    /// A boot over no rows. None where its deployment is refused.
    pub(crate) fn start(alloc: Global) -> Result<Option<Store>, OutOfMemory> {
        let Some(deployment) = deployment(alloc)? else {
            return Ok(None);
        };
        let start = Start {
            boot: BOOT,
            base: RowList::new(alloc),
            deployment,
            plans: no_plans(alloc),
            limits: LIMITS,
        };
        let boot = Boot::start(alloc, start)?;
        Ok(Some(Store {
            boot,
            keeper: NullKeeper {},
        }))
    }

    /// A call of this request that has done nothing yet.
    fn begin(&mut self, alloc: Global, serial: u64) -> Result<Ticket, OutOfMemory>
        ensures { IfOk result (λ ticket. FitsIn self.new.boot ticket.call) }
    {
        let request = RequestNo { boot: BOOT, serial };
        let ticket = self.boot.begin(alloc, request, WorkerNo(1))?;
        Ok(ticket)
    }

    /// Makes a call of this request that puts a row and commits. The place of its commit; None where anything was
    /// refused.
    pub(crate) fn commit(
        &mut self,
        alloc: Global,
        serial: u64,
        row: RowWrite,
    ) -> Result<Option<Place>, OutOfMemory>
        requires { IsWrite row }
    {
        let mut ticket = self.begin(alloc, serial)?;
        match makes_steps(&mut self.boot, &mut ticket, row) {
            Ok(true) => {}
            Ok(false) => {
                self.boot.abandon(ticket);
                return Ok(None);
            }
            Err(OutOfMemory) => {
                self.boot.abandon(ticket);
                return Err(OutOfMemory);
            }
        }
        match self.boot.commit(alloc, &mut self.keeper, ticket, None) {
            Ok(place) => Ok(Some(place)),
            Err(refused) => match refused.cause {
                CommitRefusal::OutOfMemory => Err(OutOfMemory),
                _ => Ok(None),
            },
        }
    }

    /// Makes a call that lists a table, and gives it up. How many rows it listed.
    pub(crate) fn list(&mut self, alloc: Global, table: u8) -> Result<usize, OutOfMemory> {
        let mut ticket = self.begin(alloc, MAX_ENTRIES)?;
        let count = list(alloc, &mut self.boot, &mut ticket, table);
        self.boot.abandon(ticket);
        count
    }

    /// Whether the bytes of a row at a place spell this number.
    pub(crate) fn has(&self, id: RowId, at: Place, number: u64) -> bool {
        match self.boot.rows().row_at(id, at) {
            Some(bytes) => bytes.as_slice() == number.to_be_bytes().as_slice(),
            None => false,
        }
    }

    /// How many entries the journal has.
    pub(crate) fn entries(&self) -> u64 {
        self.boot.journal().len()
    }

    /// The place after the last commit of a row, else 0.
    pub(crate) fn newest(&self, id: RowId) -> u64 {
        self.boot.rows().newest(id).0
    }
}
