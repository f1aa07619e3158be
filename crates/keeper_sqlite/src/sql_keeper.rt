//! A keeper whose rows stand in a table of a database.

ghost use Rattle.std.specs.Prelude.{◌≡◌, ◌≢◌, ◌↔◌, ◌≤◌, None, OnOk, IfOk, IfErr};
ghost use Rattle.outside.specs.Faults.{Rose};
ghost use Rattle.sqlite.specs.Held.{state};
ghost use Rattle.keeper_sqlite.specs.Faults.{after_fault, count_after, fault_of, last_after};
ghost use Rattle.keeper_sqlite.specs.declared.rows_fault.RowsFault.{RowsFault};
ghost use Rattle.keeper_sqlite.specs.RowsTable.{HasOther};

use crate::rows_fault::RowsFault;
use crate::rows_table::{MAKE_TABLE, has_other};
use crash_base::{RowBytes, RowId, RowList, RowWrite, WriteList};
use outside::{Keeper, KeeperFault};
use sqlite::types::ValueRef;
use sqlite::{Alter, Connection, Error, ErrorCode, Row, Statement, params};
use std::alloc::Global;
use std::marker::Model;

/// All rows, in order of id: the keys are as long as each other, so their bytes are in the order of
/// the numbers.
const ALL_ROWS: &str = "SELECT t, k, v FROM crash_rows ORDER BY t, k";

/// Puts a row in the place of the one of its id, if there is one.
const PUT_ROW: &str =
    "INSERT INTO crash_rows (t, k, v) VALUES (?1, ?2, ?3) ON CONFLICT (t, k) DO UPDATE SET v = excluded.v";

/// Why no keeper was made over a database.
#[derive(Clone, Copy, Debug)]
pub enum OpenFault {
    /// Something else than the table of the rows stands under its name.
    OtherSchema,
    /// The database failed, a transaction was open, or the allocator had no memory.
    Failed(RowsFault),
}

/// A keeper over a connection, which tells nothing of its rows. Contracts see how often it has failed,
/// and why it refused a call last.
#[derive(Drop)]
pub struct SqlKeeper<S: Alter> {
    connection: Connection<S>,
    /// Puts a row.
    put: Statement,
    faults: u64,
    last: Option<RowsFault>,
}

impl<S: Alter> Model for SqlKeeper<S> {
    ghost use Rattle.keeper_sqlite.specs.Faults.{KeeperValue};

    ghost Value = { KeeperValue };

    ghost view = { λ k. record { faults = k.faults; last = k.last } };
}

/// The table that a value names. `NoRow` where it is no integer from 0 to 255.
fn table_of(value: ValueRef<'_>) -> Result<u8, RowsFault> {
    match value {
        ValueRef::Int(number) => u8::try_from(number).map_err(|_| RowsFault::NoRow),
        _ => Err(RowsFault::NoRow),
    }
}

/// The bytes of a value. `NoRow` where it is no BLOB.
fn bytes_of<'a>(value: ValueRef<'a>) -> Result<&'a [u8], RowsFault> {
    match value {
        ValueRef::Blob(bytes) => Ok(bytes),
        _ => Err(RowsFault::NoRow),
    }
}

/// The key that a value spells. `NoRow` where it is no BLOB of eight bytes.
fn key_of(value: ValueRef<'_>) -> Result<u64, RowsFault> {
    match <[u8; 8]>::try_from(bytes_of(value)?) {
        Ok(eight) => Ok(u64::from_be_bytes(eight)),
        Err(_) => Err(RowsFault::NoRow),
    }
}

/// The row that the three values of a row spell.
fn row_of(alloc: Global, row: &Row) -> Result<RowWrite, RowsFault> {
    let table = table_of(row.get_ref(0)?)?;
    let key = key_of(row.get_ref(1)?)?;
    let bytes = bytes_of(row.get_ref(2)?)?;
    Ok(RowWrite {
        id: RowId { table, key },
        bytes: RowBytes::copied(alloc, bytes)?,
    })
}

fn rows_of(alloc: Global, found: &[Row]) -> Result<RowList, RowsFault> {
    let mut rows = RowList::new(alloc);
    for row in found {
        rows.push(row_of(alloc, row)?)?;
    }
    Ok(rows)
}

fn all_rows<S: Alter>(alloc: Global, connection: &mut Connection<S>) -> Result<RowList, RowsFault> {
    let found = connection.query_all(ALL_ROWS, &[])?;
    rows_of(alloc, found.as_slice())
}

/// Puts all rows in one transaction, each by this statement. It is rolled back where it is not committed.
fn put_all<S: Alter>(
    connection: &mut Connection<S>,
    put: &Statement,
    writes: &[RowWrite],
) -> Result<(), Error> {
    if !connection.is_autocommit() {
        return Err(IN_TRANSACTION);
    }
    let mut transaction = connection.transaction();
    for write in writes {
        let key = write.id.key.to_be_bytes();
        let values = params![
            i64::from(write.id.table),
            key.as_slice(),
            write.bytes.as_slice()
        ];
        transaction.execute_prepared(put, values)?;
    }
    transaction.commit()
}

/// A text that begins or ends no transaction, where one is open.
const IN_TRANSACTION: Error = Error::SqliteFailure(ErrorCode::TransactionState);

/// Why no keeper was made, for an error of the database.
fn open_fault_of(error: Error) -> OpenFault
    ensures { result ≢ OpenFault.OtherSchema }
{
    OpenFault::Failed(RowsFault::from(error))
}

/// Makes the table where nothing stands under its name. `Failed` where a transaction is open.
fn make_table<S: Alter>(connection: &mut Connection<S>) -> Result<(), OpenFault>
    ensures { IfErr result (λ fault. fault ≢ OpenFault.OtherSchema) }
{
    if !connection.is_autocommit() {
        return Err(open_fault_of(IN_TRANSACTION));
    }
    match connection.execute(MAKE_TABLE, &[]) {
        Ok(_) => Ok(()),
        Err(error) => Err(open_fault_of(error)),
    }
}

/// Prepares the statement that puts a row.
fn prepare_put<S: Alter>(connection: &mut Connection<S>) -> Result<Statement, OpenFault>
    ensures { IfErr result (λ fault. fault ≢ OpenFault.OtherSchema) }
{
    match connection.prepare(PUT_ROW) {
        Ok(put) => Ok(put),
        Err(error) => Err(open_fault_of(error)),
    }
}

/// The count of faults behind a call that was refused with this fault.
fn count_after(fault: KeeperFault, count: u64) -> u64
    ensures { result ≡ count_after fault count }
{
    match fault {
        KeeperFault::OutOfMemory => count,
        KeeperFault::Failed => count.saturating_add(1),
    }
}

/// Why a call was refused last, behind one that was refused for this.
fn last_after(why: RowsFault, last: Option<RowsFault>) -> Option<RowsFault>
    ensures { result ≡ last_after why last }
{
    match (why, last) {
        (RowsFault::Closed, Some(earlier)) => Some(earlier),
        _ => Some(why),
    }
}

impl<S: Alter> SqlKeeper<S> {
    /// A keeper of the rows that the database has. It makes their table where nothing stands under
    /// its name, and visits each object of the schema.
    ///
    /// # Errors
    /// `OtherSchema` exactly where something else stands there, and then the database is as it was.
    pub fn new(mut connection: Connection<S>) -> Result<SqlKeeper<S>, OpenFault>
    where
        S: Drop,
        ensures fresh { IfOk result (λ keeper. keeper ≡ record { faults = 0; last = None }) }
        ensures other { (result ≡ Err OpenFault.OtherSchema)
            ↔ HasOther (state S.Store connection).now.schema }
    {
        if has_other(connection.schema()) {
            return Err(OpenFault::OtherSchema);
        }
        make_table(&mut connection)?;
        let put = prepare_put(&mut connection)?;
        Ok(SqlKeeper {
            connection,
            put,
            faults: 0,
            last: None,
        })
    }

    /// How often it has failed.
    pub fn faults(&self) -> u64
        ensures { result ≡ self.now.faults }
    {
        self.faults
    }

    /// Why it refused a call last, if it did: where the database was closed by a failure, that failure.
    pub fn last_fault(&self) -> Option<RowsFault>
        ensures { result ≡ self.now.last }
    {
        self.last
    }

    /// Keeps why a call is refused, counts it, and answers the fault of the call.
    fn refuse(&mut self, why: RowsFault) -> KeeperFault
        ensures answer { result ≡ fault_of why }
        ensures after { self.new ≡ after_fault why self.old }
        ensures later { self.old.faults ≤ self.new.faults }
    {
        self.last = last_after(why, self.last);
        let fault = why.fault();
        self.faults = count_after(fault, self.faults);
        fault
    }
}

impl<S: Alter + Send> Keeper for SqlKeeper<S> {
    ghost told = { λ _. None };

    ghost faults = { λ keeper. keeper.faults };

    /// As of the trait. A row whose table is not from 0 to 255, or whose key has not eight bytes, is
    /// `Failed`. It holds all rows twice, and copies each byte.
    fn load(&mut self, alloc: Global) -> Result<RowList, KeeperFault>
        ensures kept { OnOk result (self.new ≡ self.old) }
        ensures refused { IfErr result (λ fault. (why : RowsFault) × (fault ≡ fault_of why)
            × (self.new ≡ after_fault why self.old)) }
        ensures cause { result ≡ Err KeeperFault.Failed → Rose self.old.faults self.new.faults }
        ensures count { self.old.faults ≤ self.new.faults }
    {
        match all_rows(alloc, &mut self.connection) {
            Ok(rows) => Ok(rows),
            Err(why) => Err(self.refuse(why)),
        }
    }

    /// As of the trait. The writes are one transaction. Each is one statement, which looks through
    /// the table's index by its key.
    fn apply(&mut self, _alloc: Global, writes: &WriteList) -> Result<(), KeeperFault>
        ensures kept { OnOk result (self.new ≡ self.old) }
        ensures refused { IfErr result (λ fault. (why : RowsFault) × (fault ≡ fault_of why)
            × (self.new ≡ after_fault why self.old)) }
        ensures cause { result ≡ Err KeeperFault.Failed → Rose self.old.faults self.new.faults }
        ensures count { self.old.faults ≤ self.new.faults }
    {
        match put_all(&mut self.connection, &self.put, writes.as_slice()) {
            Ok(()) => Ok(()),
            Err(error) => Err(self.refuse(RowsFault::from(error))),
        }
    }
}
