//! Keepers over databases in memory, and a keeper's answers in words.

use crate::words::{add_row, add_word, rows};
use crash_base::RowWrite;
use keeper_sqlite::{OpenFault, RowsFault, SqlKeeper};
use outside::{Keeper, KeeperFault};
use sqlite::{Alter, Connection, MemStore};
use std::alloc::Global;
use std::process::Abort;

/// The table of the rows, as the keeper makes it.
pub const TABLE: &str =
    "CREATE TABLE crash_rows (t INTEGER NOT NULL, k BLOB NOT NULL, v BLOB NOT NULL, PRIMARY KEY (t, k)) STRICT";

/// A database in memory, after these statements.
pub fn database(rt: &impl Abort, alloc: Global, statements: &[&str]) -> Connection<MemStore> {
    let mut connection = Connection::open_in_memory(alloc).expect(rt, "a database");
    for statement in statements {
        connection.execute(statement, &[]).expect(rt, statement);
    }
    connection
}

/// What an opening over a database answers, in a word.
pub fn opening(connection: Connection<MemStore>) -> &'static str {
    match SqlKeeper::new(connection) {
        Ok(_) => "ok",
        Err(OpenFault::OtherSchema) => "other_schema",
        Err(OpenFault::Failed(RowsFault::OutOfMemory)) => "out_of_memory",
        Err(OpenFault::Failed(_)) => "failed",
    }
}

fn sent<T: Send>(value: T) -> T {
    value
}

/// The same keeper. It may go to another thread wherever its store may.
fn sent_keeper<S: Alter + Send>(keeper: SqlKeeper<S>) -> SqlKeeper<S> {
    sent(keeper)
}

/// A keeper over a database in memory, after these statements.
pub fn keeper(rt: &impl Abort, alloc: Global, statements: &[&str]) -> SqlKeeper<MemStore> {
    sent_keeper(SqlKeeper::new(database(rt, alloc, statements)).expect(rt, "a keeper"))
}

/// What a keeper says of the call that it refused last, if it refused one.
pub fn last_words(rt: &impl Abort, alloc: Global, keeper: &SqlKeeper<MemStore>) -> String {
    match keeper.last_fault() {
        Some(why) => why.to_string(alloc).expect(rt, "a text"),
        None => String::new(alloc),
    }
}

/// Adds why a keeper did not answer.
pub fn add_fault(rt: &impl Abort, words: &mut String, fault: KeeperFault) {
    match fault {
        KeeperFault::OutOfMemory => add_word(rt, words, "out_of_memory"),
        KeeperFault::Failed => add_word(rt, words, "failed"),
    }
}

/// Adds rows, each as the word that spells it.
pub fn add_rows(rt: &impl Abort, words: &mut String, rows: &[RowWrite]) {
    for row in rows {
        add_row(rt, words, row);
    }
}

/// Applies the writes that words spell, and adds what that answers.
pub fn add_apply<K: Keeper>(
    rt: &impl Abort,
    alloc: Global,
    words: &mut String,
    keeper: &mut K,
    text: &str,
) {
    match keeper.apply(alloc, &rows(rt, alloc, text)) {
        Ok(()) => add_word(rt, words, "ok"),
        Err(fault) => add_fault(rt, words, fault),
    }
}

/// Adds the rows that a load gives, or why it gives none.
pub fn add_load<K: Keeper>(rt: &impl Abort, alloc: Global, words: &mut String, keeper: &mut K) {
    match keeper.load(alloc) {
        Ok(rows) => add_rows(rt, words, rows.as_slice()),
        Err(fault) => add_fault(rt, words, fault),
    }
}
