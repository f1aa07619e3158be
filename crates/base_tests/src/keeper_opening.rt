//! Databases that a keeper is made over, or not.

use crate::keeper_words::{database, opening};
use crate::words::{cut, expect_so};
use std::alloc::Global;
use std::process::Abort;

/// A statement, and what an opening answers after it.
const OPENINGS: &str = "CREATE TABLE other (t INTEGER)|ok
CREATE TABLE crash_rows (t INTEGER NOT NULL, k BLOB NOT NULL, v BLOB NOT NULL, PRIMARY KEY (t, k)) STRICT|ok
create table Crash_Rows (t integer not null, k blob not null, v blob not null, primary key (t, k)) strict|ok
CREATE TABLE crash_rows (t INTEGER NOT NULL, k BLOB NOT NULL)|other_schema
CREATE TABLE crash_rows (t INTEGER NOT NULL, k BLOB NOT NULL, PRIMARY KEY (t, k)) STRICT|other_schema
CREATE TABLE crash_rows (t INTEGER NOT NULL, k BLOB NOT NULL, v BLOB NOT NULL, w BLOB, PRIMARY KEY (t, k)) STRICT|other_schema
CREATE TABLE crash_rows (t INTEGER NOT NULL, k BLOB NOT NULL, v BLOB NOT NULL, PRIMARY KEY (t, k))|other_schema
CREATE TABLE crash_rows (t INTEGER NOT NULL, k BLOB NOT NULL, v BLOB, PRIMARY KEY (t, k)) STRICT|other_schema
CREATE TABLE crash_rows (t INTEGER NOT NULL, k INTEGER NOT NULL, v BLOB NOT NULL, PRIMARY KEY (t, k)) STRICT|other_schema
CREATE TABLE crash_rows (t INTEGER NOT NULL, k BLOB NOT NULL, v TEXT NOT NULL, PRIMARY KEY (t, k)) STRICT|other_schema
CREATE TABLE crash_rows (t INTEGER NOT NULL, k BLOB NOT NULL, w BLOB NOT NULL, PRIMARY KEY (t, k)) STRICT|other_schema
CREATE TABLE crash_rows (t INTEGER NOT NULL, k BLOB NOT NULL, v BLOB NOT NULL, PRIMARY KEY (k, t)) STRICT|other_schema
CREATE TABLE crash_rows (t INTEGER NOT NULL, k BLOB NOT NULL, v BLOB NOT NULL, PRIMARY KEY (k)) STRICT|other_schema
CREATE TABLE crash_rows (t INTEGER NOT NULL, k BLOB NOT NULL, v BLOB NOT NULL, UNIQUE (t, k)) STRICT|other_schema
CREATE TABLE crash_rows (t INTEGER NOT NULL, k BLOB NOT NULL, v BLOB NOT NULL UNIQUE, PRIMARY KEY (t, k)) STRICT|other_schema
CREATE TABLE crash_rows (t INTEGER NOT NULL CHECK (t > 0), k BLOB NOT NULL, v BLOB NOT NULL, PRIMARY KEY (t, k)) STRICT|other_schema
CREATE VIEW crash_rows AS SELECT 1 AS t|other_schema
BEGIN|failed";

/// Asserts what an opening answers after statements.
fn expect_opening(rt: &impl Abort, alloc: Global, statements: &[&str], want: &str, row: &str) {
    let found = opening(database(rt, alloc, statements));
    expect_so(rt, found == want, row);
}

/// Another schema is refused, and an index of the name is another schema.
#[test]
fn another_schema_is_refused(rt: HostRuntime) {
    for row in OPENINGS.split('\n') {
        let (statement, want) = cut(&rt, row, '|');
        expect_opening(&rt, rt.alloc(), &[statement], want, row);
    }
    let index = "CREATE INDEX crash_rows ON other (t)";
    let statements = ["CREATE TABLE other (t INTEGER)", index];
    expect_opening(&rt, rt.alloc(), &statements, "other_schema", index);
}
