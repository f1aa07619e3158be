//! The table of the rows, and whether something else stands under its name.

ghost use Rattle.std.specs.Prelude.{◌≡◌, ◌↔◌, [], ◌∷◌, IsTrue};
ghost use Rattle.std.specs.List.{find};
ghost use Rattle.std.specs.Option.{option_copied};
ghost use Rattle.sqlite_value.specs.declared.value.Value.TheVariants.{Null};
ghost use Rattle.sqlite_schema.specs.Names.{same_name};
ghost use Rattle.keeper_sqlite.specs.RowsTable.{HasOther, IsRowsTable, rows_column, rows_columns, table_name};

use sqlite::types::Value;
use sqlite_schema::code::Terms;
use sqlite_schema::schema::{Column, Kind, Schema, Table};
use sqlite_value::keys::Collation;

/// Makes the table where nothing stands under its name.
pub(crate) const MAKE_TABLE: &str =
    "CREATE TABLE IF NOT EXISTS crash_rows (t INTEGER NOT NULL, k BLOB NOT NULL, v BLOB NOT NULL, PRIMARY KEY (t, k)) STRICT";

fn is_null(value: &Value) -> bool
    ensures { IsTrue result ↔ (value.now ≡ Null) }
{
    match value {
        Value::Null => true,
        _ => false,
    }
}

fn is_column(column: &Column, name: &[u8], kind: Kind) -> bool
    ensures { IsTrue result ↔ (column.now ≡ rows_column name.now kind) }
{
    column.name.as_slice() == name
        && column.kind == kind
        && column.is_strict
        && column.not_null
        && is_null(&column.default)
        && column.collation == Collation::Binary
}

fn has_columns(columns: &[Column]) -> bool
    ensures { IsTrue result ↔ (columns.now ≡ rows_columns) }
{
    if columns.len() != 3 {
        return false;
    }
    is_column(&columns[0], b"t", Kind::Integer)
        && is_column(&columns[1], b"k", Kind::Blob)
        && is_column(&columns[2], b"v", Kind::Blob)
}

/// Whether these are the places of the columns `t` and `k`.
fn is_key(places: &[usize]) -> bool
    ensures { IsTrue result ↔ (places.now ≡ 1 ∷ 2 ∷ []) }
{
    match places {
        [1, 2] => true,
        _ => false,
    }
}

fn has_key(table: &Table) -> bool
    ensures { IsTrue result ↔ (table.now.primary ≡ 1 ∷ 2 ∷ [])
        × (table.now.uniques ≡ (1 ∷ 2 ∷ []) ∷ []) }
{
    match table.uniques.as_slice() {
        [key] => is_key(key.as_slice()) && is_key(table.primary.as_slice()),
        _ => false,
    }
}

fn is_empty(terms: &Terms) -> bool
    ensures { IsTrue result ↔ (terms.now ≡ []) }
{
    terms.roots.is_empty()
}

fn is_rows_table(table: &Table) -> bool
    ensures { IsTrue result ↔ IsRowsTable table.now }
{
    has_columns(table.columns.as_slice())
        && has_key(table)
        && is_empty(&table.checks)
        && table.references.is_empty()
}

fn named_table(schema: &Schema) -> Option<&Table>
    ensures { option_copied result
        ≡ find (λ table. same_name table.name table_name) schema.now.tables }
{
    schema
        .tables
        .as_slice()
        .iter()
        .find(|table| table.is_named(b"crash_rows"))
}

/// Whether something else than the table of the rows stands under its name.
pub(crate) fn has_other(schema: &Schema) -> bool
    ensures { IsTrue result ↔ HasOther schema.now }
{
    match named_table(schema) {
        Some(table) => !is_rows_table(table),
        None => {
            schema.view_named(b"crash_rows").is_some()
                || schema.index_named(b"crash_rows").is_some()
        }
    }
}
