//! The values of the keys of a component's table.

ghost use Rattle.std.specs.Prelude.{◌≡◌, IfOk, option_map};
ghost use Rattle.toml.specs.Data.{as_str};
ghost use Rattle.toml.specs.View.{table_view, view, items_view};
ghost use Rattle.descriptor_text.specs.Keys.{gathered, list_in, names_in, table_number, tables_in, idempotent_in, method_of, methods_in};

use crate::description::{NameList, TableNumbers};
use crate::names::{get_member, method_name_in};
use crash_base::{ComponentName, OutOfMemory};
use deployment::{MethodList, MethodPart, one_call};
use std::alloc::Global;
use toml::{Table, Value};

/// The items of the array under a key, an empty one where the key is missing. None exactly where
/// its value is no array.
pub(crate) fn list_in<'a>(table: &'a Table, key: &str) -> Option<&'a [Value]>
    ensures { option_map (λ items. items_view items.now) result
        ≡ list_in key.now (table_view table.now) }
{
    match get_member(table, key) {
        None => Some(&[]),
        Some(value) => Some(value.as_array()?.as_slice()),
    }
}

/// The texts of a list. None exactly where an item is no text.
fn texts(alloc: Global, values: &[Value]) -> Result<Option<NameList>, OutOfMemory>
    ensures { IfOk result (λ names. names ≡ gathered as_str (items_view values.now)) }
{
    let mut names = NameList::new(alloc);
    for value in values {
        let Some(text) = value.as_str() else {
            return Ok(None);
        };
        names.push(ComponentName::copied(alloc, text.as_bytes())?)?;
    }
    Ok(Some(names))
}

/// The names under a key. None exactly where it is no array of texts.
pub(crate) fn names_in(
    alloc: Global,
    table: &Table,
    key: &str,
) -> Result<Option<NameList>, OutOfMemory>
    ensures { IfOk result (λ names. names ≡ names_in key.now (table_view table.now)) }
{
    let Some(values) = list_in(table, key) else {
        return Ok(None);
    };
    texts(alloc, values)
}

/// The number of a table. None exactly where the value is no whole number from 0 to 255.
fn table_number(value: &Value) -> Option<u8>
    ensures { result ≡ table_number (view value.now) }
{
    u8::try_from(value.as_integer()?).ok()
}

/// The numbers of a list. None exactly where an item is no table's number.
fn numbers(alloc: Global, values: &[Value]) -> Result<Option<TableNumbers>, OutOfMemory>
    ensures { IfOk result (λ numbers. numbers ≡ gathered table_number (items_view values.now)) }
{
    let mut numbers = TableNumbers::new(alloc);
    for value in values {
        let Some(number) = table_number(value) else {
            return Ok(None);
        };
        numbers.push(number)?;
    }
    Ok(Some(numbers))
}

/// The numbers under `tables`. None exactly where it is no array of tables' numbers.
pub(crate) fn tables_in(alloc: Global, table: &Table) -> Result<Option<TableNumbers>, OutOfMemory>
    ensures { IfOk result (λ numbers. numbers ≡ tables_in (table_view table.now)) }
{
    let Some(values) = list_in(table, "tables") else {
        return Ok(None);
    };
    numbers(alloc, values)
}

/// The truth value under `idempotent`. None exactly where there is none.
fn idempotent_in(table: &Table) -> Option<bool>
    ensures { result ≡ idempotent_in (table_view table.now) }
{
    get_member(table, "idempotent")?.as_bool()
}

/// The method that a value describes. None exactly where it describes none.
fn method_of(alloc: Global, value: &Value) -> Result<Option<MethodPart>, OutOfMemory>
    ensures { IfOk result (λ method. method ≡ method_of (view value.now)) }
{
    let Some(table) = value.as_table() else {
        return Ok(None);
    };
    let Some(name) = method_name_in(alloc, table)? else {
        return Ok(None);
    };
    let Some(idempotent) = idempotent_in(table) else {
        return Ok(None);
    };
    Ok(Some(MethodPart { name, idempotent }))
}

/// The methods of a list. None exactly where an item describes none.
fn methods(alloc: Global, values: &[Value]) -> Result<Option<MethodList>, OutOfMemory>
    ensures { IfOk result (λ methods. methods ≡ gathered method_of (items_view values.now)) }
{
    let mut methods = MethodList::new(alloc);
    for value in values {
        let Some(method) = method_of(alloc, value)? else {
            return Ok(None);
        };
        methods.push(method)?;
    }
    Ok(Some(methods))
}

/// The methods under `methods`, or the one that a component has by default. None exactly where it
/// is no array of methods.
pub(crate) fn methods_in(alloc: Global, table: &Table) -> Result<Option<MethodList>, OutOfMemory>
    ensures { IfOk result (λ methods. methods ≡ methods_in (table_view table.now)) }
{
    match get_member(table, "methods") {
        None => Ok(Some(one_call(alloc)?)),
        Some(value) => match value.as_array() {
            None => Ok(None),
            Some(values) => methods(alloc, values.as_slice()),
        },
    }
}
