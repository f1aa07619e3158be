//! One component as its table describes it.

ghost use Rattle.std.specs.Prelude.{◌≡◌};
ghost use Rattle.toml.specs.View.{view, items_view, table_view};
ghost use Rattle.descriptor_text.specs.Description.{are_tables, description_in, description_of, descriptions_in, descriptions_of};
ghost use Rattle.descriptor_text.specs.Refusals.{IsReadAs};

use crate::keys::{list_in, methods_in, names_in, tables_in};
use crate::names::component_name_in;
use crate::refusals::{FieldName, ReadRefusal, WrongField};
use crash_base::{ComponentName, Items};
use deployment::MethodList;
use std::alloc::Global;
use toml::{Table, Value};

/// Names of components, in the order of a list.
pub(crate) type NameList = Items<ComponentName>;

/// Numbers of tables, in the order of a list.
pub(crate) type TableNumbers = Items<u8>;

/// A component, with the names of the components that it calls and the numbers of the tables that
/// it owns.
#[derive(Drop)]
pub(crate) struct Description {
    /// Its name.
    pub name: ComponentName,
    /// The components that must be rebooted with it.
    pub hard: NameList,
    /// The other components that it calls.
    pub soft: NameList,
    /// The tables that it owns.
    pub tables: TableNumbers,
    /// Its methods.
    pub methods: MethodList,
}

/// Descriptions in the order of their components.
pub(crate) type DescriptionList = Items<Description>;

/// The component that a table describes, or the first key of it that has another form.
fn description_in(alloc: Global, table: &Table) -> Result<Description, ReadRefusal<FieldName>>
    ensures { IsReadAs result (description_in (table_view table.now)) }
{
    let name = component_name_in(alloc, table)?.ok_or(ReadRefusal::Wrong(FieldName::Name))?;
    let hard = names_in(alloc, table, "hard")?.ok_or(ReadRefusal::Wrong(FieldName::Hard))?;
    let soft = names_in(alloc, table, "soft")?.ok_or(ReadRefusal::Wrong(FieldName::Soft))?;
    let tables = tables_in(alloc, table)?.ok_or(ReadRefusal::Wrong(FieldName::Tables))?;
    let methods = methods_in(alloc, table)?.ok_or(ReadRefusal::Wrong(FieldName::Methods))?;
    Ok(Description {
        name,
        hard,
        soft,
        tables,
        methods,
    })
}

/// The component that a value describes. A value that is no table has the form of no component.
fn description_of(alloc: Global, value: &Value) -> Result<Description, ReadRefusal<FieldName>>
    ensures { IsReadAs result (description_of (view value.now)) }
{
    match value.as_table() {
        None => Err(ReadRefusal::Wrong(FieldName::Component)),
        Some(table) => description_in(alloc, table),
    }
}

/// Whether each value is a table.
fn are_tables(values: &[Value]) -> bool
    ensures { result ≡ are_tables (items_view values.now) }
{
    for value in values {
        if !value.is_table() {
            return false;
        }
    }
    true
}

/// The components that values describe, or the first of them with a key of another form.
fn descriptions_of(
    alloc: Global,
    values: &[Value],
) -> Result<DescriptionList, ReadRefusal<WrongField>>
    ensures { IsReadAs result (descriptions_of (items_view values.now)) }
{
    let mut descriptions = DescriptionList::new(alloc);
    for (component, value) in values.iter().enumerate() {
        match description_of(alloc, value) {
            Ok(description) => descriptions.push(description)?,
            Err(ReadRefusal::Wrong(field)) => {
                return Err(ReadRefusal::Wrong(WrongField { component, field }));
            }
            Err(ReadRefusal::OutOfMemory) => return Err(ReadRefusal::OutOfMemory),
        }
    }
    Ok(descriptions)
}

/// The components that a document describes, or the first key that has another form.
pub(crate) fn descriptions_in(
    alloc: Global,
    document: &Table,
) -> Result<DescriptionList, ReadRefusal<WrongField>>
    ensures { IsReadAs result (descriptions_in (table_view document.now)) }
{
    let no_tables = WrongField {
        component: 0,
        field: FieldName::Component,
    };
    let Some(values) = list_in(document, "component") else {
        return Err(ReadRefusal::Wrong(no_tables));
    };
    if !are_tables(values) {
        return Err(ReadRefusal::Wrong(no_tables));
    }
    descriptions_of(alloc, values)
}
