//! Names of components and of methods.

ghost use Rattle.std.specs.Prelude.{◌≡◌, IfOk, option_copied, option_map};
ghost use Rattle.toml.specs.Data.{get_member};
ghost use Rattle.toml.specs.View.{table_view, view};
ghost use Rattle.descriptor_text.specs.Names.{component_name_in, method_name_in, text_in};

use crash_base::{ComponentName, OutOfMemory, is_component_name, is_name};
use std::alloc::Global;
use toml::{Table, Value};

/// The value of a key.
pub(crate) fn get_member<'a>(table: &'a Table, key: &str) -> Option<&'a Value>
    ensures { option_map (λ v. view v.now) result ≡ get_member key.now (table_view table.now) }
{
    table.get(key)
}

/// The text of a key. None exactly where the key is missing or its value is no text.
fn text_in<'a>(table: &'a Table, key: &str) -> Option<&'a str>
    ensures { option_copied result ≡ text_in key.now (table_view table.now) }
{
    get_member(table, key)?.as_str()
}

/// The name under `name`. None exactly where it is no component's name.
pub(crate) fn component_name_in(
    alloc: Global,
    table: &Table,
) -> Result<Option<ComponentName>, OutOfMemory>
    ensures { IfOk result (λ name. name ≡ component_name_in (table_view table.now)) }
{
    let Some(text) = text_in(table, "name") else {
        return Ok(None);
    };
    if !is_component_name(text.as_bytes()) {
        return Ok(None);
    }
    Ok(Some(ComponentName::copied(alloc, text.as_bytes())?))
}

/// The name under `name`. None exactly where it is no method's name.
pub(crate) fn method_name_in(
    alloc: Global,
    table: &Table,
) -> Result<Option<ComponentName>, OutOfMemory>
    ensures { IfOk result (λ name. name ≡ method_name_in (table_view table.now)) }
{
    let Some(text) = text_in(table, "name") else {
        return Ok(None);
    };
    if !is_name(text.as_bytes()) {
        return Ok(None);
    }
    Ok(Some(ComponentName::copied(alloc, text.as_bytes())?))
}
