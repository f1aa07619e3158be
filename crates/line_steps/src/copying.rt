//! Copies of the parts of a deployment.

ghost use Rattle.std.specs.Prelude.{◌≡◌, IfOk};

use crash_base::{ComponentName, OutOfMemory};
use deployment::{
    ComponentList, ComponentPart, MethodList, MethodPart, Parts, ReferenceList, TableList,
};
use std::alloc::Global;

/// A copy of methods.
fn methods_copied(alloc: Global, methods: &[MethodPart]) -> Result<MethodList, OutOfMemory>
    ensures { IfOk result (λ copy. copy ≡ methods.now) }
{
    let mut copy = MethodList::new(alloc);
    for method in methods {
        let name = ComponentName::copied(alloc, method.name.as_slice())?;
        let idempotent = method.idempotent;
        copy.push(MethodPart { name, idempotent })?;
    }
    Ok(copy)
}

/// A copy of components.
fn components_copied(
    alloc: Global,
    components: &[ComponentPart],
) -> Result<ComponentList, OutOfMemory>
    ensures { IfOk result (λ copy. copy ≡ components.now) }
{
    let mut copy = ComponentList::new(alloc);
    for component in components {
        let name = ComponentName::copied(alloc, component.name.as_slice())?;
        let methods = methods_copied(alloc, component.methods.as_slice())?;
        copy.push(ComponentPart { name, methods })?;
    }
    Ok(copy)
}

/// A copy of parts. It visits each of them.
pub(crate) fn parts_copied(alloc: Global, parts: &Parts) -> Result<Parts, OutOfMemory>
    ensures { IfOk result (λ copy. copy ≡ parts.now) }
{
    let components = components_copied(alloc, parts.components.as_slice())?;
    let references = Vec::from_slice(alloc, parts.references.as_slice())?;
    let tables = Vec::from_slice(alloc, parts.tables.as_slice())?;
    Ok(Parts {
        components,
        references: ReferenceList::from_vec(references),
        tables: TableList::from_vec(tables),
    })
}
