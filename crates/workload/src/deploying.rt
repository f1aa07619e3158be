//! The deployment of the workload.

ghost use Rattle.std.specs.Prelude.{◌≡◌, ◌++◌, [], ◌∷◌, IfOk, OnOk};
ghost use Rattle.line_steps.specs.Head.{plain};
ghost use Rattle.workload.specs.Parts.{work_components, work_references, work_tables, work_parts};

use crash_base::{ComponentName, ComponentNo, OutOfMemory};
use deployment::{
    ComponentList, ComponentPart, Deployment, Parts, Reference, ReferenceList, TableList,
    TablePart, one_call,
};
use std::alloc::Global;

/// The component A.
pub const A: u16 = 0;

/// The component B, which A needs.
pub const B: u16 = 1;

/// The component C.
pub const C: u16 = 2;

/// The table that A owns.
pub const A_TABLE: u8 = 40;

/// The table that C owns.
pub const C_TABLE: u8 = 41;

/// Adds a component with one idempotent method `call`.
fn add_plain(alloc: Global, components: &mut ComponentList, name: &[u8]) -> Result<(), OutOfMemory>
    ensures { OnOk result (components.new ≡ components.old ++ plain name.now ∷ []) }
{
    let part = ComponentPart {
        name: ComponentName::copied(alloc, name)?,
        methods: one_call(alloc)?,
    };
    components.push(part)
}

/// The components.
#[tactic(auto, unfolding(crate::specs::Parts::work_components))]
fn components(alloc: Global) -> Result<ComponentList, OutOfMemory>
    ensures { IfOk result (λ components. components ≡ work_components) }
{
    let mut components = ComponentList::new(alloc);
    add_plain(alloc, &mut components, b"A")?;
    add_plain(alloc, &mut components, b"B")?;
    add_plain(alloc, &mut components, b"C")?;
    Ok(components)
}

/// What the components need of one another.
#[tactic(auto, unfolding(crate::specs::Parts::work_references))]
fn references(alloc: Global) -> Result<ReferenceList, OutOfMemory>
    ensures { IfOk result (λ references. references ≡ work_references) }
{
    let mut references = ReferenceList::new(alloc);
    references.push(Reference {
        from: ComponentNo(A),
        to: ComponentNo(B),
        hard: true,
    })?;
    Ok(references)
}

/// Who owns which table.
#[tactic(auto, unfolding(crate::specs::Parts::work_tables))]
fn tables(alloc: Global) -> Result<TableList, OutOfMemory>
    ensures { IfOk result (λ tables. tables ≡ work_tables) }
{
    let mut tables = TableList::new(alloc);
    tables.push(TablePart {
        table: A_TABLE,
        owner: ComponentNo(A),
    })?;
    tables.push(TablePart {
        table: C_TABLE,
        owner: ComponentNo(C),
    })?;
    Ok(tables)
}

/// The parts of the workload.
fn work_parts(alloc: Global) -> Result<Parts, OutOfMemory>
    ensures { IfOk result (λ parts. parts ≡ work_parts) }
{
    Ok(Parts {
        components: components(alloc)?,
        references: references(alloc)?,
        tables: tables(alloc)?,
    })
}

/// The deployment of the workload.
pub(crate) fn work_deployment(alloc: Global) -> Result<Deployment, OutOfMemory>
    ensures { IfOk result (λ deployment. deployment ≡ work_parts) }
{
    match Deployment::check(work_parts(alloc)?) {
        Ok(deployment) => Ok(deployment),
        Err(_) => unreachable!(),
    }
}
