//! The parts that descriptions make.

ghost use Rattle.std.specs.Prelude.{◌≡◌, ◌++◌, IfOk, OnOk, map};
ghost use Rattle.descriptor_text.specs.Assembly.{assembled, component_at, component_named, components_of, first_described, reference_to, references_of, table_part, tables_of};

use crate::description::{Description, DescriptionList};
use crash_base::{ComponentName, ComponentNo, OutOfMemory};
use deployment::{
    ComponentList, ComponentPart, Parts, Reference, ReferenceList, TableList, TablePart,
};
use std::alloc::Global;

/// The number of a component that no deployment has.
const NO_COMPONENT: u16 = 65_535;

/// The component at a place, and no deployment's where the place is too great.
fn component_at(place: usize) -> ComponentNo
    ensures { result ≡ component_at place }
{
    ComponentNo(place.min(NO_COMPONENT as usize) as u16)
}

/// The place of the first description of a name.
fn first_described(descriptions: &[Description], name: &[u8]) -> Option<usize>
    ensures { result ≡ first_described descriptions.now name.now }
{
    descriptions.iter().position(|d| d.name.as_slice() == name)
}

/// The first component of a name, and no deployment's where no component has it.
fn component_named(descriptions: &[Description], name: &[u8]) -> ComponentNo
    ensures { result ≡ component_named descriptions.now name.now }
{
    component_at(first_described(descriptions, name).unwrap_or(NO_COMPONENT as usize))
}

/// Adds the references of a component to these names.
fn add_references(
    references: &mut ReferenceList,
    descriptions: &[Description],
    from: usize,
    names: &[ComponentName],
    hard: bool,
) -> Result<(), OutOfMemory>
    ensures { OnOk result (references.new
        ≡ references.old ++ map (reference_to descriptions.now from hard) names.now) }
{
    for name in names {
        references.push(Reference {
            from: component_at(from),
            to: component_named(descriptions, name.as_slice()),
            hard,
        })?;
    }
    Ok(())
}

/// The references of each component, in order: the hard ones, and then the soft ones.
fn references_of(alloc: Global, descriptions: &[Description]) -> Result<ReferenceList, OutOfMemory>
    ensures { IfOk result (λ references. references ≡ references_of descriptions.now) }
{
    let mut references = ReferenceList::new(alloc);
    for (place, d) in descriptions.iter().enumerate() {
        add_references(
            &mut references,
            descriptions,
            place,
            d.hard.as_slice(),
            true,
        )?;
        add_references(
            &mut references,
            descriptions,
            place,
            d.soft.as_slice(),
            false,
        )?;
    }
    Ok(references)
}

/// Adds the tables of a component.
fn add_tables(tables: &mut TableList, owner: usize, numbers: &[u8]) -> Result<(), OutOfMemory>
    ensures { OnOk result (tables.new ≡ tables.old ++ map (table_part owner) numbers.now) }
{
    for number in numbers {
        tables.push(TablePart {
            table: *number,
            owner: component_at(owner),
        })?;
    }
    Ok(())
}

/// The tables of each component, in order.
fn tables_of(alloc: Global, descriptions: &[Description]) -> Result<TableList, OutOfMemory>
    ensures { IfOk result (λ tables. tables ≡ tables_of descriptions.now) }
{
    let mut tables = TableList::new(alloc);
    for (place, d) in descriptions.iter().enumerate() {
        add_tables(&mut tables, place, d.tables.as_slice())?;
    }
    Ok(tables)
}

/// The components, in order.
fn components_of(alloc: Global, descriptions: DescriptionList) -> Result<ComponentList, OutOfMemory>
    ensures { IfOk result (λ components. components ≡ components_of descriptions) }
{
    let mut components = ComponentList::new(alloc);
    for d in descriptions.into_vec() {
        components.push(ComponentPart {
            name: d.name,
            methods: d.methods,
        })?;
    }
    Ok(components)
}

/// The parts that descriptions make.
pub(crate) fn assembled(alloc: Global, descriptions: DescriptionList) -> Result<Parts, OutOfMemory>
    ensures { IfOk result (λ parts. parts ≡ assembled descriptions) }
{
    let references = references_of(alloc, descriptions.as_slice())?;
    let tables = tables_of(alloc, descriptions.as_slice())?;
    let components = components_of(alloc, descriptions)?;
    Ok(Parts {
        components,
        references,
        tables,
    })
}
