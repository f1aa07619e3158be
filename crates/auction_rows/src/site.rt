//! The deployment of the auction site.

ghost use Rattle.std.specs.Prelude.{◌≡◌, ◌++◌, [], ◌∷◌, IfOk, OnOk};
ghost use Rattle.auction_rows.specs.Parts.{caller, purchases, reference, table, site_components, site_references, site_tables, site_parts};

use crate::components::{BIDS, CATEGORIES, FEEDBACK, ITEMS, NUMBERS, PURCHASES, USERS, WEB};
use crate::rows::{
    BID_TABLE, CATEGORY_TABLE, COUNTER_TABLE, ENTRY_TABLE, FEEDBACK_TABLE, ITEM_TABLE, NAME_TABLE,
    OWN_ITEM_TABLE, USER_TABLE,
};
use crash_base::{ComponentName, ComponentNo, OutOfMemory};
use deployment::{
    ComponentList, ComponentPart, Deployment, MethodList, MethodPart, Parts, Reference,
    ReferenceList, TableList, TablePart, one_call,
};
use std::alloc::Global;

/// Adds a component with one idempotent method `call`.
fn add_caller(alloc: Global, components: &mut ComponentList, name: &[u8]) -> Result<(), OutOfMemory>
    ensures { OnOk result (components.new ≡ components.old ++ caller name.now ∷ []) }
{
    let part = ComponentPart {
        name: ComponentName::copied(alloc, name)?,
        methods: one_call(alloc)?,
    };
    components.push(part)
}

fn add_method(
    alloc: Global,
    methods: &mut MethodList,
    name: &[u8],
    idempotent: bool,
) -> Result<(), OutOfMemory>
    ensures { OnOk result
        (methods.new ≡ methods.old ++ record { name = name.now; idempotent = idempotent } ∷ []) }
{
    let method = MethodPart {
        name: ComponentName::copied(alloc, name)?,
        idempotent,
    };
    methods.push(method)
}

/// Adds the component that buys.
fn add_purchases(alloc: Global, components: &mut ComponentList) -> Result<(), OutOfMemory>
    ensures { OnOk result (components.new ≡ components.old ++ purchases ∷ []) }
{
    let mut methods = MethodList::new(alloc);
    add_method(alloc, &mut methods, b"call", true)?;
    add_method(alloc, &mut methods, b"buy", false)?;
    let part = ComponentPart {
        name: ComponentName::copied(alloc, b"Purchases")?,
        methods,
    };
    components.push(part)
}

#[tactic(auto, unfolding(crate::specs::Parts::site_components))]
fn add_components(alloc: Global, components: &mut ComponentList) -> Result<(), OutOfMemory>
    ensures { OnOk result (components.new ≡ components.old ++ site_components) }
{
    add_caller(alloc, components, b"Web")?;
    add_caller(alloc, components, b"Users")?;
    add_caller(alloc, components, b"Numbers")?;
    add_caller(alloc, components, b"Items")?;
    add_caller(alloc, components, b"Categories")?;
    add_caller(alloc, components, b"Bids")?;
    add_purchases(alloc, components)?;
    add_caller(alloc, components, b"Feedback")?;
    Ok(())
}

fn reference(from: u16, to: u16, hard: bool) -> Reference
    ensures { result ≡ reference from to hard }
{
    Reference {
        from: ComponentNo(from),
        to: ComponentNo(to),
        hard,
    }
}

#[tactic(auto, unfolding(crate::specs::Parts::site_references))]
fn references(alloc: Global) -> Result<ReferenceList, OutOfMemory>
    ensures { IfOk result (λ references. references ≡ site_references) }
{
    let references = vec![in alloc;
        reference(WEB, USERS, false),
        reference(WEB, NUMBERS, false),
        reference(WEB, ITEMS, false),
        reference(WEB, CATEGORIES, false),
        reference(WEB, BIDS, false),
        reference(WEB, PURCHASES, false),
        reference(WEB, FEEDBACK, false),
        reference(BIDS, ITEMS, true),
        reference(PURCHASES, ITEMS, true),
        reference(FEEDBACK, USERS, true),
        reference(FEEDBACK, ITEMS, false),
    ]?;
    Ok(ReferenceList::from_vec(references))
}

fn table(number: u8, owner: u16) -> TablePart
    ensures { result ≡ table number owner }
{
    TablePart {
        table: number,
        owner: ComponentNo(owner),
    }
}

/// The tables of the site, each with its owner.
#[tactic(auto, unfolding(crate::specs::Parts::site_tables))]
pub fn site_tables() -> [TablePart; 9]
    ensures { result ≡ site_tables }
{
    [
        table(USER_TABLE, USERS),
        table(NAME_TABLE, USERS),
        table(COUNTER_TABLE, NUMBERS),
        table(ITEM_TABLE, ITEMS),
        table(ENTRY_TABLE, ITEMS),
        table(OWN_ITEM_TABLE, ITEMS),
        table(CATEGORY_TABLE, CATEGORIES),
        table(BID_TABLE, BIDS),
        table(FEEDBACK_TABLE, FEEDBACK),
    ]
}

fn tables(alloc: Global) -> Result<TableList, OutOfMemory>
    ensures { IfOk result (λ tables. tables ≡ site_tables) }
{
    let mut tables = Vec::new(alloc);
    tables.extend_from_slice(site_tables().as_slice())?;
    Ok(TableList::from_vec(tables))
}

/// The parts of the site.
fn site_parts(alloc: Global) -> Result<Parts, OutOfMemory>
    ensures { IfOk result (λ parts. parts ≡ site_parts) }
{
    let mut components = ComponentList::new(alloc);
    add_components(alloc, &mut components)?;
    Ok(Parts {
        components,
        references: references(alloc)?,
        tables: tables(alloc)?,
    })
}

/// The deployment of the auction site: eight components, of which each but Web, Numbers and Categories
/// is in a recovery group with another.
///
/// # Errors
/// `OutOfMemory` where there was no memory for the parts.
pub fn site_deployment(alloc: Global) -> Result<Deployment, OutOfMemory>
    ensures { IfOk result (λ deployment. deployment ≡ site_parts) }
{
    match Deployment::check(site_parts(alloc)?) {
        Ok(deployment) => Ok(deployment),
        Err(_) => unreachable!(),
    }
}
