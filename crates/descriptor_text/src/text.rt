//! A text, and the deployment that it describes.

ghost use Rattle.std.specs.Prelude.{◌≡◌, IfOk, MatchOption};
ghost use Rattle.toml.specs.View.{table_view};
ghost use Rattle.descriptor_text.specs.Refusals.{IsReadAs};
ghost use Rattle.descriptor_text.specs.Text.{IsAnswer, SpellsDocument, SpellsNoDocument, parts_in};

use crate::assembly::assembled;
use crate::description::descriptions_in;
use crate::refusals::{ReadRefusal, TextRefusal, WrongField};
use crash_base::OutOfMemory;
use deployment::{Deployment, Parts};
use std::alloc::Global;
use toml::Table;

/// The document that bytes spell. None exactly where they spell none.
fn read_document(alloc: Global, text: &[u8]) -> Result<Option<Table>, OutOfMemory>
    ensures { IfOk result (λ found. MatchOption found (SpellsNoDocument text.now)
        (λ document. SpellsDocument text.now (table_view document))) }
{
    match toml::table_from_slice(alloc, text) {
        Ok(document) => Ok(Some(document)),
        Err(e) => {
            if e.is_memory() {
                Err(OutOfMemory)
            } else {
                Ok(None)
            }
        }
    }
}

/// The parts that a document describes, or the first key of it that has another form.
fn parts_in(alloc: Global, document: &Table) -> Result<Parts, ReadRefusal<WrongField>>
    ensures { IsReadAs result (parts_in (table_view document.now)) }
{
    let descriptions = descriptions_in(alloc, document)?;
    Ok(assembled(alloc, descriptions)?)
}

/// The deployment that a text describes. The crate's page says how a text looks, and `TextRefusal`
/// when each refusal comes. It visits each byte of the text, and for each name in `hard` and `soft`
/// the components up to the first of that name; then the parts are checked.
pub fn read_descriptors(alloc: Global, text: &[u8]) -> Result<Deployment, TextRefusal>
    ensures { IsAnswer text.now result }
{
    let Some(document) = read_document(alloc, text)? else {
        return Err(TextRefusal::NotToml);
    };
    match parts_in(alloc, &document) {
        Err(ReadRefusal::OutOfMemory) => Err(TextRefusal::OutOfMemory),
        Err(ReadRefusal::Wrong(WrongField { component, field })) => {
            Err(TextRefusal::Field { component, field })
        }
        Ok(parts) => match Deployment::check(parts) {
            Ok(deployment) => Ok(deployment),
            Err(refusal) => Err(TextRefusal::Deploy(refusal)),
        },
    }
}
