//! Names that are bound.

ghost use Rattle.std.specs.Prelude.{◌≡◌, ◌<◌, ◌≤◌, length, All, IfOk, IfSome, position, bytes_eq};
ghost use Rattle.naming_table.specs.Binding.{names_of};

use crash_base::{ComponentName, ComponentNo, GroupNo, Items, MAX_GROUPS, OutOfMemory};
use deployment::Deployment;
use std::alloc::Global;

/// The name of a component, with the group that is rebooted with it.
#[derive(Drop)]
pub struct BoundName {
    /// Any bytes.
    pub name: ComponentName,
    /// A number below `MAX_GROUPS`.
    pub group: GroupNo,
}

/// Names in the order of the numbers of their components.
pub type BoundList = Items<BoundName>;

/// The names of a deployment. It visits each byte of each name.
pub(crate) fn bound_names(alloc: Global, deployment: &Deployment) -> Result<BoundList, OutOfMemory>
    ensures names { IfOk result (λ bound. bound ≡ names_of deployment.now) }
    ensures few { IfOk result (λ bound. length bound ≤ MAX_GROUPS) }
    ensures groups { IfOk result (λ bound. All (λ b. b.group.0 < MAX_GROUPS) bound) }
{
    let mut bound = BoundList::new(alloc);
    for (c, part) in deployment.parts().components.as_slice().iter().enumerate() {
        let name = ComponentName::copied(alloc, part.name.as_slice())?;
        let group = deployment.group_of(ComponentNo(c as u16));
        bound.push(BoundName { name, group })?;
    }
    Ok(bound)
}

/// The number of the first component of a name.
pub(crate) fn first_bound(bound: &[BoundName], name: &[u8]) -> Option<usize>
    ensures value { result ≡ position (λ b. bytes_eq b.name name.now) bound.now }
    ensures within { IfSome result (λ c. c < length bound.now) }
{
    bound.iter().position(|b| b.name.as_slice() == name)
}
