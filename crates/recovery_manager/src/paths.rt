//! The components of a deployment, and those of them on a path.

ghost use Rattle.std.specs.Prelude.{◌≡◌, IfOk};
ghost use Rattle.recovery_manager.specs.Kept.{groups_of, known_path};

use crash_base::{ComponentNo, GroupNo, OutOfMemory, PathList};
use deployment::Deployment;
use std::alloc::Global;

/// The group of each component.
pub(crate) fn groups_of(alloc: Global, deployment: &Deployment) -> Result<Vec<GroupNo>, OutOfMemory>
    ensures { IfOk result (λ groups. groups.items ≡ groups_of deployment.now) }
{
    let mut groups = Vec::new(alloc);
    for c in 0..deployment.count() {
        groups.push(deployment.group_of(ComponentNo(c)))?;
    }
    Ok(groups)
}

/// The numbers on a path that are below `count`, in order.
pub(crate) fn known_path(path: PathList, count: usize) -> PathList
    ensures { result ≡ known_path count path }
{
    let mut components = path.into_vec();
    components.retain(|component| (component.0 as usize) < count);
    PathList::from_vec(components)
}
