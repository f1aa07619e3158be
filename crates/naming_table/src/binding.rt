//! What a name is bound to.

ghost use Rattle.std.specs.Prelude.{◌≡◌};
ghost use Rattle.naming_table.specs.Binding.{binding_of};

use crash_base::{ComponentNo, GroupNo, Place};
use journal_model::GroupStatus;

/// What a name is bound to: its component, or a sentinel in its place while its group is down.
#[derive(Clone, Copy)]
pub enum Binding {
    /// The component, whose group is up and was rebooted `generation` times.
    Live {
        component: ComponentNo,
        generation: u64,
    },
    /// The component's group is down, by the Down at this place of the journal.
    Sentinel {
        group: GroupNo,
        down: Place,
    },
}

/// The binding of a component whose group has this status.
pub(crate) fn binding_of(component: ComponentNo, group: GroupNo, status: GroupStatus) -> Binding
    ensures { result ≡ binding_of component group status }
{
    match status.down {
        None => Binding::Live {
            component,
            generation: status.generation,
        },
        Some(down) => Binding::Sentinel { group, down },
    }
}
