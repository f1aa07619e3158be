//! The names of a deployment's components, and what each is bound to while groups are rebooted.
//!
//! A caller asks for a component by its name. The answer is the component, with the number of reboots of
//! its group, or, while the group is down, a sentinel that says which Down of the journal keeps it down:
//!
//! ```text
//! let mut names = Names::new(alloc, &deployment)?;
//! names.set_scope_down(scope, place);
//! match names.look(&name) {
//!     Some(Binding::Live { component, generation }) => ..,
//!     Some(Binding::Sentinel { group, down }) => ..,
//!     None => ..,
//! }
//! ```
//!
//! `Names` keeps a copy of each name and the status of each of `MAX_GROUPS` groups. Where its owner sets a
//! scope down and up at each Down and Up of a journal whose reboots are in turn, it follows that journal:
//! `look` then answers exactly what `binding_in` says of the deployment and the journal. The laws
//! `bindings_show_groups`, `names_follow_journals`, `last_step_counts` and `looks_follow_steps` say what
//! that is.
//!
//! Only `Names::new` takes memory. A look visits each name up to the one that it finds.
#![tactic(auto)]

mod binding;
mod bound;
mod laws;
mod names;

pub use binding::Binding;
pub use bound::{BoundList, BoundName};
pub use laws::{bindings_show_groups, last_step_counts, looks_follow_steps, names_follow_journals};
pub use names::Names;
