//! Instances of components, by the generation that they were made in, and the fault plans that make components fail
//! until a reboot cures them.
//!
//! A container asks a pool at each frame of a call, and tells it each reboot:
//!
//! ```text
//! let mut pool = Pool::new(alloc, &deployment, plans);       // at its start
//! match pool.active(c) {                                     // at an enter that nothing else refuses
//!     Some((fault, FaultKind::Raise)) => ..,                  // refused: c raised, by the plan of this number
//!     Some((fault, FaultKind::Hang)) => ..,                   // refused: c hung, by the plan of this number
//!     _ => instances.push(pool.take(c, generation)?)?,        // entered; memory is wanted only for a new instance
//! }
//! pool.give(instances.pop().unwrap());                       // at an exit
//! pool.give_all(&mut instances);                             // where a call ends: those of its open frames
//! pool.drop_scope(scope);                                    // with the Down of the journal
//! let plans = left_by_process(pool.into_plans());            // to start the next container
//! ```
//!
//! So a component fails before the entering that it would count; and where `take` finds no memory the pool is as it
//! was, so the ticket may be left as it was too.
//!
//! A `Pool` keeps the plans as they were given. Of each component it keeps its group, how often it was entered, and how
//! often and how widely its group was rebooted: that is enough to tell which plans are cured. Instances are in one
//! `slab`, under the keys that are their numbers; those of a component that are idle are a chain through it, so one is
//! taken and given back without a search.
//!
//! A pool stands for a story: its plans, how often each component was entered, and at which levels each group was
//! rebooted, in order (`StandsFor`). Each call says what it makes of the story, and `active` answers what the story
//! says: the laws `reboots_cure_by_level`, `plans_are_active_until_cured` and `active_plans_are_found` say what that
//! is. An instance that is handed out was made in the present generation of its component and nobody else has it
//! (`HasTaken`), and no stale one is idle (`AreFresh`, which `Pool::instances` tells). Where the story's reboots are
//! those of a journal (`reboots_in`), the law `pools_follow_journals` takes the pool from entry to entry.
//!
//! Only `take` takes memory, for an instance that is new. A take and a give visit one instance each, a reboot each of
//! `MAX_GROUPS` components and the idle instances that go, and `active` the plans up to the one that it finds.
#![tactic(auto)]

mod chains;
mod component;
mod instance;
mod instances;
mod journal_laws;
mod laws;
mod levels;
mod plans;
mod pool;

pub use component::PooledComponent;
pub use instance::{Instance, InstanceNo};
pub use journal_laws::pools_follow_journals;
pub use laws::{
    active_plans_are_found, counts_reach_every_plan, plans_are_active_until_cured,
    reboots_cure_by_level,
};
pub use levels::{cures, level_of};
pub use plans::left_by_process;
pub use pool::Pool;
