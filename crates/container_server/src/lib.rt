//! A site that is served by threads: workers, one that decides on reboots, and one that sweeps the bricks.
//!
//! ```text
//! let (status, closed, keeper) = run_serve(rt, alloc, &gate, 8, &config, 3, &mut errors, keeper);
//! ```
//!
//! A `Gate` gives connections, and each thread its tools. Workers serve connections by `serve_gated` of
//! `connection_server`, in one container, under its locks. The deciding thread takes the reports of requests that
//! failed, asks a `Manager` what is to be rebooted, and does so. Where the process is to be rebooted, it stops the
//! container: then all threads end, and the container is started again over its keeper.
//!
//! What is promised is `RanOver` of `specs/Running`: there were boots, one after the other over the same keeper, each
//! over just the rows that the one before left, as far as the keeper tells them; each left a sound container; and how
//! it ended.
//!
//! `is_restart_due` is the rule by which a restart is planned before a boot's journal is full.
#![tactic(auto)]

mod boot;
mod config;
mod crew;
mod deciding;
mod gate;
mod laws;
mod pace;
mod planning;
mod seats;
mod serve;
mod signals;
mod site;
mod sweeping;
mod tools;
mod working;

pub use config::SiteConfig;
pub use connection_server::{Point, Points};
pub use gate::Gate;
pub use laws::{boots_follow_each_other, servers_end_over_their_last_boot};
pub use planning::is_restart_due;
pub use serve::run_serve;
