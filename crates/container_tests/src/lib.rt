//! Tests of a site that is served by threads, over gates in memory and real threads: what the log says, when a restart
//! is planned, that bricks are swept, that a group is rebooted while a request is held, how a server ends, and what
//! stays over a restart. Each ends by itself, whatever the schedule.
#![tactic(auto)]

pub mod clients;
#[cfg(test)]
mod ends;
pub mod floods;
pub mod links;
#[cfg(test)]
mod logs;
#[cfg(test)]
mod planning;
pub mod reboots;
#[cfg(test)]
mod restarts;
#[cfg(test)]
mod served;
pub mod starts;
pub mod stories;
pub mod sweeps;
#[cfg(test)]
mod threads;
