//! Tests of the pieces on which threads meet, over real threads: a lock whose value counts who held it, words that are
//! drawn from and looked at, the queue of reports, a house of bricks, and sockets of clients. Each ends by itself,
//! whatever the schedule.
#![tactic(auto)]

pub mod hands;
#[cfg(test)]
mod houses;
pub mod links;
#[cfg(test)]
mod locks;
pub mod notes;
#[cfg(test)]
mod queues;
pub mod senders;
#[cfg(test)]
mod sockets;
#[cfg(test)]
mod words;
