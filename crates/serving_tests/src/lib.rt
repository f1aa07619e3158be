//! Tests of connections that are served under locks, from their first byte to their end: over sources and sinks in
//! memory whose calls may fail, and beside reboots and a stop of the container.
#![tactic(auto)]

#[cfg(test)]
mod bids;
#[cfg(test)]
mod browser;
#[cfg(test)]
mod ends;
#[cfg(test)]
mod play;
#[cfg(test)]
mod shop;
pub mod site;
pub mod stops;
pub mod visitor;
