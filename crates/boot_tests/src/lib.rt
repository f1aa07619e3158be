//! Tests of deployments, of their descriptors and names, of pools, of reports and the decisions on them, of rows, of
//! requests, of tickets, of programs and plans, of boots and their journals, of containers over their keepers, of
//! components that fail and what cures them, of the tries of requests, and of workloads, through public calls.
//!
//! Most tests go through a table of rows. What a row's calls answer is put into words, each with a space before it, and
//! these are compared with the words that the row wants. A row that fails is shown whole. What an index finds is
//! compared with what a plain scan finds over generated journals, and what is decided on generated reports with what a
//! plain count decides.
#![tactic(auto)]

#[cfg(test)]
mod boot_calls;
#[cfg(test)]
mod boot_fixtures;
#[cfg(test)]
mod boot_steps;
#[cfg(test)]
mod boots;
#[cfg(test)]
mod container_fixtures;
#[cfg(test)]
mod container_steps;
#[cfg(test)]
mod containers;
#[cfg(test)]
mod deploy_words;
#[cfg(test)]
mod deployments;
#[cfg(test)]
mod descriptors;
#[cfg(test)]
mod faults;
#[cfg(test)]
mod instances;
#[cfg(test)]
mod journals;
#[cfg(test)]
mod keepers;
#[cfg(test)]
mod kept_words;
#[cfg(test)]
mod managers;
#[cfg(test)]
mod names;
#[cfg(test)]
mod notes;
#[cfg(test)]
mod parts;
#[cfg(test)]
mod plans;
#[cfg(test)]
mod pool;
#[cfg(test)]
mod programs;
#[cfg(test)]
mod requests;
#[cfg(test)]
mod row_index;
#[cfg(test)]
mod rows;
#[cfg(test)]
mod scores;
#[cfg(test)]
mod scripts;
#[cfg(test)]
mod stamps;
#[cfg(test)]
mod starts;
#[cfg(test)]
mod tickets;
#[cfg(test)]
mod tries;
#[cfg(test)]
mod words;
#[cfg(test)]
mod workloads;
