//! Tests of requests on their way through the container, the windows and a link in memory, each a step at a time.
//!
//! Most tests go through tables of rows: what clients ask for, what happens between two steps, and then what is wanted:
//! what the client is answered, and the item. What was found is put into the same words, and these are compared. A row
//! that fails is shown whole. What is wanted was worked out by hand from the formats of requests, pages and rows;
//! tokens, cookies and digests come from Python's `hmac`, `hashlib` and `base64`.
#![tactic(auto)]

#[cfg(test)]
mod client;
#[cfg(test)]
mod connection;
#[cfg(test)]
mod cuts;
#[cfg(test)]
mod faults;
#[cfg(test)]
mod happening;
#[cfg(test)]
mod interleaved;
#[cfg(test)]
mod outcomes;
#[cfg(test)]
mod play;
#[cfg(test)]
mod reboots;
#[cfg(test)]
mod scene;
#[cfg(test)]
mod story;
#[cfg(test)]
mod telling;
#[cfg(test)]
mod words;
