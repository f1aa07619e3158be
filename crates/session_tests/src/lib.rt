//! Tests of sessions through public calls, a module for each library or topic: of frames, bricks, cookies and tokens;
//! of windows, of writes and reads of sessions, of the way of a request with its session, and of the link in memory;
//! and of worlds.
//!
//! Most tests go through a table of rows. What a row's calls answer is put into words, each with a
//! space before it, and these are compared with the words that the row wants. A row that fails is
//! shown whole. Values of cookies, tokens and the HMAC that are wanted come from RFC 4231 and from
//! Python's `hmac` and `base64`. Scenarios of writes and reads are rows of the tables in `checks/scenarios`.
#![tactic(auto)]

#[cfg(test)]
mod asking;
#[cfg(test)]
mod brick_chance;
#[cfg(test)]
mod brick_limits;
#[cfg(test)]
mod brick_requests;
#[cfg(test)]
mod brick_scripts;
#[cfg(test)]
mod cookies;
#[cfg(test)]
mod frames;
#[cfg(test)]
mod hmac;
#[cfg(test)]
mod link;
#[cfg(test)]
mod over_link;
#[cfg(test)]
mod session_ways;
#[cfg(test)]
mod stub_calls;
#[cfg(test)]
mod stub_causes;
#[cfg(test)]
mod stub_replies;
#[cfg(test)]
mod stub_steps;
#[cfg(test)]
mod tokens;
#[cfg(test)]
mod windows;
#[cfg(test)]
mod words;
#[cfg(test)]
mod world_chance;
#[cfg(test)]
mod world_full;
#[cfg(test)]
mod world_rows;
#[cfg(test)]
mod world_words;
