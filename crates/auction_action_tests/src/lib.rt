//! Tests of the sixteen actions of the auction, each run as a program over rows in memory.
//!
//! Most tests go through tables of rows: a call, the rows in which the shop differs from the one that the test names,
//! and then what is wanted: the answer, the rows that are put, and the session. What a program did is put into the same
//! words, and these are compared. A row that fails is shown whole. What is wanted was worked out by hand from the
//! formats of rows and pages, and the digests outside. `containers` runs actions over a container, while others act and
//! groups are rebooted between their steps.
#![tactic(auto)]

#[cfg(test)]
mod bid_cases;
#[cfg(test)]
mod calls;
#[cfg(test)]
mod coherence;
#[cfg(test)]
mod containers;
#[cfg(test)]
mod driver;
#[cfg(test)]
mod feedback_cases;
#[cfg(test)]
mod form_cases;
#[cfg(test)]
mod last_cases;
#[cfg(test)]
mod list_cases;
#[cfg(test)]
mod many_cases;
#[cfg(test)]
mod pages;
#[cfg(test)]
mod row_words;
#[cfg(test)]
mod rows_read;
#[cfg(test)]
mod sell_cases;
#[cfg(test)]
mod sequence;
#[cfg(test)]
mod shop;
#[cfg(test)]
mod steps;
#[cfg(test)]
mod tables;
#[cfg(test)]
mod user_cases;
#[cfg(test)]
mod words;
