//! Tests of ids and lists, of what is outside, of the keeper over a database in memory, of pages, and of the lines of a
//! scenario, through public calls.
//!
//! Most tests go through a table of rows. What a row's call answers is put into words, each with a
//! space before it, and these are compared with the words that the row wants. A row that fails is
//! shown whole. A row of a keeper is spelled by a word: `3.7=ab` is the row of table 3 and key 7, whose bytes are the
//! text `ab`.
#![tactic(auto)]

#[cfg(test)]
mod answers;
#[cfg(test)]
mod asked;
#[cfg(test)]
mod bases;
#[cfg(test)]
mod decisions;
#[cfg(test)]
mod forms;
#[cfg(test)]
mod heads;
#[cfg(test)]
mod intakes;
#[cfg(test)]
mod keeper_opening;
#[cfg(test)]
mod keeper_rows;
#[cfg(test)]
mod keeper_words;
#[cfg(test)]
mod lines;
#[cfg(test)]
mod outsides;
#[cfg(test)]
mod pages;
#[cfg(test)]
mod responses;
#[cfg(test)]
mod routes;
#[cfg(test)]
mod scenario_lines;
#[cfg(test)]
mod seat_lines;
#[cfg(test)]
mod session_lines;
#[cfg(test)]
mod words;
