//! Tests of the rows and the rules of the auction, of the texts of its calls, and of the pieces of its actions, through
//! public calls.
//!
//! Most tests go through a table of rows. What a row's call answers is put into words, each with a space
//! before it, and these are compared with the words that the row wants. A row that fails is shown
//! whole. The bytes that are wanted were worked out by hand from the order of the fields.
#![tactic(auto)]

#[cfg(test)]
mod checking;
#[cfg(test)]
mod links;
#[cfg(test)]
mod pieces;
#[cfg(test)]
mod ranges;
#[cfg(test)]
mod rows;
#[cfg(test)]
mod rules;
#[cfg(test)]
mod shown;
#[cfg(test)]
mod texts;
#[cfg(test)]
mod words;
