//! The pieces of which the actions of the auction are made: what they answer and refuse, the rows that they read,
//! and the rows that they write.
//!
//! ```text
//! refuses_if(alloc, user == 0, 403, b"Sign in first")?;                    // refused, or it goes on
//! let item = asks_row::<ItemRow>(alloc, reads, item_id(7))?;             // the row of item 7, off the answers
//! write_row(alloc, &mut writes, item_id(7), &item)?;                     // the row as it is put
//! says_number(alloc, "Closed item ", 7)?                                 // 200, a page of this heading alone
//! ```
//!
//! A piece that takes an answer stops with `Stop::Ask` where none is left: the action wants to read that row or table
//! next. A piece that refuses stops with `Stop::Refuse` and the page of its refusal. `?` hands both on. By its contract
//! a piece comes just as far as the piece of the plan that has its name (`Pieces` of `auction_site`), and what it
//! answers, writes and links is that of `Answers` and `Outcomes`. A contract leaves open only whether memory runs out.
//!
//! | Piece | What it does | Cost |
//! |---|---|---|
//! | `refuses_if`, `refuses_by` | refuses where a test holds, or a rule refuses | a page where it refuses |
//! | `asks_row`, `asks_row_or`, `asks_no_row`, `asks_counter` | reads one row | one answer; its bytes are decoded |
//! | `asks_table` | lists one table | one answer; nothing is copied |
//! | `decoded` | refuses where bytes spell no row | a page where it refuses |
//! | `write_row`, `write_counter` | adds one row to those that are put | its bytes are encoded |
//! | `shows`, `shows_with_session`, `says`, `says_number` | an answer with its page | the bytes of the page |
//! | `answered` | an answer and nothing written | constant |
//! | `numbered_text` | a number behind a word | its bytes |
//! | `category_link`, `item_link`, `priced_link` | a line of a page | the bytes of its texts |
//! | `price` | the best bid, or the start where nothing was bid | constant |
//! | `is_last_number`, `next_number` | whether a count has come to the last number, and the number after it | constant |
#![tactic(auto)]

mod answers;
mod links;
mod numbers;
mod refusals;
mod rows;
mod writes;

pub use answers::{answered, numbered_text, says, says_number, shows, shows_with_session};
pub use links::{category_link, item_link, price, priced_link};
pub use numbers::{is_last_number, next_number};
pub use refusals::{decoded, refuses_by, refuses_if};
pub use rows::{asks_counter, asks_no_row, asks_row, asks_row_or, asks_table};
pub use writes::{write_counter, write_row};
