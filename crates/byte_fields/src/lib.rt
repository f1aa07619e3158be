//! Fields of bytes: numbers, texts and the like, read off the front of bytes and written at the end of
//! others.
//!
//! What is kept or sent as bytes is spelled by its fields, one after the other. This crate has the fields
//! of which frames are made, and the rows and the calls of the auction.
//!
//! ```text
//! let (user, rest) = id_at(bytes)?;         // eight bytes, of which the first four are 0
//! let (name, rest) = text_at(rest)?;        // 2 bytes of its length, and its bytes, which are UTF-8
//! write_id(&mut out, user)?;
//! write_text(&mut out, name)?;              // `out` has ended with just those bytes again
//! ```
//!
//! | Field | Its bytes |
//! |---|---|
//! | a number of one, two, four or eight bytes | the bytes of the number, big end first |
//! | an id | a number of eight bytes that is at most 4,294,967,295 |
//! | a truth value | 1 or 0, in one byte |
//! | an array, or as many bytes as are asked for | the bytes |
//! | a text | its length in two bytes, big end first, and then its bytes, which are UTF-8 |
//!
//! A reader answers the value at the front of bytes and the bytes after it, and `NoField` exactly where
//! they do not begin with one; `bytes_at`, `number_at`, `id_at`, `text_at` and so on of `specs/Reading.antt`
//! say which they are. No reader copies or takes memory. A writer puts just the bytes of
//! `specs/Spelling.antt` behind those that are there, unless memory runs out.
//!
//! Where fields are read to a value that takes memory, `?` makes a `ReadError` of a `NoField` and of an
//! `OutOfMemory`, and `found` tells the two apart at the end.
//!
//! The fields are exact, which `proofs/ExactFields.antt` has for each of them: what is read is spelled so,
//! and what is spelled so is read, whatever follows it. A crate above cites these lemmas for the values that
//! it spells (`taken`, `again`), and those of `proofs/MadeFields.antt` for a field that is made of others.
#![tactic(auto)]

mod bytes;
mod error;
mod reading;
mod writing;

pub use bytes::{bytes_are_in_range, is_utf8};
pub use error::{NoField, ReadError, found};
pub use reading::{array_at, bytes_at, flag_at, id_at, text_at, u8_at, u16_at, u32_at, u64_at};
pub use writing::{flag_number, write_id, write_text, write_u8, write_u16, write_u32, write_u64};
