//! A keeper of rows in a table of a database of SQL.
//!
//! It is made over an open connection, which it then owns:
//!
//! ```text
//! let mut keeper = SqlKeeper::new(connection)?;
//! keeper.apply(alloc, &writes)?;
//! let rows = keeper.load(alloc)?;
//! ```
//!
//! The rows stand in one table, which is made where there is none: the number of a row's table, its
//! key as eight bytes, big-endian, and its bytes. An `apply` is one transaction.
//!
//! The keeper tells nothing of its rows. That the database keeps what it is told and gives it back is
//! trusted, and so are the texts of the statements and the few lines that turn a row into values and
//! back. What is proved: `new` answers `OtherSchema` exactly where something else than this table
//! stands under its name, the count of faults rises by each `Failed` and by nothing else, and
//! `last_fault` is why a call was refused last.
#![tactic(auto)]

mod rows_fault;
mod rows_table;
mod sql_keeper;

pub use rows_fault::RowsFault;
pub use sql_keeper::{OpenFault, SqlKeeper};
