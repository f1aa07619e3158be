//! Tests of whole commands through `run_command`, over an outside and a keeper in memory, for what no command line can
//! give: a keeper that holds rows, fails and is looked at, and an outside that fails or is read in pieces. All other
//! scenarios are rows of the tables in `checks/scenarios`.
//!
//! `running` runs a command, `table` compares what it did with a row, `keepers` has the keepers, and the other modules
//! have the rows by topic. A row is a text whose parts are between bars, and in which a semicolon ends a line; a
//! failure prints its row.
mod failing_calls;
mod handed_back;
mod keepers;
mod kept_commits;
mod running;
mod serving;
mod starts;
mod streams;
mod table;
mod words;
mod workloads;
