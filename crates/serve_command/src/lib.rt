//! The command `serve PORT FILE KEYFILE WORKERS`: the shop on a port of 127.0.0.1, over a database in a file.
//!
//! ```text
//! let Some(said) = serve_words(words) else { .. };        // `serve 8080 shop.db shop.key 8`
//! let (status, errors) = serve(&rt, &rt, &said, errors);  // to its end, which it need not have
//! ```
//!
//! `words` says which words spell it, `key` what a key is, `ending` why a server is not started, with its status and
//! its lines, and `command` what is done in which order: the file of the key, the database and the port are opened,
//! bricks and links are made, and `run_serve` of `container_server` serves over them. `last_line` keeps the line of its
//! end back, until `reasons` has said why.
//!
//! What is promised is of these words, keys, statuses and lines, exactly: `serve_words` with the law
//! `serve_is_spelled_by_five_words`, `read_key` and `report_fault`. Of `serve` it is `HasServedShop` of
//! `specs/Serving`. It tells why nothing was started, as far as no write fails, and the status is that of the fault; or
//! it tells what it serves, likewise and if there is memory for the line, and then a server ran as `run_serve`
//! promises, over a keeper that tells nothing and has not failed yet, with no fault plans, and the status is that of
//! its end. What stands between the server and `errors` counts no faults but those of that sink, and what it keeps is
//! written last, behind the reason; or a part of this, or nothing of it, where a write failed.
//!
//! What the system opens, reads, accepts, tells and draws no contract can say, nor that what was opened is what is
//! served with: `opening`, `gate`, `house` and the rest of `command` are short, and to be read.
//!
//! A keeper is on the heap, and each thread's link and random source are made before the first connection is taken.
#![tactic(auto)]

mod command;
mod ending;
mod file_keeper;
mod gate;
mod house;
mod key;
mod last_line;
mod laws;
mod opening;
mod reasons;
mod words;

pub use command::serve;
pub use ending::{StartFault, report_fault};
pub use key::{KeyFault, MAX_KEY_BYTES, MIN_KEY_BYTES, read_key};
pub use laws::{serve_is_spelled_by_five_words, served_shops_tell_why_they_end};
pub use words::{MAX_PORT, MAX_WORKERS, ServeWords, serve_words};
