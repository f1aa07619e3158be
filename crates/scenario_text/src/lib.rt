//! The lines of a scenario, from text.
//!
//! A scenario is ASCII text of lines, as
//!
//! ```text
//! # a ledger with one table, and a desk that refers to it
//! component ledger
//! component desk
//! hard desk ledger
//! owns ledger 1
//! fault ledger 2 raise group
//! fault desk 0 hang process
//! limit 1000 65536
//! bricks 5 3 2
//! key 000102030405060708090a0b0c0d0e0f
//! begin c1
//! enter c1 desk
//! enter c1 ledger
//! read c1 1 7
//! list c1 1
//! put c1 1 7 00ff
//! exit c1
//! commit c1
//! begin c2
//! drop c2
//! down ledger
//! up ledger
//! reboot app
//! table
//! journal
//! report desk ledger
//! reopen
//! now 1000
//! write k1 00ff
//! fetch k1
//! cookie k1
//! present a-cookie
//! lose 1 1
//! mute 1 2
//! repeat 2 1
//! crash 1
//! sweep 1
//! sweep 2 900
//! values 1
//! windows
//! hold 4
//! free 4 answered
//! hold 3
//! free 3 silent
//! ```
//!
//! and one of the site, of which browsers ask over connections, as
//!
//! ```text
//! site
//! conn s1
//! bytes s1 474554202f20485454502f312e310d0a0d0a
//! step s1
//! run s1
//! end s1
//! ```
//!
//! `ended_line` takes the first line that has ended off a text, and `read_line` answers which line it spells. Words are
//! separated by single spaces. A name is 1 to 32 letters, digits or `_`; a caller is `c` and a number from 1 to 65,535
//! (`MAX_CALLER`), a session key is `k` and a number from 1 to 65,535 (`MAX_KEY`), and a connection is `s` and a number
//! from 1 to 64 (`MAX_SEAT`); numbers are decimal without leading zeros, and below 2^64, and a brick is a number from 1
//! on; bytes are in lower case hexadecimal, at most 4,000 (`MAX_HEX_BYTES`), and `-` where there are none. A text is
//! any word: some bytes of ASCII, none of them a space or a carriage return. So `present` has a text, and so have
//! `down`, `up` and `reboot`, whose text the boot is asked for. A pass is freed as `answered` or as `silent`. A
//! component that fails does `raise` or `hang`, and is cured by a reboot of its `group`, of the `app` or of the
//! `process`. A report has one name or more, as many as the line holds. An empty line passes, and so does a comment:
//! `#` and then ASCII without a carriage return. A line has at most 8,192 bytes (`MAX_LINE_BYTES`).
//!
//! A line is sorted when it is read, by what it acts on: the head, the live call of a caller, the boot,
//! the sessions, or the connections. So a new form has its place in one of `HeadLine`, `CallLine`, `BootLine`,
//! `SessionLine` and `SeatLine`, in its reading and in its spelling, and in what its group does.
//!
//! `read_line` is exact: it answers `line_of` of the text. `spelling_law` says that this is a line
//! exactly where the text is the words of that line, with its numbers, names, bytes and text in
//! their ranges; so only a line that passes has more than one spelling. `lines_law` says the same of
//! cutting. Reading visits each byte of a line a few times, and takes memory only for the names, the
//! bytes and the texts that the line says, without spare room but in the list of a report's names.
//! `write_hex` writes bytes as a line spells them.
#![tactic(auto)]

mod answer;
mod arguments;
mod boot_line;
mod call_line;
mod cutting;
mod fields;
mod head_line;
mod laws;
mod line;
mod reading;
mod seat_line;
mod seat_reading;
mod session_line;
mod session_reading;
mod setup;
mod texts;
mod words;

pub use answer::LineAnswer;
pub use boot_line::{BootLine, MAX_PATH, NameList};
pub use call_line::CallLine;
pub use cutting::ended_line;
pub use fields::decimal_number;
pub use head_line::{CureLevel, HeadLine};
pub use laws::{lines_law, spelling_law};
pub use line::{HexBytes, Line, MAX_CALLER, MAX_HEX_BYTES, MAX_LINE_BYTES};
pub use reading::read_line;
pub use seat_line::{MAX_SEAT, SeatLine};
pub use session_line::{Freed, MAX_KEY, SessionLine};
pub use setup::{BrickCounts, LEAST_KEY_BYTES, MOST_KEY_BYTES, Setup};
pub use texts::write_hex;
