//! Words that threads share without a lock: one from which serial numbers are drawn, and one for the generation of each
//! group.
//!
//! A thread draws and looks with a seat of the words, and waits for nobody:
//!
//! ```text
//! let (words, mut seat) = Words::new(alloc, 64, 8)?;   // 64 groups; this seat has all 8 parts
//! let mut theirs = words.split(&mut seat, 1);          // a seat with one of them, for another thread
//!
//! let serial = words.draw(&mut seat)?;                 // no seat has drawn it
//! words.raise(&mut seat, group, generation);           // a reboot of the group
//! if words.look(&mut theirs, group) != known { .. }    // it was rebooted, perhaps: ask the container
//!
//! words.join(&mut seat, theirs);                       // once the other thread is done
//! ```
//!
//! Contracts see of a seat which words it is of, how many of their parts it has, the numbers that it drew, the greatest
//! serial word that it saw, and the generations that it saw or raised (`WordSeatValue` of `specs/Words`). The numbers
//! of one seat differ, and once two seats are joined those of both do. What a seat sees is never less than what it saw.
//!
//! The words are a table of `atomic_table` without slots. Its rule is `Kept` of `specs/Rule`, and `src/steps` has its
//! six kinds of step, each with what it tells. A draw looks at the serial word before it draws, so what it draws may be
//! beyond what it looked at. A seat between the two has a part of its own, and the parts are fewer than 2^32: so the
//! serial word stays below 2^62 + 2^32, and never wraps.
//!
//! What is seen of a generation is seen of the past, since another thread may raise it at once. No promise rests on it
//! but that a group's generation never falls.
//!
//! `new` takes memory, and nothing else does.
#![tactic(auto)]

mod plays;
mod seat;
mod steps;
mod view;
mod words;

pub use seat::WordSeat;
pub use words::Words;
