//! What reaches outside: where bytes come from, where bytes go, what keeps rows, what carries frames
//! to bricks, what gives serial numbers and random words, and what tells the present moment.
//!
//! A program is written over the traits `Source`, `Sink` and `Keeper`, and is handed an object of
//! each when it runs:
//!
//! ```text
//! fn copy<S: Source, T: Sink>(alloc: Global, from: &mut S, to: &mut T) -> Result<bool, InputRefusal> {
//!     let bytes = read_to_end(alloc, from, 65536)?;
//!     Ok(write_all(to, bytes.as_slice()).is_ok())
//! }
//! ```
//!
//! What an object tells of itself is a ghost member, an `Option`: the bytes that are left or that
//! were written, or the rows; None tells nothing, as of a real stream. Each object counts its faults,
//! and answers `Failed` only where that count rose (or is 2^64 - 1). So an object whose count
//! is as it was, and below that, has answered no `Failed` since.
//!
//! Kinds in memory fail by a list of call numbers (`BytesSource`, `BytesSink`, `MapKeeper`) or never
//! (`SureSource`, `SureSink`, `SureKeeper`), and their contracts say exactly what each call answers
//! and leaves. A `MapKeeper` keeps its rows in an ordered map, with one place for each id. A keeper
//! may be handed to another thread. `InputSource` and `OutputSink` are adapters over the standard streams.
//!
//! A `Link` tells a relation: which states a call, seen as an event, may lead to. It counts the silences
//! of each brick and the frames that came, and the law `links_count_their_events` says how far these
//! counts rise over any calls. `Serials` gives numbers, each once; `PlainSerials` counts them.
//!
//! A `Clock` tells moments that never fall, and a `Random` words of which it tells what it knows.
//! `PlainClock` stands until it is set, and `PlainRandom` counts; `SystemClock` and `SystemRandom` are
//! adapters over the system's, which may fail: they go on then, and count it.
#![tactic(auto)]

mod bytes_sink;
mod bytes_source;
mod clock;
mod failed;
mod feed;
mod input;
mod input_source;
mod keeper;
mod laws;
mod link;
mod lists;
mod map_keeper;
mod output_sink;
mod random;
mod row_map;
mod serials;
mod sink;
mod source;
mod sure_keeper;
mod sure_sink;
mod sure_source;
mod system_clock;
mod system_random;

pub use bytes_sink::BytesSink;
pub use bytes_source::BytesSource;
pub use clock::{Clock, MOMENTS_END, PlainClock, moments_add_up};
pub use failed::Failed;
pub use input::{InputRefusal, read_to_end};
pub use input_source::InputSource;
pub use keeper::{Keeper, KeeperFault};
pub use laws::{pieces_join, prefixes_join, telling_goes_back};
pub use link::{Link, LinkCounts, LinkEvent, Received, Sent, links_count_their_events};
pub use lists::{CallList, SizeList};
pub use map_keeper::MapKeeper;
pub use output_sink::OutputSink;
pub use random::{PlainRandom, Random};
pub use serials::{PlainSerials, SERIALS_END, Serials, Spent, serials_differ};
pub use sink::{Sink, write_all};
pub use source::Source;
pub use sure_keeper::SureKeeper;
pub use sure_sink::SureSink;
pub use sure_source::SureSource;
pub use system_clock::SystemClock;
pub use system_random::SystemRandom;
