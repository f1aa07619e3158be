//! Windows, which keep a service from drowning a slow brick.
//!
//! A service sends to a brick only by a pass. A pass is in flight from when it is given until it is
//! spent, and a brick's window is how many passes to it may be in flight at once. A pass that is
//! answered widens the window by one, and one that meets silence halves it:
//!
//! ```text
//! let mut windows = Windows::new(alloc, 3, 2, 2, false)?;
//! let mut passes = windows.take(alloc, 0)?;   // to bricks 1 and 2
//! passes.mark(0, PassMark::Answered);         // what became of each
//! passes.mark(1, PassMark::Silent);
//! windows.spend(passes);                      // 1 has window 5, 2 has window 2, 3 has window 4
//! ```
//!
//! `take` gives a pass to each of the first `w` bricks whose windows are open, gone round from a
//! number that the caller gives, so that load spreads. Where fewer than `wq` windows are open it gives
//! none, and tells each full window with its brick. Passes that were taken together are spent together,
//! by a call that takes no memory; a list that is dropped instead stays in flight. `try_pass` gives a
//! single pass, which `answered` or `silent` spends.
//!
//! The law `windows_are_of_spent_passes` says that nothing but the passes counts: a window starts at 4
//! and goes by the marks of the passes that were spent, between 1 and 64, and in flight are the passes
//! given less those spent. `windows_keep_their_limits` says that at most 64 are in flight to a brick,
//! so that no number overflows. `taken_passes_are_lawful` says that a list of passes has from `wq` to
//! `w` of them, to distinct bricks.
//!
//! Windows stand in one vector in order of number. A call visits each of the at most 16 bricks a few
//! times. Beside them stands a history, one mark for each list of passes that was taken, refused or
//! spent, of which contracts speak alone; it grows by one short node a mark, and each call says that the
//! history before it begins the one after it.
#![tactic(auto)]

mod fact;
mod facts;
mod history;
mod laws;
mod pass;
mod pass_list;
mod windows;

pub use fact::{FIRST_WINDOW, LARGEST_WINDOW, LEAST_WINDOW, MAX_BRICKS, WindowFact, WindowList};
pub use history::WindowMark;
pub use laws::{taken_passes_are_lawful, windows_are_of_spent_passes, windows_keep_their_limits};
pub use pass::{Pass, PassMark};
pub use pass_list::PassList;
pub use windows::{TakeRefusal, Windows};
