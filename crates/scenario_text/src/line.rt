//! The lines of a scenario.

ghost use Rattle.std.specs.Prelude.{◌≡◌};
ghost use Rattle.scenario_text.specs.Line.{is_event};

use crate::boot_line::BootLine;
use crate::call_line::CallLine;
use crate::head_line::HeadLine;
use crate::seat_line::SeatLine;
use crate::session_line::SessionLine;
use crash_base::BoundedItems;

/// The most bytes of a line, without its line feed.
pub const MAX_LINE_BYTES: usize = 8192;

/// The most bytes that a line gives in hexadecimal, each by two digits.
pub const MAX_HEX_BYTES: usize = 4000;

/// The highest number of a caller. The lowest is 1.
pub const MAX_CALLER: u64 = 65_535;

/// Bytes that a line gives in hexadecimal.
pub type HexBytes = BoundedItems<u8, MAX_HEX_BYTES>;

/// A line of a scenario, sorted by what it acts on. A caller `cN` is its number N.
#[derive(Drop)]
pub enum Line {
    /// An empty line or a comment, which acts on nothing.
    Pass,
    /// The head.
    Head(HeadLine),
    /// The live call of this caller.
    Call(u64, CallLine),
    /// The live call of this caller, the boot and its keeper: the call commits.
    Commit(u64),
    /// The boot.
    Boot(BootLine),
    /// The boot and its keeper: the next boot starts.
    Reopen,
    /// The sessions.
    Session(SessionLine),
    /// The connections.
    Seat(SeatLine),
}

impl Line {
    /// Whether this is an event line: it is neither passed over nor part of the head.
    pub fn is_event(&self) -> bool
        ensures { result ≡ is_event self.now }
    {
        match self {
            Line::Pass | Line::Head(_) => false,
            Line::Call(_, _)
            | Line::Commit(_)
            | Line::Boot(_)
            | Line::Reopen
            | Line::Session(_)
            | Line::Seat(_) => true,
        }
    }
}
