//! The most that one call may hold.

/// The most open frames of a call.
pub const MAX_FRAMES: usize = 16;

/// The most steps of a call: each enter, exit, read, list and put is one.
pub const MAX_STEPS: u64 = 128;

/// The most rows and tables that a call marks as read.
pub const MAX_MARKS: usize = 64;

/// The most rows that a call writes.
pub const MAX_WRITES: usize = 16;
