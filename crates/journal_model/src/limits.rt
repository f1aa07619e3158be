//! How full a journal may be.

/// The most entries of a journal, with the place that is kept for each Up that has not come.
pub const MAX_ENTRIES: u64 = 262_144;

/// The most bytes of a journal.
pub const MAX_JOURNAL_BYTES: u64 = 268_435_456;

/// How full a journal may be.
#[derive(Clone, Copy)]
pub struct JournalLimits {
    /// The most entries, with the place that is kept for each Up that has not come.
    pub entries: u64,
    /// The most bytes: of the rows that are written, of the values that were read, and of the texts, pages and
    /// sessions of actions.
    pub bytes: u64,
}

/// How full a journal is.
#[derive(Clone, Copy)]
pub struct FullAt {
    /// The entries so far, with the place that is kept for each Up that has not come.
    pub entries: u64,
    /// The bytes so far.
    pub bytes: u64,
}
