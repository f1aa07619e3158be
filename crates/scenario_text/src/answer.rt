//! What a line of a scenario answers.

/// What a line of a scenario answers.
#[derive(Drop)]
pub enum LineAnswer {
    /// The state refuses the line, or the text spells none.
    Refused,
    /// The line is done, and writes nothing.
    Done,
    /// The line is done, and writes this text.
    Wrote(String),
}
