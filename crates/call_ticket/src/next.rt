//! The steps of a program, and their answers.

use crash_base::{ComponentNo, Items, RowBytes, RowId, RowList, RowWrite};
use journal_model::DoneText;

/// The step that a program asks for.
#[derive(Drop)]
pub enum Next {
    /// Enters a component by a method.
    Enter { component: ComponentNo, method: u8 },
    /// Reads a row.
    Read(RowId),
    /// Lists a table, by its number.
    List(u8),
    /// Puts a row.
    Put(RowWrite),
    /// Leaves the component that was entered last.
    Exit,
    /// The call is done, and answers this.
    Done(DoneText),
}

/// The answer to a step. `Done` has none.
#[derive(Drop)]
pub enum Answer {
    /// To an enter.
    Entered,
    /// To a read: the bytes of the row, or None where it is not there.
    Row(Option<RowBytes>),
    /// To a list: the rows of the table, in order of key.
    Rows(RowList),
    /// To a put.
    Kept,
    /// To an exit.
    Left,
}

/// The answers that a program had so far, in order.
pub type AnswerList = Items<Answer>;
