//! The history of windows, whose marks are put without memory into room that was taken before.

ghost use Rattle.std.specs.Prelude.{◌≡◌, [], ◌∷◌, ◌++◌};

use crash_base::OutOfMemory;
use std::alloc::Global;
use std::marker::Model;

/// What happened to windows. Contracts alone speak of it.
#[derive(Clone, Copy)]
pub enum WindowMark {
    /// They were made, with these numbers.
    Opened {
        bricks: u16,
        w: u16,
        wq: u16,
        holds: bool,
    },
    /// So many passes were taken together.
    Taken(u64),
    /// Passes were refused: too few windows were open.
    Refused,
    /// Passes that were taken together were spent.
    Spent,
}

/// Marks, the last one first.
enum Chain {
    End,
    Mark(WindowMark, Box<Chain>),
}

impl Drop for Chain {
    // A loop, since a derived drop would call itself once for each mark.
    fn drop(mut self) {
        loop {
            match self {
                Chain::End => return,
                Chain::Mark(_, before) => self = Box::into_inner(before),
            }
        }
    }
}

/// Marks, in order.
#[derive(Drop)]
pub(crate) struct Marks {
    last: Chain,
}

impl Model for Marks {
    ghost use Rattle.std.specs.Prelude.{List};
    ghost use Rattle.send_windows.specs.declared.history.WindowMark.{WindowMark};
    ghost use Rattle.send_windows.specs.History.{marks_in};

    ghost Value = { List WindowMark };

    ghost view = { λ a. marks_in a.last };
}

/// Room for one mark.
#[derive(Drop)]
pub(crate) struct MarkRoom {
    room: Box<Chain>,
}

impl MarkRoom {
    /// Room for one mark.
    pub(crate) fn new(alloc: Global) -> Result<MarkRoom, OutOfMemory> {
        Ok(MarkRoom {
            room: Box::new(alloc, Chain::End)?,
        })
    }
}

impl Marks {
    /// No marks. It takes no memory.
    pub(crate) fn new() -> Marks
        ensures { result ≡ [] }
    {
        Marks { last: Chain::End }
    }

    /// Adds a mark at the end. It takes no memory.
    pub(crate) fn put(&mut self, room: MarkRoom, mark: WindowMark)
        ensures { self.new ≡ self.old ++ mark ∷ [] }
    {
        let MarkRoom { room: mut place } = room;
        let before = std::mem::replace(&mut self.last, Chain::End);
        *place = before;
        self.last = Chain::Mark(mark, place);
    }
}
