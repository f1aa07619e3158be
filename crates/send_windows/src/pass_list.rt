//! Passes that were taken together.

ghost use Rattle.std.specs.Prelude.{◌≡◌, ◌<◌, length, map};
ghost use Rattle.send_windows.specs.Passes.{marked, hushed, AreHeard};

use crate::history::MarkRoom;
use crate::pass::{Pass, PassMark, hushed};
use std::marker::Model;

/// Passes that were taken together, with the room that `Windows::spend` will need. Passes that are
/// dropped stay in flight: the history of the windows shows which were spent.
#[derive(Drop)]
pub struct PassList {
    passes: Vec<Pass>,
    room: MarkRoom,
}

impl Model for PassList {
    ghost use Rattle.std.specs.Prelude.{List};
    ghost use Rattle.send_windows.specs.declared.pass.Pass.{Pass};

    ghost Value = { List Pass };

    ghost view = { λ a. a.passes.items };
}

/// The parts of passes that were taken together.
#[derive(Drop)]
pub(crate) struct PassParts {
    pub(crate) passes: Vec<Pass>,
    pub(crate) room: MarkRoom,
}

/// Marks each unheard pass Silent.
fn hush_all(passes: &mut Vec<Pass>)
    ensures { passes.new.items ≡ map hushed passes.old.items }
{
    for pass in passes.iter_mut() {
        *pass = hushed(*pass);
    }
}

impl PassList {
    /// Passes, and room for the mark that they were spent.
    pub(crate) fn new(passes: Vec<Pass>, room: MarkRoom) -> PassList
        ensures { result ≡ passes.items }
    {
        PassList { passes, room }
    }

    /// The passes and the room.
    pub(crate) fn into_parts(self) -> PassParts
        ensures { result.passes.items ≡ self }
    {
        let PassList { passes, room } = self;
        PassParts { passes, room }
    }

    /// The passes, in the order in which they were taken. It takes no memory.
    pub fn as_slice(&self) -> &[Pass]
        ensures { result.now ≡ self.now }
    {
        self.passes.as_slice()
    }

    /// How many passes there are. It takes no memory.
    pub fn len(&self) -> usize
        ensures { result ≡ length self.now }
    {
        self.passes.len()
    }

    /// Marks the pass at a place. It takes no memory.
    pub fn mark(&mut self, at: usize, mark: PassMark)
        requires { at < length self.old }
        ensures { self.new ≡ marked self.old at mark }
    {
        self.passes[at].mark = mark;
    }

    /// Marks each unheard pass Silent. It visits each pass, and takes no memory.
    pub fn hush(&mut self)
        ensures passes { self.new ≡ map hushed self.old }
        ensures heard { AreHeard self.new }
    {
        hush_all(&mut self.passes);
    }
}
