//! What happened to a container: its start, its entries, and the marks between them.

ghost use Rattle.std.specs.Prelude.{◌≡◌, ◌≤◌, ◌<◌, ◌+◌, ◌^◌, [], ◌∷◌, ◌++◌, length, if◌then◌else◌, false, IfOk, OnOk, OnErr};
ghost use Rattle.container_core.specs.History.{HistoryValue, has_stop, mark_at};
ghost use Rattle.container_core.specs.declared.history.MarkedEvent.TheVariants as marked;

use boot_core::{Entry, Start};
use crash_base::{OutOfMemory, Place, RequestNo};
use std::alloc::Global;
use std::marker::Model;

/// What happened to a container. Contracts speak of it, and no call hands one out now.
#[derive(Drop)]
pub enum Event {
    /// It was started.
    Started(Start),
    /// An entry joined its journal.
    Added(Entry),
    /// The keeper failed, so a commit of this request left nothing.
    KeeperFailed(RequestNo),
    /// It was stopped.
    Stopped,
}

/// An event that is no entry.
#[derive(Clone, Copy)]
pub enum MarkedEvent {
    KeeperFailed(RequestNo),
    Stopped,
}

/// A mark of the history: an event that is no entry, and the number of entries before it. Contracts alone speak of it.
#[derive(Clone, Copy)]
pub struct HistoryMark {
    pub place: Place,
    pub event: MarkedEvent,
}

/// The marks of a history. It has room for the mark of a stop from its making on.
#[derive(Drop)]
pub(crate) struct History {
    marks: Vec<HistoryMark>,
    stopped: bool,
}

impl Model for History {
    ghost use Rattle.std.specs.Prelude.{◌-◌, ◌+◌, ◌≤◌, ◌≡◌, vec_len, vec_capacity, if◌then◌else◌};
    ghost use Rattle.container_core.specs.History.{HistoryValue, has_stop};

    ghost Value = { HistoryValue };

    ghost view = { λ h. record {
      marks = h.marks.items;
      spare = vec_capacity h.marks - (vec_len h.marks + (if h.stopped then 0 else 1));
    } };

    ghost invariant = { λ h. (h.stopped ≡ has_stop h.marks.items)
        × (vec_len h.marks + (if h.stopped then 0 else 1) ≤ vec_capacity h.marks) };
}

impl History {
    /// A history without marks. It takes the room of a stop.
    pub(crate) fn new(alloc: Global) -> Result<History, OutOfMemory>
        ensures { IfOk result (λ h. h.marks ≡ []) }
    {
        Ok(History {
            marks: Vec::with_capacity(alloc, 1)?,
            stopped: false,
        })
    }

    /// Takes room for one mark more, beside that of the stop.
    pub(crate) fn reserve(&mut self) -> Result<(), OutOfMemory>
        ensures marks { self.new.marks ≡ self.old.marks }
        ensures room { OnOk result (1 ≤ self.new.spare) }
    {
        Ok(self.marks.reserve(2)?)
    }

    /// Marks that the keeper failed at a commit. It takes no memory.
    pub(crate) fn add_failure(&mut self, place: Place, request: RequestNo)
        requires { 1 ≤ self.old.spare }
        ensures { self.new.marks
            ≡ self.old.marks ++ mark_at place (marked.KeeperFailed request) ∷ [] }
    {
        self.marks.push_reserved(HistoryMark {
            place,
            event: MarkedEvent::KeeperFailed(request),
        });
    }

    /// Marks that the container is stopped, where that is not marked. It takes no memory.
    pub(crate) fn stop(&mut self, place: Place)
        ensures { self.new.marks ≡ if has_stop self.old.marks then self.old.marks
            else self.old.marks ++ mark_at place marked.Stopped ∷ [] }
    {
        if !self.stopped {
            self.marks.push_reserved(HistoryMark {
                place,
                event: MarkedEvent::Stopped,
            });
            self.stopped = true;
        }
    }

    /// Whether a stop is marked.
    pub(crate) fn is_stopped(&self) -> bool
        ensures { result ≡ has_stop self.now.marks }
    {
        self.stopped
    }

    /// The number of marks. Each has memory, so they are below 2^63.
    pub(crate) fn len(&self) -> u64
        ensures value { result ≡ length self.now.marks }
        ensures few { result < 2 ^ 63 }
    {
        self.marks.len() as u64
    }
}
