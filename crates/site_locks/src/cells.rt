//! What the locks are round.

ghost use Rattle.container_core.specs.Container.{events_of};

use container_core::{Container, Event};
use outside::Keeper;
use send_windows::{WindowMark, Windows};
use turn_lock::{Chronicle, Seat};

/// A container, as a lock has it: its history is its start, its entries and its marks.
#[derive(Drop)]
pub struct ContainerCell<K: Keeper + Drop> {
    pub(crate) inner: Container<K>,
}

impl<K: Keeper + Drop> Chronicle for ContainerCell<K> {
    type Event = Event;

    ghost events = { λ cell. events_of cell.inner };
}

/// A seat of the lock of a container.
pub type ContainerSeat<K> = Seat<ContainerCell<K>>;

/// Windows, as a lock has them: their history is their marks.
#[derive(Drop)]
pub struct WindowsCell {
    pub(crate) inner: Windows,
}

impl Chronicle for WindowsCell {
    type Event = WindowMark;

    ghost events = { λ cell. cell.inner.history };
}

/// A seat of the lock of windows.
pub type WindowsSeat = Seat<WindowsCell>;
