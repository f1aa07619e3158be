//! The container and the windows of a site under locks, which many threads take in turn.
//!
//! ```text
//! let (store, mut seat) = ContainerLock::new(alloc, container, 8)?;   // all 8 parts
//! let (windows, mut window_seat) = WindowsLock::new(alloc, windows, 8)?;
//! let theirs = store.split(&mut seat, 1);                            // for another thread
//!
//! let stopped = store.step_inside::<W, P, L>(rt, alloc, &mut seat, &mut shepherd)?;
//! windows.step::<W, P, L>(rt, alloc, &mut window_seat, &mut shepherd)?;
//! let down = store.go_down(rt, &mut seat, Scope::Group(group))?;
//! store.come_up(rt, &mut seat, down);
//! store.stop(rt, &mut seat);
//!
//! store.join(&mut seat, theirs);                                     // once the other thread is done
//! let container = store.close(seat);                                 // only a seat with all parts does so
//! ```
//!
//! There is one function for each kind of hold: it takes, makes one call, and gives back. Nothing else leads to what
//! the locks are round. So whatever the threads do, the container and the windows see one call after another, as those
//! of one connection in `shepherd` and those of its reboots.
//!
//! What the container is when a thread takes it, no clause can say. Each hold says that there were a container before
//! it and one after (`Holds` of `specs/Holds`): the history before goes on from what the seat had seen; the container
//! after is just what the one call makes of that before; the seat has seen its history now, and owns the places of what
//! was added. A history tells its container (`Tells`): who has seen it knows its journal. So a connection that goes on
//! in what a seat has seen (`GoesOnIn`) goes on in what the seat's next hold finds, whatever others added meanwhile
//! (`histories_tell_their_containers`, `connections_go_on` of `shepherd`), and its step may be made there.
//!
//! A hold moves the container out and in: its keeper, and less than 128 bytes beside it, so it stands in no `Box`.
#![tactic(auto)]

mod calls;
mod cells;
mod container_lock;
mod laws;
mod windows_lock;

pub use cells::{ContainerCell, ContainerSeat, WindowsCell, WindowsSeat};
pub use container_lock::ContainerLock;
pub use laws::{connections_go_on_in_histories, histories_tell_their_containers};
pub use windows_lock::WindowsLock;
