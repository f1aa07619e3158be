//! What connections hold is given back, and they are gone.

ghost use Rattle.std.specs.Prelude.{◌≡◌};
ghost use Rattle.seat_lines.specs.Giving.{given_back, sessions_given_back, without_seats};

use crate::seats::Seats;
use container_core::Container;
use outside::Keeper;
use seat_steps::{Seat, bricks_stay_sound};
use session_lanes::Lanes;
use session_steps::Sessions;
use std::alloc::Global;
use std::mem;

/// Each connection gives back what it holds, in the order of their numbers.
fn give_back<K: Keeper + Drop>(
    seats: Vec<Option<Seat>>,
    container: &mut Container<K>,
    lanes: Lanes,
) -> Lanes
    ensures lanes { result ≡ given_back seats.items lanes }
    ensures same { container.new ≡ container.old }
{
    let mut lanes = lanes;
    for place in seats {
        if let Some(seat) = place {
            let (after, _) = seat.give_up(container, lanes);
            lanes = after;
        }
    }
    lanes
}

impl Seats {
    /// The connections give back what they hold of the bricks of sessions, in the order of their numbers, and are gone.
    /// The random words go on, and the manager stays. It takes no memory.
    pub fn give_back<K: Keeper + Drop>(
        &mut self,
        alloc: Global,
        container: &mut Container<K>,
        sessions: Sessions,
    ) -> Sessions
        ensures seats { self.new ≡ without_seats self.old }
        ensures sessions { result ≡ sessions_given_back self.old.seats sessions }
        ensures same { container.new ≡ container.old }
    {
        bricks_stay_sound();
        let seats = mem::replace(&mut self.seats, Vec::new(alloc));
        let (lent, store, serial) = sessions.lend();
        match store {
            None => lent.put_back(None, serial),
            Some(lanes) => {
                let lanes = give_back(seats, container, lanes);
                lent.put_back(Some(lanes), serial)
            }
        }
    }
}
