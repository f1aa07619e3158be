//! The tickets of calls that have ended, for the calls to come.

ghost use Rattle.std.specs.Prelude.{◌≡◌, IfOk};
ghost use Rattle.call_ticket.specs.Ticket.{ticket_begun};

use call_ticket::Ticket;
use crash_base::{OutOfMemory, Place, RequestNo, WorkerNo};
use std::alloc::Global;

/// The most tickets that are kept.
const MAX_IDLE_TICKETS: usize = 16;

/// Tickets of calls that have ended: empty, and with the room that a call needs.
#[derive(Drop)]
pub(crate) struct IdleTickets {
    tickets: Vec<Ticket>,
}

impl IdleTickets {
    /// No tickets yet. It takes the room to keep `MAX_IDLE_TICKETS`.
    pub(crate) fn new(alloc: Global) -> Result<IdleTickets, OutOfMemory> {
        Ok(IdleTickets {
            tickets: Vec::with_capacity(alloc, MAX_IDLE_TICKETS)?,
        })
    }

    /// The ticket of a call that has done nothing yet: the one that was kept last, which takes no memory, or where
    /// there is none a new one.
    pub(crate) fn begin(
        &mut self,
        alloc: Global,
        request: RequestNo,
        worker: WorkerNo,
        at: Place,
    ) -> Result<Ticket, OutOfMemory>
        ensures { IfOk result (λ ticket. ticket ≡ ticket_begun request worker at) }
    {
        match self.tickets.pop() {
            Some(mut ticket) => {
                ticket.renew(request, worker, at);
                Ok(ticket)
            }
            None => Ticket::new(alloc, request, worker, at),
        }
    }

    /// Empties the ticket of a call that has ended, and keeps it where there is room, or else drops it. It takes no
    /// memory.
    pub(crate) fn keep(&mut self, mut ticket: Ticket) {
        let (request, worker, at) = (ticket.request(), ticket.worker(), ticket.at());
        ticket.renew(request, worker, at);
        if self.tickets.len() < self.tickets.capacity() {
            self.tickets.push_reserved(ticket);
        }
    }
}
