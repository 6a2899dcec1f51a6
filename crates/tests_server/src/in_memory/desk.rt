// What the clients over memory know of one another, and what is left of them.
use futures::spin::lock;
use std::alloc::{AllocError, Global};
use std::sync::Mutex;

/// A client that is gone, and what it was sent.
#[derive(Drop)]
pub(crate) struct Gone {
    pub(crate) place: usize,
    pub(crate) sent: Vec<u8>,
}

/// The call that ended a ticket.
#[derive(Clone, Copy, Debug, PartialEq, Eq)]
pub(crate) enum EndedBy {
    Served,
    Refused,
    Lost,
    CutOff,
}

/// A ticket that has ended, by its client's place.
#[derive(Clone, Copy)]
pub(crate) struct EndedTicket {
    pub(crate) place: usize,
    pub(crate) by: EndedBy,
}

/// The part that all sockets and tickets share.
#[derive(Drop)]
pub(crate) struct Desk {
    notes: Mutex<Notes>,
}

// There is room for all clients in each.
#[derive(Drop)]
struct Notes {
    entered: Vec<usize>,
    gone: Vec<Gone>,
    tickets: Vec<EndedTicket>,
}

impl Desk {
    /// Makes that of so many clients.
    pub(crate) fn new(alloc: Global, count: usize) -> Result<Desk, AllocError> {
        Ok(Desk {
            notes: Mutex::new(Notes {
                entered: Vec::with_capacity(alloc, count)?,
                gone: Vec::with_capacity(alloc, count)?,
                tickets: Vec::with_capacity(alloc, count)?,
            }),
        })
    }

    /// Notes that the client at this place has entered.
    pub(crate) fn enter(&self, place: usize) {
        if let Some(mut notes) = lock(&self.notes) {
            let _ = notes.entered.push(place);
        }
    }

    /// Answers whether it has.
    pub(crate) fn has_entered(&self, place: usize) -> bool {
        lock(&self.notes).is_some_and(|notes| notes.entered.contains(&place))
    }

    /// Notes that the client at this place is gone, which was sent this.
    pub(crate) fn leave(&self, place: usize, sent: Vec<u8>) {
        if let Some(mut notes) = lock(&self.notes) {
            let _ = notes.gone.push(Gone { place, sent });
        }
    }

    /// Answers whether it is.
    pub(crate) fn is_gone(&self, place: usize) -> bool {
        lock(&self.notes).is_some_and(|notes| notes.gone.iter().any(|gone| gone.place == place))
    }

    /// Notes that the ticket of the client at this place has ended by this call.
    pub(crate) fn end_ticket(&self, place: usize, by: EndedBy) {
        if let Some(mut notes) = lock(&self.notes) {
            let _ = notes.tickets.push(EndedTicket { place, by });
        }
    }

    /// Gives the clients that are gone and the tickets that have ended, each in the order in which they did.
    pub(crate) fn into_left(self) -> (Vec<Gone>, Vec<EndedTicket>) {
        let Desk { notes } = self;
        let Notes { gone, tickets, .. } = notes.into_inner();
        (gone, tickets)
    }
}
