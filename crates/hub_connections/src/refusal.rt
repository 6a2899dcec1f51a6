use crate::server::NoSlot;
use hub_shared::Visitor;
use std::snapshot::Snapshot;

/// Why a server refuses a connection. It cannot be dropped.
pub enum Refusal<H> {
    /// No slot was free, as the word of that says.
    NoSlot(NoSlot),
    /// The hub had no place for this visitor.
    HubFull(Snapshot<Visitor<H>>),
}

impl<H> Refusal<H> {
    /// Ends it.
    pub fn end(self) {
        match self {
            Refusal::NoSlot(no_slot) => no_slot.end(),
            Refusal::HubFull(visitor) => drop(visitor),
        }
    }
}
