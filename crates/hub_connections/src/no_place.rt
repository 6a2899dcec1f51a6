use crate::free_slot::{FreeSlot, OfHub};
use crate::no_memory::NoMemory;
use crate::server::NoSlot;
use adc_sessions::Stream;

/// The cause for which a connection that came could not join.
pub(crate) enum NoPlace<B: OfHub<H, S>, S: Stream, H> {
    /// No slot was free.
    NoSlot(NoSlot),
    /// The hub has no place. The slot is free again.
    HubFull(FreeSlot<B, S, H>),
    /// Memory was refused, as the word of that says. The slot is free again.
    NoMemory(FreeSlot<B, S, H>, NoMemory),
}
