use crate::slot::Slot;
use std::net::SocketAddrV4;

/// A connection that is served: its ticket, its slot, and the address from which it comes. It cannot be dropped.
pub(crate) struct Guest<T> {
    pub(crate) ticket: T,
    pub(crate) slot: Slot,
    pub(crate) peer: SocketAddrV4,
}
