use std::collections::LinkedList;

// A caller that a seat stands for: its number, its own entries, and what had been seen of the
// history when its seat was joined to another.
#[derive(Drop)]
pub struct SeatClaim<E> {
    pub number: u64,
    pub mine: LinkedList<E>,
    pub since: LinkedList<E>,
}

// The knowledge of a seat. No value of it is made: it exists in proofs alone. A caller's seat has one
// claim, that of two callers both, and the host's has one for each caller that gave its seat back.
// A seat that was joined to another has none, and knows nothing.
#[derive(Drop)]
pub struct SeatView<E, A> {
    // The subject of the lock's values.
    pub about: Option<A>,
    // The beginning of the history that was seen.
    pub seen: LinkedList<E>,
    pub claims: LinkedList<SeatClaim<E>>,
    // It holds the value.
    pub busy: bool,
    // The count of callers whom the host has admitted.
    pub count: u64,
}
