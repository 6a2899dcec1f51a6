use std::alloc::{AllocError, AllocFailed};

/// The reasons for which no outbox was made.
#[derive(Clone, Copy, Debug, PartialEq, Eq)]
pub enum OutboxRefused {
    /// Memory ran out.
    Memory = 1,
}

/// The reasons for which a line was not added to a batch. The batch is as before.
#[derive(Clone, Copy, Debug, PartialEq, Eq)]
pub enum PushRefused {
    /// Memory ran out.
    Memory = 1,
}

/// The reasons for which no lines were taken. The outbox and the vector are as before.
#[derive(Clone, Copy, Debug, PartialEq, Eq)]
pub enum TakeRefused {
    /// Memory ran out.
    Memory = 1,
}

impl From<AllocError> for OutboxRefused {
    fn from(_: AllocError) -> OutboxRefused {
        OutboxRefused::Memory
    }
}

impl<T: Drop> From<AllocFailed<T>> for PushRefused {
    fn from(_: AllocFailed<T>) -> PushRefused {
        PushRefused::Memory
    }
}

impl From<AllocError> for PushRefused {
    fn from(_: AllocError) -> PushRefused {
        PushRefused::Memory
    }
}

impl From<AllocError> for TakeRefused {
    fn from(_: AllocError) -> TakeRefused {
        TakeRefused::Memory
    }
}
