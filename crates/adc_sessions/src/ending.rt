use std::alloc::AllocError;

/// The way in which a session ended.
#[derive(Clone, Copy, Debug, PartialEq, Eq)]
pub enum End {
    /// The input ended, all its lines were handed over, and what waited was written until a take gave no line.
    Closed,
    /// A take said that nothing will follow, and all was written.
    Ended,
    /// A read failed.
    ReadFailed,
    /// A write failed, or took no byte of some.
    WriteFailed,
    /// The first 65,537 bytes behind the lines handed over hold no line feed.
    TooLong,
    /// Memory was refused to the session or to its port.
    Memory,
}

/// The cause for which no session was made.
#[derive(Clone, Copy, Debug, PartialEq, Eq)]
pub enum SessionRefused {
    /// Memory ran out.
    Memory = 1,
}

impl From<AllocError> for SessionRefused {
    fn from(_: AllocError) -> SessionRefused {
        SessionRefused::Memory
    }
}
