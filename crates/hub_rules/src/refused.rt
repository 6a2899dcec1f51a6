use std::alloc::AllocError;

/// The cause for which a line was not made ready; it may be tried again.
#[derive(Clone, Copy, Debug, PartialEq, Eq)]
pub enum LineRefused {
    /// Memory ran out.
    Memory = 1,
}

impl From<AllocError> for LineRefused {
    fn from(_: AllocError) -> LineRefused {
        LineRefused::Memory
    }
}
