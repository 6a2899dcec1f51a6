/// The answer to a take.
#[derive(Clone, Copy, Debug, PartialEq, Eq)]
pub struct Taken {
    /// The count of lines.
    pub lines: u64,
    /// The end, where it is true: nothing waits any more, and nothing will.
    pub ended: bool,
}
