/// The rest of a ban.
#[derive(Clone, Copy, Debug, PartialEq, Eq)]
pub enum Left {
    /// Nothing: there is none, or its time has run out.
    Free,
    /// The number of seconds, at least 1.
    For(u64),
    /// All time: the ban is for good.
    Ever,
}
