/// The session hash that clients are asked for.
#[derive(Clone, Copy, Debug, PartialEq, Eq)]
pub enum HashName {
    /// Tiger, over the tables of a file.
    Tiger,
    /// The first 24 bytes, which hide nothing: for tests.
    First24,
}
