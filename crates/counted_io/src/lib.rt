//! Writes that are whole and flushed, or fail; readers and writers that tell how many of their calls failed.
#![tactic(auto)]

mod counted;
mod counting;
mod failures;
mod writing;

pub use counted::{CountedRead, CountedWrite};
pub use counting::Counting;
pub use failures::Failures;
pub use writing::{write_and_flush, write_and_flush_counted};
