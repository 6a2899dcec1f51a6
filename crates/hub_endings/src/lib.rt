//! The endings of the program: its exit statuses, and what it says on standard error.
#![tactic(auto)]

mod ending;

pub use ending::Ending;
