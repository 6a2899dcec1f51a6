//! The challenges of connections.
#![tactic(auto)]

mod challenges;

pub use challenges::Challenges;
