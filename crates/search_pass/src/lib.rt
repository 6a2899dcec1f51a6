//! The pass of searches: how often a connection may search.
#![tactic(auto)]

mod interval;

pub use interval::may_search;
