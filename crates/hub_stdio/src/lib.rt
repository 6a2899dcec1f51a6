//! A hub for one connection, whose lines a reader gives and whose answers a writer takes.
#![tactic(auto)]

mod fault;
mod run;
mod session;

pub use counted_io::{CountedRead, CountedWrite, Counting, Failures};
pub use fault::RunFault;
pub use run::run_one;
