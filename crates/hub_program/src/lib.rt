//! The program: what the words of its command line ask for, a hub for one connection, or a server.
#![tactic(auto)]

mod command_line;
mod start;

pub use command_line::program;
pub use counted_io::{CountedRead, CountedWrite, Counting};
