//! The lines that wait for many connections, where those for all of them are kept once.
#![tactic(auto)]

mod backlogs;
mod cursor;
mod cursors;
mod entry;
mod evict;
mod own_lines;
mod part;
mod spares;
mod tally;

pub use backlogs::Backlogs;
