//! The threads of a server.
#![tactic(auto)]

mod ended;
mod workers;

pub use ended::TasksEnded;
pub use workers::Workers;
