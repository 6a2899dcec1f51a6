//! The plainest table of the users who are present, and lists of commands for any table of them.
#![tactic(auto)]

mod command;
mod finding;
mod plain;
mod run;

pub use command::{Command, CommandAnswer};
pub use plain::PlainUsers;
pub use run::{RunRefused, run_users};
