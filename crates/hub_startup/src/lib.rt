//! What the program reads before it serves, and the hub for one connection.
#![tactic(auto)]

mod command_line;
mod environment;
mod fault;
mod files;
mod one_connection;
mod opens;
mod reading;

pub use command_line::settings_path;
pub use environment::{Variables, has_journal};
pub use fault::StartFault;
pub use files::{seed_in, settings_in, tables_in};
pub use one_connection::serve_stdin_if_asked;
pub use opens::Opens;
