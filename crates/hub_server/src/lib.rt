//! The server of a hub: connections over TCP, served by tasks that share one hub.
#![tactic(auto)]

mod entries;
mod lifetime;
mod served;
mod threads;

pub use entries::{serve_at, serve_for_journal, serve_on};
pub use lifetime::serve_hub;
pub use served::ServedVisits;
