//! The acts that operators ask of a hub in a text, as `!kick NICK`; and the bans that are held.
#![tactic(auto)]

mod act;
mod ban;
mod bans;
mod fault;
mod free_text;
mod laws;
mod left;
mod seconds;

pub use act::Act;
pub use ban::Ban;
pub use bans::Bans;
pub use fault::{ActFault, BanRefused};
pub use free_text::FreeText;
pub use laws::ban_laws;
pub use left::Left;
