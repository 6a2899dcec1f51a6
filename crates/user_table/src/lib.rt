//! The users who are present, in order of entry.
#![tactic(auto)]

mod cid_index;
mod indexed;
mod nick_index;
mod refused;
mod roster;
mod totals;
mod user;
mod users;

pub use indexed::IndexedUsers;
pub use refused::TableRefused;
pub use totals::Totals;
pub use user::User;
pub use users::{Users, takes_update};
