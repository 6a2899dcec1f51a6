//! The hub for one thread: one call after another, each answered as the calls before it demand.
#![tactic(auto)]

mod calls;
mod change;
mod connection;
mod delivery;
mod hub;
mod look;
mod present;
mod refused;
mod seat;
mod share;
mod sid_index;

pub use calls::{Answer, Ask, Asked, run_calls};
pub use connection::Connection as Conn;
pub use hub::Core;
pub use hub_rules::{LineRefused, Verdict};
pub use hub_setup::{
    Account, MenuEntry, MenuItem, Options, PlainOptions, Prepared, Setup, SetupRefused, prepare,
};
pub use login_state::Stage;
pub use look::Look;
pub use outboxes::{TakeRefused, Taken};
pub use refused::{JoinRefused, OpenRefused};
pub use share::Touched;
pub use user_table::Totals;
