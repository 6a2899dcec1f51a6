//! The rules of the hub: what each call leads to, over the list of all calls so far.
#![tactic(auto)]

mod effect;
mod history;
mod plain_options;
mod refused;
mod sender;

pub use effect::{
    Banned, Change, Effect, Entrant, Hearers, HubChange, Revision, SenderChange, Topic,
};
pub use history::{Call, Entry, Reply, Verdict};
pub use plain_options::PlainOptions;
pub use refused::LineRefused;
pub use sender::{Notes, SeatChange, Sender};
