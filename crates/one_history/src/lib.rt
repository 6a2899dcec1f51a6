//! A lock over a value that stands at a history, which is one and legal for all callers.
#![tactic(auto)]

mod close;
mod host;
mod lock;
mod meet;
mod open;
mod released;
mod rule;
mod seat;
mod steps;
mod view;
mod word_taken;

pub use close::NotAlone;
pub use host::Host;
pub use lock::Lock;
pub use released::Released;
pub use rule::{MadeEntry, Recorded};
pub use seat::{Seat, Seated};
