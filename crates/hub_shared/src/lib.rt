//! The hub that threads share: all calls on it stand in one legal history.
#![tactic(auto)]

mod calls;
mod close;
mod host;
mod hub;
mod hub_key;
mod joins;
mod meet;
mod open;
mod visitor;

pub use calls::Pass;
pub use close::{CloseRefused, Report};
pub use host::Host;
pub use hub::Hub;
pub use hub_core::Touched;
pub use visitor::Visitor;
