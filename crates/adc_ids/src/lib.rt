//! The identities of ADC users: client identifiers, private identifiers and nicks.
#![tactic(auto)]

mod client_id;
mod nick;
mod private_id;

pub use client_id::Cid;
pub use nick::{Nick, NickFault};
pub use private_id::Pid;
