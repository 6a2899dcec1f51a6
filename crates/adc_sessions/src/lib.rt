//! Sessions: a connection's bytes as lines for a port, and what the port gives as bytes again.
#![tactic(auto)]

mod accept;
mod bell;
mod ending;
mod incoming;
mod port;
mod running;
mod session;
mod stream;

pub use accept::{Accept, AcceptEnd};
pub use bell::Bell;
pub use ending::{End, SessionRefused};
pub use incoming::{Incoming, Peer, Starter};
pub use port::Port;
pub use session::Session;
pub use stream::Stream;
