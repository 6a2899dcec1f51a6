//! Bounded queues of lines that wait for a connection.
#![tactic(auto)]

mod batch;
mod outbox;
mod refused;
mod taken;

pub use batch::Batch;
pub use outbox::{Outbox, PLACE_BYTES, quit_line};
pub use refused::{OutboxRefused, PushRefused, TakeRefused};
pub use taken::Taken;
