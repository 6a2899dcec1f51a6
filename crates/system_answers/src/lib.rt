//! What the system answers, as values that nobody else can make: no contract tells what it answers, so these say that it was asked.
#![tactic(auto)]

mod answer;
mod descriptors;
mod environment;
mod files;
mod listening;
mod sockets;
mod times;
mod writes;

pub use answer::SystemAnswer;
pub use descriptors::descriptor_limit;
pub use environment::variable;
pub use files::opened;
pub use listening::{ListenFailed, bound, registered};
pub use sockets::written_at_once;
pub use times::{instant, time_since_1970};
pub use writes::{WriteFailed, write_bytes, write_line};
