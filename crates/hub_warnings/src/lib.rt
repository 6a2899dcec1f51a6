//! Lines of a server to those who run it: warnings with time, address and cause, a line at its start and at its end, and a queue
//! by which nobody waits for who reads them. No part knows a hub.
#![tactic(auto)]

mod cause;
mod clock;
mod journal;
mod lines;
mod moment;
mod outcome;
mod queued;
mod queued_line;
mod said;
mod warnings;

pub use cause::Cause;
pub use clock::{WallClock, seconds_since_1970};
pub use journal::Journal;
pub use lines::{Dropped, EndLine, Start, Warning};
pub use moment::Moment;
pub use queued::{MOST_LINES, QueueEnd, QueueWriter, QueuedLines, queue};
pub use said::{Said, say};
pub use warnings::Warnings;
