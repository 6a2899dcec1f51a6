// The slots of connections: who is woken, who gives way, and what a fault of the system means.
mod backlogs;
mod faults;
mod senders;
mod waking;
