//! Where a server listens, and the sockets of those who come. No part knows a hub.
#![tactic(auto)]

mod bind;
mod help;
mod limits;
mod listener;
mod listens;
mod moments;
mod options;
mod rest;
mod socket;
mod start_lines;
mod ticks;

pub use bind::listen;
pub use limits::DescriptorLimits;
pub use listener::Listener;
pub use listens::{Arrived, Listens};
pub use moments::{CallMoment, Moments, moment};
pub use socket::Socket;
pub use start_lines::{FewDescriptors, say_start, warn_of_descriptors};
pub use ticks::Ticks;
