//! The parts that the tasks of a server share to serve many connections: a slot for each, its waker and its backlog, the
//! hand-off of accepted sockets, those that linger, and the server's lifecycle. No part knows a hub.
#![tactic(auto)]

mod accept_error;
mod accept_waker;
mod amount;
mod backlog;
mod behind;
mod bells;
mod broadcasts;
mod clock;
mod cries;
mod descriptors;
mod giving_way;
mod handoff;
mod held;
mod laws;
mod leaving_socket;
mod left;
mod letting_go;
mod lifecycle;
mod lingering;
mod lingering_socket;
mod pacing;
mod permission;
mod places;
mod sender;
mod shared;
mod sight;
mod slots;
mod startup;
mod state;
mod ticker;
mod wakers;

pub use accept_error::{AcceptError, accept_error_of};
pub use amount::Amount;
pub use backlog::{Backlog, FAR_BEHIND, MOST_CREDIT, PACE, PATIENCE};
pub use behind::NobodyBehind;
pub use broadcasts::Broadcasts;
pub use clock::NoClock;
pub use descriptors::descriptors_needed;
pub use handoff::Handoff;
pub use held::{Kept, Lingered};
pub use laws::{patience_laws, turn_laws};
pub use leaving_socket::LeavingSocket;
pub use left::LeftPlaces;
pub use lingering::Lingering;
pub use permission::Permission;
pub use places::{PlacesDeed, PlacesWord};
pub use sender::{BURST, BURST_BYTES, EACH_LINE, Given, LITTLE, SHORT, Throttle};
pub use shared::{Closed, OneEnded, Shared};
pub use sight::{NEARLY_FULL, Sight};
pub use slots::{Receipt, SlotEvent};
pub use startup::Startup;
pub use state::{Opened, ServerFault, Told, Word};
pub use ticker::Ticker;
pub use wakers::Wakers;
