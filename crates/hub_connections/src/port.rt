use crate::terms::Terms;
use crate::ticket::Ticket;
use adc_sessions::Stream;
use hub_listener::{Listens, Moments};
use session_hash::SessionHash;
use std::net::{Net, SocketAddrV4};
use std::snapshot::Snapshot;
use system_answers::ListenFailed;
use tokio::reactor::Handle;

/// A listening socket that knows the terms of its server, and how many connections it has accepted.
pub trait HubPort<S: Stream, T: Ticket<S, H, C>, H: SessionHash, C: Moments>: Listens<
    Socket = S,
    Ticket = T,
> {
    ghost use Rattle.std.specs.Prelude.{◌≡◌, ◌+◌, ℕ};
    ghost use Rattle.hub_connections.specs.Arrivals.{HasCome};
    ghost use Rattle.hub_connections.specs.declared.terms.Terms.{Terms};

    /// What is promised to those who come.
    ghost terms: { Self → Terms H C };

    /// How many connections it has accepted.
    ghost accepted: { Self → ℕ };

    /// Who comes has a ticket that says so, and is counted.
    ghost comes_so: { (a : Self) (it : _) (b : Self) → Self.Listens.comes a it b
        → HasCome T.terms T.number T.peer T.began (terms a) (accepted a) it × (terms b ≡ terms a) × (accepted b ≡ accepted a + 1) };

    /// Nobody else is.
    ghost waits_so: { (a b : Self) → Self.Listens.waits a b → (terms b ≡ terms a) × (accepted b ≡ accepted a) };
}

/// A listening socket that can be bound.
pub trait BindPort<S: Stream, T: Ticket<S, H, C>, H: SessionHash, C: Moments>: HubPort<S, T, H, C> {
    ghost use Rattle.std.specs.Prelude.{◌≡◌, IfOk};
    ghost use Rattle.std.specs.declared.net.socket_addr.SocketAddrV4.{SocketAddrV4};

    /// What says where it is to listen.
    type Address: Drop;

    /// The place that this says.
    ghost place_of: { Self.Address → SocketAddrV4 };

    /// Gives the place that this says.
    fn place(address: &Self::Address) -> SocketAddrV4
        ensures { result ≡ place_of address.now };

    /// Makes one that listens there, whose connections are promised these terms. It fails where the system does not give the
    /// address. Condition: the terms name this place.
    fn bind<N: Net>(
        rt: &N,
        address: Self::Address,
        handle: &Handle,
        promise: Snapshot<Terms<H, C>>,
    ) -> Result<Self, ListenFailed>
        requires there { promise.value.place.value ≡ place_of address }
        ensures promised { IfOk result (λ port. Self.HubPort.terms port ≡ promise.value) }
        ensures none { IfOk result (λ port. Self.HubPort.accepted port ≡ 0) };
}
