use futures::task::{Context, Poll};
use std::io;
use std::net::{SocketAddr, SocketAddrV4};

/// A connection that has just been accepted: its ticket, its socket, and the address from which it comes. Nobody may drop a ticket
/// whose type is not `Drop`.
pub struct Arrived<S, T> {
    pub ticket: T,
    pub socket: S,
    pub address: SocketAddrV4,
}

/// A listening socket, or what stands for it.
pub trait Listens: Drop {
    ghost use Rattle.std.specs.Prelude.{IfOk};
    ghost use Rattle.futures.specs.Task.{IsArmed, Keeps};
    ghost use Rattle.futures.specs.Poll.{IfReady, OnPending};
    ghost use Rattle.hub_listener.specs.Arrivals.{OnNobody};
    ghost use Rattle.hub_listener.specs.declared.listens.Arrived.{Arrived};

    /// The sockets of those who connect.
    type Socket;

    /// Their tickets.
    type Ticket;

    /// A call in the first state accepted this connection, and left the second.
    ghost comes: { Self → Arrived Self.Socket Self.Ticket → Self → Type 0 };

    /// Calls in the first state accepted nobody, and left the second.
    ghost waits: { Self → Self → Type 0 };

    /// Accepts the next connection.
    fn poll_accept(
        &mut self,
        cx: &mut Context<'_>,
    ) -> Poll<io::Result<Arrived<Self::Socket, Self::Ticket>>>
        ensures came { IfReady result (λ r. IfOk r (λ it. comes self.old it self.new)) }
        ensures waited { OnNobody result (waits self.old self.new) }
        ensures registered { OnPending result (IsArmed cx.new) }
        ensures kept { Keeps cx.old cx.new };

    /// Gives the address at which it listens.
    fn address(&self) -> io::Result<SocketAddr>;

    ghost waits_nothing: { (a : Self) → waits a a };

    ghost waits_on: { (a b c : Self) → waits a b → waits b c → waits a c };

    ghost waits_first: { (a b : Self) (it : _) (c : Self) → waits a b → comes b it c → comes a it c };
}
