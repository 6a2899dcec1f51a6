ghost use Rattle.std.specs.Prelude.{◌≡◌};

use crate::cut_off::CutOff;
use crate::no_memory::NoMemory;
use crate::port::{BindPort, HubPort};
use crate::refusal::Refusal;
use crate::terms::Terms;
use crate::ticket::Ticket;
use crate::told_full::ToldFull;
use adc_sessions::End;
use futures::task::{Context, Poll};
use hub_listener::{Arrived, Listens, Moments, listen};
use server_tasks::LeavingSocket;
use session_hash::SessionHash;
use std::io;
use std::net::{Net, SocketAddr, SocketAddrV4};
use std::snapshot::Snapshot;
use system_answers::ListenFailed;
use tokio::io::AsyncWrite;
use tokio::net::{TcpListener, TcpStream};
use tokio::reactor::Handle;

/// A listening socket `L` that has promised a `P`, and has accepted so many connections.
#[derive(Drop)]
pub struct PromisedPort<L, P> {
    listener: L,
    accepted: u64,
    terms: P,
}

/// A listening socket of TCP, which knows what its connections are promised and how many it has accepted. The kit's search finds that a
/// thread may have it only where its parts are type arguments.
pub type TcpPort<H, C> = PromisedPort<TcpListener, Snapshot<Terms<H, C>>>;

impl<H, C> PromisedPort<TcpListener, Snapshot<Terms<H, C>>> {
    /// Makes one that has accepted nobody.
    pub(crate) fn new(listener: TcpListener, terms: Snapshot<Terms<H, C>>) -> TcpPort<H, C>
        ensures terms { result.terms.value ≡ terms.value }
        ensures accepted { result.accepted ≡ 0 }
    {
        PromisedPort {
            listener,
            accepted: 0,
            terms,
        }
    }
}

impl<H: SessionHash, C: Moments> HubPort<TcpStream, TcpTicket<H, C>, H, C> for TcpPort<H, C> {
    ghost terms = { λ port. port.terms.value };

    ghost accepted = { λ port. port.accepted };

    ghost comes_so = { λ a it b came. came };

    ghost waits_so = { λ a b same. same };
}

impl<H: SessionHash, C: Moments> BindPort<TcpStream, TcpTicket<H, C>, H, C> for TcpPort<H, C> {
    ghost use Rattle.std.specs.Prelude.{◌≡◌, IfOk};

    type Address = SocketAddrV4;

    ghost place_of = { λ address. address };

    fn place(address: &SocketAddrV4) -> SocketAddrV4
        ensures { result ≡ address.now }
    {
        *address
    }

    fn bind<N: Net>(
        rt: &N,
        address: SocketAddrV4,
        handle: &Handle,
        promise: Snapshot<Terms<H, C>>,
    ) -> Result<TcpPort<H, C>, ListenFailed>
        requires there { promise.value.place.value ≡ address }
        ensures promised { IfOk result (λ port. port.terms.value ≡ promise.value) }
        ensures none { IfOk result (λ port. port.accepted ≡ 0) }
    {
        let listener = listen(rt, address, handle)?;
        Ok(PromisedPort::new(listener, promise))
    }
}

impl<H: SessionHash, C: Moments> Listens for TcpPort<H, C> {
    ghost use Rattle.std.specs.Prelude.{◌≡◌, ◌+◌};
    ghost use Rattle.std.proofs.Common.{◌∙◌, ap, refl};
    ghost use Rattle.hub_connections.specs.Arrivals.{HasCome};

    type Socket = TcpStream;

    type Ticket = TcpTicket<H, C>;

    ghost comes = { λ a it b. HasCome ⟦<TcpTicket<H, C> as Ticket<TcpStream, H, C>>⟧.terms ⟦<TcpTicket<H, C> as Ticket<TcpStream, H, C>>⟧.number
        ⟦<TcpTicket<H, C> as Ticket<TcpStream, H, C>>⟧.peer ⟦<TcpTicket<H, C> as Ticket<TcpStream, H, C>>⟧.began a.terms.value a.accepted it
        × (b.terms.value ≡ a.terms.value) × (b.accepted ≡ a.accepted + 1) };

    ghost waits = { λ a b. (b.terms.value ≡ a.terms.value) × (b.accepted ≡ a.accepted) };

    fn poll_accept(
        &mut self,
        cx: &mut Context<'_>,
    ) -> Poll<io::Result<Arrived<TcpStream, TcpTicket<H, C>>>> {
        // It ends after 2^64 - 1 connections.
        let Some(next) = self.accepted.checked_add(1) else {
            return Poll::Ready(Err(io::ErrorKind::Unsupported.into()));
        };
        match self.listener.poll_accept(cx) {
            Poll::Pending => Poll::Pending,
            Poll::Ready(Err(error)) => Poll::Ready(Err(error)),
            Poll::Ready(Ok(accepted)) => {
                let (socket, address) = accepted;
                let SocketAddr::V4(address) = address else {
                    return Poll::Ready(Err(io::ErrorKind::Unsupported.into()));
                };
                let ticket = TcpTicket {
                    terms: Snapshot::of(&self.terms),
                    number: self.accepted,
                    address,
                    began: Snapshot::of(&socket),
                };
                self.accepted = next;
                Poll::Ready(Ok(Arrived {
                    ticket,
                    socket,
                    address,
                }))
            }
        }
    }

    fn address(&self) -> io::Result<SocketAddr> {
        self.listener.local_addr()
    }

    ghost waits_nothing = { λ a. (refl, refl) };

    ghost waits_on = { λ a b c first second. (second.0 ∙ first.0, second.1 ∙ first.1) };

    ghost waits_first = { λ a b it c first came. (
      record { promised = came.0.promised ∙ first.0; numbered = came.0.numbered ∙ first.1; named = came.0.named; fresh = came.0.fresh },
      came.1 ∙ first.0,
      came.2 ∙ ap (λ n. n + 1) first.1,
    ) };
}

/// The ticket of a connection over TCP.
pub struct TcpTicket<H: SessionHash, C> {
    terms: Snapshot<Snapshot<Terms<H, C>>>,
    number: u64,
    address: SocketAddrV4,
    began: Snapshot<TcpStream>,
}

impl<H: SessionHash, C> TcpTicket<H, C> {
    fn end(self) {
        let TcpTicket {
            terms,
            number: _,
            address: _,
            began,
        } = self;
        drop(terms);
        drop(began);
    }
}

impl<H: SessionHash, C: Moments> Ticket<TcpStream, H, C> for TcpTicket<H, C> {
    ghost use Rattle.std.specs.Prelude.{IsSome};
    ghost use Rattle.hub_listener.specs.Peers.{octets_of};
    ghost use Rattle.hub_connections.specs.Owed.{WritesFull, challenge_of};
    ghost use Rattle.hub_connections.specs.JoinRefusals.{IsRefusal};

    ghost terms = { λ ticket. ticket.terms.value.value };

    ghost number = { λ ticket. ticket.number };

    ghost peer = { λ ticket. octets_of ticket.address };

    ghost began = { λ ticket. ticket.began.value };

    fn served(self, socket: TcpStream, end: End) -> Option<LeavingSocket<TcpStream>> {
        self.end();
        // What the hub said last is to reach its client.
        match end {
            End::Ended => Some(LeavingSocket::new(socket)),
            _ => None,
        }
    }

    fn refused(
        self,
        socket: TcpStream,
        why: Refusal<H>,
        told: ToldFull,
    ) -> Option<LeavingSocket<TcpStream>>
        requires told { ∥ WritesFull ⟦<TcpStream as AsyncWrite>⟧.writes self.began.value socket ∥₁ }
        requires why { IsRefusal (octets_of self.address) (challenge_of self.terms.value.value.seed.value self.number) why }
        ensures lingers { IsSome result }
    {
        self.end();
        why.end();
        told.end();
        Some(LeavingSocket::new(socket))
    }

    fn lost(self, socket: TcpStream, why: NoMemory) {
        self.end();
        why.end();
        drop(socket);
    }

    fn cut_off(self, why: CutOff) {
        self.end();
        why.end();
    }
}
