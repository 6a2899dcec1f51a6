// A listener over memory, to which clients come one after the other, and their tickets.
ghost use Rattle.std.specs.Prelude.{◌≡◌};

use crate::in_memory::desk::{Desk, EndedBy};
use crate::in_memory::wire::{Client, Wire, home_of};
use crate::machine::*;
use adc_sessions::End;
use hub_connections::{BindPort, CutOff, HubPort, NoMemory, Refusal, Terms, Ticket, ToldFull};
use hub_listener::{Arrived, Listens, Socket};
use server_tasks::LeavingSocket;
use std::snapshot::Snapshot;
use system_answers::ListenFailed;
use tokio::reactor::Handle;

/// Where these clients come in.
#[derive(Drop)]
pub(crate) struct Door<'a, R> {
    pub(crate) rt: &'a R,
    pub(crate) alloc: Global,
    pub(crate) desk: &'a Desk,
    pub(crate) clients: &'a [Client<'a>],
    pub(crate) place: SocketAddrV4,
}

/// The listener of a door, which knows what its clients are promised and how many have come.
#[derive(Drop)]
pub(crate) struct Lobby<'a, R> {
    door: Door<'a, R>,
    came: usize,
    terms: Snapshot<Terms<First24, R>>,
}

impl<'a, R: Clock + Sync> HubPort<Wire<'a, R>, WireTicket<'a, R>, First24, R> for Lobby<'a, R> {
    ghost terms = { λ lobby. lobby.terms.value };

    ghost accepted = { λ lobby. lobby.came };

    ghost comes_so = { λ a it b came. came };

    ghost waits_so = { λ a b same. same };
}

impl<'a, R: Clock + Sync> BindPort<Wire<'a, R>, WireTicket<'a, R>, First24, R> for Lobby<'a, R> {
    ghost use Rattle.std.specs.Prelude.{◌≡◌, IfOk};

    type Address = Door<'a, R>;

    ghost place_of = { λ door. door.place };

    fn place(address: &Door<'a, R>) -> SocketAddrV4
        ensures { result ≡ address.now.place }
    {
        address.place
    }

    fn bind<N: Net>(
        _rt: &N,
        address: Door<'a, R>,
        _handle: &Handle,
        promise: Snapshot<Terms<First24, R>>,
    ) -> Result<Lobby<'a, R>, ListenFailed>
        requires there { promise.value.place.value ≡ address.place }
        ensures promised { IfOk result (λ lobby. lobby.terms.value ≡ promise.value) }
        ensures none { IfOk result (λ lobby. lobby.came ≡ 0) }
    {
        Ok(Lobby {
            door: address,
            came: 0,
            terms: promise,
        })
    }
}

impl<'a, R: Clock + Sync> Listens for Lobby<'a, R> {
    ghost use Rattle.std.specs.Prelude.{◌≡◌, ◌+◌};
    ghost use Rattle.std.proofs.Common.{◌∙◌, ap, refl};
    ghost use Rattle.hub_connections.specs.Arrivals.{HasCome};

    type Socket = Wire<'a, R>;

    type Ticket = WireTicket<'a, R>;

    ghost comes = { λ a it b. HasCome ⟦<WireTicket<'a, R> as Ticket<Wire<'a, R>, First24, R>>⟧.terms
        ⟦<WireTicket<'a, R> as Ticket<Wire<'a, R>, First24, R>>⟧.number ⟦<WireTicket<'a, R> as Ticket<Wire<'a, R>, First24, R>>⟧.peer
        ⟦<WireTicket<'a, R> as Ticket<Wire<'a, R>, First24, R>>⟧.began a.terms.value a.came it
        × (b.terms.value ≡ a.terms.value) × (b.came ≡ a.came + 1) };

    ghost waits = { λ a b. (b.terms.value ≡ a.terms.value) × (b.came ≡ a.came) };

    fn poll_accept(&mut self, cx: &mut Context<'_>) -> Polled<Wire<'a, R>, WireTicket<'a, R>> {
        let place = self.came;
        let door = &self.door;
        let (Some(client), Some(next)) = (door.clients.get(place), place.checked_add(1)) else {
            return cx.yield_now();
        };
        let socket = match Wire::new(door.rt, door.alloc, door.desk, client, place) {
            Ok(socket) => socket,
            Err(error) => return Poll::Ready(Err(io::Error::from(error))),
        };
        let address = home_of(place);
        let ticket = WireTicket {
            desk: door.desk,
            place,
            address,
            terms: Snapshot::of(&self.terms),
            began: Snapshot::of(&socket),
        };
        self.came = next;
        Poll::Ready(Ok(Arrived {
            ticket,
            socket,
            address,
        }))
    }

    fn address(&self) -> io::Result<SocketAddr> {
        Ok(SocketAddr::V4(self.door.place))
    }

    ghost waits_nothing = { λ a. (refl, refl) };

    ghost waits_on = { λ a b c first second. (second.0 ∙ first.0, second.1 ∙ first.1) };

    ghost waits_first = { λ a b it c first came. (
      record { promised = came.0.promised ∙ first.0; numbered = came.0.numbered ∙ first.1; named = came.0.named; fresh = came.0.fresh },
      came.1 ∙ first.0,
      came.2 ∙ ap (λ n. n + 1) first.1,
    ) };
}

/// The ticket of a connection over memory. The desk is told by which call it ends.
pub(crate) struct WireTicket<'a, R: Clock> {
    desk: &'a Desk,
    place: usize,
    address: SocketAddrV4,
    terms: Snapshot<Snapshot<Terms<First24, R>>>,
    began: Snapshot<Wire<'a, R>>,
}

impl<'a, R: Clock> WireTicket<'a, R> {
    fn end(self, by: EndedBy) {
        let WireTicket {
            desk,
            place,
            address: _,
            terms,
            began,
        } = self;
        drop(terms);
        drop(began);
        desk.end_ticket(place, by);
    }
}

impl<'a, R: Clock> Ticket<Wire<'a, R>, First24, R> for WireTicket<'a, R> {
    ghost use Rattle.std.specs.Prelude.{IsSome};
    ghost use Rattle.hub_listener.specs.Peers.{octets_of};
    ghost use Rattle.hub_connections.specs.Owed.{WritesFull, challenge_of};
    ghost use Rattle.hub_connections.specs.JoinRefusals.{IsRefusal};

    ghost terms = { λ ticket. ticket.terms.value.value };

    ghost number = { λ ticket. ticket.place };

    ghost peer = { λ ticket. octets_of ticket.address };

    ghost began = { λ ticket. ticket.began.value };

    fn served(self, socket: Wire<'a, R>, end: End) -> Option<LeavingSocket<Wire<'a, R>>> {
        self.end(EndedBy::Served);
        match end {
            End::Ended => Some(LeavingSocket::new(socket)),
            _ => None,
        }
    }

    fn refused(
        self,
        wire: Wire<'a, R>,
        why: Refusal<First24>,
        told: ToldFull,
    ) -> Option<LeavingSocket<Wire<'a, R>>>
        requires told { ∥ WritesFull ⟦<Wire<'a, R> as AsyncWrite>⟧.writes self.began.value wire ∥₁ }
        requires why { IsRefusal (octets_of self.address) (challenge_of self.terms.value.value.seed.value self.place) why }
        ensures lingers { IsSome result }
    {
        self.end(EndedBy::Refused);
        why.end();
        told.end();
        Some(LeavingSocket::new(wire))
    }

    fn lost(self, socket: Wire<'a, R>, why: NoMemory) {
        self.end(EndedBy::Lost);
        why.end();
        drop(socket);
    }

    fn cut_off(self, why: CutOff) {
        self.end(EndedBy::CutOff);
        why.end();
    }
}
