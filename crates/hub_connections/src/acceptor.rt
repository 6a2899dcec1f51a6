ghost use Rattle.std.specs.Prelude.{◌≡◌, Some, IfOk, Err, IsSomeAnd};
ghost use Rattle.server_tasks.specs.declared.places.PlacesDeed.TheVariants.{Put};
ghost use Rattle.hub_listener.specs.Peers.{octets_of};
ghost use Rattle.hub_connections.specs.NamedHub.{home_in};
ghost use Rattle.hub_connections.specs.Owed.{challenge_of};
ghost use Rattle.hub_connections.specs.Peers.{HasComeFrom};
ghost use Rattle.hub_connections.specs.JoinRefusals.{WasRefused};
ghost use Rattle.hub_connections.specs.SessionEnds.{IsWarningOf};
ghost use Rattle.hub_connections.specs.declared.no_place.NoPlace.TheVariants.{HubFull, NoMemory};
ghost use Rattle.hub_warnings.specs.declared.cause.Cause.TheVariants.{Refused};
ghost use Rattle.hub_connections.specs.Visits.{HasEntered};

use crate::accepted::AcceptedConnection;
use crate::cut_off::CutOff;
use crate::free_slot::{FreeSlot, OfHub};
use crate::newcomer::Newcomer;
use crate::no_memory;
use crate::no_place::NoPlace;
use crate::refusal::Refusal;
use crate::server::Server;
use crate::slot::Slot;
use crate::ticket::Ticket;
use crate::told_full::say_full;
use adc_sessions::{Peer, Starter, Stream};
use hub_listener::{Arrived, Moments, Socket};
use hub_shared::Pass;
use hub_warnings::{Cause, Said, Warning, Warnings};
use log::Log;
use server_tasks::PlacesWord;
use session_hash::SessionHash;
use std::alloc::AllocGlobal;
use std::marker::PhantomData;
use std::net::SocketAddrV4;
use std::snapshot::Snapshot;
use std::sync::Wait;
use std::time::Clock;

/// The acceptor, which joins the hub for each connection that is accepted, and hands it to the task of its slot.
pub(crate) struct Acceptor<
    'a,
    B: OfHub<H, S>,
    S: Stream,
    T: Ticket<S, H, C>,
    H: SessionHash,
    R,
    C: Moments,
    L,
> {
    server: &'a Server<'a, B, S, T, H, R, C>,
    warnings: &'a Warnings<L>,
}

impl<'a, B: OfHub<H, S>, S: Stream, T: Ticket<S, H, C>, H: SessionHash, R, C: Moments, L> Drop
    for Acceptor<'a, B, S, T, H, R, C, L> {
    fn drop(self) {
        let Acceptor {
            server: _,
            warnings: _,
        } = self;
    }
}

impl<
    'a,
    B: OfHub<H, S>,
    S: Socket,
    T: Ticket<S, H, C>,
    H: SessionHash,
    R: Wait + Clock + AllocGlobal,
    C: Moments,
    L: Log,
> Acceptor<'a, B, S, T, H, R, C, L> {
    pub(crate) fn new(
        server: &'a Server<'a, B, S, T, H, R, C>,
        warnings: &'a Warnings<L>,
    ) -> Acceptor<'a, B, S, T, H, R, C, L> {
        Acceptor { server, warnings }
    }

    /// Joins the hub for a connection that has come, and gives the pass and the slot for it.
    fn join(
        &self,
        address: SocketAddrV4,
        challenge: [u8; 24],
        socket: &S,
    ) -> Result<(Pass<H>, Slot), NoPlace<B, S, H>>
        requires arrives { ∥ B.arrives (octets_of address) challenge socket.now ∥₁ }
        ensures here { IfOk result (λ r. home_in B.hub ≡ Some r.0.home) }
        ensures challenged { IfOk result (λ r. r.0.challenge ≡ challenge) }
        ensures came { IfOk result (λ r. HasComeFrom r.0 (octets_of address) challenge) }
        ensures entered { IfOk result (λ r. HasEntered ⟦<S as Stream>⟧.reports B.may_read B.arrives socket.now r.0) }
        ensures turned_away { (free : _) → result ≡ Err (HubFull free) → WasRefused (octets_of address) challenge free.visitor }
    {
        // It only says which stream the connection has.
        let _ = socket;
        let server = self.server;
        let FreeSlot {
            visitor,
            slot,
            of: _,
        } = match server.take_slot() {
            Ok(free) => free,
            Err(no_slot) => return Err(NoPlace::NoSlot(no_slot)),
        };
        let moment = server.moment_of_call().into_seconds();
        let peer = address.ip().octets();
        let (rt, alloc) = (server.rt, server.rt.alloc());
        match no_memory::join(rt, server.hub, alloc, visitor, peer, challenge, moment) {
            Ok(pass) => Ok((pass, slot)),
            Err((_, visitor, word)) => {
                let free = FreeSlot::new(visitor, slot);
                Err(match word {
                    Some(word) => NoPlace::NoMemory(free, word),
                    None => NoPlace::HubFull(free),
                })
            }
        }
    }

    /// Leaves the connection for the task of its slot, and gives the word of it. It is cut off where that cannot be.
    fn hand_over(&self, accepted: AcceptedConnection<B, S, T, H, C>) -> PlacesWord
        ensures { result ≡ Put accepted.slot }
    {
        let server = self.server;
        let place = accepted.slot.number();
        let (word, before) = server.shared.handoff.put(server.rt, place, accepted);
        if let Some(accepted) = before {
            let AcceptedConnection {
                ticket,
                socket,
                pass,
                challenge: _,
                slot,
                peer: _,
                of: _,
            } = accepted;
            drop(socket);
            let visitor = server.hub.quit(server.rt, pass);
            server.free(FreeSlot::new(visitor, slot));
            ticket.cut_off(CutOff::given_back(&word, place));
            server.shared.wakers.make_room();
        }
        word
    }

    /// Ends a connection for which there is no place: it is told so, or let go where memory was refused. Returns what was warned
    /// of it.
    fn turn_away(&self, why: NoPlace<B, S, H>, arrived: Arrived<S, T>) -> Option<Said<Warning>>
        requires began { T.began arrived.ticket ≡ arrived.socket }
        requires refused { (free : _) → why ≡ HubFull free
            → WasRefused (T.peer arrived.ticket) (challenge_of (T.terms arrived.ticket).seed.value (T.number arrived.ticket)) free.visitor }
        ensures warned { (free word : _) → why ≡ NoMemory free word → IsSomeAnd result (IsWarningOf arrived.address Refused) }
    {
        let server = self.server;
        let Arrived {
            ticket,
            mut socket,
            address,
        } = arrived;
        let said = match why {
            NoPlace::NoMemory(free, no_memory) => {
                server.free(free);
                ticket.lost(socket, no_memory);
                Some(self.warnings.warn(server.rt, Some(address), Cause::Refused))
            }
            NoPlace::HubFull(free) => {
                let why = Refusal::HubFull(Snapshot::of(&free.visitor));
                server.free(free);
                let told = say_full(&mut socket);
                server.linger(ticket.refused(socket, why, told));
                None
            }
            NoPlace::NoSlot(no_slot) => {
                let told = say_full(&mut socket);
                server.linger(ticket.refused(socket, Refusal::NoSlot(no_slot), told));
                None
            }
        };
        server.shared.wakers.make_room();
        said
    }
}

impl<
    B: OfHub<H, S>,
    S: Socket,
    T: Ticket<S, H, C>,
    H: SessionHash,
    R: Wait + Clock + AllocGlobal,
    C: Moments,
    L: Log,
> Starter<Newcomer<B, S, T, H, C>> for Acceptor<'_, B, S, T, H, R, C, L> {
    ghost use Rattle.std.specs.Prelude.{◌≡◌};
    ghost use Rattle.std.proofs.Common.{◌∙◌, refl};

    // It stays the same. That each connection was started is what its ticket's end says.
    ghost starts = { λ a n b. b ≡ a };

    ghost starts_nothing = { λ a. refl };

    ghost starts_in_order = { λ a n b m c first second. second ∙ first };

    fn start(&mut self, newcomer: Newcomer<B, S, T, H, C>, _peer: Peer) {
        let Newcomer {
            arrived,
            challenge,
            of: _,
        } = newcomer;
        // Lines are written in one piece each, so that waiting for more would only delay them.
        let _ = arrived.socket.set_nodelay(true);
        match self.join(arrived.address, challenge, &arrived.socket) {
            Ok(joined) => {
                let (pass, slot) = joined;
                let Arrived {
                    ticket,
                    socket,
                    address,
                } = arrived;
                let accepted = AcceptedConnection {
                    ticket,
                    socket,
                    pass,
                    challenge,
                    slot,
                    peer: address,
                    of: PhantomData,
                };
                let _ = self.hand_over(accepted);
            }
            Err(why) => {
                let _ = self.turn_away(why, arrived);
            }
        }
    }
}
