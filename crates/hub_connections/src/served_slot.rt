ghost use Rattle.std.specs.Prelude.{◌≡◌, Some, ℕ, List, true, false, is_some};
ghost use Rattle.std.specs.Option.{ForSome};
ghost use Rattle.futures.specs.Poll.{OnPending, IfReady};
ghost use Rattle.futures.specs.Task.{IsArmed, Keeps};
ghost use Rattle.hub_listener.specs.Peers.{octets_of};
ghost use Rattle.hub_connections.specs.SessionEnds.{EndsVisit};
ghost use Rattle.hub_connections.specs.Owed.{IsServed};
ghost use Rattle.hub_connections.specs.PortCalls.{Calls, Leaves};
ghost use Rattle.hub_connections.specs.Visits.{HasVisited};
ghost use Rattle.hub_connections.specs.declared.left_slot.LeftSlot.{LeftSlot};
ghost use Rattle.hub_connections.specs.Wakes.{AreWoken, OwesOn, Wakes};

use crate::connection::HubSession;
use crate::cut_off::CutOff;
use crate::free_slot::{FreeSlot, OfHub};
use crate::guest::Guest;
use crate::left_slot::LeftSlot;
use crate::ticket::Ticket;
use adc_sessions::{End, Stream};
use futures::Future;
use futures::task::{Context, Poll};
use hub_listener::Moments;
use session_hash::SessionHash;
use std::alloc::AllocGlobal;
use std::marker::PhantomData;
use std::net::SocketAddrV4;
use std::snapshot::Snapshot;
use std::sync::Wait;
use std::time::Clock;
use tokio::io::{AsyncRead, AsyncWrite};

/// Stands for what the hash of a hub means, where a struct keeps a fact about it. It holds nothing.
#[derive(Drop)]
struct Meaning<H: SessionHash> {
    of: PhantomData<H>,
    ghost digests: { (hash : _) (bytes : List ℕ) → H.digest_of hash bytes ≡ H.digest_of hash bytes },
}

/// The word that the session of a slot is gone before its end. It cannot be dropped.
pub(crate) struct Unfinished(());

impl Unfinished {
    /// Ends it.
    pub(crate) fn end(self) {
        let Unfinished(()) = self;
    }
}

/// A connection whose session is over: how it ended, its ticket, its address and its socket, and the slot that is free again.
pub(crate) struct EndedSession<
    B: OfHub<H, S>,
    S: Stream,
    T: Ticket<S, H, C>,
    H: SessionHash,
    C: Moments,
> {
    pub(crate) end: End,
    pub(crate) ticket: T,
    pub(crate) peer: SocketAddrV4,
    pub(crate) socket: S,
    pub(crate) free: FreeSlot<B, S, H>,
    pub(crate) of: PhantomData<Snapshot<C>>,
    pub(crate) ghost from: { T.peer ticket ≡ octets_of peer },
    pub(crate) ghost owed: { ∥ IsServed H.digest_of C.may_read ⟦<S as Stream>⟧.reports (T.terms ticket) (T.number ticket) (T.peer ticket) (T.began ticket) end socket ∥₁ },
}

/// The session of a slot, while it serves a connection of the named hub, and that connection. Whatever the session ends
/// with, what is owed to the connection holds, and all calls of the visitor who is left are visits of that hub.
pub(crate) struct ServedSlot<
    'a,
    B: OfHub<H, S>,
    S: Stream,
    T: Ticket<S, H, C>,
    H: SessionHash,
    R: Wait + Clock,
    C: Moments,
> {
    meaning: Meaning<H>,
    session: Option<HubSession<'a, B, S, T, H, R, C>>,
    guest: Option<Guest<T>>,
    ghost has_guest: { ForSome session (λ _. is_some guest ≡ true) },
    ghost from: { ForSome guest (λ held. T.peer held.ticket ≡ octets_of held.peer) },
    ghost ends: { ForSome session (λ running. ForSome guest (λ held. EndsVisit running ⟦<S as Stream>⟧.reports
        (λ a call b. (b.server ≡ a.server) × Calls a.server.now.hub.now.setup (H.digest_of a.server.now.hub.now.hash) B.may_read a.pass call b.pass
        × (b.slot ≡ a.slot) × Wakes call b.pass.touched a.slot a.owes b.owes b.woken b.rung)
        (λ a left. Leaves a.server.now.hub.now.setup (H.digest_of a.server.now.hub.now.hash) a.pass left.visitor
        × (left.slot ≡ a.slot) × AreWoken left.visitor.touched a.slot 10 a.second left.woken × OwesOn a.owes false a.slot left.rung)
        (λ (left : LeftSlot H). left.visitor) B.hub (HasVisited ⟦<S as Stream>⟧.reports B.may_read B.arrives)
        (λ end later. IsServed H.digest_of C.may_read ⟦<S as Stream>⟧.reports (T.terms held.ticket) (T.number held.ticket) (T.peer held.ticket) (T.began held.ticket) end later))) },
}

impl<
    'a,
    B: OfHub<H, S>,
    S: Stream,
    T: Ticket<S, H, C>,
    H: SessionHash,
    R: Wait + Clock,
    C: Moments,
> Drop for ServedSlot<'a, B, S, T, H, R, C> {
    fn drop(self) {
        let ServedSlot {
            meaning,
            session,
            guest,
        } = self;
        drop(meaning);
        drop(session);
        // The runtime has ended before the session did.
        cut_off_any::<S, T, H, C>(guest);
    }
}

impl<
    'a,
    B: OfHub<H, S>,
    S: AsyncRead + AsyncWrite,
    T: Ticket<S, H, C>,
    H: SessionHash,
    R: Wait + Clock + AllocGlobal,
    C: Moments,
> ServedSlot<'a, B, S, T, H, R, C> {
    /// Makes that of a slot which serves nobody.
    pub(crate) fn new() -> ServedSlot<'a, B, S, T, H, R, C> {
        ServedSlot {
            meaning: Meaning { of: PhantomData },
            session: None,
            guest: None,
        }
    }

    /// Serves this connection by this session.
    pub(crate) fn begin(&mut self, session: HubSession<'a, B, S, T, H, R, C>, guest: Guest<T>)
        requires from { T.peer guest.ticket ≡ octets_of guest.peer }
        requires ends { EndsVisit session ⟦<S as Stream>⟧.reports
            (λ a call b. (b.server ≡ a.server) × Calls a.server.now.hub.now.setup (H.digest_of a.server.now.hub.now.hash) B.may_read a.pass call b.pass
            × (b.slot ≡ a.slot) × Wakes call b.pass.touched a.slot a.owes b.owes b.woken b.rung)
            (λ a left. Leaves a.server.now.hub.now.setup (H.digest_of a.server.now.hub.now.hash) a.pass left.visitor
            × (left.slot ≡ a.slot) × AreWoken left.visitor.touched a.slot 10 a.second left.woken × OwesOn a.owes false a.slot left.rung)
            (λ (left : LeftSlot H). left.visitor) B.hub (HasVisited ⟦<S as Stream>⟧.reports B.may_read B.arrives)
            (λ end later. IsServed H.digest_of C.may_read ⟦<S as Stream>⟧.reports (T.terms guest.ticket) (T.number guest.ticket) (T.peer guest.ticket) (T.began guest.ticket) end later) }
    {
        self.session = Some(session);
        cut_off_any::<S, T, H, C>(self.guest.replace(guest));
    }

    /// Works as the session does. At its end it gives what is over; at once nothing where there is no session.
    pub(crate) fn poll_over(
        &mut self,
        cx: &mut Context<'_>,
    ) -> Poll<Option<EndedSession<B, S, T, H, C>>>
        ensures registered { OnPending result (IsArmed cx.new) }
        ensures kept { Keeps cx.old cx.new }
    {
        let Some(session) = &mut self.session else {
            return Poll::Ready(None);
        };
        match session.poll(cx) {
            Poll::Pending => Poll::Pending,
            Poll::Ready((end, socket, left)) => {
                self.session = None;
                let Some(guest) = self.guest.take() else {
                    unreachable!()
                };
                let Guest { ticket, slot, peer } = guest;
                let LeftSlot {
                    visitor,
                    slot: _,
                    woken,
                    rung,
                } = left;
                drop(woken);
                drop(rung);
                Poll::Ready(Some(EndedSession {
                    end,
                    ticket,
                    peer,
                    socket,
                    free: FreeSlot::new(visitor, slot),
                    of: PhantomData,
                }))
            }
        }
    }
}

/// Ends a connection, if there is one, whose server's runtime ended before its session did.
fn cut_off_any<S: Stream, T: Ticket<S, H, C>, H: SessionHash, C: Moments>(guest: Option<Guest<T>>) {
    match guest {
        Some(
            Guest {
                ticket,
                slot,
                peer: _,
            },
        ) => {
            let why = CutOff::unfinished(Unfinished(()));
            slot.cut_off(&why);
            ticket.cut_off(why);
        }
        None => {}
    }
}
