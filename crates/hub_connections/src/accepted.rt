ghost use Rattle.std.specs.Prelude.{◌≡◌, Some};
ghost use Rattle.hub_listener.specs.Peers.{octets_of};
ghost use Rattle.hub_connections.specs.NamedHub.{home_in};
ghost use Rattle.hub_connections.specs.Owed.{IsServed, OwesServiceOf};
ghost use Rattle.hub_connections.specs.Visits.{HasEntered};

use crate::cut_off::CutOff;
use crate::free_slot::OfHub;
use crate::slot::Slot;
use crate::ticket::Ticket;
use adc_sessions::Stream;
use hub_listener::Moments;
use hub_shared::Pass;
use session_hash::SessionHash;
use std::marker::PhantomData;
use std::net::SocketAddrV4;
use std::snapshot::Snapshot;

/// A connection that was accepted, and has joined the named hub, for a visitor whose calls before are visits. It cannot be
/// dropped: its ticket has to be used.
pub struct AcceptedConnection<
    B: OfHub<H, S>,
    S: Stream,
    T: Ticket<S, H, C>,
    H: SessionHash,
    C: Moments,
> {
    pub(crate) ticket: T,
    pub(crate) socket: S,
    pub(crate) pass: Pass<H>,
    pub(crate) challenge: [u8; 24],
    pub(crate) slot: Slot,
    pub(crate) peer: SocketAddrV4,
    pub(crate) of: PhantomData<(B, Snapshot<C>)>,
    pub(crate) ghost began: { T.began ticket ≡ socket },
    pub(crate) ghost from: { T.peer ticket ≡ octets_of peer },
    pub(crate) ghost here: { home_in B.hub ≡ Some pass.home },
    pub(crate) ghost challenged: { pass.challenge ≡ challenge },
    pub(crate) ghost entered: { HasEntered ⟦<S as Stream>⟧.reports B.may_read B.arrives socket pass },
    pub(crate) ghost owes: { OwesServiceOf B.hub H.digest_of ⟦<S as Stream>⟧.reports B.may_read socket pass
        (λ end later. IsServed H.digest_of C.may_read ⟦<S as Stream>⟧.reports (T.terms ticket) (T.number ticket) (T.peer ticket) (T.began ticket) end later) },
}

impl<B: OfHub<H, S>, S: Stream, T: Ticket<S, H, C>, H: SessionHash, C: Moments> AcceptedConnection<
    B,
    S,
    T,
    H,
    C,
> {
    /// Ends it, where no task took it, as this word says.
    pub(crate) fn cut_off(self, why: CutOff) {
        let AcceptedConnection {
            ticket,
            socket,
            pass,
            challenge: _,
            slot,
            peer: _,
            of: _,
        } = self;
        drop(socket);
        drop(pass);
        slot.cut_off(&why);
        ticket.cut_off(why);
    }
}
