ghost use Rattle.std.specs.Prelude.{◌≡◌, Some};
ghost use Rattle.hub_listener.specs.Peers.{octets_of};
ghost use Rattle.hub_connections.specs.Owed.{IsServed, OwesService, challenge_of};

use crate::free_slot::OfHub;
use crate::ticket::Ticket;
use adc_sessions::Stream;
use hub_listener::{Arrived, Moments};
use session_hash::SessionHash;
use std::marker::PhantomData;
use std::snapshot::Snapshot;

/// A connection that has come, with its challenge.
pub(crate) struct Newcomer<
    B: OfHub<H, S>,
    S: Stream,
    T: Ticket<S, H, C>,
    H: SessionHash,
    C: Moments,
> {
    pub(crate) arrived: Arrived<S, T>,
    pub(crate) challenge: [u8; 24],
    pub(crate) of: PhantomData<(B, H, Snapshot<C>)>,
    pub(crate) ghost began: { T.began arrived.ticket ≡ arrived.socket },
    pub(crate) ghost peer: { T.peer arrived.ticket ≡ octets_of arrived.address },
    pub(crate) ghost challenged: { challenge ≡ challenge_of (T.terms arrived.ticket).seed.value (T.number arrived.ticket) },
    pub(crate) ghost arrives: { ∥ B.arrives (T.peer arrived.ticket) challenge arrived.socket ∥₁ },
    pub(crate) ghost owes: { OwesService B.hub H.digest_of ⟦<S as Stream>⟧.reports B.may_read (T.peer arrived.ticket) challenge arrived.socket
        (λ end later. IsServed H.digest_of C.may_read ⟦<S as Stream>⟧.reports (T.terms arrived.ticket) (T.number arrived.ticket) (T.peer arrived.ticket) (T.began arrived.ticket) end later) },
}
