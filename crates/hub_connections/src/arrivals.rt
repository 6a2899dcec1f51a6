ghost use Rattle.hub_connections.specs.NamedHub.{hub_in};
ghost use Rattle.std.specs.Prelude.{◌≡◌, ℕ, List};
ghost use Rattle.rand_chacha.specs.ChaCha.{of_seed};
ghost use Rattle.hub_challenges.specs.Dealing.{after_dealt};
ghost use Rattle.hub_listener.specs.Rests.{socket_of};
ghost use Rattle.hub_connections.specs.Arrivals.{Arrives};

use crate::free_slot::OfHub;
use crate::newcomer::Newcomer;
use crate::port::HubPort;
use crate::server::Server;
use crate::ticket::Ticket;
use adc_sessions::{Incoming, Peer, Stream};
use futures::task::{Context, Poll};
use hub_challenges::Challenges;
use hub_listener::{Listener, Moments, Socket, Ticks};
use hub_warnings::WallClock;
use log::Log;
use session_hash::SessionHash;
use std::io;
use std::marker::PhantomData;
use std::sync::Wait;

/// The connections that come to a hub: those of a listener, each with the next challenge of the seed that its terms name.
pub(crate) struct Arrivals<
    'a,
    B: OfHub<H, S>,
    S: Stream,
    T: Ticket<S, H, C>,
    H: SessionHash,
    R,
    C: Moments,
    L,
    I: HubPort<S, T, H, C>,
> {
    listener: Listener<'a, R, L, I>,
    challenges: Challenges,
    server: &'a Server<'a, B, S, T, H, R, C>,
    ghost hub: { hub_in (I.terms (socket_of listener)) ≡ server.now.hub.now },
    ghost clock: { (I.terms (socket_of listener)).clock.value ≡ server.now.clock.now },
    ghost dealt: { challenges ≡ after_dealt (I.accepted (socket_of listener)) (of_seed (I.terms (socket_of listener)).seed.value) },
    ghost arrives: { (peer challenge : List ℕ) (stream : _) → Arrives T.terms T.number T.peer T.began (I.terms (socket_of listener)) peer challenge stream
        → ∥ B.arrives peer challenge stream ∥₁ },
}

impl<
    'a,
    B: OfHub<H, S>,
    S: Stream,
    T: Ticket<S, H, C>,
    H: SessionHash,
    R,
    C: Moments,
    L,
    I: HubPort<S, T, H, C>,
> Drop for Arrivals<'a, B, S, T, H, R, C, L, I> {
    fn drop(self) {
        let Arrivals {
            listener,
            challenges,
            server: _,
        } = self;
        drop(listener);
        drop(challenges);
    }
}

impl<
    'a,
    B: OfHub<H, S>,
    S: Socket,
    T: Ticket<S, H, C>,
    H: SessionHash,
    R: Wait + WallClock + Ticks,
    C: Moments,
    L: Log,
    I: HubPort<S, T, H, C>,
> Arrivals<'a, B, S, T, H, R, C, L, I> {
    /// Makes those of a listener that has accepted nobody, with the challenges of the seed that its terms name.
    pub(crate) fn new(
        listener: Listener<'a, R, L, I>,
        seed: [u8; 32],
        server: &'a Server<'a, B, S, T, H, R, C>,
    ) -> Arrivals<'a, B, S, T, H, R, C, L, I>
        requires none { I.accepted (socket_of listener) ≡ 0 }
        requires hub { hub_in (I.terms (socket_of listener)) ≡ server.now.hub.now }
        requires clock { (I.terms (socket_of listener)).clock.value ≡ server.now.clock.now }
        requires seed { (I.terms (socket_of listener)).seed.value ≡ seed }
        requires arrives { (peer challenge : List ℕ) (stream : _) → Arrives T.terms T.number T.peer T.began (I.terms (socket_of listener)) peer challenge stream
            → ∥ B.arrives peer challenge stream ∥₁ }
        ensures { result.listener ≡ listener.entry }
    {
        Arrivals {
            listener,
            challenges: Challenges::from_seed(seed),
            server,
        }
    }
}

impl<
    B: OfHub<H, S>,
    S: Socket,
    T: Ticket<S, H, C>,
    H: SessionHash,
    R: Wait + WallClock + Ticks,
    C: Moments,
    L: Log,
    I: HubPort<S, T, H, C>,
> Incoming for Arrivals<'_, B, S, T, H, R, C, L, I> {
    ghost use Rattle.std.specs.Prelude.{◌≡◌, ◌+◌};
    ghost use Rattle.adc_sessions.specs.Arrivals.{streams_of};
    ghost use Rattle.hub_listener.specs.Rests.{socket_of};

    type Stream = Newcomer<B, S, T, H, C>;

    // The listener keeps its terms, and counts who comes.
    ghost brings = { λ a arrival b. (I.terms (socket_of b.listener) ≡ I.terms (socket_of a.listener))
        × (I.accepted (socket_of b.listener) ≡ I.accepted (socket_of a.listener) + streams_of arrival) };

    fn poll_incoming(
        &mut self,
        cx: &mut Context<'_>,
    ) -> Poll<io::Result<(Newcomer<B, S, T, H, C>, Peer)>> {
        match self.listener.poll_arrived(cx) {
            Poll::Pending => Poll::Pending,
            Poll::Ready(Err(error)) => Poll::Ready(Err(error)),
            Poll::Ready(Ok(arrived)) => {
                let peer = Peer {
                    address: arrived.address.ip().octets(),
                };
                let newcomer = Newcomer {
                    arrived,
                    challenge: self.challenges.next(),
                    of: PhantomData,
                };
                Poll::Ready(Ok((newcomer, peer)))
            }
        }
    }
}
