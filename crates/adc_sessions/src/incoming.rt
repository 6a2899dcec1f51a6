ghost use Rattle.std.specs.Prelude.{◌++◌, List, [], ◌∷◌};
ghost use Rattle.futures.specs.Task.{IsArmed, Keeps};
ghost use Rattle.futures.specs.Poll.{OnPending};
ghost use Rattle.adc_sessions.specs.Arrivals.{Arrival, arrival_of};
ghost use Rattle.adc_sessions.specs.declared.incoming.Peer.{Peer};

use futures::task::{Context, Poll};
use std::io;

/// The peer of a stream: an IPv4 address.
#[derive(Clone, Copy, Debug, PartialEq, Eq)]
pub struct Peer {
    /// The four bytes of the address, most significant first.
    pub address: [u8; 4],
}

/// A source of streams, such as a listening socket.
pub trait Incoming: Drop {
    /// The streams that it brings. Nobody may drop one whose type is not `Drop`.
    type Stream;

    /// The relation of two states: a call in the first came to this, and left the second.
    ghost brings: { Self → Arrival Self.Stream → Self → Type 0 };

    /// Gives the next stream, and its peer.
    fn poll_incoming(&mut self, cx: &mut Context<'_>) -> Poll<io::Result<(Self::Stream, Peer)>>
        ensures brings { brings self.old (arrival_of result) self.new }
        ensures registered { OnPending result (IsArmed cx.new) }
        ensures kept { Keeps cx.old cx.new };
}

/// A starter that makes a session of a stream and has it run.
pub trait Starter<S>: Drop {
    /// The relation of two states: from the first on it was given these streams with their peers, one after another, and left
    /// the second.
    ghost starts: { Self → List (S × Peer) → Self → Type 0 };

    /// Takes a stream. Where it can make no session of it, it lets the stream go: nothing is told to whom calls.
    fn start(&mut self, stream: S, peer: Peer)
        ensures { starts self.old ((stream, peer) ∷ []) self.new };

    ghost starts_nothing: { (a : Self) → starts a [] a };

    ghost starts_in_order: { (a : Self) (first : List (S × Peer)) (b : Self) (last : List (S × Peer)) (c : Self)
        → starts a first b → starts b last c → starts a (first ++ last) c };
}
