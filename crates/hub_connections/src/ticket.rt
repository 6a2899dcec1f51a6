use crate::cut_off::CutOff;
use crate::no_memory::NoMemory;
use crate::refusal::Refusal;
use crate::terms::Terms;
use crate::told_full::ToldFull;
use adc_sessions::{End, Stream};
use hub_listener::Moments;
use server_tasks::LeavingSocket;
use session_hash::SessionHash;

/// A connection over a socket `S` that was accepted and is not over. It cannot be dropped: exactly one of its four calls ends it.
/// So what a server owes it is the condition of each call.
pub trait Ticket<S: Stream, H: SessionHash, C: Moments> {
    ghost use Rattle.std.specs.Prelude.{◌≡◌, IsSome, is_some, ℕ, List};
    ghost use Rattle.hub_connections.specs.declared.terms.Terms.{Terms};
    ghost use Rattle.hub_connections.specs.SessionEnds.{lingers_at};
    ghost use Rattle.hub_connections.specs.Owed.{IsServed, WritesFull, challenge_of};
    ghost use Rattle.hub_connections.specs.JoinRefusals.{IsRefusal};

    /// What the server promised when it began to listen.
    ghost terms: { Self → Terms H C };

    /// How many connections were accepted before.
    ghost number: { Self → ℕ };

    /// The octets of the address from which it comes, most significant first.
    ghost peer: { Self → List ℕ };

    /// Its socket, as it was accepted.
    ghost began: { Self → S };

    /// Ends a connection that was served until this end. Returns the socket if its last bytes are to reach the client.
    fn served(self, socket: S, end: End) -> Option<LeavingSocket<S>>
        requires served { ∥ IsServed H.digest_of C.may_read ⟦<S as Stream>⟧.reports (terms self) (number self) (peer self) (began self) end socket ∥₁ }
        ensures lingers { is_some result ≡ lingers_at end };

    /// Ends a connection that the server refused. Returns the socket if what it was told is to reach the client.
    fn refused(self, socket: S, why: Refusal<H>, told: ToldFull) -> Option<LeavingSocket<S>>
        requires told { ∥ WritesFull S.writes (began self) socket ∥₁ }
        requires why { IsRefusal (peer self) (challenge_of (terms self).seed.value (number self)) why }
        ensures lingers { IsSome result };

    /// Ends a connection that memory was refused for. Nothing was read from it or written to it.
    fn lost(self, socket: S, why: NoMemory)
        requires untouched { socket ≡ began self };

    /// Ends a connection that was served, or waited to be, when the server's runtime ended. Its socket is gone.
    fn cut_off(self, why: CutOff);
}
