ghost use Rattle.std.specs.Prelude.{◌≡◌, ◌≢◌, None, IsSome, IfOk, IfErr};
ghost use Rattle.adc_sessions.specs.Served.{Serves};
ghost use Rattle.hub_core.specs.declared.refused.JoinRefused.TheVariants.{Memory};
ghost use Rattle.hub_core.specs.declared.share.Touched.TheVariants.{Nobody};
ghost use Rattle.hub_rules.specs.declared.history.Call.TheVariants.{Join};
ghost use Rattle.hub_rules.specs.declared.history.Reply.TheVariants.{Joined};
ghost use Rattle.hub_shared.specs.Calls.{Made, Refused};

use adc_sessions::{Bell, Port, Session, Stream};
use futures::Future;
use hub_core::JoinRefused;
use hub_shared::{Hub, Pass, Visitor};
use session_hash::SessionHash;
use std::alloc::Global;
use std::sync::Wait;
use tokio::io::{AsyncRead, AsyncWrite};

/// The word that memory was refused for a connection. It cannot be dropped.
pub struct NoMemory(());

impl NoMemory {
    /// Ends it.
    pub fn end(self) {
        let NoMemory(()) = self;
    }
}

/// Why a join was refused, who was to join, and the word of memory where that was refused.
type NotJoined<H> = (JoinRefused, Visitor<H>, Option<NoMemory>);

/// Joins a hub as [`Hub::join`] does. Only a hub that refuses a join for want of memory gives the word of that.
pub(crate) fn join<H: SessionHash, R: Wait>(
    rt: &R,
    hub: &Hub<H>,
    alloc: Global,
    visitor: Visitor<H>,
    peer: [u8; 4],
    challenge: [u8; 24],
    now: u64,
) -> Result<Pass<H>, NotJoined<H>>
    requires here { visitor.home ≡ hub.now.home }
    ensures pass { IfOk result (λ pass. pass ≡ record { home = visitor.home; caller = pass.caller; connection = pass.connection; challenge = challenge; touched = Nobody }) }
    ensures made { IfOk result (λ pass. Made hub.now.setup (H.digest_of hub.now.hash) visitor.caller (Join peer challenge now) (Joined pass.connection) pass.caller) }
    ensures back { IfErr result (λ r. r.1 ≡ record visitor { caller = r.1.caller; touched = Nobody }) }
    ensures refused { IfErr result (λ r. Refused hub.now.setup (H.digest_of hub.now.hash) visitor.caller (Join peer challenge now) r.0 r.1.caller) }
    ensures word { IfErr result (λ r. (r.0 ≡ Memory → IsSome r.2) × (r.0 ≢ Memory → r.2 ≡ None)) }
{
    match hub.join(rt, alloc, visitor, peer, challenge, now) {
        Ok(pass) => Ok(pass),
        Err((refused, visitor)) => {
            let word = match refused {
                JoinRefused::Memory => Some(NoMemory(())),
                JoinRefused::Full | JoinRefused::JoinsSpent => None,
            };
            Err((refused, visitor, word))
        }
    }
}

/// Makes a session as [`Session::new`] does. Where memory is refused, it gives all back, with the word of that.
pub(crate) fn session<S: AsyncRead + AsyncWrite, P: Port, B: Bell>(
    alloc: Global,
    stream: S,
    port: P,
    bell: B,
) -> Result<Session<S, P, B>, (NoMemory, S, P, B)>
    ensures serves { IfOk result (λ session. Serves ⟦<S as Stream>⟧.reports P.step P.leaves stream port (⟦<Session<S, P, B> as Future>⟧.gives session)) }
    ensures back { IfErr result (λ back. (back.1 ≡ stream) × (back.2 ≡ port) × (back.3 ≡ bell)) }
{
    match Session::new(alloc, stream, port, bell) {
        Ok(session) => Ok(session),
        Err((_, stream, port, bell)) => Err((NoMemory(()), stream, port, bell)),
    }
}
