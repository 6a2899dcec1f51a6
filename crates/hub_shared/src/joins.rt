ghost use Rattle.std.specs.Prelude.{◌≡◌, IfOk, IfErr};
ghost use Rattle.hub_rules.specs.declared.history.Call.TheVariants.{Join, Quit};
ghost use Rattle.hub_rules.specs.declared.history.Reply.TheVariants.{Joined, Left};
ghost use Rattle.hub_core.specs.declared.share.Touched.TheVariants.{Nobody};
ghost use Rattle.hub_core.specs.TouchedSids.{NamesConcerned};
ghost use Rattle.hub_shared.specs.Calls.{Made, Refused};

use crate::calls::{Pass, enter};
use crate::hub::Hub;
use crate::visitor::Visitor;
use hub_core::{JoinRefused, Touched};
use session_hash::SessionHash;
use std::alloc::Global;
use std::marker::Brand;
use std::sync::Wait;

impl<H: SessionHash> Hub<H> {
    /// Joins a visitor from an address, with a challenge, at a moment in seconds. It may wait for the lock.
    /// Condition: the visitor is of this hub.
    ///
    /// Refused, by the first that applies: `Full` where as many connections are open as the setup admits, `JoinsSpent`
    /// after 18,446,744,073,709,551,615 joins; then `Memory`. The hub is unchanged, and the visitor comes back.
    pub fn join<R: Wait>(
        &self,
        rt: &R,
        alloc: Global,
        visitor: Visitor<H>,
        peer: [u8; 4],
        challenge: [u8; 24],
        now: u64,
    ) -> Result<Pass<H>, (JoinRefused, Visitor<H>)>
        requires here { visitor.home ≡ self.now.home }
        ensures pass { IfOk result (λ pass. pass ≡ record { home = visitor.home; caller = pass.caller; connection = pass.connection; challenge = challenge; touched = Nobody }) }
        ensures made { IfOk result (λ pass. Made self.now.setup (H.digest_of self.now.hash) visitor.caller (Join peer challenge now) (Joined pass.connection) pass.caller) }
        ensures back { IfErr result (λ r. r.1 ≡ record visitor { caller = r.1.caller; touched = Nobody }) }
        ensures refused { IfErr result (λ r. Refused self.now.setup (H.digest_of self.now.hash) visitor.caller (Join peer challenge now) r.0 r.1.caller) }
    {
        let mut seat = visitor.into_idle();
        let mut core = self.lock.acquire(rt, &mut seat);
        let answer = core.join(alloc, peer, challenge, now);
        // A join concerns nobody.
        let touched = Touched::Nobody;
        if let Err(JoinRefused::Memory) = answer {
            let _ = self.lock.release(&mut seat, core);
            return Err((JoinRefused::Memory, Visitor { seat, touched }));
        }
        let note = (peer, challenge, now, answer);
        enter::<Brand, H, _>(&self.lock, &mut seat, core, &note);
        match &answer {
            Ok(connection) => Ok(Pass {
                seat,
                connection: *connection,
                touched,
            }),
            Err(refused) => Err((*refused, Visitor { seat, touched })),
        }
    }

    /// Lets the pass's connection go, and gives the visitor back, who may join again, and names whom that concerned. What
    /// waited for the connection is given up. It may wait for the lock, and takes no memory. Condition: the pass is of this
    /// hub.
    pub fn quit<R: Wait>(&self, rt: &R, pass: Pass<H>) -> Visitor<H>
        requires here { pass.home ≡ self.now.home }
        ensures visitor { result ≡ record { home = pass.home; caller = result.caller; touched = result.touched } }
        ensures made { Made self.now.setup (H.digest_of self.now.hash) pass.caller (Quit pass.connection) Left result.caller }
        ensures touched { NamesConcerned result.touched self.now.setup (H.digest_of self.now.hash) result.caller.seen }
    {
        let (mut seat, connection) = pass.into_parts();
        let mut core = self.lock.acquire(rt, &mut seat);
        core.quit(connection);
        let touched = core.touched();
        enter::<Brand, H, _>(&self.lock, &mut seat, core, &connection);
        Visitor { seat, touched }
    }
}
