ghost use Rattle.std.specs.Prelude.{◌≡◌, ◌≤◌, ◌++◌, IfOk, OnOk, OnErr, ◌∷◌, false};
ghost use Rattle.hub_core.specs.declared.share.Touched.TheVariants.{Nobody};
ghost use Rattle.hub_core.specs.Promises.{seen_of};
ghost use Rattle.hub_rules.specs.History.{view};
ghost use Rattle.hub_rules.specs.Prepared.{prepared_line};
ghost use Rattle.hub_shared.specs.Calls.{SaysLine, Saw, TakesLines, behind};
ghost use Rattle.hub_core.specs.Moves.{StandsAt};
ghost use Rattle.hub_core.specs.TouchedSids.{NamesConcerned};
ghost use Rattle.hub_rules.specs.Legal.{Legal};
ghost use Rattle.hub_shared.specs.Connections.{entries_of};
ghost use Rattle.one_history.specs.States.{IsHolderAt};
ghost use Rattle.hub_shared.specs.Callers.{pass_of, IsPass};

use crate::hub::Hub;
use crate::hub_key::{HubLock, HubSeat};
use hub_core::{Conn, Core, LineRefused, Look, Prepared, TakeRefused, Taken, Touched, Verdict};
use hub_rules::Entry;
use one_history::MadeEntry;
use session_hash::SessionHash;
use std::alloc::Global;
use std::marker::{Brand, Model, PhantomData};
use std::snapshot::Snapshot;
use std::sync::Wait;

/// A caller of a hub with its connection. Contracts see the caller's number, the beginning of the history that it has
/// seen, its own entries in it, the connection, the challenge that came with its join, and whom the last call concerned.
pub struct Pass<H> {
    pub(crate) seat: HubSeat<H>,
    pub(crate) connection: Conn,
    pub(crate) touched: Touched,
}

impl<H> Model for Pass<H> {
    ghost use Rattle.hub_shared.specs.Callers.{PassState, pass_of, IsPass};

    ghost Value = { PassState H };

    ghost view = { λ p. pass_of p.seat p.connection p.touched };

    ghost invariant = { λ p. IsPass p.seat p.connection };
}

impl<H> Pass<H> {
    /// Names whom the pass's last call concerned: each connection for which more lines wait than before it, which lags since,
    /// or which it shut out. It may name somebody too many. After a join, a take, a look or a refusal it names nobody.
    pub fn touched(&self) -> Touched
        ensures { result ≡ self.now.touched }
    {
        self.touched
    }

    pub(crate) fn into_parts(self) -> (HubSeat<H>, Conn)
        ensures shown { pass_of result.0 result.1 self.touched ≡ self }
        ensures pass { IsPass result.0 result.1 }
    {
        let Pass {
            seat,
            connection,
            touched: _,
        } = self;
        (seat, connection)
    }
}

impl<H> Drop for Pass<H> {
    fn drop(self) {
        let Pass {
            seat,
            connection: _,
            touched: _,
        } = self;
        drop(seat);
    }
}

impl<H: SessionHash> Hub<H> {
    /// Handles a line of the pass's connection, at a moment in seconds. It may wait for the lock. Whom it concerned the pass
    /// names afterwards. Conditions: the pass is of this hub; the line was made ready with the hub's setup and hash, and with
    /// the challenge of the pass's join.
    ///
    /// Refused: `Memory`; then hub and pass are unchanged, and the line may be sent again.
    pub fn line<R: Wait>(
        &self,
        rt: &R,
        alloc: Global,
        pass: &mut Pass<H>,
        line: &Prepared,
        now: u64,
    ) -> Result<Verdict, LineRefused>
        requires here { pass.old.home ≡ self.now.home }
        requires prepared { line.now ≡ prepared_line self.now.setup (H.digest_of self.now.hash) pass.old.challenge line.now.bytes }
        ensures same { pass.new ≡ record pass.old { caller = pass.new.caller; touched = pass.new.touched } }
        ensures made { IfOk result (λ verdict. SaysLine self.now.setup (H.digest_of self.now.hash) pass.old line.now.bytes now verdict pass.new.caller) }
        ensures refused { OnErr result (Saw self.now.setup (H.digest_of self.now.hash) pass.old.caller pass.new.caller) }
        ensures touched { OnOk result (NamesConcerned pass.new.touched self.now.setup (H.digest_of self.now.hash) pass.new.caller.seen) }
        ensures nobody { OnErr result (pass.new.touched ≡ Nobody) }
    {
        let mut core = self.lock.acquire(rt, &mut pass.seat);
        match core.line(alloc, pass.connection, line, now) {
            Ok(verdict) => {
                pass.touched = core.touched();
                let note = (pass.connection, Snapshot::of(line), now, verdict);
                enter::<Brand, H, _>(&self.lock, &mut pass.seat, core, &note);
                Ok(verdict)
            }
            Err(refused) => {
                pass.touched = Touched::Nobody;
                let _ = self.lock.release(&mut pass.seat, core);
                Err(refused)
            }
        }
    }

    /// Removes the first `count` lines that wait for the pass's connection, or all if fewer wait, and appends their bytes.
    /// It may wait for the lock. Conditions: the pass is of this hub; `count` is from 1 to 256.
    ///
    /// Refused: `Memory`; then nothing is removed or appended.
    pub fn take<R: Wait>(
        &self,
        rt: &R,
        pass: &mut Pass<H>,
        count: usize,
        out: &mut Vec<u8>,
    ) -> Result<Taken, TakeRefused>
        requires here { pass.old.home ≡ self.now.home }
        requires some { 1 ≤ count }
        requires few { count ≤ 256 }
        ensures same { pass.new ≡ record pass.old { caller = pass.new.caller; touched = pass.new.touched } }
        ensures made { IfOk result (λ taken. TakesLines self.now.setup (H.digest_of self.now.hash) pass.old count out.old.items out.new.items taken pass.new.caller) }
        ensures appended { OnOk result (out.new.items ≡ out.old.items ++ behind out.old.items out.new.items) }
        ensures refused { OnErr result (Saw self.now.setup (H.digest_of self.now.hash) pass.old.caller pass.new.caller) }
        ensures unchanged { OnErr result (out.new.items ≡ out.old.items) }
        ensures nobody { pass.new.touched ≡ Nobody }
    {
        let before = Snapshot::of(&*out);
        let mut core = self.lock.acquire(rt, &mut pass.seat);
        match core.take(pass.connection, count, out) {
            Ok(taken) => {
                pass.touched = Touched::Nobody;
                let note = (pass.connection, count, before, Snapshot::of(&*out), taken);
                enter::<Brand, H, _>(&self.lock, &mut pass.seat, core, &note);
                Ok(taken)
            }
            Err(refused) => {
                pass.touched = Touched::Nobody;
                let _ = self.lock.release(&mut pass.seat, core);
                Err(refused)
            }
        }
    }

    /// Looks at the pass's connection. It may wait for the lock, and takes no memory. Condition: the pass is of this hub.
    pub fn look<R: Wait>(&self, rt: &R, pass: &mut Pass<H>) -> Look
        requires here { pass.old.home ≡ self.now.home }
        ensures same { pass.new ≡ record pass.old { caller = pass.new.caller; touched = pass.new.touched } }
        ensures saw { Saw self.now.setup (H.digest_of self.now.hash) pass.old.caller pass.new.caller }
        ensures look { seen_of result ≡ view self.now.setup (H.digest_of self.now.hash) pass.new.caller.seen pass.new.connection }
        ensures nobody { pass.new.touched ≡ Nobody }
    {
        let core = self.lock.acquire(rt, &mut pass.seat);
        let look = core.look(pass.connection);
        pass.touched = Touched::Nobody;
        let _ = self.lock.release(&mut pass.seat, core);
        look
    }
}

// The step by which an entry is written into the history.
// The entry that is made. The proof of a call picks it.
pub(crate) trait Names {
    ghost use Rattle.hub_rules.specs.declared.history.Entry.{Entry};

    ghost entry: { Entry };
}

impl Names for Brand {
    ghost use Rattle.hub_rules.specs.declared.history.Call.TheVariants.{Quit};
    ghost use Rattle.hub_rules.specs.declared.history.Reply.TheVariants.{Left};

    ghost entry = { record { caller = 0; call = Quit 0; reply = Left } };
}

struct Entered<B> {
    named: PhantomData<B>,
}

impl<B: Names> MadeEntry<Entry> for Entered<B> {
    ghost entry = { B.entry };
}

// Gives the hub back with the entry. What the entry is made of is in the note, for the pick.
pub(crate) fn enter<B: Names, H: SessionHash, N>(
    lock: &HubLock<H>,
    seat: &mut HubSeat<H>,
    core: Box<Core>,
    note: &N,
)
    requires holds { IsHolderAt lock.now seat.old }
    requires mine { B.entry.caller ≡ seat.old.number }
    requires stands { StandsAt lock.now.about.setup.value (H.digest_of lock.now.about.hash.value) (B.entry ∷ seat.old.seen) core.value }
    ensures seat { let seen = B.entry ∷ seat.old.seen in
        let mine = B.entry ∷ seat.old.mine in
        seat.new ≡ record seat.old { seen = seen; mine = mine; holds = false } }
    ensures legal { Legal lock.now.about.setup.value (H.digest_of lock.now.about.hash.value) seat.new.seen }
    ensures own { entries_of seat.new.number seat.new.seen ≡ seat.new.mine }
{
    let _ = note;
    let _ = lock.release_with::<Entered<B>>(seat, core);
}
