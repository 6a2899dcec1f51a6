ghost use Rattle.std.specs.Prelude.{◌≡◌, ◌≤◌, [], Some, None, ℕ, IfOk, IfErr, OnOk, IsOk};
ghost use Rattle.server_tasks.specs.declared.state.Told.TheVariants.{Asked};
ghost use Rattle.hub_connections.specs.Faults.{IsServerFault};

use crate::accepted::AcceptedConnection;
use crate::all_free::AllFree;
use crate::cut_off::CutOff;
use crate::free_slot::{FreeSlot, OfHub, Stop, VacantSlot};
use crate::listening::ending_by;
use crate::slot::Slot;
use crate::ticket::Ticket;
use adc_sessions::Stream;
use futures::spin::GaveUp;
use hub_core::Setup;
use hub_endings::Ending;
use hub_listener::{CallMoment, Moments};
use hub_shared::{Host, Hub};
use server_tasks::{LeavingSocket, ServerFault, Shared, Word};
use session_hash::SessionHash;
use std::alloc::{AllocError, Global};
use std::sync::{Mutex, Wait};
use std::time::Clock;
use tokio::io::{AsyncRead, AsyncWrite};

/// The part of a server that all its tasks share: its hub, and what they need to find one another. Its connections have tickets
/// `T`.
pub struct Server<
    'a,
    B: OfHub<H, S>,
    S: Stream,
    T: Ticket<S, H, C>,
    H: SessionHash,
    R,
    C: Moments,
> {
    pub(crate) rt: &'a R,
    pub clock: &'a C,
    pub hub: &'a Hub<H>,
    pub(crate) hash: &'a H,
    pub(crate) setup: &'a Setup,
    pub(crate) shared: Shared<AcceptedConnection<B, S, T, H, C>, S>,
    // Those without a connection. There is room for all, so that coming back takes no memory.
    free: Mutex<Vec<VacantSlot<B, S, H>>>,
    // The word that as many connections came as were to be accepted, once that is so.
    stop: Mutex<Option<Stop<B, S, H>>>,
    pub(crate) ghost set: { hub.now.setup ≡ setup.now },
    pub(crate) ghost hashed: { hub.now.hash ≡ hash.now },
    pub(crate) ghost here: { B.hub ≡ Some hub.now },
    pub(crate) ghost timed: { (moment : ℕ) → C.may_read clock.now moment → ∥ B.may_read moment ∥₁ },
    pub(crate) ghost timely: { (moment : ℕ) → B.may_read moment → ∥ C.may_read clock.now moment ∥₁ },
}

impl<
    'a,
    B: OfHub<H, S>,
    S: AsyncRead + AsyncWrite,
    T: Ticket<S, H, C>,
    H: SessionHash,
    R: Wait,
    C: Moments,
> Server<'a, B, S, T, H, R, C> {
    /// Makes the server of this hub, with room for `count` slots, numbered from 0. Refused only where memory runs out.
    pub fn new(
        alloc: Global,
        rt: &'a R,
        clock: &'a C,
        hub: &'a Hub<H>,
        hash: &'a H,
        setup: &'a Setup,
        count: usize,
    ) -> Result<Server<'a, B, S, T, H, R, C>, AllocError>
        requires set { hub.now.setup ≡ setup.now }
        requires hashed { hub.now.hash ≡ hash.now }
        requires here { B.hub ≡ Some hub.now }
        requires timed { (moment : ℕ) → C.may_read clock.now moment → ∥ B.may_read moment ∥₁ }
        requires timely { (moment : ℕ) → B.may_read moment → ∥ C.may_read clock.now moment ∥₁ }
        ensures hub { IfOk result (λ server. server.hub ≡ hub.entry) }
        ensures clock { IfOk result (λ server. server.clock ≡ clock.entry) }
        ensures slots { IfOk result (λ server. server.shared.wakers.count ≡ count) }
    {
        let free = Vec::with_capacity(alloc, count)?;
        let shared = match Shared::new(alloc, count) {
            Ok(shared) => shared,
            Err(refused) => {
                free.destroy_empty();
                return Err(refused);
            }
        };
        Ok(Server {
            rt,
            clock,
            hub,
            hash,
            setup,
            shared,
            free: Mutex::new(free),
            stop: Mutex::new(None),
        })
    }

    /// Admits a visitor for each of so many slots, which are free from then on.
    pub fn admit(&self, host: &mut Host<H>, count: usize)
        requires host { host.old ≡ record { home = self.now.hub.now.home; admitted = 0 } }
        requires few { count ≤ 65_536 }
        ensures host { host.new ≡ record host.old { admitted = count } }
    {
        for slot in 0..count {
            self.free(FreeSlot::new(host.admit(self.hub), Slot::new(slot)));
        }
    }

    /// Tells the moment of a call of the hub that follows.
    pub(crate) fn moment_of_call(&self) -> CallMoment
        ensures told { ∥ B.may_read result ∥₁ }
    {
        self.clock.moment_of_call()
    }

    /// Takes a slot that has no connection, or the word that there is none.
    pub(crate) fn take_slot(&self) -> Result<FreeSlot<B, S, H>, NoSlot> {
        last_of(&mut *self.free.lock(self.rt))
    }

    /// Takes a slot back that has no connection any more.
    pub(crate) fn free(&self, free: FreeSlot<B, S, H>) {
        let vacated = self.shared.wakers.vacate(free.slot.number());
        match self.keep(VacantSlot::new(free, vacated)) {
            None => {}
            // It does not come to this, since there is room for all.
            Some(vacant) => {
                let FreeSlot {
                    visitor,
                    slot,
                    of: _,
                } = vacant.into_free();
                drop(visitor);
                slot.give_up(self.shared.close(self.rt, Some(ServerFault::Start)));
            }
        }
    }

    /// Keeps a slot that is free, or gives it back where there is no room.
    fn keep(&self, vacant: VacantSlot<B, S, H>) -> Option<VacantSlot<B, S, H>> {
        match self.free.lock(self.rt).push(vacant) {
            Ok(()) => None,
            Err(refused) => Some(refused.value),
        }
    }

    /// Lets a socket go by and by whose last bytes are to reach its client.
    pub(crate) fn linger(&self, socket: Option<LeavingSocket<S>>)
    where
        R: Clock,
    {
        match socket {
            Some(socket) => {
                let _ = self.shared.lingering.linger(self.rt, socket);
            }
            None => {}
        }
    }

    /// Closes the server, because of this fault. All tasks end once their sessions have.
    pub(crate) fn close(&self, fault: ServerFault) {
        let _ = self.shared.close(self.rt, Some(fault));
    }

    /// Closes the server, since as many connections came as were to be accepted.
    pub(crate) fn stop(&self, stop: Stop<B, S, H>) {
        *self.stop.lock(self.rt) = Some(stop);
        let _ = self.shared.close(self.rt, None);
    }

    /// Gives the word that no fault was met so far; or says how the server ends by the first that was.
    pub fn no_fault(&self) -> Result<NoFault, Ending>
        ensures asked { IfOk result (λ asked. IfOk asked (λ word. word ≡ Asked None)) }
        ensures ending { IfErr result IsServerFault }
    {
        let (asked, fault) = self.shared.fault();
        ending_by(fault)?;
        Ok(asked)
    }

    /// Gives all slots that have no connection, once all tasks are over, and the word that as many connections came as were to be
    /// accepted; or the ending by which these could not go on.
    pub fn into_free_after(
        self,
        served: Result<NoFault, Ending>,
    ) -> Result<(AllFree<B, S, H>, Stop<B, S, H>), Ending>
        requires asked { IfOk served (λ asked. IfOk asked (λ word. word ≡ Asked None)) }
        requires ending { IfErr served IsServerFault }
        ensures served { OnOk result (IsOk served) }
        ensures ending { IfErr result IsServerFault }
    {
        let (free, stop) = self.into_parts();
        match (served, stop) {
            (Ok(_asked), Some(stop)) => Ok((free, stop)),
            // It does not come to this: tasks end well only where the server was stopped.
            (Ok(_asked), None) => {
                drop(free);
                Err(Ending::Memory)
            }
            (Err(ending), stop) => {
                drop(free);
                drop(stop);
                Err(ending)
            }
        }
    }

    /// Ends a server that serves nobody any more. A connection that no task took is cut off.
    pub fn end(self) {
        let (free, stop) = self.into_parts();
        drop(free);
        drop(stop);
    }

    pub(crate) fn into_parts(self) -> (AllFree<B, S, H>, Option<Stop<B, S, H>>) {
        let Server {
            rt: _,
            clock: _,
            hub: _,
            hash: _,
            setup: _,
            shared,
            free,
            stop,
        } = self;
        let (word, mut left) = shared.into_left();
        while let Some(accepted) = left.next() {
            accepted.cut_off(CutOff::left(&word));
        }
        left.end();
        (AllFree::new(free.into_inner(), word), stop.into_inner())
    }
}

/// The word that a server was asked for a fault and had met none, or that its lock was given up.
pub type NoFault = Result<Word, GaveUp>;

/// The word that no slot was free. It cannot be dropped.
pub struct NoSlot(());

impl NoSlot {
    /// Ends it.
    pub(crate) fn end(self) {
        let NoSlot(()) = self;
    }
}

/// Takes the last of these slots, or the word that there is none.
fn last_of<B: OfHub<H, S>, S: AsyncRead + AsyncWrite, H>(
    free: &mut Vec<VacantSlot<B, S, H>>,
) -> Result<FreeSlot<B, S, H>, NoSlot>
    ensures none { IfErr result (λ _. free.old.items ≡ []) }
{
    match free.pop() {
        Some(vacant) => Ok(vacant.into_free()),
        None => Err(NoSlot(())),
    }
}
