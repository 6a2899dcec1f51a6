ghost use Rattle.std.specs.Prelude.{◌≡◌, Some, false, IfOk};
ghost use Rattle.hub_connections.specs.NamedHub.{home_in};
ghost use Rattle.hub_connections.specs.Visits.{HasVisited};
ghost use Rattle.server_tasks.specs.declared.slots.SlotEvent.TheVariants.{Cleared};

use crate::slot::Slot;
use adc_sessions::Stream;
use futures::spin::GaveUp;
use hub_shared::Visitor;
use server_tasks::Receipt;
use session_hash::SessionHash;
use std::marker::{Brand, PhantomData};
use tokio::io::{AsyncRead, AsyncWrite};

/// A name of the hub that all is about, of the moments of its calls, and of those who come to it over streams `S`. It travels
/// through tasks: a proof picks it.
pub trait OfHub<H, S> {
    ghost use Rattle.std.specs.Prelude.{Option, ℕ, List};
    ghost use Rattle.hub_shared.specs.Callers.{HubState};

    /// The hub.
    ghost hub: { Option (HubState H) };

    /// The moments of its calls.
    ghost may_read: { ℕ → Type 0 };

    /// Who comes: the address, the challenge, and the stream as it began.
    ghost arrives: { List ℕ → List ℕ → S → Type 0 };

    /// As many connections came as the server was to accept.
    ghost stops: { Type 0 };
}

impl<H, S> OfHub<H, S> for Brand {
    ghost use Rattle.std.specs.Prelude.{None, ⊤};

    ghost hub = { None };

    ghost may_read = { λ _. ⊤ };

    ghost arrives = { λ _ _ _. ⊤ };

    ghost stops = { ⊤ };
}

/// A slot without a connection, and the visitor of the named hub who joins for the next one. All its calls so far are visits,
/// whose connections were streams `S`. It cannot be dropped, since the slot cannot.
pub struct FreeSlot<B: OfHub<H, S>, S: Stream, H> {
    pub(crate) visitor: Visitor<H>,
    pub(crate) slot: Slot,
    pub(crate) of: PhantomData<(B, S)>,
    pub(crate) ghost here: { home_in B.hub ≡ Some visitor.home },
    pub(crate) ghost visits: { HasVisited ⟦<S as Stream>⟧.reports B.may_read B.arrives visitor },
}

impl<B: OfHub<H, S>, S: AsyncRead + AsyncWrite, H> FreeSlot<B, S, H> {
    /// Gives this slot to a visitor of the named hub whose calls are visits.
    pub fn new(visitor: Visitor<H>, slot: Slot) -> FreeSlot<B, S, H>
        requires here { home_in B.hub ≡ Some visitor.home }
        requires visits { HasVisited ⟦<S as Stream>⟧.reports B.may_read B.arrives visitor }
        ensures { result.visitor ≡ visitor }
    {
        FreeSlot {
            visitor,
            slot,
            of: PhantomData,
        }
    }
}

/// A free slot that waits for its next connection, and the word that it was taken from the session before.
pub(crate) struct VacantSlot<B: OfHub<H, S>, S: Stream, H> {
    free: FreeSlot<B, S, H>,
    vacated: Result<Receipt, GaveUp>,
    ghost taken: { ∥ IfOk vacated (λ deed. deed ≡ Cleared free.slot false) ∥₁ },
}

impl<B: OfHub<H, S>, S: Stream, H> VacantSlot<B, S, H> {
    /// Makes it of a slot that was taken from its session, as this word says.
    pub(crate) fn new(
        free: FreeSlot<B, S, H>,
        vacated: Result<Receipt, GaveUp>,
    ) -> VacantSlot<B, S, H>
        requires taken { IfOk vacated (λ deed. deed ≡ Cleared free.slot false) }
    {
        VacantSlot { free, vacated }
    }

    /// Gives the slot to a connection.
    pub(crate) fn into_free(self) -> FreeSlot<B, S, H> {
        let VacantSlot { free, vacated } = self;
        drop(vacated);
        free
    }
}

/// The word that as many connections came as the server was to accept.
#[derive(Drop)]
pub struct Stop<B: OfHub<H, S>, S, H> {
    of: PhantomData<(B, S, H)>,
    pub(crate) ghost stopped: { ∥ B.stops ∥₁ },
}

impl<B: OfHub<H, S>, S, H> Stop<B, S, H> {
    pub(crate) fn new() -> Stop<B, S, H>
        requires stopped { ∥ B.stops ∥₁ }
    {
        Stop { of: PhantomData }
    }
}
