ghost use Rattle.std.specs.Prelude.{◌≡◌};
ghost use Rattle.hub_shared.specs.Callers.{hub_of};

use crate::hub_key::HubLock;
use hub_core::Core;
use session_hash::SessionHash;
use std::marker::Model;

/// A hub that threads share. All calls on it stand in one legal history of a hub for one thread. Contracts see which
/// hub it is, its setup, and what its hash means.
pub struct Hub<H: SessionHash> {
    pub(crate) lock: HubLock<H>,
}

impl<H: SessionHash> Model for Hub<H> {
    ghost use Rattle.hub_shared.specs.Callers.{HubState, hub_of};

    ghost Value = { HubState H };

    ghost view = { λ h. hub_of h.lock };
}

impl<H: SessionHash> Hub<H> {
    pub(crate) fn into_lock(self) -> HubLock<H>
        ensures { hub_of result ≡ self }
    {
        let Hub { lock } = self;
        lock
    }
}

impl<H: SessionHash> Drop for Hub<H> {
    fn drop(self) {
        let Hub { lock } = self;
        drop(lock);
    }
}
