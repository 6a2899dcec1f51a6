ghost use Rattle.std.specs.Prelude.{◌≡◌, IfOk};
ghost use Rattle.std.specs.Arc.{arc_value};

use crate::host::Host;
use crate::hub::Hub;
use crate::hub_key::HubKey;
use hub_core::{Core, OpenRefused, Setup};
use one_history::Lock;
use session_hash::SessionHash;
use std::alloc::Global;
use std::snapshot::Snapshot;
use std::sync::Arc;

impl<H: SessionHash> Hub<H> {
    /// Opens a hub, and gives the host, which has admitted nobody. The hub keeps no hash: its promises are about the
    /// value of the one that is lent here.
    ///
    /// Refused: `Memory`.
    pub fn open(
        alloc: Global,
        setup: Arc<Setup>,
        hash: &H,
    ) -> Result<(Hub<H>, Host<H>), OpenRefused>
        ensures setup { IfOk result (λ r. r.0.setup ≡ arc_value setup) }
        ensures hash { IfOk result (λ r. r.0.hash ≡ hash.now) }
        ensures host { IfOk result (λ r. r.1 ≡ record { home = r.0.home; admitted = 0 }) }
    {
        let about = HubKey {
            setup: Snapshot::of(&setup),
            hash: Snapshot::of(hash),
        };
        let Ok(core) = Box::new(alloc, Core::open(alloc, setup)?) else {
            return Err(OpenRefused::Memory);
        };
        match Lock::open(alloc, core, &about) {
            Ok((lock, seat)) => Ok((Hub { lock }, Host { seat })),
            Err(_) => Err(OpenRefused::Memory),
        }
    }
}
