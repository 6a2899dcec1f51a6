use hub_core::{Core, Setup};
use hub_rules::Entry;
use one_history::{Lock, Recorded, Seat};
use session_hash::SessionHash;
use std::snapshot::Snapshot;

/// The things that a hub is about: the setup and the hash that it was opened with. It has no bytes, and only proofs look at
/// it.
#[derive(Drop)]
pub struct HubKey<H> {
    pub setup: Snapshot<Setup>,
    pub hash: Snapshot<H>,
}

impl<H: SessionHash> Recorded<Entry, HubKey<H>> for Box<Core> {
    ghost use Rattle.hub_core.specs.Moves.{StandsAt};
    ghost use Rattle.hub_rules.specs.Legal.{Legal};

    ghost by = { λ e. e.caller };

    ghost legal = { λ about h. Legal about.setup.value (H.digest_of about.hash.value) h };

    ghost stands = { λ about core h. StandsAt about.setup.value (H.digest_of about.hash.value) h core.value };
}

pub(crate) type HubLock<H> = Lock<Box<Core>, Entry, HubKey<H>>;

pub(crate) type HubSeat<H> = Seat<Box<Core>, Entry, HubKey<H>>;

pub(crate) type HostSeat<H> = one_history::Host<Box<Core>, Entry, HubKey<H>>;
