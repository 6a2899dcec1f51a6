use hub_core::Setup;
use hub_shared::Host;
use std::net::SocketAddrV4;
use std::snapshot::Snapshot;

/// What a server serves its connections by: its hub, which its host, its setup and its hash tell, the clock of its moments, the
/// seed of its challenges, and the place where it listens. It holds nothing: only proofs look at it.
#[derive(Drop)]
pub struct Terms<H, C> {
    pub host: Snapshot<Host<H>>,
    pub setup: Snapshot<Setup>,
    pub hash: Snapshot<H>,
    pub clock: Snapshot<C>,
    pub seed: Snapshot<[u8; 32]>,
    pub place: Snapshot<SocketAddrV4>,
}
