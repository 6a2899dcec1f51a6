use hub_connections::{Started, Terms};
use hub_shared::{Report, Visitor};
use session_hash::SessionHash;
use std::snapshot::Snapshot;

/// What is left of a server that has closed its hub: the hub's report, what the journal was told at the start, and for proofs the
/// terms by which it served and the visitors who came back.
#[derive(Drop)]
pub struct ServedVisits<'p, H: SessionHash, C> {
    pub report: Report,
    pub started: Started<'p>,
    pub terms: Terms<H, C>,
    pub visitors: Snapshot<Vec<Visitor<H>>>,
}
