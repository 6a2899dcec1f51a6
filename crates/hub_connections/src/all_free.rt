ghost use Rattle.std.specs.Prelude.{◌≡◌, ◌≤◌, ◌+◌, [], Some, IfSome, MatchOption, vec_len, vec_capacity};
ghost use Rattle.std.specs.List.{All};
ghost use Rattle.one_history.specs.States.{Home};
ghost use Rattle.hub_shared.specs.declared.hub_key.HubKey.{HubKey};
ghost use Rattle.server_tasks.specs.declared.places.PlacesDeed.TheVariants.{Emptied};
ghost use Rattle.hub_connections.specs.NamedHub.{home_in};
ghost use Rattle.hub_connections.specs.Visits.{HasVisited};

use crate::free_slot::{FreeSlot, OfHub, VacantSlot};
use adc_sessions::Stream;
use hub_shared::Visitor;
use server_tasks::PlacesWord;
use tokio::io::{AsyncRead, AsyncWrite};

/// The slots that are free once their server is over: they end, and their visitors are left.
pub struct AllFree<B: OfHub<H, S>, S: Stream, H> {
    free: Vec<VacantSlot<B, S, H>>,
    word: PlacesWord,
    ghost emptied: { word ≡ Emptied },
}

impl<B: OfHub<H, S>, S: Stream, H> AllFree<B, S, H> {
    /// Makes these of a server of which nothing is left.
    pub(crate) fn new(free: Vec<VacantSlot<B, S, H>>, word: PlacesWord) -> AllFree<B, S, H>
        requires emptied { word ≡ Emptied }
    {
        AllFree { free, word }
    }

    /// Ends one, and gives its visitor, or nothing where none is left.
    pub(crate) fn next(&mut self) -> Option<Visitor<H>>
        ensures here { IfSome result (λ visitor. home_in B.hub ≡ Some visitor.home) }
        ensures visits { IfSome result (λ visitor. HasVisited ⟦<S as Stream>⟧.reports B.may_read B.arrives visitor) }
        ensures fewer { MatchOption result (vec_len self.old.free ≡ 0) (λ _. vec_len self.new.free + 1 ≡ vec_len self.old.free) }
    {
        match self.free.pop() {
            Some(vacant) => {
                let FreeSlot {
                    visitor,
                    slot,
                    of: _,
                } = vacant.into_free();
                slot.end(&self.word);
                Some(visitor)
            }
            None => None,
        }
    }
}

impl<B: OfHub<H, S>, S: Stream, H> Drop for AllFree<B, S, H> {
    fn drop(self) {
        let AllFree { mut free, word } = self;
        while let Some(vacant) = free.pop() {
            let FreeSlot {
                visitor,
                slot,
                of: _,
            } = vacant.into_free();
            drop(visitor);
            slot.end(&word);
        }
        free.destroy_empty();
        drop(word);
    }
}

/// Gives the visitors of these slots, as many as there is room for in `visitors`, which has none yet.
pub fn leave<B: OfHub<H, S>, S: AsyncRead + AsyncWrite, H>(
    free: AllFree<B, S, H>,
    visitors: Vec<Visitor<H>>,
) -> Vec<Visitor<H>>
    requires none { visitors.items ≡ [] }
    ensures here { (home : Home (HubKey H)) → home_in B.hub ≡ Some home → All (λ v. v.home ≡ home) result.items }
    ensures visits { All (λ v. HasVisited ⟦<S as Stream>⟧.reports B.may_read B.arrives v) result.items }
    ensures all { vec_len free.free + vec_len visitors ≤ vec_capacity visitors → vec_len result ≡ vec_len free.free + vec_len visitors }
{
    let (mut free, mut visitors) = (free, visitors);
    while let Some(visitor) = free.next() {
        let _ = visitors.push(visitor);
    }
    visitors
}
