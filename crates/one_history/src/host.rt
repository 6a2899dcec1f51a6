ghost use Rattle.std.specs.Prelude.{◌≡◌, ℕ, ◌+◌, ◌^◌, ◌<◌, ◌∷◌, length};
ghost use Rattle.one_history.specs.States.{home_of, newcomer, caller_of, IsIdleAt};
ghost use Rattle.one_history.specs.Seats.{host_of, IsIdle};

use crate::lock::{Lock, LockSeat};
use crate::rule::Recorded;
use crate::seat::Seat;
use crate::steps::{Admits, Gathers};
use std::marker::Model;

/// The one seat that admits callers and takes their seats back. Contracts see how many it has
/// admitted, and the callers that have gone, each with what it had seen and made.
pub struct Host<T, E, A> {
    pub(crate) place: LockSeat<T, E, A>,
    pub(crate) admitted: u64,
    pub(crate) gathered: u64,
}

impl<T, E, A> Model for Host<T, E, A> {
    ghost use Rattle.one_history.specs.States.{LockHostState};
    ghost use Rattle.one_history.specs.Seats.{host_of, IsHost};

    ghost Value = { LockHostState E A };

    ghost view = { λ h. host_of h.place.table_id h.place.me.0 };

    ghost invariant = { λ h. IsHost h.place.id h.place.me h.admitted h.gathered };
}

impl<T, E, A> Host<T, E, A> {
    /// Counts the callers who were admitted.
    pub fn admitted(&self) -> u64
        ensures { result ≡ self.now.admitted }
    {
        self.admitted
    }

    /// Counts those who have given their seats back.
    pub fn gathered_seats(&self) -> u64
        ensures { result ≡ length self.now.gathered }
    {
        self.gathered
    }

    pub(crate) fn into_place(self) -> LockSeat<T, E, A>
        ensures shown { host_of result.table_id result.me.0 ≡ self }
        ensures first { result.id ≡ 0 }
        ensures idle { IsIdle result.me }
    {
        let Host {
            place,
            admitted: _,
            gathered: _,
        } = self;
        place
    }
}

impl<T: Recorded<E, A>, E, A> Host<T, E, A> {
    /// Admits a caller, whose number is the next, from 1 on. It has seen nothing and made nothing.
    /// Condition: the count of callers stays below 2^64.
    pub fn admit(&mut self, lock: &Lock<T, E, A>) -> Seat<T, E, A>
        requires here { self.old.home ≡ home_of lock.now }
        requires room { self.old.admitted + 1 < 2 ^ 64 }
        ensures host { self.new ≡ record self.old { admitted = self.old.admitted + 1 } }
        ensures seat { result ≡ newcomer lock.now (self.old.admitted + 1) }
    {
        let place = lock.table.shared.split_seat::<Admits>(&mut self.place);
        self.admitted += 1;
        Seat { place }
    }

    /// Takes a caller's seat back. The caller is then among those that have gone.
    pub fn gather(&mut self, lock: &Lock<T, E, A>, seat: Seat<T, E, A>)
        requires here { self.old.home ≡ home_of lock.now }
        requires idle { IsIdleAt lock.now seat }
        requires room { length self.old.gathered + 1 < 2 ^ 64 }
        ensures { self.new ≡ record self.old { gathered = caller_of seat ∷ self.old.gathered } }
    {
        lock.table
            .shared
            .join_seat::<Gathers>(&mut self.place, seat.into_place());
        self.gathered += 1;
    }
}

impl<T, E, A> Drop for Host<T, E, A> {
    fn drop(self) {
        let Host {
            place,
            admitted: _,
            gathered: _,
        } = self;
        drop(place);
    }
}
