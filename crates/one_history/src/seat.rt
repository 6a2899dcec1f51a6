ghost use Rattle.std.specs.Prelude.{◌≡◌};
ghost use Rattle.one_history.specs.Seats.{seat_of, IsSeat};

use crate::lock::LockSeat;
use std::marker::Model;

/// A caller's seat at a lock. It has no bytes. Contracts see the caller's number, the beginning of
/// the history that it has seen, its own entries, and whether it holds the value.
pub struct Seat<T, E, A> {
    pub(crate) place: LockSeat<T, E, A>,
}

impl<T, E, A> Model for Seat<T, E, A> {
    ghost use Rattle.one_history.specs.States.{SeatState};
    ghost use Rattle.one_history.specs.Seats.{seat_of, IsSeat};

    ghost Value = { SeatState E A };

    ghost view = { λ s. seat_of s.place.table_id s.place.me.0 };

    ghost invariant = { λ s. IsSeat s.place.me };
}

impl<T, E, A> Seat<T, E, A> {
    pub(crate) fn into_place(self) -> LockSeat<T, E, A>
        ensures shown { seat_of result.table_id result.me.0 ≡ self }
        ensures seat { IsSeat result.me }
    {
        let Seat { place } = self;
        place
    }
}

/// A value that a caller's seat can be taken out of.
pub trait Seated<T, E, A> {
    ghost use Rattle.one_history.specs.States.{SeatState};

    ghost seat: { Self → SeatState E A };

    fn into_seat(self) -> Seat<T, E, A>
        ensures { result ≡ seat self };
}

impl<T, E, A> Seated<T, E, A> for Seat<T, E, A> {
    ghost seat = { λ s. s };

    fn into_seat(self) -> Seat<T, E, A> {
        self
    }
}

impl<T, E, A> Drop for Seat<T, E, A> {
    fn drop(self) {
        let Seat { place } = self;
        drop(place);
    }
}
