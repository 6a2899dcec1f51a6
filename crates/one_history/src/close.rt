ghost use Rattle.std.specs.Prelude.{◌≡◌, ◌+◌, ◌^◌, ◌<◌, ◌↔◌, ◌++◌, length};
ghost use Rattle.std.specs.Prelude.{IsOk, IfOk, IfErr};
ghost use Rattle.std.specs.List.{All};
ghost use Rattle.one_history.specs.States.{home_of, callers_of, IsIdleAt};
ghost use Rattle.one_history.specs.Settled.{Settles};

use crate::host::Host;
use crate::lock::Lock;
use crate::rule::Recorded;
use crate::seat::{Seat, Seated};

/// The refusal of a close: there are callers who still have their seats. All that was handed in comes back.
#[derive(Drop)]
pub struct NotAlone<S, T: Recorded<E, A>, E, A> {
    pub lock: Lock<T, E, A>,
    pub host: Host<T, E, A>,
    pub seats: Vec<S>,
}

impl<T: Recorded<E, A>, E, A> Lock<T, E, A> {
    /// Ends the lock once all seats are back, and gives the value. There is then one legal history of
    /// all callers. At `NotAlone` there are not as many seats, with those that the host took back
    /// before, as callers were admitted.
    pub fn close<S: Seated<T, E, A>>(
        self,
        mut host: Host<T, E, A>,
        seats: Vec<S>,
    ) -> Result<T, NotAlone<S, T, E, A>>
        requires here { host.home ≡ home_of self }
        requires seats { All (λ s. IsIdleAt self (S.seat s)) seats.items }
        ensures ok { IsOk result ↔ (length host.gathered + length seats.items ≡ host.admitted) }
        ensures settled { IfOk result (λ value.
            let all = callers_of S.seat seats.items ++ host.gathered in
            Settles T.by (T.legal self.about) (T.stands self.about value) all) }
        ensures back { IfErr result (λ r. (r.lock ≡ self) × (r.host ≡ host) × (r.seats.items ≡ seats.items)) }
    {
        if host.admitted().checked_sub(host.gathered_seats()) != Some(seats.len() as u64) {
            return Err(NotAlone {
                lock: self,
                host,
                seats,
            });
        }
        gather_all(&self, &mut host, seats);
        Ok(self.end(host))
    }

    // Gives the value, once the host has all seats.
    fn end(self, host: Host<T, E, A>) -> T
        requires here { host.home ≡ home_of self }
        requires alone { length host.gathered ≡ host.admitted }
        ensures { Settles T.by (T.legal self.about) (T.stands self.about result) host.gathered }
    {
        let mut closed = self.into_table().close_with(host.into_place());
        let slot = closed.take(0);
        closed.free();
        let Some(value) = slot else { unreachable!() };
        value
    }
}

fn gather_all<S: Seated<T, E, A>, T: Recorded<E, A>, E, A>(
    lock: &Lock<T, E, A>,
    host: &mut Host<T, E, A>,
    mut seats: Vec<S>,
)
    requires here { host.old.home ≡ home_of lock.now }
    requires seats { All (λ s. IsIdleAt lock.now (S.seat s)) seats.items }
    requires room { length host.old.gathered + length seats.items < 2 ^ 64 }
    ensures { let all = callers_of S.seat seats.items ++ host.old.gathered in
        host.new ≡ record host.old { gathered = all } }
{
    while let Some(seat) = seats.pop() {
        host.gather(lock, seat.into_seat());
    }
    seats.destroy_empty();
}
