ghost use Rattle.std.specs.Prelude.{◌≡◌};
ghost use Rattle.hub_core.specs.declared.share.Touched.TheVariants.{Everybody};
ghost use Rattle.hub_connections.specs.Wakes.{AreWoken};

use futures::spin::GaveUp;
use hub_core::Touched;
use server_tasks::{Amount, Receipt, Wakers};
use std::marker::Model;

/// Whom a call of the hub concerned. It cannot be dropped: who wakes them uses it up. Contracts see whom.
pub(crate) struct Concerned {
    touched: Touched,
}

impl Model for Concerned {
    ghost use Rattle.hub_core.specs.declared.share.Touched.{Touched};

    ghost Value = { Touched };

    ghost view = { λ concerned. concerned.touched };
}

/// The receipts of those who were woken after a call of the hub.
#[derive(Drop)]
pub enum Woken {
    /// The call concerned nobody else, or is owed.
    Nobody,
    One(Result<Receipt, GaveUp>),
    Two(Result<(Receipt, Receipt), GaveUp>),
    Everybody(Result<Receipt, GaveUp>),
}

impl Concerned {
    /// Names those whom a call concerned.
    pub(crate) fn new(touched: Touched) -> Concerned
        ensures { result ≡ touched }
    {
        Concerned { touched }
    }

    /// Gives whom.
    pub(crate) fn touched(&self) -> Touched
        ensures { result ≡ self.now }
    {
        self.touched
    }

    /// Wakes them: the session of the slot `own` gave each a line of so many bytes in this second.
    pub(crate) fn wake(self, wakers: &Wakers, own: usize, bytes: u64, second: u64) -> Woken
        ensures { AreWoken self own bytes second result }
    {
        let Concerned { touched } = self;
        match touched {
            Touched::Nobody => Woken::Nobody,
            Touched::One(sid) => Woken::One(wakers.wake_one(sid, own, bytes, second)),
            Touched::Two(one, other) => {
                Woken::Two(wakers.wake_two(one, other, own, bytes, second))
            }
            Touched::Everybody => {
                wakers.count_broadcast(bytes);
                let given = Amount::of_line(bytes);
                Woken::Everybody(wakers.wake_everybody(own, given, second))
            }
        }
    }

    /// Notes that everybody is owed to be woken.
    pub(crate) fn owe(self)
        requires { self ≡ Everybody }
    {
        let Concerned { touched: _ } = self;
    }
}
