ghost use Rattle.std.specs.Prelude.{◌≡◌};
ghost use Rattle.hub_warnings.specs.Clocks.{ReadsSeconds};

use hub_warnings::{WallClock, seconds_since_1970};
use std::marker::Model;

/// The moment of one call, as a clock told it. Nobody can copy it, or make one of a number: the call uses it up. Contracts see its
/// seconds since 1970.
pub struct CallMoment {
    seconds: u64,
}

impl Model for CallMoment {
    ghost use Rattle.std.specs.Prelude.{ℕ};

    ghost Value = { ℕ };

    ghost view = { λ moment. moment.seconds };
}

impl CallMoment {
    /// Reads it from a clock.
    pub fn read<R: WallClock>(rt: &R) -> CallMoment
        ensures { ReadsSeconds R.reads rt.now result }
    {
        CallMoment {
            seconds: moment(rt),
        }
    }

    /// Gives the seconds since 1970, for the call.
    pub fn into_seconds(self) -> u64
        ensures { result ≡ self }
    {
        let CallMoment { seconds } = self;
        seconds
    }
}

/// What tells the moments of calls, in seconds since 1970.
pub trait Moments {
    ghost use Rattle.std.specs.Prelude.{ℕ};

    /// The moments that it may tell.
    ghost may_read: { Self → ℕ → Type 0 };

    /// Tells the moment of a call that follows.
    fn moment_of_call(&self) -> CallMoment
        ensures told { may_read self.now result };
}

impl<R: WallClock> Moments for R {
    // The whole seconds of a reading.
    ghost may_read = { ReadsSeconds R.reads };

    fn moment_of_call(&self) -> CallMoment {
        CallMoment::read(self)
    }
}

/// Gives the moment of a call, in seconds since 1970; 0 where the clock cannot be read. Settings are read with an opening
/// on the same clock.
pub fn moment<R: WallClock>(rt: &R) -> u64
    ensures { ReadsSeconds R.reads rt.now result }
{
    seconds_since_1970(rt)
}
