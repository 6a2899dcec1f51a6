//! The seconds that a clock tells.
ghost use Rattle.hub_warnings.specs.Clocks.{ReadsSeconds};

use std::time::{Clock, Duration};
use system_answers::SystemAnswer;

/// A clock of the time of day.
pub trait WallClock {
    ghost use Rattle.std.specs.Prelude.{Option};
    ghost use Rattle.std.specs.declared.time.Duration.{Duration};

    /// The readings that it may give: the time since 1970, or none.
    ghost reads: { Self → Option Duration → Type 0 };

    /// Reads the time since 1970. There is none if the clock cannot be read.
    fn time_since_1970(&self) -> SystemAnswer<Option<Duration>>
        ensures read { reads self.now result.given };
}

impl<R: Clock> WallClock for R {
    ghost use Rattle.std.specs.Prelude.{⊤};

    // The contract of a clock says nothing of what it gives, so any reading may be one of it.
    ghost reads = { λ _ _. ⊤ };

    fn time_since_1970(&self) -> SystemAnswer<Option<Duration>> {
        system_answers::time_since_1970(self)
    }
}

/// Returns the whole seconds since 1970 that this clock reads, and 0 if it cannot be read.
pub fn seconds_since_1970<C: WallClock>(clock: &C) -> u64
    ensures { ReadsSeconds C.reads clock.now result }
{
    match clock.time_since_1970().into_inner() {
        Some(time) => time.as_secs(),
        None => 0,
    }
}
