ghost use Rattle.std.specs.Prelude.{IfSome};
ghost use Rattle.std.specs.Time.{FitsClock, instant_nanos};

use crate::answer::SystemAnswer;
use std::time::{Clock, Duration, Instant};

/// Reads the time by which durations are measured. There is none where the clock cannot be read.
pub fn instant<C: Clock>(clock: &C) -> SystemAnswer<Option<Instant>>
    ensures { IfSome result.given (λ time. FitsClock (instant_nanos time)) }
{
    SystemAnswer {
        given: Instant::now(clock).ok(),
    }
}

/// Reads the time since 1970. There is none where the clock cannot be read.
pub fn time_since_1970<C: Clock>(clock: &C) -> SystemAnswer<Option<Duration>> {
    SystemAnswer {
        given: clock.since_1970().ok(),
    }
}
