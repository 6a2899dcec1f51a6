//! The clock, as far as it can be read.
ghost use Rattle.std.specs.Prelude.{◌≡◌, ◌+◌, ◌*◌, IfOk};
ghost use Rattle.std.specs.Time.{instant_nanos};

use std::time::{Clock, Duration, Instant};

/// The word that the clock could not be read, or does not go so far.
#[derive(Clone, Copy)]
pub struct NoClock(());

/// Reads the clock.
pub(crate) fn read<R: Clock>(rt: &R) -> Result<Instant, NoClock> {
    Instant::now(rt).map_err(|_| NoClock(()))
}

/// Gives the moment so many seconds after this one.
pub(crate) fn later(now: Instant, seconds: u64) -> Result<Instant, NoClock>
    ensures { IfOk result (λ then. instant_nanos then ≡ instant_nanos now + seconds * 1_000_000_000) }
{
    now.checked_add(Duration::from_secs(seconds))
        .ok_or(NoClock(()))
}
