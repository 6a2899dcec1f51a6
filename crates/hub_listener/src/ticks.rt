use std::time::{Clock, Instant};
use system_answers::SystemAnswer;

/// A clock that measures how long something takes.
pub trait Ticks {
    ghost use Rattle.std.specs.Prelude.{Option};
    ghost use Rattle.std.specs.declared.time.Instant.{Instant};

    /// The readings that it may give: a time, or none.
    ghost ticks: { Self → Option Instant → Type 0 };

    /// Reads the time. There is none if the clock cannot be read.
    fn instant(&self) -> SystemAnswer<Option<Instant>>
        ensures read { ticks self.now result.given };
}

impl<R: Clock> Ticks for R {
    ghost use Rattle.std.specs.Prelude.{IfSome};
    ghost use Rattle.std.specs.Time.{FitsClock, instant_nanos};

    // The contract of a clock says only that a time which it gives is in its range.
    ghost ticks = { λ _ reading. IfSome reading (λ time. FitsClock (instant_nanos time)) };

    fn instant(&self) -> SystemAnswer<Option<Instant>> {
        system_answers::instant(self)
    }
}
