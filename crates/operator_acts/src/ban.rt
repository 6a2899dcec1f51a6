ghost use Rattle.std.specs.Prelude.{◌≡◌};
ghost use Rattle.operator_acts.specs.Bans.{left_of};

use crate::left::Left;

/// A ban: from which moment on, and for how many seconds, or for good where there are 0.
#[derive(Clone, Copy, PartialEq, Eq)]
pub struct Ban {
    /// The number of seconds for which it holds.
    pub seconds: u32,
    /// The moment of the ban, in seconds.
    pub moment: u64,
}

impl Ban {
    /// Gives what is left of it at a moment.
    pub(crate) fn left_at(&self, now: u64) -> Left
        ensures { result ≡ left_of (Some self.now) now }
    {
        if self.seconds == 0 {
            return Left::Ever;
        }
        let end = self.moment.saturating_add(u64::from(self.seconds));
        if now < end {
            Left::For(end - now)
        } else {
            Left::Free
        }
    }
}
