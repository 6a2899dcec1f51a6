ghost use Rattle.std.specs.Prelude.{◌≡◌, OnOk, false};
ghost use Rattle.counted_io.specs.Calls.{CountsFailures};

use std::io;

/// The calls of a reader or a writer that failed.
#[derive(Clone, Copy, Debug, PartialEq, Eq)]
pub struct Failures {
    /// The number of them. It stops at `u64::MAX`.
    pub count: u64,
    /// Whether the last call was one of them.
    pub is_last: bool,
}

impl Failures {
    /// Counts a call that gave this answer.
    pub(crate) fn note<T>(&mut self, answer: &io::Result<T>)
        ensures counts { CountsFailures answer.now self.old self.new }
        ensures well { OnOk answer.now (self.new.is_last ≡ false) }
    {
        match answer {
            Ok(_) => self.is_last = false,
            Err(_) => {
                self.count = self.count.saturating_add(1);
                self.is_last = true;
            }
        }
    }
}
